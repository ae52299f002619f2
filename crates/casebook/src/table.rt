//! The table of proved cases.
ghost use Rattle.std.specs.Prelude.{◌≡◌, ◌++◌};
ghost use Rattle.questions.specs.Right.{RightTable};
ghost use Rattle.casebook.specs.Right.{Right};

use crate::question::Question;
use machine::Call;
use questions::{A, Case, HoldPlan, OrderPlan, SetupPlan};

/// Two lanes with feeds (1, 2), (4, 6) and (4, 6), under first-come and never.
pub const FIRST_COME: SetupPlan<'static> = SetupPlan(A, OrderPlan::FirstCome, HoldPlan::Never);

/// A release of feed 1.
pub const RELEASE: Call = Call::Release { feed: 1, cost: 1 };

/// A step with room for the picks of all lanes.
pub const STEP: Call = Call::Step { room: 8 };

// The cases for which a dispatcher is opened.
const CALLED: [Case<Question<'static>>; 2] = [
    Case {
        question: Question::Accepted(FIRST_COME, &[RELEASE, STEP, STEP, RELEASE]),
        answer: Ok(2),
    },
    Case {
        question: Question::Accepted(FIRST_COME, &[RELEASE, STEP, RELEASE]),
        answer: Ok(1),
    },
];

// The one table behind the other.
fn joined(
    still: [Case<Question<'static>>; 17],
    called: [Case<Question<'static>>; 2],
) -> [Case<Question<'static>>; 19]
    ensures { result ≡ still.entry ++ called.entry }
{
    let mut all = [called[0]; 19];
    all[..17].copy_from_slice(&still);
    all[17..].copy_from_slice(&called);
    all
}

/// The cases: those for which no dispatcher is opened, and two for which one is.
/// The answer of each is right, and no other answer is.
pub fn cases() -> [Case<Question<'static>>; 19]
    ensures { RightTable Right result }
{
    let still = questions::cases().map(|case| Case {
        question: Question::Still(case.question),
        answer: case.answer,
    });
    joined(still, CALLED)
}
