//! The table of proved cases.
ghost use Rattle.questions.specs.Right.{Right, RightTable};

use crate::plan::{Case, HoldPlan, OrderPlan, Plan, Question, SetupPlan};
use refusal::Refusal;
use roster::Feed;

/// Two lanes with feeds (1, 2), (4, 6) and (4, 6).
pub const A: Plan<'static> = Plan {
    lanes: 2,
    feeds: &[
        Feed {
            cost: 1,
            spacing: 2,
        },
        Feed {
            cost: 4,
            spacing: 6,
        },
        Feed {
            cost: 4,
            spacing: 6,
        },
    ],
};

// One lane that one feed keeps busy.
const BUSY: Plan<'static> = Plan {
    lanes: 1,
    feeds: &[Feed {
        cost: 1,
        spacing: 1,
    }],
};

// One lane and no feeds.
const EMPTY: Plan<'static> = Plan {
    lanes: 1,
    feeds: &[],
};

// One lane that two feeds keep busy.
const HALVES: Plan<'static> = Plan {
    lanes: 1,
    feeds: &[
        Feed {
            cost: 1,
            spacing: 2,
        },
        Feed {
            cost: 1,
            spacing: 2,
        },
    ],
};

// One lane and a feed of a long spacing.
const LONG: Plan<'static> = Plan {
    lanes: 1,
    feeds: &[Feed {
        cost: 1,
        spacing: 59_999,
    }],
};

// More lanes than a roster can have.
const WIDE: Plan<'static> = Plan {
    lanes: 9,
    feeds: &[],
};

/// The cases. The answer of each is right, and no other answer is.
pub fn cases() -> [Case<Question<'static>>; 17]
    ensures { RightTable Right result }
{
    [
        Case {
            question: Question::Hyperperiod(A),
            answer: Ok(6),
        },
        Case {
            question: Question::Margin(SetupPlan(A, OrderPlan::FirstCome, HoldPlan::Never)),
            answer: Ok(9),
        },
        Case {
            question: Question::Margin(SetupPlan(A, OrderPlan::FirstCome, HoldPlan::Always)),
            answer: Ok(12),
        },
        Case {
            question: Question::Margin(SetupPlan(A, OrderPlan::FirstCome, HoldPlan::Blocks(2))),
            answer: Ok(12),
        },
        Case {
            question: Question::Margin(SetupPlan(A, OrderPlan::ByDue, HoldPlan::Never)),
            answer: Ok(3),
        },
        Case {
            question: Question::Margin(SetupPlan(A, OrderPlan::ByDue, HoldPlan::Always)),
            answer: Ok(6),
        },
        Case {
            question: Question::Margin(SetupPlan(A, OrderPlan::ByDue, HoldPlan::Blocks(2))),
            answer: Ok(6),
        },
        Case {
            question: Question::Margin(SetupPlan(A, OrderPlan::Part(1, 2), HoldPlan::Never)),
            answer: Ok(9),
        },
        Case {
            question: Question::Margin(SetupPlan(BUSY, OrderPlan::ByDue, HoldPlan::Never)),
            answer: Ok(0),
        },
        Case {
            question: Question::Add(
                EMPTY,
                Feed {
                    cost: 1,
                    spacing: 60_000,
                },
            ),
            answer: Ok(1),
        },
        Case {
            question: Question::Add(
                EMPTY,
                Feed {
                    cost: 1,
                    spacing: 60_001,
                },
            ),
            answer: Err(Refusal::Feed),
        },
        Case {
            question: Question::Point(OrderPlan::Part(1, 2), 7, 10),
            answer: Ok(13),
        },
        Case {
            question: Question::Hyperperiod(WIDE),
            answer: Err(Refusal::Lanes),
        },
        Case {
            question: Question::Add(
                LONG,
                Feed {
                    cost: 1,
                    spacing: 60_000,
                },
            ),
            answer: Err(Refusal::Hyperperiod),
        },
        Case {
            question: Question::Add(
                HALVES,
                Feed {
                    cost: 1,
                    spacing: 3,
                },
            ),
            answer: Err(Refusal::Overload),
        },
        Case {
            question: Question::Point(OrderPlan::Part(2, 2), 7, 10),
            answer: Err(Refusal::Setting),
        },
        Case {
            question: Question::Margin(SetupPlan(A, OrderPlan::ByDue, HoldPlan::Blocks(1))),
            answer: Err(Refusal::Setting),
        },
    ]
}
