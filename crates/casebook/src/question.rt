//! What is asked, and asking it.
ghost use Rattle.casebook.specs.Right.{Right};

use crate::calls::accepted_releases;
use machine::Call;
use questions::{SetupPlan, set_up};
use refusal::Refusal;

/// What is asked.
// No twin of the question in `questions`, which it wraps; so are `ask` and the table of this crate.
#[derive(Clone, Copy)]
pub enum Question<'a> {
    /// A question for which no dispatcher is opened.
    Still(questions::Question<'a>),
    /// How many releases of feed 1 are accepted, when these calls are made one after the other on a dispatcher
    /// that is opened on a roster under an order and a hold rule.
    Accepted(SetupPlan<'a>, &'a [Call]),
}

/// Makes the calls that a question stands for, and gives the right answer.
pub fn ask(question: Question<'_>) -> Result<u64, Refusal>
    ensures { Right question.entry result }
{
    match question {
        Question::Still(question) => questions::ask(question),
        Question::Accepted(plan, calls) => Ok(accepted_releases(set_up(plan)?, 1, calls)),
    }
}
