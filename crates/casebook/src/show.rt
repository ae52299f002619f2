//! Questions in words.
ghost use Rattle.std.specs.Prelude.{Some};
ghost use Rattle.casebook.specs.Words.{question_text};

use crate::question::Question;
use std::fmt;

impl fmt::Display for Question<'_> {
    ghost output = { λ question. Some (question_text question) };

    fn fmt<W: fmt::Write>(&self, f: &mut fmt::Formatter<W>) -> fmt::Result {
        match self {
            Question::Still(question) => write!(f, "{question}"),
            Question::Accepted(plan, calls) => {
                write!(f, "accepted releases of feed 1 on {plan}")?;
                for call in *calls {
                    write!(f, "; {call}")?;
                }
                Ok(())
            }
        }
    }
}
