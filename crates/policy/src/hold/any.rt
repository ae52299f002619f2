ghost use Rattle.policy.specs.Chosen.{chosen_hold};
ghost use Rattle.std.proofs.Common.{rules};

use crate::hold::{Always, Blocks, HoldRule, Never};

/// One of the built hold rules, for a choice at run time.
// An enum with a match for each question, no dyn: the choice is among these, and it is handed on by value with no memory of its own.
#[derive(Clone, Copy)]
pub enum AnyHold {
    Never,
    Always,
    Blocks(Blocks),
}

impl HoldRule for AnyHold {
    ghost meaning = { chosen_hold };

    ghost unheld = { Prim.search rules };

    fn held(&self, feed: u32, drawn: u32) -> bool {
        match self {
            AnyHold::Never => Never.held(feed, drawn),
            AnyHold::Always => Always.held(feed, drawn),
            AnyHold::Blocks(blocks) => blocks.held(feed, drawn),
        }
    }

    fn ever(&self) -> bool {
        match self {
            AnyHold::Never => Never.ever(),
            AnyHold::Always => Always.ever(),
            AnyHold::Blocks(blocks) => blocks.ever(),
        }
    }
}
