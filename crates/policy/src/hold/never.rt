ghost use Rattle.policy.specs.Built.{never};
ghost use Rattle.std.proofs.Common.{rules};

use crate::hold::HoldRule;

/// Never: no card is held.
#[derive(Clone, Copy)]
pub struct Never;

impl HoldRule for Never {
    ghost meaning = { λ _. never };

    ghost unheld = { Prim.search rules };

    fn held(&self, _feed: u32, _drawn: u32) -> bool {
        self.ever()
    }

    fn ever(&self) -> bool {
        false
    }
}
