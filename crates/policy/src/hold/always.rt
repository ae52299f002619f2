ghost use Rattle.policy.specs.Built.{always};
ghost use Rattle.std.proofs.Common.{rules};

use crate::hold::HoldRule;

/// Always: every card is held until it is finished.
#[derive(Clone, Copy)]
pub struct Always;

impl HoldRule for Always {
    ghost meaning = { λ _. always };

    ghost unheld = { Prim.search rules };

    fn held(&self, _feed: u32, _drawn: u32) -> bool {
        self.ever()
    }

    fn ever(&self) -> bool {
        true
    }
}
