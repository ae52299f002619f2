ghost use Rattle.std.specs.Prelude.{◌≡◌, true, IfOk};
ghost use Rattle.refusal.specs.Told.{told, unless, refusal};
ghost use Rattle.policy.specs.Built.{blocks, blocks_lawful};
ghost use Rattle.std.proofs.Common.{rules};

use crate::hold::HoldRule;
use refusal::Refusal;

/// Blocks q: a card is held unless the ticks it has drawn are a multiple of q.
#[derive(Clone, Copy)]
pub struct Blocks {
    q: u32,
    ghost lawful: { blocks_lawful q ≡ true },
}

impl Blocks {
    /// The hold rule blocks q, or a refusal unless 2 ≤ q ≤ 1,000.
    pub fn new(q: u32) -> Result<Blocks, Refusal>
        ensures answer { refusal result ≡ unless (blocks_lawful q) (told Refusal.Setting) }
        ensures made { IfOk result (λ b. b.q ≡ q) }
    {
        if (2..=1_000).contains(&q) {
            Ok(Blocks { q })
        } else {
            Err(Refusal::Setting)
        }
    }
}

impl HoldRule for Blocks {
    ghost meaning = { λ b. blocks b.q };

    ghost unheld = { Prim.search rules };

    fn held(&self, _feed: u32, drawn: u32) -> bool {
        drawn % self.q != 0
    }

    fn ever(&self) -> bool {
        true
    }
}
