ghost use Rattle.std.specs.Prelude.{◌≡◌, true, IfOk};
ghost use Rattle.refusal.specs.Told.{told, unless, refusal};
ghost use Rattle.policy.specs.Built.{part, part_lawful};
ghost use Rattle.policy.specs.Parts.{part_within, part_overtaking};

use crate::order::QueueOrder;
use refusal::Refusal;

/// Part a b: the point lies a / b of the spacing after the release, rounded down. The longer spacing overtakes.
#[derive(Clone, Copy)]
pub struct Part {
    a: u32,
    b: u32,
    ghost lawful: { part_lawful a b ≡ true },
}

impl Part {
    /// The order part a b, or a refusal unless 0 < a < b ≤ 1,000.
    pub fn new(a: u32, b: u32) -> Result<Part, Refusal>
        ensures answer { refusal result ≡ unless (part_lawful a b) (told Refusal.Setting) }
        ensures made { IfOk result (λ p. (p.a ≡ a) × (p.b ≡ b)) }
    {
        if 0 < a && a < b && b <= 1_000 {
            Ok(Part { a, b })
        } else {
            Err(Refusal::Setting)
        }
    }
}

impl QueueOrder for Part {
    ghost meaning = { λ p. part p.a p.b };

    ghost within = { λ p. part_within p.a p.b p.lawful };

    ghost overtaking = { λ p. part_overtaking p.a p.b p.lawful };

    fn point(&self, _feed: u32, spacing: u32, release: u32) -> u64 {
        u64::from(release) + u64::from(spacing) * u64::from(self.a) / u64::from(self.b)
    }

    fn overtakes(&self, _feed: u32, spacing: u32, _other: u32, other_spacing: u32) -> bool {
        other_spacing < spacing
    }
}
