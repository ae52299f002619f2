ghost use Rattle.policy.specs.Built.{first_come};
ghost use Rattle.std.proofs.Common.{rules};

use crate::order::QueueOrder;

/// First-come: the point is the release. The longer spacing overtakes.
#[derive(Clone, Copy)]
pub struct FirstCome;

impl QueueOrder for FirstCome {
    ghost meaning = { λ _. first_come };

    ghost within = { Prim.search rules };

    ghost overtaking = { Prim.search rules };

    fn point(&self, _feed: u32, _spacing: u32, release: u32) -> u64 {
        u64::from(release)
    }

    fn overtakes(&self, _feed: u32, spacing: u32, _other: u32, other_spacing: u32) -> bool {
        other_spacing < spacing
    }
}
