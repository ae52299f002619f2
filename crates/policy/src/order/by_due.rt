ghost use Rattle.policy.specs.Built.{by_due};
ghost use Rattle.std.proofs.Common.{rules};

use crate::order::QueueOrder;

/// By-due, earliest deadline first: the point is the due. Nothing overtakes.
#[derive(Clone, Copy)]
pub struct ByDue;

impl QueueOrder for ByDue {
    ghost meaning = { λ _. by_due };

    ghost within = { Prim.search rules };

    ghost overtaking = { Prim.search rules };

    fn point(&self, _feed: u32, spacing: u32, release: u32) -> u64 {
        u64::from(release) + u64::from(spacing)
    }

    fn overtakes(&self, _feed: u32, _spacing: u32, _other: u32, _other_spacing: u32) -> bool {
        false
    }
}
