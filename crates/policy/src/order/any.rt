ghost use Rattle.policy.specs.Chosen.{chosen_order};
ghost use Rattle.std.proofs.Common.{rules};
ghost use Rattle.policy.specs.declared.order.any.AnyOrder.TheVariants.{FirstCome, ByDue, Part};
ghost use Rattle.policy.specs.Parts.{part_within, part_overtaking};

use crate::order::{ByDue, FirstCome, Part, QueueOrder};

/// One of the built orders, for a choice at run time.
// An enum with a match for each question, no dyn: the choice is among these, and it is handed on by value with no memory of its own.
#[derive(Clone, Copy)]
pub enum AnyOrder {
    FirstCome,
    ByDue,
    Part(Part),
}

impl QueueOrder for AnyOrder {
    ghost meaning = { chosen_order };

    ghost within = { elim [
      | FirstCome ↦ Prim.search rules
      | ByDue ↦ Prim.search rules
      | Part p ↦ part_within p.a p.b p.lawful
    ] };

    ghost overtaking = { elim [
      | FirstCome ↦ Prim.search rules
      | ByDue ↦ Prim.search rules
      | Part p ↦ part_overtaking p.a p.b p.lawful
    ] };

    fn point(&self, feed: u32, spacing: u32, release: u32) -> u64 {
        match self {
            AnyOrder::FirstCome => FirstCome.point(feed, spacing, release),
            AnyOrder::ByDue => ByDue.point(feed, spacing, release),
            AnyOrder::Part(part) => part.point(feed, spacing, release),
        }
    }

    fn overtakes(&self, feed: u32, spacing: u32, other: u32, other_spacing: u32) -> bool {
        match self {
            AnyOrder::FirstCome => FirstCome.overtakes(feed, spacing, other, other_spacing),
            AnyOrder::ByDue => ByDue.overtakes(feed, spacing, other, other_spacing),
            AnyOrder::Part(part) => part.overtakes(feed, spacing, other, other_spacing),
        }
    }
}
