ghost use Rattle.roster.specs.Margin.{Margin};
ghost use Rattle.roster.specs.Roster.{feeds};
ghost use Rattle.machine.specs.Law.{opened};
ghost use Rattle.dispatch.specs.Law.{Timely};

use policy::{HoldRule, QueueOrder};
use roster::Roster;

// One call of machine's function of that name: each contract speaks of its own machine.

/// The margin of a roster under an order and a hold rule: every run of the machine on them is on time with it,
/// and it is the least number that meets the roster's condition.
pub fn timely_margin<O: QueueOrder, H: HoldRule>(roster: &Roster, order: &O, hold: &H) -> u32
    ensures margin { Margin roster.now.lanes (feeds roster.now) (O.QueueOrder.meaning order.now) (H.HoldRule.meaning hold.now) result }
    ensures timely { Timely (opened roster.now (O.QueueOrder.meaning order.now) (H.HoldRule.meaning hold.now)) result }
{
    machine::timely_margin(roster, order, hold)
}
