ghost use Rattle.std.specs.Prelude.{◌≡◌, ℕ, map, IfOk};
ghost use Rattle.recorded.specs.Event.{call_of, run_of};
ghost use Rattle.machine.specs.Law.{Gives, IsMargin, OnTime, FewPicks, opened};
ghost use Rattle.machine.specs.Machine.{opening};

use crate::calling::make_call;
use crate::event::Event;
use dispatching::Dispatcher;
use machine::Call;
use policy::{HoldRule, QueueOrder};
use roster::Roster;
use std::alloc::{AllocError, Global};

// Three values, no struct of them: as the rules open a dispatcher.

/// Makes calls one after the other on a freshly opened dispatcher, and gives the record of the calls with their answers and picks.
/// The record is on time with the margin, and no step of it has more picks than lanes. It refuses only for want of memory.
pub fn replay<O: QueueOrder + Drop, H: HoldRule + Drop>(
    heap: Global,
    roster: Roster,
    order: O,
    hold: H,
    calls: &[Call],
) -> Result<Vec<Event>, AllocError>
    ensures calls { IfOk result (λ v. map call_of v.items ≡ calls.now) }
    ensures answers { IfOk result (λ v. Gives (opened roster (O.QueueOrder.meaning order) (H.HoldRule.meaning hold)) (opening (opened roster (O.QueueOrder.meaning order) (H.HoldRule.meaning hold))) (run_of v.items)) }
    ensures on_time { IfOk result (λ v. (x : ℕ) → IsMargin (opened roster (O.QueueOrder.meaning order) (H.HoldRule.meaning hold)) x → OnTime (opened roster (O.QueueOrder.meaning order) (H.HoldRule.meaning hold)) x (run_of v.items)) }
    ensures few_picks { IfOk result (λ v. FewPicks (opened roster (O.QueueOrder.meaning order) (H.HoldRule.meaning hold)) (run_of v.items)) }
{
    let mut dispatcher = Dispatcher::open(roster, order, hold);
    let mut events = Vec::new(heap);
    for call in calls {
        events.push(make_call(&mut dispatcher, *call))?;
    }
    Ok(events)
}
