//! Calls made one after the other, and how many releases of them are accepted.
ghost use Rattle.std.specs.Prelude.{◌≡◌};
ghost use Rattle.policy.specs.Chosen.{chosen_order, chosen_hold};
ghost use Rattle.recorded.specs.Event.{event_of};
ghost use Rattle.machine.specs.Law.{opened};
ghost use Rattle.casebook.specs.Calls.{accepted, releases};

use dispatching::Dispatcher;
use machine::Call;
use questions::Setup;
use recorded::{Event, make_call};

// Whether an event is an accepted release of a feed.
fn is_release(event: Event, number: u32) -> bool
    ensures { result ≡ releases number (event_of event) }
{
    matches!(event, Event::Released { feed, .. } if feed == number)
}

/// How many releases of a feed are accepted, when calls are made one after the other on a dispatcher that is opened for them.
pub fn accepted_releases(setup: Setup, number: u32, calls: &[Call]) -> u64
    ensures { result ≡ accepted number (opened setup.roster (chosen_order setup.order) (chosen_hold setup.hold)) calls.now }
{
    let mut dispatcher = Dispatcher::open(setup.roster, setup.order, setup.hold);
    let mut count = 0;
    // each call changes the dispatcher, and a filter whose test did that would be no plainer
    for call in calls {
        if is_release(make_call(&mut dispatcher, *call), number) {
            count += 1;
        }
    }
    count
}
