ghost use Rattle.std.specs.Prelude.{◌≡◌};
ghost use Rattle.dispatching.specs.Dispatcher.{setting, state, SameParts};
ghost use Rattle.recorded.specs.Event.{event_of, call_of};
ghost use Rattle.machine.specs.Law.{Answers, next};

use crate::event::Event;
use dispatching::Dispatcher;
use few::Few;
use machine::{Call, Pick};
use policy::{HoldRule, QueueOrder};

// The most picks of a step.
const MOST_LANES: usize = 8;

/// Makes a call, and gives it with its answer. A step has a list of its own, of that many places,
/// or of eight, which are as good as more.
pub fn make_call<O: QueueOrder, H: HoldRule>(dispatcher: &mut Dispatcher<O, H>, call: Call) -> Event
    ensures call { call_of result ≡ call }
    ensures answer { Answers (setting dispatcher.old) (state dispatcher.old) (event_of result) }
    ensures state { state dispatcher.new ≡ next (setting dispatcher.old) (state dispatcher.old) (event_of result) }
    ensures same_parts { SameParts dispatcher.old dispatcher.new }
{
    match call {
        Call::Release { feed, cost } => match dispatcher.release(feed, cost) {
            Ok(()) => Event::Released { feed, cost },
            Err(refusal) => Event::Refused { call, refusal },
        },
        Call::Step { room } => {
            let mut places = [Pick::default(); MOST_LANES];
            match dispatcher.step(&mut places[..room.min(MOST_LANES)]) {
                Ok(count) => Event::Stepped {
                    room,
                    picks: Few::of(places, count),
                },
                Err(refusal) => Event::Refused { call, refusal },
            }
        }
    }
}
