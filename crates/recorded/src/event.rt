ghost use Rattle.std.specs.Prelude.{◌≡◌, Some};
ghost use Rattle.recorded.specs.Event.{call_of};
ghost use Rattle.recorded.specs.Words.{event_text};

use few::Few;
use machine::{Call, CallRefusal, Pick};
use std::fmt;

/// A call with its answer.
#[derive(Clone, Copy)]
pub enum Event {
    /// An accepted release.
    Released { feed: u32, cost: u32 },
    /// An accepted step, with a list of that many places, and its picks, those ahead first: as many as lanes, 8 at most.
    Stepped { room: usize, picks: Few<Pick, 8> },
    /// A call that was refused.
    Refused { call: Call, refusal: CallRefusal },
}

impl Event {
    // The call that was made.
    fn call(&self) -> Call
        ensures { result ≡ call_of self.now }
    {
        match *self {
            Event::Released { feed, cost } => Call::Release { feed, cost },
            Event::Stepped { room, .. } => Call::Step { room },
            Event::Refused { call, .. } => call,
        }
    }
}

impl fmt::Display for Event {
    ghost output = { λ event. Some (event_text event) };

    fn fmt<W: fmt::Write>(&self, f: &mut fmt::Formatter<W>) -> fmt::Result {
        let call = self.call();
        write!(f, "{call}")?;
        match self {
            Event::Released { .. } => write!(f, ": accepted"),
            Event::Stepped { picks, .. } => {
                for pick in picks.as_slice() {
                    write!(f, "; {pick}")?;
                }
                Ok(())
            }
            Event::Refused { refusal, .. } => {
                let number = refusal.number();
                write!(f, ": refused with {number}")
            }
        }
    }
}
