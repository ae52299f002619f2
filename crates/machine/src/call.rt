ghost use Rattle.std.specs.Prelude.{Some};
ghost use Rattle.machine.specs.Words.{call_text};

use std::fmt;

/// A call on a dispatcher that can change it.
#[derive(Clone, Copy, PartialEq, Eq, Debug)]
pub enum Call {
    /// Releases a card of that feed and cost.
    Release { feed: u32, cost: u32 },
    /// Makes a step, with a list of that many places for its picks.
    Step { room: usize },
}

impl fmt::Display for Call {
    ghost output = { λ call. Some (call_text call) };

    fn fmt<W: fmt::Write>(&self, f: &mut fmt::Formatter<W>) -> fmt::Result {
        match self {
            Call::Release { feed, cost } => write!(f, "release feed {feed} cost {cost}"),
            Call::Step { .. } => write!(f, "step"),
        }
    }
}
