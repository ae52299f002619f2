ghost use Rattle.std.specs.Prelude.{◌≡◌};
ghost use Rattle.dispatching.specs.Closed.{latenesses};

use crate::closed::Closed;
use roster::Roster;

impl Closed {
    // A roster, and latenesses in the front places.
    pub(crate) fn new(roster: Roster, worst: [u32; 32]) -> Closed
        ensures { (result.roster ≡ roster) × (result.worst ≡ worst) }
    {
        Closed { roster, worst }
    }

    /// The largest lateness of each feed, number 1 first.
    pub fn latenesses(&self) -> &[u32]
        ensures { result.now ≡ latenesses self.now }
    {
        &self.worst[0..self.roster.len()]
    }
}
