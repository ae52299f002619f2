use keeping::Record;
use roster::Roster;

mod reading;
mod turning;

/// A roster, the clock, and what is kept of each feed.
// a struct of its own, not fields of the dispatcher: tried, and lending one of the records out of a struct with a ghost field has no proof
#[derive(Drop)]
pub struct Board {
    pub roster: Roster,
    pub clock: u32,
    // those of the feeds stand in front; an array beside the roster's feeds, since nothing here allocates and closing hands the roster back whole
    pub records: [Record; 32],
}
