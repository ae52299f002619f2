ghost use Rattle.dispatch.specs.Example.{Listing, Crowding};
ghost use Rattle.dispatch.specs.Law.{RunsOnTime};

// The theorems of this crate's machine, not twins of those in crates/machine, which speak of another machine.

/// Every run of the machine is on time, and no step of it has more picks than lanes.
/// It does nothing: its contract is the statement.
pub fn runs_on_time()
    ensures { RunsOnTime }
{}

/// A worked run of the machine has the picks and latenesses that the rules give.
/// It does nothing: its contract is the statement.
pub fn listing_stands()
    ensures { Listing }
{}

/// A worked run in which a feed has 16 cards waiting: one release more is refused.
/// It does nothing: its contract is the statement.
pub fn crowding_stands()
    ensures { Crowding }
{}
