ghost use Rattle.std.specs.Prelude.{◌≡◌, ℕ, ◌≤◌, Bool, true};
ghost use Rattle.roster.specs.declared.feed.Feed.{Feed as AFeed};
ghost use Rattle.roster.specs.Feeds.{lawful};

use crate::feed::Feed;
use crate::table::Roster;
use sorted::Ranked;

mod cost;
mod share;

pub use cost::ByCost;
pub use share::ByShare;

/// A lawful feed as it is ranked, the larger first, and summed. The size may depend on the roster's hyperperiod.
pub trait Measure: Ranked + Copy {
    ghost subject: { Self → AFeed };

    ghost larger: { AFeed → AFeed → Bool };

    ghost amount: { ℕ → AFeed → ℕ };

    fn of(feed: Feed) -> Self
        requires { lawful feed ≡ true }
        ensures { subject result ≡ feed };

    fn size(&self, roster: &Roster) -> u64
        ensures value { result ≡ amount roster.now.hyperperiod (subject self.now) }
        ensures bound { result ≤ 10000000 };

    // What is larger is ranked first.
    ghost agrees: { (x y : Self) → Self.before x y ≡ larger (subject x) (subject y) };
}
