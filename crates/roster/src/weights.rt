ghost use Rattle.std.specs.Prelude.{◌≡◌, ◌≤◌, true};
ghost use Rattle.roster.specs.Feeds.{lawful, weight, weights};
ghost use Rattle.roster.specs.Roster.{feeds};

use crate::feed::Feed;
use crate::table::Roster;

// A feed's cost in each hyperperiod.
pub(crate) fn weight_of(feed: Feed, hyperperiod: u64) -> u64
    requires { lawful feed ≡ true }
    ensures value { result ≡ weight hyperperiod feed }
    ensures bound { result ≤ hyperperiod }
{
    u64::from(feed.cost) * (hyperperiod / u64::from(feed.spacing))
}

impl Roster {
    // The weights of all feeds together, in a hyperperiod that need not be the roster's own.
    pub(crate) fn total_weight(&self, hyperperiod: u64) -> u64
        requires { hyperperiod ≤ 10000000 }
        ensures value { result ≡ weights hyperperiod (feeds self.now) }
        ensures bound { result ≤ 320000000 }
    {
        self.feeds()
            .iter()
            .map(|feed| weight_of(*feed, hyperperiod))
            .sum()
    }
}
