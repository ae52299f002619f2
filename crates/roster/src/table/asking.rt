ghost use Rattle.std.specs.Prelude.{◌≡◌, ◌-◌, cond, ◌&&◌, map, length, Some, None};
ghost use Rattle.roster.specs.Feeds.{hyperperiod_of};
ghost use Rattle.roster.specs.Multiple.{LeastCommonMultiple};
ghost use Rattle.roster.specs.Roster.{feeds, feed_of};

use crate::feed::Feed;
use crate::table::Roster;

impl Roster {
    /// The lane count.
    pub fn lanes(&self) -> u32
        ensures { result ≡ self.now.lanes }
    {
        self.lanes
    }

    /// How many feeds there are; they are numbered from 1 to this.
    pub fn len(&self) -> usize
        ensures { result ≡ length (feeds self.now) }
    {
        self.feeds.len()
    }

    /// All feeds, number 1 first.
    pub fn feeds(&self) -> &[Feed]
        ensures { result.now ≡ feeds self.now }
    {
        self.feeds.as_slice()
    }

    /// The feed of that number, or `None` where there is no such feed.
    pub fn feed(&self, number: u32) -> Option<Feed>
        ensures { result ≡ feed_of (feeds self.now) number }
    {
        let before = number.checked_sub(1)?;
        self.feeds().get(before as usize).copied()
    }

    /// The hyperperiod: the least common multiple of the spacings, 1 without feeds.
    pub fn hyperperiod(&self) -> u64
        ensures value { result ≡ hyperperiod_of (feeds self.now) }
        ensures least { LeastCommonMultiple (map (λ f. f.spacing) (feeds self.now)) result }
    {
        self.hyperperiod
    }
}
