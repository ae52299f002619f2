ghost use Rattle.std.specs.Prelude.{◌≡◌, ◌+◌, Bool, true, false, cond, [], ◌∷◌, ◌++◌, length, is_ok, IfOk};
ghost use Rattle.refusal.specs.Told.{refusal};
ghost use Rattle.roster.specs.Feeds.{lawful, hyperperiod_of, lanes_refusal, add_refusal};
ghost use Rattle.roster.specs.Roster.{feeds};

use crate::feed::Feed;
use crate::multiple::common_multiple;
use crate::table::{MOST_FEEDS, Roster};
use crate::weights::weight_of;
use few::Few;
use refusal::Refusal;

// The longest hyperperiod.
const LONGEST: u64 = 10_000_000;

// Whether a roster can have this feed: spacing 1 to 60,000, cost 1 to the spacing.
fn is_lawful(feed: Feed) -> bool
    ensures { result ≡ lawful feed }
{
    (1..=60_000).contains(&feed.spacing) && (1..=feed.spacing).contains(&feed.cost)
}

impl Roster {
    /// A roster of that many lanes and no feeds, or a refusal unless the lanes are 1 to 8.
    pub fn new(lanes: u32) -> Result<Roster, Refusal>
        ensures answer { refusal result ≡ lanes_refusal lanes }
        ensures made { IfOk result (λ t. (t.lanes ≡ lanes) × (feeds t ≡ [])) }
    {
        if !(1..=8).contains(&lanes) {
            return Err(Refusal::Lanes);
        }
        Ok(Roster {
            lanes,
            feeds: Few::new(),
            hyperperiod: 1,
        })
    }

    // The hyperperiod with one feed more, or why that feed is refused.
    fn checked(&self, feed: Feed) -> Result<u64, Refusal>
        ensures answer { refusal result ≡ add_refusal self.now.lanes (feeds self.now) feed }
        ensures made { IfOk result (λ l. l ≡ hyperperiod_of (feeds self.now ++ feed ∷ [])) }
    {
        if self.len() >= MOST_FEEDS {
            return Err(Refusal::Full);
        }
        if !is_lawful(feed) {
            return Err(Refusal::Feed);
        }
        let hyperperiod = common_multiple(self.hyperperiod, u64::from(feed.spacing));
        if hyperperiod > LONGEST {
            return Err(Refusal::Hyperperiod);
        }
        let weights = self.total_weight(hyperperiod) + weight_of(feed, hyperperiod);
        if weights > u64::from(self.lanes) * hyperperiod {
            return Err(Refusal::Overload);
        }
        Ok(hyperperiod)
    }

    /// Adds a feed and gives its number, or refuses and leaves the roster as it was.
    pub fn add(&mut self, feed: Feed) -> Result<u32, Refusal>
        ensures answer { refusal result ≡ add_refusal self.old.lanes (feeds self.old) feed }
        ensures number { IfOk result (λ n. n ≡ length (feeds self.old) + 1) }
        ensures added { is_ok result ≡ true → feeds self.new ≡ feeds self.old ++ feed ∷ [] }
        ensures same_lanes { self.new.lanes ≡ self.old.lanes }
        ensures unchanged_on_refusal { is_ok result ≡ false → self.new ≡ self.old }
    {
        let hyperperiod = self.checked(feed)?;
        self.feeds.push(feed);
        self.hyperperiod = hyperperiod;
        Ok(self.feeds.len() as u32)
    }
}
