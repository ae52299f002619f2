ghost use Rattle.std.specs.Prelude.{◌≡◌, ◌*◌, ◌≤◌, true};
ghost use Rattle.few.specs.Listed.{listed};
ghost use Rattle.roster.specs.Feeds.{all_lawful, hyperperiod_of, weights};

use crate::feed::Feed;
use few::Few;

mod adding;
mod asking;
mod margin;

// The most feeds that a roster can have.
const MOST_FEEDS: usize = 32;

/// A lane count and up to 32 feeds, numbered from 1 in the order of adding. No roster that exists breaks a rule below.
#[derive(Clone, Copy)]
pub struct Roster {
    lanes: u32,
    feeds: Few<Feed, MOST_FEEDS>,
    // the least common multiple of the spacings
    hyperperiod: u64,
    ghost laned: { 1 ≤ lanes },
    ghost few_lanes: { lanes ≤ 8 },
    ghost lawful: { all_lawful (listed feeds) ≡ true },
    ghost common: { hyperperiod ≡ hyperperiod_of (listed feeds) },
    ghost short: { hyperperiod ≤ 10000000 },
    ghost carried: { weights hyperperiod (listed feeds) ≤ lanes * hyperperiod },
}
