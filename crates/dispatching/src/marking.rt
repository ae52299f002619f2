ghost use Rattle.std.specs.Prelude.{◌≡◌, ℕ, ◌<◌, true, false, length, slice_index_or};
ghost use Rattle.std.specs.List.{list_all};
ghost use Rattle.dispatching.specs.Pick.{has_feed, is_numbered};

use machine::Pick;

// Marks the feeds of picks.
pub(crate) fn marks_of(picks: &[Pick]) -> [bool; 32]
    requires { list_all is_numbered picks.now ≡ true }
    ensures { (k : ℕ) → k < 32 → slice_index_or result k false ≡ has_feed k picks.now }
{
    // an array with a place for each feed, since a feed is asked for by its place and nothing here allocates
    let mut marks = [false; 32];
    for pick in picks {
        marks[pick.feed as usize - 1] = true;
    }
    marks
}
