ghost use Rattle.std.specs.Prelude.{◌≡◌, length};

use roster::Roster;

mod reading;

/// What a closed dispatcher hands back: its roster, and the largest lateness of each feed.
#[derive(Drop)]
pub struct Closed {
    /// The roster that the dispatcher was opened on.
    pub roster: Roster,
    // those of the feeds stand in front, and no list of its own has them: how many they are is the roster's to say, which a caller may write to
    worst: [u32; 32],
    // the array's type says it here, and tells no other crate
    ghost sized: { length worst ≡ 32 },
}
