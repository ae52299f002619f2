ghost use Rattle.std.specs.Prelude.{◌≡◌};
ghost use Rattle.policy.specs.Order.{Order, AskedCard, AskedPair, Within, Overtaking};

mod any;
mod by_due;
mod first_come;
mod part;

pub use any::AnyOrder;
pub use by_due::ByDue;
pub use first_come::FirstCome;
pub use part::Part;

/// A queue order: it gives each card a point, and the smaller point comes first.
///
/// What it means is one value for each order, its reply to every question. Asking changes nothing.
// A feed is told by its number and its spacing, as the rules ask it, and not by a struct: those are rosters', which stand above orders.
pub trait QueueOrder {
    ghost meaning: { Self → Order };

    /// The point of a card of `feed`, which has that spacing, released at `release`.
    fn point(&self, feed: u32, spacing: u32, release: u32) -> u64
        ensures { AskedCard feed spacing release → result ≡ (meaning self.now).point feed spacing release };

    /// Whether `feed` overtakes `other`, a different feed: whether a card of it with a later due may have a point no greater.
    fn overtakes(&self, feed: u32, spacing: u32, other: u32, other_spacing: u32) -> bool
        ensures { AskedPair feed spacing other other_spacing → result ≡ (meaning self.now).overtakes feed spacing other other_spacing };

    ghost within: { (o : Self) → Within (meaning o) };

    ghost overtaking: { (o : Self) → Overtaking (meaning o) };
}
