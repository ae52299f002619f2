ghost use Rattle.std.specs.Prelude.{◌≡◌};
ghost use Rattle.policy.specs.Hold.{Hold, Begun, Unheld};

mod always;
mod any;
mod blocks;
mod never;

pub use always::Always;
pub use any::AnyHold;
pub use blocks::Blocks;
pub use never::Never;

/// A hold rule: it says of a card that drew in the last tick whether it keeps its lane against cards ahead of it.
///
/// What it means is one value for each rule, its reply to every question. Asking changes nothing.
pub trait HoldRule {
    ghost meaning: { Self → Hold };

    /// Whether a card of `feed` that has drawn `drawn` ticks is held.
    fn held(&self, feed: u32, drawn: u32) -> bool
        ensures { Begun feed drawn → result ≡ (meaning self.now).held feed drawn };

    /// Whether any card is ever held.
    fn ever(&self) -> bool
        ensures { result ≡ (meaning self.now).ever };

    ghost unheld: { (h : Self) → Unheld (meaning h) };
}
