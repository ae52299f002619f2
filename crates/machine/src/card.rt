ghost use Rattle.std.specs.Prelude.{◌≡◌};
ghost use Rattle.machine.specs.Machine.{ends, lateness};

/// A card that waits: when it was released, how many ticks it takes, how many it has drawn,
/// and its point, which the order was asked for at the release.
#[derive(Clone, Copy, Default)]
pub struct Card {
    pub release: u32,
    pub cost: u32,
    pub drawn: u32,
    pub point: u64,
}

impl Card {
    /// Whether one tick more is its last.
    pub fn ends(&self) -> bool
        ensures { result ≡ ends self.now }
    {
        self.cost <= self.drawn.saturating_add(1)
    }

    /// How late it is, finished at that clock: 0 where that is not after its due, a spacing after its release.
    pub fn lateness(&self, spacing: u32, clock: u32) -> u32
        ensures { result ≡ lateness spacing clock self.now }
    {
        clock.saturating_sub(self.release).saturating_sub(spacing)
    }
}
