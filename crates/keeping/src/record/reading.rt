ghost use Rattle.std.specs.Prelude.{◌≡◌, ◌≤◌, length, IfSome};
ghost use Rattle.machine.specs.Machine.{first_card, apart};
ghost use Rattle.keeping.specs.Record.{kept_of};

use crate::record::Record;
use crate::stage::Stage;
use machine::Card;

impl Record {
    /// How many cards wait.
    pub fn waiting(&self) -> usize
        ensures { result ≡ length (kept_of self.now).waiting }
    {
        self.queue.len()
    }

    /// The largest lateness.
    pub fn worst(&self) -> u32
        ensures { result ≡ (kept_of self.now).worst }
    {
        self.worst
    }

    /// The first waiting card, if any waits.
    pub fn front(&self) -> Option<Card>
        ensures first { result ≡ first_card (kept_of self.now) }
        ensures short { IfSome result (λ c. c.drawn ≤ 60000) }
    {
        self.queue.as_slice().first().copied()
    }

    /// Whether the first card drew in the last tick.
    pub fn drew(&self) -> bool
        ensures { result ≡ (kept_of self.now).drew }
    {
        matches!(self.stage, Stage::Drawing)
    }

    /// Whether the spacing has passed since the last release.
    pub fn is_apart(&self, spacing: u32, clock: u32) -> bool
        ensures { result ≡ apart (kept_of self.now).last spacing clock }
    {
        self.last.is_none_or(|release| {
            u64::from(release) + u64::from(spacing) <= u64::from(clock)
        })
    }
}
