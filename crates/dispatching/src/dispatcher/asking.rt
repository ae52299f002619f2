ghost use Rattle.std.specs.Prelude.{◌≡◌, ◌-◌, length, IfOk};
ghost use Rattle.refusal.specs.Told.{unless};
ghost use Rattle.roster.specs.Roster.{feeds};
ghost use Rattle.machine.specs.declared.reason.CallRefusal.TheVariants.{NoFeed};
ghost use Rattle.dispatching.specs.Dispatcher.{setting, state};
ghost use Rattle.machine.specs.Law.{Timely, IsMargin};
ghost use Rattle.machine.specs.Machine.{kept_at, is_feed};
ghost use Rattle.machine.specs.Told.{told, refusal};

use crate::dispatcher::Dispatcher;
use machine::{CallRefusal, timely_margin};
use policy::{HoldRule, QueueOrder};

impl<O: QueueOrder, H: HoldRule> Dispatcher<O, H> {
    /// The clock: how many steps were made.
    pub fn clock(&self) -> u32
        ensures { result ≡ (state self.now).clock }
    {
        self.board.clock
    }

    /// The margin: every run from opening is on time with it, and it is the least number that meets the roster's condition.
    pub fn margin(&self) -> u32
        ensures margin { IsMargin (setting self.now) result }
        ensures timely { Timely (setting self.now) result }
    {
        timely_margin(&self.board.roster, &self.order, &self.hold)
    }

    /// How many cards of a feed wait, or the refusal 21 where there is no such feed.
    pub fn waiting(&self, feed: u32) -> Result<usize, CallRefusal>
        ensures answer { refusal result ≡ unless (is_feed (feeds self.now.board.roster) feed) (told NoFeed) }
        ensures value { IfOk result (λ n. n ≡ length (kept_at (state self.now) (feed - 1)).waiting) }
    {
        Ok(self.board.entry(feed)?.record.waiting())
    }

    /// The largest lateness of a feed's finished cards, or the refusal 21 where there is no such feed.
    pub fn lateness(&self, feed: u32) -> Result<u32, CallRefusal>
        ensures answer { refusal result ≡ unless (is_feed (feeds self.now.board.roster) feed) (told NoFeed) }
        ensures value { IfOk result (λ n. n ≡ (kept_at (state self.now) (feed - 1)).worst) }
    {
        Ok(self.board.entry(feed)?.record.worst())
    }
}
