ghost use Rattle.std.specs.Prelude.{◌≡◌, ◌-◌, ◌<◌, ◌≤◌, true, false, length, is_ok, IfOk};
ghost use Rattle.roster.specs.Margin.{at as feed_at};
ghost use Rattle.roster.specs.Roster.{feeds};
ghost use Rattle.dispatching.specs.Dispatcher.{setting, state, SameParts};
ghost use Rattle.machine.specs.Machine.{kept_at, release_refusal, release};
ghost use Rattle.machine.specs.Told.{refusal};

use crate::dispatcher::Dispatcher;
use crate::entry::Entry;
use machine::CallRefusal;
use policy::{HoldRule, QueueOrder};
use roster::Feed;

// The most cards of a feed that can wait.
const MOST_WAITING: usize = 16;

impl<O: QueueOrder, H: HoldRule> Dispatcher<O, H> {
    // The feed of that number, or why a card of it is refused.
    fn checked(&self, number: u32, cost: u32) -> Result<Feed, CallRefusal>
        ensures answer { refusal result ≡ release_refusal (setting self.now) (state self.now) number cost }
        ensures made { IfOk result (λ f. f ≡ feed_at (feeds self.now.board.roster) (number - 1)) }
    {
        let Entry { feed, record } = self.board.entry(number)?;
        if !(1..=feed.cost).contains(&cost) {
            return Err(CallRefusal::Cost);
        }
        if !record.is_apart(feed.spacing, self.board.clock) {
            return Err(CallRefusal::Sooner);
        }
        if record.waiting() >= MOST_WAITING {
            return Err(CallRefusal::Waiting);
        }
        Ok(feed)
    }

    /// Releases a card of a feed, of that many ticks, at the clock, or refuses and changes nothing:
    /// 21 no such feed, 22 a cost that is not 1 to the feed's, 23 sooner than its spacing after its last accepted release, 24 when 16 cards of it wait.
    pub fn release(&mut self, feed: u32, cost: u32) -> Result<(), CallRefusal>
        ensures answer { refusal result ≡ release_refusal (setting self.old) (state self.old) feed cost }
        ensures released { is_ok result ≡ true → state self.new ≡ release (setting self.old) (state self.old) feed cost }
        ensures same_parts { SameParts self.old self.new }
        ensures unchanged_on_refusal { is_ok result ≡ false → self.new ≡ self.old }
    {
        let spacing = self.checked(feed, cost)?.spacing;
        let point = self.order.point(feed, spacing, self.board.clock);
        self.board.admit(feed as usize - 1, cost, point);
        Ok(())
    }
}
