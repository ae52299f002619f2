ghost use Rattle.std.specs.Prelude.{◌≡◌, if◌then◌else◌};
ghost use Rattle.machine.specs.Machine.{fresh, admit, draw, pass};
ghost use Rattle.keeping.specs.Record.{kept_of, admissible};

use crate::record::Record;
use crate::stage::{Stage, Turn};
use few::Few;
use machine::Card;

impl Record {
    /// A feed of which nothing was released.
    pub fn new() -> Record
        ensures { kept_of result ≡ fresh }
    {
        Record {
            queue: Few::new(),
            last: None,
            stage: Stage::Idle,
            worst: 0,
        }
    }

    /// One card more, released at that tick. Where 16 cards wait, or the cost is not 1 to 60,000, nothing changes.
    pub fn admit(&mut self, release: u32, cost: u32, point: u64)
        ensures { kept_of self.new ≡ (if admissible cost (kept_of self.old) then admit release cost point (kept_of self.old) else kept_of self.old) }
    {
        // tried with `contains` of a range, and the proof of the record's facts did not close
        if self.queue.len() >= 16 || cost < 1 || cost > 60_000 {
            return;
        }
        self.queue.push(Card {
            release,
            cost,
            drawn: 0,
            point,
        });
        self.last = Some(release);
        self.stage = self.stage.after(Turn::Released);
    }

    // The spacing and the clock are two numbers of two owners, the roster and the dispatcher, and come from each when they are wanted.

    /// The first card draws a tick; nothing changes where none waits. Drawn for its full cost it is finished at that clock.
    pub fn draw(&mut self, spacing: u32, clock: u32)
        ensures { kept_of self.new ≡ draw spacing clock (kept_of self.old) (kept_of self.old).waiting }
    {
        let Some(card) = self.front() else {
            return;
        };
        if card.ends() {
            self.queue.drop_first();
            self.worst = self.worst.max(card.lateness(spacing, clock));
            self.stage = self.stage.after(Turn::Finished {
                left: self.queue.len(),
            });
        } else {
            let more = Card {
                drawn: card.drawn + 1,
                ..card
            };
            self.queue.set(0, more);
            self.stage = self.stage.after(Turn::Chosen);
        }
    }

    /// The first card is not chosen.
    pub fn pass(&mut self)
        ensures { kept_of self.new ≡ pass (kept_of self.old) }
    {
        self.stage = self.stage.after(Turn::Preempted);
    }
}
