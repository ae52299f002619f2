ghost use Rattle.std.specs.Prelude.{◌≡◌, ◌+◌, ◌-◌, ◌<◌, ◌≤◌, map, length, take, IfOk};
ghost use Rattle.refusal.specs.Told.{unless};
ghost use Rattle.roster.specs.Roster.{feeds};
ghost use Rattle.machine.specs.declared.reason.CallRefusal.TheVariants.{NoFeed};
ghost use Rattle.machine.specs.Told.{told, refusal};
ghost use Rattle.machine.specs.Machine.{is_feed};
ghost use Rattle.dispatching.specs.Board.{state_of};
ghost use Rattle.dispatching.specs.Entry.{IsEntry};

use crate::board::Board;
use crate::entry::Entry;
use machine::CallRefusal;
use std::array;

impl Board {
    // The feed of that number, and what is kept of it.
    pub(crate) fn entry(&self, number: u32) -> Result<Entry<'_>, CallRefusal>
        ensures answer { refusal result ≡ unless (is_feed (feeds self.now.roster) number) (told NoFeed) }
        ensures made { IfOk result (IsEntry self.now (number - 1)) }
    {
        let feed = self.roster.feed(number).ok_or(CallRefusal::NoFeed)?;
        Ok(Entry {
            feed,
            record: &self.records[number as usize - 1],
        })
    }

    // The feed at a place, from 0 on, and what is kept of it.
    pub(crate) fn entry_at(&self, at: usize) -> Entry<'_>
        requires { at < length (feeds self.now.roster) }
        ensures { IsEntry self.now at result }
    {
        Entry {
            feed: self.roster.feeds()[at],
            record: &self.records[at],
        }
    }

    // The largest latenesses of all feeds, in the front places of an array.
    pub(crate) fn latenesses(&self) -> [u32; 32]
        ensures { take (length (feeds self.now.roster)) result ≡ map (λ k. k.worst) (state_of self.now).kept }
    {
        // each record is read where it stands: `map` would take a copy of all 32
        let records = &self.records;
        array::from_fn(
            |at|
                requires { at < 32 }
            { records[at].worst() },
        )
    }
}
