ghost use Rattle.std.specs.Prelude.{◌≡◌, ◌+◌, ◌<◌, ◌≤◌, map, length, slice_set};
ghost use Rattle.roster.specs.Roster.{feeds};
ghost use Rattle.machine.specs.Machine.{fresh, kept_at, admit, stirred, moved};
ghost use Rattle.dispatching.specs.Board.{state_of, spacing_at, marked};

use crate::board::Board;
use keeping::Record;
use roster::Roster;

impl Board {
    // Nothing released, at that clock.
    pub(crate) fn new(roster: Roster, clock: u32) -> Board
        ensures state { state_of result ≡ record { clock = clock; kept = map (λ _. fresh) (feeds roster) } }
        ensures roster { result.roster ≡ roster }
    {
        Board {
            roster,
            clock,
            records: [Record::new(); 32],
        }
    }

    // One card more of the feed at a place, released now.
    // A place asks to be one of this roster's, here and below, since no type ties it to one roster.
    pub(crate) fn admit(&mut self, at: usize, cost: u32, point: u64)
        requires place { at < length (feeds self.old.roster) }
        requires room { length (kept_at (state_of self.old) at).waiting < 16 }
        requires cost { (1 ≤ cost) × (cost ≤ 60000) }
        ensures kept { (state_of self.new).kept ≡ slice_set (state_of self.old).kept at (admit self.old.clock cost point (kept_at (state_of self.old) at)) }
        ensures clock { self.new.clock ≡ self.old.clock }
        ensures roster { self.new.roster ≡ self.old.roster }
        ensures sized { length self.new.records ≡ 32 }
    {
        let clock = self.clock;
        self.records[at].admit(clock, cost, point);
    }

    // A tick passes: each feed that is marked draws, the others do not.
    pub(crate) fn advance(&mut self, marks: &[bool; 32])
        requires { self.old.clock < 1000000000 }
        ensures kept { (state_of self.new).kept ≡ moved (marked marks.now) (self.old.clock + 1) 0 (feeds self.old.roster) (state_of self.old).kept }
        ensures clock { self.new.clock ≡ self.old.clock + 1 }
        ensures roster { self.new.roster ≡ self.old.roster }
        ensures sized { length self.new.records ≡ 32 }
    {
        self.clock += 1;
        // by place, since each record is changed where it stands, and its feed's spacing is the roster's
        for (at, draws) in marks[0..self.roster.len()].iter().enumerate() {
            self.turn(at, *draws);
        }
    }

    // The feed at a place draws, or does not.
    fn turn(&mut self, at: usize, draws: bool)
        requires { at < length (feeds self.old.roster) }
        ensures kept { (state_of self.new).kept ≡ slice_set (state_of self.old).kept at (stirred (spacing_at self.old at) self.old.clock draws (kept_at (state_of self.old) at)) }
        ensures clock { self.new.clock ≡ self.old.clock }
        ensures roster { self.new.roster ≡ self.old.roster }
        ensures sized { length self.new.records ≡ 32 }
    {
        let spacing = self.entry_at(at).feed.spacing;
        let clock = self.clock;
        let record = &mut self.records[at];
        if draws {
            record.draw(spacing, clock);
        } else {
            record.pass();
        }
    }
}
