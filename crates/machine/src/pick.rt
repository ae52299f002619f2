ghost use Rattle.std.specs.Prelude.{◌≡◌, true, false, Some};
ghost use Rattle.machine.specs.Words.{pick_text};

use std::fmt;

/// A card that drew in a step: its feed's number, its release, whether that was its last tick,
/// and how late it then was; the lateness is 0 until it is done.
#[derive(Clone, Copy, Default, PartialEq, Eq, Debug)]
pub struct Pick {
    pub feed: u32,
    pub release: u32,
    // a flag with a number beside it, since the rules give a pick both: done or not, and a lateness that is 0 until then
    pub done: bool,
    pub lateness: u32,
}

impl Pick {
    /// The pick of a card that is not done.
    pub fn drawn(feed: u32, release: u32) -> Pick
        ensures { result ≡ record { feed = feed; release = release; done = false; lateness = 0 } }
    {
        Pick {
            feed,
            release,
            done: false,
            lateness: 0,
        }
    }

    /// The pick of a card that is done, and how late it is.
    pub fn finished(feed: u32, release: u32, lateness: u32) -> Pick
        ensures { result ≡ record { feed = feed; release = release; done = true; lateness = lateness } }
    {
        Pick {
            feed,
            release,
            done: true,
            lateness,
        }
    }
}

impl fmt::Display for Pick {
    ghost output = { λ pick. Some (pick_text pick) };

    fn fmt<W: fmt::Write>(&self, f: &mut fmt::Formatter<W>) -> fmt::Result {
        let feed = self.feed;
        let release = self.release;
        write!(f, "feed {feed} of tick {release}")?;
        if self.done {
            let lateness = self.lateness;
            write!(f, " done, lateness {lateness}")?;
        }
        Ok(())
    }
}
