//! A recorded run, printed: the margin, and then each call with its tick and its answer.
ghost use Rattle.std.specs.Prelude.{◌≡◌, ◌+◌, Some};
ghost use Rattle.roster.specs.Roster.{feeds};
ghost use Rattle.recorded.specs.Event.{event_of};
ghost use Rattle.casebook.specs.Calls.{latest_of};
ghost use Rattle.casebook.specs.Words.{line_text};

use crate::table::{FIRST_COME, RELEASE, STEP};
use machine::{Call, timely_margin};
use questions::set_up;
use recorded::{Event, replay};
use roster::{Feed, Roster};
use std::{fmt, io};

// Feeds 2 and 3 release at 0, and feed 1 at 1 and 5; once more at 5 is too soon.
const CALLS: &[Call] = &[
    Call::Release { feed: 2, cost: 4 },
    Call::Release { feed: 3, cost: 4 },
    STEP,
    RELEASE,
    STEP,
    STEP,
    STEP,
    STEP,
    RELEASE,
    RELEASE,
];

// An event of a run, with its tick and, of an accepted card, the latest tick by which it is finished.
#[derive(Clone, Copy)]
struct Line {
    tick: u32,
    event: Event,
    latest: Option<u64>,
}

impl fmt::Display for Line {
    ghost output = { λ line. Some (line_text line) };

    fn fmt<W: fmt::Write>(&self, f: &mut fmt::Formatter<W>) -> fmt::Result {
        let Line {
            tick,
            event,
            latest,
        } = *self;
        write!(f, "tick {tick}: {event}")?;
        if let Some(latest) = latest {
            write!(f, ", latest tick {latest}")?;
        }
        Ok(())
    }
}

// The latest tick of a card of a feed: its release + the margin + the feed's spacing and cost.
fn card_latest(feed: Feed, release: u32, margin: u32) -> u64
    ensures { result ≡ release + margin + feed.spacing + feed.cost }
{
    u64::from(release) + u64::from(margin) + u64::from(feed.spacing) + u64::from(feed.cost)
}

// The latest tick of the card that an event accepts, if it accepts one.
fn latest_tick(event: Event, tick: u32, roster: &Roster, margin: u32) -> Option<u64>
    ensures { result ≡ latest_of (feeds roster.now) tick margin (event_of event) }
{
    let Event::Released { feed: number, .. } = event else {
        return None;
    };
    Some(card_latest(roster.feed(number)?, tick, margin))
}

// Prints the events of a run from opening on.
fn print_events(
    rt: &HostRuntime,
    events: &[Event],
    roster: &Roster,
    margin: u32,
) -> io::Result<()> {
    let mut tick = 0u32;
    for event in events {
        let line = Line {
            tick,
            event: *event,
            latest: latest_tick(*event, tick, roster, margin),
        };
        println!(rt; "{line}")?;
        // counted along, since only some events are steps; the clock ends far below the largest tick
        if let Event::Stepped { .. } = event {
            tick = tick.saturating_add(1);
        }
    }
    Ok(())
}

/// Records a run on two lanes and three feeds under first-come and never, and prints it with its margin.
pub fn print_run(rt: &HostRuntime) -> io::Result<()> {
    match set_up(FIRST_COME) {
        Ok(setup) => {
            let margin = timely_margin(&setup.roster, &setup.order, &setup.hold);
            let events = replay(rt.alloc(), setup.roster, setup.order, setup.hold, CALLS)?;
            println!(rt; "run on {FIRST_COME}: margin {margin}")?;
            print_events(rt, &events, &setup.roster, margin)
        }
        Err(refusal) => {
            let number = refusal.number();
            println!(rt; "run on {FIRST_COME}: refused with {number}")
        }
    }
}
