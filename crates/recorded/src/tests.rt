ghost use Rattle.std.specs.Prelude.{◌+◌, true, if◌then◌else◌, ◌==◌, nat_eq};
ghost use Rattle.std.proofs.Common.{rules};

use crate::{Event, replay};
use machine::{Call, Pick};
use policy::{HoldRule, QueueOrder};
use refusal::Refusal;
use roster::{Feed, Roster};
use std::test::Fail;

// Feed 1 by its release, every other by its due: only feed 1 overtakes.
#[derive(Clone, Copy)]
struct FirstFeedFirst;

impl QueueOrder for FirstFeedFirst {
    ghost meaning = { λ _. record { point = λ feed spacing release. (if nat_eq feed 1 then release else release + spacing); overtakes = λ feed spacing other other_spacing. (feed == 1) } };

    ghost within = { Prim.search rules };

    ghost overtaking = { Prim.search rules };

    fn point(&self, feed: u32, spacing: u32, release: u32) -> u64 {
        if feed == 1 {
            u64::from(release)
        } else {
            u64::from(release) + u64::from(spacing)
        }
    }

    fn overtakes(&self, feed: u32, _spacing: u32, _other: u32, _other_spacing: u32) -> bool {
        feed == 1
    }
}

// Holds the cards of feed 2 and no others.
#[derive(Clone, Copy)]
struct SecondFeedHeld;

impl HoldRule for SecondFeedHeld {
    ghost meaning = { λ _. record { held = λ feed drawn. (feed == 2); ever = true } };

    ghost unheld = { Prim.search rules };

    fn held(&self, feed: u32, _drawn: u32) -> bool {
        feed == 2
    }

    fn ever(&self) -> bool {
        true
    }
}

// What fills a list, so that an entry that is written shows.
// This and the roster below stand in dispatching's tests too: a crate for what two test modules share would be no plainer.
const BLANK: Pick = Pick {
    feed: 99,
    release: 99,
    done: true,
    lateness: 99,
};

// A roster of two lanes and feeds of these costs and spacings.
fn two_lanes(feeds: [(u32, u32); 3]) -> Result<Roster, Refusal> {
    let mut roster = Roster::new(2)?;
    for (cost, spacing) in feeds {
        roster.add(Feed { cost, spacing })?;
    }
    Ok(roster)
}

// The call of an event and its answer: how many picks, and the first two places of their list, blank where there is none.
fn told(event: Event) -> (Call, Result<(usize, [Pick; 2]), u8>) {
    match event {
        Event::Released { feed, cost } => (Call::Release { feed, cost }, Ok((0, [BLANK; 2]))),
        Event::Stepped { room, picks } => {
            let list = picks.as_slice();
            let first = list.first().copied().unwrap_or(BLANK);
            let second = list.get(1).copied().unwrap_or(BLANK);
            (Call::Step { room }, Ok((list.len(), [first, second])))
        }
        Event::Refused { call, refusal } => (call, Err(refusal.number())),
    }
}

#[test]
fn a_replay_asks_an_order_and_a_hold_rule_of_the_callers_own(rt: HostRuntime) -> Result<(), Fail> {
    let roster = two_lanes([(1, 2), (3, 12), (3, 3)])?;
    let step = Call::Step { room: 2 };
    let no_picks = Ok((0, [BLANK; 2]));
    let rows = [
        (Call::Release { feed: 1, cost: 1 }, no_picks),
        (Call::Release { feed: 2, cost: 3 }, no_picks),
        (Call::Release { feed: 3, cost: 3 }, no_picks),
        // the points are 0, 12 and 3: feed 2 has not drawn, so it is not held yet
        (step, Ok((2, [Pick::finished(1, 0, 0), Pick::drawn(3, 0)]))),
        (step, Ok((2, [Pick::drawn(3, 0), Pick::drawn(2, 0)]))),
        (Call::Release { feed: 1, cost: 1 }, no_picks),
        (Call::Release { feed: 1, cost: 1 }, Err(23)),
        (Call::Step { room: 1 }, Err(26)),
        // the points are 2, 12 and 3: feed 2 is held, feed 3 drew as well and has to wait
        (step, Ok((2, [Pick::finished(1, 2, 0), Pick::drawn(2, 0)]))),
        (
            Call::Step { room: 9 },
            Ok((2, [Pick::finished(3, 0, 1), Pick::finished(2, 0, 0)])),
        ),
        (step, no_picks),
    ];
    let mut calls = Vec::new(rt.alloc());
    for (call, _) in &rows {
        calls.push(*call)?;
    }
    let events = replay(rt.alloc(), roster, FirstFeedFirst, SecondFeedHeld, &calls)?;
    assert_eq!(rt; events.len(), rows.len());
    for (event, row) in events.iter().zip(rows) {
        assert_eq!(rt; told(*event), row);
    }
    Ok(())
}
