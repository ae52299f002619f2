use crate::Dispatcher;
use machine::{CallRefusal, Pick};
use policy::{FirstCome, Never};
use refusal::Refusal;
use roster::{Feed, Roster};
use std::process::Abort;
use std::test::Fail;

// What fills a list, so that an entry that is written shows.
// This and the roster below stand in recorded's tests too: a crate for what two test modules share would be no plainer.
const BLANK: Pick = Pick {
    feed: 99,
    release: 99,
    done: true,
    lateness: 99,
};

// A roster of two lanes and feeds of these costs and spacings.
fn two_lanes(feeds: [(u32, u32); 3]) -> Result<Roster, Refusal> {
    let mut roster = Roster::new(2)?;
    for (cost, spacing) in feeds {
        roster.add(Feed { cost, spacing })?;
    }
    Ok(roster)
}

// A dispatcher on that roster, first-come and without holding.
fn opened(feeds: [(u32, u32); 3]) -> Result<Dispatcher<FirstCome, Never>, Refusal> {
    Ok(Dispatcher::open(two_lanes(feeds)?, FirstCome, Never))
}

// The clock, and how many cards of each feed wait and its largest lateness.
fn answers(
    dispatcher: &Dispatcher<FirstCome, Never>,
) -> Result<(u32, [usize; 3], [u32; 3]), CallRefusal> {
    let mut waiting = [0; 3];
    let mut lateness = [0; 3];
    for (at, feed) in [(0, 1), (1, 2), (2, 3)] {
        waiting[at] = dispatcher.waiting(feed)?;
        lateness[at] = dispatcher.lateness(feed)?;
    }
    Ok((dispatcher.clock(), waiting, lateness))
}

// The number of the refusal, if it is one.
// The tests of policy and roster have such a function too, which would be no plainer in a crate of its own.
fn refused<T: Drop>(answer: Result<T, CallRefusal>) -> Option<u8> {
    answer.err().map(|refusal| refusal.number())
}

// The answer of a step, and its list of two places, blank before.
fn stepped(
    dispatcher: &mut Dispatcher<FirstCome, Never>,
) -> Result<(usize, [Pick; 2]), CallRefusal> {
    let mut list = [BLANK; 2];
    let count = dispatcher.step(&mut list)?;
    Ok((count, list))
}

// Makes a step with a list of that many places that is refused with that number, and sees that nothing has changed.
fn check_refused_step(
    rt: &impl Abort,
    dispatcher: &mut Dispatcher<FirstCome, Never>,
    room: usize,
    number: u8,
) -> Result<(), Fail> {
    let before = answers(dispatcher)?;
    let mut list = [BLANK; 8];
    let answer = refused(dispatcher.step(&mut list[0..room.min(8)]));
    assert_eq!(rt; answer, Some(number));
    assert_eq!(rt; list, [BLANK; 8]);
    assert_eq!(rt; answers(dispatcher)?, before);
    Ok(())
}

// Makes a release that is refused with that number, and sees that nothing has changed.
fn check_refused_release(
    rt: &impl Abort,
    dispatcher: &mut Dispatcher<FirstCome, Never>,
    feed: u32,
    cost: u32,
    number: u8,
) -> Result<(), Fail> {
    let before = answers(dispatcher)?;
    assert_eq!(rt; refused(dispatcher.release(feed, cost)), Some(number));
    assert_eq!(rt; answers(dispatcher)?, before);
    Ok(())
}

// The worked listing, each step checked: feed 1 is released a tick after the others and waits until they are finished.
fn listing(rt: &impl Abort) -> Result<Dispatcher<FirstCome, Never>, Fail> {
    let mut dispatcher = opened([(1, 2), (4, 6), (4, 6)])?;
    dispatcher.release(2, 4)?;
    dispatcher.release(3, 4)?;
    let both = (2, [Pick::drawn(2, 0), Pick::drawn(3, 0)]);
    assert_eq!(rt; stepped(&mut dispatcher)?, both);
    dispatcher.release(1, 1)?;
    assert_eq!(rt; answers(&dispatcher)?, (1, [1, 1, 1], [0, 0, 0]));
    for picks in [
        both,
        both,
        (2, [Pick::finished(2, 0, 0), Pick::finished(3, 0, 0)]),
        (1, [Pick::finished(1, 1, 2), BLANK]),
    ] {
        assert_eq!(rt; stepped(&mut dispatcher)?, picks);
    }
    Ok(dispatcher)
}

#[test]
fn the_worked_listing_has_its_picks_and_closes_with_its_latenesses(
    rt: HostRuntime,
) -> Result<(), Fail> {
    let dispatcher = listing(&rt)?;
    assert_eq!(rt; dispatcher.margin(), 9);
    assert_eq!(rt; answers(&dispatcher)?, (5, [0, 0, 0], [2, 0, 0]));
    let closed = dispatcher.close();
    assert_eq!(rt; closed.latenesses(), [2, 0, 0].as_slice());
    assert_eq!(rt; (closed.roster.lanes(), closed.roster.len()), (2, 3));
    Ok(())
}

#[test]
fn a_release_that_finds_sixteen_cards_of_its_feed_waiting_is_refused(
    rt: HostRuntime,
) -> Result<(), Fail> {
    let mut dispatcher = opened([(1, 1), (100, 200), (100, 200)])?;
    dispatcher.release(2, 100)?;
    dispatcher.release(3, 100)?;
    // the card of tick 0 is drawn at once, those of the ticks 1 to 16 wait
    for tick in 0..17 {
        assert_eq!(rt; dispatcher.clock(), tick);
        dispatcher.release(1, 1)?;
        // both checks fail at tick 16, and the earlier one decides
        check_refused_release(&rt, &mut dispatcher, 1, 1, 23)?;
        assert_eq!(rt; stepped(&mut dispatcher)?.0, 2);
    }
    assert_eq!(rt; answers(&dispatcher)?, (17, [16, 1, 1], [0, 0, 0]));
    check_refused_release(&rt, &mut dispatcher, 1, 1, 24)
}

#[test]
fn a_refused_call_changes_nothing_and_the_first_check_that_fails_decides(
    rt: HostRuntime,
) -> Result<(), Fail> {
    // the clock is 5, and the last releases are at 1, 0 and 0
    let mut dispatcher = listing(&rt)?;
    dispatcher.release(1, 1)?;
    assert_eq!(rt; answers(&dispatcher)?, (5, [1, 0, 0], [2, 0, 0]));
    for feed in [0, 4] {
        assert_eq!(rt; refused(dispatcher.waiting(feed)), Some(21));
        assert_eq!(rt; refused(dispatcher.lateness(feed)), Some(21));
    }
    // the feed, the cost, the refusal
    for (feed, cost, number) in [
        (0, 1, 21),
        (4, 0, 21),
        (1, 0, 22),
        (2, 5, 22),
        (1, 1, 23),
        (2, 4, 23),
    ] {
        check_refused_release(&rt, &mut dispatcher, feed, cost, number)?;
    }
    check_refused_step(&rt, &mut dispatcher, 0, 26)?;
    check_refused_step(&rt, &mut dispatcher, 1, 26)?;
    assert_eq!(rt;
        stepped(&mut dispatcher)?,
        (1, [Pick::finished(1, 5, 0), BLANK])
    );
    // the refused release of feed 2 a tick ago does not count
    dispatcher.release(2, 4)?;
    assert_eq!(rt; answers(&dispatcher)?, (6, [0, 1, 0], [2, 0, 0]));
    Ok(())
}

#[test]
fn at_the_end_of_the_clock_steps_are_refused_and_releases_are_not(
    rt: HostRuntime,
) -> Result<(), Fail> {
    let roster = two_lanes([(1, 2), (4, 6), (4, 6)])?;
    let mut dispatcher = Dispatcher::at_clock(roster, FirstCome, Never, 999_999_999);
    dispatcher.release(2, 4)?;
    let picks = stepped(&mut dispatcher)?;
    assert_eq!(rt; picks, (1, [Pick::drawn(2, 999_999_999), BLANK]));
    assert_eq!(rt; dispatcher.clock(), 1_000_000_000);
    for (room, number) in [(8, 25), (2, 25), (1, 26)] {
        check_refused_step(&rt, &mut dispatcher, room, number)?;
    }
    dispatcher.release(3, 4)?;
    assert_eq!(rt;
        answers(&dispatcher)?,
        (1_000_000_000, [0, 1, 1], [0, 0, 0])
    );
    Ok(())
}

#[test]
fn a_list_keeps_its_entries_behind_the_picks(rt: HostRuntime) -> Result<(), Fail> {
    let mut dispatcher = opened([(1, 2), (4, 6), (4, 6)])?;
    dispatcher.release(2, 4)?;
    let mut list = [BLANK; 8];
    let mut after = [BLANK; 8];
    after[0] = Pick::drawn(2, 0);
    assert_eq!(rt; dispatcher.step(&mut list)?, 1);
    assert_eq!(rt; list, after);
    Ok(())
}
