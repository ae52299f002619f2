use crate::{AnyHold, AnyOrder, Blocks, HoldRule, Part, QueueOrder};
use refusal::Refusal;
use std::test::Fail;

// The number of the refusal, where the answer is one.
fn refused<T: Drop>(answer: Result<T, Refusal>) -> Option<u8> {
    answer.err().map(|refusal| refusal.number())
}

#[test]
fn a_point_is_the_release_the_due_or_a_part_of_the_way_rounded_down(
    rt: HostRuntime,
) -> Result<(), Fail> {
    let half = AnyOrder::Part(Part::new(1, 2)?);
    let most = AnyOrder::Part(Part::new(999, 1_000)?);
    // the order, the spacing, the release, the point
    let cases = [
        (AnyOrder::FirstCome, 7, 10, 10),
        (AnyOrder::FirstCome, 60_000, 1_000_000_000, 1_000_000_000),
        (AnyOrder::ByDue, 7, 10, 17),
        (AnyOrder::ByDue, 60_000, 1_000_000_000, 1_000_060_000),
        (half, 1, 10, 10),
        (half, 7, 10, 13),
        (half, 60_000, 0, 30_000),
        (most, 1, 10, 10),
        (most, 59_999, 0, 59_939),
        (most, 60_000, 1_000_000_000, 1_000_059_940),
    ];
    for (order, spacing, release, point) in cases {
        assert_eq!(rt; order.point(1, spacing, release), point);
    }
    Ok(())
}

#[test]
fn the_longer_spacing_overtakes_unless_the_order_is_by_due(rt: HostRuntime) -> Result<(), Fail> {
    let half = AnyOrder::Part(Part::new(1, 2)?);
    // the order, whether spacing 5 overtakes spacing 4, and spacing 4 itself and spacing 5
    let cases = [
        (AnyOrder::FirstCome, [true, false, false]),
        (AnyOrder::ByDue, [false, false, false]),
        (half, [true, false, false]),
    ];
    for (order, [longer, equal, shorter]) in cases {
        assert_eq!(rt; order.overtakes(1, 5, 2, 4), longer);
        assert_eq!(rt; order.overtakes(1, 4, 2, 4), equal);
        assert_eq!(rt; order.overtakes(1, 4, 2, 5), shorter);
    }
    Ok(())
}

#[test]
fn a_card_is_held_by_the_ticks_it_has_drawn(rt: HostRuntime) -> Result<(), Fail> {
    let twos = AnyHold::Blocks(Blocks::new(2)?);
    let thousands = AnyHold::Blocks(Blocks::new(1_000)?);
    // the rule, whether it ever holds, the ticks drawn, whether it holds then
    let cases = [
        (AnyHold::Never, false, 0, false),
        (AnyHold::Never, false, 1, false),
        (AnyHold::Always, true, 0, true),
        (AnyHold::Always, true, 1, true),
        (twos, true, 0, false),
        (twos, true, 1, true),
        (twos, true, 2, false),
        (thousands, true, 999, true),
        (thousands, true, 60_000, false),
    ];
    for (hold, ever, drawn, held) in cases {
        assert_eq!(rt; hold.ever(), ever);
        assert_eq!(rt; hold.held(1, drawn), held);
    }
    Ok(())
}

#[test]
fn settings_out_of_their_range_are_refused(rt: HostRuntime) {
    for (a, b, number) in [
        (0, 2, Some(16)),
        (1, 1, Some(16)),
        (2, 1, Some(16)),
        (1, 1_001, Some(16)),
        (1, 2, None),
        (999, 1_000, None),
    ] {
        assert_eq!(rt; refused(Part::new(a, b)), number);
    }
    for (q, number) in [
        (0, Some(16)),
        (1, Some(16)),
        (2, None),
        (1_000, None),
        (1_001, Some(16)),
    ] {
        assert_eq!(rt; refused(Blocks::new(q)), number);
    }
}
