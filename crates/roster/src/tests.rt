use crate::{Feed, Roster};
use refusal::Refusal;
use std::test::Fail;

// The number of the refusal, where the answer is one.
fn refused<T: Drop>(answer: Result<T, Refusal>) -> Option<u8> {
    answer.err().map(|refusal| refusal.number())
}

// The cost and the spacing of the feed of that number.
fn asked(roster: &Roster, number: u32) -> Option<(u32, u32)> {
    let feed = roster.feed(number)?;
    Some((feed.cost, feed.spacing))
}

#[test]
fn each_refusal_has_its_number_and_the_first_check_that_fails_decides(
    rt: HostRuntime,
) -> Result<(), Fail> {
    for (lanes, number) in [(0, Some(11)), (1, None), (8, None), (9, Some(11))] {
        assert_eq!(rt; refused(Roster::new(lanes)), number);
    }
    // how many feeds one lane has and what each costs at which spacing, the feed to add, the refusal
    let cases = [
        (31, (1, 32), (1, 32), None),
        (32, (1, 32), (1, 32), Some(13)),
        (32, (1, 32), (1, 0), Some(13)),
        (32, (1, 32), (1, 60_001), Some(13)),
        (0, (1, 1), (60_000, 60_000), None),
        (0, (1, 1), (0, 1), Some(12)),
        (1, (59_999, 59_999), (1, 60_001), Some(12)),
        (1, (59_999, 59_999), (60_001, 60_000), Some(12)),
        (1, (59_999, 59_999), (1, 60_000), Some(14)),
        (1, (59_999, 59_999), (1, 59_999), Some(15)),
    ];
    for (count, (cost, spacing), (new_cost, new_spacing), number) in cases {
        let mut roster = Roster::new(1)?;
        for _ in 0..count {
            roster.add(Feed { cost, spacing })?;
        }
        assert_eq!(rt;
            refused(roster.add(Feed {
                cost: new_cost,
                spacing: new_spacing,
            })),
            number
        );
    }
    Ok(())
}

#[test]
fn a_refused_feed_leaves_the_roster_as_it_was(rt: HostRuntime) -> Result<(), Fail> {
    let mut roster = Roster::new(1)?;
    assert_eq!(rt;
        roster.add(Feed {
            cost: 1,
            spacing: 4,
        })?,
        1
    );
    assert_eq!(rt;
        roster.add(Feed {
            cost: 2,
            spacing: 59_999,
        })?,
        2
    );
    for (cost, spacing, number) in [(5, 4, 12), (1, 60_000, 14), (4, 4, 15)] {
        assert_eq!(rt; refused(roster.add(Feed { cost, spacing })), Some(number));
        assert_eq!(rt; roster.len(), 2);
        assert_eq!(rt; roster.hyperperiod(), 239_996);
        assert_eq!(rt; asked(&roster, 0), None);
        assert_eq!(rt; asked(&roster, 1), Some((1, 4)));
        assert_eq!(rt; asked(&roster, 2), Some((2, 59_999)));
        assert_eq!(rt; asked(&roster, 3), None);
    }
    Ok(())
}
