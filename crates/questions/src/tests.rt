use crate::{HoldPlan, OrderPlan, Plan, Question, SetupPlan, ask};
use refusal::Refusal;
use roster::Feed;
use std::test::Fail;

#[test]
fn a_question_about_feeds_that_are_known_only_at_run_time_is_answered(rt: HostRuntime) {
    // the lanes, the cost of each feed and their spacings;
    // the hyperperiod, the margin under first-come and never, and the number of the last feed added once more
    let cases = [
        (2, 2, [3, 4, 6], Ok(12), Ok(3), Ok(4)),
        (2, 1, [2, 3, 5], Ok(30), Ok(2), Ok(4)),
        (1, 1, [2, 3, 6], Ok(6), Ok(1), Err(Refusal::Overload)),
    ];
    for (lanes, cost, spacings, hyperperiod, margin, number) in cases {
        let feeds = spacings.map(|spacing| Feed { cost, spacing });
        let plan = Plan {
            lanes,
            feeds: &feeds,
        };
        let setup = SetupPlan(plan, OrderPlan::FirstCome, HoldPlan::Never);
        assert_eq!(rt; ask(Question::Hyperperiod(plan)), hyperperiod);
        assert_eq!(rt; ask(Question::Margin(setup)), margin);
        assert_eq!(rt; ask(Question::Add(plan, feeds[2])), number);
    }
}

#[test]
fn a_question_about_feeds_that_are_known_only_at_run_time_is_printed(
    rt: HostRuntime,
) -> Result<(), Fail> {
    let feeds = [3, 4].map(|spacing| Feed { cost: 1, spacing });
    let plan = Plan {
        lanes: 2,
        feeds: &feeds,
    };
    let words = format!(in rt.alloc(); "{}", Question::Hyperperiod(plan))?;
    assert_eq!(rt;
        words.as_str(),
        "hyperperiod of 2 lanes, cost 1 every 3, cost 1 every 4"
    );
    Ok(())
}
