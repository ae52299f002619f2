//! Asking: the calls that a question stands for.
ghost use Rattle.std.specs.Prelude.{◌≡◌, IfOk};
ghost use Rattle.refusal.specs.Told.{refusal};
ghost use Rattle.policy.specs.Chosen.{chosen_order, chosen_hold};
ghost use Rattle.roster.specs.Roster.{feeds};
ghost use Rattle.questions.specs.Right.{plan_refusal, order_of, order_refusal, hold_of, hold_refusal, setup_refusal, SetsUp, Right};

use crate::plan::{HoldPlan, OrderPlan, Plan, Question, SetupPlan};
use policy::{AnyHold, AnyOrder, Blocks, Part, QueueOrder};
use refusal::Refusal;
use roster::{Feed, Roster};

/// What a dispatcher is opened with: a roster, an order and a hold rule.
#[derive(Clone, Copy)]
pub struct Setup {
    pub roster: Roster,
    pub order: AnyOrder,
    pub hold: AnyHold,
}

// The order of a plan, or why its settings are refused.
impl TryFrom<OrderPlan> for AnyOrder {
    type Error = Refusal;

    ghost try_from_gives = { λ plan r. (refusal r ≡ order_refusal plan) × IfOk r (λ o. chosen_order o ≡ order_of plan) };

    fn try_from(plan: OrderPlan) -> Result<AnyOrder, Refusal> {
        match plan {
            OrderPlan::FirstCome => Ok(AnyOrder::FirstCome),
            OrderPlan::ByDue => Ok(AnyOrder::ByDue),
            OrderPlan::Part(a, b) => Ok(AnyOrder::Part(Part::new(a, b)?)),
        }
    }
}

// The hold rule of a plan, or why its settings are refused.
impl TryFrom<HoldPlan> for AnyHold {
    type Error = Refusal;

    ghost try_from_gives = { λ plan r. (refusal r ≡ hold_refusal plan) × IfOk r (λ h. chosen_hold h ≡ hold_of plan) };

    fn try_from(plan: HoldPlan) -> Result<AnyHold, Refusal> {
        match plan {
            HoldPlan::Never => Ok(AnyHold::Never),
            HoldPlan::Always => Ok(AnyHold::Always),
            HoldPlan::Blocks(q) => Ok(AnyHold::Blocks(Blocks::new(q)?)),
        }
    }
}

// The roster of a plan, or the first refusal on the way.
fn build(plan: Plan<'_>) -> Result<Roster, Refusal>
    ensures answer { refusal result ≡ plan_refusal plan.entry }
    ensures made { IfOk result (λ t. (t.lanes ≡ plan.entry.lanes) × (feeds t ≡ plan.entry.feeds.now)) }
{
    let mut roster = Roster::new(plan.lanes)?;
    for feed in plan.feeds {
        roster.add(*feed)?;
    }
    Ok(roster)
}

/// The roster, the order and the hold rule of a plan, or the first refusal on the way.
pub fn set_up(plan: SetupPlan<'_>) -> Result<Setup, Refusal>
    ensures answer { refusal result ≡ setup_refusal plan.entry }
    ensures made { IfOk result (λ s. SetsUp plan.entry s) }
{
    let SetupPlan(roster, order, hold) = plan;
    Ok(Setup {
        roster: build(roster)?,
        order: AnyOrder::try_from(order)?,
        hold: AnyHold::try_from(hold)?,
    })
}

/// Makes the calls that a question stands for, and gives the right answer.
pub fn ask(question: Question<'_>) -> Result<u64, Refusal>
    ensures { Right question.entry result }
{
    match question {
        Question::Hyperperiod(plan) => Ok(build(plan)?.hyperperiod()),
        Question::Margin(plan) => {
            let setup = set_up(plan)?;
            Ok(u64::from(setup.roster.margin(&setup.order, &setup.hold)))
        }
        Question::Add(plan, feed) => {
            let mut roster = build(plan)?;
            Ok(u64::from(roster.add(feed)?))
        }
        Question::Point(order, spacing, release) => Ok(AnyOrder::try_from(order)?.point(
            1, spacing, release,
        )),
    }
}
