//! What a question is about, as plain data.
use refusal::Refusal;
use roster::Feed;

/// A roster to be built: a lane count, and the feeds to add one after the other.
#[derive(Clone, Copy)]
pub struct Plan<'a> {
    pub lanes: u32,
    pub feeds: &'a [Feed],
}

/// A queue order by its settings.
#[derive(Clone, Copy)]
pub enum OrderPlan {
    FirstCome,
    ByDue,
    Part(u32, u32),
}

/// A hold rule by its settings.
#[derive(Clone, Copy)]
pub enum HoldPlan {
    Never,
    Always,
    Blocks(u32),
}

/// What a dispatcher is to be opened with: a roster, an order and a hold rule.
#[derive(Clone, Copy)]
pub struct SetupPlan<'a>(pub Plan<'a>, pub OrderPlan, pub HoldPlan);

/// What is asked.
#[derive(Clone, Copy)]
pub enum Question<'a> {
    /// The hyperperiod of a roster.
    Hyperperiod(Plan<'a>),
    /// The margin of a roster under an order and a hold rule.
    Margin(SetupPlan<'a>),
    /// The number that one feed more has once it is added.
    Add(Plan<'a>, Feed),
    /// The point of a card of feed 1, by its feed's spacing and its release.
    Point(OrderPlan, u32, u32),
}

/// A question and its answer: a number, or why it is refused.
#[derive(Clone, Copy)]
pub struct Case<Q> {
    pub question: Q,
    pub answer: Result<u64, Refusal>,
}
