//! Questions about rosters, orders and hold rules as plain data: asking them, the worked cases with their answers, and their words.
#![tactic(auto)]

mod asking;
mod plan;
mod show;
mod table;
#[cfg(test)]
mod tests;

pub use asking::{Setup, ask, set_up};
pub use plan::{Case, HoldPlan, OrderPlan, Plan, Question, SetupPlan};
pub use table::{A, cases};
