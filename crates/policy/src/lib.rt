// Which card comes first, and which card keeps its lane: queue orders and hold rules, as two interfaces and the built ones.
#![tactic(auto)]

mod hold;
mod order;
#[cfg(test)]
mod tests;

pub use hold::{Always, AnyHold, Blocks, HoldRule, Never};
pub use order::{AnyOrder, ByDue, FirstCome, Part, QueueOrder};
