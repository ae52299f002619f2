//! An ordered container over a lent slice: elements are put in one by one and stand in
//! their order; when the slice is full, the last falls out.
#![tactic(auto)]

mod container;
mod ranked;
#[cfg(test)]
mod tests;

pub use container::Sorted;
pub use ranked::Ranked;
