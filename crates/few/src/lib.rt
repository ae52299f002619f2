//! A list of a few elements in fixed memory: they stand in the front places of an array, and no heap is needed.
#![tactic(auto)]

mod few;

pub use few::Few;
