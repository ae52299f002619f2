//! The forms of a script's lines: the grammar as data, and that reading byte by byte decides it.
#![tactic(auto)]

mod law;

pub use law::reading_decides;
