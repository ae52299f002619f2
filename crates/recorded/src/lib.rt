//! Recorded runs: calls made one after the other on a dispatcher, with their answers and picks.
#![tactic(auto)]

mod calling;
mod event;
mod replaying;
#[cfg(test)]
mod tests;

pub use calling::make_call;
pub use event::Event;
pub use replaying::replay;
