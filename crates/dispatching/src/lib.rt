//! The dispatcher, and the law over every run of it.
#![tactic(auto)]

mod board;
mod closed;
mod dispatcher;
mod entry;
mod marking;
mod ready;
#[cfg(test)]
mod tests;

pub use closed::Closed;
pub use dispatcher::Dispatcher;
