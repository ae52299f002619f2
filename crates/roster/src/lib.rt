// Rosters: a lane count and feeds, each addition checked, and the margin of a roster under an order and a hold rule.
#![tactic(auto)]

mod feed;
mod measure;
mod multiple;
mod table;
#[cfg(test)]
mod tests;
mod weights;

pub use feed::Feed;
pub use table::Roster;
