//! What a dispatcher keeps of a feed: its last release, its waiting cards, what it does, and its largest lateness.
#![tactic(auto)]

mod record;
mod stage;

pub use record::Record;
