//! The dispatcher's machine, and the law over every run of it.
#![tactic(auto)]

mod law;
mod margin;

pub use law::{crowding_stands, listing_stands, runs_on_time};
pub use machine::CallRefusal;
pub use margin::timely_margin;
