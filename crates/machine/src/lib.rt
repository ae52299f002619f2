//! The dispatcher's machine as definitions, and the law over every run of it.
#![tactic(auto)]

mod call;
mod card;
mod law;
mod margin;
mod pick;
mod reason;

pub use call::Call;
pub use card::Card;
pub use law::{crowding_stands, listing_stands, runs_on_time};
pub use margin::timely_margin;
pub use pick::Pick;
pub use reason::CallRefusal;
