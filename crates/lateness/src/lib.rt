//! No card is later than its latest tick: the bound over abstract schedules, which knows nothing of rosters or dispatchers.
//! There is no code to speak of; each function carries a theorem in its contract.
#![tactic(auto)]

mod bound;
mod instances;
mod witness;

pub use bound::never_later;
pub use instances::{held_covered, unheld_covered, weights_covered};
pub use witness::schedules_exist;
