// Why a roster, or a setting of an order or a hold rule, is refused: one case for each reason.
#![tactic(auto)]

mod reason;

pub use reason::Refusal;
