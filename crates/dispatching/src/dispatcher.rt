ghost use Rattle.std.specs.Prelude.{◌≡◌, ◌≤◌, length};

use crate::board::Board;
use policy::{HoldRule, QueueOrder};

mod asking;
mod closing;
mod opening;
mod releasing;
mod stepping;

/// A dispatcher: a roster, an order and a hold rule, the clock, and what is kept of each feed.
#[derive(Drop)]
pub struct Dispatcher<O: QueueOrder, H: HoldRule> {
    board: Board,
    order: O,
    hold: H,
    ghost timed: { board.clock ≤ 1000000000 },
    // the array's type does not tell other crates
    ghost sized: { length board.records ≡ 32 },
}
