ghost use Rattle.std.specs.Prelude.{◌≡◌, ℕ, ◌≤◌, map};
ghost use Rattle.roster.specs.Roster.{feeds};
ghost use Rattle.dispatching.specs.Dispatcher.{setting, state};
ghost use Rattle.machine.specs.Law.{TimelyFrom, IsMargin, opened};
ghost use Rattle.machine.specs.Machine.{opening, fresh};

use crate::board::Board;
use crate::dispatcher::Dispatcher;
use policy::{HoldRule, QueueOrder};
use roster::Roster;

impl<O: QueueOrder, H: HoldRule> Dispatcher<O, H> {
    // A dispatcher with nothing released, at that clock.
    pub(crate) fn at_clock(roster: Roster, order: O, hold: H, clock: u32) -> Dispatcher<O, H>
        requires { clock ≤ 1000000000 }
        ensures state { state result ≡ record { clock = clock; kept = map (λ _. fresh) (feeds roster) } }
        ensures taken { (result.board.roster ≡ roster) × (result.order ≡ order) × (result.hold ≡ hold) }
    {
        Dispatcher {
            board: Board::new(roster, clock),
            order,
            hold,
        }
    }

    // Three values, no struct of them: the rules open a dispatcher on a roster, an order and a hold rule, each by value.

    /// Opens a dispatcher on a roster, an order and a hold rule, with the clock at 0 and nothing released.
    /// Every run from there on is on time with the margin, and no step of it has more picks than lanes.
    pub fn open(roster: Roster, order: O, hold: H) -> Dispatcher<O, H>
        ensures taken { (result.board.roster ≡ roster) × (result.order ≡ order) × (result.hold ≡ hold) }
        ensures state { state result ≡ opening (opened roster (O.QueueOrder.meaning order) (H.HoldRule.meaning hold)) }
        ensures on_time { (x : ℕ) → IsMargin (setting result) x → TimelyFrom (setting result) (state result) x }
    {
        Dispatcher::at_clock(roster, order, hold, 0)
    }
}
