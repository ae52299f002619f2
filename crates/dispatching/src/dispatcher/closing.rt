ghost use Rattle.std.specs.Prelude.{◌≡◌, map};
ghost use Rattle.dispatching.specs.Closed.{latenesses};
ghost use Rattle.dispatching.specs.Dispatcher.{state};

use crate::closed::Closed;
use crate::dispatcher::Dispatcher;
use policy::{HoldRule, QueueOrder};

impl<O: QueueOrder + Drop, H: HoldRule + Drop> Dispatcher<O, H> {
    /// Closes the dispatcher, and hands back its roster and the largest lateness of each feed. Cards that wait are let go.
    pub fn close(self) -> Closed
        ensures roster { result.roster ≡ self.board.roster }
        ensures latenesses { latenesses result ≡ map (λ k. k.worst) (state self).kept }
    {
        let board = self.board;
        let latenesses = board.latenesses();
        Closed::new(board.roster, latenesses)
    }
}
