ghost use Rattle.std.specs.Prelude.{◌≡◌};
ghost use Rattle.keeping.specs.Stage.{after};

/// What a feed does: nothing waits, its first card waits, or its first card drew in the last tick.
#[derive(Clone, Copy)]
pub enum Stage {
    Idle,
    Waiting,
    Drawing,
}

/// What can happen to a feed: a card of it is released, its first card is chosen and goes on, or is not chosen,
/// or is chosen and finished, with so many cards left behind it.
#[derive(Clone, Copy)]
pub enum Turn {
    Released,
    Chosen,
    Preempted,
    Finished { left: usize },
}

impl Stage {
    // The stage that a turn leads to.
    pub(crate) fn after(self, turn: Turn) -> Stage
        ensures { result ≡ after self turn }
    {
        // the pair is matched on, with no table or flag, since the rules give the next stage for each pair of stage and turn
        match (self, turn) {
            (Stage::Drawing, Turn::Released) => Stage::Drawing,
            (_, Turn::Released) => Stage::Waiting,
            (Stage::Idle, Turn::Chosen) => Stage::Idle,
            (_, Turn::Chosen) => Stage::Drawing,
            (Stage::Idle, Turn::Preempted) => Stage::Idle,
            (_, Turn::Preempted) => Stage::Waiting,
            (_, Turn::Finished { left: 0 }) => Stage::Idle,
            (_, Turn::Finished { .. }) => Stage::Waiting,
        }
    }
}
