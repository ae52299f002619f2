ghost use Rattle.std.specs.Prelude.{◌≡◌, true, length, ◌==◌};
ghost use Rattle.std.specs.List.{list_all};
ghost use Rattle.few.specs.Listed.{listed};
ghost use Rattle.keeping.specs.Begun.{begun};
ghost use Rattle.keeping.specs.Stage.{is_idle};

use crate::stage::Stage;
use few::Few;
use machine::Card;

mod doing;
mod reading;

/// What is kept of a feed.
#[derive(Clone, Copy)]
pub struct Record {
    // the waiting cards, the earliest first
    queue: Few<Card, 16>,
    // the last accepted release
    last: Option<u32>,
    stage: Stage,
    // the largest lateness of a finished card
    worst: u32,
    ghost staged: { is_idle stage ≡ (length (listed queue) == 0) },
    ghost unfinished: { list_all begun (listed queue) ≡ true },
}
