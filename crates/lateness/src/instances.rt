// What covers the progress and the weights of a schedule.
ghost use Rattle.lateness.specs.Instances.{UnheldCovered, HeldCovered, WeightsCovered};

/// Where nothing is held, the largest costs, one fewer than lanes, cover what is in progress.
/// It does nothing: its contract is the statement.
pub fn unheld_covered()
    ensures { UnheldCovered }
{}

/// Where a card may be held for up to its cost, the largest costs, as many as lanes, cover what is in progress.
/// It does nothing: its contract is the statement.
pub fn held_covered()
    ensures { HeldCovered }
{}

/// The largest weights, one fewer than lanes, cover the weights.
/// It does nothing: its contract is the statement.
pub fn weights_covered()
    ensures { WeightsCovered }
{}
