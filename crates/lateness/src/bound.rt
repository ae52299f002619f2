ghost use Rattle.lateness.specs.Bound.{NeverLater};

/// In every schedule that keeps the laws, every card is finished by its due + the margin + its feed's cost,
/// for every margin that is enough.
pub fn never_later()
    ensures { NeverLater }
{}
