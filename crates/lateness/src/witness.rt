// A schedule that keeps the laws.
ghost use Rattle.lateness.specs.Witness.{Contended};

/// The laws can be kept: a schedule of three feeds on two lanes keeps them all.
/// In it a ready card waits while a held card behind it is drawn, and the margin 6 is enough.
pub fn schedules_exist()
    ensures { Contended 6 }
{}
