ghost use Rattle.forms.specs.Scan.{Decides};

/// Reading byte by byte decides whether a line has the shape of a form, and whether bytes begin one.
/// It does nothing: its contract is the statement.
pub fn reading_decides()
    ensures { Decides }
{}
