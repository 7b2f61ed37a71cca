ghost use Rattle.dd_close.specs.NotBoth.{NotBoth};

/// The law that there are not both the lines of a right Closed verdict and a model with an element that has the label. The call
/// does nothing.
pub fn not_both()
    ensures { NotBoth }
{}
