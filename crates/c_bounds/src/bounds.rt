// Bounds with which runs are defined.
ghost use Rattle.c_core.specs.Tree.{Program};
ghost use Rattle.c_bounds.specs.Bounds.{AreNeverMet};

/// A run is the same with every larger bound on its calls and on the turns of its loops, and whatever is done where a
/// bound is met.
pub fn bounds_are_never_met()
    ensures { (p : Program) → AreNeverMet p }
{}
