// Laws, each the contract of a function without a body.
ghost use Rattle.std.specs.Prelude.{ℕ, ℤ, Bool, List};
ghost use Rattle.c_core.specs.Tree.{Program};
ghost use Rattle.way_match.specs.Points.{BoundSegment};
ghost use Rattle.seek_mode.specs.SeekingScale.{CostsAtMost};
ghost use Rattle.seek_mode.specs.SoughtRuns.{IsSoughtRun, HitsWhereItFails};

/// In the mode of runs that seek the judged run is the run that seeks: a hit fails the one duty, a miss passes, and the
/// state is the same, field by field.
pub fn sought_runs_are_judged()
    ensures { (p : Program) (ss : List BoundSegment) (k n : ℕ) (w : List ℤ) (before : List Bool) →
        IsSoughtRun p ss k n w before }
{}

/// The run that seeks on a list of values hits exactly where the judged run fails the one duty.
pub fn hits_are_failures()
    ensures { (p : Program) (ss : List BoundSegment) (k : ℕ) (w : List ℤ) → HitsWhereItFails p ss k w }
{}

/// By the scale of runs that seek a function's body costs no more and-nodes than it weighs, at every depth of calls, and
/// draws no more bits than are counted.
pub fn runs_that_seek_cost_their_weight_at_most()
    ensures { (p : Program) (ss : List BoundSegment) (k n f : ℕ) → CostsAtMost p ss k n f }
{}
