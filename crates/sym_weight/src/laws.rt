// Laws on weights.
ghost use Rattle.std.specs.Prelude.{List};
ghost use Rattle.c_core.specs.Tree.{Program};
ghost use Rattle.c_meaning.specs.Duties.{Placed};
ghost use Rattle.sym_weight.specs.Laws.{CallsOutweigh, DrawsAreLight};

/// A program draws no more bits than it weighs.
pub fn draws_are_light()
    ensures { (p : Program) (invariants : List Placed) → DrawsAreLight p invariants }
{}

/// A call weighs more than the body that it goes through: the measure of a walk that unfolds calls.
pub fn calls_outweigh()
    ensures { (p : Program) (invariants : List Placed) → CallsOutweigh p invariants }
{}
