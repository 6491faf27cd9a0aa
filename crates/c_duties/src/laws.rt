// What holds of the obligations of every program.
ghost use Rattle.std.specs.Prelude.{List};
ghost use Rattle.c_core.specs.Program.{IsProgram};
ghost use Rattle.c_core.specs.Tree.{Program};
ghost use Rattle.c_meaning.specs.Duties.{Duties, Placed};
ghost use Rattle.c_duties.specs.Failing.{FailsAtDuties, TellsEach, TellsObligations};
ghost use Rattle.c_duties.specs.Ordered.{AllDiffer, AreInOrder};

/// Each havoc run that fails, fails at an obligation of the program, and the number that it reports is that of the first
/// such obligation.
pub fn failing_runs_fail_at_duties()
    ensures at_duties { (p : Program) (invariants : List Placed) → FailsAtDuties p invariants }
    ensures by_number { (p : Program) (invariants : List Placed) → TellsObligations p invariants }
{}

/// The obligations are those of the invariants and of the full expressions, by place and kind.
pub fn duties_are_in_order()
    ensures { (p : Program) (invariants : List Placed) → AreInOrder p invariants }
{}

/// No two obligations of a checked program are the same, so that a havoc run that fails at one reports just its number.
pub fn duties_differ()
    ensures differ { (p : Program) → IsProgram p → (invariants : List Placed) → AllDiffer (Duties p invariants) }
    ensures each_told { (p : Program) → IsProgram p → (invariants : List Placed) → TellsEach p invariants }
{}
