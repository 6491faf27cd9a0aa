// What holds of every run where all obligations hold.
ghost use Rattle.std.specs.Prelude.{List, None};
ghost use Rattle.c_core.specs.Tree.{Program};
ghost use Rattle.c_core.specs.Program.{IsProgram};
ghost use Rattle.c_meaning.specs.Duties.{Placed};
ghost use Rattle.c_calls.specs.Calling.{IsFirstRecursion};
ghost use Rattle.c_lifting.specs.Lifting.{EveryObligationHolds, Lifted};

/// Where main reaches no cycle of calls and every obligation holds, no run is violated, whatever its choices and its
/// budget of steps. Each location invariant then holds each time its statement is about to be done, and each loop
/// invariant each time the loop's head is reached.
pub fn runs_are_lifted()
    ensures { (p : Program) → IsProgram p → IsFirstRecursion p None → (invariants : List Placed)
        → EveryObligationHolds p invariants → Lifted p invariants }
{}
