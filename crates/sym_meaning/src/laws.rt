// Laws, each the contract of a function without a body.
ghost use Rattle.std.specs.Prelude.{ℕ, ℤ, Bool, List};
ghost use Rattle.c_core.specs.Tree.{Program};
ghost use Rattle.c_meaning.specs.Duties.{Placed};
ghost use Rattle.sym_meaning.specs.Obliging.{IsHavocRun};

/// In the mode of obligations the judged run is the havoc run: it ends as that ends, in its state, with its draws.
pub fn havoc_runs_are_judged()
    ensures { (p : Program) (I : List Placed) (n : ℕ) (w : List ℤ) (before : List Bool) → IsHavocRun p I n w before }
{}
