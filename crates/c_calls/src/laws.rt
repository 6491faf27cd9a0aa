// What holds of called functions, each the contract of a function that does nothing.
ghost use Rattle.std.specs.Prelude.{◌≡◌, ◌<◌, ℕ, suc, ℤ, List, None, length, IsTrue};
ghost use Rattle.c_core.specs.Program.{has_main};
ghost use Rattle.c_core.specs.Tree.{Exp, Program};
ghost use Rattle.c_meaning.specs.Changed.{called_from};
ghost use Rattle.c_meaning.specs.Duties.{Placed};
ghost use Rattle.c_meaning.specs.Havoc.{havoc_in};
ghost use Rattle.c_calls.specs.Calling.{HasCalled, IsFirstRecursion};
ghost use Rattle.c_calls.specs.Depth.{ChainsAreShort, IsNeverMet};

/// The list of called functions by which a loop's changes are defined holds each function that is called, directly or
/// through further calls, and no other.
pub fn called_functions_are_found()
    ensures { (p : Program) (es : List Exp) → HasCalled p es (called_from p es) }
{}

/// Where main reaches no cycle of calls, a chain of calls is no longer than there are functions. So the bound on the
/// depth of calls with which havoc runs are defined is never met, and each larger bound gives the same run.
pub fn depth_is_bounded()
    ensures chains { (p : Program) → IsTrue (has_main p) → IsFirstRecursion p None → ChainsAreShort p }
    ensures never_met { (p : Program) → IsFirstRecursion p None → (invariants : List Placed) (n : ℕ)
        → length p.functions < n → IsNeverMet p invariants n }
    ensures havoc_runs { (p : Program) → IsFirstRecursion p None → (invariants : List Placed) (n : ℕ) (values : List ℤ)
        → length p.functions < n → havoc_in p invariants n values
        ≡ havoc_in p invariants (suc (length p.functions)) values }
{}
