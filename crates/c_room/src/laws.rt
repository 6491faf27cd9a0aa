// What holds of every run without recursion.
ghost use Rattle.std.specs.Prelude.{◌≤◌, None, length};
ghost use Rattle.c_core.specs.Tree.{Program};
ghost use Rattle.c_core.specs.Program.{IsProgram};
ghost use Rattle.c_calls.specs.Calling.{IsFirstRecursion};
ghost use Rattle.c_room.specs.Room.{most_functions, HasRoom};

/// Where main reaches no cycle of calls and there are at most 800,000 functions, no run is deep: the objects of a
/// checked program have at most 100,000 cells, and no function is active twice.
pub fn runs_have_room()
    ensures { (p : Program) → IsProgram p → IsFirstRecursion p None → length p.functions ≤ most_functions → HasRoom p }
{}
