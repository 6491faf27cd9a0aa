// What machines of a program's code take at most.
ghost use Rattle.std.specs.Prelude.{None};
ghost use Rattle.c_calls.specs.Calling.{IsFirstRecursion};
ghost use Rattle.c_core.specs.Tree.{Program};
ghost use Rattle.flow_code.specs.declared.code.Code.{Code};
ghost use Rattle.flow_code.specs.Programs.{IsCodeOf};
ghost use Rattle.flow_laws.specs.Machines.{Control};
ghost use Rattle.flow_rooms.specs.Paces.{IsPaced, IsWithinPace};
ghost use Rattle.flow_rooms.specs.Rooms.{HasRoom, HasRooms, HoldsAtMost, IsBounded};

/// Wherever machines of a program's code stand, the functions being called are a chain of calls, and the stacks hold at
/// most as much as the code of these functions allows.
pub fn rooms_are_kept()
    ensures { (p : Program) (c : Code) → IsCodeOf p c → HasRooms p c }
{}

/// Where the chains of calls are bounded, so are the stacks: `reserve` makes as much room, and some of it is left
/// wherever machines stand.
pub fn rooms_are_bounded()
    ensures { (p : Program) (c : Code) (k : Control) → IsCodeOf p c → IsBounded p c → HasRoom p k → HoldsAtMost c k }
{}

/// Where main reaches no cycle of calls, the chains of calls are bounded: their functions are distinct, so they are no
/// more than the program's, and the code of all of them stands in the program's.
pub fn chains_are_bounded()
    ensures { (p : Program) (c : Code) → IsCodeOf p c → IsFirstRecursion p None → IsBounded p c }
{}

/// Between two operations that take a step the code of a program only leads on, or out of functions.
pub fn code_is_paced()
    ensures { (p : Program) (c : Code) → IsCodeOf p c → IsPaced c }
{}

/// With n steps the machine of a program's code does at most `(n + 1) * pace c` operations.
pub fn operations_are_paced()
    ensures { (p : Program) (c : Code) → IsCodeOf p c → IsWithinPace c }
{}
