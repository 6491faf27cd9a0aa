// What holds of loops in every run.
ghost use Rattle.std.specs.Prelude.{◌≡◌, ℕ, not, List, IsTrue};
ghost use Rattle.std.specs.List.{All};
ghost use Rattle.c_core.specs.Tree.{Program};
ghost use Rattle.c_core.specs.Program.{IsProgram};
ghost use Rattle.c_core.specs.Parts.{statements_of_program};
ghost use Rattle.c_meaning.specs.declared.run.Choices.{Choices};
ghost use Rattle.c_meaning.specs.Cells.{Key, Cell, read};
ghost use Rattle.c_meaning.specs.Parts.{is_in};
ghost use Rattle.c_meaning.specs.Run.{Moments};
ghost use Rattle.c_frames.specs.Frames.{SameBut, IsFramed, TurnsAreFramed};

/// At each head of a loop in a run of a checked program the cells are those at the loop's arrival, in their places and
/// under their names. Another value than then stands only in cells of objects that the loop changes.
pub fn heads_are_framed()
    ensures { (p : Program) → IsProgram p → (c : Choices) (N : ℕ) → All (IsFramed p) (Moments p c N) }
{}

/// Where cells are the same but for some objects, each other object's cells read as before.
pub fn others_read_as_before()
    ensures { (p : Program) (changed : List ℕ) (before now : List Cell) → SameBut p changed before now → (k : Key)
        → IsTrue (not (is_in k.object changed)) → read k now ≡ read k before }
{}

/// Each turn of a loop in a checked program that comes back to the loop's head leaves the cells that lived when it
/// began, and changes only those that the loop changes, its calls included.
pub fn turns_are_framed()
    ensures { (p : Program) → IsProgram p → All (TurnsAreFramed p) (statements_of_program p) }
{}
