// Laws, each the contract of a function without a body.
ghost use Rattle.std.specs.Prelude.{ℕ, List};
ghost use Rattle.author_runs.specs.Giving.{GivesDraws, OthersDrewZero, IsSameRun};
ghost use Rattle.author_runs.specs.Returning.{InputsComeBack, ViolationsEndRuns};
ghost use Rattle.c_core.specs.Program.{IsProgram};
ghost use Rattle.c_core.specs.Tree.{Program};
ghost use Rattle.c_meaning.specs.Run.{Run};
ghost use Rattle.c_meaning.specs.declared.run.Choices.{Choices};
ghost use Rattle.c_meaning.specs.declared.run.Choices.TheVariants.{Given};
ghost use Rattle.c_meaning.specs.declared.run.Given.{Given as GivenAt};

/// A run in which only inputs drew something else than 0 is the run that is given, at each place, the values that its
/// inputs drew there. This holds for every choice of values, and so for values taken in turn.
pub fn values_by_place_replay()
    ensures { (p : Program) (c : Choices) (N : ℕ) (gs : List GivenAt) → OthersDrewZero (Run p c N).draws
        → GivesDraws gs (Run p c N).draws → IsSameRun p c (Given gs) N }
{}

/// Each input that a run draws comes back with its value at the end of its call, in the order of the
/// draws, and nothing else comes back at the end of an input call.
pub fn inputs_come_back()
    ensures { (p : Program) → IsProgram p → (c : Choices) (n : ℕ) → InputsComeBack p c n }
{}

/// A run that violates the property ends with that: the violation is the last that is reported, and
/// it happens in a statement.
pub fn violations_end_runs()
    ensures { (p : Program) → IsProgram p → (c : Choices) (n : ℕ) → ViolationsEndRuns p c n }
{}
