// What holds of every run.
ghost use Rattle.std.specs.Prelude.{◌≡◌, ◌≤◌, ℕ, ℤ, List};
ghost use Rattle.c_core.specs.Tree.{Program};
ghost use Rattle.c_meaning.specs.declared.run.Choices.{Choices};
ghost use Rattle.c_meaning.specs.declared.run.End.TheVariants.{Spent};
ghost use Rattle.c_meaning.specs.Run.{Run};
ghost use Rattle.c_meaning.specs.Replay.{IsReplayed};
ghost use Rattle.c_meaning.specs.Budget.{Continues, HasFewEvents, Stays};
ghost use Rattle.c_meaning.specs.Drawn.{AreFitting};
ghost use Rattle.c_meaning.specs.Duties.{Placed};
ghost use Rattle.c_meaning.specs.Havoc.{Havoc};
ghost use Rattle.c_core.specs.Program.{IsProgram};
ghost use Rattle.c_meaning.specs.Fitting.{CellsFit};

/// The draws of a run, taken in turn, give the same run.
pub fn replay()
    ensures { (p : Program) (c : Choices) (N : ℕ) → IsReplayed p c N }
{}

/// The events and draws of a run begin with those of the run with a smaller budget.
pub fn larger_budget_continues()
    ensures { (p : Program) (c : Choices) (n m : ℕ) → n ≤ m → Continues p c n m }
{}

/// A run that doesn't end spent is the run with each larger budget.
pub fn ended_runs_stay()
    ensures { (p : Program) (c : Choices) (n m : ℕ) → n ≤ m → ((Run p c n).end ≡ Spent → ⊥) → Stays p c n m }
{}

/// A run of n steps has at most 3n + 1 events.
pub fn few_events()
    ensures { (p : Program) (c : Choices) (N : ℕ) → HasFewEvents p c N }
{}

/// Each value that a run or a havoc run draws is one of its type, and so a number from -2^63 to 2^64 - 1.
pub fn draws_fit()
    ensures run { (p : Program) (c : Choices) (N : ℕ) → AreFitting p.model (Run p c N).draws }
    ensures havoc_run { (p : Program) (invariants : List Placed) (values : List ℤ)
        → AreFitting p.model (Havoc p invariants values).draws }
{}

/// At every moment of a run of a checked program each cell holds a value of its object's type, and objects of static
/// storage have their cells. At the end of a run or a havoc run the first still holds. An expression or a statement
/// that begins where objects in reach have such cells gives a value of its type and leaves them such cells, and so do
/// the parameters of a call and the draws at a loop's head.
pub fn cells_fit()
    ensures { (p : Program) → IsProgram p → CellsFit p }
{}
