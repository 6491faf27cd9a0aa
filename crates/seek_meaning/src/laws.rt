// Laws, each the contract of a function whose body calls the laws that it needs.
ghost use Rattle.std.specs.Prelude.{◌≡◌, ◌≤◌, ◌+◌, ℕ, ℤ, List, length, true};
ghost use Rattle.c_core.specs.Tree.{Program};
ghost use Rattle.c_meaning.specs.declared.run.Choices.{Choices};
ghost use Rattle.c_meaning.specs.Run.{first_cells, most_cells};
ghost use Rattle.way_match.specs.Points.{BoundSegment};
ghost use Rattle.seek_meaning.specs.Bounded.{StaysWithin, HasRoom};
ghost use Rattle.seek_meaning.specs.Seeking.{SeekRun, hits};
ghost use Rattle.seek_meaning.specs.Sought.{IsTheRun, IsDecided, IsShownIn};
ghost use Rattle.seek_meaning.specs.Steps.{StepsWithin, IsShort};

use c_bounds::bounds_are_never_met;

/// A run that a bound doesn't cut is the run, moment by moment.
pub fn bounded_runs_agree()
    ensures { (p : Program) (k : ℕ) (c : Choices) (N : ℕ) → StaysWithin p k c N → IsTheRun p k c N }
{
    bounds_are_never_met();
}

/// A run with a bound comes to an end: so many steps are enough, whatever it draws. What lives in it took steps: it has
/// no room only where its steps, and the cells of static storage, are more than may live at once.
pub fn bounded_runs_are_short()
    ensures { (p : Program) (k : ℕ) (c : Choices) (N : ℕ) → IsShort p k c N }
{}

/// Where as many cells as steps are enough have room, runs within the bound have room, whatever their budget.
pub fn few_steps_have_room()
    ensures { (p : Program) (k : ℕ) → length (first_cells p) + StepsWithin p k ≤ most_cells →
        (w : List ℤ) → HasRoom p k w }
{}

/// Where runs within the bound have room for their cells, the run that seeks hits exactly where a run on the same
/// values stays within the bound, violates the property and matches the segments at some positions. It draws what that
/// run draws.
pub fn hits_exactly()
    ensures { (p : Program) (ss : List BoundSegment) (k : ℕ) (w : List ℤ) → HasRoom p k w → IsDecided p ss k w }
{
    bounds_are_never_met();
}

/// A hit is shown by the run with any number of steps that is enough for runs within the bound.
pub fn enough_steps_show()
    ensures { (p : Program) (ss : List BoundSegment) (k : ℕ) (w : List ℤ) → HasRoom p k w →
        hits (SeekRun p ss k w) ≡ true → (N : ℕ) → StepsWithin p k ≤ N → IsShownIn p ss k w N }
{
    bounds_are_never_met();
}
