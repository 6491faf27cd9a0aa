// Laws on these weights, each the contract of a function whose body calls the laws that it needs.
ghost use Rattle.std.specs.Prelude.{◌≤◌, ◌*◌, ℕ, ℤ, List};
ghost use Rattle.c_core.specs.Program.{IsProgram};
ghost use Rattle.c_core.specs.Tree.{Program};
ghost use Rattle.seek_meaning.specs.Steps.{StepsWithin};
ghost use Rattle.seek_weight.specs.Laws.{IsDecidedWithin};
ghost use Rattle.seek_weight.specs.SeekWeight.{SeekWeight, SeekBits};
ghost use Rattle.sym_weight.specs.Weight.{most_weight};
ghost use Rattle.way_match.specs.Points.{BoundSegment};

use seek_meaning::{bounded_runs_are_short, enough_steps_show, few_steps_have_room, hits_exactly};

/// The runs within a bound draw no more bits than they weigh.
pub fn draws_are_light()
    ensures { (p : Program) (ss : List BoundSegment) (k : ℕ) → SeekBits p k ≤ SeekWeight p ss k }
{}

/// Each step of a checked program's runs within a bound weighs 4 at least.
pub fn steps_are_light()
    ensures { (p : Program) → IsProgram p → (ss : List BoundSegment) (k : ℕ) →
        4 * StepsWithin p k ≤ SeekWeight p ss k }
{}

/// Where a checked program isn't too big within a bound, the run that seeks decides about all values, and 500,000 steps
/// are enough for the runs on them.
pub fn decided_within_weight()
    ensures { (p : Program) → IsProgram p → (ss : List BoundSegment) (k : ℕ) → SeekWeight p ss k ≤ most_weight →
        (w : List ℤ) → IsDecidedWithin p ss k w }
{
    steps_are_light();
    bounded_runs_are_short();
    few_steps_have_room();
    hits_exactly();
    enough_steps_show();
}
