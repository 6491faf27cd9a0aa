// A law on the promise, the contract of a function whose body calls the law that it needs.
ghost use Rattle.std.specs.Prelude.{ℕ, List};
ghost use Rattle.c_core.specs.Tree.{Program};
ghost use Rattle.way_match.specs.Points.{BoundSegment};
ghost use Rattle.seek_answer.specs.Reaching.{HaveRoom, IsPromised, TellsSought};
ghost use Rattle.seek_answer.specs.declared.reach.Reach.{Reach};

use seek_meaning::hits_exactly;

/// Where runs within the bound have room for their cells, the bit of such a net is true exactly under the inputs whose
/// values are sought, and they are the draws of the run that is sought.
pub fn reach_tells_what_is_sought()
    ensures { (p : Program) (ss : List BoundSegment) (k : ℕ) (r : Reach) → IsPromised p ss k r → HaveRoom p k →
        TellsSought p ss k r }
{
    hits_exactly();
}
