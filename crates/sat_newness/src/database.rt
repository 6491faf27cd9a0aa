// The clauses: first the given ones, then what the chains give.
ghost use Rattle.std.specs.Prelude.{◌≡◌, ◌+◌, ◌<◌, length, slice_get, Some};
ghost use Rattle.sat_newness.specs.Clauses.{clauses_of};

use clauses::{Chain, Clause};
use wv_base::Seq;

/// A clause by its index: first the given ones, then those of the chains.
pub fn clause_at<'a>(given: &'a Seq<Clause>, chains: &'a Seq<Chain>, at: usize) -> &'a Clause
    requires { at < length given.now + length chains.now }
    ensures { slice_get (clauses_of given.now chains.now) at ≡ Some result.now }
{
    if at < given.len() {
        &given.as_slice()[at]
    } else {
        &chains.as_slice()[at - given.len()].gives
    }
}
