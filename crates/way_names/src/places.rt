// The scopes that places see.
ghost use Rattle.std.specs.Prelude.{◌≡◌, IfOk, IsTrue};
ghost use Rattle.c_core.specs.declared.number.Spot.{Spot};
ghost use Rattle.way_places.specs.Maps.{first_in};
ghost use Rattle.way_places.specs.Ordered.{follow_by_spot};

use crate::walk::Mark;
use way_places::sort_by_spot;
use wv_base::OutOfMemory;

/// Places in the order of the text, each with the scope that it sees.
#[derive(Drop)]
pub struct ScopesAt {
    pub marks: Vec<Mark>,
    ghost ordered: { IsTrue (follow_by_spot marks.items) },
}

/// What a walk notes, in that order.
pub fn in_order(marks: Vec<Mark>) -> Result<ScopesAt, OutOfMemory>
    ensures { IfOk result (λ scopes. (q : Spot) → first_in scopes.marks.items q ≡ first_in marks.items q) }
{
    let mut ordered = marks;
    sort_by_spot(&mut ordered)?;
    Ok(ScopesAt { marks: ordered })
}
