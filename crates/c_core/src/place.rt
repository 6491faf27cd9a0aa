// Places that witnesses name.
use crate::number::Spot;

/// What stands at a place: a statement or declaration, a loop, a branching, the end of a call.
#[derive(Clone, Copy, Debug, PartialEq, Eq)]
pub enum PlaceKind {
    Statement,
    Loop,
    Branch,
    CallEnd,
}

/// A place of a program at which a waypoint or an invariant may stand.
#[derive(Clone, Copy, Debug, PartialEq, Eq)]
pub struct Place {
    pub kind: PlaceKind,
    pub spot: Spot,
}
