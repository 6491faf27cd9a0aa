// Places at which a program draws.
ghost use Rattle.std.specs.Prelude.{◌≡◌, ◌≤◌, ◌↔◌, IsTrue};
ghost use Rattle.std.specs.List.{Contains};
ghost use Rattle.std.specs.List.Sorted.{IsPermutation};

use c_core::{IntType, Spot};
use c_meaning::DrawKind;
use wv_base::OutOfMemory;

/// A place at which a program draws: the call's start, the declared name or the loop, with the type of what is drawn.
#[derive(Clone, Copy, Debug, PartialEq, Eq)]
pub struct DrawPlace {
    pub spot: Spot,
    pub ty: IntType,
    pub from: DrawKind,
}

fn type_rank(ty: IntType) -> u8
    ensures { result ≤ 11 }
{
    match ty {
        IntType::Bool => 0,
        IntType::Char => 1,
        IntType::SChar => 2,
        IntType::UChar => 3,
        IntType::Short => 4,
        IntType::UShort => 5,
        IntType::Int => 6,
        IntType::UInt => 7,
        IntType::Long => 8,
        IntType::ULong => 9,
        IntType::LongLong => 10,
        IntType::ULongLong => 11,
    }
}

// By kind, then type.
fn rank(place: &DrawPlace) -> u8 {
    let ty = type_rank(place.ty);
    match place.from {
        DrawKind::Input => ty,
        DrawKind::Cell => 12 + ty,
        DrawKind::Havoc => 24 + ty,
    }
}

// By place, then kind and type.
fn is_before(a: &DrawPlace, b: &DrawPlace) -> bool {
    let rank = rank(a) < rank(b);
    let column = a.spot.column < b.spot.column || (a.spot.column == b.spot.column && rank);
    a.spot.line < b.spot.line || (a.spot.line == b.spot.line && column)
}

/// Puts places in order.
pub fn sort(list: &mut Vec<DrawPlace>) -> Result<(), OutOfMemory>
    ensures { IsPermutation list.old.items list.new.items }
{
    list.sort_by_key(|place| (place.spot.line, place.spot.column, rank(place)))?;
    Ok(())
}

fn is_same(a: &DrawPlace, b: DrawPlace) -> bool
    ensures { IsTrue result ↔ (a.now ≡ b) }
{
    *a == b
}

// In whatever order they are.
fn is_among(places: &[DrawPlace], place: DrawPlace) -> bool
    ensures { IsTrue result ↔ Contains places.now place }
{
    for other in places {
        if is_same(other, place) {
            return true;
        }
    }
    false
}

/// Whether a place is one of these. It is quick where they are in order and the place is found; the answer rests on no
/// order.
pub fn is_listed(places: &[DrawPlace], place: DrawPlace) -> bool
    ensures { IsTrue result ↔ Contains places.now place }
{
    let at = places.partition_point(|x| is_before(x, &place));
    match places.get(at) {
        Some(found) if is_same(found, place) => true,
        _ => is_among(places, place),
    }
}
