// The names that messages have for things.
use c_core::{IntType, Object, Program, Spot};
use std::alloc::Global;
use wv_base::OutOfMemory;
use wv_schema::{InvariantKind, Location, WayKind, Waypoint};

/// The type of a waypoint, as witnesses write it.
pub fn way_word(kind: WayKind) -> &'static str {
    match kind {
        WayKind::Assumption => "assumption",
        WayKind::Target => "target",
        WayKind::FunctionEnter => "function_enter",
        WayKind::FunctionReturn => "function_return",
        WayKind::Branching => "branching",
    }
}

/// The type of an invariant, as witnesses write it.
pub fn invariant_word(kind: InvariantKind) -> &'static str {
    match kind {
        InvariantKind::Loop => "loop_invariant",
        InvariantKind::Location => "location_invariant",
    }
}

/// A type as C writes it.
pub fn type_word(ty: IntType) -> &'static str {
    match ty {
        IntType::Bool => "_Bool",
        IntType::Char => "char",
        IntType::SChar => "signed char",
        IntType::UChar => "unsigned char",
        IntType::Short => "short",
        IntType::UShort => "unsigned short",
        IntType::Int => "int",
        IntType::UInt => "unsigned int",
        IntType::Long => "long",
        IntType::ULong => "unsigned long",
        IntType::LongLong => "long long",
        IntType::ULongLong => "unsigned long long",
    }
}

/// Where a location points: its line, and its column where it has one.
pub fn place_text(alloc: Global, location: &Location) -> Result<String, OutOfMemory> {
    let line = location.line;
    match location.column {
        Some(column) => Ok(format!(in alloc; "{line}:{column}")?),
        None => Ok(format!(in alloc; "line {line}")?),
    }
}

/// The place that a location names, the first of its line where it has no column.
pub fn spot_of(location: &Location) -> Spot {
    Spot {
        line: location.line,
        column: location.column.unwrap_or(1),
    }
}

/// A waypoint by its type and its constraint.
pub fn waypoint_text(alloc: Global, waypoint: &Waypoint) -> Result<String, OutOfMemory> {
    let kind = way_word(waypoint.kind);
    match &waypoint.constraint {
        Some(constraint) => {
            let value = constraint.value.as_str();
            Ok(format!(in alloc; "{kind} `{value}`")?)
        }
        None => Ok(String::from_str(alloc, kind)?),
    }
}

/// How often something was, in words.
pub fn times_text(alloc: Global, count: u64) -> Result<String, OutOfMemory> {
    match count {
        1 => Ok(String::from_str(alloc, "once")?),
        2 => Ok(String::from_str(alloc, "twice")?),
        _ => Ok(format!(in alloc; "{count} times")?),
    }
}

/// Whether two places are the same.
pub fn is_same_spot(a: Spot, b: Spot) -> bool {
    a.line == b.line && a.column == b.column
}

/// The object that is declared at a place.
pub fn declared_at(program: &Program, spot: Spot) -> Option<&Object> {
    for object in program.objects.as_slice() {
        if is_same_spot(object.spot, spot) {
            return Some(object);
        }
    }
    None
}
