// Witnesses that are made of segments.
use std::alloc::Global;
use wv_base::{OutOfMemory, Seq, Text};
use wv_schema::{
    Constraint, Content, Entry, Location, Metadata, Segment, WayKind, Waypoint, Witness,
};

/// A waypoint: its type, its line and column, and its constraint, where there is one.
pub type Way = (WayKind, u32, Option<u32>, Option<&'static str>);

/// A segment: the waypoints to avoid, and the one to follow.
pub type Part = (&'static [Way], Way);

fn metadata(alloc: Global) -> Metadata {
    Metadata {
        format_version: Text::new(alloc),
        uuid: Text::new(alloc),
        creation_time: Text::new(alloc),
        producer_name: Text::new(alloc),
        producer_version: Text::new(alloc),
        input_files: Seq::new(alloc),
        input_hashes: Seq::new(alloc),
        specification: Text::new(alloc),
        data_model: Text::new(alloc),
        language: Text::new(alloc),
    }
}

fn constraint(alloc: Global, text: Option<&str>) -> Result<Option<Constraint>, OutOfMemory> {
    match text {
        None => Ok(None),
        Some(text) => Ok(Some(Constraint {
            value: Text::of(alloc, text)?,
            format: None,
        })),
    }
}

fn waypoint(alloc: Global, way: &Way) -> Result<Waypoint, OutOfMemory> {
    let location = Location {
        file_name: None,
        line: way.1,
        column: way.2,
        function: None,
    };
    Ok(Waypoint {
        kind: way.0,
        location,
        constraint: constraint(alloc, way.3)?,
    })
}

fn segment(alloc: Global, part: &Part) -> Result<Segment, OutOfMemory> {
    let mut avoids = Seq::new(alloc);
    for way in part.0 {
        avoids.push(waypoint(alloc, way)?)?;
    }
    let follow = waypoint(alloc, &part.1)?;
    Ok(Segment { avoids, follow })
}

/// The witness of these segments.
pub fn witness(alloc: Global, parts: &[Part]) -> Result<Witness, OutOfMemory> {
    let mut segments = Seq::new(alloc);
    for part in parts {
        segments.push(segment(alloc, part)?)?;
    }
    let mut entries = Seq::new(alloc);
    entries.push(Entry {
        metadata: metadata(alloc),
        content: Content::Violation(segments),
    })?;
    Ok(Witness { entries })
}
