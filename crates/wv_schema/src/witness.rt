use wv_base::{Seq, Text};

/// All entries of a witness file, in order.
#[derive(Debug, Drop)]
pub struct Witness {
    pub entries: Seq<Entry>,
}

/// One entry: what it says about itself, and what it claims.
#[derive(Debug, Drop)]
pub struct Entry {
    pub metadata: Metadata,
    pub content: Content,
}

/// What an entry claims: a `violation_sequence` or an `invariant_set`.
#[derive(Debug, Drop)]
pub enum Content {
    Violation(Seq<Segment>),
    Invariants(Seq<Invariant>),
}

/// The texts of `metadata`, its `producer` and its `task`, as they stand in the file.
#[derive(Debug, Drop)]
pub struct Metadata {
    pub format_version: Text,
    pub uuid: Text,
    pub creation_time: Text,
    pub producer_name: Text,
    pub producer_version: Text,
    pub input_files: Seq<Text>,
    pub input_hashes: Seq<FileHash>,
    pub specification: Text,
    pub data_model: Text,
    pub language: Text,
}

/// One pair of `input_file_hashes`.
#[derive(Debug, Drop)]
pub struct FileHash {
    pub file: Text,
    pub hash: Text,
}

/// Waypoints that a run avoids until it passes the follow, which stands last in the file.
#[derive(Debug, Drop)]
pub struct Segment {
    pub avoids: Seq<Waypoint>,
    pub follow: Waypoint,
}

/// A waypoint of a segment (format 2.0).
#[derive(Debug, Drop)]
pub struct Waypoint {
    pub kind: WayKind,
    pub location: Location,
    /// `None` where there is none, and where the schema doesn't read it.
    pub constraint: Option<Constraint>,
}

/// The type of a waypoint.
#[derive(Clone, Copy, Debug, PartialEq, Eq)]
pub enum WayKind {
    Assumption,
    Target,
    FunctionEnter,
    FunctionReturn,
    Branching,
}

/// What has to hold, and in which format it is written.
#[derive(Debug, Drop)]
pub struct Constraint {
    pub value: Text,
    /// `None` where there is none, and at `branching`.
    pub format: Option<Text>,
}

/// Lines and columns count from 1 and have at most seven digits.
#[derive(Debug, Drop)]
pub struct Location {
    pub file_name: Option<Text>,
    pub line: u32,
    pub column: Option<u32>,
    pub function: Option<Text>,
}

/// An invariant of a set (format 2.0).
#[derive(Debug, Drop)]
pub struct Invariant {
    pub kind: InvariantKind,
    pub location: Location,
    pub value: Text,
    pub format: Option<Text>,
}

/// The type of an invariant.
#[derive(Clone, Copy, Debug, PartialEq, Eq)]
pub enum InvariantKind {
    Loop,
    Location,
}
