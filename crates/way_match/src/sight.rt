ghost use Rattle.std.specs.Prelude.{◌≡◌};
ghost use Rattle.c_core.specs.View.{program_view};
ghost use Rattle.way_match.specs.inside.Prepared.{all_prepared};
ghost use Rattle.way_match.specs.View.{each_segment_view};

use crate::point::BoundSegment;
use crate::prepared::Prepared;
use c_core::Program;
use c_meaning::{Event, Memory};

/// An event with its number and memory, and the segments that it is held against.
#[derive(Clone, Copy)]
pub struct Sight<'a> {
    pub program: &'a Program,
    pub segments: &'a [BoundSegment],
    pub prepared: &'a [Prepared],
    pub event: Event,
    pub memory: &'a Memory,
    pub count: u64,
    ghost prepares: { prepared.now ≡ all_prepared (program_view program.now) (each_segment_view segments.now) },
}
