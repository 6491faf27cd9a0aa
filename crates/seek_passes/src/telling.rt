// An event is told to the runs that are here.
ghost use Rattle.std.specs.Prelude.{◌≡◌, IfOk, length};
ghost use Rattle.std.specs.List.{All};
ghost use Rattle.c_core.specs.View.{program_view};
ghost use Rattle.way_match.specs.View.{each_segment_view};
ghost use Rattle.seek_passes.specs.Charges.{told_weight};
ghost use Rattle.seek_passes.specs.Passing.{IsSegment, CanTell};
ghost use Rattle.seek_passes.specs.Telling.{Tells};

use crate::event::SymEvent;
use crate::segments::passes_segments;
use c_core::Program;
use seek_events::{after, events_are_followed};
use std::alloc::Global;
use sym_state::Sym;
use way_match::BoundSegment;
use wv_base::OutOfMemory;

/// An event is told: of each run that is here, the bits of completed segments become what its event makes of them.
pub fn tell(
    alloc: Global,
    program: &Program,
    sym: &mut Sym,
    segments: &[BoundSegment],
    event: &SymEvent,
) -> Result<(), OutOfMemory>
    requires segments { All (IsSegment (program_view program.now)) (each_segment_view segments.now) }
    requires one_each { length sym.old.completed.items ≡ length segments.now }
    requires ready { CanTell (program_view program.now) event.now sym.old
        (told_weight (program_view program.now) event.now (each_segment_view segments.now)) }
    ensures { IfOk result (λ r. Tells (program_view program.now) (each_segment_view segments.now) event.now sym.old
        sym.new) }
{
    events_are_followed();
    let passings = passes_segments(alloc, program, sym, segments, event)?;
    let here = sym.live;
    let completed = after(
        alloc,
        &mut sym.net,
        here,
        passings.as_slice(),
        sym.completed.as_slice(),
    )?;
    sym.completed = completed;
    Ok(())
}
