// A law on what these circuits compute.
ghost use Rattle.std.specs.Prelude.{Bool, List};
ghost use Rattle.c_core.specs.Tree.{Program};
ghost use Rattle.c_meaning.specs.Cells.{Cell};
ghost use Rattle.c_meaning.specs.declared.run.Event.{Event};
ghost use Rattle.seek_events.specs.Laws.{AreFollowed};
ghost use Rattle.way_match.specs.Points.{BoundSegment};

/// Where bits say what an event passes of each segment, what `after` and `completes_all` compute of them is what the
/// event completes.
pub fn events_are_followed()
    ensures { (p : Program) (ss : List BoundSegment) (e : Event) (cells : List Cell) (bs : List Bool) →
        AreFollowed p ss e cells bs }
{}
