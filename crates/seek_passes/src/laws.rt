// A law on what events cost.
ghost use Rattle.std.specs.Prelude.{List};
ghost use Rattle.c_core.specs.Tree.{Program};
ghost use Rattle.way_match.specs.Points.{BoundSegment};
ghost use Rattle.seek_passes.specs.Charges.{IsPaid};

/// What the events of a place cost is paid by the toll of that place.
pub fn tolls_pay()
    ensures { (p : Program) (ss : List BoundSegment) → IsPaid p ss }
{}
