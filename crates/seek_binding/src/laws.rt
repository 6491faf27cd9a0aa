// The law, the contract of a function without a body.
ghost use Rattle.std.specs.Prelude.{Ok};
ghost use Rattle.std.specs.List.{All};
ghost use Rattle.c_core.specs.Tree.{Program};
ghost use Rattle.seek_passes.specs.Passing.{IsSegment};
ghost use Rattle.way_bind.specs.Binding.{Binds};
ghost use Rattle.way_match.specs.View.{segments_view};
ghost use Rattle.way_match.specs.declared.point.Bound.{Bound};
ghost use Rattle.wv_schema.specs.declared.witness.Witness.{Witness};

/// Bound segments can be followed: the expressions of their waypoints are typed and have values, and their constraints
/// on `\result` compare it.
pub fn bound_segments_can_be_followed()
    ensures { (p : Program) (w : Witness) (bound : Bound) → Binds p w (Ok bound)
        → All (IsSegment p) (segments_view bound) }
{}
