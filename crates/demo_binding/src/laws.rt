// Laws, each the contract of a function that says nothing else.
ghost use Rattle.std.specs.Prelude.{◌≡◌, ◌<◌, ◌^◌, ℕ, List, Result, length};
ghost use Rattle.c_meaning.specs.declared.run.PlacedInvariant.{PlacedInvariant};
ghost use Rattle.demo_binding.specs.Bound.{AreSegments, ArePlaced};
ghost use Rattle.demo_binding.specs.Correct.{placed_ranges};
ghost use Rattle.demo_laws.specs.Bounds.{AreBounds};
ghost use Rattle.demo_laws.specs.Lines.{spot};
ghost use Rattle.demo_run.specs.Segments.{demo_segments};
ghost use Rattle.demo_run.specs.Typed.{correct_typed, faulty_typed};
ghost use Rattle.sym_duties.specs.Answers.{CanBeJudged, IsFault};
ghost use Rattle.sym_duties.specs.declared.fault.SymFault.{SymFault};
ghost use Rattle.sym_duties.specs.declared.fault.SymFault.TheVariants.{OutOfMemory};
ghost use Rattle.way_bind.specs.Binding.{Binds};
ghost use Rattle.way_bind.specs.declared.fault.BindFault.{BindFault};
ghost use Rattle.way_invariants.specs.Invariants.{BindsInvariants};
ghost use Rattle.way_match.specs.declared.point.Bound.{Bound};
ghost use Rattle.wv_author.specs.Sequence.{bounds, loop_count};
ghost use Rattle.wv_author.specs.Witnesses.{invariants, violation};

/// No waypoint of a demo's violation witness is refused: they are bound to the input that gives n and to the call
/// after it.
pub fn violations_are_bound()
    ensures { (n : ℕ) (bs text : List ℕ) (answer : Result Bound BindFault) → n < 2 ^ 31 → length bs ≡ loop_count
        → Binds (faulty_typed n bs) (violation n text) answer → AreSegments (demo_segments n (spot 1 12)) answer }
{}

/// No invariant of a demo's other witness is refused: each is bound to its loop, whose variable it reads.
pub fn sets_are_bound()
    ensures { (n : ℕ) (text : List ℕ) (answer : Result (List PlacedInvariant) BindFault)
        → BindsInvariants (correct_typed (bounds n loop_count)) (invariants n text) answer
        → ArePlaced (placed_ranges 4 1 0 (bounds n loop_count)) answer }
{}

/// Nor is the program too big for its invariants to be judged, and main reaches no cycle of calls.
pub fn sets_can_be_judged()
    ensures judged { (bs : List ℕ) → AreBounds bs → CanBeJudged (correct_typed bs) (placed_ranges 4 1 0 bs) }
    ensures no_fault { (bs : List ℕ) (names : List (List ℕ)) (fault : SymFault) → AreBounds bs
        → IsFault (correct_typed bs) names (placed_ranges 4 1 0 bs) fault → fault ≡ OutOfMemory }
{}
