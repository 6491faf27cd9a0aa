// What the definitions promise.
ghost use Rattle.std.specs.Prelude.{◌≡◌, ◌↔◌, ℕ, List, true};
ghost use Rattle.c_core.specs.Tree.{Program};
ghost use Rattle.c_meaning.specs.declared.verdict.Verdict.{Verdict};
ghost use Rattle.way_match.specs.Points.{BoundSegment};
ghost use Rattle.way_match.specs.Matching.{Seen, Matches, matches};
ghost use Rattle.way_match.specs.Verdicts.{is_confirmation, IsConfirmed, IsGivenViolation, IsRightOnViolation};

/// The values of a right 'violation confirmed', drawn in turn, give a run that violates the property
/// and passes the segments at its positions.
pub fn confirmed_violates()
    ensures { (p : Program) (ss : List BoundSegment) (steps : ℕ) (verdict : Verdict) →
        IsRightOnViolation p ss steps verdict → IsConfirmed p ss steps verdict }
{}

/// A right verdict confirms a violation exactly where the given run violates the property and its events match.
pub fn confirms_exactly()
    ensures { (p : Program) (ss : List BoundSegment) (steps : ℕ) (verdict : Verdict) →
        IsRightOnViolation p ss steps verdict →
        (is_confirmation verdict ≡ true) ↔ IsGivenViolation p ss steps }
{}

/// The test of positions says yes exactly where they match.
pub fn test_matches()
    ensures { (p : Program) (ss : List BoundSegment) (events : List Seen) (positions : List ℕ) →
        (matches p ss events positions ≡ true) ↔ Matches p ss events positions }
{}
