// Laws, each the contract of a function that says nothing else.
ghost use Rattle.std.specs.Prelude.{◌≡◌, ◌≤◌, ℕ, List};
ghost use Rattle.c_core.specs.declared.number.DataModel.TheVariants.{Ilp32};
ghost use Rattle.c_core.specs.declared.number.Property.TheVariants.{UnreachCall};
ghost use Rattle.c_core.specs.declared.number.Spot.{Spot};
ghost use Rattle.check_rules.specs.Checked.{program_of};
ghost use Rattle.c_meaning.specs.declared.verdict.Verdict.{Verdict};
ghost use Rattle.way_match.specs.Verdicts.{IsGivenViolation, IsRightOnViolation};
ghost use Rattle.wv_author.specs.Sequence.{bounds, loop_count};
ghost use Rattle.demo_laws.specs.Bounds.{AreBounds};
ghost use Rattle.demo_laws.specs.Source.{correct_items, faulty_items};
ghost use Rattle.demo_run.specs.Segments.{Confirms, demo_segments};
ghost use Rattle.demo_run.specs.Typed.{correct_typed, faulty_typed};

/// The checked programs of a demo's sources, whatever the bounds of their loops are.
pub fn demos_are_typed()
    ensures correct { (bs : List ℕ) → AreBounds bs → program_of Ilp32 UnreachCall (correct_items bs)
        ≡ correct_typed bs }
    ensures faulty { (n : ℕ) (bs : List ℕ) → n ≤ 999999 → AreBounds bs
        → program_of Ilp32 UnreachCall (faulty_items n bs) ≡ faulty_typed n bs }
{}

/// With 100,000 steps or more the given run of the faulty program violates the property, and passes the segments of the
/// violation witness.
pub fn demos_violate()
    ensures { (n steps : ℕ) (at : Spot) → n ≤ 999999 → 100000 ≤ steps →
        IsGivenViolation (program_of Ilp32 UnreachCall (faulty_items n (bounds n loop_count)))
        (demo_segments n at) steps }
{}

/// So each right verdict on it confirms the violation, by the number as the one drawn value.
pub fn demos_are_confirmed()
    ensures { (n steps : ℕ) (at : Spot) (verdict : Verdict) → n ≤ 999999 → 100000 ≤ steps →
        IsRightOnViolation (program_of Ilp32 UnreachCall (faulty_items n (bounds n loop_count))) (demo_segments n at)
        steps verdict → Confirms n verdict }
{}
