// Laws, each the contract of a function that says nothing else.
ghost use Rattle.std.specs.Prelude.{◌<◌, ◌^◌, ℕ, List, [], ◌∷◌, Result, codes};
ghost use Rattle.c_check.specs.Checking.{Answers};
ghost use Rattle.c_core.specs.declared.number.DataModel.TheVariants.{Ilp32};
ghost use Rattle.c_core.specs.declared.number.Property.TheVariants.{UnreachCall};
ghost use Rattle.c_core.specs.declared.program.Program.{Program};
ghost use Rattle.check_rules.specs.Checked.{HasProgram, program_of};
ghost use Rattle.check_rules.specs.declared.fault.CheckFault.{CheckFault};
ghost use Rattle.demo_laws.specs.Bounds.{AreBounds};
ghost use Rattle.demo_laws.specs.Source.{correct_items, faulty_items};
ghost use Rattle.demo_checks.specs.Checked.{IsProgramOf};

/// No part of a demo's items is refused, nor is their `main`.
pub fn demos_have_programs()
    ensures correct { (bs : List ℕ) → AreBounds bs
        → HasProgram Ilp32 UnreachCall (correct_items bs) (program_of Ilp32 UnreachCall (correct_items bs))
        (codes "main" ∷ []) }
    ensures faulty { (n : ℕ) (bs : List ℕ) → n < 2 ^ 31 → AreBounds bs
        → HasProgram Ilp32 UnreachCall (faulty_items n bs) (program_of Ilp32 UnreachCall (faulty_items n bs))
        (codes "main" ∷ []) }
{}

/// So no answer of `check` to them is a refusal, and each that isn't out of memory is their program.
pub fn demos_are_checked()
    ensures correct { (bs : List ℕ) (answer : Result Program CheckFault) → AreBounds bs
        → Answers Ilp32 UnreachCall (correct_items bs) answer
        → IsProgramOf Ilp32 UnreachCall (correct_items bs) answer }
    ensures faulty { (n : ℕ) (bs : List ℕ) (answer : Result Program CheckFault) → n < 2 ^ 31 → AreBounds bs
        → Answers Ilp32 UnreachCall (faulty_items n bs) answer
        → IsProgramOf Ilp32 UnreachCall (faulty_items n bs) answer }
{}
