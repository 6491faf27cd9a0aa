// Laws, each the contract of a function without a body.
ghost use Rattle.std.specs.Prelude.{List};
ghost use Rattle.c_core.specs.Tree.{Program};
ghost use Rattle.c_inductive.specs.Inductive.{DutiesNameInvariants, FailuresDrop, UnionsAreInductive};
ghost use Rattle.c_inductive.specs.Picking.{AllArePicked, AsManyArePicked, PartsStayInvariants};
ghost use Rattle.c_meaning.specs.Duties.{Placed};

/// An invariant of which an obligation fails with a set of invariants is in no inductive part of that set.
pub fn failures_drop()
    ensures { (p : Program) (invariants : List Placed) → FailuresDrop p invariants }
{}

/// Two inductive sets are inductive together, so that there is a greatest one.
pub fn unions_are_inductive()
    ensures { (p : Program) (invariants : List Placed) → UnionsAreInductive p invariants }
{}

/// An obligation that is none of the property has the number of one of the invariants, counted from 0.
pub fn duties_name_invariants()
    ensures { (p : Program) (invariants : List Placed) → DutiesNameInvariants p invariants }
{}

/// All numbers pick all invariants.
pub fn all_are_picked()
    ensures { (invariants : List Placed) → AllArePicked invariants }
{}

/// A set has as many invariants as numbers.
pub fn as_many_are_picked()
    ensures { (invariants : List Placed) → AsManyArePicked invariants }
{}

/// What is picked of the invariants of a program are invariants of the program.
pub fn parts_stay_invariants()
    ensures { (p : Program) (invariants : List Placed) → PartsStayInvariants p invariants }
{}
