// Laws, each the contract of a function without a body.
ghost use Rattle.std.specs.Prelude.{◌≡◌, ◌≤ℤ◌, ◌-◌, ◌^◌, ℕ, ℤ, pos, negsuc, true, List, Result};
ghost use Rattle.author_binding.specs.Confirmed.{IsConfirmation};
ghost use Rattle.author_binding.specs.ConstantTests.{IsTestFor};
ghost use Rattle.c_core.specs.Program.{IsProgram};
ghost use Rattle.c_core.specs.Tree.{Program};
ghost use Rattle.way_bind.specs.Binding.{Binds, BindsTest, segments_of};
ghost use Rattle.way_bind.specs.declared.fault.BindFault.{BindFault};
ghost use Rattle.way_bind.specs.declared.fault.Unbound.{Unbound};
ghost use Rattle.way_match.specs.Points.{ReturnTest};
ghost use Rattle.way_match.specs.declared.point.Bound.{Bound};
ghost use Rattle.wv_author.specs.Authored.{IsAuthored, result_text};
ghost use Rattle.wv_schema.specs.declared.witness.Segment.{Segment};
ghost use Rattle.wv_schema.specs.declared.witness.Witness.{Witness};

/// The constraint that `author` writes for a value of an input call, from -2^63 to 2^64 - 1, is not refused: it is
/// bound to a test for this value, which the value meets at every type that has it.
pub fn constants_are_bound()
    ensures { (p : Program) (v : ℤ) (answer : Result ReturnTest Unbound) → negsuc (2 ^ 63 - 1) ≤ℤ v
        → v ≤ℤ pos (2 ^ 64 - 1) → BindsTest p true (result_text v) answer → IsTestFor p v answer }
{}

/// What `author` writes of a run is confirmed: a witness with these segments is bound, unless memory runs out. The run
/// that it gives is the run that it was written from. Each right verdict confirms, and shows the draws of that run.
pub fn authored_sequences_are_confirmed()
    ensures { (p : Program) → IsProgram p → (file : List ℕ) (vs : List ℤ) (N : ℕ) (segments : List Segment)
        → IsAuthored p file vs N segments → (w : Witness) (answer : Result Bound BindFault) → segments_of w ≡ segments
        → Binds p w answer → IsConfirmation p vs N answer }
{}
