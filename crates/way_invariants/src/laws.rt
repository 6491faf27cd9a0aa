// What the definition of binding promises.
ghost use Rattle.std.specs.Prelude.{List, Result};
ghost use Rattle.c_core.specs.Tree.{Program};
ghost use Rattle.c_meaning.specs.Placing.{placed_view};
ghost use Rattle.c_meaning.specs.declared.run.PlacedInvariant.{PlacedInvariant};
ghost use Rattle.wv_schema.specs.declared.witness.Witness.{Witness};
ghost use Rattle.way_bind.specs.InOrder.{AgreeBy};
ghost use Rattle.way_bind.specs.declared.fault.BindFault.{BindFault};
ghost use Rattle.way_invariants.specs.Invariants.{BindsInvariants};

/// Two answers about one witness and program agree, unless memory ran out.
pub fn one_answer()
    ensures { (p : Program) (w : Witness) (a b : Result (List PlacedInvariant) BindFault) → BindsInvariants p w a
        → BindsInvariants p w b → AgreeBy placed_view a b }
{}
