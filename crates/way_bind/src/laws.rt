// What the definition of binding promises.
ghost use Rattle.std.specs.Prelude.{Result};
ghost use Rattle.c_core.specs.Tree.{Program};
ghost use Rattle.wv_schema.specs.declared.witness.Witness.{Witness};
ghost use Rattle.way_match.specs.declared.point.Bound.{Bound};
ghost use Rattle.way_bind.specs.declared.fault.BindFault.{BindFault};
ghost use Rattle.way_bind.specs.Agreement.{Agree};
ghost use Rattle.way_bind.specs.Binding.{Binds};

/// Two answers about one witness and program agree, unless memory ran out.
pub fn one_answer()
    ensures { (p : Program) (w : Witness) (a b : Result Bound BindFault) → Binds p w a → Binds p w b → Agree a b }
{}
