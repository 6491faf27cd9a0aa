// Laws, each the contract of a function without a body.
ghost use Rattle.std.specs.Prelude.{List, Result};
ghost use Rattle.c_check.specs.Checking.{Answers, AreSame};
ghost use Rattle.c_core.specs.declared.number.DataModel.{DataModel};
ghost use Rattle.c_core.specs.declared.number.Property.{Property};
ghost use Rattle.c_core.specs.declared.program.Program.{Program};
ghost use Rattle.c_parser.specs.Tree as raw;
ghost use Rattle.check_rules.specs.declared.fault.CheckFault.{CheckFault};

/// A source has one answer in a data model and under a property, other than out of memory.
pub fn one_answer()
    ensures { (m : DataModel) (property : Property) (items : List raw.Item) (a b : Result Program CheckFault)
        → Answers m property items a → Answers m property items b → AreSame a b }
{}
