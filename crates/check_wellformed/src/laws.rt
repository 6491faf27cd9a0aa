// The law of checked programs, the contract of a function without a body.
ghost use Rattle.std.specs.Prelude.{◌≡◌, List, None};
ghost use Rattle.c_core.specs.Program.{IsProgram};
ghost use Rattle.c_core.specs.declared.number.DataModel.{DataModel};
ghost use Rattle.c_core.specs.declared.number.Property.{Property};
ghost use Rattle.c_parser.specs.Tree.{Item};
ghost use Rattle.c_parser.specs.Formed.{IsFormed};
ghost use Rattle.check_rules.specs.First.{IsUnrefused, wrong_main};
ghost use Rattle.check_rules.specs.Checked.{program_of};

/// The program of a source without refusal is a checked program: its objects, types, scopes, blocks, jumps and places
/// are in order.
pub fn checked_programs_fit()
    ensures { (m : DataModel) (property : Property) (items : List Item) → IsUnrefused m items → wrong_main items ≡ None
        → IsFormed items → IsProgram (program_of m property items) }
{}
