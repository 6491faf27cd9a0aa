// The machine of a program's code runs the program.
ghost use Rattle.c_core.specs.Tree.{Program};
ghost use Rattle.flow_code.specs.declared.code.Code.{Code};
ghost use Rattle.flow_code.specs.Programs.{IsCodeOf};
ghost use Rattle.flow_laws.specs.Runs.{IsSimulated};

/// The machine of a program's code comes to the end of the program's run, in the state in which that ends, whoever
/// watches.
pub fn code_is_simulated()
    ensures { (p : Program) (c : Code) → IsCodeOf p c → IsSimulated p c }
{}
