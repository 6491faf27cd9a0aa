// Programs as code that machines take.
ghost use Rattle.std.specs.Prelude.{IfOk};
ghost use Rattle.c_core.specs.View.{program_view};
ghost use Rattle.flow_code.specs.Programs.{IsCodeOf};
ghost use Rattle.flow_rooms.specs.Paces.{IsPaced};

use c_core::Program;
use flow_code::Code as Operations;
use flow_rooms::code_is_paced;
use std::alloc::Global;
use std::marker::Model;
use wv_base::OutOfMemory;

/// A program as code. Of its operations so many at most follow one another without a step, so a machine comes to an
/// end.
#[derive(Drop)]
pub struct Code {
    pub(crate) operations: Operations,
}

impl Model for Code {
    ghost use Rattle.flow_code.specs.declared.code.Code as code;
    ghost use Rattle.flow_rooms.specs.Paces.{IsPaced};

    ghost Value = { code.Code };

    ghost view = { λ c. c.operations };

    ghost invariant = { λ c. IsPaced c.operations };
}

/// The code of a program.
pub fn compile(alloc: Global, program: &Program) -> Result<Code, OutOfMemory>
    ensures { IfOk result (IsCodeOf (program_view program.now)) }
{
    code_is_paced();
    let operations = flow_code::compile(alloc, program)?;
    Ok(Code { operations })
}
