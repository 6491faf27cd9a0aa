// Which functions are called from somewhere, directly or through further calls.
ghost use Rattle.std.specs.Prelude.{◌≡◌, [], ◌∷◌, length, List, IfOk, OnOk};
ghost use Rattle.c_core.specs.Tree.{Exp};
ghost use Rattle.c_core.specs.View.{program_view};
ghost use Rattle.c_meaning.specs.Parts.{fulls_of_function};
ghost use Rattle.c_calls.specs.Calling.{HasCalled, HasReached};
ghost use Rattle.c_calls.specs.Uses.{uses_of_all, uses_of_function};

use crate::found::{Found, add_called, nothing_found};
use crate::uses::{Use, push_statement};
use c_core::Program;
use std::alloc::Global;
use wv_base::OutOfMemory;

/// What a function's body changes and calls.
pub fn function_uses(
    alloc: Global,
    program: &Program,
    function: u32,
) -> Result<Vec<Use>, OutOfMemory>
    ensures { IfOk result (λ uses. uses.items ≡ uses_of_function (program_view program.now) function) }
{
    let mut uses = Vec::new(alloc);
    match program.functions.get(function as usize) {
        None => {}
        Some(function) => push_statement(&mut uses, &function.body)?,
    }
    Ok(uses)
}

/// Appends the functions of which these reach a call, each body looked at once.
pub fn spread(alloc: Global, program: &Program, found: &mut Found) -> Result<(), OutOfMemory>
    requires { length found.old.marks.items ≡ length program.now.functions }
    ensures members { OnOk result (HasReached (program_view program.now) found.old.order.items found.new.order.items) }
    ensures count { OnOk result (length found.new.marks.items ≡ length found.old.marks.items) }
{
    let mut next = 0;
    while next < found.order.len() {
        let function = found.order[next];
        let uses = function_uses(alloc, program, function)?;
        add_called(found, uses.as_slice())?;
        next += 1;
    }
    Ok(())
}

/// The functions called from where these uses stand, directly or through further calls.
pub fn called(alloc: Global, program: &Program, uses: &[Use]) -> Result<Found, OutOfMemory>
    ensures members { (es : List Exp) → uses.now ≡ uses_of_all es
        → IfOk result (λ found. HasCalled (program_view program.now) es found.order.items) }
    ensures count { IfOk result (λ found. length found.marks.items ≡ length program.now.functions) }
{
    let mut found = nothing_found(alloc, program.functions.len())?;
    add_called(&mut found, uses)?;
    spread(alloc, program, &mut found)?;
    Ok(found)
}
