// The places at which a program draws.
ghost use Rattle.std.specs.Prelude.{◌≡◌, ◌++◌, ◌↔◌, OnOk, IfOk};
ghost use Rattle.std.specs.List.{Contains, flat_map};
ghost use Rattle.c_core.specs.View.{program_view};
ghost use Rattle.c_draws.specs.Drawing.{draws_of_function, IsDrawn};

use crate::places::{DrawPlace, sort};
use crate::statements::push_statement;
use c_calls::reached_functions;
use c_core::Program;
use std::alloc::Global;
use wv_base::OutOfMemory;

fn push_function(
    alloc: Global,
    list: &mut Vec<DrawPlace>,
    program: &Program,
    function: u32,
) -> Result<(), OutOfMemory>
    ensures { OnOk result (list.new.items ≡ list.old.items ++ draws_of_function (program_view program.now) function) }
{
    match program.functions.get(function as usize) {
        None => {}
        Some(found) => push_statement(alloc, list, program, &found.body)?,
    }
    Ok(())
}

fn push_functions(
    alloc: Global,
    list: &mut Vec<DrawPlace>,
    program: &Program,
    functions: &[u32],
) -> Result<(), OutOfMemory>
    ensures { OnOk result (list.new.items
        ≡ list.old.items ++ flat_map (draws_of_function (program_view program.now)) functions.now) }
{
    for function in functions {
        push_function(alloc, list, program, *function)?;
    }
    Ok(())
}

/// Exactly the places at which main and the functions that it reaches draw, in order.
pub fn draws(alloc: Global, program: &Program) -> Result<Vec<DrawPlace>, OutOfMemory>
    ensures { IfOk result (λ list. (x : DrawPlace) → Contains list.items x ↔ IsDrawn (program_view program.now) x) }
{
    let functions = reached_functions(alloc, program)?;
    let mut list = Vec::new(alloc);
    push_functions(alloc, &mut list, program, functions.as_slice())?;
    sort(&mut list)?;
    Ok(list)
}
