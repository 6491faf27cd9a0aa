// The input calls of a program.
ghost use Rattle.std.specs.Prelude.{◌≡◌, ◌++◌, OnOk, IfOk};
ghost use Rattle.std.specs.List.{filter_map};
ghost use Rattle.std.specs.Option.{option_map};
ghost use Rattle.c_core.specs.Parts.{exps_of_program};
ghost use Rattle.c_core.specs.Places.{input_of};
ghost use Rattle.c_core.specs.View.{expr_view, program_view};
ghost use Rattle.way_places.specs.Calls.{ends_view, list_if};
ghost use Rattle.way_places.specs.Inputs.{call_view, calls_view, inputs_among};

use crate::calls::calls;
use crate::fulls::fulls;
use c_core::{Callee, Expr, IntType, Node, Program, Spot};
use std::alloc::Global;
use wv_base::OutOfMemory;

/// An input call: its start and its type.
#[derive(Clone, Copy, Debug)]
pub struct InputCall {
    pub spot: Spot,
    pub ty: IntType,
}

/// The input call that an expression is.
pub fn input_of(e: &Expr) -> Option<InputCall>
    ensures { option_map call_view result ≡ input_of (expr_view e.now) }
{
    match &e.node {
        Node::Call { callee, .. } => match callee {
            Callee::Input(ty) => Some(InputCall {
                spot: e.spot,
                ty: *ty,
            }),
            _ => None,
        },
        _ => None,
    }
}

fn push_input(list: &mut Vec<InputCall>, e: &Expr) -> Result<(), OutOfMemory>
    ensures { OnOk result (calls_view list.new.items
        ≡ calls_view list.old.items ++ list_if (input_of (expr_view e.now))) }
{
    if let Some(call) = input_of(e) {
        list.push(call)?;
    }
    Ok(())
}

fn push_inputs(list: &mut Vec<InputCall>, calls: &[(Spot, &Expr)]) -> Result<(), OutOfMemory>
    ensures { OnOk result (calls_view list.new.items
        ≡ calls_view list.old.items ++ inputs_among (ends_view calls.now)) }
{
    for (_, call) in calls {
        push_input(list, *call)?;
    }
    Ok(())
}

/// Every input call, each function's statements before those in them.
pub fn input_calls(alloc: Global, program: &Program) -> Result<Vec<InputCall>, OutOfMemory>
    ensures { IfOk result (λ calls. calls_view calls.items
        ≡ filter_map input_of (exps_of_program (program_view program.now))) }
{
    let fulls = fulls(alloc, program)?;
    let calls = calls(alloc, fulls.as_slice())?;
    let mut list = Vec::new(alloc);
    push_inputs(&mut list, calls.as_slice())?;
    Ok(list)
}
