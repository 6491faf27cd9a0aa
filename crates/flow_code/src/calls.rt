// The code of calls.
ghost use Rattle.std.specs.Prelude.{◌≡◌, ◌++◌, ◌∷◌, [], length, slice_get, OnOk, IfOk};
ghost use Rattle.c_core.specs.Tree as t;
ghost use Rattle.c_core.specs.View.{program_view, exprs_view, functions_view};
ghost use Rattle.run_state.specs.Interpreting.{use_of};
ghost use Rattle.flow_code.specs.Expressions.{node_code, args_code, argument_to, callee_code, call_of, left_by};
ghost use Rattle.flow_code.specs.Preparing as preparing;

use crate::code::{Action, Op, Operand, Then};
use crate::emit::{counted, emit, give, only};
use crate::expressions::expression;
use c_core::{Callee, Expr, IntType, Program, Spot};
use run_state::{Around, CallSite, is_needed};
use wv_base::{OutOfMemory, Seq};

// Where the value of an argument goes: an input function takes none.
fn argument_goes(callee: Callee) -> Then
    ensures { result ≡ argument_to callee }
{
    match callee {
        Callee::Input(_) => Then::Drop,
        Callee::Defined(_) | Callee::ReachError | Callee::Abort | Callee::Exit => Then::Push,
    }
}

/// Arguments from left to right, whose values go there; the answer is the steps that are left to take after them.
#[cycle(expression)]
pub fn arguments(
    program: &Program,
    ops: &mut Seq<Op>,
    steps: u32,
    around: Around,
    args: &[Expr],
    then: Then,
) -> Result<u32, OutOfMemory>
    ensures code { IfOk result (λ n. ops.new
        ≡ ops.old ++ args_code (program_view program.now) around (length ops.old) steps then (exprs_view args.now)) }
    ensures due { IfOk result (λ n. n ≡ left_by (exprs_view args.now) steps) }
{
    let mut left = steps;
    for e in args {
        expression(program, ops, left, around, true, e, then)?;
        left = 0;
    }
    Ok(left)
}

/// A call: its arguments, its event, what it calls.
#[cycle(expression)]
pub fn call(
    program: &Program,
    ops: &mut Seq<Op>,
    steps: u32,
    around: Around,
    used: bool,
    spot: Spot,
    ty: Option<IntType>,
    callee: Callee,
    args: &[Expr],
    close: Spot,
    then: Then,
) -> Result<(), OutOfMemory>
    ensures { OnOk result (ops.new ≡ ops.old ++ node_code (program_view program.now) around (length ops.old) steps
        (use_of used) spot ty (t.Call callee (exprs_view args.now) close) (preparing.only then)) }
{
    let needed = is_needed(used, ty);
    let site = CallSite {
        spot,
        close,
        needed,
    };
    let goes = argument_goes(callee);
    let left = arguments(program, ops, steps, around, args, goes)?;
    emit(ops, left, Action::Enter(close))?;
    called(program, ops, around, site, args.len(), callee, then)?;
    Ok(())
}

// What a call does behind so many arguments.
fn called(
    program: &Program,
    ops: &mut Seq<Op>,
    around: Around,
    site: CallSite,
    arguments: usize,
    callee: Callee,
    then: Then,
) -> Result<(), OutOfMemory>
    ensures { OnOk result (ops.new ≡ ops.old ++ callee_code (program_view program.now) around site arguments then
        callee) }
{
    match callee {
        Callee::Defined(function) => {
            call_function(program, ops, site, function, arguments)?;
            give(ops, 0, Operand::Top, then)?;
            Ok(())
        }
        Callee::Input(ty) => {
            let into = only(then);
            let spot = site.spot;
            let close = site.close;
            emit(
                ops,
                0,
                Action::Input {
                    spot,
                    close,
                    ty,
                    into,
                },
            )?;
            Ok(())
        }
        Callee::ReachError => {
            let spot = site.spot;
            emit(ops, 0, Action::Reach { around, spot })?;
            Ok(())
        }
        Callee::Abort => {
            emit(ops, 0, Action::End)?;
            Ok(())
        }
        Callee::Exit => {
            emit(ops, 0, Action::End)?;
            Ok(())
        }
    }
}

// The call of a function of the program, which takes a step for each parameter.
fn call_function(
    program: &Program,
    ops: &mut Seq<Op>,
    site: CallSite,
    function: u32,
    count: usize,
) -> Result<(), OutOfMemory>
    ensures { OnOk result (ops.new ≡ ops.old ++ call_of function count site
        (slice_get (functions_view program.now.functions) function) ∷ []) }
{
    match program.functions.get(function as usize) {
        Some(found) => {
            let steps = counted(found.params.len())?;
            let arguments = counted(count)?;
            emit(
                ops,
                steps,
                Action::Call {
                    function,
                    arguments,
                    site,
                },
            )?;
            Ok(())
        }
        // no checked program calls it
        None => {
            emit(ops, 0, Action::End)?;
            Ok(())
        }
    }
}
