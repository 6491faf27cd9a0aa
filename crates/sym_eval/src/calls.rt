// Calls of defined functions.
ghost use Rattle.std.specs.Prelude.{◌≡◌, ◌<◌, ◌^◌, ◌&&◌, IfOk, MatchOption, None, Some, is_some, length, slice_get};
ghost use Rattle.c_core.specs.Tree as t;
ghost use Rattle.c_core.specs.View.{exprs_view, function_view, program_view};
ghost use Rattle.c_core.specs.declared.tree.Callee.TheVariants.{Defined};
ghost use Rattle.c_meaning.specs.Eval.{is_used};
ghost use Rattle.c_meaning.specs.Objects as objects;
ghost use Rattle.sym_state.specs.Standing.{IsState};
ghost use Rattle.sym_eval.specs.Calling.{AllReady, AllValues, CallReady, Called, Ended, RunReady, HasRun};
ghost use Rattle.sym_exprs.specs.Evaluating.{use_of, Ready, Values};
ghost use Rattle.sym_walk.specs.Walking.{program_of, mode_of, IsWalk};

use crate::expressions::eval;
use crate::parameters::{Argument, set_parameters};
use crate::statements::form;
use c_core::{Expr, Function, IntType, Program, Spot};
use c_meaning::type_of;
use circuits::{Bits, const_bits};
use std::alloc::Global;
use sym_flow::{come_back, enter, need};
use sym_state::{Around, Sym};
use sym_values::end;
use sym_walk::{Walk, tell_enter, tell_return};
use wv_base::OutOfMemory;

/// The type of what a function gives; of one that gives nothing it isn't asked for.
pub fn type_or_int(ty: Option<IntType>) -> IntType
    ensures { result ≡ objects.type_or_int ty }
{
    match ty {
        Some(ty) => ty,
        None => IntType::Int,
    }
}

/// Arguments are evaluated from left to right.
#[cycle(walk)]
pub fn evals(
    walk: &Walk,
    sym: &mut Sym,
    depth: u32,
    at: Around,
    args: &[Expr],
) -> Result<Vec<Argument>, OutOfMemory>
    requires walk { IsWalk walk.now }
    requires ready { AllReady (program_of walk.now) (mode_of walk.now) depth at sym.old (exprs_view args.now) }
    ensures { IfOk result (λ r. AllValues (program_of walk.now) (mode_of walk.now) depth at (exprs_view args.now)
        sym.old sym.new r.items) }
{
    let mut arguments = Vec::new(walk.alloc);
    for e in args {
        let bits = eval(walk, sym, depth, at, true, e)?;
        let ty = type_of(e);
        arguments.push(Argument { bits, ty })?;
    }
    Ok(arguments)
}

// Is the value of a call needed?
fn is_needed(used: bool, ty: Option<IntType>) -> bool
    ensures { result ≡ (is_used (use_of used) && is_some ty) }
{
    match ty {
        Some(_) => used,
        None => false,
    }
}

// The run ends, and fails nothing; the bits stand for no value.
fn end_call(
    alloc: Global,
    program: &Program,
    sym: &mut Sym,
    ty: Option<IntType>,
) -> Result<Bits, OutOfMemory>
    requires fits { IsState (program_view program.now) sym.old }
    requires room { length sym.old.net < 2 ^ 27 }
    ensures { IfOk result (λ r. Ended (program_view program.now) ty sym.old sym.new r.bits) }
{
    end(sym, program)?;
    let bits = const_bits(alloc, &sym.net, program.model, type_or_int(ty), 0)?;
    Ok(bits)
}

// A function is run, with calls at most `depth` deep: its parameters, its body, the event of its return, and the value
// that comes back.
#[cycle(walk)]
fn run_function(
    walk: &Walk,
    sym: &mut Sym,
    depth: u32,
    close: Spot,
    needed: bool,
    function: &Function,
    arguments: &[Argument],
) -> Result<Bits, OutOfMemory>
    requires walk { IsWalk walk.now }
    requires ready { RunReady (program_of walk.now) (mode_of walk.now) depth close needed
        (function_view function.now) sym.old arguments.now }
    ensures { IfOk result (λ r. HasRun (program_of walk.now) (mode_of walk.now) depth close needed
        (function_view function.now) arguments.now sym.old sym.new r.bits) }
{
    let cells = sym.cells.len();
    let ty = type_or_int(function.result);
    let caller = enter(walk.alloc, walk.program, sym, ty)?;
    set_parameters(
        walk.alloc,
        walk.program,
        sym,
        function.params.as_slice(),
        arguments,
    )?;
    form(
        walk,
        sym,
        depth,
        function.result,
        function.body.spot,
        &function.body.form,
    )?;
    let back = come_back(walk.program, sym, caller, cells)?;
    tell_return(
        walk,
        sym,
        close,
        function.result,
        ty,
        &back.value,
        back.gave,
    )?;
    need(sym, walk.program, back.gave, needed)?;
    Ok(back.value)
}

// The function of a number, where calls may be this many deep.
fn function_at(program: &Program, depth: u32, function: u32) -> Option<&Function>
    ensures { MatchOption result (0 < depth → slice_get (program_view program.now).functions function ≡ None)
        (λ f. (0 < depth) × (slice_get (program_view program.now).functions function ≡ Some (function_view f.now))) }
{
    if depth == 0 {
        return None;
    }
    match program.functions.get(function as usize) {
        Some(found) => Some(found),
        None => None,
    }
}

// The function of a number is called; where no call may be so deep, or there is no such function, the run ends.
#[cycle(walk)]
#[inline(never)]
fn call_found(
    walk: &Walk,
    sym: &mut Sym,
    depth: u32,
    close: Spot,
    needed: bool,
    ty: Option<IntType>,
    function: u32,
    arguments: &[Argument],
) -> Result<Bits, OutOfMemory>
    requires walk { IsWalk walk.now }
    requires ready { CallReady (program_of walk.now) (mode_of walk.now) depth close function needed ty sym.old
        arguments.now }
    ensures { IfOk result (λ r. Called (program_of walk.now) (mode_of walk.now) depth close function needed ty
        arguments.now sym.old sym.new r.bits) }
{
    match function_at(walk.program, depth, function) {
        Some(found) => {
            let bits = run_function(walk, sym, depth - 1, close, needed, found, arguments)?;
            Ok(bits)
        }
        None => {
            let bits = end_call(walk.alloc, walk.program, sym, ty)?;
            Ok(bits)
        }
    }
}

/// A call of a defined function, with calls at most `depth` deep.
#[cycle(walk)]
pub fn call_defined(
    walk: &Walk,
    sym: &mut Sym,
    depth: u32,
    at: Around,
    used: bool,
    spot: Spot,
    ty: Option<IntType>,
    function: u32,
    args: &[Expr],
    close: Spot,
) -> Result<Bits, OutOfMemory>
    requires walk { IsWalk walk.now }
    requires ready { Ready (program_of walk.now) (mode_of walk.now) depth at sym.old
        (t.Expr spot ty (t.Call (Defined function) (exprs_view args.now) close)) }
    ensures { IfOk result (λ r. Values (program_of walk.now) (mode_of walk.now) depth at (use_of used)
        (t.Expr spot ty (t.Call (Defined function) (exprs_view args.now) close)) sym.old sym.new r.bits) }
{
    let arguments = evals(walk, sym, depth, at, args)?;
    tell_enter(walk, sym, close)?;
    let needed = is_needed(used, ty);
    let bits = call_found(
        walk,
        sym,
        depth,
        close,
        needed,
        ty,
        function,
        arguments.as_slice(),
    )?;
    Ok(bits)
}
