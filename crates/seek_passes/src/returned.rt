// Which returned values meet the constraint of a waypoint.
ghost use Rattle.std.specs.Prelude.{◌≡◌, ◌+◌, ◌<◌, ◌^◌, IfOk, IsTrue, length};
ghost use Rattle.c_core.specs.Operators.{apply_of, is_comparison};
ghost use Rattle.c_core.specs.Places as places;
ghost use Rattle.c_core.specs.Types.{common_of, fit, IsPromoted};
ghost use Rattle.c_core.specs.View.{program_view, expr_view};
ghost use Rattle.c_meaning.specs.Value.{is_true, wrapping};
ghost use Rattle.circuits.specs.Net.{holds, IsIn};
ghost use Rattle.circuits.specs.Numbers.{typed, AreTyped, Reads};
ghost use Rattle.sym_state.specs.Standing.{IsState};
ghost use Rattle.sym_values.specs.Valuing.{Decided};
ghost use Rattle.way_match.specs.Passing as passing;
ghost use Rattle.way_match.specs.View.{test_view, test_view_if};
ghost use Rattle.seek_passes.specs.Charges.{comparison_cost, test_cost, test_cost_if};
ghost use Rattle.seek_passes.specs.Event.{given_if};
ghost use Rattle.seek_passes.specs.Passing.{IsTest};

use c_core::{BinOp, DataModel, Expr, IntType, Program, Spot, common, fitted};
use c_meaning::{Memory, type_of, value_in};
use circuits::{Bit, Bits, Net, apply_bits, const_bits, not};
use std::alloc::Global;
use sym_state::Sym;
use sym_values::{convert, test};
use way_match::ReturnTest;
use way_places::call_at;
use wv_base::OutOfMemory;

// The value of an expression without names, if it is defined.
fn constant(alloc: Global, program: &Program, e: &Expr) -> Option<i128>
    ensures { result ≡ passing.constant_of (program_view program.now) (expr_view e.now) }
{
    let memory = Memory::new(alloc);
    value_in(program, e, &memory)
}

fn type_of_call(program: &Program, close: Spot) -> IntType
    ensures { result ≡ passing.type_of_call (places.call_at (program_view program.now) close) }
{
    match call_at(program, close) {
        Some(call) => type_of(call),
        None => IntType::Int,
    }
}

// The type in which a returned value and a constant are compared.
fn common_type(model: DataModel, a: IntType, b: IntType) -> IntType
    ensures value { result ≡ common_of model a b }
    ensures promoted { IsPromoted result }
{
    common(model, a, b)
}

// The digits of a constant that is converted to a type.
fn constant_bits(
    alloc: Global,
    net: &Net,
    model: DataModel,
    ty: IntType,
    constant: i128,
) -> Result<Bits, OutOfMemory>
    ensures { IfOk result (λ r. Reads model ty net.now r.bits (λ v. fit model ty constant)) }
{
    let value = fitted(model, ty, constant);
    let bits = const_bits(alloc, net, model, ty, value)?;
    Ok(bits)
}

// Where a comparison with a constant holds, both sides converted to a promoted type.
fn compared(
    alloc: Global,
    program: &Program,
    sym: &mut Sym,
    op: BinOp,
    common: IntType,
    ty: IntType,
    bits: &Bits,
    constant: i128,
) -> Result<Bit, OutOfMemory>
    requires comparison { IsTrue (is_comparison op) }
    requires promoted { IsPromoted common }
    requires fits { IsState (program_view program.now) sym.old }
    requires bits_in { AreTyped program.now.model ty sym.old.net bits.now.bits }
    requires room { length sym.old.net + comparison_cost program.now.model common < 2 ^ 27 }
    ensures { IfOk result (λ r. Decided (program_view program.now) (comparison_cost program.now.model common) sym.old
        sym.new r (λ v. is_true (wrapping (apply_of program.now.model op common
        (fit program.now.model common (typed program.now.model ty v sym.old.net bits.now.bits))
        (fit program.now.model common constant))))) }
{
    let model = program.model;
    let right = constant_bits(alloc, &sym.net, model, common, constant)?;
    let left = convert(alloc, program, sym, ty, common, bits)?;
    let out = apply_bits(
        alloc,
        &mut sym.net,
        model,
        op,
        common,
        &left,
        common,
        &right,
    )?;
    let truth = test(alloc, program, sym, IntType::Int, &out.value)?;
    let met = sym.net.and(truth, not(out.undefined))?;
    Ok(met)
}

// Where a returned value meets a constraint.
fn meets(
    alloc: Global,
    program: &Program,
    sym: &mut Sym,
    close: Spot,
    test: &ReturnTest,
    ty: IntType,
    bits: &Bits,
) -> Result<Bit, OutOfMemory>
    requires comparison { IsTrue (is_comparison test.now.op) }
    requires fits { IsState (program_view program.now) sym.old }
    requires bits_in { AreTyped program.now.model ty sym.old.net bits.now.bits }
    requires room { length sym.old.net + test_cost (program_view program.now) close (test_view test.now) < 2 ^ 27 }
    ensures { IfOk result (λ r. Decided (program_view program.now)
        (test_cost (program_view program.now) close (test_view test.now)) sym.old sym.new r
        (λ v. passing.meets (program_view program.now) (test_view test.now)
        (passing.type_of_call (places.call_at (program_view program.now) close))
        (typed program.now.model ty v sym.old.net bits.now.bits))) }
{
    let from = type_of_call(program, close);
    let common = common_type(program.model, from, type_of(&test.constant));
    match constant(alloc, program, &test.constant) {
        Some(value) => {
            let met = compared(alloc, program, sym, test.op, common, ty, bits, value)?;
            Ok(met)
        }
        None => Ok(not(sym.net.yes())),
    }
}

/// Where a call that came back meets the constraint of a waypoint, if there is one: no value meets none.
pub fn meets_at(
    alloc: Global,
    program: &Program,
    sym: &mut Sym,
    close: Spot,
    test: &Option<ReturnTest>,
    ty: IntType,
    bits: &Bits,
    gave: Bit,
) -> Result<Bit, OutOfMemory>
    requires comparison { IsTest (test_view_if test.now) }
    requires fits { IsState (program_view program.now) sym.old }
    requires bits_in { AreTyped program.now.model ty sym.old.net bits.now.bits }
    requires gave_in { IsIn sym.old.net gave }
    requires room { length sym.old.net + test_cost_if (program_view program.now) close (test_view_if test.now)
        < 2 ^ 27 }
    ensures { IfOk result (λ r. Decided (program_view program.now)
        (test_cost_if (program_view program.now) close (test_view_if test.now)) sym.old sym.new r
        (λ v. passing.meets_at (program_view program.now) close (test_view_if test.now)
        (given_if (holds v sym.old.net gave) (typed program.now.model ty v sym.old.net bits.now.bits)))) }
{
    match test {
        Some(test) => {
            let met = meets(alloc, program, sym, close, test, ty, bits)?;
            let both = sym.net.and(gave, met)?;
            Ok(both)
        }
        None => Ok(sym.net.yes()),
    }
}
