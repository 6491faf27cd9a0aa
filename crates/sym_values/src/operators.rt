// Operators.
ghost use Rattle.std.specs.Prelude.{◌≡◌, ◌+◌, ◌<◌, ◌^◌, IfOk, IsFalse, List, None, Some, length};
ghost use Rattle.c_core.specs.Types.{IsPromoted, promote_of};
ghost use Rattle.c_core.specs.Operators as operators;
ghost use Rattle.c_core.specs.View.{program_view};
ghost use Rattle.sym_meaning.specs.Mode.{Mode};
ghost use Rattle.circuits.specs.Net.{holds, IsIn};
ghost use Rattle.circuits.specs.Chosen.{AreAlike};
ghost use Rattle.circuits.specs.Numbers.{AreIn, AreTyped};
ghost use Rattle.circuits.specs.Outcome.{binary_type, one_type};
ghost use Rattle.sym_state.specs.Standing.{IsState, Turned};
ghost use Rattle.sym_values.specs.Valuing.{judged, operated_cost, operated_one_cost, IsDutyAt, CountsWhere, Gives, operated, operated_one};

use c_core::{
    BinOp, DataModel, IntType, Program, Property, Spot, UnOp, is_shift, promote, type_for,
};
use circuits::{Bit, Bits, Net, apply_bits, convert_bits, one_bits};
use std::alloc::Global;
use sym_state::{Around, Sym, stop, violate};
use wv_base::{OutOfMemory, Seq};

// The type of its right side.
fn right_type_for(model: DataModel, op: BinOp, ty: IntType, b: IntType) -> IntType
    requires { IsPromoted ty }
    ensures value { result ≡ operators.right_type_for op ty b }
    ensures promoted { IsPromoted result }
    ensures same { IsFalse (operators.is_shift op) → result ≡ ty }
{
    if is_shift(op) { promote(model, b) } else { ty }
}

// Runs end where the operator overflows, if that is the violation, and where it is undefined.
fn end_runs(
    sym: &mut Sym,
    program: &Program,
    at: Around,
    counts: Bit,
    overflow: Bit,
    undefined: Bit,
) -> Result<(), OutOfMemory>
    requires fits { IsState (program_view program.now) sym.old }
    requires counts_in { IsIn sym.old.net counts }
    requires overflow_in { IsIn sym.old.net overflow }
    requires undefined_in { IsIn sym.old.net undefined }
    requires room { length sym.old.net < 2 ^ 27 }
    ensures { IfOk result (λ r. Turned (program_view program.now) 5 0 sym.old sym.new
        (λ v. judged program.now.property at.duty (holds v sym.old.net counts) (holds v sym.old.net overflow)
        (holds v sym.old.net undefined))) }
{
    match program.property {
        Property::NoOverflow => {
            violate(sym, program, at.duty, overflow, counts)?;
            stop(sym, program, undefined)?;
            Ok(())
        }
        Property::UnreachCall => {
            stop(sym, program, undefined)?;
            Ok(())
        }
    }
}

// A side of an operator. Of a comparison it is settled: where the test that chose it is known by where runs are, it is
// the word that was chosen.
fn side(alloc: Global, net: &mut Net, live: Bit, op: BinOp, x: &Bits) -> Result<Bits, OutOfMemory>
    requires live_in { IsIn net.old live }
    requires x_in { AreIn net.old x.now.bits }
    ensures same { net.new ≡ net.old }
    ensures alike { IfOk result (λ r. AreAlike net.old (λ v. holds v net.old live) x.now.bits r.bits) }
{
    let bits = match op {
        BinOp::Lt | BinOp::Le | BinOp::Gt | BinOp::Ge | BinOp::Eq | BinOp::Ne => {
            net.settled(alloc, live, x.bits.as_slice())?
        }
        _ => x.bits.as_slice().to_vec(alloc)?,
    };
    let bits = Seq::from_vec(bits);
    Ok(Bits { bits })
}

// An operator of two numbers as they stand.
fn operate_on(
    alloc: Global,
    program: &Program,
    sym: &mut Sym,
    at: Around,
    counts: Bit,
    spot: Spot,
    op: BinOp,
    a: IntType,
    x: &Bits,
    b: IntType,
    y: &Bits,
) -> Result<Bits, OutOfMemory>
    requires fits { IsState (program_view program.now) sym.old }
    requires counts_in { IsIn sym.old.net counts }
    requires x_in { AreTyped program.now.model a sym.old.net x.now.bits }
    requires y_in { AreTyped program.now.model b sym.old.net y.now.bits }
    requires room { length sym.old.net + operated_cost program.now.model op a b < 2 ^ 27 }
    ensures { IfOk result (λ r. (W : Mode) → IsDutyAt (program_view program.now) W at
        → CountsWhere (program_view program.now) W at None sym.old counts
        → Gives (program_view program.now) W (operated_cost program.now.model op a b) 0 sym.old sym.new
        (Some (binary_type op (operators.type_for program.now.model op a b))) r.bits
        (operated (program_view program.now) W at spot op a x.now.bits b y.now.bits sym.old)) }
{
    let model = program.model;
    let ty = type_for(model, op, a, b);
    let right = right_type_for(model, op, ty, b);
    let u = convert_bits(alloc, &mut sym.net, model, a, ty, x)?;
    let w = convert_bits(alloc, &mut sym.net, model, b, right, y)?;
    let out = apply_bits(alloc, &mut sym.net, model, op, ty, &u, right, &w)?;
    end_runs(sym, program, at, counts, out.overflow, out.undefined)?;
    Ok(out.value)
}

/// An operator of two numbers, whose sides are converted first; a bit says where a violation counts.
pub fn operate(
    alloc: Global,
    program: &Program,
    sym: &mut Sym,
    at: Around,
    counts: Bit,
    spot: Spot,
    op: BinOp,
    a: IntType,
    x: &Bits,
    b: IntType,
    y: &Bits,
) -> Result<Bits, OutOfMemory>
    requires fits { IsState (program_view program.now) sym.old }
    requires counts_in { IsIn sym.old.net counts }
    requires x_in { AreTyped program.now.model a sym.old.net x.now.bits }
    requires y_in { AreTyped program.now.model b sym.old.net y.now.bits }
    requires room { length sym.old.net + operated_cost program.now.model op a b < 2 ^ 27 }
    ensures { IfOk result (λ r. (W : Mode) → IsDutyAt (program_view program.now) W at
        → CountsWhere (program_view program.now) W at None sym.old counts
        → Gives (program_view program.now) W (operated_cost program.now.model op a b) 0 sym.old sym.new
        (Some (binary_type op (operators.type_for program.now.model op a b))) r.bits
        (operated (program_view program.now) W at spot op a x.now.bits b y.now.bits sym.old)) }
{
    let live = sym.live;
    let left = side(alloc, &mut sym.net, live, op, x)?;
    let right = side(alloc, &mut sym.net, live, op, y)?;
    operate_on(
        alloc, program, sym, at, counts, spot, op, a, &left, b, &right,
    )
}

/// An operator of one number, which is promoted first; a bit says where a violation counts.
pub fn operate_one(
    alloc: Global,
    program: &Program,
    sym: &mut Sym,
    at: Around,
    counts: Bit,
    op: UnOp,
    a: IntType,
    x: &Bits,
) -> Result<Bits, OutOfMemory>
    requires fits { IsState (program_view program.now) sym.old }
    requires counts_in { IsIn sym.old.net counts }
    requires x_in { AreTyped program.now.model a sym.old.net x.now.bits }
    requires room { length sym.old.net + operated_one_cost program.now.model op a < 2 ^ 27 }
    ensures { IfOk result (λ r. (W : Mode) → IsDutyAt (program_view program.now) W at
        → CountsWhere (program_view program.now) W at None sym.old counts
        → Gives (program_view program.now) W (operated_one_cost program.now.model op a) 0 sym.old sym.new
        (Some (one_type op (promote_of a))) r.bits
        (operated_one (program_view program.now) W at op a x.now.bits sym.old)) }
{
    let model = program.model;
    let ty = promote(model, a);
    let u = convert_bits(alloc, &mut sym.net, model, a, ty, x)?;
    let out = one_bits(alloc, &mut sym.net, model, op, ty, &u)?;
    end_runs(sym, program, at, counts, out.overflow, out.undefined)?;
    Ok(out.value)
}
