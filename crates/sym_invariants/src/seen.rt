// Values as bits, with a bit that is true where there is a value: what operators make of them.
ghost use Rattle.std.specs.Prelude.{◌≡◌, ◌+◌, ◌<◌, ◌^◌, IfOk, IsFalse, IsTrue, Option, Some, None, cond, length};
ghost use Rattle.c_core.specs.Types.{fit, in_range, promote_of, IsPromoted};
ghost use Rattle.c_core.specs.Operators as operators;
ghost use Rattle.c_core.specs.View.{program_view};
ghost use Rattle.c_core.specs.declared.number.IntType.{IntType};
ghost use Rattle.c_core.specs.declared.number.IntType.TheVariants.{Int};
ghost use Rattle.c_core.specs.declared.number.IntType.TheVariants.{Bool as BoolType};
ghost use Rattle.c_meaning.specs.Objects as objects;
ghost use Rattle.c_meaning.specs.Value as value;
ghost use Rattle.circuits.specs.Net.{opposite, holds, IsIn};
ghost use Rattle.circuits.specs.Numbers.{AreTyped};
ghost use Rattle.circuits.specs.Outcome.{conversion_cost, binary_type, one_type};
ghost use Rattle.sym_state.specs.Following.{AreOf};
ghost use Rattle.sym_state.specs.Places.{key};
ghost use Rattle.sym_state.specs.Standing.{stand, IsState};
ghost use Rattle.sym_values.specs.Valuing.{Decided};
ghost use Rattle.sym_weight.specs.Table as table;
ghost use Rattle.sym_invariants.specs.Valued.{Perhaps, IsSeen, Sees, then_value, then_both, logic_in, choice_in, side_type, one_weight, both_weight, logic_weight};

use c_core::{BinOp, DataModel, IntType, Program, UnOp, is_shift, promote, type_for};
use circuits::{Bit, Bits, apply_bits, const_bits, not, one_bits};
use std::alloc::Global;
use sym_state::{Sym, look, place_of};
use sym_values::{choose, convert, test, truth};
use wv_base::{OutOfMemory, Seq};

/// A value as bits, and a bit that is true where there is one.
#[derive(Drop)]
pub struct Seen {
    pub bits: Bits,
    pub defined: Bit,
}

/// A constant.
pub fn constant(
    alloc: Global,
    program: &Program,
    sym: &Sym,
    ty: IntType,
    z: i128,
) -> Result<Seen, OutOfMemory>
    requires { IsTrue (in_range program.now.model ty z) }
    ensures { IfOk result (λ r. IsSeen program.now.model (Some ty) sym.now.net r.bits.bits r.defined (λ v. Some z)) }
{
    let bits = const_bits(alloc, &sym.net, program.model, ty, z)?;
    let defined = sym.net.yes();
    Ok(Seen { bits, defined })
}

/// No value.
pub fn no_value(
    alloc: Global,
    program: &Program,
    sym: &Sym,
    ty: IntType,
) -> Result<Seen, OutOfMemory>
    ensures { IfOk result (λ r. IsSeen program.now.model (Some ty) sym.now.net r.bits.bits r.defined (λ v. None)) }
{
    let bits = const_bits(alloc, &sym.net, program.model, ty, 0)?;
    let defined = not(sym.net.yes());
    Ok(Seen { bits, defined })
}

/// What the innermost cell of an object of a type holds at an index; none where no such cell is live.
pub fn cell(
    alloc: Global,
    program: &Program,
    sym: &Sym,
    object: u32,
    index: u32,
    ty: IntType,
) -> Result<Seen, OutOfMemory>
    requires fits { IsState (program_view program.now) sym.now }
    requires typed { ty ≡ objects.type_of_object (program_view program.now) object }
    ensures { IfOk result (λ r. IsSeen program.now.model (Some ty) sym.now.net r.bits.bits r.defined
        (λ v. value.seen_at (program_view program.now) (key object index)
        (stand (program_view program.now) v sym.now).cells)) }
{
    match place_of(&sym.cells, object, index) {
        Some(_) => {
            let bits = look(alloc, program, sym, object, index, ty)?;
            let defined = sym.net.yes();
            Ok(Seen { bits, defined })
        }
        None => {
            let r = no_value(alloc, program, sym, ty)?;
            Ok(r)
        }
    }
}

/// A value converted to a type.
pub fn converted(
    alloc: Global,
    program: &Program,
    sym: &mut Sym,
    from: IntType,
    to: IntType,
    x: &Seen,
) -> Result<Seen, OutOfMemory>
    requires fits { IsState (program_view program.now) sym.old }
    requires x_in { AreTyped program.now.model from sym.old.net x.now.bits.bits }
    requires room { length sym.old.net < 2 ^ 28 }
    ensures { IfOk result (λ r. (f : Perhaps)
        → IsSeen program.now.model (Some from) sym.old.net x.now.bits.bits x.now.defined f
        → Sees (program_view program.now) (conversion_cost program.now.model from to) sym.old sym.new (Some to)
        r.bits.bits r.defined (then_value f (λ z. Some (fit program.now.model to z)))) }
{
    let bits = convert(alloc, program, sym, from, to, &x.bits)?;
    Ok(Seen {
        bits,
        defined: x.defined,
    })
}

/// An operator of one number, which is promoted first; overflow wraps.
pub fn operated_one(
    alloc: Global,
    program: &Program,
    sym: &mut Sym,
    op: UnOp,
    a: IntType,
    x: &Seen,
) -> Result<Seen, OutOfMemory>
    requires fits { IsState (program_view program.now) sym.old }
    requires x_in { AreTyped program.now.model a sym.old.net x.now.bits.bits }
    requires x_defined { IsIn sym.old.net x.now.defined }
    requires room { length sym.old.net + one_weight program.now.model op a < 2 ^ 27 }
    ensures { IfOk result (λ r. (f : Perhaps)
        → IsSeen program.now.model (Some a) sym.old.net x.now.bits.bits x.now.defined f
        → Sees (program_view program.now) (one_weight program.now.model op a) sym.old sym.new
        (Some (one_type op (promote_of a))) r.bits.bits r.defined
        (then_value f (value.operated_one (program_view program.now) op a))) }
{
    let model = program.model;
    let ty = promote(model, a);
    let u = convert(alloc, program, sym, a, ty, &x.bits)?;
    let out = one_bits(alloc, &mut sym.net, model, op, ty, &u)?;
    let defined = sym.net.and(x.defined, not(out.undefined))?;
    Ok(Seen {
        bits: out.value,
        defined,
    })
}

// The type of its right side.
fn right_type(model: DataModel, op: BinOp, ty: IntType, b: IntType) -> IntType
    requires { IsPromoted ty }
    ensures value { result ≡ operators.right_type_for op ty b }
    ensures promoted { IsPromoted result }
    ensures same { IsFalse (operators.is_shift op) → result ≡ ty }
{
    if is_shift(op) { promote(model, b) } else { ty }
}

/// An operator of two numbers, whose sides are converted first; overflow wraps.
pub fn operated(
    alloc: Global,
    program: &Program,
    sym: &mut Sym,
    op: BinOp,
    a: IntType,
    x: &Seen,
    b: IntType,
    y: &Seen,
) -> Result<Seen, OutOfMemory>
    requires fits { IsState (program_view program.now) sym.old }
    requires x_in { AreTyped program.now.model a sym.old.net x.now.bits.bits }
    requires x_defined { IsIn sym.old.net x.now.defined }
    requires y_in { AreTyped program.now.model b sym.old.net y.now.bits.bits }
    requires y_defined { IsIn sym.old.net y.now.defined }
    requires room { length sym.old.net + both_weight program.now.model op a b < 2 ^ 27 }
    ensures { IfOk result (λ r. (f g : Perhaps)
        → IsSeen program.now.model (Some a) sym.old.net x.now.bits.bits x.now.defined f
        → IsSeen program.now.model (Some b) sym.old.net y.now.bits.bits y.now.defined g
        → Sees (program_view program.now) (both_weight program.now.model op a b) sym.old sym.new
        (Some (binary_type op (operators.type_for program.now.model op a b))) r.bits.bits r.defined
        (then_both f g (λ z w. value.operated (program_view program.now) op a z b w))) }
{
    let model = program.model;
    let ty = type_for(model, op, a, b);
    let right = right_type(model, op, ty, b);
    let u = convert(alloc, program, sym, a, ty, &x.bits)?;
    let w = convert(alloc, program, sym, b, right, &y.bits)?;
    let out = apply_bits(alloc, &mut sym.net, model, op, ty, &u, right, &w)?;
    let both = sym.net.and(x.defined, y.defined)?;
    let defined = sym.net.and(both, not(out.undefined))?;
    Ok(Seen {
        bits: out.value,
        defined,
    })
}

// The bit, or its opposite.
fn kept_if(keep: bool, bit: Bit) -> Bit
    ensures { result ≡ cond keep bit (opposite bit) }
{
    if keep { bit } else { not(bit) }
}

/// `&&` and `||`.
pub fn decided(
    alloc: Global,
    program: &Program,
    sym: &mut Sym,
    both: bool,
    a: IntType,
    x: &Seen,
    b: IntType,
    y: &Seen,
) -> Result<Seen, OutOfMemory>
    requires fits { IsState (program_view program.now) sym.old }
    requires x_in { AreTyped program.now.model a sym.old.net x.now.bits.bits }
    requires x_defined { IsIn sym.old.net x.now.defined }
    requires y_in { AreTyped program.now.model b sym.old.net y.now.bits.bits }
    requires y_defined { IsIn sym.old.net y.now.defined }
    requires room { length sym.old.net + logic_weight program.now.model a b < 2 ^ 27 }
    ensures { IfOk result (λ r. (f g : Perhaps)
        → IsSeen program.now.model (Some a) sym.old.net x.now.bits.bits x.now.defined f
        → IsSeen program.now.model (Some b) sym.old.net y.now.bits.bits y.now.defined g
        → Sees (program_view program.now) (logic_weight program.now.model a b) sym.old sym.new (Some Int) r.bits.bits
        r.defined (λ v. logic_in both (f v) (g v))) }
{
    let first = test(alloc, program, sym, a, &x.bits)?;
    let second = test(alloc, program, sym, b, &y.bits)?;
    let go = kept_if(both, first);
    let hit = kept_if(both, second);
    let missing = sym.net.and(go, not(y.defined))?;
    let defined = sym.net.and(x.defined, not(missing))?;
    let all = sym.net.and(go, hit)?;
    let bits = truth(alloc, program, sym, kept_if(both, all))?;
    Ok(Seen { bits, defined })
}

/// `yes` where the test is true, else `no`.
pub fn pick(
    program: &Program,
    sym: &mut Sym,
    go: Bit,
    yes: Bit,
    no: Bit,
) -> Result<Bit, OutOfMemory>
    requires fits { IsState (program_view program.now) sym.old }
    requires go_in { IsIn sym.old.net go }
    requires yes_in { IsIn sym.old.net yes }
    requires no_in { IsIn sym.old.net no }
    requires room { length sym.old.net < 2 ^ 28 }
    ensures { IfOk result (λ r. Decided (program_view program.now) 3 sym.old sym.new r
        (λ v. cond (holds v sym.old.net go) (holds v sym.old.net yes) (holds v sym.old.net no))) }
{
    let taken = sym.net.and(go, yes)?;
    let left = sym.net.and(not(go), no)?;
    let neither = sym.net.and(not(taken), not(left))?;
    Ok(not(neither))
}

/// A side of `?:`, converted to the type of the whole; that of a void one is left as it is.
pub fn as_type(
    alloc: Global,
    program: &Program,
    sym: &mut Sym,
    ty: Option<IntType>,
    from: IntType,
    x: Seen,
) -> Result<Seen, OutOfMemory>
    requires fits { IsState (program_view program.now) sym.old }
    requires x_in { AreOf program.now.model (side_type ty from) sym.old.net x.bits.bits }
    requires room { length sym.old.net < 2 ^ 28 }
    ensures { IfOk result (λ r. (f : Perhaps)
        → IsSeen program.now.model (side_type ty from) sym.old.net x.bits.bits x.defined f
        → Sees (program_view program.now) (table.conversion_to program.now.model ty from) sym.old sym.new ty r.bits.bits
        r.defined (then_value f (λ z. Some (value.converted (program_view program.now) ty z)))) }
{
    match ty {
        Some(to) => {
            let r = converted(alloc, program, sym, from, to, &x)?;
            Ok(r)
        }
        None => Ok(x),
    }
}

/// `?:` of a type or of void, by a test of a type.
pub fn chosen(
    alloc: Global,
    program: &Program,
    sym: &mut Sym,
    ty: Option<IntType>,
    of: IntType,
    e: &Seen,
    x: &Seen,
    y: &Seen,
) -> Result<Seen, OutOfMemory>
    requires fits { IsState (program_view program.now) sym.old }
    requires e_in { AreTyped program.now.model of sym.old.net e.now.bits.bits }
    requires e_defined { IsIn sym.old.net e.now.defined }
    requires x_in { AreOf program.now.model ty sym.old.net x.now.bits.bits }
    requires x_defined { IsIn sym.old.net x.now.defined }
    requires y_in { AreOf program.now.model ty sym.old.net y.now.bits.bits }
    requires y_defined { IsIn sym.old.net y.now.defined }
    requires room { length sym.old.net +
        (4 + (conversion_cost program.now.model of BoolType + table.chosen program.now.model ty)) < 2 ^ 27 }
    ensures { IfOk result (λ r. (h f g : Perhaps)
        → IsSeen program.now.model (Some of) sym.old.net e.now.bits.bits e.now.defined h
        → IsSeen program.now.model ty sym.old.net x.now.bits.bits x.now.defined f
        → IsSeen program.now.model ty sym.old.net y.now.bits.bits y.now.defined g
        → Sees (program_view program.now)
        (4 + (conversion_cost program.now.model of BoolType + table.chosen program.now.model ty)) sym.old sym.new ty
        r.bits.bits r.defined (λ v. choice_in (h v) (f v) (g v))) }
{
    let go = test(alloc, program, sym, of, &e.bits)?;
    let side = pick(program, sym, go, x.defined, y.defined)?;
    let defined = sym.net.and(e.defined, side)?;
    match ty {
        Some(to) => {
            let bits = choose(alloc, program, sym, to, go, &x.bits, &y.bits)?;
            Ok(Seen { bits, defined })
        }
        None => {
            let bits = Bits {
                bits: Seq::new(alloc),
            };
            Ok(Seen { bits, defined })
        }
    }
}

/// The second of two values, where there are both.
pub fn second(program: &Program, sym: &mut Sym, x: &Seen, y: Seen) -> Result<Seen, OutOfMemory>
    requires fits { IsState (program_view program.now) sym.old }
    requires x_defined { IsIn sym.old.net x.now.defined }
    requires y_defined { IsIn sym.old.net y.defined }
    requires room { length sym.old.net < 2 ^ 28 }
    ensures { IfOk result (λ r. (s t : Option IntType) (f g : Perhaps)
        → IsSeen program.now.model s sym.old.net x.now.bits.bits x.now.defined f
        → IsSeen program.now.model t sym.old.net y.bits.bits y.defined g
        → Sees (program_view program.now) 1 sym.old sym.new t r.bits.bits r.defined (then_both f g (λ z w. Some w))) }
{
    let defined = sym.net.and(x.defined, y.defined)?;
    Ok(Seen {
        bits: y.bits,
        defined,
    })
}
