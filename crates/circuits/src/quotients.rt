// Quotients and remainders.
ghost use Rattle.std.specs.Prelude.{◌≡◌, ◌+◌, ◌*◌, ◌≤◌, ◌<◌, ◌^◌, IfOk, length};
ghost use Rattle.c_core.specs.Types.{promote_of, width_of, is_signed};
ghost use Rattle.c_core.specs.Operators.{apply_of};
ghost use Rattle.c_core.specs.declared.number.BinOp.TheVariants.{Div, Rem};
ghost use Rattle.circuits.specs.Net.{Grown, IsIn};
ghost use Rattle.circuits.specs.Numbers.{number, typed, AreIn, AreTyped};
ghost use Rattle.circuits.specs.Division.{IsRow, Divides, IsJudged, IsDivision};
ghost use Rattle.circuits.specs.Gates.{size};
ghost use Rattle.circuits.specs.Outcome.{Gives};

use crate::gates::xor;
use crate::lists::{any, choose, difference, joined, zeros};
use crate::signs::{exceeds, magnitude, sign, with_sign};
use crate::{Bit, Bits, Net, Outcome, not};
use c_core::{DataModel, IntType};
use std::alloc::Global;
use wv_base::{OutOfMemory, Seq};

/// A digit of a quotient, and what is left to divide.
#[derive(Drop)]
pub struct Row {
    pub digit: Bit,
    pub rest: Vec<Bit>,
}

/// A quotient and its remainder.
#[derive(Drop)]
pub struct Divided {
    pub quotient: Vec<Bit>,
    pub rest: Vec<Bit>,
}

// a row of a written division: a digit is taken down to the rest, and b is taken away where it can be
fn divide_row(
    alloc: Global,
    net: &mut Net,
    next: Bit,
    rest: &[Bit],
    b: &[Bit],
) -> Result<Row, OutOfMemory>
    requires next_in { IsIn net.old next }
    requires same { length rest.now ≡ length b.now }
    requires rest_in { AreIn net.old rest.now }
    requires b_in { AreIn net.old b.now }
    requires room { length net.old + 10 * (length b.now + 1) ≤ 2 ^ 31 }
    ensures grown { Grown (10 * (length b.now + 1)) net.old net.new }
    ensures value { IfOk result (λ r. IsRow net.old net.new next rest.now b.now r.digit r.rest.items) }
{
    let n = b.len();
    let upper = joined(alloc, &[next], rest)?;
    let wide = joined(alloc, b, &[not(net.yes())])?;
    let mut less = difference(alloc, net, &upper, &wide)?;
    let digit = less[n + 1];
    less.truncate(n + 1);
    let mut left = choose(alloc, net, digit, &less, &upper)?;
    left.truncate(n);
    Ok(Row { digit, rest: left })
}

/// The quotient and the remainder of two numbers; any bits where b is 0.
fn divide_sizes(alloc: Global, net: &mut Net, a: &[Bit], b: &[Bit]) -> Result<Divided, OutOfMemory>
    requires a_in { AreIn net.old a.now }
    requires b_in { AreIn net.old b.now }
    requires room { length net.old + length a.now * (10 * (length b.now + 1)) ≤ 2 ^ 31 }
    ensures grown { Grown (length a.now * (10 * (length b.now + 1))) net.old net.new }
    ensures value { IfOk result (λ r. Divides net.new (length a.now) (length b.now) (λ v. number v net.old a.now)
        (λ v. number v net.old b.now) r.quotient.items r.rest.items) }
{
    let mut rest = zeros(alloc, net, b.len())?;
    let mut quotient = Vec::new(alloc);
    for i in 0..a.len() {
        let next = a[a.len() - 1 - i];
        let row = divide_row(alloc, net, next, &rest, b)?;
        quotient = joined(alloc, &[row.digit], &quotient)?;
        rest = row.rest;
    }
    Ok(Divided { quotient, rest })
}

// the quotient and the remainder of the distances from 0
fn divide_magnitudes(
    alloc: Global,
    net: &mut Net,
    ty: IntType,
    a: &[Bit],
    b: &[Bit],
) -> Result<Divided, OutOfMemory>
    requires some { 0 < length a.now }
    requires same { length b.now ≡ length a.now }
    requires a_in { AreIn net.old a.now }
    requires b_in { AreIn net.old b.now }
    requires room { length net.old + (20 * length a.now + length a.now * (10 * (length a.now + 1))) ≤ 2 ^ 31 }
    ensures grown { Grown (20 * length a.now + length a.now * (10 * (length a.now + 1))) net.old net.new }
    ensures value { IfOk result (λ r. Divides net.new (length a.now) (length a.now)
        (λ v. size (length a.now) (is_signed ty) (number v net.old a.now))
        (λ v. size (length a.now) (is_signed ty) (number v net.old b.now)) r.quotient.items r.rest.items) }
{
    let x = magnitude(alloc, net, ty, a)?;
    let y = magnitude(alloc, net, ty, b)?;
    let out = divide_sizes(alloc, net, &x, &y)?;
    Ok(out)
}

/// Whether there is a quotient, and whether the type doesn't hold it.
#[derive(Clone, Copy)]
pub struct Judged {
    pub some: Bit,
    pub overflow: Bit,
}

fn judge_quotient(
    alloc: Global,
    net: &mut Net,
    ty: IntType,
    b: &[Bit],
    test: Bit,
    quotient: &[Bit],
) -> Result<Judged, OutOfMemory>
    requires some { 1 < length b.now }
    requires same { length quotient.now ≡ length b.now }
    requires b_in { AreIn net.old b.now }
    requires test_in { IsIn net.old test }
    requires quotient_in { AreIn net.old quotient.now }
    requires room { length net.old + (5 * length b.now + 2) ≤ 2 ^ 31 }
    ensures grown { Grown (5 * length b.now + 2) net.old net.new }
    ensures value { IfOk result (λ r. IsJudged net.old net.new (is_signed ty) b.now quotient.now test r.some
        r.overflow) }
{
    let some = any(net, b)?;
    let far = exceeds(alloc, net, ty, b.len(), test, quotient)?;
    let overflow = net.and(some, far)?;
    Ok(Judged { some, overflow })
}

/// A quotient and its remainder in a type, whether there are any, and whether the type doesn't hold the quotient.
#[derive(Drop)]
pub struct Division {
    pub quotient: Vec<Bit>,
    pub rest: Vec<Bit>,
    pub some: Bit,
    pub overflow: Bit,
}

// both in a type: the quotient rounded towards 0, the remainder with the sign of a
fn divide_in_type(
    alloc: Global,
    net: &mut Net,
    model: DataModel,
    ty: IntType,
    a: &[Bit],
    b: &[Bit],
) -> Result<Division, OutOfMemory>
    requires promoted { promote_of ty ≡ ty }
    requires a_in { AreTyped model ty net.old a.now }
    requires b_in { AreTyped model ty net.old b.now }
    requires room { length net.old + 32 * width_of model ty ^ 2 ≤ 2 ^ 31 }
    ensures grown { Grown (32 * width_of model ty ^ 2) net.old net.new }
    ensures value { IfOk result (λ r. IsDivision model ty net.old net.new a.now b.now r) }
{
    let left = sign(net, ty, a);
    let right = sign(net, ty, b);
    let sizes = divide_magnitudes(alloc, net, ty, a, b)?;
    let test = xor(net, left, right)?;
    let judged = judge_quotient(alloc, net, ty, b, test, &sizes.quotient)?;
    let quotient = with_sign(alloc, net, test, &sizes.quotient)?;
    let rest = with_sign(alloc, net, left, &sizes.rest)?;
    Ok(Division {
        quotient,
        rest,
        some: judged.some,
        overflow: judged.overflow,
    })
}

// both, and their law: quotient * b + rest is a
fn divide_by_law(
    alloc: Global,
    net: &mut Net,
    model: DataModel,
    ty: IntType,
    a: &[Bit],
    b: &[Bit],
) -> Result<Division, OutOfMemory>
    requires promoted { promote_of ty ≡ ty }
    requires a_in { AreTyped model ty net.old a.now }
    requires b_in { AreTyped model ty net.old b.now }
    requires room { length net.old + 32 * width_of model ty ^ 2 ≤ 2 ^ 31 }
    ensures grown { Grown (32 * width_of model ty ^ 2) net.old net.new }
    ensures value { IfOk result (λ r. IsDivision model ty net.old net.new a.now b.now r) }
{
    let out = divide_in_type(alloc, net, model, ty, a, b)?;
    net.note_quotient(a, b, &out.quotient, &out.rest, out.some);
    Ok(out)
}

/// The quotient of two numbers in a type, rounded towards 0.
pub fn divide(
    alloc: Global,
    net: &mut Net,
    model: DataModel,
    ty: IntType,
    a: &[Bit],
    b: &[Bit],
) -> Result<Outcome, OutOfMemory>
    requires promoted { promote_of ty ≡ ty }
    requires a_in { AreTyped model ty net.old a.now }
    requires b_in { AreTyped model ty net.old b.now }
    requires room { length net.old + 32 * width_of model ty ^ 2 ≤ 2 ^ 31 }
    ensures grown { Grown (32 * width_of model ty ^ 2) net.old net.new }
    ensures value { IfOk result (λ r. Gives model ty net.new r
        (λ v. apply_of model Div ty (typed model ty v net.old a.now) (typed model ty v net.old b.now))) }
{
    let out = divide_by_law(alloc, net, model, ty, a, b)?;
    let bits = Seq::from_vec(out.quotient);
    Ok(Outcome {
        value: Bits { bits },
        overflow: out.overflow,
        undefined: not(out.some),
    })
}

/// The remainder of two numbers in a type, with the sign of the first.
pub fn remainder(
    alloc: Global,
    net: &mut Net,
    model: DataModel,
    ty: IntType,
    a: &[Bit],
    b: &[Bit],
) -> Result<Outcome, OutOfMemory>
    requires promoted { promote_of ty ≡ ty }
    requires a_in { AreTyped model ty net.old a.now }
    requires b_in { AreTyped model ty net.old b.now }
    requires room { length net.old + 32 * width_of model ty ^ 2 ≤ 2 ^ 31 }
    ensures grown { Grown (32 * width_of model ty ^ 2) net.old net.new }
    ensures value { IfOk result (λ r. Gives model ty net.new r
        (λ v. apply_of model Rem ty (typed model ty v net.old a.now) (typed model ty v net.old b.now))) }
{
    let out = divide_by_law(alloc, net, model, ty, a, b)?;
    let bits = Seq::from_vec(out.rest);
    Ok(Outcome {
        value: Bits { bits },
        overflow: out.overflow,
        undefined: not(out.some),
    })
}
