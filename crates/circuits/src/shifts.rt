// Shifts.
ghost use Rattle.std.specs.Prelude.{◌≡◌, ◌+◌, ◌-◌, ◌*◌, ◌/◌, ◌≤◌, ◌<◌, ◌^◌, ◌&&◌, ◌||◌, ◌⊎◌, not, nat_eq, IfOk, length};
ghost use Rattle.c_core.specs.Types.{promote_of, width_of, is_signed};
ghost use Rattle.c_core.specs.Operators.{apply_of};
ghost use Rattle.c_core.specs.declared.number.BinOp.TheVariants.{Shl, Shr};
ghost use Rattle.circuits.specs.Net.{holds, Grown, Means, IsIn};
ghost use Rattle.circuits.specs.Gates.{negative};
ghost use Rattle.circuits.specs.Numbers.{number, digit, typed, AreIn, AreTyped, Counts};
ghost use Rattle.circuits.specs.Outcome.{Gives};

use crate::conversions::constant;
use crate::gates::or;
use crate::lists::{any, choose, copied, joined, zeros};
use crate::signs::{complemented, sign};
use crate::{Bit, Bits, Net, Outcome, not};
use c_core::{DataModel, IntType, signed};
use std::alloc::Global;
use wv_base::{OutOfMemory, Seq};

// a times 2^n where the test is true, else a; n digits longer
fn raised(
    alloc: Global,
    net: &mut Net,
    test: Bit,
    a: &[Bit],
    n: usize,
) -> Result<Vec<Bit>, OutOfMemory>
    requires test_in { IsIn net.old test }
    requires a_in { AreIn net.old a.now }
    requires room { length net.old + 3 * (length a.now + n) ≤ 2 ^ 31 }
    ensures grown { Grown (3 * (length a.now + n)) net.old net.new }
    ensures value { IfOk result (λ r. Counts net.new r.items (length a.now + n)
        (λ v. number v net.old a.now * 2 ^ (n * digit (holds v net.old test)))) }
{
    let gap = zeros(alloc, net, n)?;
    let moved = joined(alloc, &gap, a)?;
    let kept = joined(alloc, a, &gap)?;
    let out = choose(alloc, net, test, &moved, &kept)?;
    Ok(out)
}

// a divided by 2^n where the test is true, else a
fn lowered(
    alloc: Global,
    net: &mut Net,
    test: Bit,
    a: &[Bit],
    n: usize,
) -> Result<Vec<Bit>, OutOfMemory>
    requires test_in { IsIn net.old test }
    requires a_in { AreIn net.old a.now }
    requires within { n ≤ length a.now }
    requires room { length net.old + 3 * length a.now ≤ 2 ^ 31 }
    ensures grown { Grown (3 * length a.now) net.old net.new }
    ensures value { IfOk result (λ r. Counts net.new r.items (length a.now)
        (λ v. number v net.old a.now / 2 ^ (n * digit (holds v net.old test)))) }
{
    let gap = zeros(alloc, net, n)?;
    let moved = joined(alloc, &a[n..], &gap)?;
    let out = choose(alloc, net, test, &moved, a)?;
    Ok(out)
}

/// a times 2^k, k being the number of the tests, exactly.
fn raised_by(
    alloc: Global,
    net: &mut Net,
    a: &[Bit],
    tests: &[Bit],
) -> Result<Vec<Bit>, OutOfMemory>
    requires few { length tests.now ≤ 6 }
    requires short { length a.now ≤ 64 }
    requires a_in { AreIn net.old a.now }
    requires tests_in { AreIn net.old tests.now }
    requires room { length net.old + length tests.now * (3 * (length a.now + 2 ^ length tests.now)) ≤ 2 ^ 31 }
    ensures grown { Grown (length tests.now * (3 * (length a.now + 2 ^ length tests.now))) net.old net.new }
    ensures value { IfOk result (λ r. Counts net.new r.items (length a.now + 2 ^ length tests.now - 1)
        (λ v. number v net.old a.now * 2 ^ number v net.old tests.now)) }
{
    let mut places = 1;
    let mut out = copied(alloc, a)?;
    for i in 0..tests.len() {
        out = raised(alloc, net, tests[i], &out, places)?;
        places *= 2;
    }
    Ok(out)
}

/// a divided by 2^k, k being the number of the tests, rounded down.
fn lowered_by(
    alloc: Global,
    net: &mut Net,
    a: &[Bit],
    tests: &[Bit],
) -> Result<Vec<Bit>, OutOfMemory>
    requires few { length tests.now ≤ 6 }
    requires within { 2 ^ length tests.now ≤ length a.now }
    requires a_in { AreIn net.old a.now }
    requires tests_in { AreIn net.old tests.now }
    requires room { length net.old + length tests.now * (3 * length a.now) ≤ 2 ^ 31 }
    ensures grown { Grown (length tests.now * (3 * length a.now)) net.old net.new }
    ensures value { IfOk result (λ r. Counts net.new r.items (length a.now)
        (λ v. number v net.old a.now / 2 ^ number v net.old tests.now)) }
{
    let mut places = 1;
    let mut out = copied(alloc, a)?;
    for i in 0..tests.len() {
        out = lowered(alloc, net, tests[i], &out, places)?;
        places *= 2;
    }
    Ok(out)
}

// how many digits of a count tell a place among w digits
fn count_digits(w: usize) -> usize
    requires { (w ≡ 32) ⊎ (w ≡ 64) }
    ensures power { 2 ^ result ≡ w }
    ensures few { result ≤ 6 }
{
    if w == 64 { 6 } else { 5 }
}

// whether a shift to the left that gave these digits lost something in a signed type
fn loses(net: &mut Net, ty: IntType, a: &[Bit], moved: &[Bit]) -> Result<Bit, OutOfMemory>
    requires some { 0 < length a.now }
    requires a_in { AreIn net.old a.now }
    requires within { length a.now ≤ length moved.now }
    requires short { length moved.now < 2 * length a.now }
    requires moved_in { AreIn net.old moved.now }
    requires room { length net.old + (length a.now + 2) ≤ 2 ^ 31 }
    ensures grown { Grown (length a.now + 2) net.old net.new }
    ensures value { IfOk result (λ r. Means net.new r
        (λ v. is_signed ty && (negative (length a.now) (is_signed ty) (number v net.old a.now) || not
        (nat_eq (number v net.old moved.now / 2 ^ (length a.now - 1)) 0)))) }
{
    let minus = sign(net, ty, a);
    let some = any(net, &moved[a.len() - 1..])?;
    let lost = or(net, minus, some)?;
    let kind = constant(net, signed(ty));
    let out = net.and(kind, lost)?;
    Ok(out)
}

/// The number times two to the power of a count, which may have a type of its own.
pub fn shift_left(
    alloc: Global,
    net: &mut Net,
    model: DataModel,
    ty: IntType,
    a: &[Bit],
    right: IntType,
    b: &[Bit],
) -> Result<Outcome, OutOfMemory>
    requires promoted { promote_of ty ≡ ty }
    requires right_promoted { promote_of right ≡ right }
    requires a_in { AreTyped model ty net.old a.now }
    requires b_in { AreTyped model right net.old b.now }
    requires room { length net.old + 64 * width_of model ty ≤ 2 ^ 31 }
    ensures grown { Grown (64 * width_of model ty) net.old net.new }
    ensures value { IfOk result (λ r. Gives model ty net.new r
        (λ v. apply_of model Shl ty (typed model ty v net.old a.now) (typed model right v net.old b.now))) }
{
    let k = count_digits(a.len());
    let far = any(net, &b[k..])?;
    let mut moved = raised_by(alloc, net, a, &b[..k])?;
    let lost = loses(net, ty, a, &moved)?;
    let overflow = net.and(not(far), lost)?;
    moved.truncate(a.len());
    let bits = Seq::from_vec(moved);
    Ok(Outcome {
        value: Bits { bits },
        overflow,
        undefined: far,
    })
}

/// The number divided by two to the power of a count and rounded down.
pub fn shift_right(
    alloc: Global,
    net: &mut Net,
    model: DataModel,
    ty: IntType,
    a: &[Bit],
    right: IntType,
    b: &[Bit],
) -> Result<Outcome, OutOfMemory>
    requires promoted { promote_of ty ≡ ty }
    requires right_promoted { promote_of right ≡ right }
    requires a_in { AreTyped model ty net.old a.now }
    requires b_in { AreTyped model right net.old b.now }
    requires room { length net.old + 64 * width_of model ty ≤ 2 ^ 31 }
    ensures grown { Grown (64 * width_of model ty) net.old net.new }
    ensures value { IfOk result (λ r. Gives model ty net.new r
        (λ v. apply_of model Shr ty (typed model ty v net.old a.now) (typed model right v net.old b.now))) }
{
    let k = count_digits(a.len());
    let never = not(net.yes());
    let minus = sign(net, ty, a);
    let far = any(net, &b[k..])?;
    let size = complemented(alloc, net, minus, a)?;
    let moved = lowered_by(alloc, net, &size, &b[..k])?;
    let value = complemented(alloc, net, minus, &moved)?;
    let bits = Seq::from_vec(value);
    Ok(Outcome {
        value: Bits { bits },
        overflow: never,
        undefined: far,
    })
}
