// The value of a comparison by known orders: by the ranges that they give, or of numbers that are a constant more.
ghost use Rattle.std.specs.Prelude.{◌≡◌, ℕ, Bool, ◌+◌, ◌%◌, ◌^◌, ◌≤◌, ◌<◌, nat_lt, IfOk, IfSome, List};
ghost use Rattle.polynomials.specs.Values.{value};
ghost use Rattle.circuits.specs.declared.net.Bit.{Bit};
ghost use Rattle.circuits.specs.declared.net.NetNode.{NetNode};
ghost use Rattle.circuits.specs.Facts.{Condition};
ghost use Rattle.circuits.specs.Ranges.{IsWithin};
ghost use Rattle.circuits.specs.Inequalities.{AreKnown, IsKnown, IsShifted, IsValueWhere, IsWithinWhere};

use crate::inequalities::{Known, is_more_by, offset};
use crate::ranges::{Range, all_below, both, moved, only, wraps};
use polynomials::{Polynomial, masked};
use std::alloc::Global;
use wv_base::OutOfMemory;

/// Which of two polynomials is less is asked, both modulo 2^width.
#[derive(Drop)]
pub struct Comparison {
    pub width: u32,
    pub lesser: Polynomial,
    pub greater: Polynomial,
}

// orders are looked into so deep for the range of a number
const DEPTH: u32 = 2;

// the range of a polynomial by itself
fn own_range(width: u32, polynomial: &Polynomial) -> Range
    requires { width ≤ 64 }
    ensures { (v : ℕ → ℕ) → IsWithin result (value v polynomial.now % 2 ^ width) }
{
    match polynomial.as_constant() {
        Some(constant) => only(masked(width, constant)),
        None => all_below(width),
    }
}

// where a number is, if another is in a range, than which it is less or isn't
fn below(width: u32, range: Range, is_less: bool) -> Range
    requires { width ≤ 64 }
    ensures { (x y : ℕ) → IsWithin range y → x < 2 ^ width → nat_lt x y ≡ is_less → IsWithin result x }
{
    if is_less {
        return Range {
            least: 0,
            most: range.most.saturating_sub(1),
        };
    }
    Range {
        least: range.least,
        most: all_below(width).most,
    }
}

// where a number is, if another is in a range, which is less or isn't
fn above(width: u32, range: Range, is_less: bool) -> Range
    requires { width ≤ 64 }
    ensures { (x y : ℕ) → IsWithin range x → y < 2 ^ width → nat_lt x y ≡ is_less → IsWithin result y }
{
    let all = all_below(width);
    if !is_less {
        return Range {
            least: 0,
            most: range.most,
        };
    }
    if range.least >= all.most {
        return all;
    }
    Range {
        least: range.least + 1,
        most: all.most,
    }
}

// the range of a polynomial modulo 2^width that the orders of just this number give
fn plain_range(
    alloc: Global,
    known: &[Known],
    depth: u32,
    width: u32,
    polynomial: &Polynomial,
) -> Result<Range, OutOfMemory>
    requires { width ≤ 64 }
    ensures { IfOk result (λ r. (net : List NetNode) (words : List (List Bit)) (here : Condition)
        → AreKnown net words here known.now → IsWithinWhere net words here width polynomial.now r) }
{
    let mut range = own_range(width, polynomial);
    if depth == 0 || range.least == range.most {
        return Ok(range);
    }
    for at in 0..known.len() {
        let order = &known[at];
        if order.width == width {
            if is_more_by(alloc, width, 0, polynomial, &order.lesser)? {
                let other = plain_range(alloc, known, depth - 1, width, &order.greater)?;
                range = both(range, below(width, other, order.is_less));
            } else if is_more_by(alloc, width, 0, polynomial, &order.greater)? {
                let other = plain_range(alloc, known, depth - 1, width, &order.lesser)?;
                range = both(range, above(width, other, order.is_less));
            }
        }
    }
    Ok(range)
}

// the range of a polynomial that is another and a constant
fn moved_range(
    alloc: Global,
    known: &[Known],
    width: u32,
    polynomial: &Polynomial,
    other: &Polynomial,
) -> Result<Range, OutOfMemory>
    requires { width ≤ 64 }
    ensures { IfOk result (λ r. (net : List NetNode) (words : List (List Bit)) (here : Condition)
        → AreKnown net words here known.now → IsWithinWhere net words here width polynomial.now r) }
{
    match offset(alloc, width, polynomial, other)? {
        Some(by) if by != 0 => {
            let range = plain_range(alloc, known, DEPTH, width, other)?;
            Ok(moved(width, range, by))
        }
        _ => Ok(all_below(width)),
    }
}

// the range of a polynomial modulo 2^width that known orders give
fn range_of(
    alloc: Global,
    known: &[Known],
    width: u32,
    polynomial: &Polynomial,
) -> Result<Range, OutOfMemory>
    requires { width ≤ 64 }
    ensures { IfOk result (λ r. (net : List NetNode) (words : List (List Bit)) (here : Condition)
        → AreKnown net words here known.now → IsWithinWhere net words here width polynomial.now r) }
{
    let mut range = plain_range(alloc, known, DEPTH, width, polynomial)?;
    for at in 0..known.len() {
        let order = &known[at];
        if order.width == width && range.least != range.most {
            let first = moved_range(alloc, known, width, polynomial, &order.lesser)?;
            let second = moved_range(alloc, known, width, polynomial, &order.greater)?;
            range = both(range, both(first, second));
        }
    }
    Ok(range)
}

// what one number is more than another, and 2^width, where both are modulo 2^width
fn shift(
    alloc: Global,
    known: &[Known],
    width: u32,
    p: &Polynomial,
    q: &Polynomial,
) -> Result<Option<u128>, OutOfMemory>
    requires { width ≤ 64 }
    ensures { IfOk result (λ r. IfSome r (λ by. (net : List NetNode) (words : List (List Bit)) (here : Condition)
        → AreKnown net words here known.now → IsShifted net words here width p.now q.now by)) }
{
    let Some(by) = offset(alloc, width, p, q)? else {
        return Ok(None);
    };
    let whole = u128::from(all_below(width).most) + 1;
    if by == 0 {
        return Ok(Some(whole));
    }
    let range = plain_range(alloc, known, DEPTH, width, q)?;
    match wraps(width, range, by) {
        Some(true) => Ok(Some(u128::from(by))),
        Some(false) => Ok(Some(u128::from(by) + whole)),
        None => Ok(None),
    }
}

// by an order of numbers of which each is a constant less or more
fn value_beside(
    alloc: Global,
    known: &[Known],
    asked: &Comparison,
    order: &Known,
) -> Result<Option<bool>, OutOfMemory>
    requires narrow { asked.now.width ≤ 64 }
    requires same { order.now.width ≡ asked.now.width }
    ensures { IfOk result (λ r. IfSome r (λ is. (net : List NetNode) (words : List (List Bit)) (here : Condition)
        → AreKnown net words here known.now → IsKnown net words here order.now
        → IsValueWhere net words here asked.now.width asked.now.lesser asked.now.greater is)) }
{
    let width = asked.width;
    let Some(first) = shift(alloc, known, width, &asked.lesser, &order.lesser)? else {
        return Ok(None);
    };
    let Some(second) = shift(alloc, known, width, &asked.greater, &order.greater)? else {
        return Ok(None);
    };
    if order.is_less && first <= second {
        return Ok(Some(true));
    }
    if !order.is_less && second <= first {
        return Ok(Some(false));
    }
    Ok(None)
}

// by an order of numbers of which each is a constant less or more, the other way round
fn value_across(
    alloc: Global,
    known: &[Known],
    asked: &Comparison,
    order: &Known,
) -> Result<Option<bool>, OutOfMemory>
    requires narrow { asked.now.width ≤ 64 }
    requires same { order.now.width ≡ asked.now.width }
    ensures { IfOk result (λ r. IfSome r (λ is. (net : List NetNode) (words : List (List Bit)) (here : Condition)
        → AreKnown net words here known.now → IsKnown net words here order.now
        → IsValueWhere net words here asked.now.width asked.now.lesser asked.now.greater is)) }
{
    let width = asked.width;
    let Some(first) = shift(alloc, known, width, &asked.lesser, &order.greater)? else {
        return Ok(None);
    };
    let Some(second) = shift(alloc, known, width, &asked.greater, &order.lesser)? else {
        return Ok(None);
    };
    if order.is_less && second.saturating_sub(1) <= first {
        return Ok(Some(false));
    }
    if !order.is_less && first < second {
        return Ok(Some(true));
    }
    Ok(None)
}

// by the ranges of both numbers
fn value_by_ranges(
    alloc: Global,
    known: &[Known],
    asked: &Comparison,
) -> Result<Option<bool>, OutOfMemory>
    requires { asked.now.width ≤ 64 }
    ensures { IfOk result (λ r. IfSome r (λ is. (net : List NetNode) (words : List (List Bit)) (here : Condition)
        → AreKnown net words here known.now
        → IsValueWhere net words here asked.now.width asked.now.lesser asked.now.greater is)) }
{
    let lesser = range_of(alloc, known, asked.width, &asked.lesser)?;
    let greater = range_of(alloc, known, asked.width, &asked.greater)?;
    if lesser.most < greater.least {
        return Ok(Some(true));
    }
    if greater.most <= lesser.least {
        return Ok(Some(false));
    }
    Ok(None)
}

/// The value of a comparison wherever orders are known, if the constants in them tell it.
pub fn value_by(
    alloc: Global,
    known: &[Known],
    asked: &Comparison,
) -> Result<Option<bool>, OutOfMemory>
    requires { asked.now.width ≤ 64 }
    ensures { IfOk result (λ r. IfSome r (λ is. (net : List NetNode) (words : List (List Bit)) (here : Condition)
        → AreKnown net words here known.now
        → IsValueWhere net words here asked.now.width asked.now.lesser asked.now.greater is)) }
{
    if let Some(is) = value_by_ranges(alloc, known, asked)? {
        return Ok(Some(is));
    }
    // (what is known of a constant is in the range of the other number)
    if asked.lesser.as_constant().is_some() || asked.greater.as_constant().is_some() {
        return Ok(None);
    }
    for at in 0..known.len() {
        let order = &known[at];
        if order.width == asked.width {
            if let Some(is) = value_beside(alloc, known, asked, order)? {
                return Ok(Some(is));
            }
            if let Some(is) = value_across(alloc, known, asked, order)? {
                return Ok(Some(is));
            }
        }
    }
    Ok(None)
}
