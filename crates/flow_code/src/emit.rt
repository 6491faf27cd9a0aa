// Operations are appended to a list.
ghost use Rattle.std.specs.Prelude.{◌≡◌, ◌+◌, ◌++◌, ◌∷◌, [], length, OnOk, IfOk};
ghost use Rattle.c_core.specs.View.{expr_view};
ghost use Rattle.flow_code.specs.Preparing.{op};
ghost use Rattle.flow_code.specs.Preparing as preparing;
ghost use Rattle.flow_code.specs.Sizes as sizes;

use crate::code::{Action, Into, Op, Operand, Then};
use c_core::{Expr, Node};
use wv_base::{OutOfMemory, Seq};

/// Appends an operation.
pub fn emit(ops: &mut Seq<Op>, steps: u32, action: Action) -> Result<(), OutOfMemory>
    ensures { OnOk result (ops.new ≡ ops.old ++ op steps action ∷ []) }
{
    ops.push(Op { steps, action })?;
    Ok(())
}

/// A sum, unless no code is as long.
pub fn more(count: u32, by: u32) -> Result<u32, OutOfMemory>
    ensures { IfOk result (λ n. n ≡ count + by) }
{
    match count.checked_add(by) {
        Some(sum) => Ok(sum),
        None => Err(OutOfMemory),
    }
}

/// A count, unless no code has as many.
pub fn counted(count: usize) -> Result<u32, OutOfMemory>
    ensures { IfOk result (λ n. n ≡ count) }
{
    match u32::try_from(count) {
        Ok(number) => Ok(number),
        Err(_) => Err(OutOfMemory),
    }
}

/// The address behind the end.
pub fn here(ops: &Seq<Op>) -> Result<u32, OutOfMemory>
    ensures { IfOk result (λ n. n ≡ length ops.now) }
{
    let count = counted(ops.len())?;
    Ok(count)
}

/// The address so many operations behind the end.
pub fn ahead(ops: &Seq<Op>, by: u32) -> Result<u32, OutOfMemory>
    ensures { IfOk result (λ n. n ≡ length ops.now + by) }
{
    let count = here(ops)?;
    let sum = more(count, by)?;
    Ok(sum)
}

/// 1 where something is there.
pub fn one_if(there: bool) -> u32
    ensures { result ≡ sizes.one_if there }
{
    if there { 1 } else { 0 }
}

/// A value that is stored nowhere.
pub fn only(then: Then) -> Into
    ensures { result ≡ preparing.only then }
{
    Into { store: None, then }
}

/// The operand that an expression is by itself, if it is one.
pub fn operand_of(e: &Expr) -> Option<Operand>
    ensures { result ≡ sizes.operand_of (expr_view e.now) }
{
    match &e.node {
        Node::Const(value) => Some(Operand::Number(*value)),
        Node::Var(object) => Some(Operand::Cell(*object)),
        _ => None,
    }
}

/// An operand goes where it is said.
pub fn give(ops: &mut Seq<Op>, steps: u32, from: Operand, then: Then) -> Result<(), OutOfMemory>
    ensures { OnOk result (ops.new ≡ ops.old ++ preparing.give steps from then ∷ []) }
{
    let into = only(then);
    emit(ops, steps, Action::Give { from, into })?;
    Ok(())
}
