// Operands of operations: an expression by itself, or its value on the stack.
ghost use Rattle.std.specs.Prelude.{◌≡◌, ◌+◌, ◌++◌, ◌∷◌, [], length, OnOk, IfOk};
ghost use Rattle.c_core.specs.View.{program_view, expr_view};
ghost use Rattle.c_meaning.specs.Meaning.{Used};
ghost use Rattle.flow_code.specs.Expressions.{code, operator, both_ready};
ghost use Rattle.flow_code.specs.Making.{IsReady, AreReady};
ghost use Rattle.flow_code.specs.Preparing.{prepared, paired, kept, rest};
ghost use Rattle.flow_code.specs.Preparing as preparing;
ghost use Rattle.flow_code.specs.Sizes.{operand_of};
ghost use Rattle.flow_code.specs.declared.code.Then.TheVariants.{Push};

use crate::code::{Action, Into, Op, Operand, Source, Then};
use crate::emit::{emit, give, more, operand_of};
use crate::expressions::expression;
use crate::words::word_of;
use c_core::{BinOp, Expr, IntType, Program, right_type_for, type_for};
use run_state::Around;
use wv_base::{OutOfMemory, Seq};

/// An operand of an operation, and the steps that the operation takes.
#[derive(Clone, Copy)]
pub struct Prepared {
    pub operand: Operand,
    pub steps: u32,
}

/// Two operands of an operation, and the steps that it takes.
#[derive(Clone, Copy)]
pub struct Pair {
    pub left: Operand,
    pub right: Operand,
    pub steps: u32,
}

/// An operand: the expression itself, or its value on top of the stack.
#[cycle(expression)]
pub fn prepare(
    program: &Program,
    ops: &mut Seq<Op>,
    steps: u32,
    around: Around,
    e: &Expr,
) -> Result<Prepared, OutOfMemory>
    ensures { IfOk result (λ q. IsReady q ops.old ops.new
        (prepared (operand_of (expr_view e.now)) steps
        (code (program_view program.now) around (length ops.old) steps Used (expr_view e.now) Push))) }
{
    match operand_of(e) {
        Some(operand) => {
            let steps = more(steps, 1)?;
            Ok(Prepared { operand, steps })
        }
        None => {
            expression(program, ops, steps, around, true, e, Then::Push)?;
            Ok(Prepared {
                operand: Operand::Top,
                steps: 0,
            })
        }
    }
}

// The left operand goes on the stack, unless it is there; the answer is the steps that are left to take behind it.
fn keep_left(ops: &mut Seq<Op>, steps: u32, left: Operand) -> Result<u32, OutOfMemory>
    ensures put { IfOk result (λ n. ops.new ≡ ops.old ++ kept left steps) }
    ensures due { IfOk result (λ n. n ≡ rest left steps) }
{
    match left {
        Operand::Top => Ok(steps),
        _ => {
            give(ops, steps, left, Then::Push)?;
            Ok(0)
        }
    }
}

/// The right operand, where the left one is prepared.
#[cycle(expression)]
pub fn prepare_second(
    program: &Program,
    ops: &mut Seq<Op>,
    steps: u32,
    around: Around,
    left: Operand,
    e: &Expr,
) -> Result<Pair, OutOfMemory>
    ensures { IfOk result (λ q. AreReady q ops.old ops.new
        (paired left steps (operand_of (expr_view e.now))
        (code (program_view program.now) around (length ops.old + length (kept left steps)) (rest left steps) Used
        (expr_view e.now) Push))) }
{
    match operand_of(e) {
        Some(right) => {
            let steps = more(steps, 1)?;
            Ok(Pair { left, right, steps })
        }
        None => {
            let more_steps = keep_left(ops, steps, left)?;
            expression(program, ops, more_steps, around, true, e, Then::Push)?;
            Ok(Pair {
                left: Operand::Top,
                right: Operand::Top,
                steps: 0,
            })
        }
    }
}

/// Both operands.
#[cycle(expression)]
pub fn prepare_both(
    program: &Program,
    ops: &mut Seq<Op>,
    steps: u32,
    around: Around,
    a: &Expr,
    b: &Expr,
) -> Result<Pair, OutOfMemory>
    ensures { IfOk result (λ q. AreReady q ops.old ops.new
        (both_ready (program_view program.now) around (length ops.old) steps (expr_view a.now) (expr_view b.now))) }
{
    let first = prepare(program, ops, steps, around, a)?;
    let pair = prepare_second(program, ops, first.steps, around, first.operand, b)?;
    Ok(pair)
}

/// The operator over prepared operands of these types.
pub fn operate(
    program: &Program,
    ops: &mut Seq<Op>,
    pair: Pair,
    from: Source,
    op: BinOp,
    a: IntType,
    b: IntType,
    into: Into,
) -> Result<(), OutOfMemory>
    ensures { OnOk result (ops.new ≡ ops.old ++ preparing.op pair.steps
        (operator (program_view program.now) from op a b into pair.left pair.right) ∷ []) }
{
    let ty = type_for(program.model, op, a, b);
    let count_type = right_type_for(program.model, op, ty, b);
    let word = word_of(program.model, ty);
    let count = word_of(program.model, count_type);
    emit(
        ops,
        pair.steps,
        Action::Operate {
            op,
            word,
            count,
            left: pair.left,
            right: pair.right,
            from,
            into,
        },
    )?;
    Ok(())
}
