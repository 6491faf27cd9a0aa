// The code of expressions. `steps` are those that the expression's first operation takes besides its own.
ghost use Rattle.std.specs.Prelude.{◌≡◌, ◌++◌, length, None, Some, OnOk};
ghost use Rattle.c_core.specs.Tree as t;
ghost use Rattle.c_core.specs.View.{program_view, expr_view, exprs_view};
ghost use Rattle.c_meaning.specs.Meaning.{Used};
ghost use Rattle.run_state.specs.Interpreting.{use_of};
ghost use Rattle.flow_code.specs.Expressions.{code, node_code};
ghost use Rattle.flow_code.specs.Preparing as preparing;

use crate::calls::call;
use crate::choices::{choose, logic};
use crate::code::{Action, Into, Op, Operand, Source, Then};
use crate::elements::element_cell;
use crate::emit::{emit, give, more, only};
use crate::operands::{operate, prepare, prepare_both};
use crate::targets::{assign, step};
use crate::words::{native, word_of};
use c_core::{BinOp, Expr, IntType, Node, Program, Spot, UnOp, promote};
use c_meaning::{size_of_object, type_of};
use run_state::Around;
use wv_base::{OutOfMemory, Seq};

/// Evaluates an expression; its value goes where it is said.
#[cycle(expression)]
pub fn expression(
    program: &Program,
    ops: &mut Seq<Op>,
    steps: u32,
    around: Around,
    used: bool,
    e: &Expr,
    then: Then,
) -> Result<(), OutOfMemory>
    ensures { OnOk result (ops.new ≡ ops.old ++ code (program_view program.now) around (length ops.old) steps
        (use_of used) (expr_view e.now) then) }
{
    let sum = more(steps, 1)?;
    match &e.node {
        Node::Const(value) => give(ops, sum, Operand::Number(*value), then),
        Node::Var(object) => give(ops, sum, Operand::Cell(*object), then),
        Node::Index { object, at } => element(
            program,
            ops,
            sum,
            around,
            e.spot,
            *object,
            at.as_slice(),
            then,
        ),
        Node::Unary { op, of } => unary(program, ops, sum, around, e.spot, *op, of, then),
        Node::Cast(of) => cast(program, ops, sum, around, e.ty, of, then),
        Node::Step { op, target } => step(program, ops, sum, around, e.spot, *op, target, then),
        Node::Binary { op, left, right } => binary(
            program,
            ops,
            sum,
            around,
            e.spot,
            *op,
            left,
            right,
            only(then),
        ),
        Node::Logic { both, left, right } => {
            logic(program, ops, sum, around, *both, left, right, then)
        }
        Node::Choose {
            mark,
            test,
            yes,
            no,
        } => choose(program, ops, sum, around, e.ty, *mark, test, yes, no, then),
        Node::Comma { first, last } => comma(program, ops, sum, around, first, last, then),
        Node::Assign { op, target, from } => assign(
            program, ops, sum, around, e.spot, *op, target, from, then,
        ),
        Node::Call {
            callee,
            args,
            close,
        } => call(
            program,
            ops,
            sum,
            around,
            used,
            e.spot,
            e.ty,
            *callee,
            args.as_slice(),
            *close,
            then,
        ),
    }
}

/// A binary operator, whose value may be stored at once.
#[cycle(expression)]
pub fn binary(
    program: &Program,
    ops: &mut Seq<Op>,
    steps: u32,
    around: Around,
    spot: Spot,
    op: BinOp,
    left: &Expr,
    right: &Expr,
    into: Into,
) -> Result<(), OutOfMemory>
    ensures { OnOk result (ops.new ≡ ops.old ++ node_code (program_view program.now) around (length ops.old) steps Used
        spot None (t.Binary op (expr_view left.now) (expr_view right.now)) into) }
{
    let pair = prepare_both(program, ops, steps, around, left, right)?;
    let from = Source { around, spot };
    let a = type_of(left);
    let b = type_of(right);
    operate(program, ops, pair, from, op, a, b, into)?;
    Ok(())
}

#[cycle(expression)]
fn element(
    program: &Program,
    ops: &mut Seq<Op>,
    steps: u32,
    around: Around,
    spot: Spot,
    object: u32,
    indexes: &[Expr],
    then: Then,
) -> Result<(), OutOfMemory>
    ensures { OnOk result (ops.new ≡ ops.old ++ node_code (program_view program.now) around (length ops.old) steps Used
        spot None (t.Index object (exprs_view indexes.now)) (preparing.only then)) }
{
    let found = element_cell(program, ops, steps, around, spot, object, indexes)?;
    let size = size_of_object(program, object);
    let into = only(then);
    emit(
        ops,
        found.steps,
        Action::Look {
            object,
            size,
            index: found.operand,
            spot,
            into,
        },
    )?;
    Ok(())
}

#[cycle(expression)]
fn unary(
    program: &Program,
    ops: &mut Seq<Op>,
    steps: u32,
    around: Around,
    spot: Spot,
    op: UnOp,
    of: &Expr,
    then: Then,
) -> Result<(), OutOfMemory>
    ensures { OnOk result (ops.new ≡ ops.old ++ node_code (program_view program.now) around (length ops.old) steps Used
        spot None (t.Unary op (expr_view of.now)) (preparing.only then)) }
{
    let value = prepare(program, ops, steps, around, of)?;
    let ty = type_of(of);
    let promoted = promote(program.model, ty);
    let word = word_of(program.model, promoted);
    let into = only(then);
    emit(
        ops,
        value.steps,
        Action::OperateOne {
            op,
            word,
            of: value.operand,
            from: Source { around, spot },
            into,
        },
    )?;
    Ok(())
}

// A cast to void only evaluates.
#[cycle(expression)]
fn cast(
    program: &Program,
    ops: &mut Seq<Op>,
    steps: u32,
    around: Around,
    ty: Option<IntType>,
    of: &Expr,
    then: Then,
) -> Result<(), OutOfMemory>
    ensures { OnOk result (ops.new ≡ ops.old ++ node_code (program_view program.now) around (length ops.old) steps Used
        around.full ty (t.Cast (expr_view of.now)) (preparing.only then)) }
{
    match ty {
        None => expression(program, ops, steps, around, false, of, then),
        Some(to) => cast_to(program, ops, steps, around, to, of, then),
    }
}

#[cycle(expression)]
fn cast_to(
    program: &Program,
    ops: &mut Seq<Op>,
    steps: u32,
    around: Around,
    to: IntType,
    of: &Expr,
    then: Then,
) -> Result<(), OutOfMemory>
    ensures { OnOk result (ops.new ≡ ops.old ++ node_code (program_view program.now) around (length ops.old) steps Used
        around.full (Some to) (t.Cast (expr_view of.now)) (preparing.only then)) }
{
    let value = prepare(program, ops, steps, around, of)?;
    let ty = native(program.model, to);
    let into = only(then);
    emit(
        ops,
        value.steps,
        Action::Convert {
            ty,
            of: value.operand,
            into,
        },
    )?;
    Ok(())
}

#[cycle(expression)]
fn comma(
    program: &Program,
    ops: &mut Seq<Op>,
    steps: u32,
    around: Around,
    first: &Expr,
    last: &Expr,
    then: Then,
) -> Result<(), OutOfMemory>
    ensures { OnOk result (ops.new ≡ ops.old ++ node_code (program_view program.now) around (length ops.old) steps Used
        around.full None (t.Comma (expr_view first.now) (expr_view last.now)) (preparing.only then)) }
{
    expression(program, ops, steps, around, false, first, Then::Drop)?;
    expression(program, ops, 0, around, true, last, then)
}
