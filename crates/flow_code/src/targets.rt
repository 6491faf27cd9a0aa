// The code of targets, and of values that are stored in them.
ghost use Rattle.std.specs.Prelude.{◌≡◌, ◌++◌, length, not, None, Some, OnOk, IfOk};
ghost use Rattle.c_core.specs.Operators as operators;
ghost use Rattle.c_core.specs.Tree as t;
ghost use Rattle.c_core.specs.View.{program_view, expr_view, node_view};
ghost use Rattle.c_meaning.specs.Meaning.{Used};
ghost use Rattle.flow_code.specs.Expressions.{node_code, aim_code, stored_code, place_of};
ghost use Rattle.flow_code.specs.Making.{IsReady};
ghost use Rattle.flow_code.specs.Preparing as preparing;
ghost use Rattle.flow_code.specs.Preparing.{stored_in};
ghost use Rattle.flow_code.specs.Words as words;

use crate::code::{Action, Into, Op, Operand, Place, Source, Store, Then};
use crate::elements::element_cell;
use crate::emit::{emit, more};
use crate::expressions::binary;
use crate::operands::{Pair, Prepared, operate, prepare, prepare_second};
use crate::words::native;
use c_core::{BinOp, DataModel, Expr, IntType, Node, Program, Spot, StepOp, op_of_step};
use c_meaning::{size_of_object, type_of};
use run_state::Around;
use wv_base::{OutOfMemory, Seq};

/// A value that is stored, and then goes on.
#[cycle(expression)]
pub fn stored(
    program: &Program,
    ops: &mut Seq<Op>,
    steps: u32,
    around: Around,
    e: &Expr,
    into: Into,
) -> Result<(), OutOfMemory>
    ensures { OnOk result (ops.new ≡ ops.old ++ stored_code (program_view program.now) around (length ops.old) steps
        (expr_view e.now) into) }
{
    match &e.node {
        Node::Binary { op, left, right } => {
            let sum = more(steps, 1)?;
            binary(program, ops, sum, around, e.spot, *op, left, right, into)
        }
        _ => {
            let value = prepare(program, ops, steps, around, e)?;
            let from = value.operand;
            emit(ops, value.steps, Action::Give { from, into })?;
            Ok(())
        }
    }
}

// The cell of a target; the index of an element is on the stack.
fn place_in(target: &Expr) -> Place
    ensures { result ≡ place_of (node_view target.now.node) }
{
    match &target.node {
        Node::Index { object, .. } => Place::Element(*object),
        Node::Var(object) => Place::Fixed(*object, 0),
        // no target of a checked program
        _ => Place::Fixed(0, 0),
    }
}

// A target: its element is found, which puts the index on the stack, and the element's value where it is read.
#[cycle(expression)]
fn aim(
    program: &Program,
    ops: &mut Seq<Op>,
    steps: u32,
    around: Around,
    target: &Expr,
    reads: bool,
) -> Result<Prepared, OutOfMemory>
    ensures { IfOk result (λ q. IsReady q ops.old ops.new
        (aim_code (program_view program.now) around (length ops.old) steps (expr_view target.now) reads)) }
{
    let sum = more(steps, 1)?;
    match &target.node {
        Node::Index { object, at } => {
            let indexes = at.as_slice();
            let found = element_cell(program, ops, sum, around, target.spot, *object, indexes)?;
            let size = size_of_object(program, *object);
            emit(
                ops,
                found.steps,
                Action::Aim {
                    object: *object,
                    size,
                    index: found.operand,
                    spot: target.spot,
                    reads,
                },
            )?;
            Ok(Prepared {
                operand: Operand::Top,
                steps: 0,
            })
        }
        Node::Var(object) => Ok(Prepared {
            operand: Operand::Cell(*object),
            steps: sum,
        }),
        // no target of a checked program
        _ => Ok(Prepared {
            operand: Operand::Cell(0),
            steps: sum,
        }),
    }
}

// A value that is stored, as the target's type has it.
fn into_place(model: DataModel, place: Place, ty: IntType, old: bool, then: Then) -> Into
    ensures { result ≡ stored_in place (words.native model ty) old then }
{
    let ty = native(model, ty);
    Into {
        store: Some(Store { place, ty, old }),
        then,
    }
}

/// An assignment; with an operator it reads the target first.
#[cycle(expression)]
pub fn assign(
    program: &Program,
    ops: &mut Seq<Op>,
    steps: u32,
    around: Around,
    spot: Spot,
    op: Option<BinOp>,
    target: &Expr,
    from: &Expr,
    then: Then,
) -> Result<(), OutOfMemory>
    ensures { OnOk result (ops.new ≡ ops.old ++ node_code (program_view program.now) around (length ops.old) steps Used
        spot None (t.Assign op (expr_view target.now) (expr_view from.now)) (preparing.only then)) }
{
    match op {
        None => replace(program, ops, steps, around, target, from, then),
        Some(op) => update(program, ops, steps, around, spot, op, target, from, then),
    }
}

#[cycle(expression)]
fn replace(
    program: &Program,
    ops: &mut Seq<Op>,
    steps: u32,
    around: Around,
    target: &Expr,
    from: &Expr,
    then: Then,
) -> Result<(), OutOfMemory>
    ensures { OnOk result (ops.new ≡ ops.old ++ node_code (program_view program.now) around (length ops.old) steps Used
        around.full None (t.Assign None (expr_view target.now) (expr_view from.now)) (preparing.only then)) }
{
    let found = aim(program, ops, steps, around, target, false)?;
    let place = place_in(target);
    let ty = type_of(target);
    let into = into_place(program.model, place, ty, false, then);
    stored(program, ops, found.steps, around, from, into)?;
    Ok(())
}

#[cycle(expression)]
fn update(
    program: &Program,
    ops: &mut Seq<Op>,
    steps: u32,
    around: Around,
    spot: Spot,
    op: BinOp,
    target: &Expr,
    from: &Expr,
    then: Then,
) -> Result<(), OutOfMemory>
    ensures { OnOk result (ops.new ≡ ops.old ++ node_code (program_view program.now) around (length ops.old) steps Used
        spot None (t.Assign (Some op) (expr_view target.now) (expr_view from.now)) (preparing.only then)) }
{
    let old = aim(program, ops, steps, around, target, true)?;
    let pair = prepare_second(program, ops, old.steps, around, old.operand, from)?;
    let place = place_in(target);
    let a = type_of(target);
    let b = type_of(from);
    let into = into_place(program.model, place, a, false, then);
    let source = Source { around, spot };
    operate(program, ops, pair, source, op, a, b, into)?;
    Ok(())
}

// The old value goes on behind a step that follows its operand.
fn keeps_old(op: StepOp) -> bool
    ensures { result ≡ not (operators.is_prefix op) }
{
    match op {
        StepOp::PreInc => false,
        StepOp::PreDec => false,
        StepOp::PostInc => true,
        StepOp::PostDec => true,
    }
}

/// `++` and `--`.
#[cycle(expression)]
pub fn step(
    program: &Program,
    ops: &mut Seq<Op>,
    steps: u32,
    around: Around,
    spot: Spot,
    op: StepOp,
    target: &Expr,
    then: Then,
) -> Result<(), OutOfMemory>
    ensures { OnOk result (ops.new ≡ ops.old ++ node_code (program_view program.now) around (length ops.old) steps Used
        spot None (t.Step op (expr_view target.now)) (preparing.only then)) }
{
    let old = aim(program, ops, steps, around, target, true)?;
    let place = place_in(target);
    let a = type_of(target);
    let keeps = keeps_old(op);
    let by = op_of_step(op);
    let into = into_place(program.model, place, a, keeps, then);
    let pair = Pair {
        left: old.operand,
        right: Operand::Number(1),
        steps: old.steps,
    };
    let source = Source { around, spot };
    operate(program, ops, pair, source, by, a, IntType::Int, into)?;
    Ok(())
}
