// The code of `&&`, `||` and conditionals.
ghost use Rattle.std.specs.Prelude.{◌≡◌, ◌++◌, ◌∷◌, [], length, None, OnOk};
ghost use Rattle.c_core.specs.Tree as t;
ghost use Rattle.c_core.specs.View.{program_view, expr_view};
ghost use Rattle.c_meaning.specs.Meaning.{Used};
ghost use Rattle.flow_code.specs.Expressions.{code, node_code, conditional_arm};
ghost use Rattle.flow_code.specs.Expressions as spec;
ghost use Rattle.flow_code.specs.Preparing.{with_operand};
ghost use Rattle.flow_code.specs.Preparing as preparing;
ghost use Rattle.flow_code.specs.Sizes.{operand_of};
ghost use Rattle.flow_code.specs.declared.code.Action.TheVariants.{Truth};
ghost use Rattle.flow_code.specs.declared.code.Then.TheVariants.{Push};

use crate::code::{Action, Op, Operand, Then};
use crate::emit::{ahead, emit, give, more, only};
use crate::expressions::expression;
use crate::operands::prepare;
use crate::sizes::{size, size_with_one};
use crate::words::native;
use c_core::{DataModel, Expr, IntType, Program, Spot};
use run_state::Around;
use wv_base::{OutOfMemory, Seq};

// Where both are to hold, the value that is known without the second is 0, else 1.
fn constant(both: bool) -> Operand
    ensures { result ≡ spec.constant both }
{
    if both {
        Operand::Number(0)
    } else {
        Operand::Number(1)
    }
}

// 1 where an expression isn't 0, else 0.
#[cycle(expression)]
fn truth(
    program: &Program,
    ops: &mut Seq<Op>,
    around: Around,
    e: &Expr,
    then: Then,
) -> Result<(), OutOfMemory>
    ensures { OnOk result (ops.new ≡ ops.old ++ with_operand (operand_of (expr_view e.now)) 0
        (code (program_view program.now) around (length ops.old) 0 Used (expr_view e.now) Push)
        (λ y. Truth y (preparing.only then))) }
{
    let value = prepare(program, ops, 0, around, e)?;
    let into = only(then);
    emit(
        ops,
        value.steps,
        Action::Truth {
            of: value.operand,
            into,
        },
    )?;
    Ok(())
}

/// `&&` and `||`: the value of the second, unless the first decides.
#[cycle(expression)]
pub fn logic(
    program: &Program,
    ops: &mut Seq<Op>,
    steps: u32,
    around: Around,
    both: bool,
    left: &Expr,
    right: &Expr,
    then: Then,
) -> Result<(), OutOfMemory>
    ensures { OnOk result (ops.new ≡ ops.old ++ node_code (program_view program.now) around (length ops.old) steps Used
        around.full None (t.Logic both (expr_view left.now) (expr_view right.now)) (preparing.only then)) }
{
    let first = size(left)?;
    let second = size_with_one(right)?;
    let rest = more(second, 1)?;
    let whole = more(first, rest)?;
    let decided = ahead(ops, whole)?;
    let end = more(decided, 1)?;
    let skip = Then::Skip {
        way: !both,
        to: decided,
    };
    expression(program, ops, steps, around, true, left, skip)?;
    truth(program, ops, around, right, then)?;
    emit(ops, 0, Action::Jump(end))?;
    give(ops, 0, constant(both), then)?;
    Ok(())
}

// What is on the stack, converted to a conditional's type.
fn convert_top(
    ops: &mut Seq<Op>,
    model: DataModel,
    ty: Option<IntType>,
    then: Then,
) -> Result<(), OutOfMemory>
    ensures { OnOk result (ops.new ≡ ops.old ++ spec.as_type model ty (preparing.only then) ∷ []) }
{
    match ty {
        None => {
            give(ops, 0, Operand::Top, then)?;
            Ok(())
        }
        Some(to) => {
            let ty = native(model, to);
            let into = only(then);
            let of = Operand::Top;
            emit(ops, 0, Action::Convert { ty, of, into })?;
            Ok(())
        }
    }
}

// An arm of a conditional.
#[cycle(expression)]
fn arm(
    program: &Program,
    ops: &mut Seq<Op>,
    around: Around,
    ty: Option<IntType>,
    e: &Expr,
    then: Then,
) -> Result<(), OutOfMemory>
    ensures { OnOk result (ops.new ≡ ops.old ++ conditional_arm (program_view program.now) around (length ops.old) ty
        (expr_view e.now) (preparing.only then)) }
{
    expression(program, ops, 0, around, true, e, Then::Push)?;
    convert_top(ops, program.model, ty, then)?;
    Ok(())
}

/// A conditional: its test, its first arm with the way around the second, its second arm.
#[cycle(expression)]
pub fn choose(
    program: &Program,
    ops: &mut Seq<Op>,
    steps: u32,
    around: Around,
    ty: Option<IntType>,
    mark: Spot,
    test: &Expr,
    yes: &Expr,
    no: &Expr,
    then: Then,
) -> Result<(), OutOfMemory>
    ensures { OnOk result (ops.new ≡ ops.old ++ node_code (program_view program.now) around (length ops.old) steps Used
        around.full ty (t.Choose mark (expr_view test.now) (expr_view yes.now) (expr_view no.now))
        (preparing.only then)) }
{
    let tested = size(test)?;
    let taken = size(yes)?;
    let both = more(tested, taken)?;
    let first = more(both, 2)?;
    let second = ahead(ops, first)?;
    let other = size(no)?;
    let rest = more(other, 1)?;
    let end = more(second, rest)?;
    let branch = Then::Branch {
        at: mark,
        way: false,
        to: second,
    };
    expression(program, ops, steps, around, true, test, branch)?;
    arm(program, ops, around, ty, yes, then)?;
    emit(ops, 0, Action::Jump(end))?;
    arm(program, ops, around, ty, no, then)?;
    Ok(())
}
