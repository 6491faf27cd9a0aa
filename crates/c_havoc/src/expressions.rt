// Expressions: one function for each form.
ghost use Rattle.std.specs.Prelude.{[], None, Some, true, false};
ghost use Rattle.c_core.specs.Tree as t;
ghost use Rattle.c_core.specs.View.{program_view, expr_view, exprs_view};
ghost use Rattle.c_meaning.specs.Meaning.{Used};
ghost use Rattle.run_state.specs.Interpreting.{same, where_of, use_of, key_of, pairs_of, site_of};
ghost use Rattle.c_meaning.specs.Placing.{placed_view};
ghost use Rattle.havoc_state.specs.Havocking.{Gives, left_of, evaluated, evaluated_all, noded, targeted, placed_at, truthed, convertible, listed, callee_gives};

use crate::calls::call_number;
use c_core::{BinOp, Callee, Expr, IntType, Node, Program, Spot, StepOp, UnOp, convert};
use c_meaning::{DrawKind, PlacedInvariant, holds, truth, type_of};
use havoc_state::{
    Ending, Halt, Machine, bump, change, convert_to, draw, element, element_in_row, look, operate,
    operate_one, reach, store,
};
use run_state::{Around, CallSite, Element, Typed, is_needed};
use wv_base::Seq;

/// The value of an expression.
#[cycle(run)]
pub fn eval(
    program: &Program,
    invariants: &[PlacedInvariant],
    machine: &mut Machine,
    depth: u64,
    at: Around,
    used: bool,
    e: &Expr,
) -> Result<i128, Halt>
    ensures { Gives same result (left_of machine.new)
        (evaluated (program_view program.now) (placed_view invariants.now) depth (where_of at) (use_of used)
        (expr_view e.now) (left_of machine.old)) }
{
    match &e.node {
        Node::Const(value) => Ok(*value),
        Node::Var(object) => Ok(look(
            machine,
            Element {
                object: *object,
                index: 0,
            },
        )),
        Node::Binary { op, left, right } => binary(
            program, invariants, machine, depth, at, *op, left, right,
        ),
        Node::Index { object, at: place } => index(
            program,
            invariants,
            machine,
            depth,
            at,
            *object,
            place.as_slice(),
        ),
        Node::Unary { op, of } => unary(program, invariants, machine, depth, at, *op, of),
        Node::Cast(of) => cast(program, invariants, machine, depth, at, e.ty, of),
        Node::Comma { first, last } => comma(program, invariants, machine, depth, at, first, last),
        Node::Logic { both, left, right } => logic(
            program, invariants, machine, depth, at, *both, left, right,
        ),
        Node::Assign {
            op,
            target: to,
            from,
        } => assign(program, invariants, machine, depth, at, *op, to, from),
        Node::Step { op, target: to } => step(program, invariants, machine, depth, at, *op, to),
        Node::Choose { test, yes, no, .. } => choose(
            program, invariants, machine, depth, at, e.ty, test, yes, no,
        ),
        Node::Call {
            callee,
            args,
            close,
        } => call(
            program,
            invariants,
            machine,
            depth,
            at,
            used,
            e.spot,
            e.ty,
            *callee,
            args.as_slice(),
            *close,
        ),
    }
}

#[cycle(run)]
fn binary(
    program: &Program,
    invariants: &[PlacedInvariant],
    machine: &mut Machine,
    depth: u64,
    at: Around,
    op: BinOp,
    left: &Expr,
    right: &Expr,
) -> Result<i128, Halt>
    ensures { Gives same result (left_of machine.new)
        (noded (program_view program.now) (placed_view invariants.now) depth (where_of at) Used at.full None
        (t.Binary op (expr_view left.now) (expr_view right.now)) (left_of machine.old)) }
{
    let a = eval(program, invariants, machine, depth, at, true, left)?;
    let b = eval(program, invariants, machine, depth, at, true, right)?;
    operate(
        program,
        at,
        op,
        Typed {
            value: a,
            ty: type_of(left),
        },
        Typed {
            value: b,
            ty: type_of(right),
        },
    )
}

// The cell that an expression means.
#[cycle(run)]
fn target(
    program: &Program,
    invariants: &[PlacedInvariant],
    machine: &mut Machine,
    depth: u64,
    at: Around,
    e: &Expr,
) -> Result<Element, Halt>
    ensures { Gives key_of result (left_of machine.new)
        (targeted (program_view program.now) (placed_view invariants.now) depth (where_of at) (expr_view e.now)
        (left_of machine.old)) }
{
    match &e.node {
        Node::Index { object, at: place } => element_at(
            program,
            invariants,
            machine,
            depth,
            at,
            *object,
            place.as_slice(),
        ),
        Node::Var(object) => Ok(Element {
            object: *object,
            index: 0,
        }),
        // no target of a checked program
        _ => Ok(Element {
            object: 0,
            index: 0,
        }),
    }
}

// The element at its indexes, which are evaluated from left to right before the first is tested.
#[cycle(run)]
fn element_at(
    program: &Program,
    invariants: &[PlacedInvariant],
    machine: &mut Machine,
    depth: u64,
    at: Around,
    object: u32,
    indexes: &[Expr],
) -> Result<Element, Halt>
    ensures { Gives key_of result (left_of machine.new)
        (placed_at (program_view program.now) (placed_view invariants.now) depth (where_of at) at.full
        (t.Index object (exprs_view indexes.now)) (left_of machine.old)) }
{
    match indexes {
        [index] => {
            let j = eval(program, invariants, machine, depth, at, true, index)?;
            element(program, object, j)
        }
        [row, column] => {
            let i = eval(program, invariants, machine, depth, at, true, row)?;
            let j = eval(program, invariants, machine, depth, at, true, column)?;
            element_in_row(program, object, i, j)
        }
        // no element of a checked program
        [] => Err(Halt::Ends(Ending::Passes)),
        _ => {
            evaluate_all(program, invariants, machine, depth, at, indexes)?;
            Err(Halt::Ends(Ending::Passes))
        }
    }
}

#[cycle(run)]
fn evaluate_all(
    program: &Program,
    invariants: &[PlacedInvariant],
    machine: &mut Machine,
    depth: u64,
    at: Around,
    es: &[Expr],
) -> Result<(), Halt>
    ensures { Gives same result (left_of machine.new)
        (evaluated_all (program_view program.now) (placed_view invariants.now) depth (where_of at) (exprs_view es.now)
        (left_of machine.old)) }
{
    for e in es {
        eval(program, invariants, machine, depth, at, true, e)?;
    }
    Ok(())
}

#[cycle(run)]
fn index(
    program: &Program,
    invariants: &[PlacedInvariant],
    machine: &mut Machine,
    depth: u64,
    at: Around,
    object: u32,
    indexes: &[Expr],
) -> Result<i128, Halt>
    ensures { Gives same result (left_of machine.new)
        (noded (program_view program.now) (placed_view invariants.now) depth (where_of at) Used at.full None
        (t.Index object (exprs_view indexes.now)) (left_of machine.old)) }
{
    let found = element_at(program, invariants, machine, depth, at, object, indexes)?;
    Ok(look(machine, found))
}

#[cycle(run)]
fn unary(
    program: &Program,
    invariants: &[PlacedInvariant],
    machine: &mut Machine,
    depth: u64,
    at: Around,
    op: UnOp,
    of: &Expr,
) -> Result<i128, Halt>
    ensures { Gives same result (left_of machine.new)
        (noded (program_view program.now) (placed_view invariants.now) depth (where_of at) Used at.full None
        (t.Unary op (expr_view of.now)) (left_of machine.old)) }
{
    let value = eval(program, invariants, machine, depth, at, true, of)?;
    operate_one(
        program,
        at,
        op,
        Typed {
            value,
            ty: type_of(of),
        },
    )
}

#[cycle(run)]
fn cast(
    program: &Program,
    invariants: &[PlacedInvariant],
    machine: &mut Machine,
    depth: u64,
    at: Around,
    ty: Option<IntType>,
    of: &Expr,
) -> Result<i128, Halt>
    ensures { Gives same result (left_of machine.new)
        (noded (program_view program.now) (placed_view invariants.now) depth (where_of at) Used at.full ty
        (t.Cast (expr_view of.now)) (left_of machine.old)) }
{
    match ty {
        None => eval(program, invariants, machine, depth, at, false, of),
        Some(to) => cast_to(program, invariants, machine, depth, at, to, of),
    }
}

#[cycle(run)]
fn cast_to(
    program: &Program,
    invariants: &[PlacedInvariant],
    machine: &mut Machine,
    depth: u64,
    at: Around,
    to: IntType,
    of: &Expr,
) -> Result<i128, Halt>
    ensures { Gives same result (left_of machine.new)
        (noded (program_view program.now) (placed_view invariants.now) depth (where_of at) Used at.full (Some to)
        (t.Cast (expr_view of.now)) (left_of machine.old)) }
{
    let value = eval(program, invariants, machine, depth, at, true, of)?;
    Ok(convert(program.model, to, value))
}

#[cycle(run)]
fn comma(
    program: &Program,
    invariants: &[PlacedInvariant],
    machine: &mut Machine,
    depth: u64,
    at: Around,
    first: &Expr,
    last: &Expr,
) -> Result<i128, Halt>
    ensures { Gives same result (left_of machine.new)
        (noded (program_view program.now) (placed_view invariants.now) depth (where_of at) Used at.full None
        (t.Comma (expr_view first.now) (expr_view last.now)) (left_of machine.old)) }
{
    eval(program, invariants, machine, depth, at, false, first)?;
    eval(program, invariants, machine, depth, at, true, last)
}

#[cycle(run)]
fn and(
    program: &Program,
    invariants: &[PlacedInvariant],
    machine: &mut Machine,
    depth: u64,
    at: Around,
    left: &Expr,
    right: &Expr,
) -> Result<i128, Halt>
    ensures { Gives same result (left_of machine.new)
        (noded (program_view program.now) (placed_view invariants.now) depth (where_of at) Used at.full None
        (t.Logic true (expr_view left.now) (expr_view right.now)) (left_of machine.old)) }
{
    let value = eval(program, invariants, machine, depth, at, true, left)?;
    if holds(value) {
        tested(program, invariants, machine, depth, at, right)
    } else {
        Ok(0)
    }
}

#[cycle(run)]
fn or(
    program: &Program,
    invariants: &[PlacedInvariant],
    machine: &mut Machine,
    depth: u64,
    at: Around,
    left: &Expr,
    right: &Expr,
) -> Result<i128, Halt>
    ensures { Gives same result (left_of machine.new)
        (noded (program_view program.now) (placed_view invariants.now) depth (where_of at) Used at.full None
        (t.Logic false (expr_view left.now) (expr_view right.now)) (left_of machine.old)) }
{
    let value = eval(program, invariants, machine, depth, at, true, left)?;
    if holds(value) {
        Ok(1)
    } else {
        tested(program, invariants, machine, depth, at, right)
    }
}

#[cycle(run)]
fn tested(
    program: &Program,
    invariants: &[PlacedInvariant],
    machine: &mut Machine,
    depth: u64,
    at: Around,
    e: &Expr,
) -> Result<i128, Halt>
    ensures { Gives same result (left_of machine.new)
        (truthed (program_view program.now) (placed_view invariants.now) depth (where_of at) (expr_view e.now)
        (left_of machine.old)) }
{
    let value = eval(program, invariants, machine, depth, at, true, e)?;
    Ok(truth(value))
}

#[cycle(run)]
fn replace(
    program: &Program,
    invariants: &[PlacedInvariant],
    machine: &mut Machine,
    depth: u64,
    at: Around,
    to: &Expr,
    from: &Expr,
) -> Result<i128, Halt>
    ensures { Gives same result (left_of machine.new)
        (noded (program_view program.now) (placed_view invariants.now) depth (where_of at) Used at.full None
        (t.Assign None (expr_view to.now) (expr_view from.now)) (left_of machine.old)) }
{
    let key = target(program, invariants, machine, depth, at, to)?;
    let value = eval(program, invariants, machine, depth, at, true, from)?;
    Ok(store(program, machine, key, type_of(to), value))
}

#[cycle(run)]
fn update(
    program: &Program,
    invariants: &[PlacedInvariant],
    machine: &mut Machine,
    depth: u64,
    at: Around,
    op: BinOp,
    to: &Expr,
    from: &Expr,
) -> Result<i128, Halt>
    ensures { Gives same result (left_of machine.new)
        (noded (program_view program.now) (placed_view invariants.now) depth (where_of at) Used at.full None
        (t.Assign (Some op) (expr_view to.now) (expr_view from.now)) (left_of machine.old)) }
{
    let key = target(program, invariants, machine, depth, at, to)?;
    let old = look(machine, key);
    let value = eval(program, invariants, machine, depth, at, true, from)?;
    change(
        program,
        machine,
        at,
        op,
        key,
        Typed {
            value: old,
            ty: type_of(to),
        },
        Typed {
            value,
            ty: type_of(from),
        },
    )
}

#[cycle(run)]
fn step(
    program: &Program,
    invariants: &[PlacedInvariant],
    machine: &mut Machine,
    depth: u64,
    at: Around,
    op: StepOp,
    to: &Expr,
) -> Result<i128, Halt>
    ensures { Gives same result (left_of machine.new)
        (noded (program_view program.now) (placed_view invariants.now) depth (where_of at) Used at.full None
        (t.Step op (expr_view to.now)) (left_of machine.old)) }
{
    let key = target(program, invariants, machine, depth, at, to)?;
    bump(program, machine, at, op, key, type_of(to))
}

#[cycle(run)]
fn choose(
    program: &Program,
    invariants: &[PlacedInvariant],
    machine: &mut Machine,
    depth: u64,
    at: Around,
    ty: Option<IntType>,
    test: &Expr,
    yes: &Expr,
    no: &Expr,
) -> Result<i128, Halt>
    ensures { Gives same result (left_of machine.new)
        (noded (program_view program.now) (placed_view invariants.now) depth (where_of at) Used at.full ty
        (t.Choose at.full (expr_view test.now) (expr_view yes.now) (expr_view no.now)) (left_of machine.old)) }
{
    let value = eval(program, invariants, machine, depth, at, true, test)?;
    if holds(value) {
        converted(program, invariants, machine, depth, at, ty, yes)
    } else {
        converted(program, invariants, machine, depth, at, ty, no)
    }
}

#[cycle(run)]
fn converted(
    program: &Program,
    invariants: &[PlacedInvariant],
    machine: &mut Machine,
    depth: u64,
    at: Around,
    ty: Option<IntType>,
    e: &Expr,
) -> Result<i128, Halt>
    ensures { Gives same result (left_of machine.new)
        (convertible (program_view program.now) (placed_view invariants.now) depth (where_of at) ty (expr_view e.now)
        (left_of machine.old)) }
{
    let value = eval(program, invariants, machine, depth, at, true, e)?;
    Ok(convert_to(program, ty, value))
}

#[cycle(run)]
fn logic(
    program: &Program,
    invariants: &[PlacedInvariant],
    machine: &mut Machine,
    depth: u64,
    at: Around,
    both: bool,
    left: &Expr,
    right: &Expr,
) -> Result<i128, Halt>
    ensures { Gives same result (left_of machine.new)
        (noded (program_view program.now) (placed_view invariants.now) depth (where_of at) Used at.full None
        (t.Logic both (expr_view left.now) (expr_view right.now)) (left_of machine.old)) }
{
    if both {
        and(program, invariants, machine, depth, at, left, right)
    } else {
        or(program, invariants, machine, depth, at, left, right)
    }
}

#[cycle(run)]
fn assign(
    program: &Program,
    invariants: &[PlacedInvariant],
    machine: &mut Machine,
    depth: u64,
    at: Around,
    op: Option<BinOp>,
    to: &Expr,
    from: &Expr,
) -> Result<i128, Halt>
    ensures { Gives same result (left_of machine.new)
        (noded (program_view program.now) (placed_view invariants.now) depth (where_of at) Used at.full None
        (t.Assign op (expr_view to.now) (expr_view from.now)) (left_of machine.old)) }
{
    match op {
        None => replace(program, invariants, machine, depth, at, to, from),
        Some(op) => update(program, invariants, machine, depth, at, op, to, from),
    }
}

#[cycle(run)]
fn call(
    program: &Program,
    invariants: &[PlacedInvariant],
    machine: &mut Machine,
    depth: u64,
    at: Around,
    used: bool,
    spot: Spot,
    ty: Option<IntType>,
    callee: Callee,
    args: &[Expr],
    close: Spot,
) -> Result<i128, Halt>
    ensures { Gives same result (left_of machine.new)
        (noded (program_view program.now) (placed_view invariants.now) depth (where_of at) (use_of used) spot ty
        (t.Call callee (exprs_view args.now) close) (left_of machine.old)) }
{
    let values = arguments(program, invariants, machine, depth, at, args)?;
    let site = CallSite {
        spot,
        close,
        needed: is_needed(used, ty),
    };
    called(
        program,
        invariants,
        machine,
        depth,
        at,
        site,
        callee,
        values.as_slice(),
    )
}

// The values of arguments, from left to right.
#[cycle(run)]
fn arguments(
    program: &Program,
    invariants: &[PlacedInvariant],
    machine: &mut Machine,
    depth: u64,
    at: Around,
    args: &[Expr],
) -> Result<Seq<Typed>, Halt>
    ensures { Gives pairs_of result (left_of machine.new)
        (listed (program_view program.now) (placed_view invariants.now) depth (where_of at) [] (exprs_view args.now)
        (left_of machine.old)) }
{
    let mut values = Seq::new(machine.alloc);
    for arg in args {
        let value = eval(program, invariants, machine, depth, at, true, arg)?;
        values.push(Typed {
            value,
            ty: type_of(arg),
        })?;
    }
    Ok(values)
}

// What is called, with the values of its arguments.
#[cycle(run)]
fn called(
    program: &Program,
    invariants: &[PlacedInvariant],
    machine: &mut Machine,
    depth: u64,
    at: Around,
    site: CallSite,
    callee: Callee,
    values: &[Typed],
) -> Result<i128, Halt>
    ensures { Gives same result (left_of machine.new)
        (callee_gives (program_view program.now) (placed_view invariants.now) depth (where_of at) (site_of site) callee
        (pairs_of values.now) (left_of machine.old)) }
{
    match callee {
        Callee::Defined(number) => {
            call_number(program, invariants, machine, depth, site, number, values)
        }
        Callee::Input(ty) => draw(program, machine, DrawKind::Input, site.spot, ty),
        Callee::ReachError => reach(program, at),
        Callee::Abort | Callee::Exit => Err(Halt::Ends(Ending::Passes)),
    }
}
