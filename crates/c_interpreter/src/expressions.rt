// Expressions: one function for each form.
ghost use Rattle.std.specs.Prelude.{◌≡◌, ◌≤◌, [], None, Some, true, false};
ghost use Rattle.std.specs.Option.{option_copied};
ghost use Rattle.c_core.specs.Tree as t;
ghost use Rattle.c_core.specs.View.{program_view, expr_view, exprs_view, node_view};
ghost use Rattle.c_meaning.specs.Meaning.{Used};
ghost use Rattle.run_state.specs.Interpreting.{Gives, same, state_of, where_of, use_of, key_of, evaluated, evaluated_all, noded, targeted, placed, truthed, convertible, listed, callee_gives, pairs_of, site_of};

use crate::calls::call_number;
use c_core::{BinOp, Callee, Expr, IntType, Node, Program, Spot, StepOp, UnOp, convert};
use c_meaning::{End, Event, Watcher, Way, holds, truth, type_of};
use run_state::{
    Around, CallSite, Element, Halt, Machine, Typed, bump, change, convert_to, element,
    element_in_row, input, is_needed, look, operate, operate_one, reach, store, tell, tick,
};
use wv_base::Seq;

/// The value of an expression, after its effects.
#[cycle(run)]
pub fn eval<W: Watcher>(
    program: &Program,
    machine: &mut Machine,
    watcher: &mut W,
    depth: u64,
    at: Around,
    used: bool,
    e: &Expr,
) -> Result<i128, Halt>
    requires bound { machine.old.steps ≤ depth }
    ensures gives { Gives same result (state_of machine.new (W.seen watcher.new))
        (evaluated (program_view program.now) W.Seen W.after depth (where_of at) (use_of used) (expr_view e.now)
        (state_of machine.old (W.seen watcher.old))) }
    ensures spends { machine.new.steps ≤ machine.old.steps }
{
    tick::<W>(machine)?;
    node(program, machine, watcher, depth, at, used, e)
}

#[cycle(run)]
fn node<W: Watcher>(
    program: &Program,
    machine: &mut Machine,
    watcher: &mut W,
    depth: u64,
    at: Around,
    used: bool,
    e: &Expr,
) -> Result<i128, Halt>
    requires bound { machine.old.steps ≤ depth }
    ensures gives { Gives same result (state_of machine.new (W.seen watcher.new))
        (noded (program_view program.now) W.Seen W.after depth (where_of at) (use_of used) e.now.spot e.now.ty
        (node_view e.now.node) (state_of machine.old (W.seen watcher.old))) }
    ensures spends { machine.new.steps ≤ machine.old.steps }
{
    match &e.node {
        Node::Const(value) => Ok(*value),
        Node::Var(object) => Ok(look(machine, scalar(*object))),
        Node::Binary { op, left, right } => binary(
            program, machine, watcher, depth, at, e.spot, *op, left, right,
        ),
        Node::Index { object, at: place } => index(
            program, machine, watcher, depth, at, e.spot, *object, place,
        ),
        Node::Unary { op, of } => unary(program, machine, watcher, depth, at, e.spot, *op, of),
        Node::Cast(of) => cast(program, machine, watcher, depth, at, e.ty, of),
        Node::Comma { first, last } => comma(program, machine, watcher, depth, at, first, last),
        Node::Logic { both, left, right } => logic(
            program, machine, watcher, depth, at, *both, left, right,
        ),
        Node::Assign { op, target, from } => assign(
            program, machine, watcher, depth, at, e.spot, *op, target, from,
        ),
        Node::Step { op, target: to } => step(
            program, machine, watcher, depth, at, e.spot, *op, to,
        ),
        Node::Choose {
            mark,
            test,
            yes,
            no,
        } => choose(
            program, machine, watcher, depth, at, e.ty, *mark, test, yes, no,
        ),
        Node::Call {
            callee,
            args,
            close,
        } => call(
            program, machine, watcher, depth, at, used, e, *callee, args, *close,
        ),
    }
}

// The element of an object without an index.
fn scalar(object: u32) -> Element
    ensures { result ≡ record { object = object; index = 0 } }
{
    Element { object, index: 0 }
}

#[cycle(run)]
fn binary<W: Watcher>(
    program: &Program,
    machine: &mut Machine,
    watcher: &mut W,
    depth: u64,
    at: Around,
    spot: Spot,
    op: BinOp,
    left: &Expr,
    right: &Expr,
) -> Result<i128, Halt>
    requires bound { machine.old.steps ≤ depth }
    ensures gives { Gives same result (state_of machine.new (W.seen watcher.new))
        (noded (program_view program.now) W.Seen W.after depth (where_of at) Used spot None
        (t.Binary op (expr_view left.now) (expr_view right.now)) (state_of machine.old (W.seen watcher.old))) }
    ensures spends { machine.new.steps ≤ machine.old.steps }
{
    let a = eval(program, machine, watcher, depth, at, true, left)?;
    let b = eval(program, machine, watcher, depth, at, true, right)?;
    operate(
        program,
        machine,
        watcher,
        at,
        spot,
        op,
        Typed {
            value: a,
            ty: type_of(left),
        },
        Typed {
            value: b,
            ty: type_of(right),
        },
    )
}

#[cycle(run)]
fn target<W: Watcher>(
    program: &Program,
    machine: &mut Machine,
    watcher: &mut W,
    depth: u64,
    at: Around,
    e: &Expr,
) -> Result<Element, Halt>
    requires bound { machine.old.steps ≤ depth }
    ensures gives { Gives key_of result (state_of machine.new (W.seen watcher.new))
        (targeted (program_view program.now) W.Seen W.after depth (where_of at) (expr_view e.now)
        (state_of machine.old (W.seen watcher.old))) }
    ensures spends { machine.new.steps ≤ machine.old.steps }
{
    tick::<W>(machine)?;
    place(program, machine, watcher, depth, at, e)
}

#[cycle(run)]
fn place<W: Watcher>(
    program: &Program,
    machine: &mut Machine,
    watcher: &mut W,
    depth: u64,
    at: Around,
    e: &Expr,
) -> Result<Element, Halt>
    requires bound { machine.old.steps ≤ depth }
    ensures gives { Gives key_of result (state_of machine.new (W.seen watcher.new))
        (placed (program_view program.now) W.Seen W.after depth (where_of at) e.now.spot (node_view e.now.node)
        (state_of machine.old (W.seen watcher.old))) }
    ensures spends { machine.new.steps ≤ machine.old.steps }
{
    match &e.node {
        Node::Index { object, at: place } => element_at(
            program,
            machine,
            watcher,
            depth,
            at,
            e.spot,
            *object,
            place.as_slice(),
        ),
        Node::Var(object) => Ok(scalar(*object)),
        // no target of a checked program
        _ => Ok(scalar(0)),
    }
}

// The element at its indexes, which are evaluated from left to right before the first is tested.
#[cycle(run)]
fn element_at<W: Watcher>(
    program: &Program,
    machine: &mut Machine,
    watcher: &mut W,
    depth: u64,
    at: Around,
    spot: Spot,
    object: u32,
    indexes: &[Expr],
) -> Result<Element, Halt>
    requires bound { machine.old.steps ≤ depth }
    ensures gives { Gives key_of result (state_of machine.new (W.seen watcher.new))
        (placed (program_view program.now) W.Seen W.after depth (where_of at) spot
        (t.Index object (exprs_view indexes.now)) (state_of machine.old (W.seen watcher.old))) }
    ensures spends { machine.new.steps ≤ machine.old.steps }
{
    match indexes {
        [index] => {
            let j = eval(program, machine, watcher, depth, at, true, index)?;
            element::<W>(program, spot, object, j)
        }
        [row, column] => {
            let i = eval(program, machine, watcher, depth, at, true, row)?;
            let j = eval(program, machine, watcher, depth, at, true, column)?;
            element_in_row::<W>(program, spot, object, i, j)
        }
        // no element of a checked program
        [] => Err(Halt::Ends(End::Undefined(spot))),
        _ => {
            evaluate_all(program, machine, watcher, depth, at, indexes)?;
            Err(Halt::Ends(End::Undefined(spot)))
        }
    }
}

#[cycle(run)]
fn evaluate_all<W: Watcher>(
    program: &Program,
    machine: &mut Machine,
    watcher: &mut W,
    depth: u64,
    at: Around,
    es: &[Expr],
) -> Result<(), Halt>
    requires bound { machine.old.steps ≤ depth }
    ensures gives { Gives same result (state_of machine.new (W.seen watcher.new))
        (evaluated_all (program_view program.now) W.Seen W.after depth (where_of at) (exprs_view es.now)
        (state_of machine.old (W.seen watcher.old))) }
    ensures spends { machine.new.steps ≤ machine.old.steps }
{
    for e in es {
        eval(program, machine, watcher, depth, at, true, e)?;
    }
    Ok(())
}

#[cycle(run)]
fn index<W: Watcher>(
    program: &Program,
    machine: &mut Machine,
    watcher: &mut W,
    depth: u64,
    at: Around,
    spot: Spot,
    object: u32,
    indexes: &Seq<Expr>,
) -> Result<i128, Halt>
    requires bound { machine.old.steps ≤ depth }
    ensures gives { Gives same result (state_of machine.new (W.seen watcher.new))
        (noded (program_view program.now) W.Seen W.after depth (where_of at) Used spot None
        (t.Index object (exprs_view indexes.now)) (state_of machine.old (W.seen watcher.old))) }
    ensures spends { machine.new.steps ≤ machine.old.steps }
{
    let place = indexes.as_slice();
    let found = element_at(program, machine, watcher, depth, at, spot, object, place)?;
    Ok(look(machine, found))
}

#[cycle(run)]
fn unary<W: Watcher>(
    program: &Program,
    machine: &mut Machine,
    watcher: &mut W,
    depth: u64,
    at: Around,
    spot: Spot,
    op: UnOp,
    of: &Expr,
) -> Result<i128, Halt>
    requires bound { machine.old.steps ≤ depth }
    ensures gives { Gives same result (state_of machine.new (W.seen watcher.new))
        (noded (program_view program.now) W.Seen W.after depth (where_of at) Used spot None
        (t.Unary op (expr_view of.now)) (state_of machine.old (W.seen watcher.old))) }
    ensures spends { machine.new.steps ≤ machine.old.steps }
{
    let value = eval(program, machine, watcher, depth, at, true, of)?;
    operate_one(
        program,
        machine,
        watcher,
        at,
        spot,
        op,
        Typed {
            value,
            ty: type_of(of),
        },
    )
}

#[cycle(run)]
fn cast<W: Watcher>(
    program: &Program,
    machine: &mut Machine,
    watcher: &mut W,
    depth: u64,
    at: Around,
    ty: Option<IntType>,
    of: &Expr,
) -> Result<i128, Halt>
    requires bound { machine.old.steps ≤ depth }
    ensures gives { Gives same result (state_of machine.new (W.seen watcher.new))
        (noded (program_view program.now) W.Seen W.after depth (where_of at) Used at.full ty (t.Cast (expr_view of.now))
        (state_of machine.old (W.seen watcher.old))) }
    ensures spends { machine.new.steps ≤ machine.old.steps }
{
    match ty {
        None => eval(program, machine, watcher, depth, at, false, of),
        Some(to) => cast_to(program, machine, watcher, depth, at, to, of),
    }
}

#[cycle(run)]
fn cast_to<W: Watcher>(
    program: &Program,
    machine: &mut Machine,
    watcher: &mut W,
    depth: u64,
    at: Around,
    to: IntType,
    of: &Expr,
) -> Result<i128, Halt>
    requires bound { machine.old.steps ≤ depth }
    ensures gives { Gives same result (state_of machine.new (W.seen watcher.new))
        (noded (program_view program.now) W.Seen W.after depth (where_of at) Used at.full (Some to)
        (t.Cast (expr_view of.now)) (state_of machine.old (W.seen watcher.old))) }
    ensures spends { machine.new.steps ≤ machine.old.steps }
{
    let value = eval(program, machine, watcher, depth, at, true, of)?;
    Ok(convert(program.model, to, value))
}

#[cycle(run)]
fn comma<W: Watcher>(
    program: &Program,
    machine: &mut Machine,
    watcher: &mut W,
    depth: u64,
    at: Around,
    first: &Expr,
    last: &Expr,
) -> Result<i128, Halt>
    requires bound { machine.old.steps ≤ depth }
    ensures gives { Gives same result (state_of machine.new (W.seen watcher.new))
        (noded (program_view program.now) W.Seen W.after depth (where_of at) Used at.full None
        (t.Comma (expr_view first.now) (expr_view last.now)) (state_of machine.old (W.seen watcher.old))) }
    ensures spends { machine.new.steps ≤ machine.old.steps }
{
    eval(program, machine, watcher, depth, at, false, first)?;
    eval(program, machine, watcher, depth, at, true, last)
}

#[cycle(run)]
fn and<W: Watcher>(
    program: &Program,
    machine: &mut Machine,
    watcher: &mut W,
    depth: u64,
    at: Around,
    left: &Expr,
    right: &Expr,
) -> Result<i128, Halt>
    requires bound { machine.old.steps ≤ depth }
    ensures gives { Gives same result (state_of machine.new (W.seen watcher.new))
        (noded (program_view program.now) W.Seen W.after depth (where_of at) Used at.full None
        (t.Logic true (expr_view left.now) (expr_view right.now)) (state_of machine.old (W.seen watcher.old))) }
    ensures spends { machine.new.steps ≤ machine.old.steps }
{
    let value = eval(program, machine, watcher, depth, at, true, left)?;
    if holds(value) {
        tested(program, machine, watcher, depth, at, right)
    } else {
        Ok(0)
    }
}

#[cycle(run)]
fn or<W: Watcher>(
    program: &Program,
    machine: &mut Machine,
    watcher: &mut W,
    depth: u64,
    at: Around,
    left: &Expr,
    right: &Expr,
) -> Result<i128, Halt>
    requires bound { machine.old.steps ≤ depth }
    ensures gives { Gives same result (state_of machine.new (W.seen watcher.new))
        (noded (program_view program.now) W.Seen W.after depth (where_of at) Used at.full None
        (t.Logic false (expr_view left.now) (expr_view right.now)) (state_of machine.old (W.seen watcher.old))) }
    ensures spends { machine.new.steps ≤ machine.old.steps }
{
    let value = eval(program, machine, watcher, depth, at, true, left)?;
    if holds(value) {
        Ok(1)
    } else {
        tested(program, machine, watcher, depth, at, right)
    }
}

#[cycle(run)]
fn tested<W: Watcher>(
    program: &Program,
    machine: &mut Machine,
    watcher: &mut W,
    depth: u64,
    at: Around,
    e: &Expr,
) -> Result<i128, Halt>
    requires bound { machine.old.steps ≤ depth }
    ensures gives { Gives same result (state_of machine.new (W.seen watcher.new))
        (truthed (program_view program.now) W.Seen W.after depth (where_of at) (expr_view e.now)
        (state_of machine.old (W.seen watcher.old))) }
    ensures spends { machine.new.steps ≤ machine.old.steps }
{
    let value = eval(program, machine, watcher, depth, at, true, e)?;
    Ok(truth(value))
}

#[cycle(run)]
fn replace<W: Watcher>(
    program: &Program,
    machine: &mut Machine,
    watcher: &mut W,
    depth: u64,
    at: Around,
    spot: Spot,
    to: &Expr,
    from: &Expr,
) -> Result<i128, Halt>
    requires bound { machine.old.steps ≤ depth }
    ensures gives { Gives same result (state_of machine.new (W.seen watcher.new))
        (noded (program_view program.now) W.Seen W.after depth (where_of at) Used spot None
        (t.Assign None (expr_view to.now) (expr_view from.now)) (state_of machine.old (W.seen watcher.old))) }
    ensures spends { machine.new.steps ≤ machine.old.steps }
{
    let key = target(program, machine, watcher, depth, at, to)?;
    let value = eval(program, machine, watcher, depth, at, true, from)?;
    Ok(store::<W>(program, machine, key, type_of(to), value))
}

#[cycle(run)]
fn update<W: Watcher>(
    program: &Program,
    machine: &mut Machine,
    watcher: &mut W,
    depth: u64,
    at: Around,
    spot: Spot,
    op: BinOp,
    to: &Expr,
    from: &Expr,
) -> Result<i128, Halt>
    requires bound { machine.old.steps ≤ depth }
    ensures gives { Gives same result (state_of machine.new (W.seen watcher.new))
        (noded (program_view program.now) W.Seen W.after depth (where_of at) Used spot None
        (t.Assign (Some op) (expr_view to.now) (expr_view from.now)) (state_of machine.old (W.seen watcher.old))) }
    ensures spends { machine.new.steps ≤ machine.old.steps }
{
    let key = target(program, machine, watcher, depth, at, to)?;
    let old = look(machine, key);
    let value = eval(program, machine, watcher, depth, at, true, from)?;
    change(
        program,
        machine,
        watcher,
        at,
        spot,
        op,
        key,
        Typed {
            value: old,
            ty: type_of(to),
        },
        Typed {
            value,
            ty: type_of(from),
        },
    )
}

#[cycle(run)]
fn step<W: Watcher>(
    program: &Program,
    machine: &mut Machine,
    watcher: &mut W,
    depth: u64,
    at: Around,
    spot: Spot,
    op: StepOp,
    to: &Expr,
) -> Result<i128, Halt>
    requires bound { machine.old.steps ≤ depth }
    ensures gives { Gives same result (state_of machine.new (W.seen watcher.new))
        (noded (program_view program.now) W.Seen W.after depth (where_of at) Used spot None
        (t.Step op (expr_view to.now)) (state_of machine.old (W.seen watcher.old))) }
    ensures spends { machine.new.steps ≤ machine.old.steps }
{
    let key = target(program, machine, watcher, depth, at, to)?;
    bump(program, machine, watcher, at, spot, op, key, type_of(to))
}

#[cycle(run)]
fn choose<W: Watcher>(
    program: &Program,
    machine: &mut Machine,
    watcher: &mut W,
    depth: u64,
    at: Around,
    ty: Option<IntType>,
    mark: Spot,
    test: &Expr,
    yes: &Expr,
    no: &Expr,
) -> Result<i128, Halt>
    requires bound { machine.old.steps ≤ depth }
    ensures gives { Gives same result (state_of machine.new (W.seen watcher.new))
        (noded (program_view program.now) W.Seen W.after depth (where_of at) Used at.full ty
        (t.Choose mark (expr_view test.now) (expr_view yes.now) (expr_view no.now))
        (state_of machine.old (W.seen watcher.old))) }
    ensures spends { machine.new.steps ≤ machine.old.steps }
{
    let value = eval(program, machine, watcher, depth, at, true, test)?;
    let taken = holds(value);
    tell(machine, watcher, Event::Branch(mark, Way::Truth(taken)))?;
    if taken {
        converted(program, machine, watcher, depth, at, ty, yes)
    } else {
        converted(program, machine, watcher, depth, at, ty, no)
    }
}

#[cycle(run)]
fn converted<W: Watcher>(
    program: &Program,
    machine: &mut Machine,
    watcher: &mut W,
    depth: u64,
    at: Around,
    ty: Option<IntType>,
    e: &Expr,
) -> Result<i128, Halt>
    requires bound { machine.old.steps ≤ depth }
    ensures gives { Gives same result (state_of machine.new (W.seen watcher.new))
        (convertible (program_view program.now) W.Seen W.after depth (where_of at) ty (expr_view e.now)
        (state_of machine.old (W.seen watcher.old))) }
    ensures spends { machine.new.steps ≤ machine.old.steps }
{
    let value = eval(program, machine, watcher, depth, at, true, e)?;
    Ok(convert_to::<W>(program, ty, value))
}

#[cycle(run)]
fn logic<W: Watcher>(
    program: &Program,
    machine: &mut Machine,
    watcher: &mut W,
    depth: u64,
    at: Around,
    both: bool,
    left: &Expr,
    right: &Expr,
) -> Result<i128, Halt>
    requires bound { machine.old.steps ≤ depth }
    ensures gives { Gives same result (state_of machine.new (W.seen watcher.new))
        (noded (program_view program.now) W.Seen W.after depth (where_of at) Used at.full None
        (t.Logic both (expr_view left.now) (expr_view right.now)) (state_of machine.old (W.seen watcher.old))) }
    ensures spends { machine.new.steps ≤ machine.old.steps }
{
    if both {
        and(program, machine, watcher, depth, at, left, right)
    } else {
        or(program, machine, watcher, depth, at, left, right)
    }
}

#[cycle(run)]
fn assign<W: Watcher>(
    program: &Program,
    machine: &mut Machine,
    watcher: &mut W,
    depth: u64,
    at: Around,
    spot: Spot,
    op: Option<BinOp>,
    to: &Expr,
    from: &Expr,
) -> Result<i128, Halt>
    requires bound { machine.old.steps ≤ depth }
    ensures gives { Gives same result (state_of machine.new (W.seen watcher.new))
        (noded (program_view program.now) W.Seen W.after depth (where_of at) Used spot None
        (t.Assign op (expr_view to.now) (expr_view from.now)) (state_of machine.old (W.seen watcher.old))) }
    ensures spends { machine.new.steps ≤ machine.old.steps }
{
    match op {
        None => replace(program, machine, watcher, depth, at, spot, to, from),
        Some(op) => update(program, machine, watcher, depth, at, spot, op, to, from),
    }
}

// A call, which is the expression `e`: its arguments, then what is called.
#[cycle(run)]
fn call<W: Watcher>(
    program: &Program,
    machine: &mut Machine,
    watcher: &mut W,
    depth: u64,
    at: Around,
    used: bool,
    e: &Expr,
    callee: Callee,
    args: &Seq<Expr>,
    close: Spot,
) -> Result<i128, Halt>
    requires bound { machine.old.steps ≤ depth }
    ensures gives { Gives same result (state_of machine.new (W.seen watcher.new))
        (noded (program_view program.now) W.Seen W.after depth (where_of at) (use_of used) e.now.spot e.now.ty
        (t.Call callee (exprs_view args.now) close) (state_of machine.old (W.seen watcher.old))) }
    ensures spends { machine.new.steps ≤ machine.old.steps }
{
    let values = arguments(program, machine, watcher, depth, at, args.as_slice())?;
    tell(machine, watcher, Event::Enter(close))?;
    let site = CallSite {
        spot: e.spot,
        close,
        needed: is_needed(used, e.ty),
    };
    called(
        program,
        machine,
        watcher,
        depth,
        at,
        site,
        callee,
        values.as_slice(),
    )
}

// The values of arguments, from left to right.
#[cycle(run)]
fn arguments<W: Watcher>(
    program: &Program,
    machine: &mut Machine,
    watcher: &mut W,
    depth: u64,
    at: Around,
    args: &[Expr],
) -> Result<Seq<Typed>, Halt>
    requires bound { machine.old.steps ≤ depth }
    ensures gives { Gives pairs_of result (state_of machine.new (W.seen watcher.new))
        (listed (program_view program.now) W.Seen W.after depth (where_of at) [] (exprs_view args.now)
        (state_of machine.old (W.seen watcher.old))) }
    ensures spends { machine.new.steps ≤ machine.old.steps }
{
    let mut values = Seq::new(machine.alloc);
    for arg in args {
        let value = eval(program, machine, watcher, depth, at, true, arg)?;
        values.push(Typed {
            value,
            ty: type_of(arg),
        })?;
    }
    Ok(values)
}

// What is called, with the values of its arguments.
#[cycle(run)]
fn called<W: Watcher>(
    program: &Program,
    machine: &mut Machine,
    watcher: &mut W,
    depth: u64,
    at: Around,
    site: CallSite,
    callee: Callee,
    values: &[Typed],
) -> Result<i128, Halt>
    requires bound { machine.old.steps ≤ depth }
    ensures gives { Gives same result (state_of machine.new (W.seen watcher.new))
        (callee_gives (program_view program.now) W.Seen W.after depth (where_of at) (site_of site) callee
        (pairs_of values.now) (state_of machine.old (W.seen watcher.old))) }
    ensures spends { machine.new.steps ≤ machine.old.steps }
{
    match callee {
        Callee::Defined(number) => {
            call_number(program, machine, watcher, depth, site, number, values)
        }
        Callee::Input(ty) => input(program, machine, watcher, site, ty),
        Callee::ReachError => reach(program, machine, watcher, at, site),
        Callee::Abort | Callee::Exit => Err(Halt::Ends(End::Ended)),
    }
}
