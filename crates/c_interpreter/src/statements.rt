// Statements: one function for each form.
ghost use Rattle.std.specs.Prelude.{◌≤◌, ◌<◌, ◌≡◌, OnOk};
ghost use Rattle.c_core.specs.Tree as t;
ghost use Rattle.c_core.specs.View.{program_view, expr_view, expr_view_if, stmt_view, stmts_view, switch_view, first_view, form_view};
ghost use Rattle.c_meaning.specs.Acts as acts;
ghost use Rattle.run_state.specs.Interpreting.{Gives, StepsIfNext, state_of, flow_of, else_part, executed, formed, sequenced, blocked, arms_done, held_arms, armed, otherwised, loop_in, bodied, for_rest, while_turned, do_turned, for_turned, turning, all_rounds, looped, for_parts as for_parts_of, for_looped};

use crate::declarations::{begin, declare};
use crate::full_expressions::{decide, for_goes_on, full, give, only, step_on, test_turn};
use c_core::{Arm, Expr, First, Form, IntType, Program, Spot, Stmt, convert, promote};
use c_meaning::{Watcher, type_of};
use run_state::{Flow, Halt, Machine, arrive, select, tick};

#[cycle(run)]
fn exec<W: Watcher>(
    program: &Program,
    machine: &mut Machine,
    watcher: &mut W,
    depth: u64,
    wanted: Option<IntType>,
    s: &Stmt,
) -> Result<Flow, Halt>
    requires bound { machine.old.steps ≤ depth }
    ensures gives { Gives flow_of result (state_of machine.new (W.seen watcher.new))
        (executed (program_view program.now) W.Seen W.after depth wanted (stmt_view s.now)
        (state_of machine.old (W.seen watcher.old))) }
    ensures spends { machine.new.steps ≤ machine.old.steps }
    ensures takes { OnOk result (machine.new.steps < machine.old.steps) }
{
    tick::<W>(machine)?;
    arrive(program, machine, watcher, s.spot)?;
    form(program, machine, watcher, depth, wanted, s.spot, &s.form)
}

/// Does a statement's form.
#[cycle(run)]
pub fn form<W: Watcher>(
    program: &Program,
    machine: &mut Machine,
    watcher: &mut W,
    depth: u64,
    wanted: Option<IntType>,
    at: Spot,
    f: &Form,
) -> Result<Flow, Halt>
    requires bound { machine.old.steps ≤ depth }
    ensures gives { Gives flow_of result (state_of machine.new (W.seen watcher.new))
        (formed (program_view program.now) W.Seen W.after depth wanted at (form_view f.now)
        (state_of machine.old (W.seen watcher.old))) }
    ensures spends { machine.new.steps ≤ machine.old.steps }
{
    match f {
        Form::Empty => Ok(Flow::Next),
        Form::Expr(e) => only(program, machine, watcher, depth, wanted, at, e),
        Form::Declare(names) => declare(program, machine, watcher, depth, at, names.as_slice()),
        Form::Block(body) => block(program, machine, watcher, depth, wanted, body.as_slice()),
        Form::If { test, yes, no } => {
            choose(program, machine, watcher, depth, wanted, at, test, yes, no)
        }
        Form::Break => Ok(Flow::Broken),
        Form::Continue => Ok(Flow::Again),
        Form::Return(e) => give(program, machine, watcher, depth, wanted, at, e),
        Form::Label(s) => exec(program, machine, watcher, depth, wanted, s),
        Form::Switch { test, arms } => switch(
            program,
            machine,
            watcher,
            depth,
            wanted,
            at,
            test,
            arms.as_slice(),
        ),
        Form::While { .. } => loop_scope(program, machine, watcher, depth, wanted, at, f),
        Form::Do { .. } => loop_scope(program, machine, watcher, depth, wanted, at, f),
        Form::For { first, .. } => for_scope(
            program, machine, watcher, depth, wanted, at, first, f,
        ),
    }
}

// Statements in turn, until one is left by a jump.
#[cycle(run)]
fn sequence<W: Watcher>(
    program: &Program,
    machine: &mut Machine,
    watcher: &mut W,
    depth: u64,
    wanted: Option<IntType>,
    body: &[Stmt],
) -> Result<Flow, Halt>
    requires bound { machine.old.steps ≤ depth }
    ensures gives { Gives flow_of result (state_of machine.new (W.seen watcher.new))
        (sequenced (program_view program.now) W.Seen W.after depth wanted (stmts_view body.now)
        (state_of machine.old (W.seen watcher.old))) }
    ensures spends { machine.new.steps ≤ machine.old.steps }
{
    for s in body {
        match exec(program, machine, watcher, depth, wanted, s)? {
            Flow::Next => {}
            flow => return Ok(flow),
        }
    }
    Ok(Flow::Next)
}

// A block: what is declared in it ends with it.
#[cycle(run)]
fn block<W: Watcher>(
    program: &Program,
    machine: &mut Machine,
    watcher: &mut W,
    depth: u64,
    wanted: Option<IntType>,
    body: &[Stmt],
) -> Result<Flow, Halt>
    requires bound { machine.old.steps ≤ depth }
    ensures gives { Gives flow_of result (state_of machine.new (W.seen watcher.new))
        (blocked (program_view program.now) W.Seen W.after depth wanted (stmts_view body.now)
        (state_of machine.old (W.seen watcher.old))) }
    ensures spends { machine.new.steps ≤ machine.old.steps }
{
    let cells = machine.memory.count();
    let flow = sequence(program, machine, watcher, depth, wanted, body)?;
    machine.memory.cut(cells);
    Ok(flow)
}

// A statement that is a block of its own.
#[cycle(run)]
fn arm<W: Watcher>(
    program: &Program,
    machine: &mut Machine,
    watcher: &mut W,
    depth: u64,
    wanted: Option<IntType>,
    s: &Stmt,
) -> Result<Flow, Halt>
    requires bound { machine.old.steps ≤ depth }
    ensures gives { Gives flow_of result (state_of machine.new (W.seen watcher.new))
        (armed (program_view program.now) W.Seen W.after depth wanted (stmt_view s.now)
        (state_of machine.old (W.seen watcher.old))) }
    ensures spends { machine.new.steps ≤ machine.old.steps }
    ensures takes { OnOk result (machine.new.steps < machine.old.steps) }
{
    let cells = machine.memory.count();
    let flow = exec(program, machine, watcher, depth, wanted, s)?;
    machine.memory.cut(cells);
    Ok(flow)
}

#[cycle(run)]
fn otherwise<W: Watcher>(
    program: &Program,
    machine: &mut Machine,
    watcher: &mut W,
    depth: u64,
    wanted: Option<IntType>,
    no: &Option<Box<Stmt>>,
) -> Result<Flow, Halt>
    requires bound { machine.old.steps ≤ depth }
    ensures gives { Gives flow_of result (state_of machine.new (W.seen watcher.new))
        (otherwised (program_view program.now) W.Seen W.after depth wanted (else_part no.now)
        (state_of machine.old (W.seen watcher.old))) }
    ensures spends { machine.new.steps ≤ machine.old.steps }
{
    match no {
        None => Ok(Flow::Next),
        Some(s) => arm(program, machine, watcher, depth, wanted, s),
    }
}

#[cycle(run)]
fn choose<W: Watcher>(
    program: &Program,
    machine: &mut Machine,
    watcher: &mut W,
    depth: u64,
    wanted: Option<IntType>,
    at: Spot,
    test: &Expr,
    yes: &Stmt,
    no: &Option<Box<Stmt>>,
) -> Result<Flow, Halt>
    requires bound { machine.old.steps ≤ depth }
    ensures gives { Gives flow_of result (state_of machine.new (W.seen watcher.new))
        (formed (program_view program.now) W.Seen W.after depth wanted at
        (t.If (expr_view test.now) (stmt_view yes.now) (else_part no.now))
        (state_of machine.old (W.seen watcher.old))) }
    ensures spends { machine.new.steps ≤ machine.old.steps }
{
    if decide(program, machine, watcher, depth, at, test)? {
        arm(program, machine, watcher, depth, wanted, yes)
    } else {
        otherwise(program, machine, watcher, depth, wanted, no)
    }
}

// A `switch`: its labels are looked at once, then the arms are done from the chosen one on.
#[cycle(run)]
fn switch<W: Watcher>(
    program: &Program,
    machine: &mut Machine,
    watcher: &mut W,
    depth: u64,
    wanted: Option<IntType>,
    at: Spot,
    test: &Expr,
    arms: &[Arm],
) -> Result<Flow, Halt>
    requires bound { machine.old.steps ≤ depth }
    ensures gives { Gives flow_of result (state_of machine.new (W.seen watcher.new))
        (formed (program_view program.now) W.Seen W.after depth wanted at
        (t.Switch (expr_view test.now) (switch_view arms.now)) (state_of machine.old (W.seen watcher.old))) }
    ensures spends { machine.new.steps ≤ machine.old.steps }
{
    let value = full(program, machine, watcher, depth, at, true, test)?;
    let ty = promote(program.model, type_of(test));
    let promoted = convert(program.model, ty, value);
    let first = select(program, machine, watcher, at, promoted, arms)?;
    arms_from(program, machine, watcher, depth, wanted, first, arms)
}

// The arms of a `switch` from one by its number on, each running into the next.
#[cycle(run)]
fn arms_from<W: Watcher>(
    program: &Program,
    machine: &mut Machine,
    watcher: &mut W,
    depth: u64,
    wanted: Option<IntType>,
    first: usize,
    arms: &[Arm],
) -> Result<Flow, Halt>
    requires bound { machine.old.steps ≤ depth }
    ensures gives { Gives flow_of result (state_of machine.new (W.seen watcher.new))
        (arms_done (program_view program.now) W.Seen W.after depth wanted first (switch_view arms.now)
        (state_of machine.old (W.seen watcher.old))) }
    ensures spends { machine.new.steps ≤ machine.old.steps }
{
    if first < arms.len() {
        hold_arms(program, machine, watcher, depth, wanted, &arms[first..])
    } else {
        Ok(Flow::Next)
    }
}

// Statements of arms in turn, until one is left by a jump.
#[cycle(run)]
fn sequence_arms<W: Watcher>(
    program: &Program,
    machine: &mut Machine,
    watcher: &mut W,
    depth: u64,
    wanted: Option<IntType>,
    arms: &[Arm],
) -> Result<Flow, Halt>
    requires bound { machine.old.steps ≤ depth }
    ensures gives { Gives flow_of result (state_of machine.new (W.seen watcher.new))
        (sequenced (program_view program.now) W.Seen W.after depth wanted (switch_view arms.now)
        (state_of machine.old (W.seen watcher.old))) }
    ensures spends { machine.new.steps ≤ machine.old.steps }
{
    for arm in arms {
        match sequence(
            program,
            machine,
            watcher,
            depth,
            wanted,
            arm.body.as_slice(),
        )? {
            Flow::Next => {}
            flow => return Ok(flow),
        }
    }
    Ok(Flow::Next)
}

// What is declared in arms ends with the last of them.
#[cycle(run)]
fn scope_arms<W: Watcher>(
    program: &Program,
    machine: &mut Machine,
    watcher: &mut W,
    depth: u64,
    wanted: Option<IntType>,
    arms: &[Arm],
) -> Result<Flow, Halt>
    requires bound { machine.old.steps ≤ depth }
    ensures gives { Gives flow_of result (state_of machine.new (W.seen watcher.new))
        (blocked (program_view program.now) W.Seen W.after depth wanted (switch_view arms.now)
        (state_of machine.old (W.seen watcher.old))) }
    ensures spends { machine.new.steps ≤ machine.old.steps }
{
    let cells = machine.memory.count();
    let flow = sequence_arms(program, machine, watcher, depth, wanted, arms)?;
    machine.memory.cut(cells);
    Ok(flow)
}

// A `break` in arms is their end.
#[cycle(run)]
fn hold_arms<W: Watcher>(
    program: &Program,
    machine: &mut Machine,
    watcher: &mut W,
    depth: u64,
    wanted: Option<IntType>,
    arms: &[Arm],
) -> Result<Flow, Halt>
    requires bound { machine.old.steps ≤ depth }
    ensures gives { Gives flow_of result (state_of machine.new (W.seen watcher.new))
        (held_arms (program_view program.now) W.Seen W.after depth wanted (switch_view arms.now)
        (state_of machine.old (W.seen watcher.old))) }
    ensures spends { machine.new.steps ≤ machine.old.steps }
{
    let flow = scope_arms(program, machine, watcher, depth, wanted, arms)?;
    Ok(after_arms(flow))
}

// After arms that came to their end or were left by `break`, the run goes on after the `switch`.
fn after_arms(flow: Flow) -> Flow
    ensures { flow_of result ≡ acts.held (flow_of flow) }
{
    match flow {
        Flow::Broken => Flow::Next,
        other => other,
    }
}

// After a body that came to its end or was left by `continue`, a loop goes on.
fn after_body(flow: Flow) -> Flow
    ensures { flow_of result ≡ acts.continuing (flow_of flow) }
{
    match flow {
        Flow::Again => Flow::Next,
        other => other,
    }
}

// A loop's body.
#[cycle(run)]
fn loop_body<W: Watcher>(
    program: &Program,
    machine: &mut Machine,
    watcher: &mut W,
    depth: u64,
    wanted: Option<IntType>,
    body: &Stmt,
) -> Result<Flow, Halt>
    requires bound { machine.old.steps ≤ depth }
    ensures gives { Gives flow_of result (state_of machine.new (W.seen watcher.new))
        (bodied (program_view program.now) W.Seen W.after depth wanted (stmt_view body.now)
        (state_of machine.old (W.seen watcher.old))) }
    ensures spends { machine.new.steps ≤ machine.old.steps }
    ensures takes { OnOk result (machine.new.steps < machine.old.steps) }
{
    let flow = arm(program, machine, watcher, depth, wanted, body)?;
    Ok(after_body(flow))
}

#[cycle(run)]
fn while_turn<W: Watcher>(
    program: &Program,
    machine: &mut Machine,
    watcher: &mut W,
    depth: u64,
    wanted: Option<IntType>,
    at: Spot,
    test: &Expr,
    body: &Stmt,
) -> Result<Flow, Halt>
    requires bound { machine.old.steps ≤ depth }
    ensures gives { Gives flow_of result (state_of machine.new (W.seen watcher.new))
        (while_turned (program_view program.now) W.Seen W.after depth wanted at (expr_view test.now)
        (stmt_view body.now) (state_of machine.old (W.seen watcher.old))) }
    ensures spends { machine.new.steps ≤ machine.old.steps }
    ensures ends { StepsIfNext result machine.new.steps machine.old.steps }
{
    if decide(program, machine, watcher, depth, at, test)? {
        loop_body(program, machine, watcher, depth, wanted, body)
    } else {
        Ok(Flow::Broken)
    }
}

#[cycle(run)]
fn do_turn<W: Watcher>(
    program: &Program,
    machine: &mut Machine,
    watcher: &mut W,
    depth: u64,
    wanted: Option<IntType>,
    at: Spot,
    body: &Stmt,
    test: &Expr,
) -> Result<Flow, Halt>
    requires bound { machine.old.steps ≤ depth }
    ensures gives { Gives flow_of result (state_of machine.new (W.seen watcher.new))
        (do_turned (program_view program.now) W.Seen W.after depth wanted at (stmt_view body.now) (expr_view test.now)
        (state_of machine.old (W.seen watcher.old))) }
    ensures spends { machine.new.steps ≤ machine.old.steps }
    ensures ends { StepsIfNext result machine.new.steps machine.old.steps }
{
    match loop_body(program, machine, watcher, depth, wanted, body)? {
        Flow::Next => test_turn(program, machine, watcher, depth, at, test),
        flow => Ok(flow),
    }
}

// The body of a `for` and its last part.
#[cycle(run)]
fn for_body<W: Watcher>(
    program: &Program,
    machine: &mut Machine,
    watcher: &mut W,
    depth: u64,
    wanted: Option<IntType>,
    at: Spot,
    step: &Option<Expr>,
    body: &Stmt,
) -> Result<Flow, Halt>
    requires bound { machine.old.steps ≤ depth }
    ensures gives { Gives flow_of result (state_of machine.new (W.seen watcher.new))
        (for_rest (program_view program.now) W.Seen W.after depth wanted at (expr_view_if step.now) (stmt_view body.now)
        (state_of machine.old (W.seen watcher.old))) }
    ensures spends { machine.new.steps ≤ machine.old.steps }
    ensures ends { StepsIfNext result machine.new.steps machine.old.steps }
{
    match loop_body(program, machine, watcher, depth, wanted, body)? {
        Flow::Next => step_on(program, machine, watcher, depth, at, step),
        flow => Ok(flow),
    }
}

#[cycle(run)]
fn for_turn<W: Watcher>(
    program: &Program,
    machine: &mut Machine,
    watcher: &mut W,
    depth: u64,
    wanted: Option<IntType>,
    at: Spot,
    test: &Option<Expr>,
    step: &Option<Expr>,
    body: &Stmt,
) -> Result<Flow, Halt>
    requires bound { machine.old.steps ≤ depth }
    ensures gives { Gives flow_of result (state_of machine.new (W.seen watcher.new))
        (for_turned (program_view program.now) W.Seen W.after depth wanted at (expr_view_if test.now)
        (expr_view_if step.now) (stmt_view body.now) (state_of machine.old (W.seen watcher.old))) }
    ensures spends { machine.new.steps ≤ machine.old.steps }
    ensures ends { StepsIfNext result machine.new.steps machine.old.steps }
{
    if for_goes_on(program, machine, watcher, depth, at, test)? {
        for_body(program, machine, watcher, depth, wanted, at, step, body)
    } else {
        Ok(Flow::Broken)
    }
}

// One turn of the loop that a form is; any other form is left at once.
#[cycle(run)]
fn turn<W: Watcher>(
    program: &Program,
    machine: &mut Machine,
    watcher: &mut W,
    depth: u64,
    wanted: Option<IntType>,
    at: Spot,
    f: &Form,
) -> Result<Flow, Halt>
    requires bound { machine.old.steps ≤ depth }
    ensures gives { Gives flow_of result (state_of machine.new (W.seen watcher.new))
        (turning (program_view program.now) W.Seen W.after depth wanted at (loop_in (form_view f.now))
        (state_of machine.old (W.seen watcher.old))) }
    ensures spends { machine.new.steps ≤ machine.old.steps }
    ensures ends { StepsIfNext result machine.new.steps machine.old.steps }
{
    match f {
        Form::While { test, body } => while_turn(
            program, machine, watcher, depth, wanted, at, test, body,
        ),
        Form::Do { body, test } => do_turn(
            program, machine, watcher, depth, wanted, at, body, test,
        ),
        Form::For {
            test,
            step,
            body,
            ..
        } => for_turn(
            program, machine, watcher, depth, wanted, at, test, step, body,
        ),
        _ => Ok(Flow::Broken),
    }
}

// The turns of the loop that a form is.
#[cycle(run)]
fn turns<W: Watcher>(
    program: &Program,
    machine: &mut Machine,
    watcher: &mut W,
    depth: u64,
    wanted: Option<IntType>,
    at: Spot,
    f: &Form,
) -> Result<Flow, Halt>
    requires bound { machine.old.steps ≤ depth }
    ensures gives { Gives flow_of result (state_of machine.new (W.seen watcher.new))
        (all_rounds (program_view program.now) W.Seen W.after depth wanted at (loop_in (form_view f.now))
        (state_of machine.old (W.seen watcher.old))) }
    ensures spends { machine.new.steps ≤ machine.old.steps }
{
    'turns: loop {
        match turn(program, machine, watcher, depth, wanted, at, f)? {
            Flow::Next => {}
            Flow::Broken => return Ok(Flow::Next),
            flow => return Ok(flow),
        }
    }
}

// A loop at its head: what its turns declare ends with it.
#[cycle(run)]
fn loop_scope<W: Watcher>(
    program: &Program,
    machine: &mut Machine,
    watcher: &mut W,
    depth: u64,
    wanted: Option<IntType>,
    at: Spot,
    f: &Form,
) -> Result<Flow, Halt>
    requires bound { machine.old.steps ≤ depth }
    ensures gives { Gives flow_of result (state_of machine.new (W.seen watcher.new))
        (looped (program_view program.now) W.Seen W.after depth wanted at (loop_in (form_view f.now))
        (state_of machine.old (W.seen watcher.old))) }
    ensures spends { machine.new.steps ≤ machine.old.steps }
{
    let cells = machine.memory.count();
    let flow = turns(program, machine, watcher, depth, wanted, at, f)?;
    machine.memory.cut(cells);
    Ok(flow)
}

#[cycle(run)]
fn for_parts<W: Watcher>(
    program: &Program,
    machine: &mut Machine,
    watcher: &mut W,
    depth: u64,
    wanted: Option<IntType>,
    at: Spot,
    first: &First,
    f: &Form,
) -> Result<Flow, Halt>
    requires bound { machine.old.steps ≤ depth }
    ensures gives { Gives flow_of result (state_of machine.new (W.seen watcher.new))
        (for_parts_of (program_view program.now) W.Seen W.after depth wanted at (first_view first.now)
        (loop_in (form_view f.now)) (state_of machine.old (W.seen watcher.old))) }
    ensures spends { machine.new.steps ≤ machine.old.steps }
{
    match begin(program, machine, watcher, depth, at, first)? {
        Flow::Next => loop_scope(program, machine, watcher, depth, wanted, at, f),
        flow => Ok(flow),
    }
}

// A `for`: what its first part declares ends with it.
#[cycle(run)]
fn for_scope<W: Watcher>(
    program: &Program,
    machine: &mut Machine,
    watcher: &mut W,
    depth: u64,
    wanted: Option<IntType>,
    at: Spot,
    first: &First,
    f: &Form,
) -> Result<Flow, Halt>
    requires bound { machine.old.steps ≤ depth }
    ensures gives { Gives flow_of result (state_of machine.new (W.seen watcher.new))
        (for_looped (program_view program.now) W.Seen W.after depth wanted at (first_view first.now)
        (loop_in (form_view f.now)) (state_of machine.old (W.seen watcher.old))) }
    ensures spends { machine.new.steps ≤ machine.old.steps }
{
    let cells = machine.memory.count();
    let flow = for_parts(program, machine, watcher, depth, wanted, at, first, f)?;
    machine.memory.cut(cells);
    Ok(flow)
}
