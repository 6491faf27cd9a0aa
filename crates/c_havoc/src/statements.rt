// Statements: one function for each form.
ghost use Rattle.std.specs.Prelude.{◌≡◌};
ghost use Rattle.c_core.specs.Tree as t;
ghost use Rattle.c_core.specs.View.{program_view, expr_view, expr_view_if, stmt_view, stmts_view, switch_view, first_view, form_view};
ghost use Rattle.c_meaning.specs.Acts as acts;
ghost use Rattle.run_state.specs.Interpreting.{flow_of, else_part};
ghost use Rattle.c_calls.specs.Loops.{loop_of};
ghost use Rattle.c_meaning.specs.Placing.{placed_view};
ghost use Rattle.havoc_state.specs.Havocking.{Gives, left_of, executed, formed, sequenced, blocked, arms_done, held_arms, armed, otherwised, bodied, for_rest, while_turned, do_turned, for_turned, turning, turned_once, looped, for_parts as for_parts_of, for_looped};

use crate::declarations::{begin, declare};
use crate::full_expressions::{decide, for_goes_on, full, give, only, step_on, test_turn};
use crate::loops::open_loop;
use c_core::{Arm, Expr, First, Form, IntType, Program, Spot, Stmt, convert, promote};
use c_meaning::{PlacedInvariant, type_of};
use havoc_state::{Halt, Machine, arrive, close};
use run_state::{Flow, arm_for};

#[cycle(run)]
fn exec(
    program: &Program,
    invariants: &[PlacedInvariant],
    machine: &mut Machine,
    depth: u64,
    wanted: Option<IntType>,
    s: &Stmt,
) -> Result<Flow, Halt>
    ensures { Gives flow_of result (left_of machine.new)
        (executed (program_view program.now) (placed_view invariants.now) depth wanted (stmt_view s.now)
        (left_of machine.old)) }
{
    arrive(program, invariants, machine, s.spot)?;
    form(program, invariants, machine, depth, wanted, s.spot, &s.form)
}

/// Does a statement's form.
#[cycle(run)]
pub fn form(
    program: &Program,
    invariants: &[PlacedInvariant],
    machine: &mut Machine,
    depth: u64,
    wanted: Option<IntType>,
    at: Spot,
    f: &Form,
) -> Result<Flow, Halt>
    ensures { Gives flow_of result (left_of machine.new)
        (formed (program_view program.now) (placed_view invariants.now) depth wanted at (form_view f.now)
        (left_of machine.old)) }
{
    match f {
        Form::Empty => Ok(Flow::Next),
        Form::Expr(e) => only(program, invariants, machine, depth, wanted, at, e),
        Form::Declare(names) => declare(program, invariants, machine, depth, at, names.as_slice()),
        Form::Block(body) => block(program, invariants, machine, depth, wanted, body.as_slice()),
        Form::If { test, yes, no } => {
            choose(
                program, invariants, machine, depth, wanted, at, test, yes, no,
            )
        }
        Form::Break => Ok(Flow::Broken),
        Form::Continue => Ok(Flow::Again),
        Form::Return(e) => give(program, invariants, machine, depth, wanted, at, e),
        Form::Label(s) => exec(program, invariants, machine, depth, wanted, s),
        Form::Switch { test, arms } => switch(
            program,
            invariants,
            machine,
            depth,
            wanted,
            at,
            test,
            arms.as_slice(),
        ),
        Form::While { .. } => loop_scope(program, invariants, machine, depth, wanted, at, f),
        Form::Do { .. } => loop_scope(program, invariants, machine, depth, wanted, at, f),
        Form::For { first, .. } => for_scope(
            program, invariants, machine, depth, wanted, at, first, f,
        ),
    }
}

// Statements in turn, until one is left by a jump.
#[cycle(run)]
fn sequence(
    program: &Program,
    invariants: &[PlacedInvariant],
    machine: &mut Machine,
    depth: u64,
    wanted: Option<IntType>,
    body: &[Stmt],
) -> Result<Flow, Halt>
    ensures { Gives flow_of result (left_of machine.new)
        (sequenced (program_view program.now) (placed_view invariants.now) depth wanted (stmts_view body.now)
        (left_of machine.old)) }
{
    for s in body {
        match exec(program, invariants, machine, depth, wanted, s)? {
            Flow::Next => {}
            flow => return Ok(flow),
        }
    }
    Ok(Flow::Next)
}

// A block: what is declared in it ends with it.
#[cycle(run)]
fn block(
    program: &Program,
    invariants: &[PlacedInvariant],
    machine: &mut Machine,
    depth: u64,
    wanted: Option<IntType>,
    body: &[Stmt],
) -> Result<Flow, Halt>
    ensures { Gives flow_of result (left_of machine.new)
        (blocked (program_view program.now) (placed_view invariants.now) depth wanted (stmts_view body.now)
        (left_of machine.old)) }
{
    let cells = machine.memory.count();
    let flow = sequence(program, invariants, machine, depth, wanted, body)?;
    machine.memory.cut(cells);
    Ok(flow)
}

// A statement that is a block of its own.
#[cycle(run)]
fn arm(
    program: &Program,
    invariants: &[PlacedInvariant],
    machine: &mut Machine,
    depth: u64,
    wanted: Option<IntType>,
    s: &Stmt,
) -> Result<Flow, Halt>
    ensures { Gives flow_of result (left_of machine.new)
        (armed (program_view program.now) (placed_view invariants.now) depth wanted (stmt_view s.now)
        (left_of machine.old)) }
{
    let cells = machine.memory.count();
    let flow = exec(program, invariants, machine, depth, wanted, s)?;
    machine.memory.cut(cells);
    Ok(flow)
}

#[cycle(run)]
fn otherwise(
    program: &Program,
    invariants: &[PlacedInvariant],
    machine: &mut Machine,
    depth: u64,
    wanted: Option<IntType>,
    no: &Option<Box<Stmt>>,
) -> Result<Flow, Halt>
    ensures { Gives flow_of result (left_of machine.new)
        (otherwised (program_view program.now) (placed_view invariants.now) depth wanted (else_part no.now)
        (left_of machine.old)) }
{
    match no {
        None => Ok(Flow::Next),
        Some(s) => arm(program, invariants, machine, depth, wanted, s),
    }
}

#[cycle(run)]
fn choose(
    program: &Program,
    invariants: &[PlacedInvariant],
    machine: &mut Machine,
    depth: u64,
    wanted: Option<IntType>,
    at: Spot,
    test: &Expr,
    yes: &Stmt,
    no: &Option<Box<Stmt>>,
) -> Result<Flow, Halt>
    ensures { Gives flow_of result (left_of machine.new)
        (formed (program_view program.now) (placed_view invariants.now) depth wanted at
        (t.If (expr_view test.now) (stmt_view yes.now) (else_part no.now)) (left_of machine.old)) }
{
    if decide(program, invariants, machine, depth, at, test)? {
        arm(program, invariants, machine, depth, wanted, yes)
    } else {
        otherwise(program, invariants, machine, depth, wanted, no)
    }
}

// A `switch`: its labels are looked at once, then the arms are done from the chosen one on.
#[cycle(run)]
fn switch(
    program: &Program,
    invariants: &[PlacedInvariant],
    machine: &mut Machine,
    depth: u64,
    wanted: Option<IntType>,
    at: Spot,
    test: &Expr,
    arms: &[Arm],
) -> Result<Flow, Halt>
    ensures { Gives flow_of result (left_of machine.new)
        (formed (program_view program.now) (placed_view invariants.now) depth wanted at
        (t.Switch (expr_view test.now) (switch_view arms.now)) (left_of machine.old)) }
{
    let value = full(program, invariants, machine, depth, at, true, test)?;
    let ty = promote(program.model, type_of(test));
    let first = arm_for(convert(program.model, ty, value), arms);
    arms_from(program, invariants, machine, depth, wanted, first, arms)
}

// The arms of a `switch` from one by its number on, each running into the next.
#[cycle(run)]
fn arms_from(
    program: &Program,
    invariants: &[PlacedInvariant],
    machine: &mut Machine,
    depth: u64,
    wanted: Option<IntType>,
    first: usize,
    arms: &[Arm],
) -> Result<Flow, Halt>
    ensures { Gives flow_of result (left_of machine.new)
        (arms_done (program_view program.now) (placed_view invariants.now) depth wanted first (switch_view arms.now)
        (left_of machine.old)) }
{
    if first < arms.len() {
        hold_arms(program, invariants, machine, depth, wanted, &arms[first..])
    } else {
        Ok(Flow::Next)
    }
}

// Statements of arms in turn, until one is left by a jump.
#[cycle(run)]
fn sequence_arms(
    program: &Program,
    invariants: &[PlacedInvariant],
    machine: &mut Machine,
    depth: u64,
    wanted: Option<IntType>,
    arms: &[Arm],
) -> Result<Flow, Halt>
    ensures { Gives flow_of result (left_of machine.new)
        (sequenced (program_view program.now) (placed_view invariants.now) depth wanted (switch_view arms.now)
        (left_of machine.old)) }
{
    for arm in arms {
        let body = arm.body.as_slice();
        match sequence(program, invariants, machine, depth, wanted, body)? {
            Flow::Next => {}
            flow => return Ok(flow),
        }
    }
    Ok(Flow::Next)
}

// What is declared in arms ends with the last of them.
#[cycle(run)]
fn scope_arms(
    program: &Program,
    invariants: &[PlacedInvariant],
    machine: &mut Machine,
    depth: u64,
    wanted: Option<IntType>,
    arms: &[Arm],
) -> Result<Flow, Halt>
    ensures { Gives flow_of result (left_of machine.new)
        (blocked (program_view program.now) (placed_view invariants.now) depth wanted (switch_view arms.now)
        (left_of machine.old)) }
{
    let cells = machine.memory.count();
    let flow = sequence_arms(program, invariants, machine, depth, wanted, arms)?;
    machine.memory.cut(cells);
    Ok(flow)
}

// A `break` in arms is their end.
#[cycle(run)]
fn hold_arms(
    program: &Program,
    invariants: &[PlacedInvariant],
    machine: &mut Machine,
    depth: u64,
    wanted: Option<IntType>,
    arms: &[Arm],
) -> Result<Flow, Halt>
    ensures { Gives flow_of result (left_of machine.new)
        (held_arms (program_view program.now) (placed_view invariants.now) depth wanted (switch_view arms.now)
        (left_of machine.old)) }
{
    let flow = scope_arms(program, invariants, machine, depth, wanted, arms)?;
    Ok(after_arms(flow))
}

// After arms that came to their end or were left by `break`, the run goes on after the `switch`.
fn after_arms(flow: Flow) -> Flow
    ensures { flow_of result ≡ acts.held (flow_of flow) }
{
    match flow {
        Flow::Broken => Flow::Next,
        other => other,
    }
}

// After a body that came to its end or was left by `continue`, a loop goes on.
fn after_body(flow: Flow) -> Flow
    ensures { flow_of result ≡ acts.continuing (flow_of flow) }
{
    match flow {
        Flow::Again => Flow::Next,
        other => other,
    }
}

// A loop's body.
#[cycle(run)]
fn loop_body(
    program: &Program,
    invariants: &[PlacedInvariant],
    machine: &mut Machine,
    depth: u64,
    wanted: Option<IntType>,
    body: &Stmt,
) -> Result<Flow, Halt>
    ensures { Gives flow_of result (left_of machine.new)
        (bodied (program_view program.now) (placed_view invariants.now) depth wanted (stmt_view body.now)
        (left_of machine.old)) }
{
    let flow = arm(program, invariants, machine, depth, wanted, body)?;
    Ok(after_body(flow))
}

#[cycle(run)]
fn while_turn(
    program: &Program,
    invariants: &[PlacedInvariant],
    machine: &mut Machine,
    depth: u64,
    wanted: Option<IntType>,
    at: Spot,
    test: &Expr,
    body: &Stmt,
) -> Result<Flow, Halt>
    ensures { Gives flow_of result (left_of machine.new)
        (while_turned (program_view program.now) (placed_view invariants.now) depth wanted at (expr_view test.now)
        (stmt_view body.now) (left_of machine.old)) }
{
    if decide(program, invariants, machine, depth, at, test)? {
        loop_body(program, invariants, machine, depth, wanted, body)
    } else {
        Ok(Flow::Broken)
    }
}

#[cycle(run)]
fn do_turn(
    program: &Program,
    invariants: &[PlacedInvariant],
    machine: &mut Machine,
    depth: u64,
    wanted: Option<IntType>,
    at: Spot,
    body: &Stmt,
    test: &Expr,
) -> Result<Flow, Halt>
    ensures { Gives flow_of result (left_of machine.new)
        (do_turned (program_view program.now) (placed_view invariants.now) depth wanted at (stmt_view body.now)
        (expr_view test.now) (left_of machine.old)) }
{
    match loop_body(program, invariants, machine, depth, wanted, body)? {
        Flow::Next => test_turn(program, invariants, machine, depth, at, test),
        flow => Ok(flow),
    }
}

// The body of a `for` and its last part.
#[cycle(run)]
fn for_body(
    program: &Program,
    invariants: &[PlacedInvariant],
    machine: &mut Machine,
    depth: u64,
    wanted: Option<IntType>,
    at: Spot,
    step: &Option<Expr>,
    body: &Stmt,
) -> Result<Flow, Halt>
    ensures { Gives flow_of result (left_of machine.new)
        (for_rest (program_view program.now) (placed_view invariants.now) depth wanted at (expr_view_if step.now)
        (stmt_view body.now) (left_of machine.old)) }
{
    match loop_body(program, invariants, machine, depth, wanted, body)? {
        Flow::Next => step_on(program, invariants, machine, depth, at, step),
        flow => Ok(flow),
    }
}

#[cycle(run)]
fn for_turn(
    program: &Program,
    invariants: &[PlacedInvariant],
    machine: &mut Machine,
    depth: u64,
    wanted: Option<IntType>,
    at: Spot,
    test: &Option<Expr>,
    step: &Option<Expr>,
    body: &Stmt,
) -> Result<Flow, Halt>
    ensures { Gives flow_of result (left_of machine.new)
        (for_turned (program_view program.now) (placed_view invariants.now) depth wanted at (expr_view_if test.now)
        (expr_view_if step.now) (stmt_view body.now) (left_of machine.old)) }
{
    if for_goes_on(program, invariants, machine, depth, at, test)? {
        for_body(program, invariants, machine, depth, wanted, at, step, body)
    } else {
        Ok(Flow::Broken)
    }
}

// The turn of the loop that a form is; any other form is left at once.
#[cycle(run)]
fn turn(
    program: &Program,
    invariants: &[PlacedInvariant],
    machine: &mut Machine,
    depth: u64,
    wanted: Option<IntType>,
    at: Spot,
    f: &Form,
) -> Result<Flow, Halt>
    ensures { Gives flow_of result (left_of machine.new)
        (turning (program_view program.now) (placed_view invariants.now) depth wanted at (loop_of (form_view f.now))
        (left_of machine.old)) }
{
    match f {
        Form::While { test, body } => while_turn(
            program, invariants, machine, depth, wanted, at, test, body,
        ),
        Form::Do { body, test } => do_turn(
            program, invariants, machine, depth, wanted, at, body, test,
        ),
        Form::For {
            test,
            step,
            body,
            ..
        } => for_turn(
            program, invariants, machine, depth, wanted, at, test, step, body,
        ),
        _ => Ok(Flow::Broken),
    }
}

// A loop at its head: what it changes is drawn, and its one turn is done.
#[cycle(run)]
fn turn_once(
    program: &Program,
    invariants: &[PlacedInvariant],
    machine: &mut Machine,
    depth: u64,
    wanted: Option<IntType>,
    at: Spot,
    f: &Form,
) -> Result<Flow, Halt>
    ensures { Gives flow_of result (left_of machine.new)
        (turned_once (program_view program.now) (placed_view invariants.now) depth wanted at (loop_of (form_view f.now))
        (left_of machine.old)) }
{
    open_loop(program, invariants, machine, at, f)?;
    let flow = turn(program, invariants, machine, depth, wanted, at, f)?;
    close(program, invariants, machine, at, flow)
}

// A loop: what its turn declares ends with it.
#[cycle(run)]
fn loop_scope(
    program: &Program,
    invariants: &[PlacedInvariant],
    machine: &mut Machine,
    depth: u64,
    wanted: Option<IntType>,
    at: Spot,
    f: &Form,
) -> Result<Flow, Halt>
    ensures { Gives flow_of result (left_of machine.new)
        (looped (program_view program.now) (placed_view invariants.now) depth wanted at (loop_of (form_view f.now))
        (left_of machine.old)) }
{
    let cells = machine.memory.count();
    let flow = turn_once(program, invariants, machine, depth, wanted, at, f)?;
    machine.memory.cut(cells);
    Ok(flow)
}

#[cycle(run)]
fn for_parts(
    program: &Program,
    invariants: &[PlacedInvariant],
    machine: &mut Machine,
    depth: u64,
    wanted: Option<IntType>,
    at: Spot,
    first: &First,
    f: &Form,
) -> Result<Flow, Halt>
    ensures { Gives flow_of result (left_of machine.new)
        (for_parts_of (program_view program.now) (placed_view invariants.now) depth wanted at (first_view first.now)
        (loop_of (form_view f.now)) (left_of machine.old)) }
{
    match begin(program, invariants, machine, depth, at, first)? {
        Flow::Next => loop_scope(program, invariants, machine, depth, wanted, at, f),
        flow => Ok(flow),
    }
}

// A `for`: what its first part declares ends with it.
#[cycle(run)]
fn for_scope(
    program: &Program,
    invariants: &[PlacedInvariant],
    machine: &mut Machine,
    depth: u64,
    wanted: Option<IntType>,
    at: Spot,
    first: &First,
    f: &Form,
) -> Result<Flow, Halt>
    ensures { Gives flow_of result (left_of machine.new)
        (for_looped (program_view program.now) (placed_view invariants.now) depth wanted at (first_view first.now)
        (loop_of (form_view f.now)) (left_of machine.old)) }
{
    let cells = machine.memory.count();
    let flow = for_parts(program, invariants, machine, depth, wanted, at, first, f)?;
    machine.memory.cut(cells);
    Ok(flow)
}
