// How many operations the code of a part has. Each part asks for the sizes of those that its jumps pass: a part is
// counted at most as often as it is deep, and the front end bounds the depth.
ghost use Rattle.std.specs.Prelude.{◌≡◌, ◌+◌, None, IfOk};
ghost use Rattle.c_core.specs.Tree as t;
ghost use Rattle.c_core.specs.View.{expr_view, exprs_view, rows_view, node_view, expr_view_if, init_view, names_view, first_view, form_view, stmt_view, stmts_view, switch_view};
ghost use Rattle.run_state.specs.Interpreting.{else_part};
ghost use Rattle.flow_code.specs.Sizes as spec;

use crate::emit::{more, one_if, operand_of};
use c_core::{Arm, BinOp, Callee, Declared, Expr, First, Form, Init, Node, Row, Stmt};
use wv_base::OutOfMemory;

/// The scopes that are open: in what `break` leaves, in a turn of the innermost loop, in the function.
#[derive(Clone, Copy)]
pub struct Depth {
    pub inner: u32,
    pub turn: u32,
    pub scopes: u32,
}

/// Where nothing is open.
pub fn outermost() -> Depth
    ensures { result ≡ spec.outermost }
{
    Depth {
        inner: 0,
        turn: 0,
        scopes: 0,
    }
}

/// Inside one scope more, where it is there.
pub fn deep(there: bool, depth: Depth) -> Result<Depth, OutOfMemory>
    ensures { IfOk result (λ d. d ≡ spec.deep there depth) }
{
    let by = one_if(there);
    let inner = more(depth.inner, by)?;
    let turn = more(depth.turn, by)?;
    let scopes = more(depth.scopes, by)?;
    Ok(Depth {
        inner,
        turn,
        scopes,
    })
}

/// At the start of a loop's turn.
pub fn in_turn(depth: Depth) -> Depth
    ensures { result ≡ spec.in_turn depth }
{
    Depth {
        inner: 0,
        turn: 0,
        scopes: depth.scopes,
    }
}

/// At the arms of a `switch`.
pub fn in_arms(depth: Depth) -> Depth
    ensures { result ≡ spec.in_arms depth }
{
    Depth {
        inner: 0,
        turn: depth.turn,
        scopes: depth.scopes,
    }
}

// The sum of three.
fn all(a: u32, b: u32, c: u32) -> Result<u32, OutOfMemory>
    ensures { IfOk result (λ n. n ≡ a + b + c) }
{
    let two = more(a, b)?;
    let sum = more(two, c)?;
    Ok(sum)
}

/// An expression's code.
#[cycle(size)]
pub fn size(e: &Expr) -> Result<u32, OutOfMemory>
    ensures { IfOk result (λ n. n ≡ spec.size (expr_view e.now)) }
{
    match &e.node {
        Node::Const(_) => Ok(1),
        Node::Var(_) => Ok(1),
        Node::Index { at, .. } => size_of_element(at.as_slice()),
        Node::Unary { of, .. } => size_with_one(of),
        Node::Cast(of) => match e.ty {
            None => size(of),
            Some(_) => size_with_one(of),
        },
        Node::Step { target, .. } => {
            let aim = size_of_aim(target)?;
            let sum = more(aim, 1)?;
            Ok(sum)
        }
        Node::Binary { left, right, .. } => size_with_two(left, right),
        Node::Logic { left, right, .. } => {
            let first = size(left)?;
            let second = size_with_one(right)?;
            let sum = all(first, second, 2)?;
            Ok(sum)
        }
        Node::Choose { test, yes, no, .. } => {
            let test = size(test)?;
            let yes = size(yes)?;
            let no = size(no)?;
            let arms = all(yes, no, 3)?;
            let sum = more(test, arms)?;
            Ok(sum)
        }
        Node::Comma { first, last } => {
            let first = size(first)?;
            let last = size(last)?;
            let sum = more(first, last)?;
            Ok(sum)
        }
        Node::Assign { op, target, from } => size_of_assign(*op, target, from),
        Node::Call {
            callee,
            args,
            close,
        } => {
            let values = size_of_all(args.as_slice())?;
            let sum = more(size_of_callee(*callee), values)?;
            Ok(sum)
        }
    }
}

// The code of an assignment, which reads its target where it has an operator.
#[cycle(size)]
fn size_of_assign(op: Option<BinOp>, target: &Expr, from: &Expr) -> Result<u32, OutOfMemory>
    ensures { IfOk result (λ n. n ≡ spec.size_of_node None (t.Assign op (expr_view target.now) (expr_view from.now))) }
{
    let aim = size_of_aim(target)?;
    match op {
        None => {
            let value = size_stored(from)?;
            let sum = more(aim, value)?;
            Ok(sum)
        }
        Some(_) => {
            let value = size_of_second(target, from)?;
            let sum = more(aim, value)?;
            Ok(sum)
        }
    }
}

// The code of an element's indexes, and an operation that takes the cell.
#[cycle(size)]
fn size_of_element(indexes: &[Expr]) -> Result<u32, OutOfMemory>
    ensures { IfOk result (λ n. n ≡ spec.size_of_element (exprs_view indexes.now)) }
{
    match indexes {
        [] => Ok(1),
        [index] => size_with_one(index),
        [row, column] => {
            let both = size_with_two(row, column)?;
            let sum = more(both, 1)?;
            Ok(sum)
        }
        // no element of a checked program
        _ => {
            let all = size_of_all(indexes)?;
            let sum = more(all, 1)?;
            Ok(sum)
        }
    }
}

// The code of arguments.
#[cycle(size)]
fn size_of_all(args: &[Expr]) -> Result<u32, OutOfMemory>
    ensures { IfOk result (λ n. n ≡ spec.size_of_all (exprs_view args.now)) }
{
    let mut sum = 0;
    for e in args {
        let one = size(e)?;
        sum = more(sum, one)?;
    }
    Ok(sum)
}

fn size_of_callee(callee: Callee) -> u32
    ensures { result ≡ spec.size_of_callee callee }
{
    match callee {
        Callee::Defined(_) => 3,
        _ => 2,
    }
}

/// The code of an operand, and an operation that takes it.
#[cycle(size)]
pub fn size_with_one(e: &Expr) -> Result<u32, OutOfMemory>
    ensures { IfOk result (λ n. n ≡ spec.with_one (spec.operand_of (expr_view e.now)) (spec.size (expr_view e.now))) }
{
    match operand_of(e) {
        Some(_) => Ok(1),
        None => {
            let inner = size(e)?;
            let sum = more(inner, 1)?;
            Ok(sum)
        }
    }
}

// The code of two operands, and an operation that takes them.
#[cycle(size)]
fn size_with_two(a: &Expr, b: &Expr) -> Result<u32, OutOfMemory>
    ensures { IfOk result (λ n. n
        ≡ spec.with_two (spec.operand_of (expr_view a.now)) (spec.operand_of (expr_view b.now))
        (spec.size (expr_view a.now)) (spec.size (expr_view b.now))) }
{
    match operand_of(a) {
        Some(_) => size_behind_operand(b),
        None => {
            let first = size(a)?;
            let second = size_with_one(b)?;
            let sum = more(first, second)?;
            Ok(sum)
        }
    }
}

// The code of a second operand behind one that isn't on the stack, and an operation that takes both.
#[cycle(size)]
fn size_behind_operand(b: &Expr) -> Result<u32, OutOfMemory>
    ensures { IfOk result (λ n. n
        ≡ spec.behind_operand (spec.operand_of (expr_view b.now)) (spec.size (expr_view b.now))) }
{
    match operand_of(b) {
        Some(_) => Ok(1),
        None => {
            let second = size(b)?;
            let sum = more(second, 2)?;
            Ok(sum)
        }
    }
}

// The code that finds an element that is written; there is none for a scalar.
#[cycle(size)]
fn size_of_aim(target: &Expr) -> Result<u32, OutOfMemory>
    ensures { IfOk result (λ n. n ≡ spec.size_of_aim (expr_view target.now)) }
{
    match &target.node {
        Node::Index { at, .. } => size_of_element(at.as_slice()),
        _ => Ok(0),
    }
}

// The code of a right side whose left side is a target's value.
#[cycle(size)]
fn size_of_second(target: &Expr, from: &Expr) -> Result<u32, OutOfMemory>
    ensures { IfOk result (λ n. n
        ≡ spec.with_target (node_view target.now.node) (spec.operand_of (expr_view from.now))
        (spec.size (expr_view from.now))) }
{
    match &target.node {
        Node::Index { .. } => size_with_one(from),
        _ => size_behind_operand(from),
    }
}

/// The code of a value that is stored.
#[cycle(size)]
pub fn size_stored(e: &Expr) -> Result<u32, OutOfMemory>
    ensures { IfOk result (λ n. n ≡ spec.size_stored (expr_view e.now)) }
{
    match &e.node {
        Node::Binary { left, right, .. } => size_with_two(left, right),
        _ => size_with_one(e),
    }
}

/// Does a statement declare names in the scope that it stands in?
pub fn leaks(s: &Stmt) -> bool
    ensures { result ≡ spec.leaks (stmt_view s.now) }
{
    match &s.form {
        Form::Declare(_) => true,
        Form::Label(inner) => leaks(inner),
        _ => false,
    }
}

/// Does any of these?
pub fn any_leaks(body: &[Stmt]) -> bool
    ensures { result ≡ spec.any_leaks (stmts_view body.now) }
{
    for s in body {
        if leaks(s) {
            return true;
        }
    }
    false
}

/// Does any statement of these arms?
pub fn any_arm_leaks(arms: &[Arm]) -> bool
    ensures { result ≡ spec.any_leaks (switch_view arms.now) }
{
    for arm in arms {
        if any_leaks(arm.body.as_slice()) {
            return true;
        }
    }
    false
}

/// Does the first part of a `for` declare names?
pub fn first_leaks(first: &First) -> bool
    ensures { result ≡ spec.first_leaks (first_view first.now) }
{
    match first {
        First::Declare(_) => true,
        _ => false,
    }
}

// Two operations more where there is a scope.
fn with_scope(there: bool, inner: u32) -> Result<u32, OutOfMemory>
    ensures { IfOk result (λ n. n ≡ spec.with_scope there inner) }
{
    if there {
        let sum = more(inner, 2)?;
        Ok(sum)
    } else {
        Ok(inner)
    }
}

/// The code of an expression, if there is one.
pub fn size_if(e: &Option<Expr>) -> Result<u32, OutOfMemory>
    ensures { IfOk result (λ n. n ≡ spec.size_if (expr_view_if e.now)) }
{
    match e {
        None => Ok(0),
        Some(e) => size(e),
    }
}

/// The code of a loop's test, or of the jump in its place.
pub fn size_of_test(e: &Option<Expr>) -> Result<u32, OutOfMemory>
    ensures { IfOk result (λ n. n ≡ spec.size_of_test (expr_view_if e.now)) }
{
    match e {
        None => Ok(1),
        Some(e) => size(e),
    }
}

fn size_of_values(values: &[Expr]) -> Result<u32, OutOfMemory>
    ensures { IfOk result (λ n. n ≡ spec.size_of_values (exprs_view values.now)) }
{
    let mut sum = 0;
    for e in values {
        let one = size_stored(e)?;
        sum = more(sum, one)?;
    }
    Ok(sum)
}

fn size_of_rows(rows: &[Row]) -> Result<u32, OutOfMemory>
    ensures { IfOk result (λ n. n ≡ spec.size_of_rows (rows_view rows.now)) }
{
    let mut sum = 0;
    for row in rows {
        let one = size_of_values(row.values.as_slice())?;
        sum = more(sum, one)?;
    }
    Ok(sum)
}

fn size_of_init(init: &Init) -> Result<u32, OutOfMemory>
    ensures { IfOk result (λ n. n ≡ spec.size_of_init (init_view init.now)) }
{
    match init {
        Init::Absent => Ok(0),
        Init::One(e) => size_stored(e),
        Init::Many(values) => size_of_values(values.as_slice()),
        Init::Rows(rows) => size_of_rows(rows.as_slice()),
    }
}

fn size_of_names(names: &[Declared]) -> Result<u32, OutOfMemory>
    ensures { IfOk result (λ n. n ≡ spec.size_of_names (names_view names.now)) }
{
    let mut sum = 0;
    for name in names {
        let init = size_of_init(&name.init)?;
        sum = all(sum, init, 1)?;
    }
    Ok(sum)
}

// The code of the first part of a `for`.
fn size_of_first(first: &First) -> Result<u32, OutOfMemory>
    ensures { IfOk result (λ n. n ≡ spec.size_of_first (first_view first.now)) }
{
    match first {
        First::Absent => Ok(0),
        First::Expr(e) => size(e),
        First::Declare(names) => size_of_names(names.as_slice()),
    }
}

/// A statement's code, where these scopes are open.
#[cycle(size_of_statement)]
pub fn size_of_statement(s: &Stmt, depth: Depth) -> Result<u32, OutOfMemory>
    ensures { IfOk result (λ n. n ≡ spec.size_of_statement depth (stmt_view s.now)) }
{
    let form = size_of_form(&s.form, depth)?;
    let sum = more(form, 1)?;
    Ok(sum)
}

/// The code of a form, without the step and the event of its statement.
#[cycle(size_of_statement)]
pub fn size_of_form(form: &Form, depth: Depth) -> Result<u32, OutOfMemory>
    ensures { IfOk result (λ n. n ≡ spec.size_of_form depth (form_view form.now)) }
{
    match form {
        Form::Empty => Ok(0),
        Form::Expr(e) => size(e),
        Form::Declare(names) => size_of_names(names.as_slice()),
        Form::Block(body) => size_of_block(body.as_slice(), depth),
        Form::If { test, yes, no } => size_of_choice(test, yes, no, depth),
        Form::While { test, body } => {
            let loop_size = size_of_loop(test, body, depth)?;
            let sum = more(loop_size, 1)?;
            Ok(sum)
        }
        Form::Do { body, test } => size_of_loop(test, body, depth),
        Form::For {
            first,
            test,
            step,
            body,
        } => size_of_for(first, test, step, body, depth),
        Form::Break => more(depth.inner, 1),
        Form::Continue => more(depth.turn, 1),
        Form::Return(None) => more(depth.scopes, 1),
        Form::Return(Some(e)) => {
            let value = size(e)?;
            let sum = all(value, depth.scopes, 1)?;
            Ok(sum)
        }
        Form::Label(s) => size_of_statement(s, depth),
        Form::Switch { test, arms } => size_of_switch(test, arms.as_slice(), depth),
    }
}

/// A statement that is a scope of its own, if it declares names.
#[cycle(size_of_statement)]
pub fn size_of_arm(s: &Stmt, depth: Depth) -> Result<u32, OutOfMemory>
    ensures { IfOk result (λ n. n ≡ spec.size_of_arm depth (stmt_view s.now)) }
{
    let there = leaks(s);
    let within = deep(there, depth)?;
    let size = size_of_statement(s, within)?;
    let sum = with_scope(there, size)?;
    Ok(sum)
}

#[cycle(size_of_statement)]
fn size_of_choice(
    test: &Expr,
    yes: &Stmt,
    no: &Option<Box<Stmt>>,
    depth: Depth,
) -> Result<u32, OutOfMemory>
    ensures { IfOk result (λ n. n
        ≡ spec.size_of_form depth (t.If (expr_view test.now) (stmt_view yes.now) (else_part no.now))) }
{
    let tested = size(test)?;
    let first = size_of_arm(yes, depth)?;
    let second = size_of_else(no, depth)?;
    let sum = all(tested, first, second)?;
    Ok(sum)
}

#[cycle(size_of_statement)]
fn size_of_else(no: &Option<Box<Stmt>>, depth: Depth) -> Result<u32, OutOfMemory>
    ensures { IfOk result (λ n. n ≡ spec.size_of_else depth (else_part no.now)) }
{
    match no {
        None => Ok(0),
        Some(no) => {
            let arm = size_of_arm(no, depth)?;
            let sum = more(arm, 1)?;
            Ok(sum)
        }
    }
}

// A loop's body and its test.
#[cycle(size_of_statement)]
fn size_of_loop(test: &Expr, body: &Stmt, depth: Depth) -> Result<u32, OutOfMemory>
    ensures { IfOk result (λ n. n
        ≡ spec.size (expr_view test.now) + spec.size_of_arm (spec.in_turn depth) (stmt_view body.now)) }
{
    let tested = size(test)?;
    let arm = size_of_arm(body, in_turn(depth))?;
    let sum = more(tested, arm)?;
    Ok(sum)
}

#[cycle(size_of_statement)]
fn size_of_block(body: &[Stmt], depth: Depth) -> Result<u32, OutOfMemory>
    ensures { IfOk result (λ n. n ≡ spec.size_of_form depth (t.Block (stmts_view body.now))) }
{
    let there = any_leaks(body);
    let within = deep(there, depth)?;
    let size = size_of_statements(body, within)?;
    let sum = with_scope(there, size)?;
    Ok(sum)
}

/// The statements of a block.
#[cycle(size_of_statement)]
pub fn size_of_statements(body: &[Stmt], depth: Depth) -> Result<u32, OutOfMemory>
    ensures { IfOk result (λ n. n ≡ spec.size_of_block depth (stmts_view body.now)) }
{
    let mut sum = 0;
    for s in body {
        let one = size_of_statement(s, depth)?;
        sum = more(sum, one)?;
    }
    Ok(sum)
}

#[cycle(size_of_statement)]
fn size_of_for(
    first: &First,
    test: &Option<Expr>,
    step: &Option<Expr>,
    body: &Stmt,
    depth: Depth,
) -> Result<u32, OutOfMemory>
    ensures { IfOk result (λ n. n
        ≡ spec.size_of_form depth
        (t.For (first_view first.now) (expr_view_if test.now) (expr_view_if step.now) (stmt_view body.now))) }
{
    let there = first_leaks(first);
    let begins = size_of_first(first)?;
    let within = deep(there, depth)?;
    let arm = size_of_arm(body, in_turn(within))?;
    let last = size_if(step)?;
    let tested = size_of_test(test)?;
    let turn = all(arm, last, tested)?;
    let whole = all(begins, turn, 1)?;
    let sum = with_scope(there, whole)?;
    Ok(sum)
}

#[cycle(size_of_statement)]
fn size_of_switch(test: &Expr, arms: &[Arm], depth: Depth) -> Result<u32, OutOfMemory>
    ensures { IfOk result (λ n. n ≡ spec.size_of_form depth (t.Switch (expr_view test.now) (switch_view arms.now))) }
{
    let tested = size_with_one(test)?;
    let rest = size_of_arms(arms, depth)?;
    let sum = more(tested, rest)?;
    Ok(sum)
}

/// Arms, after the operation that chooses one.
#[cycle(size_of_statement)]
pub fn size_of_arms(arms: &[Arm], depth: Depth) -> Result<u32, OutOfMemory>
    ensures { IfOk result (λ n. n ≡ spec.size_of_arms depth (switch_view arms.now)) }
{
    let there = any_arm_leaks(arms);
    let within = deep(there, in_arms(depth))?;
    let bodies = size_of_bodies(arms, within)?;
    let inner = more(1, bodies)?;
    let sum = with_scope(there, inner)?;
    Ok(sum)
}

// The statements of arms.
#[cycle(size_of_statement)]
fn size_of_bodies(arms: &[Arm], depth: Depth) -> Result<u32, OutOfMemory>
    ensures { IfOk result (λ n. n ≡ spec.size_of_block depth (switch_view arms.now)) }
{
    let mut sum = 0;
    for arm in arms {
        let one = size_of_statements(arm.body.as_slice(), depth)?;
        sum = more(sum, one)?;
    }
    Ok(sum)
}
