// A walk over functions, which numbers their scopes and notes those that statements and loops see.
ghost use Rattle.std.specs.Prelude.{◌≡◌, IfOk, OnOk};
ghost use Rattle.c_core.specs.Parts.{declared_by, objects_of_first, objects_of_names};
ghost use Rattle.c_core.specs.View.{first_view, form_view, functions_view, names_view, stmt_view, stmts_view, switch_view};
ghost use Rattle.way_names.specs.Walk.{in_parentheses, innermost, is_loop, last_scope, scope_behind, start, walk_view, walked, walked_block, walked_body, walked_form, walked_functions, with_loop, with_loop_if, with_names, with_scope, with_statement};

use crate::scope::Scope;
use c_core::{Arm, Declared, First, Form, Function, Spot, Stmt};
use std::alloc::Global;
use wv_base::OutOfMemory;

/// A place, and the number of the scope that it sees.
pub type Mark = (Spot, Option<usize>);

/// Scopes by their numbers, and what sees them, in the order of the text.
#[derive(Drop)]
pub struct Walk {
    pub scopes: Vec<Scope>,
    pub statements: Vec<Mark>,
    pub loops: Vec<Mark>,
}

fn start(alloc: Global) -> Walk
    ensures { walk_view result ≡ start }
{
    Walk {
        scopes: Vec::new(alloc),
        statements: Vec::new(alloc),
        loops: Vec::new(alloc),
    }
}

/// A scope for one more object.
fn push_scope(
    walk: &mut Walk,
    outer: Option<usize>,
    object: u32,
) -> Result<Option<usize>, OutOfMemory>
    ensures number { IfOk result (λ scope. scope ≡ last_scope (walk_view walk.old)) }
    ensures walk { OnOk result (walk_view walk.new ≡ with_scope (walk_view walk.old) outer object) }
{
    let number = walk.scopes.len();
    walk.scopes.push(Scope { outer, object })?;
    Ok(Some(number))
}

fn push_statement(walk: &mut Walk, at: Spot, scope: Option<usize>) -> Result<(), OutOfMemory>
    ensures { OnOk result (walk_view walk.new ≡ with_statement (walk_view walk.old) at scope) }
{
    walk.statements.push((at, scope))?;
    Ok(())
}

fn push_loop(walk: &mut Walk, at: Spot, scope: Option<usize>) -> Result<(), OutOfMemory>
    ensures { OnOk result (walk_view walk.new ≡ with_loop (walk_view walk.old) at scope) }
{
    walk.loops.push((at, scope))?;
    Ok(())
}

/// The innermost scope after parameters.
fn params(
    walk: &mut Walk,
    outer: Option<usize>,
    objects: &[u32],
) -> Result<Option<usize>, OutOfMemory>
    ensures scope { IfOk result (λ scope. scope ≡ innermost (walk_view walk.old) outer objects.now) }
    ensures walk { OnOk result (walk_view walk.new ≡ with_names (walk_view walk.old) outer objects.now) }
{
    let mut scope = outer;
    for object in objects {
        scope = push_scope(walk, scope, *object)?;
    }
    Ok(scope)
}

/// The innermost scope after declared names.
fn names(
    walk: &mut Walk,
    outer: Option<usize>,
    declared: &[Declared],
) -> Result<Option<usize>, OutOfMemory>
    ensures scope { IfOk result (λ scope. scope ≡ innermost (walk_view walk.old) outer
        (objects_of_names (names_view declared.now))) }
    ensures walk { OnOk result (walk_view walk.new ≡ with_names (walk_view walk.old) outer
        (objects_of_names (names_view declared.now))) }
{
    let mut scope = outer;
    for name in declared {
        scope = push_scope(walk, scope, name.object)?;
    }
    Ok(scope)
}

fn first_names(
    walk: &mut Walk,
    outer: Option<usize>,
    first: &First,
) -> Result<Option<usize>, OutOfMemory>
    ensures scope { IfOk result (λ scope. scope ≡ innermost (walk_view walk.old) outer
        (objects_of_first (first_view first.now))) }
    ensures walk { OnOk result (walk_view walk.new ≡ with_names (walk_view walk.old) outer
        (objects_of_first (first_view first.now))) }
{
    match first {
        First::Absent => Ok(outer),
        First::Expr(_) => Ok(outer),
        First::Declare(declared) => names(walk, outer, declared.as_slice()),
    }
}

/// The scope after a statement of a block.
fn behind(walk: &mut Walk, outer: Option<usize>, s: &Stmt) -> Result<Option<usize>, OutOfMemory>
    ensures scope { IfOk result (λ scope. scope ≡ innermost (walk_view walk.old) outer
        (declared_by (stmt_view s.now))) }
    ensures walk { OnOk result (walk_view walk.new ≡ with_names (walk_view walk.old) outer
        (declared_by (stmt_view s.now))) }
{
    match &s.form {
        Form::Declare(declared) => names(walk, outer, declared.as_slice()),
        _ => Ok(outer),
    }
}

/// The scope that the controlling expression and the parts of a statement see.
fn parentheses(
    walk: &mut Walk,
    outer: Option<usize>,
    form: &Form,
) -> Result<Option<usize>, OutOfMemory>
    ensures scope { IfOk result (λ scope. scope ≡ innermost (walk_view walk.old) outer
        (in_parentheses (form_view form.now))) }
    ensures walk { OnOk result (walk_view walk.new ≡ with_names (walk_view walk.old) outer
        (in_parentheses (form_view form.now))) }
{
    match form {
        Form::For { first, .. } => first_names(walk, outer, first),
        _ => Ok(outer),
    }
}

fn is_loop(form: &Form) -> bool
    ensures { result ≡ is_loop (form_view form.now) }
{
    match form {
        Form::While { .. } => true,
        Form::Do { .. } => true,
        Form::For { .. } => true,
        _ => false,
    }
}

fn push_loop_if(
    walk: &mut Walk,
    at: Spot,
    scope: Option<usize>,
    form: &Form,
) -> Result<(), OutOfMemory>
    ensures { OnOk result (walk_view walk.new ≡ with_loop_if (is_loop (form_view form.now)) (walk_view walk.old) at
        scope) }
{
    if is_loop(form) {
        push_loop(walk, at, scope)?;
    }
    Ok(())
}

#[cycle(statement)]
fn statement(walk: &mut Walk, scope: Option<usize>, s: &Stmt) -> Result<(), OutOfMemory>
    ensures { OnOk result (walk_view walk.new ≡ walked (walk_view walk.old) scope (stmt_view s.now)) }
{
    push_statement(walk, s.spot, scope)?;
    let inner = parentheses(walk, scope, &s.form)?;
    push_loop_if(walk, s.spot, inner, &s.form)?;
    inside(walk, inner, &s.form)?;
    Ok(())
}

/// The statements in a statement, which see this scope.
#[cycle(statement)]
fn inside(walk: &mut Walk, scope: Option<usize>, form: &Form) -> Result<(), OutOfMemory>
    ensures { OnOk result (walk_view walk.new ≡ walked_form (walk_view walk.old) scope (form_view form.now)) }
{
    match form {
        Form::Block(body) => {
            block(walk, scope, body.as_slice())?;
        }
        Form::If { yes, no, .. } => {
            statement(walk, scope, yes)?;
            if let Some(no) = no {
                statement(walk, scope, no)?;
            }
        }
        Form::While { body, .. } => statement(walk, scope, body)?,
        Form::Do { body, .. } => statement(walk, scope, body)?,
        Form::For { body, .. } => statement(walk, scope, body)?,
        Form::Label(of) => statement(walk, scope, of)?,
        Form::Switch { arms, .. } => in_arms(walk, scope, arms.as_slice())?,
        Form::Empty => {}
        Form::Expr(_) => {}
        Form::Declare(_) => {}
        Form::Break => {}
        Form::Continue => {}
        Form::Return(_) => {}
    }
    Ok(())
}

/// The scope after statements.
#[cycle(statement)]
fn block(walk: &mut Walk, outer: Option<usize>, body: &[Stmt]) -> Result<Option<usize>, OutOfMemory>
    ensures scope { IfOk result (λ scope. scope ≡ scope_behind (walk_view walk.old) outer (stmts_view body.now)) }
    ensures walk { OnOk result (walk_view walk.new ≡ walked_block (walk_view walk.old) outer (stmts_view body.now)) }
{
    let mut scope = outer;
    for s in body {
        statement(walk, scope, s)?;
        scope = behind(walk, scope, s)?;
    }
    Ok(scope)
}

/// The arms of a `switch` are one scope.
#[cycle(statement)]
fn in_arms(walk: &mut Walk, outer: Option<usize>, arms: &[Arm]) -> Result<(), OutOfMemory>
    ensures { OnOk result (walk_view walk.new ≡ walked_block (walk_view walk.old) outer (switch_view arms.now)) }
{
    let mut scope = outer;
    for arm in arms {
        scope = block(walk, scope, arm.body.as_slice())?;
    }
    Ok(())
}

fn in_function(walk: &mut Walk, function: &Function) -> Result<(), OutOfMemory>
    ensures { OnOk result (walk_view walk.new ≡ walked_body (walk_view walk.old) function.now.params
        (stmt_view function.now.body)) }
{
    let outer = params(walk, None, function.params.as_slice())?;
    let form = &function.body.form;
    let scope = parentheses(walk, outer, form)?;
    inside(walk, scope, form)?;
    Ok(())
}

/// The scopes of these functions, and what sees them.
pub fn in_functions(alloc: Global, functions: &[Function]) -> Result<Walk, OutOfMemory>
    ensures { IfOk result (λ walk. walk_view walk ≡ walked_functions start (functions_view functions.now)) }
{
    let mut walk = start(alloc);
    for function in functions {
        in_function(&mut walk, function)?;
    }
    Ok(walk)
}
