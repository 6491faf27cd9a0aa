// Forms of statements, made of typed parts.
ghost use Rattle.std.specs.Prelude.{◌≡◌, IfOk};
ghost use Rattle.c_core.specs.Tree as t;
ghost use Rattle.c_core.specs.View.{arm_view, joined, expr_view, expr_view_if, first_view, form_view, stmt_view, stmts_view, switch_view};
ghost use Rattle.check_elaborate.specs.Walks.{else_of};

use c_core::{Arm, Expr, First, Form, Label, Spot, Stmt};
use std::alloc::Global;
use wv_base::{OutOfMemory, Seq};

/// A block.
pub fn block_of(statements: Seq<Stmt>) -> Form
    ensures { form_view result ≡ t.Block (stmts_view statements) }
{
    Form::Block(statements)
}

/// A statement in a box.
pub fn boxed(alloc: Global, s: Stmt) -> Result<Box<Stmt>, OutOfMemory>
    ensures { IfOk result (λ r. r.value ≡ s) }
{
    Ok(Box::new(alloc, s)?)
}

/// An `if`.
pub fn choice_of(
    alloc: Global,
    test: Expr,
    yes: Stmt,
    no: Option<Box<Stmt>>,
) -> Result<Form, OutOfMemory>
    ensures { IfOk result (λ r. form_view r ≡ t.If (expr_view test) (stmt_view yes) (else_of no)) }
{
    let yes = boxed(alloc, yes)?;
    Ok(Form::If { test, yes, no })
}

/// A `while`.
pub fn while_of(alloc: Global, test: Expr, body: Stmt) -> Result<Form, OutOfMemory>
    ensures { IfOk result (λ r. form_view r ≡ t.While (expr_view test) (stmt_view body)) }
{
    let body = boxed(alloc, body)?;
    Ok(Form::While { test, body })
}

/// A `do`.
pub fn do_of(alloc: Global, body: Stmt, test: Expr) -> Result<Form, OutOfMemory>
    ensures { IfOk result (λ r. form_view r ≡ t.DoWhile (stmt_view body) (expr_view test)) }
{
    let body = boxed(alloc, body)?;
    Ok(Form::Do { body, test })
}

/// A `for`.
pub fn for_of(
    alloc: Global,
    first: First,
    test: Option<Expr>,
    step: Option<Expr>,
    body: Stmt,
) -> Result<Form, OutOfMemory>
    ensures { IfOk result (λ r. form_view r
        ≡ t.For (first_view first) (expr_view_if test) (expr_view_if step) (stmt_view body)) }
{
    let body = boxed(alloc, body)?;
    Ok(Form::For {
        first,
        test,
        step,
        body,
    })
}

/// A `switch`.
pub fn switch_of(test: Expr, arms: Seq<Arm>) -> Form
    ensures { form_view result ≡ t.Switch (expr_view test) (switch_view arms) }
{
    Form::Switch { test, arms }
}

/// An arm of a `switch`.
pub fn arm_of(spot: Spot, label: Label, body: Seq<Stmt>) -> Arm
    ensures { (rest : t.Stms) → arm_view result rest ≡ t.MoreCase spot label (joined (stmts_view body) rest) }
{
    Arm { spot, label, body }
}

/// A labelled statement.
pub fn label_of(alloc: Global, of: Stmt) -> Result<Form, OutOfMemory>
    ensures { IfOk result (λ r. form_view r ≡ t.Label (stmt_view of)) }
{
    let of = boxed(alloc, of)?;
    Ok(Form::Label(of))
}
