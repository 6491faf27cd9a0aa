// The input calls in expressions.
ghost use Rattle.std.specs.Prelude.{◌≡◌, ◌++◌, OnOk};
ghost use Rattle.std.specs.List.{flat_map};
ghost use Rattle.c_core.specs.View.{expr_view, expr_view_if, exprs_view, init_view, node_view, rows_view};
ghost use Rattle.c_draws.specs.Drawing.{input_by, inputs_if, inputs_in, inputs_of, inputs_of_arguments, inputs_of_init, own_input};

use crate::places::DrawPlace;
use c_core::{Callee, Expr, Init, Node, Row, Spot};
use c_meaning::DrawKind;
use wv_base::OutOfMemory;

fn push_call(list: &mut Vec<DrawPlace>, spot: Spot, callee: Callee) -> Result<(), OutOfMemory>
    ensures { OnOk result (list.new.items ≡ list.old.items ++ input_by spot callee) }
{
    if let Callee::Input(ty) = callee {
        list.push(DrawPlace {
            spot,
            ty,
            from: DrawKind::Input,
        })?;
    }
    Ok(())
}

fn push_own(list: &mut Vec<DrawPlace>, spot: Spot, node: &Node) -> Result<(), OutOfMemory>
    ensures { OnOk result (list.new.items ≡ list.old.items ++ own_input spot (node_view node.now)) }
{
    match node {
        Node::Call { callee, .. } => push_call(list, spot, *callee)?,
        _ => {}
    }
    Ok(())
}

/// Appends the input calls in an expression, itself among them.
#[cycle(expression)]
pub fn push_expression(list: &mut Vec<DrawPlace>, e: &Expr) -> Result<(), OutOfMemory>
    ensures { OnOk result (list.new.items ≡ list.old.items ++ inputs_of (expr_view e.now)) }
{
    push_own(list, e.spot, &e.node)?;
    push_node(list, &e.node)?;
    Ok(())
}

#[cycle(expression)]
fn push_node(list: &mut Vec<DrawPlace>, node: &Node) -> Result<(), OutOfMemory>
    ensures { OnOk result (list.new.items ≡ list.old.items ++ inputs_in (node_view node.now)) }
{
    match node {
        Node::Const(_) => {}
        Node::Var(_) => {}
        Node::Index { at, .. } => push_arguments(list, at.as_slice())?,
        Node::Unary { of, .. } => push_expression(list, of)?,
        Node::Cast(of) => push_expression(list, of)?,
        Node::Step { target, .. } => push_expression(list, target)?,
        Node::Binary { left, right, .. } => {
            push_expression(list, left)?;
            push_expression(list, right)?;
        }
        Node::Logic { left, right, .. } => {
            push_expression(list, left)?;
            push_expression(list, right)?;
        }
        Node::Choose { test, yes, no, .. } => {
            push_expression(list, test)?;
            push_expression(list, yes)?;
            push_expression(list, no)?;
        }
        Node::Comma { first, last } => {
            push_expression(list, first)?;
            push_expression(list, last)?;
        }
        Node::Assign { target, from, .. } => {
            push_expression(list, target)?;
            push_expression(list, from)?;
        }
        Node::Call { args, .. } => push_arguments(list, args.as_slice())?,
    }
    Ok(())
}

#[cycle(expression)]
fn push_arguments(list: &mut Vec<DrawPlace>, es: &[Expr]) -> Result<(), OutOfMemory>
    ensures { OnOk result (list.new.items ≡ list.old.items ++ inputs_of_arguments (exprs_view es.now)) }
{
    for e in es {
        push_expression(list, e)?;
    }
    Ok(())
}

/// Appends the input calls in an expression that may be left out.
pub fn push_if(list: &mut Vec<DrawPlace>, e: &Option<Expr>) -> Result<(), OutOfMemory>
    ensures { OnOk result (list.new.items ≡ list.old.items ++ inputs_if (expr_view_if e.now)) }
{
    if let Some(e) = e {
        push_expression(list, e)?;
    }
    Ok(())
}

/// Appends the input calls in an initializer.
pub fn push_init(list: &mut Vec<DrawPlace>, init: &Init) -> Result<(), OutOfMemory>
    ensures { OnOk result (list.new.items ≡ list.old.items ++ inputs_of_init (init_view init.now)) }
{
    match init {
        Init::Absent => Ok(()),
        Init::One(e) => push_expression(list, e),
        Init::Many(es) => push_arguments(list, es.as_slice()),
        Init::Rows(rows) => push_rows(list, rows.as_slice()),
    }
}

fn push_rows(list: &mut Vec<DrawPlace>, rows: &[Row]) -> Result<(), OutOfMemory>
    ensures { OnOk result (list.new.items ≡ list.old.items ++ flat_map inputs_of_arguments (rows_view rows.now)) }
{
    for row in rows {
        push_arguments(list, row.values.as_slice())?;
    }
    Ok(())
}
