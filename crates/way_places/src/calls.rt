// The calls of a program, each under the place of its closing parenthesis.
ghost use Rattle.std.specs.Prelude.{◌≡◌, ◌++◌, OnOk, IfOk};
ghost use Rattle.std.specs.List.{filter_map, flat_map};
ghost use Rattle.c_core.specs.Parts.{exps_of};
ghost use Rattle.c_core.specs.View.{expr_view, exprs_view, node_view};
ghost use Rattle.way_places.specs.Calls.{call_of, calls_in, calls_in_arguments, calls_of, ends_view, fulls_view, list_if};

use c_core::{Expr, Node, Spot};
use std::alloc::Global;
use wv_base::OutOfMemory;

fn push_own<'a>(list: &mut Vec<(Spot, &'a Expr)>, e: &'a Expr) -> Result<(), OutOfMemory>
    ensures { OnOk result (ends_view list.new.items ≡ ends_view list.old.items ++ list_if (call_of (expr_view e.now))) }
{
    if let Node::Call { close, .. } = &e.node {
        list.push((*close, e))?;
    }
    Ok(())
}

#[cycle(expression)]
fn push_expression<'a>(list: &mut Vec<(Spot, &'a Expr)>, e: &'a Expr) -> Result<(), OutOfMemory>
    ensures { OnOk result (ends_view list.new.items ≡ ends_view list.old.items ++ calls_of (expr_view e.now)) }
{
    push_own(list, e)?;
    push_node(list, &e.node)?;
    Ok(())
}

#[cycle(expression)]
fn push_node<'a>(list: &mut Vec<(Spot, &'a Expr)>, node: &'a Node) -> Result<(), OutOfMemory>
    ensures { OnOk result (ends_view list.new.items ≡ ends_view list.old.items ++ calls_in (node_view node.now)) }
{
    match node {
        Node::Const(_) => {}
        Node::Var(_) => {}
        Node::Index { at, .. } => push_arguments(list, at.as_slice())?,
        Node::Unary { of, .. } => push_expression(list, of)?,
        Node::Cast(of) => push_expression(list, of)?,
        Node::Step { target, .. } => push_expression(list, target)?,
        Node::Binary { left, right, .. } => {
            push_expression(list, left)?;
            push_expression(list, right)?;
        }
        Node::Logic { left, right, .. } => {
            push_expression(list, left)?;
            push_expression(list, right)?;
        }
        Node::Choose { test, yes, no, .. } => {
            push_expression(list, test)?;
            push_expression(list, yes)?;
            push_expression(list, no)?;
        }
        Node::Comma { first, last } => {
            push_expression(list, first)?;
            push_expression(list, last)?;
        }
        Node::Assign { target, from, .. } => {
            push_expression(list, target)?;
            push_expression(list, from)?;
        }
        Node::Call { args, .. } => push_arguments(list, args.as_slice())?,
    }
    Ok(())
}

#[cycle(expression)]
fn push_arguments<'a>(list: &mut Vec<(Spot, &'a Expr)>, es: &'a [Expr]) -> Result<(), OutOfMemory>
    ensures { OnOk result (ends_view list.new.items
        ≡ ends_view list.old.items ++ calls_in_arguments (exprs_view es.now)) }
{
    for e in es {
        push_expression(list, e)?;
    }
    Ok(())
}

fn push_fulls<'a>(list: &mut Vec<(Spot, &'a Expr)>, fulls: &[&'a Expr]) -> Result<(), OutOfMemory>
    ensures { OnOk result (ends_view list.new.items
        ≡ ends_view list.old.items ++ flat_map calls_of (fulls_view fulls.now)) }
{
    for full in fulls {
        push_expression(list, *full)?;
    }
    Ok(())
}

/// Every call in these full expressions, one before those in it.
pub fn calls<'a>(alloc: Global, fulls: &[&'a Expr]) -> Result<Vec<(Spot, &'a Expr)>, OutOfMemory>
    ensures { IfOk result (λ calls. ends_view calls.items
        ≡ filter_map call_of (flat_map exps_of (fulls_view fulls.now))) }
{
    let mut list = Vec::new(alloc);
    push_fulls(&mut list, fulls)?;
    Ok(list)
}
