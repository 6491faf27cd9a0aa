// The list of a program's places.
ghost use Rattle.std.specs.Prelude.{◌≡◌, [], ◌∷◌, ◌++◌, OnOk, IfOk, IsTrue};
ghost use Rattle.std.specs.List.{flat_map};
ghost use Rattle.c_core.specs.Places.{place, places_if, places_in, places_in_arguments, places_in_first, places_in_init, places_in_names, places_in_node, places_of, places_of_block, places_of_body, places_of_form, places_of_statement};
ghost use Rattle.c_core.specs.View.{block_view, expr_view, expr_view_if, exprs_view, first_view, form_view, functions_view, init_view, names_view, node_view, program_view, rows_view, stmt_view, stmts_view, switch_view};
ghost use Rattle.c_core.specs.declared.place.PlaceKind.TheVariants.{CallEnd};
ghost use Rattle.way_places.specs.Ordered.{are_ordered};
ghost use Rattle.way_places.specs.Seeking.{places_of_functions};

use c_core::{
    Arm, Declared, Expr, First, Form, Function, Init, Node, Place, PlaceKind, Program, Row, Spot,
    Stmt,
};
use std::alloc::Global;
use wv_base::{OutOfMemory, Seq};

fn push(list: &mut Vec<Place>, kind: PlaceKind, spot: Spot) -> Result<(), OutOfMemory>
    ensures { OnOk result (list.new.items ≡ list.old.items ++ place kind spot ∷ []) }
{
    list.push(Place { kind, spot })?;
    Ok(())
}

#[cycle(expression)]
fn push_expression(list: &mut Vec<Place>, e: &Expr) -> Result<(), OutOfMemory>
    ensures { OnOk result (list.new.items ≡ list.old.items ++ places_in (expr_view e.now)) }
{
    push_node(list, &e.node)?;
    Ok(())
}

#[cycle(expression)]
fn push_node(list: &mut Vec<Place>, node: &Node) -> Result<(), OutOfMemory>
    ensures { OnOk result (list.new.items ≡ list.old.items ++ places_in_node (node_view node.now)) }
{
    match node {
        Node::Const(_) => {}
        Node::Var(_) => {}
        Node::Index { at, .. } => push_arguments(list, at.as_slice())?,
        Node::Unary { of, .. } => push_expression(list, of)?,
        Node::Cast(of) => push_expression(list, of)?,
        Node::Step { target, .. } => push_expression(list, target)?,
        Node::Binary { left, right, .. } => {
            push_expression(list, left)?;
            push_expression(list, right)?;
        }
        Node::Logic { left, right, .. } => {
            push_expression(list, left)?;
            push_expression(list, right)?;
        }
        Node::Choose {
            mark,
            test,
            yes,
            no,
        } => {
            push_expression(list, test)?;
            push(list, PlaceKind::Branch, *mark)?;
            push_expression(list, yes)?;
            push_expression(list, no)?;
        }
        Node::Comma { first, last } => {
            push_expression(list, first)?;
            push_expression(list, last)?;
        }
        Node::Assign { target, from, .. } => {
            push_expression(list, target)?;
            push_expression(list, from)?;
        }
        Node::Call { args, close, .. } => push_call(list, args.as_slice(), *close)?,
    }
    Ok(())
}

#[cycle(expression)]
fn push_call(list: &mut Vec<Place>, es: &[Expr], close: Spot) -> Result<(), OutOfMemory>
    ensures { OnOk result (list.new.items ≡ list.old.items ++
        (places_in_arguments (exprs_view es.now) ++ place CallEnd close ∷ [])) }
{
    push_arguments(list, es)?;
    push(list, PlaceKind::CallEnd, close)?;
    Ok(())
}

#[cycle(expression)]
fn push_arguments(list: &mut Vec<Place>, es: &[Expr]) -> Result<(), OutOfMemory>
    ensures { OnOk result (list.new.items ≡ list.old.items ++ places_in_arguments (exprs_view es.now)) }
{
    for e in es {
        push_expression(list, e)?;
    }
    Ok(())
}

fn push_if(list: &mut Vec<Place>, e: &Option<Expr>) -> Result<(), OutOfMemory>
    ensures { OnOk result (list.new.items ≡ list.old.items ++ places_if (expr_view_if e.now)) }
{
    if let Some(e) = e {
        push_expression(list, e)?;
    }
    Ok(())
}

fn push_rows(list: &mut Vec<Place>, rows: &[Row]) -> Result<(), OutOfMemory>
    ensures { OnOk result (list.new.items ≡ list.old.items ++ flat_map places_in_arguments (rows_view rows.now)) }
{
    for row in rows {
        push_arguments(list, row.values.as_slice())?;
    }
    Ok(())
}

fn push_init(list: &mut Vec<Place>, init: &Init) -> Result<(), OutOfMemory>
    ensures { OnOk result (list.new.items ≡ list.old.items ++ places_in_init (init_view init.now)) }
{
    match init {
        Init::Absent => Ok(()),
        Init::One(e) => push_expression(list, e),
        Init::Many(es) => push_arguments(list, es.as_slice()),
        Init::Rows(rows) => push_rows(list, rows.as_slice()),
    }
}

fn push_names(list: &mut Vec<Place>, names: &[Declared]) -> Result<(), OutOfMemory>
    ensures { OnOk result (list.new.items ≡ list.old.items ++ places_in_names (names_view names.now)) }
{
    for name in names {
        push_init(list, &name.init)?;
    }
    Ok(())
}

fn push_first(list: &mut Vec<Place>, first: &First) -> Result<(), OutOfMemory>
    ensures { OnOk result (list.new.items ≡ list.old.items ++ places_in_first (first_view first.now)) }
{
    match first {
        First::Absent => Ok(()),
        First::Expr(e) => push_expression(list, e),
        First::Declare(names) => push_names(list, names.as_slice()),
    }
}

#[cycle(statement)]
fn push_statement(list: &mut Vec<Place>, s: &Stmt) -> Result<(), OutOfMemory>
    ensures { OnOk result (list.new.items ≡ list.old.items ++ places_of_statement (stmt_view s.now)) }
{
    push(list, PlaceKind::Statement, s.spot)?;
    push_form(list, s.spot, &s.form)?;
    Ok(())
}

#[cycle(statement)]
fn push_form(list: &mut Vec<Place>, at: Spot, form: &Form) -> Result<(), OutOfMemory>
    ensures { OnOk result (list.new.items ≡ list.old.items ++ places_of_form at (form_view form.now)) }
{
    match form {
        Form::Empty => {}
        Form::Expr(e) => push_expression(list, e)?,
        Form::Declare(names) => push_names(list, names.as_slice())?,
        Form::Block(body) => push_block(list, body.as_slice())?,
        Form::If { test, yes, no } => {
            push(list, PlaceKind::Branch, at)?;
            push_expression(list, test)?;
            push_statement(list, yes)?;
            if let Some(no) = no {
                push_statement(list, no)?;
            }
        }
        Form::While { test, body } => {
            push(list, PlaceKind::Loop, at)?;
            push(list, PlaceKind::Branch, at)?;
            push_expression(list, test)?;
            push_statement(list, body)?;
        }
        Form::Do { body, test } => {
            push(list, PlaceKind::Loop, at)?;
            push(list, PlaceKind::Branch, at)?;
            push_statement(list, body)?;
            push_expression(list, test)?;
        }
        Form::For {
            first,
            test,
            step,
            body,
        } => {
            push(list, PlaceKind::Loop, at)?;
            push(list, PlaceKind::Branch, at)?;
            push_first(list, first)?;
            push_if(list, test)?;
            push_if(list, step)?;
            push_statement(list, body)?;
        }
        Form::Break => {}
        Form::Continue => {}
        Form::Return(e) => push_if(list, e)?,
        Form::Label(of) => push_statement(list, of)?,
        Form::Switch { test, arms } => {
            push(list, PlaceKind::Branch, at)?;
            push_expression(list, test)?;
            push_arms(list, arms.as_slice())?;
        }
    }
    Ok(())
}

#[cycle(statement)]
fn push_block(list: &mut Vec<Place>, body: &[Stmt]) -> Result<(), OutOfMemory>
    ensures { OnOk result (list.new.items ≡ list.old.items ++ places_of_block (stmts_view body.now)) }
{
    for s in body {
        push_statement(list, s)?;
    }
    Ok(())
}

#[cycle(statement)]
fn push_arms(list: &mut Vec<Place>, arms: &[Arm]) -> Result<(), OutOfMemory>
    ensures { OnOk result (list.new.items ≡ list.old.items ++ places_of_block (switch_view arms.now)) }
{
    for arm in arms {
        push_block(list, arm.body.as_slice())?;
    }
    Ok(())
}

fn push_functions(list: &mut Vec<Place>, functions: &[Function]) -> Result<(), OutOfMemory>
    ensures { OnOk result (list.new.items ≡ list.old.items ++ places_of_functions (functions_view functions.now)) }
{
    for function in functions {
        push_form(list, function.body.spot, &function.body.form)?;
    }
    Ok(())
}

/// Every place, by place and then by kind.
#[tactic(auto, using(crate::proofs::PlaceLaws::places_of_all))]
pub fn places(alloc: Global, program: &Program) -> Result<Seq<Place>, OutOfMemory>
    ensures exact { IfOk result (λ places. places ≡ places_of (program_view program.now)) }
    ensures ordered { IfOk result (λ places. IsTrue (are_ordered places)) }
{
    let mut list = Vec::new(alloc);
    push_functions(&mut list, program.functions.as_slice())?;
    Ok(Seq::from_vec(list))
}
