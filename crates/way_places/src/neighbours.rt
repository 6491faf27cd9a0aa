// The statements of blocks and arms, each under the place of the one after it.
ghost use Rattle.std.specs.Prelude.{◌≡◌, ◌∷◌, ◌++◌, [], OnOk, IfOk};
ghost use Rattle.c_core.specs.Parts.{statements_of, statements_of_block, statements_of_form, statements_of_program};
ghost use Rattle.c_core.specs.View.{form_view, functions_view, program_view, stmt_view, stmts_view, switch_view};
ghost use Rattle.way_places.specs.Neighbours.{among, pairs_in, pairs_in_form, pairs_view};
ghost use Rattle.way_places.specs.Seeking.{statements_of_functions};

use c_core::{Arm, Form, Function, Program, Spot, Stmt};
use std::alloc::Global;
use wv_base::OutOfMemory;

fn push_pairs<'a>(list: &mut Vec<(Spot, &'a Stmt)>, body: &'a [Stmt]) -> Result<(), OutOfMemory>
    ensures { OnOk result (pairs_view list.new.items ≡ pairs_view list.old.items ++ pairs_in (stmts_view body.now)) }
{
    let mut last = None;
    for s in body {
        if let Some(before) = last {
            list.push((s.spot, before))?;
        }
        last = Some(s);
    }
    Ok(())
}

fn push_pairs_of_arms<'a>(
    list: &mut Vec<(Spot, &'a Stmt)>,
    arms: &'a [Arm],
) -> Result<(), OutOfMemory>
    ensures { OnOk result (pairs_view list.new.items ≡ pairs_view list.old.items ++ pairs_in (switch_view arms.now)) }
{
    for arm in arms {
        push_pairs(list, arm.body.as_slice())?;
    }
    Ok(())
}

fn push_own<'a>(list: &mut Vec<(Spot, &'a Stmt)>, form: &'a Form) -> Result<(), OutOfMemory>
    ensures { OnOk result (pairs_view list.new.items
        ≡ pairs_view list.old.items ++ pairs_in_form (form_view form.now)) }
{
    match form {
        Form::Block(body) => push_pairs(list, body.as_slice())?,
        Form::Switch { arms, .. } => push_pairs_of_arms(list, arms.as_slice())?,
        _ => {}
    }
    Ok(())
}

#[cycle(statement)]
#[tactic(auto, using(crate::proofs::NeighbourLaws::among_both))]
fn push_statement<'a>(list: &mut Vec<(Spot, &'a Stmt)>, s: &'a Stmt) -> Result<(), OutOfMemory>
    ensures { OnOk result (pairs_view list.new.items
        ≡ pairs_view list.old.items ++ among (statements_of (stmt_view s.now))) }
{
    push_own(list, &s.form)?;
    push_form(list, &s.form)?;
    Ok(())
}

#[cycle(statement)]
#[tactic(auto, using(crate::proofs::NeighbourLaws::among_both))]
fn push_form<'a>(list: &mut Vec<(Spot, &'a Stmt)>, form: &'a Form) -> Result<(), OutOfMemory>
    ensures { OnOk result (pairs_view list.new.items
        ≡ pairs_view list.old.items ++ among (statements_of_form (form_view form.now))) }
{
    match form {
        Form::Block(body) => push_block(list, body.as_slice())?,
        Form::If { yes, no, .. } => {
            push_statement(list, yes)?;
            if let Some(no) = no {
                push_statement(list, no)?;
            }
        }
        Form::While { body, .. } => push_statement(list, body)?,
        Form::Do { body, .. } => push_statement(list, body)?,
        Form::For { body, .. } => push_statement(list, body)?,
        Form::Label(of) => push_statement(list, of)?,
        Form::Switch { arms, .. } => push_arms(list, arms.as_slice())?,
        Form::Empty => {}
        Form::Expr(_) => {}
        Form::Declare(_) => {}
        Form::Break => {}
        Form::Continue => {}
        Form::Return(_) => {}
    }
    Ok(())
}

#[cycle(statement)]
#[tactic(auto, using(crate::proofs::NeighbourLaws::among_both))]
fn push_block<'a>(list: &mut Vec<(Spot, &'a Stmt)>, body: &'a [Stmt]) -> Result<(), OutOfMemory>
    ensures { OnOk result (pairs_view list.new.items
        ≡ pairs_view list.old.items ++ among (statements_of_block (stmts_view body.now))) }
{
    for s in body {
        push_statement(list, s)?;
    }
    Ok(())
}

#[cycle(statement)]
#[tactic(auto, using(crate::proofs::NeighbourLaws::among_both))]
fn push_arms<'a>(list: &mut Vec<(Spot, &'a Stmt)>, arms: &'a [Arm]) -> Result<(), OutOfMemory>
    ensures { OnOk result (pairs_view list.new.items
        ≡ pairs_view list.old.items ++ among (statements_of_block (switch_view arms.now))) }
{
    for arm in arms {
        push_block(list, arm.body.as_slice())?;
    }
    Ok(())
}

#[tactic(auto, using(crate::proofs::NeighbourLaws::among_both))]
fn push_functions<'a>(
    list: &mut Vec<(Spot, &'a Stmt)>,
    functions: &'a [Function],
) -> Result<(), OutOfMemory>
    ensures { OnOk result (pairs_view list.new.items
        ≡ pairs_view list.old.items ++ among (statements_of_functions (functions_view functions.now))) }
{
    for function in functions {
        push_statement(list, &function.body)?;
    }
    Ok(())
}

/// Every statement that one stands behind in its block, under that one's place.
pub fn neighbours(alloc: Global, program: &Program) -> Result<Vec<(Spot, &Stmt)>, OutOfMemory>
    ensures { IfOk result (λ pairs. pairs_view pairs.items ≡ among (statements_of_program (program_view program.now))) }
{
    let mut list = Vec::new(alloc);
    push_functions(&mut list, program.functions.as_slice())?;
    Ok(list)
}
