// The types of the tests of all switches, each under its place.
ghost use Rattle.std.specs.Prelude.{◌≡◌, ◌++◌, OnOk, IfOk};
ghost use Rattle.c_core.specs.Parts.{statements_of, statements_of_block, statements_of_form, statements_of_program};
ghost use Rattle.c_core.specs.View.{form_view, functions_view, program_view, stmt_view, stmts_view, switch_view};
ghost use Rattle.way_places.specs.Seeking.{statements_of_functions};
ghost use Rattle.way_places.specs.Switches.{tests_among, tests_of};

use crate::switches::switch_of;
use c_core::{Arm, DataModel, Form, Function, IntType, Program, Spot, Stmt};
use std::alloc::Global;
use wv_base::OutOfMemory;

type Tests = Vec<(Spot, IntType)>;

fn push_own(list: &mut Tests, model: DataModel, s: &Stmt) -> Result<(), OutOfMemory>
    ensures { OnOk result (list.new.items ≡ list.old.items ++ tests_of (stmt_view s.now)) }
{
    if let Some(ty) = switch_of(model, &s.form) {
        list.push((s.spot, ty))?;
    }
    Ok(())
}

#[cycle(statement)]
#[tactic(auto, using(crate::proofs::SwitchLaws::tests_both))]
fn push_statement(list: &mut Tests, model: DataModel, s: &Stmt) -> Result<(), OutOfMemory>
    ensures { OnOk result (list.new.items ≡ list.old.items ++ tests_among (statements_of (stmt_view s.now))) }
{
    push_own(list, model, s)?;
    push_form(list, model, &s.form)?;
    Ok(())
}

#[cycle(statement)]
#[tactic(auto, using(crate::proofs::SwitchLaws::tests_both))]
fn push_form(list: &mut Tests, model: DataModel, form: &Form) -> Result<(), OutOfMemory>
    ensures { OnOk result (list.new.items ≡ list.old.items ++ tests_among (statements_of_form (form_view form.now))) }
{
    match form {
        Form::Block(body) => push_block(list, model, body.as_slice())?,
        Form::If { yes, no, .. } => {
            push_statement(list, model, yes)?;
            if let Some(no) = no {
                push_statement(list, model, no)?;
            }
        }
        Form::While { body, .. } => push_statement(list, model, body)?,
        Form::Do { body, .. } => push_statement(list, model, body)?,
        Form::For { body, .. } => push_statement(list, model, body)?,
        Form::Label(of) => push_statement(list, model, of)?,
        Form::Switch { arms, .. } => push_arms(list, model, arms.as_slice())?,
        Form::Empty => {}
        Form::Expr(_) => {}
        Form::Declare(_) => {}
        Form::Break => {}
        Form::Continue => {}
        Form::Return(_) => {}
    }
    Ok(())
}

#[cycle(statement)]
#[tactic(auto, using(crate::proofs::SwitchLaws::tests_both))]
fn push_block(list: &mut Tests, model: DataModel, body: &[Stmt]) -> Result<(), OutOfMemory>
    ensures { OnOk result (list.new.items ≡ list.old.items ++ tests_among (statements_of_block (stmts_view body.now))) }
{
    for s in body {
        push_statement(list, model, s)?;
    }
    Ok(())
}

#[cycle(statement)]
#[tactic(auto, using(crate::proofs::SwitchLaws::tests_both))]
fn push_arms(list: &mut Tests, model: DataModel, arms: &[Arm]) -> Result<(), OutOfMemory>
    ensures { OnOk result (list.new.items
        ≡ list.old.items ++ tests_among (statements_of_block (switch_view arms.now))) }
{
    for arm in arms {
        push_block(list, model, arm.body.as_slice())?;
    }
    Ok(())
}

#[tactic(auto, using(crate::proofs::SwitchLaws::tests_both))]
fn push_functions(
    list: &mut Tests,
    model: DataModel,
    functions: &[Function],
) -> Result<(), OutOfMemory>
    ensures { OnOk result (list.new.items
        ≡ list.old.items ++ tests_among (statements_of_functions (functions_view functions.now))) }
{
    for function in functions {
        push_statement(list, model, &function.body)?;
    }
    Ok(())
}

/// Every switch, as its place and the promoted type of its test.
pub fn tests(alloc: Global, program: &Program) -> Result<Tests, OutOfMemory>
    ensures { IfOk result (λ tests. tests.items ≡ tests_among (statements_of_program (program_view program.now))) }
{
    let mut list = Vec::new(alloc);
    push_functions(&mut list, program.model, program.functions.as_slice())?;
    Ok(list)
}
