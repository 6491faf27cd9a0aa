// The statement before a place.
ghost use Rattle.std.specs.Prelude.{◌≡◌, [], ◌∷◌, ◌++◌, None};
ghost use Rattle.std.specs.Option.{option_copied, option_map};
ghost use Rattle.c_core.specs.Parts.{statements_of, statements_of_block, statements_of_form};
ghost use Rattle.c_core.specs.Places.{before_in, before_in_form, stmt_before};
ghost use Rattle.c_core.specs.View.{form_view, functions_view, program_view, stmt_view, stmts_view, switch_view};
ghost use Rattle.way_places.specs.Seeking.{before_of, statements_of_functions};

use crate::expressions::is_same;
use c_core::{Arm, Form, Function, Program, Spot, Stmt};

fn directly_before(spot: Spot, body: &[Stmt]) -> Option<&Stmt>
    ensures { option_map stmt_view (option_copied result) ≡ before_in spot (stmts_view body.now) }
{
    let mut last = None;
    for s in body {
        if is_same(s.spot, spot) && last.is_some() {
            return last;
        }
        last = Some(s);
    }
    None
}

/// The body of an arm is a block of its own.
fn before_in_arms(spot: Spot, arms: &[Arm]) -> Option<&Stmt>
    ensures { option_map stmt_view (option_copied result) ≡ before_in spot (switch_view arms.now) }
{
    for arm in arms {
        if let Some(before) = directly_before(spot, arm.body.as_slice()) {
            return Some(before);
        }
    }
    None
}

fn before_in_form(spot: Spot, form: &Form) -> Option<&Stmt>
    ensures { option_map stmt_view (option_copied result) ≡ before_in_form spot (form_view form.now) }
{
    match form {
        Form::Block(body) => directly_before(spot, body.as_slice()),
        Form::Switch { arms, .. } => before_in_arms(spot, arms.as_slice()),
        _ => None,
    }
}

fn own<'a>(spot: Spot, found: Option<&'a Stmt>, s: &'a Stmt) -> Option<&'a Stmt>
    ensures { option_map stmt_view (option_copied result)
        ≡ before_of spot (option_map stmt_view (option_copied found.entry)) (stmt_view s.now ∷ []) }
{
    match found {
        Some(first) => Some(first),
        None => before_in_form(spot, &s.form),
    }
}

#[cycle(statement)]
fn statement<'a>(spot: Spot, found: Option<&'a Stmt>, s: &'a Stmt) -> Option<&'a Stmt>
    ensures { option_map stmt_view (option_copied result)
        ≡ before_of spot (option_map stmt_view (option_copied found.entry)) (statements_of (stmt_view s.now)) }
{
    let found = own(spot, found, s);
    inside(spot, found, &s.form)
}

#[cycle(statement)]
#[tactic(auto, using(crate::proofs::SeekingLaws::before_of_both))]
fn inside<'a>(spot: Spot, found: Option<&'a Stmt>, form: &'a Form) -> Option<&'a Stmt>
    ensures { option_map stmt_view (option_copied result)
        ≡ before_of spot (option_map stmt_view (option_copied found.entry)) (statements_of_form (form_view form.now)) }
{
    match form {
        Form::Block(body) => block(spot, found, body.as_slice()),
        Form::If { yes, no, .. } => {
            let found = statement(spot, found, yes);
            match no {
                None => found,
                Some(no) => statement(spot, found, no),
            }
        }
        Form::While { body, .. } => statement(spot, found, body),
        Form::Do { body, .. } => statement(spot, found, body),
        Form::For { body, .. } => statement(spot, found, body),
        Form::Label(of) => statement(spot, found, of),
        Form::Switch { arms, .. } => in_arms(spot, found, arms.as_slice()),
        Form::Empty => found,
        Form::Expr(_) => found,
        Form::Declare(_) => found,
        Form::Break => found,
        Form::Continue => found,
        Form::Return(_) => found,
    }
}

#[cycle(statement)]
#[tactic(auto, using(crate::proofs::SeekingLaws::before_of_both))]
fn block<'a>(spot: Spot, found: Option<&'a Stmt>, body: &'a [Stmt]) -> Option<&'a Stmt>
    ensures { option_map stmt_view (option_copied result)
        ≡ before_of spot (option_map stmt_view (option_copied found.entry))
        (statements_of_block (stmts_view body.now)) }
{
    let mut first = found;
    for s in body {
        first = statement(spot, first, s);
    }
    first
}

#[cycle(statement)]
#[tactic(auto, using(crate::proofs::SeekingLaws::before_of_both))]
fn in_arms<'a>(spot: Spot, found: Option<&'a Stmt>, arms: &'a [Arm]) -> Option<&'a Stmt>
    ensures { option_map stmt_view (option_copied result)
        ≡ before_of spot (option_map stmt_view (option_copied found.entry))
        (statements_of_block (switch_view arms.now)) }
{
    let mut first = found;
    for arm in arms {
        first = block(spot, first, arm.body.as_slice());
    }
    first
}

#[tactic(auto, using(crate::proofs::SeekingLaws::before_of_both))]
fn in_functions(spot: Spot, functions: &[Function]) -> Option<&Stmt>
    ensures { option_map stmt_view (option_copied result)
        ≡ before_of spot None (statements_of_functions (functions_view functions.now)) }
{
    let mut first = None;
    for function in functions {
        first = statement(spot, first, &function.body);
    }
    first
}

/// The statement or declaration directly before the one at a place, in the same block.
pub fn stmt_before(program: &Program, spot: Spot) -> Option<&Stmt>
    ensures { option_map stmt_view (option_copied result) ≡ stmt_before (program_view program.now) spot }
{
    in_functions(spot, program.functions.as_slice())
}
