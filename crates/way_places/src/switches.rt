// The type of the test of the switch at a place.
ghost use Rattle.std.specs.Prelude.{◌≡◌, [], ◌∷◌, ◌++◌, None};
ghost use Rattle.c_core.specs.Parts.{statements_of, statements_of_block, statements_of_form};
ghost use Rattle.c_core.specs.View.{form_view, functions_view, program_view, stmt_view, stmts_view, switch_view};
ghost use Rattle.way_places.specs.Seeking.{statements_of_functions, type_from};
ghost use Rattle.way_places.specs.Switches.{promoted_if, switch_at, switch_of};

use crate::expressions::is_same;
use c_core::{Arm, DataModel, Form, Function, IntType, Program, Spot, Stmt, promote};

fn promoted(model: DataModel, ty: Option<IntType>) -> Option<IntType>
    ensures { result ≡ promoted_if ty }
{
    match ty {
        None => None,
        Some(ty) => Some(promote(model, ty)),
    }
}

/// The type that a `switch` compares in, where the form is one.
pub fn switch_of(model: DataModel, form: &Form) -> Option<IntType>
    ensures { result ≡ switch_of (form_view form.now) }
{
    match form {
        Form::Switch { test, .. } => promoted(model, test.ty),
        _ => None,
    }
}

fn own(model: DataModel, spot: Spot, found: Option<IntType>, s: &Stmt) -> Option<IntType>
    ensures { result ≡ type_from spot found (stmt_view s.now ∷ []) }
{
    match found {
        Some(ty) => Some(ty),
        None => {
            if is_same(s.spot, spot) {
                switch_of(model, &s.form)
            } else {
                None
            }
        }
    }
}

#[cycle(statement)]
fn statement(model: DataModel, spot: Spot, found: Option<IntType>, s: &Stmt) -> Option<IntType>
    ensures { result ≡ type_from spot found (statements_of (stmt_view s.now)) }
{
    let found = own(model, spot, found, s);
    inside(model, spot, found, &s.form)
}

#[cycle(statement)]
#[tactic(auto, using(crate::proofs::SeekingLaws::type_from_both))]
fn inside(model: DataModel, spot: Spot, found: Option<IntType>, form: &Form) -> Option<IntType>
    ensures { result ≡ type_from spot found (statements_of_form (form_view form.now)) }
{
    match form {
        Form::Block(body) => block(model, spot, found, body.as_slice()),
        Form::If { yes, no, .. } => {
            let found = statement(model, spot, found, yes);
            match no {
                None => found,
                Some(no) => statement(model, spot, found, no),
            }
        }
        Form::While { body, .. } => statement(model, spot, found, body),
        Form::Do { body, .. } => statement(model, spot, found, body),
        Form::For { body, .. } => statement(model, spot, found, body),
        Form::Label(of) => statement(model, spot, found, of),
        Form::Switch { arms, .. } => in_arms(model, spot, found, arms.as_slice()),
        Form::Empty => found,
        Form::Expr(_) => found,
        Form::Declare(_) => found,
        Form::Break => found,
        Form::Continue => found,
        Form::Return(_) => found,
    }
}

#[cycle(statement)]
#[tactic(auto, using(crate::proofs::SeekingLaws::type_from_both))]
fn block(model: DataModel, spot: Spot, found: Option<IntType>, body: &[Stmt]) -> Option<IntType>
    ensures { result ≡ type_from spot found (statements_of_block (stmts_view body.now)) }
{
    let mut first = found;
    for s in body {
        first = statement(model, spot, first, s);
    }
    first
}

#[cycle(statement)]
#[tactic(auto, using(crate::proofs::SeekingLaws::type_from_both))]
fn in_arms(model: DataModel, spot: Spot, found: Option<IntType>, arms: &[Arm]) -> Option<IntType>
    ensures { result ≡ type_from spot found (statements_of_block (switch_view arms.now)) }
{
    let mut first = found;
    for arm in arms {
        first = block(model, spot, first, arm.body.as_slice());
    }
    first
}

#[tactic(auto, using(crate::proofs::SeekingLaws::type_from_both))]
fn in_functions(model: DataModel, spot: Spot, functions: &[Function]) -> Option<IntType>
    ensures { result ≡ type_from spot None (statements_of_functions (functions_view functions.now)) }
{
    let mut first = None;
    for function in functions {
        first = statement(model, spot, first, &function.body);
    }
    first
}

/// The promoted type of the test of the switch at a place (ISO C11 6.8.4.2p5).
pub fn switch_at(program: &Program, spot: Spot) -> Option<IntType>
    ensures { result ≡ switch_at (program_view program.now) spot }
{
    in_functions(program.model, spot, program.functions.as_slice())
}
