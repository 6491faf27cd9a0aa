// Input calls, and statements that store what one gives in an object.
ghost use Rattle.std.specs.Prelude.{◌≡◌};
ghost use Rattle.std.specs.Option.{option_map};
ghost use Rattle.c_core.specs.Places.{input_of};
ghost use Rattle.c_core.specs.View.{expr_view, init_view, names_view, stmt_view};
ghost use Rattle.way_match.specs.inside.Gathered.{stored_view};
ghost use Rattle.way_match.specs.Given.{stored_by, stored_by_exp, stored_by_init, stored_by_names, stored_by_target, stored_input};

use c_core::{Declared, Expr, Form, Init, Node, Stmt};
use way_places::{InputCall, input_of};

/// An object and the input call whose value it takes.
#[derive(Clone, Copy)]
pub struct StoredInput {
    pub object: u32,
    pub call: InputCall,
}

fn stored_input(object: u32, e: &Expr) -> Option<StoredInput>
    ensures { option_map stored_view result ≡ stored_input object (input_of (expr_view e.now)) }
{
    match input_of(e) {
        None => None,
        Some(call) => Some(StoredInput { object, call }),
    }
}

fn stored_by_target(target: &Expr, from: &Expr) -> Option<StoredInput>
    ensures { option_map stored_view result ≡ stored_by_target (expr_view target.now) (expr_view from.now) }
{
    match &target.node {
        Node::Var(object) => stored_input(*object, from),
        _ => None,
    }
}

fn stored_by_exp(e: &Expr) -> Option<StoredInput>
    ensures { option_map stored_view result ≡ stored_by_exp (expr_view e.now) }
{
    match &e.node {
        Node::Assign { op, target, from } => match op {
            None => stored_by_target(target, from),
            Some(_) => None,
        },
        _ => None,
    }
}

fn stored_by_init(object: u32, init: &Init) -> Option<StoredInput>
    ensures { option_map stored_view result ≡ stored_by_init object (init_view init.now) }
{
    match init {
        Init::Absent => None,
        Init::One(e) => stored_input(object, e),
        Init::Many(_) => None,
        Init::Rows(_) => None,
    }
}

#[tactic(auto, using(crate::proofs::StoredLaws::unless_one, crate::proofs::StoredLaws::of_one))]
fn stored_by_names(names: &[Declared]) -> Option<StoredInput>
    ensures { option_map stored_view result ≡ stored_by_names (names_view names.now) }
{
    if names.len() != 1 {
        return None;
    }
    let name = &names[0];
    stored_by_init(name.object, &name.init)
}

/// What `x = input();` and `T x = input();` store, and nothing of another statement.
pub fn stored_by(s: &Stmt) -> Option<StoredInput>
    ensures { option_map stored_view result ≡ stored_by (stmt_view s.now) }
{
    match &s.form {
        Form::Expr(e) => stored_by_exp(e),
        Form::Declare(names) => stored_by_names(names.as_slice()),
        _ => None,
    }
}
