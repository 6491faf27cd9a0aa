// Statements that leave a loop or a function.
ghost use Rattle.std.specs.Prelude.{◌≡◌, is_some, IfOk, OnOk};
ghost use Rattle.std.specs.Option.{option_map};
ghost use Rattle.c_core.specs.View.{form_view as typed_form_view};
ghost use Rattle.c_parser.specs.Tree as raw;
ghost use Rattle.c_parser.specs.View.{expr_view};
ghost use Rattle.check_rules.specs.Checked as checked;
ghost use Rattle.check_rules.specs.Codes as codes;
ghost use Rattle.check_rules.specs.Noting.{noted_part};
ghost use Rattle.check_rules.specs.Parts as part;
ghost use Rattle.check_elaborate.specs.Walks.{scope_at, bodies_in, items_in, IsNoted};

use crate::context::Context;
use crate::full::full_if;
use crate::walk::Walk;
use c_core::{Form, IntType, Spot};
use c_parser::RawExpr;
use check_rules::{CheckCode, Role, Within, noted};
use wv_base::OutOfMemory;

// A value in a void function, or none in another.
fn is_wrong_return(gives: Option<IntType>, given: bool) -> bool
    ensures { result ≡ codes.is_wrong_return gives given }
{
    match gives {
        None => given,
        Some(_) => !given,
    }
}

fn note_return(
    context: &Context,
    walk: &mut Walk,
    gives: Option<IntType>,
    spot: Spot,
    e: &Option<RawExpr>,
)
    ensures scope { scope_at walk.new ≡ scope_at walk.old }
    ensures noted { walk.new.best ≡ noted_part context.now.model (items_in context.now) walk.old.best
        (part.Returning gives spot (is_some (option_map expr_view e.now))) }
    ensures kept { walk.new.kept ≡ walk.old.kept }
{
    let _ = context;
    let mistyped = is_wrong_return(gives, e.is_some());
    walk.best = noted(walk.best, mistyped, CheckCode::Typing, spot);
}

/// `return` in a function of this result.
pub fn give(
    context: &Context,
    walk: &mut Walk,
    gives: Option<IntType>,
    within: Within,
    spot: Spot,
    e: &Option<RawExpr>,
) -> Result<Form, OutOfMemory>
    ensures typed { IfOk result (λ r. typed_form_view r
        ≡ checked.typed_form context.now.model (bodies_in context.now) (scope_at walk.old)
        (raw.Return (option_map expr_view e.now))) }
    ensures scope { OnOk result (scope_at walk.new ≡ scope_at walk.old) }
    ensures noted { OnOk result (IsNoted context.now walk.old walk.new
        (part.parts_of_form context.now.model (bodies_in context.now) gives within (scope_at walk.old) spot
        (raw.Return (option_map expr_view e.now)))) }
{
    note_return(context, walk, gives, spot, e);
    let e = full_if(context, walk, Role::Value, e)?;
    Ok(Form::Return(e))
}

/// `break` or `continue`, where it may stand or not.
pub fn leave(context: &Context, walk: &mut Walk, may: bool, spot: Spot)
    ensures scope { scope_at walk.new ≡ scope_at walk.old }
    ensures noted { walk.new.best ≡ noted_part context.now.model (items_in context.now) walk.old.best
        (part.Leaving may spot) }
    ensures kept { walk.new.kept ≡ walk.old.kept }
{
    let _ = context;
    walk.best = noted(walk.best, !may, CheckCode::Typing, spot);
}
