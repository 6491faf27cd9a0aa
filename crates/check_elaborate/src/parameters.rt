// Parameters of functions with a body.
ghost use Rattle.std.specs.Prelude.{◌≡◌, ◌∷◌, [], false, length, map, IfOk, OnOk};
ghost use Rattle.c_parser.specs.SourceView.{param_view};
ghost use Rattle.check_rules.specs.Checked as checked;
ghost use Rattle.check_rules.specs.Parts as part;
ghost use Rattle.check_rules.specs.Scopes as scopes;
ghost use Rattle.check_elaborate.specs.Items.{kept_views};
ghost use Rattle.check_elaborate.specs.Walks.{scope_at, bodies_in, IsJudged};

use crate::context::Context;
use crate::declaring::is_crowded;
use crate::walk::Walk;
use c_core::Object;
use c_parser::RawParam;
use check_rules::{CheckCode, noted};
use check_scope::Known;
use wv_base::{OutOfMemory, Seq, Text};

fn note_parameter(context: &Context, walk: &mut Walk, number: u32, x: &RawParam)
    requires { number ≡ length walk.old.objects }
    ensures scope { scope_at walk.new ≡ scope_at walk.old }
    ensures noted { IsJudged context.now walk.old walk.new
        (part.parts_of_parameters (scope_at walk.old) (param_view x.now ∷ [])) }
    ensures kept { walk.new.kept ≡ walk.old.kept }
{
    let _ = context;
    let known = Known::Object {
        number,
        ty: x.ty,
        dims: 0,
        fixed: false,
    };
    let again = walk.table.is_again(x.name.as_str(), known);
    let best = noted(walk.best, again, CheckCode::Again, x.spot);
    let crowded = is_crowded(walk, 1);
    walk.best = noted(best, crowded, CheckCode::Cells, x.spot);
}

fn object(context: &Context, x: &RawParam) -> Result<Object, OutOfMemory>
    ensures { IfOk result (λ o. o ≡ scopes.parameter (param_view x.now)) }
{
    Ok(Object {
        name: Text::of(context.alloc, x.name.as_str())?,
        ty: x.ty,
        cells: 1,
        columns: 1,
        dims: 0,
        fixed: false,
        spot: x.spot,
    })
}

// A parameter is an object of the call, and gives its number.
fn parameter<'a>(
    context: &Context,
    walk: &mut Walk<'a>,
    x: &'a RawParam,
) -> Result<u32, OutOfMemory>
    ensures number { IfOk result (λ n. n ≡ length walk.old.objects) }
    ensures scope { OnOk result (scope_at walk.new
        ≡ scopes.with_object (scope_at walk.old) (scopes.parameter (param_view x.now))) }
    ensures noted { OnOk result (IsJudged context.now walk.old walk.new
        (part.parts_of_parameters (scope_at walk.old) (param_view x.now ∷ []))) }
    ensures kept { OnOk result (kept_views walk.new.kept ≡ kept_views walk.old.kept) }
{
    let number = walk.next_number()?;
    note_parameter(context, walk, number, x);
    let object = object(context, x)?;
    walk.declare(x.name.as_str(), object)?;
    Ok(number)
}

/// The numbers of a function's parameters.
pub fn parameters<'a>(
    context: &Context,
    walk: &mut Walk<'a>,
    xs: &'a [RawParam],
) -> Result<Seq<u32>, OutOfMemory>
    ensures numbers { IfOk result (λ r. r
        ≡ checked.numbers_from context.now.model (bodies_in context.now) (length walk.old.objects)
        (map param_view xs.now)) }
    ensures scope { OnOk result (scope_at walk.new
        ≡ scopes.after_parameters (scope_at walk.old) (map param_view xs.now)) }
    ensures noted { OnOk result (IsJudged context.now walk.old walk.new
        (part.parts_of_parameters (scope_at walk.old) (map param_view xs.now))) }
    ensures kept { OnOk result (kept_views walk.new.kept ≡ kept_views walk.old.kept) }
{
    let mut numbers = Seq::new(context.alloc);
    for x in xs {
        let number = parameter(context, walk, x)?;
        numbers.push(number)?;
    }
    Ok(numbers)
}
