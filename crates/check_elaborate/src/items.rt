// Items: functions, prototypes, and objects of static storage.
ghost use Rattle.std.specs.Prelude.{◌≡◌, ◌++◌, ◌∷◌, [], map, IfOk, OnOk};
ghost use Rattle.c_core.specs.View.{functions_view};
ghost use Rattle.c_parser.specs.SourceView.{item_view, param_view, stmt_view};
ghost use Rattle.c_parser.specs.Tree as raw;
ghost use Rattle.check_rules.specs.Checked as checked;
ghost use Rattle.check_rules.specs.Kept.{kept_of_parts, kept_outside};
ghost use Rattle.check_rules.specs.Names as known_as;
ghost use Rattle.check_rules.specs.Order.{parts_of_bodies};
ghost use Rattle.check_rules.specs.Parts as part;
ghost use Rattle.check_rules.specs.Scopes as scopes;
ghost use Rattle.check_elaborate.specs.Items.{names_of, functions_by, starts_by, kept_by, outside_by, kept_lists, kept_views};
ghost use Rattle.check_elaborate.specs.Walks.{scope_at, bodies_in, IsJudged};

use crate::context::Context;
use crate::functions::function;
use crate::globals::globals;
use crate::naming::{declare, stated_by};
use crate::walk::Walk;
use c_core::{Function, IntType, Spot, Start};
use c_parser::{Item, RawParam, RawStmt};
use check_scope::Known;
use check_sequencing::Kept;
use wv_base::{OutOfMemory, Seq, Text};

fn prototype<'a>(
    context: &Context,
    walk: &mut Walk<'a>,
    spot: Spot,
    name: &'a Text,
    gives: Option<IntType>,
    types: &'a Option<Seq<IntType>>,
) -> Result<(), OutOfMemory>
    ensures scope { OnOk result (scope_at walk.new
        ≡ scopes.after_item context.now.model (bodies_in context.now) (scope_at walk.old)
        (raw.Prototype spot name.now gives types.now)) }
    ensures noted { OnOk result (IsJudged context.now walk.old walk.new
        (part.parts_of_item context.now.model (bodies_in context.now) (scope_at walk.old)
        (raw.Prototype spot name.now gives types.now))) }
    ensures kept { OnOk result (walk.new.kept ≡ walk.old.kept) }
{
    let stated = stated_by(name.as_str(), types);
    let known = Known::Function {
        result: gives,
        stated,
        has_body: false,
    };
    declare(context, walk, spot, name, known)?;
    Ok(())
}

fn add_function<'a>(
    context: &Context,
    walk: &mut Walk<'a>,
    functions: &mut Seq<Function>,
    kept: &mut Seq<Seq<Kept>>,
    spot: Spot,
    name: &'a Text,
    gives: Option<IntType>,
    xs: &'a [RawParam],
    body: &'a RawStmt,
) -> Result<(), OutOfMemory>
    ensures functions { OnOk result (functions_view functions.new
        ≡ functions_view functions.old ++ functions_by context.now.model (bodies_in context.now) (scope_at walk.old)
        (raw.Function spot name.now gives (map param_view xs.now) (stmt_view body.now))) }
    ensures names { OnOk result (names_of functions.new ≡ names_of functions.old ++ name.now ∷ []) }
    ensures scope { OnOk result (scope_at walk.new
        ≡ scopes.after_item context.now.model (bodies_in context.now) (scope_at walk.old)
        (raw.Function spot name.now gives (map param_view xs.now) (stmt_view body.now))) }
    ensures noted { OnOk result (IsJudged context.now walk.old walk.new
        (part.parts_of_item context.now.model (bodies_in context.now) (scope_at walk.old)
        (raw.Function spot name.now gives (map param_view xs.now) (stmt_view body.now)))) }
    ensures kept { OnOk result (kept_lists kept.new
        ≡ kept_lists kept.old ++ kept_by context.now.model (bodies_in context.now) (scope_at walk.old)
        (raw.Function spot name.now gives (map param_view xs.now) (stmt_view body.now))) }
    ensures outside { OnOk result (kept_views walk.new.kept ≡ kept_views walk.old.kept) }
{
    let walked = function(context, walk, spot, name, gives, xs, body)?;
    functions.push(walked.function)?;
    kept.push(walked.kept)?;
    Ok(())
}

// An item of which the name alone is known.
fn close_name<'a>(walk: &mut Walk<'a>, name: &'a Text) -> Result<(), OutOfMemory>
    ensures scope { OnOk result (scope_at walk.new
        ≡ scopes.with_entry (scope_at walk.old) (known_as.entry name.now known_as.Closed)) }
    ensures best { OnOk result (walk.new.best ≡ walk.old.best) }
    ensures kept { OnOk result (walk.new.kept ≡ walk.old.kept) }
{
    walk.table.declare(name.as_str(), Known::Closed)?;
    Ok(())
}

// One item, which adds to the objects' first values and to the functions.
fn item<'a>(
    context: &Context,
    walk: &mut Walk<'a>,
    starts: &mut Seq<Start>,
    functions: &mut Seq<Function>,
    kept: &mut Seq<Seq<Kept>>,
    item: &'a Item,
) -> Result<(), OutOfMemory>
    ensures starts { OnOk result (starts.new
        ≡ starts.old ++ starts_by context.now.model (bodies_in context.now) (scope_at walk.old) (item_view item.now)) }
    ensures functions { OnOk result (functions_view functions.new
        ≡ functions_view functions.old ++ functions_by context.now.model (bodies_in context.now) (scope_at walk.old)
        (item_view item.now)) }
    ensures names { OnOk result (names_of functions.new
        ≡ names_of functions.old ++ part.bodies_of (item_view item.now ∷ [])) }
    ensures scope { OnOk result (scope_at walk.new
        ≡ scopes.after_item context.now.model (bodies_in context.now) (scope_at walk.old) (item_view item.now)) }
    ensures noted { OnOk result (IsJudged context.now walk.old walk.new
        (part.parts_of_item context.now.model (bodies_in context.now) (scope_at walk.old) (item_view item.now))) }
    ensures kept { OnOk result (kept_lists kept.new
        ≡ kept_lists kept.old ++ kept_by context.now.model (bodies_in context.now) (scope_at walk.old)
        (item_view item.now)) }
    ensures outside { OnOk result (kept_views walk.new.kept
        ≡ kept_views walk.old.kept ++ outside_by context.now.model (bodies_in context.now) (scope_at walk.old)
        (item_view item.now)) }
{
    match item {
        Item::Function {
            spot,
            name,
            result,
            params,
            body,
        } => {
            let xs = params.as_slice();
            add_function(
                context, walk, functions, kept, *spot, name, *result, xs, body,
            )?;
            Ok(())
        }
        Item::Prototype {
            spot,
            name,
            result,
            params,
        } => {
            prototype(context, walk, *spot, name, *result, params)?;
            Ok(())
        }
        Item::Global(ds) => {
            let names = ds.as_slice();
            globals(context, walk, starts, names)?;
            Ok(())
        }
        Item::Closed { name, .. } => {
            close_name(walk, name)?;
            Ok(())
        }
    }
}

/// All items of a source, one after another.
pub fn items<'a>(
    context: &Context,
    walk: &mut Walk<'a>,
    starts: &mut Seq<Start>,
    functions: &mut Seq<Function>,
    kept: &mut Seq<Seq<Kept>>,
    items: &'a [Item],
) -> Result<(), OutOfMemory>
    ensures starts { OnOk result (starts.new
        ≡ starts.old ++ checked.starts_of context.now.model (bodies_in context.now) (scope_at walk.old)
        (map item_view items.now)) }
    ensures functions { OnOk result (functions_view functions.new
        ≡ functions_view functions.old ++ checked.functions_of context.now.model (bodies_in context.now)
        (scope_at walk.old) (map item_view items.now)) }
    ensures names { OnOk result (names_of functions.new
        ≡ names_of functions.old ++ part.bodies_of (map item_view items.now)) }
    ensures scope { OnOk result (scope_at walk.new
        ≡ scopes.after_items context.now.model (bodies_in context.now) (scope_at walk.old) (map item_view items.now)) }
    ensures noted { OnOk result
        (IsJudged context.now walk.old walk.new
        (part.parts_of_items context.now.model (bodies_in context.now) (scope_at walk.old) (map item_view items.now))) }
    ensures kept { OnOk result (kept_lists kept.new
        ≡ kept_lists kept.old ++ map (kept_of_parts context.now.model (bodies_in context.now))
        (parts_of_bodies context.now.model (bodies_in context.now) (scope_at walk.old) (map item_view items.now))) }
    ensures outside { OnOk result (kept_views walk.new.kept
        ≡ kept_views walk.old.kept ++ kept_outside context.now.model (bodies_in context.now) (scope_at walk.old)
        (map item_view items.now)) }
{
    for x in items {
        item(context, walk, starts, functions, kept, x)?;
    }
    Ok(())
}
