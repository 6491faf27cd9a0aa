// A whole source.
ghost use Rattle.std.specs.Prelude.{◌≡◌, None, map, IfOk};
ghost use Rattle.c_core.specs.View.{functions_view};
ghost use Rattle.c_parser.specs.SourceView.{item_view};
ghost use Rattle.check_rules.specs.Checked.{functions_of, starts_of};
ghost use Rattle.check_rules.specs.Kept.{kept_in_bodies, kept_of_parts, kept_outside};
ghost use Rattle.check_rules.specs.Noting.{noted_parts};
ghost use Rattle.check_rules.specs.Order.{parts_of_bodies};
ghost use Rattle.check_rules.specs.Parts.{bodies_of, parts_of_items, parts_of_source};
ghost use Rattle.check_rules.specs.Scopes.{after_items, outermost};
ghost use Rattle.check_elaborate.specs.Items.{names_of, kept_lists, kept_views};
ghost use Rattle.check_elaborate.specs.Walks.{items_in, bodies_in};

use crate::context::Context;
use crate::items::items;
use crate::walk::Walk;
use c_core::{DataModel, Function, Object, Start};
use c_parser::Item;
use check_rules::Refusal;
use check_scope::Functions;
use check_sequencing::Kept;
use std::alloc::Global;
use wv_base::{OutOfMemory, Seq};

/// What a walk over a source finds: the parts of its program, and the first refusal but those by the order of operands.
#[derive(Drop)]
pub struct Walked {
    pub objects: Seq<Object>,
    pub starts: Seq<Start>,
    pub functions: Seq<Function>,
    /// One list for each function with a body.
    pub kept: Seq<Seq<Kept>>,
    /// Of objects outside of functions.
    pub outside: Seq<Kept>,
    pub best: Option<Refusal>,
}

// All items, from the outermost scope on.
fn walk_items(context: &Context, source: &[Item]) -> Result<Walked, OutOfMemory>
    ensures objects { IfOk result (λ w. w.objects
        ≡ (after_items context.now.model (bodies_in context.now) outermost (map item_view source.now)).objects) }
    ensures starts { IfOk result (λ w. w.starts
        ≡ starts_of context.now.model (bodies_in context.now) outermost (map item_view source.now)) }
    ensures functions { IfOk result (λ w. functions_view w.functions
        ≡ functions_of context.now.model (bodies_in context.now) outermost (map item_view source.now)) }
    ensures names { IfOk result (λ w. names_of w.functions ≡ bodies_of (map item_view source.now)) }
    ensures kept { IfOk result (λ w. kept_lists w.kept
        ≡ map (kept_of_parts context.now.model (bodies_in context.now))
        (parts_of_bodies context.now.model (bodies_in context.now) outermost (map item_view source.now))) }
    ensures outside { IfOk result (λ w. kept_views w.outside
        ≡ kept_outside context.now.model (bodies_in context.now) outermost (map item_view source.now)) }
    ensures best { IfOk result (λ w. w.best
        ≡ noted_parts context.now.model (items_in context.now) None
        (parts_of_items context.now.model (bodies_in context.now) outermost (map item_view source.now))) }
{
    let mut walk = Walk::new(context.alloc);
    let mut starts = Seq::new(context.alloc);
    let mut functions = Seq::new(context.alloc);
    let mut kept = Seq::new(context.alloc);
    items(
        context,
        &mut walk,
        &mut starts,
        &mut functions,
        &mut kept,
        source,
    )?;
    Ok(Walked {
        objects: walk.objects,
        starts,
        functions,
        kept,
        outside: walk.kept,
        best: walk.best,
    })
}

/// Goes through all parts of a source.
pub fn walk_source(alloc: Global, source: &[Item], model: DataModel) -> Result<Walked, OutOfMemory>
    ensures objects { IfOk result (λ w. w.objects
        ≡ (after_items model (bodies_of (map item_view source.now)) outermost (map item_view source.now)).objects) }
    ensures starts { IfOk result (λ w. w.starts
        ≡ starts_of model (bodies_of (map item_view source.now)) outermost (map item_view source.now)) }
    ensures functions { IfOk result (λ w. functions_view w.functions
        ≡ functions_of model (bodies_of (map item_view source.now)) outermost (map item_view source.now)) }
    ensures names { IfOk result (λ w. names_of w.functions ≡ bodies_of (map item_view source.now)) }
    ensures kept { IfOk result (λ w. kept_lists w.kept ≡ kept_in_bodies model (map item_view source.now)) }
    ensures outside { IfOk result (λ w. kept_views w.outside
        ≡ kept_outside model (bodies_of (map item_view source.now)) outermost (map item_view source.now)) }
    ensures best { IfOk result (λ w. w.best
        ≡ noted_parts model (map item_view source.now) None (parts_of_source model (map item_view source.now))) }
{
    let known = Functions::of(alloc, source)?;
    let context = Context {
        alloc,
        functions: &known,
        model,
    };
    let walked = walk_items(&context, source)?;
    Ok(walked)
}
