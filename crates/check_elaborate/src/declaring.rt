// Declared names: what is refused of them, and their initializers.
ghost use Rattle.std.specs.Prelude.{◌≡◌, false, List, length, map, IfOk, OnOk};
ghost use Rattle.std.specs.List.{flat_map};
ghost use Rattle.c_core.specs.View.{expr_view as typed_view, exprs_view as typed_views, init_view as typed_init_view, names_view, rows_view};
ghost use Rattle.c_parser.specs.SourceView.{init_view, declared_view, values_view};
ghost use Rattle.c_parser.specs.Tree.{exps};
ghost use Rattle.c_parser.specs.View.{expr_view, exprs_view};
ghost use Rattle.check_rules.specs.Checked as checked;
ghost use Rattle.check_rules.specs.Codes as codes;
ghost use Rattle.check_rules.specs.Names.{Entry};
ghost use Rattle.check_rules.specs.Noting.{noted_part};
ghost use Rattle.check_rules.specs.Parts as part;
ghost use Rattle.check_rules.specs.Scopes as scopes;
ghost use Rattle.check_rules.specs.Scopes.{seen};
ghost use Rattle.check_rules.specs.Typed as typing;
ghost use Rattle.check_elaborate.specs.Walks.{scope_at, bodies_in, items_in, IsNoted, declarator};

use crate::context::Context;
use crate::full::full;
use crate::sizes::{cells, columns, dims, is_wrong_size, sizes};
use crate::walk::Walk;
use c_core::{Declared, Expr, Init, Object, Row};
use c_parser::{RawDeclared, RawExpr, RawInit, RawRow};
use check_rules::{CheckCode, Role, Sizes, noted};
use check_scope::Known;
use wv_base::{OutOfMemory, Seq, Text};

// Of all objects of a source.
const MOST_DECLARED_CELLS: u64 = 100_000;

// A list for a scalar, a single value for an array, or rows for other than two dimensions.
fn is_wrong_init(dims: u8, init: &RawInit) -> bool
    ensures { result ≡ codes.is_wrong_init dims (init_view init.now) }
{
    match init {
        RawInit::Absent => false,
        RawInit::One(_) => dims != 0,
        RawInit::Many(_) => dims == 0,
        RawInit::Rows(_) => dims != 2,
    }
}

/// Does this object bring the cells of all over the limit?
pub fn is_crowded(walk: &Walk, cells: u32) -> bool
    ensures { result ≡ codes.passes_limit (codes.cells_of_all walk.now.objects) cells }
{
    walk.cells <= MOST_DECLARED_CELLS && MOST_DECLARED_CELLS < walk.cells + u64::from(cells)
}

// Was the limit passed before, or is it with this object?
fn is_over_limit(walk: &Walk, cells: u32) -> bool
    ensures { result ≡ codes.is_over_limit (codes.cells_of_all walk.now.objects) cells }
{
    MOST_DECLARED_CELLS < walk.cells || is_crowded(walk, cells)
}

// The sizes to which values are filled: what is refused takes no room beside that of its values.
fn filled_sizes(walk: &Walk, init: &RawInit, sizes: Sizes) -> Sizes
    ensures { result ≡ checked.filled_sizes (codes.cells_of_all walk.now.objects) (init_view init.now) sizes }
{
    if is_wrong_size(sizes, init) || is_over_limit(walk, cells(sizes)) {
        Sizes::Scalar
    } else {
        sizes
    }
}

// What is refused of a declared name itself.
fn note_declared(
    context: &Context,
    walk: &mut Walk,
    fixed: bool,
    number: u32,
    sizes: Sizes,
    d: &RawDeclared,
)
    requires number { number ≡ length walk.old.objects }
    requires sizes { sizes ≡ scopes.sizes_of context.now.model (bodies_in context.now) (seen (scope_at walk.old))
        (exprs_view d.now.sizes) }
    ensures scope { scope_at walk.new ≡ scope_at walk.old }
    ensures noted { walk.new.best ≡ noted_part context.now.model (items_in context.now) walk.old.best
        (part.Declaring fixed (scope_at walk.old) (declared_view d.now)) }
    ensures kept { walk.new.kept ≡ walk.old.kept }
{
    let count = dims(sizes);
    let known = Known::Object {
        number,
        ty: d.ty,
        dims: count,
        fixed,
    };
    let again = walk.table.is_again(d.name.as_str(), known);
    let best = noted(walk.best, again, CheckCode::Again, d.spot);
    let wrong = is_wrong_init(count, &d.init);
    let best = noted(best, wrong, CheckCode::Typing, d.spot);
    let best = noted(best, is_wrong_size(sizes, &d.init), CheckCode::Size, d.spot);
    let crowded = is_crowded(walk, cells(sizes));
    walk.best = noted(best, crowded, CheckCode::Cells, d.spot);
}

fn object(
    context: &Context,
    fixed: bool,
    sizes: Sizes,
    d: &RawDeclared,
) -> Result<Object, OutOfMemory>
    ensures { (es : List Entry) → sizes
        ≡ scopes.sizes_of context.now.model (bodies_in context.now) es (exprs_view d.now.sizes)
        → IfOk result (λ o. o
        ≡ scopes.object_of context.now.model (bodies_in context.now) fixed es (declared_view d.now)) }
{
    Ok(Object {
        name: Text::of(context.alloc, d.name.as_str())?,
        ty: d.ty,
        cells: cells(sizes),
        columns: columns(sizes),
        dims: dims(sizes),
        fixed,
        spot: d.spot,
    })
}

// An initializer in a function, which may be any value.
fn value(context: &Context, walk: &mut Walk, e: &RawExpr) -> Result<Expr, OutOfMemory>
    ensures typed { IfOk result (λ r. typed_view r
        ≡ typing.typed context.now.model (bodies_in context.now) (seen (scope_at walk.old)) (expr_view e.now)) }
    ensures scope { OnOk result (scope_at walk.new ≡ scope_at walk.old) }
    ensures noted { OnOk result (IsNoted context.now walk.old walk.new
        (part.parts_of_value false (scope_at walk.old) (expr_view e.now))) }
{
    let typed = full(context, walk, Role::Value, e)?;
    Ok(typed)
}

fn values(context: &Context, walk: &mut Walk, es: &[RawExpr]) -> Result<Seq<Expr>, OutOfMemory>
    ensures typed { IfOk result (λ r. typed_views r
        ≡ typing.typed_all context.now.model (bodies_in context.now) (seen (scope_at walk.old))
        (exps (exprs_view es.now))) }
    ensures scope { OnOk result (scope_at walk.new ≡ scope_at walk.old) }
    ensures noted { OnOk result (IsNoted context.now walk.old walk.new
        (part.parts_of_values false (scope_at walk.old) (exps (exprs_view es.now)))) }
{
    let mut all = Seq::new(context.alloc);
    for e in es {
        let typed = value(context, walk, e)?;
        all.push(typed)?;
    }
    Ok(all)
}

fn rows(context: &Context, walk: &mut Walk, rows: &[RawRow]) -> Result<Seq<Row>, OutOfMemory>
    ensures typed { IfOk result (λ r. rows_view r
        ≡ map (typing.typed_all context.now.model (bodies_in context.now) (seen (scope_at walk.old)))
        (map values_view rows.now)) }
    ensures scope { OnOk result (scope_at walk.new ≡ scope_at walk.old) }
    ensures noted { OnOk result (IsNoted context.now walk.old walk.new
        (flat_map (part.parts_of_values false (scope_at walk.old)) (map values_view rows.now))) }
{
    let mut all = Seq::new(context.alloc);
    for row in rows {
        let values = values(context, walk, row.values.as_slice())?;
        all.push(Row { values })?;
    }
    Ok(all)
}

// The initializer of the last name of the scope.
fn initializer(context: &Context, walk: &mut Walk, init: &RawInit) -> Result<Init, OutOfMemory>
    ensures typed { IfOk result (λ r. typed_init_view r
        ≡ checked.typed_init context.now.model (bodies_in context.now) (seen (scope_at walk.old))
        (init_view init.now)) }
    ensures scope { OnOk result (scope_at walk.new ≡ scope_at walk.old) }
    ensures noted { OnOk result (IsNoted context.now walk.old walk.new
        (part.parts_of_init false (scope_at walk.old) (init_view init.now))) }
{
    match init {
        RawInit::Absent => Ok(Init::Absent),
        RawInit::One(e) => {
            let typed = value(context, walk, e)?;
            Ok(Init::One(typed))
        }
        RawInit::Many(es) => {
            let typed = values(context, walk, es.as_slice())?;
            Ok(Init::Many(typed))
        }
        RawInit::Rows(all) => {
            let typed = rows(context, walk, all.as_slice())?;
            Ok(Init::Rows(typed))
        }
    }
}

/// The number of an object that was declared, and the sizes to which its values are filled.
#[derive(Clone, Copy)]
pub struct Numbered {
    pub number: u32,
    pub filled: Sizes,
}

/// A declared name up to its initializer.
pub fn declare<'a>(
    context: &Context,
    walk: &mut Walk<'a>,
    fixed: bool,
    d: &'a RawDeclared,
) -> Result<Numbered, OutOfMemory>
    ensures number { IfOk result (λ r. r.number ≡ length walk.old.objects) }
    ensures filled { IfOk result (λ r. r.filled
        ≡ checked.filled_for context.now.model (bodies_in context.now) (scope_at walk.old) (declared_view d.now)) }
    ensures scope { OnOk result (scope_at walk.new
        ≡ scopes.after_name context.now.model (bodies_in context.now) fixed (scope_at walk.old) (declared_view d.now)) }
    ensures noted { OnOk result (IsNoted context.now walk.old walk.new
        (declarator fixed (scope_at walk.old) (declared_view d.now))) }
{
    let sizes = sizes(context, walk, d.sizes.as_slice())?;
    let number = walk.next_number()?;
    note_declared(context, walk, fixed, number, sizes, d);
    let filled = filled_sizes(walk, &d.init, sizes);
    let object = object(context, fixed, sizes, d)?;
    walk.declare(d.name.as_str(), object)?;
    Ok(Numbered { number, filled })
}

// A name in a function, with its initializer.
fn name<'a>(
    context: &Context,
    walk: &mut Walk<'a>,
    d: &'a RawDeclared,
) -> Result<Declared, OutOfMemory>
    ensures spot { IfOk result (λ r. r.spot ≡ d.now.spot) }
    ensures number { IfOk result (λ r. r.object ≡ length walk.old.objects) }
    ensures typed { IfOk result (λ r. typed_init_view r.init
        ≡ checked.typed_init context.now.model (bodies_in context.now)
        (seen (scopes.after_name context.now.model (bodies_in context.now) false (scope_at walk.old)
        (declared_view d.now))) (init_view d.now.init)) }
    ensures scope { OnOk result (scope_at walk.new
        ≡ scopes.after_name context.now.model (bodies_in context.now) false (scope_at walk.old) (declared_view d.now)) }
    ensures noted { OnOk result (IsNoted context.now walk.old walk.new
        (part.parts_of_name context.now.model (bodies_in context.now) false (scope_at walk.old)
        (declared_view d.now))) }
{
    let declared = declare(context, walk, false, d)?;
    let init = initializer(context, walk, &d.init)?;
    Ok(Declared {
        spot: d.spot,
        object: declared.number,
        init,
    })
}

/// The names of one declaration in a function.
pub fn names<'a>(
    context: &Context,
    walk: &mut Walk<'a>,
    ds: &'a [RawDeclared],
) -> Result<Seq<Declared>, OutOfMemory>
    ensures typed { IfOk result (λ r. names_view r
        ≡ checked.typed_names context.now.model (bodies_in context.now) (scope_at walk.old)
        (map declared_view ds.now)) }
    ensures scope { OnOk result (scope_at walk.new
        ≡ scopes.after_names context.now.model (bodies_in context.now) false (scope_at walk.old)
        (map declared_view ds.now)) }
    ensures noted { OnOk result (IsNoted context.now walk.old walk.new
        (part.parts_of_names context.now.model (bodies_in context.now) false (scope_at walk.old)
        (map declared_view ds.now))) }
{
    let mut all = Seq::new(context.alloc);
    for d in ds {
        let declared = name(context, walk, d)?;
        all.push(declared)?;
    }
    Ok(all)
}
