// Sizes of arrays.
ghost use Rattle.std.specs.Prelude.{◌≡◌, ◌∷◌, ◌++◌, [], None, nat_lt, map, IfOk, OnOk};
ghost use Rattle.std.specs.List.{list_any};
ghost use Rattle.c_parser.specs.SourceView.{init_view, values_view};
ghost use Rattle.c_parser.specs.Tree.{exps};
ghost use Rattle.c_parser.specs.View.{expr_view, exprs_view};
ghost use Rattle.c_core.specs.View.{expr_view as typed_view};
ghost use Rattle.check_rules.specs.Codes as codes;
ghost use Rattle.check_rules.specs.Kept.{kept, kept_sizes};
ghost use Rattle.check_rules.specs.Parts as part;
ghost use Rattle.check_rules.specs.Scopes as scopes;
ghost use Rattle.check_rules.specs.Scopes.{seen};
ghost use Rattle.check_rules.specs.Typed as typing;
ghost use Rattle.check_elaborate.specs.Items.{kept_views};
ghost use Rattle.check_elaborate.specs.Walks.{scope_at, bodies_in, IsJudged, dims_in, with_size};

use crate::context::Context;
use crate::walk::Walk;
use c_core::Expr;
use c_parser::{RawExpr, RawInit, RawRow};
use check_rules::{Role, Sizes};
use check_sequencing::Kept;
use check_types::{constant, expression};
use wv_base::OutOfMemory;

// Of one array.
const MOST_ARRAY_CELLS: u32 = 1024;

fn in_bounds(n: u16) -> Option<u16>
    ensures { result ≡ scopes.in_bounds n }
{
    if 1 <= n && n <= 1024 { Some(n) } else { None }
}

// A constant from 1 to 1,024.
fn as_size(value: Option<i128>) -> Option<u16>
    ensures { result ≡ scopes.as_size value }
{
    match u16::try_from(value?) {
        Ok(n) => in_bounds(n),
        Err(_) => None,
    }
}

/// Keeps a full expression, which no typed tree holds.
pub fn keep(walk: &mut Walk, object: Option<u32>, value: Expr) -> Result<(), OutOfMemory>
    ensures scope { OnOk result (scope_at walk.new ≡ scope_at walk.old) }
    ensures best { OnOk result (walk.new.best ≡ walk.old.best) }
    ensures kept { OnOk result (kept_views walk.new.kept
        ≡ kept_views walk.old.kept ++ kept object (typed_view value) ∷ []) }
{
    walk.kept.push(Kept { object, value })?;
    Ok(())
}

// The size of an array.
fn size_of(context: &Context, walk: &mut Walk, e: &RawExpr) -> Result<Option<u16>, OutOfMemory>
    ensures size { IfOk result (λ r. r
        ≡ scopes.size_of context.now.model (bodies_in context.now) (seen (scope_at walk.old)) (expr_view e.now)) }
    ensures scope { OnOk result (scope_at walk.new ≡ scope_at walk.old) }
    ensures noted { OnOk result (IsJudged context.now walk.old walk.new
        (part.parts (seen (scope_at walk.old)) part.Value (expr_view e.now))) }
    ensures kept { OnOk result (kept_views walk.new.kept
        ≡ kept_views walk.old.kept ++ kept None
        (typing.typed context.now.model (bodies_in context.now) (seen (scope_at walk.old)) (expr_view e.now)) ∷ []) }
{
    let typed = expression(
        context.alloc,
        context.functions,
        &walk.table,
        context.model,
        &mut walk.best,
        Role::Value,
        e,
    )?;
    let size = as_size(constant(context.model, &typed));
    keep(walk, None, typed)?;
    Ok(size)
}

// With one size more; a third says nothing.
fn with_size(stated: Sizes, size: Option<u16>) -> Sizes
    ensures { result ≡ with_size stated size }
{
    match stated {
        Sizes::Scalar => Sizes::Array(size),
        Sizes::Array(rows) => Sizes::Table(rows, size),
        Sizes::Table(rows, columns) => Sizes::Table(rows, columns),
    }
}

/// The sizes that a declaration states.
pub fn sizes(context: &Context, walk: &mut Walk, es: &[RawExpr]) -> Result<Sizes, OutOfMemory>
    ensures sizes { IfOk result (λ r. r
        ≡ scopes.sizes_of context.now.model (bodies_in context.now) (seen (scope_at walk.old)) (exprs_view es.now)) }
    ensures scope { OnOk result (scope_at walk.new ≡ scope_at walk.old) }
    ensures noted { OnOk result (IsJudged context.now walk.old walk.new
        (part.parts_of (seen (scope_at walk.old)) (exps (exprs_view es.now)))) }
    ensures kept { OnOk result (kept_views walk.new.kept
        ≡ kept_views walk.old.kept ++ kept_sizes context.now.model (bodies_in context.now) (seen (scope_at walk.old))
        (exprs_view es.now)) }
{
    let mut stated = Sizes::Scalar;
    for e in es {
        let size = size_of(context, walk, e)?;
        stated = with_size(stated, size);
    }
    Ok(stated)
}

/// The number of an object's dimensions.
pub fn dims(sizes: Sizes) -> u8
    ensures { result ≡ dims_in sizes }
{
    match sizes {
        Sizes::Scalar => 0,
        Sizes::Array(_) => 1,
        Sizes::Table(_, _) => 2,
    }
}

fn cells_or_one(size: Option<u16>) -> u16
    ensures { result ≡ scopes.cells_or_one size }
{
    size.unwrap_or(1)
}

/// All cells of an object.
pub fn cells(sizes: Sizes) -> u32
    ensures { result ≡ scopes.cells_in sizes }
{
    match sizes {
        Sizes::Scalar => 1,
        Sizes::Array(size) => u32::from(cells_or_one(size)),
        Sizes::Table(rows, columns) => {
            u32::from(cells_or_one(rows)) * u32::from(cells_or_one(columns))
        }
    }
}

/// The cells of a row of an object.
pub fn columns(sizes: Sizes) -> u32
    ensures { result ≡ scopes.columns_in sizes }
{
    match sizes {
        Sizes::Scalar => 1,
        Sizes::Array(_) => 1,
        Sizes::Table(_, columns) => u32::from(cells_or_one(columns)),
    }
}

// How many values an initializer states, or rows.
fn count(init: &RawInit) -> usize
    ensures { result ≡ codes.count_of_init (init_view init.now) }
{
    match init {
        RawInit::Absent => 0,
        RawInit::One(_) => 1,
        RawInit::Many(es) => es.len(),
        RawInit::Rows(rows) => rows.len(),
    }
}

// Is the size of an array no constant that fits, or smaller than the number of its initializers?
fn is_too_small(init: &RawInit, size: Option<u16>) -> bool
    ensures { result ≡ codes.is_too_small (codes.count_of_init (init_view init.now)) size }
{
    match size {
        None => true,
        Some(size) => usize::from(size) < count(init),
    }
}

// Has a row more values than columns?
fn is_longer(row: &RawRow, columns: u16) -> bool
    ensures { result ≡ nat_lt columns (codes.count (values_view row.now)) }
{
    usize::from(columns) < row.values.len()
}

fn one_is_longer(rows: &[RawRow], columns: u16) -> bool
    ensures { result ≡ list_any (λ row. nat_lt columns (codes.count (values_view row))) rows.now }
{
    rows.iter().any(|row| is_longer(row, columns))
}

// The same, in the words of the rule.
fn some_longer(rows: &[RawRow], columns: u16) -> bool
    ensures { result ≡ list_any (λ row. nat_lt columns (codes.count row)) (map values_view rows.now) }
{
    one_is_longer(rows, columns)
}

// Are there more values than rows and columns have room for?
fn overfills(rows: u16, columns: u16, init: &RawInit) -> bool
    ensures { result ≡ codes.overfills rows columns (init_view init.now) }
{
    match init {
        RawInit::Absent => false,
        RawInit::One(_) => false,
        RawInit::Many(es) => usize::from(rows) * usize::from(columns) < es.len(),
        RawInit::Rows(all) => {
            usize::from(rows) < all.len() || some_longer(all.as_slice(), columns)
        }
    }
}

fn is_wrong_table(rows: Option<u16>, columns: Option<u16>, init: &RawInit) -> bool
    ensures { result ≡ codes.is_wrong_table rows columns (init_view init.now) }
{
    match (rows, columns) {
        (Some(rows), Some(columns)) => {
            MOST_ARRAY_CELLS < u32::from(rows) * u32::from(columns)
                || overfills(rows, columns, init)
        }
        _ => true,
    }
}

/// Is a size no constant that fits, are there too many cells, or fewer than initializers?
pub fn is_wrong_size(sizes: Sizes, init: &RawInit) -> bool
    ensures { result ≡ codes.is_wrong_size sizes (init_view init.now) }
{
    match sizes {
        Sizes::Scalar => false,
        Sizes::Array(size) => is_too_small(init, size),
        Sizes::Table(rows, columns) => is_wrong_table(rows, columns, init),
    }
}
