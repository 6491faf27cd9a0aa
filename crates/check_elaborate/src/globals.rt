// Objects of static storage: their initializers are constants, and are kept.
ghost use Rattle.std.specs.Prelude.{◌≡◌, ◌++◌, ◌-◌, true, length, map, IfOk, OnOk};
ghost use Rattle.std.specs.List.{flat_map};
ghost use Rattle.c_core.specs.Types.{fit};
ghost use Rattle.c_core.specs.View.{expr_view as typed_view};
ghost use Rattle.c_parser.specs.SourceView.{init_view, declared_view, values_view};
ghost use Rattle.c_parser.specs.Tree.{exps};
ghost use Rattle.c_parser.specs.View.{expr_view, exprs_view};
ghost use Rattle.check_rules.specs.Checked as checked;
ghost use Rattle.check_rules.specs.Constants as constants;
ghost use Rattle.check_rules.specs.Noting.{noted_part};
ghost use Rattle.check_rules.specs.Parts as part;
ghost use Rattle.check_rules.specs.Scopes as scopes;
ghost use Rattle.check_rules.specs.Scopes.{seen};
ghost use Rattle.check_rules.specs.Typed as typing;
ghost use Rattle.check_elaborate.specs.Walks.{scope_at, bodies_in, items_in, IsNoted};

use crate::context::Context;
use crate::declaring::{Numbered, declare};
use crate::full::full;
use crate::sizes::{cells, columns, keep};
use crate::walk::Walk;
use c_core::{Expr, IntType, Start, convert};
use c_parser::{RawDeclared, RawExpr, RawInit, RawRow};
use check_rules::{CheckCode, Role, noted};
use check_types::constant;
use wv_base::{OutOfMemory, Seq};

// What is refused of an initializer itself: that it is no constant.
fn note_value(context: &Context, walk: &mut Walk, e: &RawExpr, typed: &Expr)
    requires { typed_view typed.now ≡ typing.typed context.now.model (bodies_in context.now) (seen (scope_at walk.old))
        (expr_view e.now) }
    ensures scope { scope_at walk.new ≡ scope_at walk.old }
    ensures noted { walk.new.best ≡ noted_part context.now.model (items_in context.now) walk.old.best
        (part.Initializing true (scope_at walk.old) (expr_view e.now)) }
    ensures kept { walk.new.kept ≡ walk.old.kept }
{
    let mistyped = constant(context.model, typed).is_none();
    walk.best = noted(walk.best, mistyped, CheckCode::Typing, e.spot);
}

// The value of a constant, converted to the type of the object that starts with it.
fn start_value(context: &Context, ty: IntType, e: &Expr) -> i128
    ensures { result ≡ fit context.now.model ty
        (checked.or_zero (constants.constant context.now.model (typed_view e.now))) }
{
    let value = constant(context.model, e).unwrap_or(0);
    convert(context.model, ty, value)
}

// One value of the last object of the scope, which starts with it.
fn value(
    context: &Context,
    walk: &mut Walk,
    number: u32,
    ty: IntType,
    e: &RawExpr,
) -> Result<i128, OutOfMemory>
    requires { number ≡ length walk.old.objects - 1 }
    ensures value { IfOk result (λ r. r
        ≡ checked.start_value context.now.model (bodies_in context.now) (seen (scope_at walk.old)) ty
        (expr_view e.now)) }
    ensures scope { OnOk result (scope_at walk.new ≡ scope_at walk.old) }
    ensures noted { OnOk result (IsNoted context.now walk.old walk.new
        (part.parts_of_value true (scope_at walk.old) (expr_view e.now))) }
{
    let typed = full(context, walk, Role::Value, e)?;
    note_value(context, walk, e, &typed);
    let start = start_value(context, ty, &typed);
    keep(walk, Some(number), typed)?;
    Ok(start)
}

fn values(
    context: &Context,
    walk: &mut Walk,
    number: u32,
    ty: IntType,
    es: &[RawExpr],
) -> Result<Seq<i128>, OutOfMemory>
    requires { number ≡ length walk.old.objects - 1 }
    ensures values { IfOk result (λ r. r
        ≡ checked.start_values context.now.model (bodies_in context.now) (seen (scope_at walk.old)) ty
        (exps (exprs_view es.now))) }
    ensures scope { OnOk result (scope_at walk.new ≡ scope_at walk.old) }
    ensures noted { OnOk result (IsNoted context.now walk.old walk.new
        (part.parts_of_values true (scope_at walk.old) (exps (exprs_view es.now)))) }
{
    let mut all = Seq::new(context.alloc);
    for e in es {
        let start = value(context, walk, number, ty, e)?;
        all.push(start)?;
    }
    Ok(all)
}

// Zeros for the cells that values leave.
fn pad(values: &mut Seq<i128>, cells: u32) -> Result<(), OutOfMemory>
    ensures { OnOk result (values.new ≡ checked.padded cells values.old) }
{
    let left = (cells as usize).saturating_sub(values.len());
    for _ in 0..left {
        values.push(0)?;
    }
    Ok(())
}

fn append(all: &mut Seq<i128>, values: &[i128]) -> Result<(), OutOfMemory>
    ensures { OnOk result (all.new ≡ all.old ++ values.now) }
{
    for value in values {
        all.push(*value)?;
    }
    Ok(())
}

// The values of rows, each with zeros to its end.
fn row_values(
    context: &Context,
    walk: &mut Walk,
    number: u32,
    ty: IntType,
    columns: u32,
    rows: &[RawRow],
) -> Result<Seq<i128>, OutOfMemory>
    requires { number ≡ length walk.old.objects - 1 }
    ensures values { IfOk result (λ r. r
        ≡ checked.row_values context.now.model (bodies_in context.now) (seen (scope_at walk.old)) ty columns
        (map values_view rows.now)) }
    ensures scope { OnOk result (scope_at walk.new ≡ scope_at walk.old) }
    ensures noted { OnOk result (IsNoted context.now walk.old walk.new
        (flat_map (part.parts_of_values true (scope_at walk.old)) (map values_view rows.now))) }
{
    let mut all = Seq::new(context.alloc);
    for row in rows {
        let mut values = values(context, walk, number, ty, row.values.as_slice())?;
        pad(&mut values, columns)?;
        append(&mut all, values.as_slice())?;
    }
    Ok(all)
}

// The initializer of the last object of the scope, where it has one.
fn initializer(
    context: &Context,
    walk: &mut Walk,
    starts: &mut Seq<Start>,
    declared: Numbered,
    ty: IntType,
    init: &RawInit,
) -> Result<(), OutOfMemory>
    requires { declared.number ≡ length walk.old.objects - 1 }
    ensures starts { OnOk result (starts.new
        ≡ starts.old ++ checked.start_of_init context.now.model (bodies_in context.now) (seen (scope_at walk.old))
        declared.number ty declared.filled (init_view init.now)) }
    ensures scope { OnOk result (scope_at walk.new ≡ scope_at walk.old) }
    ensures noted { OnOk result (IsNoted context.now walk.old walk.new
        (part.parts_of_init true (scope_at walk.old) (init_view init.now))) }
{
    match init {
        RawInit::Absent => Ok(()),
        RawInit::One(e) => {
            let start = value(context, walk, declared.number, ty, e)?;
            let mut values = Seq::new(context.alloc);
            values.push(start)?;
            starts.push(Start {
                object: declared.number,
                values,
            })?;
            Ok(())
        }
        RawInit::Many(es) => {
            let mut values = values(context, walk, declared.number, ty, es.as_slice())?;
            pad(&mut values, cells(declared.filled))?;
            starts.push(Start {
                object: declared.number,
                values,
            })?;
            Ok(())
        }
        RawInit::Rows(rows) => {
            let columns = columns(declared.filled);
            let rows = rows.as_slice();
            let mut values = row_values(context, walk, declared.number, ty, columns, rows)?;
            pad(&mut values, cells(declared.filled))?;
            starts.push(Start {
                object: declared.number,
                values,
            })?;
            Ok(())
        }
    }
}

// A declared name with its initializer.
fn global<'a>(
    context: &Context,
    walk: &mut Walk<'a>,
    starts: &mut Seq<Start>,
    d: &'a RawDeclared,
) -> Result<(), OutOfMemory>
    ensures starts { OnOk result (starts.new
        ≡ starts.old ++ checked.start_of_name context.now.model (bodies_in context.now) (scope_at walk.old)
        (declared_view d.now)) }
    ensures scope { OnOk result (scope_at walk.new
        ≡ scopes.after_name context.now.model (bodies_in context.now) true (scope_at walk.old) (declared_view d.now)) }
    ensures noted { OnOk result (IsNoted context.now walk.old walk.new
        (part.parts_of_name context.now.model (bodies_in context.now) true (scope_at walk.old) (declared_view d.now))) }
{
    let declared = declare(context, walk, true, d)?;
    initializer(context, walk, starts, declared, d.ty, &d.init)?;
    Ok(())
}

/// The names of one declaration outside of functions.
pub fn globals<'a>(
    context: &Context,
    walk: &mut Walk<'a>,
    starts: &mut Seq<Start>,
    ds: &'a [RawDeclared],
) -> Result<(), OutOfMemory>
    ensures starts { OnOk result (starts.new
        ≡ starts.old ++ checked.starts_of_names context.now.model (bodies_in context.now) (scope_at walk.old)
        (map declared_view ds.now)) }
    ensures scope { OnOk result (scope_at walk.new
        ≡ scopes.after_names context.now.model (bodies_in context.now) true (scope_at walk.old)
        (map declared_view ds.now)) }
    ensures noted { OnOk result (IsNoted context.now walk.old walk.new
        (part.parts_of_names context.now.model (bodies_in context.now) true (scope_at walk.old)
        (map declared_view ds.now))) }
{
    for d in ds {
        global(context, walk, starts, d)?;
    }
    Ok(())
}
