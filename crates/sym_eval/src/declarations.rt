// Declared names and their initializers.
ghost use Rattle.std.specs.Prelude.{◌≡◌, ◌*◌, IfOk};
ghost use Rattle.c_core.specs.Tree as t;
ghost use Rattle.c_core.specs.View.{expr_view, exprs_view, first_view, init_view, names_view, rows_view};
ghost use Rattle.sym_walk.specs.Walking.{program_of, mode_of, IsWalk};
ghost use Rattle.sym_eval.specs.Doing.{InitialsReady, InitialsDo, RowsReady, RowsDo, InitialReady, InitialDoes, NamesReady, NamesDo, FirstReady, FirstDoes};

use crate::control::full;
use c_core::{Declared, Expr, First, Init, Row, Spot};
use c_meaning::{DrawKind, size_of_object, type_of, type_of_object};
use sym_elements::columns_of_object;
use sym_flow::{declare, draw_cells};
use sym_state::{Sym, write};
use sym_values::convert;
use sym_walk::Walk;
use wv_base::OutOfMemory;

// One value of an initializer.
#[cycle(walk)]
fn initial_value(
    walk: &Walk,
    sym: &mut Sym,
    depth: u32,
    at: Spot,
    object: u32,
    index: u32,
    e: &Expr,
) -> Result<(), OutOfMemory>
    requires walk { IsWalk walk.now }
    requires ready { InitialsReady (program_of walk.now) (mode_of walk.now) depth object sym.old
        (t.MoreExp (expr_view e.now) t.NoExp) }
    ensures { IfOk result (λ r. InitialsDo (program_of walk.now) (mode_of walk.now) depth at object index
        (t.MoreExp (expr_view e.now) t.NoExp) sym.old sym.new) }
{
    let ty = type_of_object(walk.program, object);
    let x = full(walk, sym, depth, at, true, e)?;
    let y = convert(walk.alloc, walk.program, sym, type_of(e), ty, &x)?;
    let here = sym.live;
    write(walk.alloc, walk.program, sym, here, object, index, &y)?;
    Ok(())
}

// The values of an initializer from a cell on, one after another.
#[cycle(walk)]
fn initial_values(
    walk: &Walk,
    sym: &mut Sym,
    depth: u32,
    at: Spot,
    object: u32,
    first: u32,
    es: &[Expr],
) -> Result<(), OutOfMemory>
    requires walk { IsWalk walk.now }
    requires ready { InitialsReady (program_of walk.now) (mode_of walk.now) depth object sym.old
        (exprs_view es.now) }
    ensures { IfOk result (λ r. InitialsDo (program_of walk.now) (mode_of walk.now) depth at object first
        (exprs_view es.now) sym.old sym.new) }
{
    for (index, e) in es.iter().enumerate() {
        // cells are numbered by 32 bits
        if index > (u32::MAX - first) as usize {
            return Err(OutOfMemory);
        }
        initial_value(walk, sym, depth, at, object, first + index as u32, e)?;
    }
    Ok(())
}

// The first cell of a row; cells are numbered by 32 bits.
fn first_of_row(row: usize, columns: u32) -> Result<u32, OutOfMemory>
    ensures { IfOk result (λ r. r ≡ row * columns) }
{
    if row > u32::MAX as usize {
        return Err(OutOfMemory);
    }
    let first = row as u64 * u64::from(columns);
    if first > u64::from(u32::MAX) {
        return Err(OutOfMemory);
    }
    Ok(first as u32)
}

// The rows of an initializer, each from its own first cell on.
#[cycle(walk)]
fn initial_rows(
    walk: &Walk,
    sym: &mut Sym,
    depth: u32,
    at: Spot,
    object: u32,
    rows: &[Row],
) -> Result<(), OutOfMemory>
    requires walk { IsWalk walk.now }
    requires ready { RowsReady (program_of walk.now) (mode_of walk.now) depth object sym.old
        (rows_view rows.now) }
    ensures { IfOk result (λ r. RowsDo (program_of walk.now) (mode_of walk.now) depth at object
        (rows_view rows.now) sym.old sym.new) }
{
    let columns = columns_of_object(walk.program, object);
    for (index, row) in rows.iter().enumerate() {
        let first = first_of_row(index, columns)?;
        initial_values(walk, sym, depth, at, object, first, row.values.as_slice())?;
    }
    Ok(())
}

// The initializer of a declared name; where there is none, its cells draw.
#[cycle(walk)]
fn initial(
    walk: &Walk,
    sym: &mut Sym,
    depth: u32,
    at: Spot,
    spot: Spot,
    object: u32,
    init: &Init,
) -> Result<(), OutOfMemory>
    requires walk { IsWalk walk.now }
    requires ready { InitialReady (program_of walk.now) (mode_of walk.now) depth object sym.old
        (init_view init.now) }
    ensures { IfOk result (λ r. InitialDoes (program_of walk.now) (mode_of walk.now) depth at spot object
        (init_view init.now) sym.old sym.new) }
{
    match init {
        Init::Absent => {
            draw_cells(walk.alloc, walk.program, sym, DrawKind::Cell, spot, object)?;
            Ok(())
        }
        Init::One(e) => {
            initial_value(walk, sym, depth, at, object, 0, e)?;
            Ok(())
        }
        Init::Many(es) => {
            initial_values(walk, sym, depth, at, object, 0, es.as_slice())?;
            Ok(())
        }
        Init::Rows(rows) => {
            initial_rows(walk, sym, depth, at, object, rows.as_slice())?;
            Ok(())
        }
    }
}

// A declared name: its cells, then what they hold.
#[cycle(walk)]
fn introduce(
    walk: &Walk,
    sym: &mut Sym,
    depth: u32,
    at: Spot,
    name: &Declared,
) -> Result<(), OutOfMemory>
    requires walk { IsWalk walk.now }
    requires ready { NamesReady (program_of walk.now) (mode_of walk.now) depth sym.old
        (t.MoreName name.now.spot name.now.object (init_view name.now.init) t.NoName) }
    ensures { IfOk result (λ r. NamesDo (program_of walk.now) (mode_of walk.now) depth at
        (t.MoreName name.now.spot name.now.object (init_view name.now.init) t.NoName) sym.old sym.new) }
{
    let object = name.object;
    let size = size_of_object(walk.program, object);
    declare(walk.alloc, walk.program, sym, object, size)?;
    initial(walk, sym, depth, at, name.spot, object, &name.init)?;
    Ok(())
}

/// Declared names, one after another.
#[cycle(walk)]
#[inline(never)]
pub fn declare_names(
    walk: &Walk,
    sym: &mut Sym,
    depth: u32,
    at: Spot,
    names: &[Declared],
) -> Result<(), OutOfMemory>
    requires walk { IsWalk walk.now }
    requires ready { NamesReady (program_of walk.now) (mode_of walk.now) depth sym.old (names_view names.now) }
    ensures { IfOk result (λ r. NamesDo (program_of walk.now) (mode_of walk.now) depth at (names_view names.now)
        sym.old sym.new) }
{
    for name in names {
        introduce(walk, sym, depth, at, name)?;
    }
    Ok(())
}

/// What comes before the turns of a `for`.
#[cycle(walk)]
#[inline(never)]
pub fn first(
    walk: &Walk,
    sym: &mut Sym,
    depth: u32,
    at: Spot,
    start: &First,
) -> Result<(), OutOfMemory>
    requires walk { IsWalk walk.now }
    requires ready { FirstReady (program_of walk.now) (mode_of walk.now) depth sym.old (first_view start.now) }
    ensures { IfOk result (λ r. FirstDoes (program_of walk.now) (mode_of walk.now) depth at (first_view start.now)
        sym.old sym.new) }
{
    match start {
        First::Absent => Ok(()),
        First::Expr(e) => {
            let _value = full(walk, sym, depth, at, false, e)?;
            Ok(())
        }
        First::Declare(names) => {
            declare_names(walk, sym, depth, at, names.as_slice())?;
            Ok(())
        }
    }
}
