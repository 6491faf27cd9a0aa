// Declared names and their initializers.
ghost use Rattle.std.specs.Prelude.{◌≡◌, ◌≤◌, ◌+◌, ◌^◌, MatchOption};
ghost use Rattle.c_core.specs.View.{program_view, expr_view, exprs_view, rows_view, names_view, first_view, init_view};
ghost use Rattle.run_state.specs.Interpreting.{Gives, same, state_of, flow_of, declaring, introduced, initialised, initialised_one, initialised_by, initialised_rows, begun};

use crate::full_expressions::{full, only};
use c_core::{Declared, Expr, First, Init, Program, Row, Spot};
use c_meaning::{Watcher, size_of_object, type_of_object};
use run_state::{
    Element, Flow, Halt, Machine, add_cells, columns_of_object, draw_cells, room, store, ticks,
};

// One value of an initializer.
#[cycle(run)]
fn initial_value<W: Watcher>(
    program: &Program,
    machine: &mut Machine,
    watcher: &mut W,
    depth: u64,
    at: Spot,
    object: u32,
    index: u32,
    e: &Expr,
) -> Result<(), Halt>
    requires bound { machine.old.steps ≤ depth }
    ensures gives { Gives same result (state_of machine.new (W.seen watcher.new))
        (initialised_one (program_view program.now) W.Seen W.after depth at object index (expr_view e.now)
        (state_of machine.old (W.seen watcher.old))) }
    ensures spends { machine.new.steps ≤ machine.old.steps }
{
    let value = full(program, machine, watcher, depth, at, true, e)?;
    let ty = type_of_object(program, object);
    store::<W>(program, machine, Element { object, index }, ty, value);
    Ok(())
}

// The number of a cell, where 32 bits hold it.
fn cell_number(first: u128, index: usize) -> Option<u32>
    ensures { MatchOption result (2 ^ 32 ≤ first + index) (λ number. number ≡ first + index) }
{
    match first.checked_add(index as u128) {
        Some(number) if number <= u32::MAX as u128 => Some(number as u32),
        _ => None,
    }
}

// The values of an initializer, one after another, from a cell on.
#[cycle(run)]
fn initial_values<W: Watcher>(
    program: &Program,
    machine: &mut Machine,
    watcher: &mut W,
    depth: u64,
    at: Spot,
    object: u32,
    first: u128,
    es: &[Expr],
) -> Result<(), Halt>
    requires bound { machine.old.steps ≤ depth }
    ensures gives { Gives same result (state_of machine.new (W.seen watcher.new))
        (initialised_by (program_view program.now) W.Seen W.after depth at object first (exprs_view es.now)
        (state_of machine.old (W.seen watcher.old))) }
    ensures spends { machine.new.steps ≤ machine.old.steps }
{
    for (index, e) in es.iter().enumerate() {
        let Some(cell) = cell_number(first, index) else {
            return Err(Halt::NoMemory);
        };
        initial_value(program, machine, watcher, depth, at, object, cell, e)?;
    }
    Ok(())
}

// Rows of values, each from its own first cell on.
#[cycle(run)]
fn initial_rows<W: Watcher>(
    program: &Program,
    machine: &mut Machine,
    watcher: &mut W,
    depth: u64,
    at: Spot,
    object: u32,
    rows: &[Row],
) -> Result<(), Halt>
    requires bound { machine.old.steps ≤ depth }
    ensures gives { Gives same result (state_of machine.new (W.seen watcher.new))
        (initialised_rows (program_view program.now) W.Seen W.after depth at object 0 (rows_view rows.now)
        (state_of machine.old (W.seen watcher.old))) }
    ensures spends { machine.new.steps ≤ machine.old.steps }
{
    let columns = columns_of_object(program, object);
    for (index, row) in rows.iter().enumerate() {
        let first = index as u128 * columns as u128;
        let values = row.values.as_slice();
        initial_values(program, machine, watcher, depth, at, object, first, values)?;
    }
    Ok(())
}

// The initializer of a declared name.
#[cycle(run)]
fn initial<W: Watcher>(
    program: &Program,
    machine: &mut Machine,
    watcher: &mut W,
    depth: u64,
    at: Spot,
    spot: Spot,
    object: u32,
    init: &Init,
) -> Result<(), Halt>
    requires bound { machine.old.steps ≤ depth }
    ensures gives { Gives same result (state_of machine.new (W.seen watcher.new))
        (initialised (program_view program.now) W.Seen W.after depth at spot object (init_view init.now)
        (state_of machine.old (W.seen watcher.old))) }
    ensures spends { machine.new.steps ≤ machine.old.steps }
{
    match init {
        Init::Absent => draw_cells::<W>(program, machine, spot, object),
        Init::One(e) => initial_value(program, machine, watcher, depth, at, object, 0, e),
        Init::Many(es) => initial_values(
            program,
            machine,
            watcher,
            depth,
            at,
            object,
            0,
            es.as_slice(),
        ),
        Init::Rows(rows) => initial_rows(
            program,
            machine,
            watcher,
            depth,
            at,
            object,
            rows.as_slice(),
        ),
    }
}

// A declared name: its cells, then its initializer.
#[cycle(run)]
fn introduce<W: Watcher>(
    program: &Program,
    machine: &mut Machine,
    watcher: &mut W,
    depth: u64,
    at: Spot,
    name: &Declared,
) -> Result<(), Halt>
    requires bound { machine.old.steps ≤ depth }
    ensures gives { Gives same result (state_of machine.new (W.seen watcher.new))
        (introduced (program_view program.now) W.Seen W.after depth at name.now.spot name.now.object
        (init_view name.now.init) (state_of machine.old (W.seen watcher.old))) }
    ensures spends { machine.new.steps ≤ machine.old.steps }
{
    let size = size_of_object(program, name.object);
    ticks::<W>(machine, size as u64)?;
    room::<W>(machine, size as u64)?;
    add_cells(&mut machine.memory, name.object, size)?;
    initial(
        program,
        machine,
        watcher,
        depth,
        at,
        name.spot,
        name.object,
        &name.init,
    )
}

/// Declared names, one after another.
#[cycle(run)]
pub fn declare<W: Watcher>(
    program: &Program,
    machine: &mut Machine,
    watcher: &mut W,
    depth: u64,
    at: Spot,
    names: &[Declared],
) -> Result<Flow, Halt>
    requires bound { machine.old.steps ≤ depth }
    ensures gives { Gives flow_of result (state_of machine.new (W.seen watcher.new))
        (declaring (program_view program.now) W.Seen W.after depth at (names_view names.now)
        (state_of machine.old (W.seen watcher.old))) }
    ensures spends { machine.new.steps ≤ machine.old.steps }
{
    for name in names {
        introduce(program, machine, watcher, depth, at, name)?;
    }
    Ok(Flow::Next)
}

/// What comes before the turns of a `for`.
#[cycle(run)]
pub fn begin<W: Watcher>(
    program: &Program,
    machine: &mut Machine,
    watcher: &mut W,
    depth: u64,
    at: Spot,
    first: &First,
) -> Result<Flow, Halt>
    requires bound { machine.old.steps ≤ depth }
    ensures gives { Gives flow_of result (state_of machine.new (W.seen watcher.new))
        (begun (program_view program.now) W.Seen W.after depth at (first_view first.now)
        (state_of machine.old (W.seen watcher.old))) }
    ensures spends { machine.new.steps ≤ machine.old.steps }
{
    match first {
        First::Absent => Ok(Flow::Next),
        First::Expr(e) => only(program, machine, watcher, depth, None, at, e),
        First::Declare(names) => declare(program, machine, watcher, depth, at, names.as_slice()),
    }
}
