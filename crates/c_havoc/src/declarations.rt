// Declared names and their initializers.
ghost use Rattle.std.specs.Prelude.{◌≡◌, ◌≤◌, ◌+◌, ◌^◌, MatchOption};
ghost use Rattle.c_core.specs.View.{program_view, expr_view, exprs_view, rows_view, names_view, first_view, init_view};
ghost use Rattle.run_state.specs.Interpreting.{same, flow_of};
ghost use Rattle.c_meaning.specs.Placing.{placed_view};
ghost use Rattle.havoc_state.specs.Havocking.{Gives, left_of, declaring, introduced, initialised, initialised_one, initialised_by, initialised_rows, begun};

use crate::full_expressions::{full, only};
use c_core::{Declared, Expr, First, Init, Program, Row, Spot};
use c_meaning::{PlacedInvariant, size_of_object, type_of_object};
use havoc_state::{Halt, Machine, draw_cells, store};
use run_state::{Element, Flow, add_started, columns_of_object};

// One value of an initializer.
#[cycle(run)]
fn initial_value(
    program: &Program,
    invariants: &[PlacedInvariant],
    machine: &mut Machine,
    depth: u64,
    at: Spot,
    object: u32,
    index: u32,
    e: &Expr,
) -> Result<(), Halt>
    ensures { Gives same result (left_of machine.new)
        (initialised_one (program_view program.now) (placed_view invariants.now) depth at object index (expr_view e.now)
        (left_of machine.old)) }
{
    let value = full(program, invariants, machine, depth, at, true, e)?;
    let ty = type_of_object(program, object);
    store(program, machine, Element { object, index }, ty, value);
    Ok(())
}

// The number of a cell, where 32 bits hold it.
fn cell_number(first: u128, index: usize) -> Option<u32>
    ensures { MatchOption result (2 ^ 32 ≤ first + index) (λ number. number ≡ first + index) }
{
    match first.checked_add(index as u128) {
        Some(number) if number <= u32::MAX as u128 => Some(number as u32),
        _ => None,
    }
}

// The values of an initializer, one after another, from a cell on.
#[cycle(run)]
fn initial_values(
    program: &Program,
    invariants: &[PlacedInvariant],
    machine: &mut Machine,
    depth: u64,
    at: Spot,
    object: u32,
    first: u128,
    es: &[Expr],
) -> Result<(), Halt>
    ensures { Gives same result (left_of machine.new)
        (initialised_by (program_view program.now) (placed_view invariants.now) depth at object first
        (exprs_view es.now) (left_of machine.old)) }
{
    for (index, e) in es.iter().enumerate() {
        let Some(cell) = cell_number(first, index) else {
            return Err(Halt::NoMemory);
        };
        initial_value(program, invariants, machine, depth, at, object, cell, e)?;
    }
    Ok(())
}

// Rows of values, each from its own first cell on.
#[cycle(run)]
fn initial_rows(
    program: &Program,
    invariants: &[PlacedInvariant],
    machine: &mut Machine,
    depth: u64,
    at: Spot,
    object: u32,
    rows: &[Row],
) -> Result<(), Halt>
    ensures { Gives same result (left_of machine.new)
        (initialised_rows (program_view program.now) (placed_view invariants.now) depth at object 0 (rows_view rows.now)
        (left_of machine.old)) }
{
    let columns = columns_of_object(program, object);
    for (index, row) in rows.iter().enumerate() {
        let first = index as u128 * columns as u128;
        let values = row.values.as_slice();
        initial_values(
            program, invariants, machine, depth, at, object, first, values,
        )?;
    }
    Ok(())
}

// The initializer of a declared name.
#[cycle(run)]
fn initial(
    program: &Program,
    invariants: &[PlacedInvariant],
    machine: &mut Machine,
    depth: u64,
    at: Spot,
    spot: Spot,
    object: u32,
    init: &Init,
) -> Result<(), Halt>
    ensures { Gives same result (left_of machine.new)
        (initialised (program_view program.now) (placed_view invariants.now) depth at spot object (init_view init.now)
        (left_of machine.old)) }
{
    match init {
        Init::Absent => draw_cells(program, machine, spot, object),
        Init::One(e) => initial_value(program, invariants, machine, depth, at, object, 0, e),
        Init::Many(es) => initial_values(
            program,
            invariants,
            machine,
            depth,
            at,
            object,
            0,
            es.as_slice(),
        ),
        Init::Rows(rows) => initial_rows(
            program,
            invariants,
            machine,
            depth,
            at,
            object,
            rows.as_slice(),
        ),
    }
}

// A declared name: its cells, then its initializer.
#[cycle(run)]
fn introduce(
    program: &Program,
    invariants: &[PlacedInvariant],
    machine: &mut Machine,
    depth: u64,
    at: Spot,
    name: &Declared,
) -> Result<(), Halt>
    ensures { Gives same result (left_of machine.new)
        (introduced (program_view program.now) (placed_view invariants.now) depth at name.now.spot name.now.object
        (init_view name.now.init) (left_of machine.old)) }
{
    let size = size_of_object(program, name.object);
    add_started(&mut machine.memory, name.object, size, &[])?;
    initial(
        program,
        invariants,
        machine,
        depth,
        at,
        name.spot,
        name.object,
        &name.init,
    )
}

/// Declared names, one after another.
#[cycle(run)]
pub fn declare(
    program: &Program,
    invariants: &[PlacedInvariant],
    machine: &mut Machine,
    depth: u64,
    at: Spot,
    names: &[Declared],
) -> Result<Flow, Halt>
    ensures { Gives flow_of result (left_of machine.new)
        (declaring (program_view program.now) (placed_view invariants.now) depth at (names_view names.now)
        (left_of machine.old)) }
{
    for name in names {
        introduce(program, invariants, machine, depth, at, name)?;
    }
    Ok(Flow::Next)
}

/// What comes before the turns of a `for`.
#[cycle(run)]
pub fn begin(
    program: &Program,
    invariants: &[PlacedInvariant],
    machine: &mut Machine,
    depth: u64,
    at: Spot,
    first: &First,
) -> Result<Flow, Halt>
    ensures { Gives flow_of result (left_of machine.new)
        (begun (program_view program.now) (placed_view invariants.now) depth at (first_view first.now)
        (left_of machine.old)) }
{
    match first {
        First::Absent => Ok(Flow::Next),
        First::Expr(e) => only(program, invariants, machine, depth, None, at, e),
        First::Declare(names) => declare(program, invariants, machine, depth, at, names.as_slice()),
    }
}
