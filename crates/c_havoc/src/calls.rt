// Calls of functions of the program.
ghost use Rattle.std.specs.Prelude.{suc};
ghost use Rattle.c_core.specs.View.{program_view, function_view};
ghost use Rattle.run_state.specs.Interpreting.{same, site_of, flow_of, pairs_of};
ghost use Rattle.c_meaning.specs.Placing.{placed_view};
ghost use Rattle.havoc_state.specs.Havocking.{Gives, left_of, in_function, with_arguments, scoped_with, called_with, number_called};

use crate::statements::form;
use c_core::{Function, Program};
use c_meaning::PlacedInvariant;
use havoc_state::{Ending, Halt, Machine, returned, set_parameters};
use run_state::{CallSite, Flow, Typed};

/// The body of a function, in which calls are at most this many deep.
#[cycle(run)]
pub fn body(
    program: &Program,
    invariants: &[PlacedInvariant],
    machine: &mut Machine,
    depth: u64,
    function: &Function,
) -> Result<Flow, Halt>
    ensures { Gives flow_of result (left_of machine.new)
        (in_function (program_view program.now) (placed_view invariants.now) (suc depth) (function_view function.now)
        (left_of machine.old)) }
{
    form(
        program,
        invariants,
        machine,
        depth,
        function.result,
        function.body.spot,
        &function.body.form,
    )
}

// The body, where calls may be this many deep; where none may, the run passes.
#[cycle(run)]
fn body_within(
    program: &Program,
    invariants: &[PlacedInvariant],
    machine: &mut Machine,
    depth: u64,
    function: &Function,
) -> Result<Flow, Halt>
    ensures { Gives flow_of result (left_of machine.new)
        (in_function (program_view program.now) (placed_view invariants.now) depth (function_view function.now)
        (left_of machine.old)) }
{
    if depth == 0 {
        return Err(Halt::Ends(Ending::Passes));
    }
    body(program, invariants, machine, depth - 1, function)
}

// Parameters, then the body.
#[cycle(run)]
fn enter(
    program: &Program,
    invariants: &[PlacedInvariant],
    machine: &mut Machine,
    depth: u64,
    function: &Function,
    values: &[Typed],
) -> Result<Flow, Halt>
    ensures { Gives flow_of result (left_of machine.new)
        (with_arguments (program_view program.now) (placed_view invariants.now) depth (function_view function.now)
        (pairs_of values.now) (left_of machine.old)) }
{
    set_parameters(program, machine, function.params.as_slice(), values)?;
    body_within(program, invariants, machine, depth, function)
}

// What is declared in a call ends with it.
#[cycle(run)]
fn scope(
    program: &Program,
    invariants: &[PlacedInvariant],
    machine: &mut Machine,
    depth: u64,
    function: &Function,
    values: &[Typed],
) -> Result<Flow, Halt>
    ensures { Gives flow_of result (left_of machine.new)
        (scoped_with (program_view program.now) (placed_view invariants.now) depth (function_view function.now)
        (pairs_of values.now) (left_of machine.old)) }
{
    let cells = machine.memory.count();
    let flow = enter(program, invariants, machine, depth, function, values)?;
    machine.memory.cut(cells);
    Ok(flow)
}

// A function called with these values; the value given comes back.
#[cycle(run)]
fn run_call(
    program: &Program,
    invariants: &[PlacedInvariant],
    machine: &mut Machine,
    depth: u64,
    site: CallSite,
    function: &Function,
    values: &[Typed],
) -> Result<i128, Halt>
    ensures { Gives same result (left_of machine.new)
        (called_with (program_view program.now) (placed_view invariants.now) depth (site_of site)
        (function_view function.now) (pairs_of values.now) (left_of machine.old)) }
{
    let flow = scope(program, invariants, machine, depth, function, values)?;
    returned(program, site, flow)
}

/// The function of a number, called with these values.
#[cycle(run)]
pub fn call_number(
    program: &Program,
    invariants: &[PlacedInvariant],
    machine: &mut Machine,
    depth: u64,
    site: CallSite,
    number: u32,
    values: &[Typed],
) -> Result<i128, Halt>
    ensures { Gives same result (left_of machine.new)
        (number_called (program_view program.now) (placed_view invariants.now) depth (site_of site) number
        (pairs_of values.now) (left_of machine.old)) }
{
    match program.functions.get(number as usize) {
        Some(function) => run_call(program, invariants, machine, depth, site, function, values),
        // no checked program calls it
        None => Err(Halt::Ends(Ending::Passes)),
    }
}
