// Calls of functions of the program.
ghost use Rattle.std.specs.Prelude.{◌≤◌, suc};
ghost use Rattle.c_core.specs.View.{program_view, function_view};
ghost use Rattle.run_state.specs.Interpreting.{Gives, same, state_of, site_of, flow_of, pairs_of, in_function, with_arguments, called_with, function_called, number_called};

use crate::statements::form;
use c_core::{Function, Program};
use c_meaning::{End, Watcher};
use run_state::{
    CallSite, Flow, Halt, Machine, Typed, one_more, returned, room, set_parameters, tick, ticks,
};

/// The body of a function, in which calls are at most this many deep.
#[cycle(run)]
pub fn body<W: Watcher>(
    program: &Program,
    machine: &mut Machine,
    watcher: &mut W,
    depth: u64,
    function: &Function,
) -> Result<Flow, Halt>
    requires bound { machine.old.steps ≤ suc depth }
    ensures gives { Gives flow_of result (state_of machine.new (W.seen watcher.new))
        (in_function (program_view program.now) W.Seen W.after (suc depth) (function_view function.now)
        (state_of machine.old (W.seen watcher.old))) }
    ensures spends { machine.new.steps ≤ machine.old.steps }
{
    tick::<W>(machine)?;
    form(
        program,
        machine,
        watcher,
        depth,
        function.result,
        function.body.spot,
        &function.body.form,
    )
}

// The body, where calls may be this many deep; where none may, no step is left either.
#[cycle(run)]
fn body_within<W: Watcher>(
    program: &Program,
    machine: &mut Machine,
    watcher: &mut W,
    depth: u64,
    function: &Function,
) -> Result<Flow, Halt>
    requires bound { machine.old.steps ≤ depth }
    ensures gives { Gives flow_of result (state_of machine.new (W.seen watcher.new))
        (in_function (program_view program.now) W.Seen W.after depth (function_view function.now)
        (state_of machine.old (W.seen watcher.old))) }
    ensures spends { machine.new.steps ≤ machine.old.steps }
{
    if depth == 0 {
        return Err(Halt::Ends(End::Spent));
    }
    body(program, machine, watcher, depth - 1, function)
}

// Parameters, then the body.
#[cycle(run)]
fn enter<W: Watcher>(
    program: &Program,
    machine: &mut Machine,
    watcher: &mut W,
    depth: u64,
    function: &Function,
    values: &[Typed],
) -> Result<Flow, Halt>
    requires bound { machine.old.steps ≤ depth }
    ensures gives { Gives flow_of result (state_of machine.new (W.seen watcher.new))
        (with_arguments (program_view program.now) W.Seen W.after depth (function_view function.now)
        (pairs_of values.now) (state_of machine.old (W.seen watcher.old))) }
    ensures spends { machine.new.steps ≤ machine.old.steps }
{
    set_parameters::<W>(program, machine, function.params.as_slice(), values)?;
    body_within(program, machine, watcher, depth, function)
}

// What is declared in a call ends with it; the value given comes back.
#[cycle(run)]
fn run_call<W: Watcher>(
    program: &Program,
    machine: &mut Machine,
    watcher: &mut W,
    depth: u64,
    site: CallSite,
    function: &Function,
    values: &[Typed],
) -> Result<i128, Halt>
    requires bound { machine.old.steps ≤ depth }
    ensures gives { Gives same result (state_of machine.new (W.seen watcher.new))
        (called_with (program_view program.now) W.Seen W.after depth (site_of site) (function_view function.now)
        (pairs_of values.now) (state_of machine.old (W.seen watcher.old))) }
    ensures spends { machine.new.steps ≤ machine.old.steps }
{
    machine.active = one_more(machine.active)?;
    let cells = machine.memory.count();
    let flow = enter(program, machine, watcher, depth, function, values)?;
    machine.memory.cut(cells);
    machine.active = machine.active.saturating_sub(1);
    returned(program, machine, watcher, site, flow)
}

// A step for each parameter, and room for the call.
#[cycle(run)]
fn call_found<W: Watcher>(
    program: &Program,
    machine: &mut Machine,
    watcher: &mut W,
    depth: u64,
    site: CallSite,
    function: &Function,
    values: &[Typed],
) -> Result<i128, Halt>
    requires bound { machine.old.steps ≤ depth }
    ensures gives { Gives same result (state_of machine.new (W.seen watcher.new))
        (function_called (program_view program.now) W.Seen W.after depth (site_of site) (function_view function.now)
        (pairs_of values.now) (state_of machine.old (W.seen watcher.old))) }
    ensures spends { machine.new.steps ≤ machine.old.steps }
{
    let parameters = function.params.len() as u64;
    ticks::<W>(machine, parameters)?;
    let cells = one_more(parameters)?;
    room::<W>(machine, cells)?;
    run_call(program, machine, watcher, depth, site, function, values)
}

/// The function of a number, called with these values.
#[cycle(run)]
pub fn call_number<W: Watcher>(
    program: &Program,
    machine: &mut Machine,
    watcher: &mut W,
    depth: u64,
    site: CallSite,
    number: u32,
    values: &[Typed],
) -> Result<i128, Halt>
    requires bound { machine.old.steps ≤ depth }
    ensures gives { Gives same result (state_of machine.new (W.seen watcher.new))
        (number_called (program_view program.now) W.Seen W.after depth (site_of site) number (pairs_of values.now)
        (state_of machine.old (W.seen watcher.old))) }
    ensures spends { machine.new.steps ≤ machine.old.steps }
{
    match program.functions.get(number as usize) {
        Some(function) => call_found(program, machine, watcher, depth, site, function, values),
        // no checked program calls it
        None => Err(Halt::Ends(End::Ended)),
    }
}
