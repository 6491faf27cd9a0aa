// Parameters get the values of arguments.
ghost use Rattle.std.specs.Prelude.{◌≡◌, drop};
ghost use Rattle.std.specs.Option.{option_copied};
ghost use Rattle.c_core.specs.View.{program_view};
ghost use Rattle.run_state.specs.Interpreting.{Gives, same, state_of, pairs_of, parameter_set, next_set, parameters_set};

use crate::cells::add_cells;
use crate::machine::{Element, Halt, Machine, Typed};
use crate::values::store;
use c_core::Program;
use c_meaning::{Watcher, type_of_object};

/// Each parameter has a cell, which gets the value of its argument, or 0 where there is none.
pub fn set_parameters<W: Watcher>(
    program: &Program,
    machine: &mut Machine,
    parameters: &[u32],
    values: &[Typed],
) -> Result<(), Halt>
    ensures gives { (x : W.Seen) → Gives same result (state_of machine.new x)
        (parameters_set (program_view program.now) W.Seen W.after parameters.now (pairs_of values.now)
        (state_of machine.old x)) }
    ensures spends { machine.new.steps ≡ machine.old.steps }
{
    for (index, parameter) in parameters.iter().enumerate() {
        set_next::<W>(program, machine, *parameter, values, index)?;
    }
    Ok(())
}

// A parameter's cell with the value at an index, if there is one.
fn set_next<W: Watcher>(
    program: &Program,
    machine: &mut Machine,
    parameter: u32,
    values: &[Typed],
    index: usize,
) -> Result<(), Halt>
    ensures gives { (x : W.Seen) → Gives same result (state_of machine.new x)
        (next_set (program_view program.now) W.Seen W.after parameter (pairs_of (drop index values.now))
        (state_of machine.old x)) }
    ensures spends { machine.new.steps ≡ machine.old.steps }
{
    match values.get(index) {
        Some(value) => set_parameter::<W>(program, machine, parameter, *value),
        None => {
            add_cells(&mut machine.memory, parameter, 1)?;
            Ok(())
        }
    }
}

// A parameter's cell with the value of its argument.
fn set_parameter<W: Watcher>(
    program: &Program,
    machine: &mut Machine,
    parameter: u32,
    value: Typed,
) -> Result<(), Halt>
    ensures gives { (x : W.Seen) → Gives same result (state_of machine.new x)
        (parameter_set (program_view program.now) W.Seen W.after parameter value.value value.ty
        (state_of machine.old x)) }
    ensures spends { machine.new.steps ≡ machine.old.steps }
{
    add_cells(&mut machine.memory, parameter, 1)?;
    let ty = type_of_object(program, parameter);
    let cell = Element {
        object: parameter,
        index: 0,
    };
    store::<W>(program, machine, cell, ty, value.value);
    Ok(())
}
