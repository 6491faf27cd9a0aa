// Parameters get the values of arguments.
ghost use Rattle.std.specs.Prelude.{[], drop};
ghost use Rattle.c_core.specs.View.{program_view};
ghost use Rattle.run_state.specs.Interpreting.{same, pairs_of};
ghost use Rattle.havoc_state.specs.Havocking.{Gives, left_of, parameter_set, next_set, parameters_set};

use crate::machine::{Halt, Machine};
use crate::values::store;
use c_core::Program;
use c_meaning::type_of_object;
use run_state::{Element, Typed, add_started};

/// Each parameter has a cell, which gets the value of its argument, or 0 where there is none.
pub fn set_parameters(
    program: &Program,
    machine: &mut Machine,
    parameters: &[u32],
    values: &[Typed],
) -> Result<(), Halt>
    ensures { Gives same result (left_of machine.new)
        (parameters_set (program_view program.now) [] parameters.now (pairs_of values.now) (left_of machine.old)) }
{
    for (index, parameter) in parameters.iter().enumerate() {
        set_next(program, machine, *parameter, values, index)?;
    }
    Ok(())
}

// A parameter's cell with the value at an index, if there is one.
fn set_next(
    program: &Program,
    machine: &mut Machine,
    parameter: u32,
    values: &[Typed],
    index: usize,
) -> Result<(), Halt>
    ensures { Gives same result (left_of machine.new)
        (next_set (program_view program.now) [] parameter (pairs_of (drop index values.now)) (left_of machine.old)) }
{
    match values.get(index) {
        Some(value) => set_parameter(program, machine, parameter, *value),
        None => {
            add_started(&mut machine.memory, parameter, 1, &[])?;
            Ok(())
        }
    }
}

// A parameter's cell with the value of its argument.
fn set_parameter(
    program: &Program,
    machine: &mut Machine,
    parameter: u32,
    value: Typed,
) -> Result<(), Halt>
    ensures { Gives same result (left_of machine.new)
        (parameter_set (program_view program.now) [] parameter value.value value.ty (left_of machine.old)) }
{
    add_started(&mut machine.memory, parameter, 1, &[])?;
    let ty = type_of_object(program, parameter);
    let cell = Element {
        object: parameter,
        index: 0,
    };
    store(program, machine, cell, ty, value.value);
    Ok(())
}
