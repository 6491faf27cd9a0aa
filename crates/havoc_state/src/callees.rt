// Calls of functions that are part of the language, and what comes back from a call.
ghost use Rattle.std.specs.Prelude.{[]};
ghost use Rattle.c_core.specs.View.{program_view};
ghost use Rattle.c_meaning.specs.Acts.{given};
ghost use Rattle.c_meaning.specs.Havoc as havoc;
ghost use Rattle.c_meaning.specs.Havoc.{Left};
ghost use Rattle.run_state.specs.Interpreting.{same, where_of, site_of, flow_of};
ghost use Rattle.havoc_state.specs.Havocking.{Gives};

use crate::machine::{Ending, Halt};
use crate::values::violate;
use c_core::{Program, Property};
use run_state::{Around, CallSite, Flow};

/// The call of `reach_error`: the violation where the property is about it, else the run passes.
pub fn reach(program: &Program, at: Around) -> Result<i128, Halt>
    ensures { (s : Left) → Gives same result s
        (havoc.reached (program_view program.now) [] program.now.property (where_of at) s) }
{
    match program.property {
        Property::UnreachCall => Err(violate(at)),
        Property::NoOverflow => Err(Halt::Ends(Ending::Passes)),
    }
}

/// The value that a function gave comes back; without one, 0 does where none is needed, and else the run passes.
pub fn returned(program: &Program, site: CallSite, flow: Flow) -> Result<i128, Halt>
    ensures { (s : Left) → Gives same result s
        (havoc.returned (program_view program.now) [] (site_of site) (given (flow_of flow)) s) }
{
    match flow {
        Flow::Gave(Some(value)) => Ok(value),
        _ => {
            if site.needed {
                Err(Halt::Ends(Ending::Passes))
            } else {
                Ok(0)
            }
        }
    }
}
