// Calls of functions that are part of the language: input, `reach_error`.
ghost use Rattle.std.specs.Prelude.{◌≡◌, ◌≤◌, ◌&&◌, is_some, None};
ghost use Rattle.c_core.specs.View.{program_view};
ghost use Rattle.c_meaning.specs.Acts.{given};
ghost use Rattle.c_meaning.specs.Eval.{is_used};
ghost use Rattle.run_state.specs.Interpreting.{Gives, same, state_of, where_of, site_of, use_of, flow_of, input_of, handed_back, reaching, returning};

use crate::draws::draw;
use crate::machine::{Around, CallSite, Flow, Halt, Machine};
use crate::steps::{tell, violate};
use c_core::{IntType, Program, Property, Spot};
use c_meaning::{DrawKind, End, Event, Watcher};

/// Is the value of a call needed: it is used, and the call isn't void?
pub fn is_needed(used: bool, ty: Option<IntType>) -> bool
    ensures { result ≡ (is_used (use_of used) && is_some ty) }
{
    if used { ty.is_some() } else { false }
}

/// The call of an input function.
pub fn input<W: Watcher>(
    program: &Program,
    machine: &mut Machine,
    watcher: &mut W,
    site: CallSite,
    ty: IntType,
) -> Result<i128, Halt>
    ensures gives { Gives same result (state_of machine.new (W.seen watcher.new))
        (input_of (program_view program.now) W.Seen W.after (site_of site) ty
        (state_of machine.old (W.seen watcher.old))) }
    ensures spends { machine.new.steps ≤ machine.old.steps }
{
    let value = draw::<W>(program, machine, DrawKind::Input, site.spot, ty)?;
    hand_back(program, machine, watcher, site.close, value)
}

// A value that comes back from a call, reported as such.
fn hand_back<W: Watcher>(
    program: &Program,
    machine: &Machine,
    watcher: &mut W,
    close: Spot,
    value: i128,
) -> Result<i128, Halt>
    ensures gives { Gives same result (state_of machine.now (W.seen watcher.new))
        (handed_back (program_view program.now) W.Seen W.after close value
        (state_of machine.now (W.seen watcher.old))) }
{
    tell(machine, watcher, Event::Return(close, Some(value)))?;
    Ok(value)
}

/// The call of `reach_error`: the violation where the property is about it, else the end.
pub fn reach<W: Watcher>(
    program: &Program,
    machine: &Machine,
    watcher: &mut W,
    at: Around,
    site: CallSite,
) -> Result<i128, Halt>
    ensures gives { Gives same result (state_of machine.now (W.seen watcher.new))
        (reaching (program_view program.now) W.Seen W.after program.now.property (where_of at) (site_of site)
        (state_of machine.now (W.seen watcher.old))) }
{
    match program.property {
        Property::UnreachCall => violate(machine, watcher, at, site.spot, Some(site.spot)),
        Property::NoOverflow => Err(Halt::Ends(End::Ended)),
    }
}

/// The value that a function gave comes back; without one, 0 does where none is needed.
pub fn returned<W: Watcher>(
    program: &Program,
    machine: &Machine,
    watcher: &mut W,
    site: CallSite,
    flow: Flow,
) -> Result<i128, Halt>
    ensures gives { Gives same result (state_of machine.now (W.seen watcher.new))
        (returning (program_view program.now) W.Seen W.after (site_of site) (given (flow_of flow))
        (state_of machine.now (W.seen watcher.old))) }
{
    match flow {
        Flow::Gave(Some(value)) => hand_back(program, machine, watcher, site.close, value),
        _ => hand_none(program, machine, watcher, site),
    }
}

// No value comes back from a call; where one is needed, that is undefined.
fn hand_none<W: Watcher>(
    program: &Program,
    machine: &Machine,
    watcher: &mut W,
    site: CallSite,
) -> Result<i128, Halt>
    ensures gives { Gives same result (state_of machine.now (W.seen watcher.new))
        (returning (program_view program.now) W.Seen W.after (site_of site) None
        (state_of machine.now (W.seen watcher.old))) }
{
    tell(machine, watcher, Event::Return(site.close, None))?;
    if site.needed {
        Err(Halt::Ends(End::Undefined(site.spot)))
    } else {
        Ok(0)
    }
}
