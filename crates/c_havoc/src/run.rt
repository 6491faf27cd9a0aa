// Havoc runs.
ghost use Rattle.std.specs.Prelude.{◌≡◌, IfOk, suc};
ghost use Rattle.c_core.specs.View.{program_view};
ghost use Rattle.c_meaning.specs.Duties.{Duties, number_among as number_among_of, same_duty as same_duty_of};
ghost use Rattle.c_meaning.specs.Havoc.{Havoc, Fails, end_among};
ghost use Rattle.run_state.specs.Interpreting.{flow_of};
ghost use Rattle.c_meaning.specs.Placing.{placed_view};
ghost use Rattle.havoc_state.specs.Havocking.{Gives, EndsAs, left_of, in_main};

use crate::calls::body;
use c_core::Program;
use c_duties::duties;
use c_meaning::{Duty, DutyKind, HavocEnd, HavocRun, PlacedInvariant};
use havoc_state::{Ending, Halt, Machine, start};
use run_state::Flow;
use std::alloc::Global;
use wv_base::{OutOfMemory, Seq};

fn is_same(a: Duty, b: Duty) -> bool
    ensures { result ≡ same_duty_of a b }
{
    a == b
}

// The next number. Numbers have 32 bits.
fn next(number: u32) -> Result<u32, OutOfMemory>
    ensures { IfOk result (λ after. after ≡ suc number) }
{
    match number.checked_add(1) {
        Some(after) => Ok(after),
        None => Err(OutOfMemory),
    }
}

// The number of an obligation among obligations, from 1.
fn number_among(duties: &[Duty], duty: Duty) -> Result<u32, OutOfMemory>
    ensures { IfOk result (λ number. number ≡ number_among_of duty duties.now) }
{
    let mut number: u32 = 1;
    for other in duties {
        if is_same(*other, duty) {
            return Ok(number);
        }
        number = next(number)?;
    }
    Ok(number)
}

// The end of a run that failed, by the number of the obligation.
fn failed(
    alloc: Global,
    program: &Program,
    invariants: &Seq<PlacedInvariant>,
    duty: Duty,
) -> Result<HavocEnd, OutOfMemory>
    ensures { IfOk result (λ end. end
        ≡ end_among (Duties (program_view program.now) (placed_view invariants.now)) (Fails duty)) }
{
    let duties = duties(alloc, program, invariants)?;
    let number = number_among(duties.as_slice(), duty)?;
    Ok(HavocEnd::Failed(number))
}

// The end of a run that went on to its end, or halted.
fn end_of(
    alloc: Global,
    program: &Program,
    invariants: &Seq<PlacedInvariant>,
    outcome: Result<Flow, Halt>,
) -> Result<HavocEnd, OutOfMemory>
    ensures { IfOk result (EndsAs (Duties (program_view program.now) (placed_view invariants.now)) outcome) }
{
    match outcome {
        Ok(_) => Ok(HavocEnd::Passed),
        Err(Halt::Ends(Ending::Passes)) => Ok(HavocEnd::Passed),
        Err(Halt::Ends(Ending::Dismisses)) => Ok(HavocEnd::Dismissed),
        Err(Halt::Ends(Ending::Fails(duty))) => failed(alloc, program, invariants, duty),
        Err(Halt::NoMemory) => Err(OutOfMemory),
    }
}

// The whole of `main`, with calls at most this many and one deep.
fn run_main(
    program: &Program,
    invariants: &[PlacedInvariant],
    machine: &mut Machine,
    depth: u64,
) -> Result<Flow, Halt>
    ensures { Gives flow_of result (left_of machine.new)
        (in_main (program_view program.now) (placed_view invariants.now) (suc depth) (left_of machine.old)) }
{
    match program.functions.get(program.main as usize) {
        Some(function) => body(program, invariants, machine, depth, function),
        None => Ok(Flow::Next),
    }
}

/// The havoc run of a program with invariants that draws these values in turn, and 0 where none is left.
/// Where main reaches no cycle of calls, no function is active twice, so that calls are never deeper than there are
/// functions; deeper ones pass.
pub fn run_havoc(
    alloc: Global,
    program: &Program,
    invariants: &Seq<PlacedInvariant>,
    values: &Seq<i128>,
) -> Result<HavocRun, OutOfMemory>
    ensures { IfOk result (λ run. run ≡ Havoc (program_view program.now) (placed_view invariants.now) values.now) }
{
    let mut machine = start(alloc, program, values.as_slice())?;
    let depth = program.functions.len() as u64;
    let outcome = run_main(program, invariants.as_slice(), &mut machine, depth);
    let end = end_of(alloc, program, invariants, outcome)?;
    Ok(HavocRun {
        end,
        draws: machine.draws,
    })
}
