// Values that are sought, by the bit of a net.
ghost use Rattle.std.specs.Prelude.{◌≡◌, ◌+◌, ◌-◌, ◌≤◌, ◌<◌, ◌^◌, ◌++◌, ◌∷◌, [], IfOk, None, OnOk};
ghost use Rattle.std.specs.List.{All};
ghost use Rattle.bit_answers.specs.Deciding.{IsWide, inputs_of};
ghost use Rattle.c_core.specs.View.{program_view};
ghost use Rattle.c_meaning.specs.Replay.{values_of};
ghost use Rattle.c_meaning.specs.declared.run.Choices.TheVariants.{InTurn as TakenInTurn};
ghost use Rattle.circuits.specs.Net.{count_inputs};
ghost use Rattle.judge.specs.Watching.{IsWatched};
ghost use Rattle.seek_answer.specs.Answering.{AreBrief, IsAnswer, IsShown, IsUnspent, step_budget};
ghost use Rattle.seek_answer.specs.Reaching.{IsPromised, values_under};
ghost use Rattle.way_match.specs.View.{segments_view};

use crate::reach::Reach;
use bit_answers::{Finding, decide_bit, draws_under};
use c_core::Program;
use c_meaning::{Choices, Draw};
use clauses::SpentAt;
use judge::{Watched, run_watched};
use seek_meaning::{enough_steps_show, few_steps_have_room, hits_exactly};
use std::alloc::Global;
use way_match::Bound;
use wv_base::{OutOfMemory, Seq};

/// What is answered of a search for values: the draws of a run that violates the property and matches the segments at
/// these positions, counted from 0; no values do so within the bound; or the budget was spent.
#[derive(Drop)]
pub enum Sought {
    Found {
        draws: Seq<Draw>,
        positions: Seq<u64>,
    },
    Nothing,
    Spent(SpentAt),
}

// one value more
fn push_value(values: &mut Seq<i128>, draw: Draw) -> Result<(), OutOfMemory>
    ensures { OnOk result (values.new ≡ values.old ++ draw.value ∷ []) }
{
    values.push(draw.value)?;
    Ok(())
}

// the values of draws, to be taken in turn
fn in_turn(alloc: Global, draws: &[Draw]) -> Result<Choices, OutOfMemory>
    ensures { IfOk result (λ choices. choices ≡ TakenInTurn (values_of draws.now)) }
{
    let mut values = Seq::new(alloc);
    for draw in draws {
        push_value(&mut values, *draw)?;
    }
    Ok(Choices::InTurn(values))
}

// the run on the values that inputs of the net stand for, matched while it goes
fn run_under(
    alloc: Global,
    program: &Program,
    bound: &Bound,
    reach: &Reach,
    inputs: &[bool],
) -> Result<Watched, OutOfMemory>
    requires { All (IsWide program.now.model) reach.now.sites }
    ensures { IfOk result (IsWatched (program_view program.now) (segments_view bound.now)
        (TakenInTurn (values_under (program_view program.now) (inputs_of inputs.now) reach.now)) step_budget) }
{
    let sites = reach.sites.as_slice();
    let draws = draws_under(alloc, program, &reach.net, sites, inputs)?;
    let choices = in_turn(alloc, draws.as_slice())?;
    let watched = run_watched(alloc, program, bound, &choices, 2000000)?;
    Ok(watched)
}

// what came of a run that violates the property and matches the segments
fn shown(watched: Watched) -> Sought
    requires { watched.found ≡ None → ⊥ }
    ensures { IsShown watched result }
{
    let Watched { run, found } = watched;
    match found {
        Some(positions) => Sought::Found {
            draws: run.draws,
            positions,
        },
        None => unreachable!(),
    }
}

/// Decides by the bit of a net, with a budget of conflicts, whether any values are sought within a bound. What is found
/// is run and matched.
pub fn answer(
    alloc: Global,
    program: &Program,
    bound: &Bound,
    turns: u32,
    reach: &Reach,
    conflicts: u64,
) -> Result<Sought, OutOfMemory>
    requires promised { IsPromised (program_view program.now) (segments_view bound.now) turns reach.now }
    requires brief { AreBrief (program_view program.now) turns }
    requires some { 1 ≤ conflicts }
    requires bounded { conflicts ≤ 1000000 }
    ensures right { IfOk result
        (IsAnswer conflicts (program_view program.now) (segments_view bound.now) turns reach.now) }
    ensures decided { IfOk result (λ r. 2 ^ (count_inputs reach.now.net + 1) - 2 < conflicts → IsUnspent r) }
{
    few_steps_have_room();
    hits_exactly();
    enough_steps_show();
    let net = &reach.net;
    let _ = net.nodes();
    match decide_bit(alloc, net, reach.reach, conflicts)? {
        Finding::NeverTrue(_) => Ok(Sought::Nothing),
        Finding::TrueUnder(inputs) => {
            let watched = run_under(alloc, program, bound, reach, inputs.as_slice())?;
            Ok(shown(watched))
        }
        Finding::Spent(spent) => Ok(Sought::Spent(spent)),
    }
}
