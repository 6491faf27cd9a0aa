// Whole programs as nets: their runs in a mode, and their obligations.
ghost use Rattle.std.specs.Prelude.{◌≡◌, ◌≤◌, ◌<◌, ◌^◌, IfOk, IsTrue, None, Some, length, slice_get};
ghost use Rattle.std.specs.List.{All};
ghost use Rattle.c_calls.specs.Calling.{IsFirstRecursion};
ghost use Rattle.c_core.specs.View.{program_view};
ghost use Rattle.sym_duties.specs.Answers.{AnswersFor, IsNamedRecursion, names_of};
ghost use Rattle.sym_walk.specs.Walking.{program_of, mode_of, IsWalk};
ghost use Rattle.sym_eval.specs.Whole.{IsWhole, IsLight, IsLightEnough, AreMade};
ghost use Rattle.sym_whole.specs.Starting.{at_start};
ghost use Rattle.c_meaning.specs.Placing.{IsInvariant, placed_view};

use crate::calls::type_or_int;
use crate::sites::test_sites;
use crate::statements::form;
use c_calls::calls_itself;
use c_core::Program;
use c_duties::duties;
use c_meaning::PlacedInvariant;
use std::alloc::Global;
use sym_duties::{Obligations, SymFault};
use sym_flow::enter;
use sym_invariants::Obliging;
use sym_meaning::havoc_runs_are_judged;
use sym_scale::obligations_cost_their_weight;
use sym_state::Sym;
use sym_walk::{Judging, Walk};
use sym_weight::weigh;
use sym_whole::start;
use wv_base::{OutOfMemory, Seq, Text};

// As a number of 32 bits.
fn small(count: usize) -> Result<u32, OutOfMemory>
    ensures { IfOk result (λ n. n ≡ count) }
{
    match u32::try_from(count) {
        Ok(n) => Ok(n),
        Err(_) => Err(OutOfMemory),
    }
}

// The first function that lies on a cycle of calls is reported by its name.
fn recursive(alloc: Global, program: &Program, function: u32) -> Result<Text, OutOfMemory>
    requires { IsFirstRecursion (program_view program.now) (Some function) }
    ensures { IfOk result (λ name. IsNamedRecursion (program_view program.now) (names_of program.now.functions) name) }
{
    let name = program.functions.as_slice()[function as usize]
        .name
        .as_str();
    let name = Text::of(alloc, name)?;
    Ok(name)
}

/// The state after main's body, with calls at most `depth` deep: what it says of all judged runs. There are this many
/// duties, and this many segments to follow.
pub fn whole(walk: &Walk, duties: u32, segments: u32, depth: u32) -> Result<Sym, OutOfMemory>
    requires walk { IsWalk walk.now }
    requires duties { duties ≡ length (mode_of walk.now).duties }
    requires light { IsLight (program_of walk.now) (mode_of walk.now) depth }
    ensures { IfOk result (λ s. IsWhole (program_of walk.now) (mode_of walk.now) depth (at_start segments) s) }
{
    let program = walk.program;
    let mut sym = start(walk.alloc, program, duties, segments)?;
    let main = &program.functions.as_slice()[program.main as usize];
    let _caller = enter(walk.alloc, program, &mut sym, type_or_int(main.result))?;
    let body = &main.body;
    form(walk, &mut sym, depth, main.result, body.spot, &body.form)?;
    let _ = sym.net.nodes();
    Ok(sym)
}

// The obligations of a program that isn't too heavy.
fn made<'a>(
    alloc: Global,
    program: &'a Program,
    invariants: &'a Seq<PlacedInvariant>,
) -> Result<Obligations, OutOfMemory>
    requires invariants { All (IsInvariant (program_view program.now)) (placed_view invariants.now) }
    requires light { IsLightEnough (program_view program.now) (placed_view invariants.now) }
    ensures { IfOk result (AreMade (program_view program.now) (placed_view invariants.now)) }
{
    let list = duties(alloc, program, invariants)?;
    let count = small(list.len())?;
    let depth = small(program.functions.len())?;
    let walk = Walk {
        alloc,
        program,
        mode: Judging::Obliges(Obliging {
            invariants: invariants.as_slice(),
            duties: list.as_slice(),
        }),
    };
    obligations_cost_their_weight();
    let sym = whole(&walk, count, 0, depth)?;
    havoc_runs_are_judged();
    test_sites(alloc, program, sym.sites.as_slice())?;
    Ok(Obligations {
        list,
        net: sym.net,
        failing: Seq::from_vec(sym.failing),
        sites: Seq::from_vec(sym.sites),
    })
}

/// The obligations of a program with its invariants as a net, or why there are none.
pub fn obligations(
    alloc: Global,
    program: &Program,
    invariants: &Seq<PlacedInvariant>,
) -> Result<Obligations, SymFault>
    requires { All (IsInvariant (program_view program.now)) (placed_view invariants.now) }
    ensures { AnswersFor (program_view program.now) (names_of program.now.functions) (placed_view invariants.now)
        result }
{
    if let Some(function) = calls_itself(alloc, program)? {
        let name = recursive(alloc, program, function)?;
        return Err(SymFault::Recursion(name));
    }
    match weigh(alloc, program, invariants)? {
        None => Err(SymFault::TooBig),
        Some(_) => {
            let all = made(alloc, program, invariants)?;
            Ok(all)
        }
    }
}
