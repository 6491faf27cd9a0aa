// Whether main reaches a cycle of calls.
ghost use Rattle.std.specs.Prelude.{◌≡◌, ℕ, ◌↔◌, nat_le, [], ◌∷◌, length, IfOk, IsTrue};
ghost use Rattle.c_core.specs.View.{program_view, stmt_view};
ghost use Rattle.c_meaning.specs.Parts.{is_in};
ghost use Rattle.c_calls.specs.Uses.{uses_of_statement};
ghost use Rattle.c_calls.specs.Calling.{HasReached, IsFirstOnCycle, IsFirstRecursion, IsReached, Reaches};
ghost use Rattle.c_calls.specs.Levels.{each_call, level_of, IsLevelled};
ghost use Rattle.c_calls.specs.Marks.{is_marked};

use crate::found::{Found, add, nothing_found};
use crate::levels::levels;
use crate::marks::has_mark;
use crate::search::{called, function_uses, spread};
use crate::uses::{Use, push_statement};
use c_core::{Function, Program};
use std::alloc::Global;
use wv_base::OutOfMemory;

// Main and the functions that it reaches.
fn from_main(alloc: Global, program: &Program) -> Result<Found, OutOfMemory>
    ensures members { IfOk result (λ found. HasReached (program_view program.now) (program.now.main ∷ [])
        found.order.items) }
    ensures count { IfOk result (λ found. length found.marks.items ≡ length program.now.functions) }
{
    let mut found = nothing_found(alloc, program.functions.len())?;
    add(&mut found, program.main)?;
    spread(alloc, program, &mut found)?;
    Ok(found)
}

/// Main and the functions that it reaches.
pub fn reached_functions(alloc: Global, program: &Program) -> Result<Vec<u32>, OutOfMemory>
    ensures { IfOk result (λ list. (f : ℕ) → IsTrue (is_in f list.items) ↔ IsReached (program_view program.now) f) }
{
    let reached = from_main(alloc, program)?;
    Ok(reached.order)
}

fn level_of(levels: &[u32], function: usize) -> u32
    ensures { result ≡ level_of levels.now function }
{
    match levels.get(function) {
        Some(level) => *level,
        None => u32::MAX,
    }
}

// Whether no call leads to a level below this one.
fn are_at_least(levels: &[u32], floor: u64, uses: &[Use]) -> bool
    ensures { result ≡ each_call (λ g. nat_le floor (level_of levels.now g)) uses.now }
{
    for used in uses {
        if let Use::Calls(function) = used {
            if (level_of(levels, *function as usize) as u64) < floor {
                return false;
            }
        }
    }
    true
}

// Whether the calls of a function lead to its own level or above.
fn rises(
    alloc: Global,
    levels: &[u32],
    number: usize,
    function: &Function,
) -> Result<bool, OutOfMemory>
    ensures { IfOk result (λ holds. holds
        ≡ each_call (λ g. nat_le (level_of levels.now number) (level_of levels.now g))
        (uses_of_statement (stmt_view function.now.body))) }
{
    let mut uses = Vec::new(alloc);
    push_statement(&mut uses, &function.body)?;
    let own = level_of(levels, number) as u64;
    Ok(are_at_least(levels, own, uses.as_slice()))
}

// Whether the calls of each function do.
fn all_rise(alloc: Global, program: &Program, levels: &[u32]) -> Result<bool, OutOfMemory>
    ensures { IfOk result (λ holds. IsTrue holds → IsLevelled (program_view program.now) levels.now) }
{
    for (number, function) in program.functions.as_slice().iter().enumerate() {
        if !rises(alloc, levels, number, function)? {
            return Ok(false);
        }
    }
    Ok(true)
}

// Whether a function reaches a call of itself. Where its calls lead to higher levels alone, it doesn't.
fn lies_on_cycle(
    alloc: Global,
    program: &Program,
    levels: &[u32],
    levelled: bool,
    function: u32,
) -> Result<bool, OutOfMemory>
    requires { IsTrue levelled → IsLevelled (program_view program.now) levels.now }
    ensures { IfOk result (λ on_cycle. IsTrue on_cycle ↔ Reaches (program_view program.now) function function) }
{
    let uses = function_uses(alloc, program, function)?;
    let above = level_of(levels, function as usize) as u64 + 1;
    if levelled {
        if are_at_least(levels, above, uses.as_slice()) {
            return Ok(false);
        }
    }
    let found = called(alloc, program, uses.as_slice())?;
    Ok(has_mark(found.marks.as_slice(), function))
}

// The first of the reached functions that lies on a cycle.
fn first_on_cycle(
    alloc: Global,
    program: &Program,
    order: &[u32],
    reached: &[bool],
    levels: &[u32],
    levelled: bool,
) -> Result<Option<u32>, OutOfMemory>
    requires level { IsTrue levelled → IsLevelled (program_view program.now) levels.now }
    requires listed { (f : ℕ) → IsTrue (is_marked reached.now f) → IsTrue (is_in f order.now) }
    ensures { IfOk result (λ first. IsFirstOnCycle (program_view program.now) (is_marked reached.now) first) }
{
    for (number, is_reached) in reached.iter().enumerate() {
        if *is_reached {
            let function = number as u32;
            if lies_on_cycle(alloc, program, levels, levelled, function)? {
                return Ok(Some(function));
            }
        }
    }
    Ok(None)
}

/// The first function in the order of definitions that main reaches and that lies on a cycle of calls. None exactly
/// where main reaches no cycle.
pub fn calls_itself(alloc: Global, program: &Program) -> Result<Option<u32>, OutOfMemory>
    ensures { IfOk result (λ first. IsFirstRecursion (program_view program.now) first) }
{
    let found = from_main(alloc, program)?;
    let levels = levels(alloc, program)?;
    let levelled = all_rise(alloc, program, levels.as_slice())?;
    let first = first_on_cycle(
        alloc,
        program,
        found.order.as_slice(),
        found.marks.as_slice(),
        levels.as_slice(),
        levelled,
    )?;
    Ok(first)
}
