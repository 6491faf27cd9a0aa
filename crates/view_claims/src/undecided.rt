// An obligation on which the budget was spent: how much was tried, how big its question is, and what may help.
use crate::obligations::{note_invariant, obligation_text};
use c_core::{PlaceKind, Program, Spot};
use c_duties::duties;
use c_meaning::PlacedInvariant;
use std::alloc::Global;
use view_products::{products, products_of_invariants};
use view_text::{File, Files, Messages};
use way_places::places;
use wv_base::{OutOfMemory, Seq};
use wv_schema::Witness;

/// The largest budget that can be asked for.
const MOST_CONFLICTS: u64 = 1_000_000;

/// How big the question of an obligation is.
#[derive(Clone, Copy, Debug)]
pub struct Size {
    pub variables: u32,
    pub clauses: usize,
}

/// The budget that was spent on an obligation, by its number, and how big its question is, where that is known.
#[derive(Clone, Copy, Debug)]
pub struct Spent {
    pub index: u32,
    pub conflicts: u64,
    pub size: Option<Size>,
}

/// How much was tried, and on how much.
fn spent_text(alloc: Global, spent: Spent) -> Result<String, OutOfMemory> {
    let conflicts = spent.conflicts;
    match spent.size {
        Some(size) => {
            let variables = size.variables;
            let clauses = size.clauses;
            Ok(format!(in alloc;
                "the budget is spent on it (conflicts: {conflicts}; its SAT question: {variables} variables, {clauses} clauses)"
            )?)
        }
        None => Ok(format!(in alloc; "the budget is spent on it (conflicts: {conflicts})")?),
    }
}

/// How many products, quotients and remainders there are, at the first of the program.
fn note_products(
    alloc: Global,
    of_program: &[Spot],
    of_invariants: usize,
    out: &mut Messages,
) -> Result<(), OutOfMemory> {
    let count = of_program.len().saturating_add(of_invariants);
    let mut told = format!(in alloc;
        "products, quotients and remainders of two values that aren't constants, in the program and its invariants: {count}"
    )?;
    let first = of_program.first().copied();
    if first.is_some() {
        told.push_str("; the program's first is here")?;
    }
    out.note(File::Program, first, told)
}

fn has_loop(alloc: Global, program: &Program) -> Result<bool, OutOfMemory> {
    let all = places(alloc, program)?;
    for place in all.as_slice() {
        if place.kind == PlaceKind::Loop {
            return Ok(true);
        }
    }
    Ok(false)
}

/// What may help where values are multiplied or divided, in the program or in invariants.
fn help_with_products(
    alloc: Global,
    loops: bool,
    of_invariants: usize,
) -> Result<String, OutOfMemory> {
    let mut told = String::from_str(
        alloc,
        "what may help: an invariant that spells a value out as `v == E`",
    )?;
    if loops {
        told.push_str(" (sums and products of what a loop changes)")?;
    }
    if of_invariants > 0 {
        told.push_str("; smaller types in an invariant's operands")?;
    }
    Ok(told)
}

/// What may help where none are.
fn help_without_products(
    alloc: Global,
    loops: bool,
    conflicts: u64,
) -> Result<String, OutOfMemory> {
    let mut told = String::from_str(alloc, "what may help: ")?;
    if loops {
        told.push_str("a bound on what the loop counts; ")?;
    }
    told.push_str("an invariant that gives more of what the obligation needs")?;
    if conflicts < MOST_CONFLICTS {
        told.push_str("; a larger --conflicts")?;
    }
    Ok(told)
}

/// What may help, by what stands in the program and its invariants.
fn note_help(
    alloc: Global,
    program: &Program,
    invariants: &Seq<PlacedInvariant>,
    conflicts: u64,
    out: &mut Messages,
) -> Result<(), OutOfMemory> {
    let of_program = products(alloc, program)?;
    let of_invariants = products_of_invariants(alloc, invariants.as_slice())?.len();
    let loops = has_loop(alloc, program)?;
    let told = if of_program.is_empty() && of_invariants == 0 {
        help_without_products(alloc, loops, conflicts)?
    } else {
        note_products(alloc, of_program.as_slice(), of_invariants, out)?;
        help_with_products(alloc, loops, of_invariants)?
    };
    out.note(File::Program, None, told)
}

/// An obligation on which the budget was spent.
pub fn explain_spent(
    alloc: Global,
    files: &Files<'_>,
    program: &Program,
    witness: &Witness,
    invariants: &Seq<PlacedInvariant>,
    spent: Spent,
    out: &mut Messages,
) -> Result<(), OutOfMemory> {
    let list = duties(alloc, program, invariants)?;
    let Some(duty) = list.get((spent.index as usize).saturating_sub(1)) else {
        return Ok(());
    };
    let why = spent_text(alloc, spent)?;
    let told = obligation_text(alloc, witness, spent.index, *duty, why.as_str())?;
    out.warning("undecided", File::Program, Some(duty.spot), told)?;
    note_invariant(alloc, files, witness, *duty, out)?;
    note_help(alloc, program, invariants, spent.conflicts, out)
}
