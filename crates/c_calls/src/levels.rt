// Levels of functions: numbers that no call makes fall, and that functions share where they call each other. They save
// time, and nothing rests on them: `calls_itself` tests that they don't fall before it passes over a function because
// of them.
use crate::marks::no_marks;
use crate::uses::{Use, push_statement};
use c_core::Program;
use std::alloc::Global;
use wv_base::OutOfMemory;

const NO_LEVEL: u32 = u32::MAX;

// A step of a walk in depth: a function is reached, or left after all that it calls.
#[derive(Clone, Copy)]
enum Visit {
    Enter(usize),
    Leave(usize),
}

fn push_callees(list: &mut Vec<usize>, uses: &[Use]) -> Result<(), OutOfMemory> {
    for used in uses {
        if let Use::Calls(function) = used {
            list.push(*function as usize)?;
        }
    }
    Ok(())
}

// The functions that each function calls.
fn callees(alloc: Global, program: &Program) -> Result<Vec<Vec<usize>>, OutOfMemory> {
    let mut lists = Vec::new(alloc);
    for function in program.functions.as_slice() {
        let mut uses = Vec::new(alloc);
        push_statement(&mut uses, &function.body)?;
        let mut list = Vec::new(alloc);
        push_callees(&mut list, uses.as_slice())?;
        lists.push(list)?;
    }
    Ok(lists)
}

fn push_at(lists: &mut Vec<Vec<usize>>, at: usize, item: usize) -> Result<(), OutOfMemory> {
    if let Some(list) = lists.get_mut(at) {
        list.push(item)?;
    }
    Ok(())
}

fn push_caller(
    lists: &mut Vec<Vec<usize>>,
    caller: usize,
    callees: &[usize],
) -> Result<(), OutOfMemory> {
    for callee in callees {
        push_at(lists, *callee, caller)?;
    }
    Ok(())
}

fn no_lists(alloc: Global, count: usize) -> Result<Vec<Vec<usize>>, OutOfMemory> {
    let mut lists = Vec::new(alloc);
    for _ in 0..count {
        lists.push(Vec::new(alloc))?;
    }
    Ok(lists)
}

// The functions that call each function.
fn callers(alloc: Global, callees: &[Vec<usize>]) -> Result<Vec<Vec<usize>>, OutOfMemory> {
    let mut lists = no_lists(alloc, callees.len())?;
    for (caller, list) in callees.iter().enumerate() {
        push_caller(&mut lists, caller, list.as_slice())?;
    }
    Ok(lists)
}

fn push_entered(stack: &mut Vec<Visit>, functions: &[usize]) -> Result<(), OutOfMemory> {
    for function in functions {
        stack.push(Visit::Enter(*function))?;
    }
    Ok(())
}

fn is_new(seen: &mut [bool], function: usize) -> bool {
    if function < seen.len() && !seen[function] {
        seen[function] = true;
        return true;
    }
    false
}

fn take_visit(
    callees: &[Vec<usize>],
    seen: &mut [bool],
    stack: &mut Vec<Visit>,
    order: &mut Vec<usize>,
    visit: Visit,
) -> Result<(), OutOfMemory> {
    match visit {
        Visit::Leave(function) => order.push(function)?,
        Visit::Enter(function) => {
            if is_new(seen, function) {
                stack.push(Visit::Leave(function))?;
                if let Some(list) = callees.get(function) {
                    push_entered(stack, list.as_slice())?;
                }
            }
        }
    }
    Ok(())
}

fn visit_from(
    alloc: Global,
    callees: &[Vec<usize>],
    seen: &mut [bool],
    order: &mut Vec<usize>,
    root: usize,
) -> Result<(), OutOfMemory> {
    let mut stack = Vec::new(alloc);
    stack.push(Visit::Enter(root))?;
    for _ in 0..u64::MAX {
        match stack.pop() {
            None => return Ok(()),
            Some(next) => take_visit(callees, seen, &mut stack, order, next)?,
        }
    }
    Ok(())
}

// Each function after those that it reaches, but for those that reach it again.
fn leaving_order(alloc: Global, callees: &[Vec<usize>]) -> Result<Vec<usize>, OutOfMemory> {
    let mut order = Vec::new(alloc);
    let mut seen = no_marks(alloc, callees.len())?;
    for root in 0..callees.len() {
        visit_from(alloc, callees, seen.as_mut_slice(), &mut order, root)?;
    }
    Ok(order)
}

fn is_without_level(levels: &mut [u32], function: usize, level: u32) -> bool {
    if function < levels.len() && levels[function] == NO_LEVEL {
        levels[function] = level;
        return true;
    }
    false
}

// Gives a level to a function and to those that reach it and have none.
fn flood(
    alloc: Global,
    callers: &[Vec<usize>],
    levels: &mut [u32],
    root: usize,
    level: u32,
) -> Result<(), OutOfMemory> {
    let mut stack = Vec::new(alloc);
    stack.push(root)?;
    for _ in 0..u64::MAX {
        match stack.pop() {
            None => return Ok(()),
            Some(function) => {
                if is_without_level(levels, function, level) {
                    push_callers(&mut stack, callers, function)?;
                }
            }
        }
    }
    Ok(())
}

fn push_callers(
    stack: &mut Vec<usize>,
    callers: &[Vec<usize>],
    function: usize,
) -> Result<(), OutOfMemory> {
    if let Some(list) = callers.get(function) {
        stack.extend_from_slice(list.as_slice())?;
    }
    Ok(())
}

fn levels_by(
    alloc: Global,
    callers: &[Vec<usize>],
    order: &[usize],
) -> Result<Vec<u32>, OutOfMemory> {
    let mut levels = vec![in alloc; NO_LEVEL; callers.len()]?;
    let mut level = 0u32;
    for root in order.iter().rev() {
        flood(alloc, callers, levels.as_mut_slice(), *root, level)?;
        level = level.saturating_add(1);
    }
    Ok(levels)
}

/// A level for each function, found by two walks over all calls (Kosaraju and Sharir's strongly connected components).
pub fn levels(alloc: Global, program: &Program) -> Result<Vec<u32>, OutOfMemory> {
    let callees = callees(alloc, program)?;
    let order = leaving_order(alloc, callees.as_slice())?;
    let callers = callers(alloc, callees.as_slice())?;
    levels_by(alloc, callers.as_slice(), order.as_slice())
}
