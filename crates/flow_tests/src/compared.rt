// The runs of a program under each budget, by the interpreter and by machines.
use crate::runs::{Watched, choices, plain, stepped};
use c_core::Program;
use c_meaning::{Choices, End};
use flow_machine::{Code, compile};
use std::alloc::Global;
use wv_base::OutOfMemory;

// The sizes of the parts that machines get a budget in.
const PARTS: [u64; 6] = [1, 2, 3, 7, 10, 1000000];

/// How many runs of machines were tried, how many of them differ from the interpreter's, and how the last one ends,
/// with how many steps.
#[derive(Clone, Copy)]
pub struct Found {
    pub tried: u64,
    pub wrong: u64,
    pub end: End,
    pub steps: u64,
}

// The machines' runs with a budget, beside the interpreter's.
fn compare_at(
    alloc: Global,
    code: &Code,
    choices: &Choices,
    budget: u32,
    expected: &Watched,
    found: &mut Found,
) -> Result<(), OutOfMemory> {
    for part in PARTS {
        let run = stepped(alloc, code, choices, part, budget)?;
        found.tried = found.tried.saturating_add(1);
        if !run.is(expected) {
            found.wrong = found.wrong.saturating_add(1);
        }
    }
    Ok(())
}

/// Each budget below this one, up to the first with which the run has ended.
pub fn compare(alloc: Global, program: &Program, budget: u32) -> Result<Found, OutOfMemory> {
    let choices = choices(alloc)?;
    let code = compile(alloc, program)?;
    let mut found = Found {
        tried: 0,
        wrong: 0,
        end: End::Spent,
        steps: 0,
    };
    for budget in 0..budget {
        let expected = plain(alloc, program, &choices, u64::from(budget))?;
        compare_at(alloc, &code, &choices, budget, &expected, &mut found)?;
        found.end = expected.run.end;
        found.steps = expected.run.steps;
        if expected.run.end != End::Spent {
            break;
        }
    }
    Ok(found)
}
