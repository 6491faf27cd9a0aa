// What there is to say of a search for values.
use c_core::Program;
use std::alloc::Global;
use view_program::{Question, explain};
use view_text::{File, Files, Messages, advice};
use wv_arguments::Budgets;
use wv_base::OutOfMemory;

/// No found run takes more steps, and it is made of values alone.
const OF_A_RUN: Budgets = Budgets {
    steps: 2_000_000,
    conflicts: 1,
};

/// The value that a line `value L:C TYPE V` of a reply tells; none of any other line.
fn value_in(line: &str) -> Option<i128> {
    let told = line.strip_prefix("value ")?;
    match told.rsplit_once(' ') {
        Some((_, digits)) => digits.parse::<i128>().ok(),
        None => None,
    }
}

/// The values that a reply tells, in their order.
fn values_in(alloc: Global, reply: &str) -> Result<Vec<i128>, OutOfMemory> {
    let mut values = Vec::new(alloc);
    for line in reply.lines() {
        if let Some(value) = value_in(line) {
            values.push(value)?;
        }
    }
    Ok(values)
}

/// The run on the values that were found.
fn explain_found(
    alloc: Global,
    files: &Files<'_>,
    reply: &str,
    program: Option<&Program>,
    out: &mut Messages,
) -> Result<(), OutOfMemory> {
    let values = values_in(alloc, reply)?;
    let question = Question {
        budgets: OF_A_RUN,
        values: Some(values.as_slice()),
        program,
    };
    explain(alloc, files, question, out)
}

/// A search that ends without values.
fn explain_none(
    alloc: Global,
    code: &'static str,
    more: &str,
    out: &mut Messages,
) -> Result<(), OutOfMemory> {
    let rule = advice(code);
    let told = format!(in alloc; "{rule}; {more}")?;
    out.warning(code, File::Witness, None, told)
}

/// A witness of the other kind.
fn explain_kind(alloc: Global, out: &mut Messages) -> Result<(), OutOfMemory> {
    let told = String::from_str(alloc, advice("kind"))?;
    out.error("kind", File::Witness, None, told)
}

/// Runs that are too big.
fn explain_weight(alloc: Global, out: &mut Messages) -> Result<(), OutOfMemory> {
    let rule = advice("weight");
    let told = format!(in alloc;
        "{rule}: a smaller --bound, or a witness with fewer waypoints, makes them smaller"
    )?;
    out.error("weight", File::Program, None, told)
}

/// What there is to say of a reply of `seek` to files that were read whole.
pub fn explain_search(
    alloc: Global,
    files: &Files<'_>,
    reply: &str,
    program: Option<&Program>,
    out: &mut Messages,
) -> Result<(), OutOfMemory> {
    let first = reply.lines().next().unwrap_or("");
    if first == "values found" {
        explain_found(alloc, files, reply, program, out)
    } else if first.starts_with("no values") {
        let more = "a larger --bound, weaker constraints or fewer waypoints to avoid may give some";
        explain_none(alloc, "none", more, out)
    } else if first.starts_with("undecided") {
        let more = "waypoints that say more of the way make the search smaller";
        explain_none(alloc, "undecided", more, out)
    } else if first == "refused kind" {
        explain_kind(alloc, out)
    } else if first == "refused weight" {
        explain_weight(alloc, out)
    } else {
        let question = Question {
            budgets: OF_A_RUN,
            values: None,
            program,
        };
        explain(alloc, files, question, out)
    }
}
