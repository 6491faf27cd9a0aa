// The reply of the validator to three files.
use c_core::Program;
use std::alloc::Global;
use view_inputs::{Asking, ReplySink};
use witval::run_keeping;
use wv_arguments::Names;
use wv_base::{OutOfMemory, Shelf, SteadyShelf};

/// A reply as the validator wrote it, with its status, and the checked program where the answer came to it.
#[derive(Drop)]
pub struct Replied {
    pub status: u8,
    pub reply: Vec<u8>,
    pub program: Option<Program>,
}

/// The mode of the validator that answers it.
fn mode_for(asking: Asking<'_>) -> &'static str {
    match asking {
        Asking::Judge(_) => "validate",
        Asking::Recheck(_) => "recheck",
        Asking::Seek(_) => "seek",
    }
}

/// The options of the validator beside its files.
fn push_options(
    alloc: Global,
    words: &mut Vec<String>,
    asking: Asking<'_>,
) -> Result<(), OutOfMemory> {
    match asking {
        Asking::Judge(budgets) => {
            let steps = budgets.steps;
            let conflicts = budgets.conflicts;
            words.push(format!(in alloc; "--steps={steps}")?)?;
            words.push(format!(in alloc; "--conflicts={conflicts}")?)?;
        }
        Asking::Recheck(certificate) => {
            words.push(format!(in alloc; "--certificate={certificate}")?)?;
        }
        Asking::Seek(search) => {
            let bound = search.bound;
            let conflicts = search.conflicts;
            words.push(format!(in alloc; "--bound={bound}")?)?;
            words.push(format!(in alloc; "--conflicts={conflicts}")?)?;
        }
    }
    Ok(())
}

/// The words with which the validator is asked.
fn words_for(
    alloc: Global,
    names: &Names<'_>,
    asking: Asking<'_>,
) -> Result<Vec<String>, OutOfMemory> {
    let program = names.program;
    let property = names.property;
    let witness = names.witness;
    let mut words = Vec::new(alloc);
    words.push(String::from_str(alloc, "witval")?)?;
    words.push(String::from_str(alloc, mode_for(asking))?)?;
    words.push(format!(in alloc; "--program={program}")?)?;
    words.push(format!(in alloc; "--property={property}")?)?;
    words.push(format!(in alloc; "--witness={witness}")?)?;
    push_options(alloc, &mut words, asking)?;
    Ok(words)
}

/// The reply to these words.
fn reply_to<S: Shelf>(
    alloc: Global,
    words: &Vec<String>,
    shelf: &mut S,
) -> Result<Replied, OutOfMemory> {
    let mut sink = ReplySink::new(alloc);
    let mut program = None;
    let status = run_keeping(alloc, words, shelf, &mut sink, &mut program);
    if status == 6 || sink.has_failed() {
        return Err(OutOfMemory);
    }
    Ok(Replied {
        status,
        reply: sink.into_bytes(),
        program,
    })
}

/// The reply to three files of a shelf, and to a certificate where that is asked about.
pub fn replied_to<S: Shelf>(
    alloc: Global,
    names: &Names<'_>,
    asking: Asking<'_>,
    shelf: &mut S,
) -> Result<Replied, OutOfMemory> {
    let words = words_for(alloc, names, asking)?;
    reply_to(alloc, &words, shelf)
}

/// The reply to misused words.
pub fn usage_reply(alloc: Global) -> Result<Replied, OutOfMemory> {
    let mut words = Vec::new(alloc);
    words.push(String::from_str(alloc, "witval")?)?;
    let mut shelf = SteadyShelf::new(alloc, 1);
    reply_to(alloc, &words, &mut shelf)
}
