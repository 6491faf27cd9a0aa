//! The program that shows a verdict in the files that were judged: the words, the files and standard output of the
//! process, handed to the calls of the crate below.
#![tactic(auto)]

mod listing;
mod screen;

use listing::judge_list;
use screen::screen_of;
use std::alloc::Global;
use std::process::ExitCode;
use view_inputs::{Asked, read_words_at};
use view_judging::{Handed, Judging, Output, hand_out, shown, usage_reply};
use wv_base::{OutOfMemory, write_all};
use wv_process::{FileShelf, OutSink, words_of};

/// Writes all bytes to standard output; the status that the program ends with.
fn written(rt: &HostRuntime, bytes: &[u8], status: u8) -> u8 {
    let mut out = OutSink::new(rt);
    match write_all(&mut out, bytes) {
        Ok(()) => status,
        Err(_) => 5,
    }
}

/// The answer to misused arguments: the validator's on standard output, what is wrong on standard error.
fn misused(rt: &HostRuntime, alloc: Global, text: &str) -> u8 {
    match usage_reply(alloc) {
        Ok(replied) => {
            let _ = rt.eprint(text);
            written(rt, replied.reply.as_slice(), replied.status)
        }
        Err(_) => 6,
    }
}

/// The status of a judgement, once it is written.
fn judged(rt: &HostRuntime, shown: Result<Output, OutOfMemory>) -> u8 {
    match shown {
        Ok(shown) => written(rt, shown.bytes.as_slice(), shown.status),
        Err(_) => 6,
    }
}

/// The same of a part of a certificate.
fn given_out(rt: &HostRuntime, handed: Result<Handed, OutOfMemory>) -> u8 {
    match handed {
        Ok(handed) => {
            let _ = rt.eprint(handed.told.as_str());
            let output = &handed.output;
            written(rt, output.bytes.as_slice(), output.status)
        }
        Err(_) => 6,
    }
}

/// The status of what is asked for, once it is answered.
fn answered(rt: &HostRuntime, alloc: Global, asked: &Asked<'_>) -> u8 {
    match asked {
        Asked::Judge {
            names,
            asking,
            form,
        } => {
            let shelf = FileShelf::new(rt, alloc);
            judged(rt, shown(alloc, names, *asking, *form, shelf))
        }
        Asked::Export {
            names,
            certificate,
            part,
            form,
        } => {
            let shelf = FileShelf::new(rt, alloc);
            given_out(
                rt,
                hand_out(alloc, names, *certificate, *part, *form, shelf),
            )
        }
        Asked::List {
            name,
            budgets,
            form,
        } => {
            let judging = Judging {
                budgets: *budgets,
                form: *form,
            };
            judge_list(rt, alloc, *name, judging)
        }
        Asked::Help(text) => written(rt, text.as_bytes(), 0),
        Asked::Misuse(text) => misused(rt, alloc, text.as_str()),
    }
}

fn main(rt: HostRuntime) -> ExitCode {
    let alloc = rt.alloc();
    let words = match words_of(&rt, alloc) {
        Ok(words) => words,
        Err(status) => return ExitCode::from(status),
    };
    match read_words_at(alloc, words.as_slice(), screen_of(&rt)) {
        Ok(asked) => ExitCode::from(answered(&rt, alloc, &asked)),
        Err(_) => ExitCode::from(6),
    }
}
