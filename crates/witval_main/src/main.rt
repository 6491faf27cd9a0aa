//! The program: the arguments, the files and standard output of the process, handed to the top call.
#![tactic(auto)]

use std::process::ExitCode;
use witval::run;
use wv_process::{FileShelf, OutSink, words_of};

fn main(rt: HostRuntime) -> ExitCode {
    let alloc = rt.alloc();
    let words = match words_of(&rt, alloc) {
        Ok(words) => words,
        Err(status) => return ExitCode::from(status),
    };
    let mut shelf = FileShelf::new(&rt, alloc);
    let mut out = OutSink::new(&rt);
    ExitCode::from(run(alloc, &words, &mut shelf, &mut out))
}
