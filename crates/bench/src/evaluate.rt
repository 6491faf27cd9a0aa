// The obligations of a C source as a net: what bench/evaluate counts and times. Its word is the source.
use crate::check::program_of;
use c_core::Program;
use std::{fs, io};
use sym_duties::{Obligations, SymFault};
use sym_eval::obligations;
use sym_weight::weigh;
use wv_base::Seq;

fn report_weight(rt: &HostRuntime, program: &Program) -> io::Result<()> {
    match weigh(rt.alloc(), program, &Seq::new(rt.alloc())) {
        Ok(Some(total)) => print!(rt; "weight {}, bits {}, ", total.weight, total.bits),
        _ => Ok(()),
    }
}

fn report_net(rt: &HostRuntime, all: &Obligations) -> io::Result<()> {
    let count = all.list.len();
    let ands = all.net.ands();
    let inputs = all.net.inputs();
    println!(rt; "{count} obligations, {ands} and-nodes, {inputs} inputs")
}

fn report(rt: &HostRuntime, program: &Program) -> io::Result<()> {
    report_weight(rt, program)?;
    match obligations(rt.alloc(), program, &Seq::new(rt.alloc())) {
        Ok(all) => report_net(rt, &all),
        Err(SymFault::Recursion(name)) => println!(rt; "recursion of {}", name.as_str()),
        Err(SymFault::TooBig) => println!(rt; "too big"),
        Err(SymFault::OutOfMemory) => println!(rt; "out of memory"),
    }
}

pub fn run(rt: &HostRuntime, words: &[String]) -> io::Result<()> {
    let [path] = words else {
        return println!(rt; "usage: bench evaluate SOURCE");
    };
    let bytes = fs::read(rt, path.as_str())?;
    match program_of(rt.alloc(), bytes.as_slice()) {
        Some(program) => report(rt, &program),
        None => println!(rt; "no program"),
    }
}
