// Reads the witness that its first word names and prints its summary; judges it about each program that a further word
// names, and prints the answer. This is what bench/task times.
use c_core::Property;
use std::alloc::Global;
use std::io::Write;
use std::{fs, io};
use wv_schema::{SchemaFault, Witness, witness_of};
use wv_show::summary;
use wv_task::judge_task;
use wv_yaml::read;

fn show(rt: &HostRuntime, witness: &Witness) -> io::Result<()> {
    match summary(rt.alloc(), witness) {
        Ok(lines) => io::writer(rt).write_all(lines.as_slice()),
        Err(_) => println!(rt; "out of memory"),
    }
}

fn judge(rt: &HostRuntime, witness: &Witness, program: &[u8]) -> io::Result<()> {
    if witness.entries.len() == 0 {
        return println!(rt; "no entry");
    }
    let answer = judge_task(rt.alloc(), witness, program, Property::NoOverflow);
    println!(rt; "{answer:?}")
}

/// The witness that bytes in YAML spell, or why there is none.
fn witness_in(alloc: Global, bytes: &[u8]) -> Result<Witness, SchemaFault> {
    match read(alloc, bytes) {
        Ok(tree) => witness_of(alloc, &tree),
        Err(_) => Err(SchemaFault::Entries),
    }
}

pub fn run(rt: &HostRuntime, words: &[String]) -> io::Result<()> {
    let Some((path, programs)) = words.split_first() else {
        return println!(rt; "no witness");
    };
    let bytes = fs::read(rt, path.as_str())?;
    let Ok(witness) = witness_in(rt.alloc(), bytes.as_slice()) else {
        return println!(rt; "refused");
    };
    show(rt, &witness)?;
    for path in programs {
        let program = fs::read(rt, path.as_str())?;
        judge(rt, &witness, program.as_slice())?;
    }
    Ok(())
}
