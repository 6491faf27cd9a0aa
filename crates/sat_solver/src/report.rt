// What the program prints.
use crate::words::Wanted;
use clauses::{Cnf, Refutation, accepts, accepts_log};
use sat_core::{Answer, solve};
use std::io;
use wv_base::Seq;

/// A `v` line has so many numbers.
const MANY: usize = 10;

fn print_values(rt: &HostRuntime, values: &Seq<bool>) -> io::Result<()> {
    for (at, value) in values.as_slice().iter().enumerate() {
        if at % MANY == 0 {
            print!(rt; "{}", if at == 0 { "v" } else { "\nv" })?;
        }
        let variable = at.wrapping_add(1);
        print!(rt; " {}{variable}", if *value { "" } else { "-" })?;
    }
    println!(rt; "{}", if values.len() == 0 { "v 0" } else { " 0" })
}

/// The literals of the clauses that a log gives.
fn count_literals(log: &Refutation) -> u64 {
    let mut count = 0u64;
    for chain in log.chains.as_slice() {
        count = count.saturating_add(chain.gives.numbers().len() as u64);
    }
    count
}

/// The resolutions of a log.
fn count_steps(log: &Refutation) -> u64 {
    let mut count = 0u64;
    for chain in log.chains.as_slice() {
        count = count.saturating_add(chain.steps.len() as u64);
    }
    count
}

fn print_log(rt: &HostRuntime, cnf: &Cnf, log: &Refutation, whole: bool) -> io::Result<()> {
    let taken = if whole {
        accepts(rt.alloc(), cnf, log)
    } else {
        accepts_log(rt.alloc(), cnf, log)
    };
    let said = match taken {
        Ok(true) => "accepted",
        Ok(false) => "refused",
        Err(_) => "not checked for want of memory",
    };
    let (chains, literals, steps) = (log.chains.len(), count_literals(log), count_steps(log));
    println!(rt; "c log {chains} chains, {literals} literals, {steps} steps, {said}")
}

/// Prints the answer: the status.
pub fn print_answer(rt: &HostRuntime, cnf: &Cnf, wanted: Wanted) -> io::Result<u8> {
    if cnf.clauses.len() >= 1 << 30 || wanted.budget < 1 || wanted.budget > 1 << 30 {
        println!(rt; "s UNKNOWN")?;
        return Ok(0);
    }
    match solve(rt.alloc(), cnf, wanted.budget) {
        Ok(Answer::Model(values)) => {
            println!(rt; "s SATISFIABLE")?;
            print_values(rt, &values)?;
            Ok(10)
        }
        Ok(Answer::Refuted(log)) => {
            if wanted.log {
                print_log(rt, cnf, &log, true)?;
            }
            println!(rt; "s UNSATISFIABLE")?;
            Ok(20)
        }
        Ok(Answer::Spent(log)) => {
            if wanted.log {
                print_log(rt, cnf, &log, false)?;
            }
            println!(rt; "s UNKNOWN")?;
            Ok(0)
        }
        Err(_) => {
            println!(rt; "s UNKNOWN")?;
            Ok(0)
        }
    }
}
