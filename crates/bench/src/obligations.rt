// One part of what the obligations of a program need: what bench/obligations times. Its words are the part and the
// source.
use crate::check::program_of;
use c_calls::{calls_itself, changed};
use c_core::{PlaceKind, Program, Spot};
use c_duties::duties;
use std::{fs, io};
use sym_weight::weigh;
use way_places::places;
use wv_base::Seq;

/// The place of the last loop, if there is a loop.
fn last_loop(rt: &HostRuntime, program: &Program) -> Option<Spot> {
    let Ok(all) = places(rt.alloc(), program) else {
        return None;
    };
    let mut last = None;
    for place in all.as_slice() {
        if place.kind == PlaceKind::Loop {
            last = Some(place.spot);
        }
    }
    last
}

fn report_recursion(rt: &HostRuntime, program: &Program) -> io::Result<()> {
    match calls_itself(rt.alloc(), program) {
        Ok(Some(function)) => println!(rt; "function {function} calls itself"),
        Ok(None) => println!(rt; "no function calls itself"),
        Err(_) => println!(rt; "out of memory"),
    }
}

fn report_duties(rt: &HostRuntime, program: &Program) -> io::Result<()> {
    match duties(rt.alloc(), program, &Seq::new(rt.alloc())) {
        Ok(list) => println!(rt; "{} obligations", list.len()),
        Err(_) => println!(rt; "out of memory"),
    }
}

fn report_changed(rt: &HostRuntime, program: &Program) -> io::Result<()> {
    let Some(spot) = last_loop(rt, program) else {
        return println!(rt; "no loop");
    };
    match changed(rt.alloc(), program, spot) {
        Ok(objects) => println!(rt; "{} objects are changed", objects.len()),
        Err(_) => println!(rt; "out of memory"),
    }
}

fn report_weight(rt: &HostRuntime, program: &Program) -> io::Result<()> {
    match weigh(rt.alloc(), program, &Seq::new(rt.alloc())) {
        Ok(Some(total)) => println!(rt; "weight {}", total.weight),
        Ok(None) => println!(rt; "too big"),
        Err(_) => println!(rt; "out of memory"),
    }
}

fn report(rt: &HostRuntime, part: &str, program: &Program) -> io::Result<()> {
    match part {
        "program" => println!(rt; "{} functions", program.functions.len()),
        "recursion" => report_recursion(rt, program),
        "duties" => report_duties(rt, program),
        "changed" => report_changed(rt, program),
        "weight" => report_weight(rt, program),
        _ => println!(rt; "no such part"),
    }
}

pub fn run(rt: &HostRuntime, words: &[String]) -> io::Result<()> {
    let [part, path] = words else {
        return println!(rt;
            "usage: bench obligations program|recursion|duties|changed|weight SOURCE"
        );
    };
    let bytes = fs::read(rt, path.as_str())?;
    match program_of(rt.alloc(), bytes.as_slice()) {
        Some(program) => report(rt, part.as_str(), &program),
        None => println!(rt; "no program"),
    }
}
