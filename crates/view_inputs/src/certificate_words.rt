// The words about certificates.
use crate::command::Part;
use clap::builder::ValueParser;
use clap::{Arg, ArgAction, ArgMatches, Command};
use std::alloc::{AllocError, Global};

/// No certificate has more obligations.
const MOST: u64 = 4_294_967_295;

fn certificate<'a>(alloc: Global) -> Result<Arg<'a>, AllocError> {
    let arg = Arg::new(alloc, "certificate")
        .long("certificate")
        .value_name("FILE")
        .help("A certificate, which is checked again as `witval recheck` does")
        .conflicts_with("list")?;
    Ok(arg)
}

/// A word that asks for a part of a certificate.
fn part<'a>(arg: Arg<'a>, others: [&'a str; 2]) -> Result<Arg<'a>, AllocError> {
    let [first, second] = others;
    let arg = arg
        .requires_arg("certificate")?
        .conflicts_with(first)?
        .conflicts_with(second)?
        .conflicts_with("sarif")?
        .conflicts_with("html")?
        .conflicts_with("json")?;
    Ok(arg)
}

fn manifest<'a>(alloc: Global) -> Result<Arg<'a>, AllocError> {
    let arg = Arg::new(alloc, "manifest")
        .long("manifest")
        .action(ArgAction::SetTrue)
        .help("Prints the obligations of the certificate and its files as JSON instead");
    part(arg, ["dimacs", "lrat"])
}

fn numbered<'a>(alloc: Global, name: &'a str, help: &'a str) -> Arg<'a> {
    Arg::new(alloc, name)
        .long(name)
        .value_name("N")
        .value_parser(ValueParser::unsigned(1, MOST))
        .help(help)
}

/// The words about certificates, behind those of a command.
pub fn with_parts<'a>(alloc: Global, command: Command<'a>) -> Result<Command<'a>, AllocError> {
    let dimacs = numbered(
        alloc,
        "dimacs",
        "Prints the clauses of obligation N as DIMACS CNF instead",
    );
    let lrat = numbered(
        alloc,
        "lrat",
        "Prints the log of obligation N as LRAT instead",
    );
    let command = command
        .arg(certificate(alloc)?)?
        .arg(manifest(alloc)?)?
        .arg(part(dimacs, ["manifest", "lrat"])?)?
        .arg(part(lrat, ["manifest", "dimacs"])?)?;
    Ok(command)
}

/// The part that is asked for.
pub fn wanted_part(matches: &ArgMatches<'_>) -> Option<Part> {
    if matches.get_flag("manifest") {
        return Some(Part::Manifest);
    }
    if let Some(number) = matches.get_one::<u64>("dimacs") {
        return Some(Part::Dimacs(number));
    }
    match matches.get_one::<u64>("lrat") {
        Some(number) => Some(Part::Lrat(number)),
        None => None,
    }
}
