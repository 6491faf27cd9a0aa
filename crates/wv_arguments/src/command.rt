// The command line as `clap` takes it.
ghost use Rattle.std.specs.Prelude.{◌≡◌, IfOk, false};
ghost use Rattle.clap.specs.Words.{app_of, rule_of, with_rule};
ghost use Rattle.wv_arguments.specs.Arguments as arguments;

use clap::builder::ValueParser;
use clap::{Arg, ArgAction, Command};
use std::alloc::{AllocError, Global};

/// The most that `--steps` takes.
pub const MOST_STEPS: u64 = 100_000_000;

/// The most that `--conflicts` takes.
pub const MOST_CONFLICTS: u64 = 1_000_000;

/// The most that `--bound` takes.
pub const MOST_TURNS: u64 = 64;

/// The most that `--number` takes.
pub const MOST_NUMBER: u64 = 999_999;

fn mode<'a>(alloc: Global) -> Arg<'a>
    ensures rule { rule_of result ≡ arguments.mode }
    ensures local { result.global ≡ false }
{
    Arg::new(alloc, "mode").required(true)
}

fn option<'a>(alloc: Global, name: &'a str) -> Arg<'a>
    ensures rule { rule_of result ≡ arguments.option name.entry.now }
    ensures local { result.global ≡ false }
{
    Arg::new(alloc, name).long(name)
}

fn option_or<'a>(alloc: Global, name: &'a str, default: &'a str) -> Arg<'a>
    ensures rule { rule_of result ≡ arguments.option_or name.entry.now default.entry.now }
    ensures local { result.global ≡ false }
{
    option(alloc, name).default_value(default)
}

fn number<'a>(alloc: Global, name: &'a str, least: u64, most: u64) -> Arg<'a>
    ensures rule { rule_of result ≡ arguments.number name.entry.now least most }
    ensures local { result.global ≡ false }
{
    option(alloc, name).value_parser(ValueParser::unsigned(least, most))
}

fn number_or<'a>(alloc: Global, name: &'a str, least: u64, most: u64, default: &'a str) -> Arg<'a>
    ensures rule { rule_of result ≡ arguments.number_or name.entry.now least most default.entry.now }
    ensures local { result.global ≡ false }
{
    number(alloc, name, least, most).default_value(default)
}

fn flag<'a>(alloc: Global, name: &'a str) -> Arg<'a>
    ensures rule { rule_of result ≡ arguments.flag name.entry.now }
    ensures local { result.global ≡ false }
{
    option(alloc, name).action(ArgAction::SetTrue)
}

/// The whole command.
pub fn command<'a>(alloc: Global) -> Result<Command<'a>, AllocError>
    ensures { IfOk result (λ command. app_of command ≡ arguments.command) }
{
    let command = Command::new(alloc, "witval")
        .arg(mode(alloc))?
        .arg(option(alloc, "program"))?
        .arg(option(alloc, "property"))?
        .arg(option(alloc, "witness"))?
        .arg(option(alloc, "certificate"))?
        .arg(option(alloc, "values"))?
        .arg(option_or(alloc, "model", "ILP32"))?
        .arg(option_or(alloc, "uuid", "01234567-89ab-4cde-8f01-23456789abcd"))?
        .arg(option_or(alloc, "time", "2024-04-10T12:00:00Z"))?
        .arg(number_or(alloc, "steps", 1, MOST_STEPS, "10000000"))?
        .arg(number_or(alloc, "conflicts", 1, MOST_CONFLICTS, "100000"))?
        .arg(number_or(alloc, "bound", 1, MOST_TURNS, "8"))?
        .arg(number(alloc, "number", 0, MOST_NUMBER))?
        .arg(flag(alloc, "json"))?;
    Ok(command)
}
