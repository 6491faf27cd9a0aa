// Certificates read: the logs whose text the bytes are.
ghost use Rattle.std.specs.Prelude.{◌≡◌, ◌+◌, ◌<◌, ◌^◌, ◌++◌, ℕ, List};
ghost use Rattle.std.specs.List.{All, flat_map};
ghost use Rattle.clauses.specs.Clause.{IsClause, IsNumber};
ghost use Rattle.wv_cert.specs.Reading.{AnswersFor, EndsNumber, Finds, Gets, HasChains, HasLogs, between};
ghost use Rattle.wv_cert.specs.Text.{IsChain, IsLog, IsStep, chain_line, clause_text, log_line, log_text, log_texts, steps_text};

use crate::cursor::Cursor;
use crate::fault::CertFault;
use crate::numbers::{number, small, step};
use clauses::{Chain, Clause, Refutation, Resolve};
use std::alloc::Global;
use wv_base::Seq;

/// Resolutions up to the equals sign.
fn steps(alloc: Global, text: &mut Cursor<'_>) -> Result<Seq<Resolve>, CertFault>
    ensures { Gets (All IsStep) steps_text text.old result text.new }
{
    let mut steps = Seq::new(alloc);
    while !text.passes(b" =") {
        let Some(step) = step(text) else {
            return Err(CertFault::Form);
        };
        steps.push(step)?;
    }
    Ok(steps)
}

/// Numbers up to the line's end.
fn numbers(alloc: Global, text: &mut Cursor<'_>) -> Result<Seq<i32>, CertFault>
    ensures { Gets (All IsNumber) clause_text text.old result text.new }
{
    let mut numbers = Seq::new(alloc);
    while !text.passes(b"\n") {
        let Some(number) = number(text) else {
            return Err(CertFault::Form);
        };
        numbers.push(number)?;
    }
    Ok(numbers)
}

/// The numbers of a clause, up to the line's end.
fn clause(alloc: Global, text: &mut Cursor<'_>) -> Result<Clause, CertFault>
    ensures { Gets IsClause clause_text text.old result text.new }
{
    let numbers = numbers(alloc, text)?;
    match Clause::new(numbers) {
        Some(clause) => Ok(clause),
        None => Err(CertFault::Form),
    }
}

fn chain(alloc: Global, text: &mut Cursor<'_>) -> Result<Chain, CertFault>
    ensures { Gets IsChain chain_line text.old result text.new }
{
    let Some(start) = small(text) else {
        return Err(CertFault::Form);
    };
    let steps = steps(alloc, text)?;
    let gives = clause(alloc, text)?;
    Ok(Chain {
        start,
        steps,
        gives,
    })
}

/// The lines of this many chains.
fn chains(alloc: Global, text: &mut Cursor<'_>, count: u64) -> Result<Seq<Chain>, CertFault>
    ensures { Gets (HasChains count) (flat_map chain_line) text.old result text.new }
{
    let mut chains = Seq::new(alloc);
    for _read in 0..count {
        let chain = chain(alloc, text)?;
        chains.push(chain)?;
    }
    Ok(chains)
}

/// A number between two words.
fn between(text: &mut Cursor<'_>, first: &[u8], last: &[u8]) -> Option<u64>
    requires { (rest : List ℕ) → EndsNumber (last.now ++ rest) }
    ensures { Finds (λ n. n < 2 ^ 64) (between first.now last.now) text.old result text.new }
{
    if !text.passes(first) {
        return None;
    }
    let number = text.number()?;
    if !text.passes(last) {
        return None;
    }
    Some(number)
}

/// How many chains the log of an obligation has, by its first line.
fn heading(text: &mut Cursor<'_>, obligation: u64) -> Option<u64>
    ensures { Finds (λ n. n < 2 ^ 64) (log_line obligation) text.old result text.new }
{
    let number = between(text, b"obligation ", b" chains ")?;
    if number != obligation {
        return None;
    }
    let count = between(text, b"", b"\n")?;
    Some(count)
}

fn log(alloc: Global, text: &mut Cursor<'_>, obligation: u64) -> Result<Refutation, CertFault>
    ensures { Gets IsLog (log_text obligation) text.old result text.new }
{
    let Some(count) = heading(text, obligation) else {
        return Err(CertFault::Form);
    };
    let chains = chains(alloc, text, count)?;
    Ok(Refutation { chains })
}

/// This many logs, numbered from 1.
fn logs(alloc: Global, text: &mut Cursor<'_>, count: u64) -> Result<Seq<Refutation>, CertFault>
    ensures { Gets (HasLogs count) (log_texts 1) text.old result text.new }
{
    let mut logs = Seq::new(alloc);
    for index in 0..count {
        let log = log(alloc, text, index + 1)?;
        logs.push(log)?;
    }
    Ok(logs)
}

/// The logs whose certificate the bytes are.
pub fn read_certificate(alloc: Global, bytes: &[u8]) -> Result<Seq<Refutation>, CertFault>
    ensures { AnswersFor bytes.now result }
{
    let mut text = Cursor::of(bytes);
    let first = b"witval certificate 1\nobligations ";
    let Some(count) = between(&mut text, first, b"\n") else {
        return Err(CertFault::Form);
    };
    let logs = logs(alloc, &mut text, count)?;
    if !text.is_at_end() {
        return Err(CertFault::Form);
    }
    Ok(logs)
}
