// The text of logs.
ghost use Rattle.std.specs.Prelude.{◌≡◌, ◌+◌, ◌<◌, ◌^◌, ◌++◌, IfOk, OnOk, length, string_bytes};
ghost use Rattle.std.specs.List.{All, flat_map};
ghost use Rattle.clauses.specs.Clause.{IsClause};
ghost use Rattle.wv_cert.specs.Text.{IsCertificate, IsChain, IsLog, IsStep, certificate_text, chain_line, clause_text, heading, log_line, log_text, log_texts, number_text, step_text, steps_text};

use clauses::{Chain, Clause, Refutation, Resolve};
use std::alloc::Global;
use wv_base::{OutOfMemory, Seq};

fn add_step(out: &mut String, step: Resolve) -> Result<(), OutOfMemory>
    ensures text { OnOk result (string_bytes out.new ≡ string_bytes out.old ++ step_text step) }
    ensures fine { IsStep step }
{
    let with = step.with;
    let on = step.on;
    write!(out, " {with}:{on}")?;
    Ok(())
}

fn add_steps(out: &mut String, steps: &[Resolve]) -> Result<(), OutOfMemory>
    ensures text { OnOk result (string_bytes out.new ≡ string_bytes out.old ++ steps_text steps.now) }
    ensures fine { OnOk result (All IsStep steps.now) }
{
    for step in steps {
        add_step(out, *step)?;
    }
    out.push_str(" =")?;
    Ok(())
}

fn add_number(out: &mut String, number: i32) -> Result<(), OutOfMemory>
    ensures { OnOk result (string_bytes out.new ≡ string_bytes out.old ++ number_text number) }
{
    write!(out, " {number}")?;
    Ok(())
}

fn add_clause(out: &mut String, clause: &Clause) -> Result<(), OutOfMemory>
    ensures text { OnOk result (string_bytes out.new ≡ string_bytes out.old ++ clause_text clause.now) }
    ensures fine { IsClause clause.now }
{
    for number in clause.numbers() {
        add_number(out, *number)?;
    }
    out.push_str("\n")?;
    Ok(())
}

fn add_chain(out: &mut String, chain: &Chain) -> Result<(), OutOfMemory>
    ensures text { OnOk result (string_bytes out.new ≡ string_bytes out.old ++ chain_line chain.now) }
    ensures fine { OnOk result (IsChain chain.now) }
{
    let start = chain.start;
    write!(out, "{start}")?;
    add_steps(out, chain.steps.as_slice())?;
    add_clause(out, &chain.gives)?;
    Ok(())
}

/// The first line of a log.
fn add_log_line(out: &mut String, obligation: usize, chains: usize) -> Result<(), OutOfMemory>
    ensures { OnOk result (string_bytes out.new ≡ string_bytes out.old ++ log_line obligation chains) }
{
    write!(out, "obligation {obligation} chains {chains}\n")?;
    Ok(())
}

fn add_log(out: &mut String, obligation: usize, log: &Refutation) -> Result<(), OutOfMemory>
    ensures text { OnOk result (string_bytes out.new ≡ string_bytes out.old ++ log_text obligation log.now) }
    ensures fine { OnOk result (IsLog log.now) }
{
    let chains = log.chains.len();
    add_log_line(out, obligation, chains)?;
    for chain in log.chains.as_slice() {
        add_chain(out, chain)?;
    }
    Ok(())
}

/// The certificate of logs, in the order of their obligations.
#[tactic(auto, unfolding(crate::specs::Text::certificate_text))]
pub fn certify(alloc: Global, logs: &Seq<Refutation>) -> Result<Vec<u8>, OutOfMemory>
    ensures { IfOk result (λ bytes. IsCertificate logs.now bytes.items) }
{
    let mut out = String::new(alloc);
    let count = logs.len();
    write!(out, "witval certificate 1\nobligations {count}\n")?;
    for (index, log) in logs.as_slice().iter().enumerate() {
        add_log(&mut out, index + 1, log)?;
    }
    Ok(out.into_bytes())
}
