// Logs as LRAT.
ghost use Rattle.std.specs.Prelude.{◌≡◌, ◌+◌, ◌-◌, ◌<◌, ◌^◌, ◌++◌, IfOk, OnOk, length, string_bytes};
ghost use Rattle.wv_export.specs.Lrat.{hint_text, hints_text, lrat_line, lrat_text};

use crate::clause_lines::add_numbers;
use clauses::{Chain, Refutation, Resolve};
use std::alloc::Global;
use wv_base::OutOfMemory;

fn add_hint(out: &mut String, clause: usize) -> Result<(), OutOfMemory>
    ensures { OnOk result (string_bytes out.new ≡ string_bytes out.old ++ hint_text clause) }
{
    write!(out, "{clause} ")?;
    Ok(())
}

/// The clauses of resolutions, the last one first.
fn add_hints(out: &mut String, steps: &[Resolve]) -> Result<(), OutOfMemory>
    ensures { OnOk result (string_bytes out.new ≡ string_bytes out.old ++ hints_text steps.now) }
{
    for at in 0..steps.len() {
        let step = steps[steps.len() - 1 - at];
        add_hint(out, step.with as usize)?;
    }
    Ok(())
}

fn add_line(out: &mut String, number: usize, chain: &Chain) -> Result<(), OutOfMemory>
    ensures { OnOk result (string_bytes out.new ≡ string_bytes out.old ++ lrat_line number chain.now) }
{
    add_hint(out, number)?;
    add_numbers(out, &chain.gives)?;
    out.push_str("0 ")?;
    add_hints(out, chain.steps.as_slice())?;
    add_hint(out, chain.start as usize)?;
    out.push_str("0\n")?;
    Ok(())
}

/// The text of a log over this many clauses.
pub fn lrat(alloc: Global, clauses: usize, log: &Refutation) -> Result<Vec<u8>, OutOfMemory>
    requires numbered { clauses + length log.now.chains < 2 ^ 64 }
    ensures { IfOk result (λ bytes. bytes.items ≡ lrat_text clauses log.now.chains) }
{
    let mut out = String::new(alloc);
    for (index, chain) in log.chains.as_slice().iter().enumerate() {
        add_line(&mut out, clauses + index + 1, chain)?;
    }
    Ok(out.into_bytes())
}
