// Clauses as DIMACS CNF.
ghost use Rattle.std.specs.Prelude.{◌≡◌, ◌++◌, IfOk, OnOk, string_bytes};
ghost use Rattle.std.specs.List.{flat_map};
ghost use Rattle.wv_export.specs.Dimacs.{clause_line, dimacs_text, heading, number_text};

use clauses::{Clause, Cnf};
use std::alloc::Global;
use wv_base::OutOfMemory;

fn add_number(out: &mut String, number: i32) -> Result<(), OutOfMemory>
    ensures { OnOk result (string_bytes out.new ≡ string_bytes out.old ++ number_text number) }
{
    write!(out, "{number} ")?;
    Ok(())
}

/// The numbers of a clause.
pub fn add_numbers(out: &mut String, clause: &Clause) -> Result<(), OutOfMemory>
    ensures { OnOk result (string_bytes out.new ≡ string_bytes out.old ++ flat_map number_text clause.now) }
{
    for number in clause.numbers() {
        add_number(out, *number)?;
    }
    Ok(())
}

fn add_clause(out: &mut String, clause: &Clause) -> Result<(), OutOfMemory>
    ensures { OnOk result (string_bytes out.new ≡ string_bytes out.old ++ clause_line clause.now) }
{
    add_numbers(out, clause)?;
    out.push_str("0\n")?;
    Ok(())
}

fn add_heading(out: &mut String, variables: u32, clauses: usize) -> Result<(), OutOfMemory>
    ensures { OnOk result (string_bytes out.new ≡ string_bytes out.old ++ heading variables clauses) }
{
    write!(out, "p cnf {variables} {clauses}\n")?;
    Ok(())
}

/// The text of clauses.
#[tactic(auto, unfolding(crate::specs::Dimacs::dimacs_text))]
pub fn dimacs(alloc: Global, cnf: &Cnf) -> Result<Vec<u8>, OutOfMemory>
    ensures { IfOk result (λ bytes. bytes.items ≡ dimacs_text cnf.now.variables cnf.now.clauses) }
{
    let mut out = String::new(alloc);
    let count = cnf.clauses.len();
    add_heading(&mut out, cnf.variables, count)?;
    for clause in cnf.clauses.as_slice() {
        add_clause(&mut out, clause)?;
    }
    Ok(out.into_bytes())
}
