// One obligation for other checkers.
ghost use Rattle.std.specs.Prelude.{◌<◌, ◌^◌, IfOk, length};
ghost use Rattle.circuits.specs.Net.{IsIn};
ghost use Rattle.wv_export.specs.Exported.{IsExport};

use crate::chain_lines::lrat;
use crate::clause_lines::dimacs;
use circuits::{Bit, Net};
use clauses::{Refutation, cnf_of};
use std::alloc::Global;
use wv_base::OutOfMemory;

/// The clauses of a failing bit as DIMACS CNF, and a log over them as LRAT.
#[derive(Drop)]
pub struct Exported {
    pub dimacs: Vec<u8>,
    pub lrat: Vec<u8>,
}

/// Both texts of a failing bit and a log.
pub fn export(alloc: Global, net: &Net, bit: Bit, log: &Refutation) -> Result<Exported, OutOfMemory>
    requires bit_in { IsIn net.now bit }
    requires room { length net.now < 2 ^ 28 }
    requires numbered { length log.now.chains < 2 ^ 63 }
    ensures { IfOk result (IsExport net.now bit log.now) }
{
    let clauses = cnf_of(alloc, net, bit)?;
    let dimacs = dimacs(alloc, &clauses)?;
    let lrat = lrat(alloc, clauses.clauses.len(), log)?;
    Ok(Exported { dimacs, lrat })
}
