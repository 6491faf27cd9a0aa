// Whether the first variables don't decide the clauses: a table shows it, which gives each of them a value, leaves no
// unit, and leaves some variable open.
ghost use Rattle.std.specs.Prelude.{◌≡◌, ◌+◌, ◌^◌, ◌<◌, ◌≤◌, ℕ, IsTrue, IfOk, IfSome};
ghost use Rattle.clauses.specs.Spent.{Decides};
ghost use Rattle.sat_newness.specs.Weights.{HasAllTo, HasOpen};

use crate::pairs::{are_settled, no_pairs};
use crate::table::{at, is_table};
use clauses::Cnf;
use std::alloc::Global;
use wv_base::{OutOfMemory, Seq};

/// The least k such that k variables, if they don't decide the clauses, earn a budget.
pub fn few_variables(budget: u64) -> Option<u32>
    requires { budget ≤ 2 ^ 30 }
    ensures { IfSome result (λ k. (k < 32) × (budget + 2 ≤ 2 ^ (k + 2))) }
{
    let mut power = 4u64;
    for k in 0..32 {
        if budget + 2 <= power {
            return Some(k);
        }
        power *= 2;
    }
    None
}

// whether the first k variables have a value
fn have_values(table: &[u8], k: u32) -> bool
    requires { k < 32 }
    ensures { IsTrue result → HasAllTo table.now k }
{
    for before in 0..k {
        let code = 2 * before + 2;
        if at(table, code) < 2 && at(table, code + 1) < 2 {
            return false;
        }
    }
    true
}

// whether one of so many variables has none
fn has_open(table: &[u8], variables: u32) -> bool
    requires { variables < 2 ^ 31 }
    ensures { IsTrue result → HasOpen table.now variables }
{
    for before in 0..variables {
        let code = 2 * before + 2;
        if at(table, code) < 2 && at(table, code + 1) < 2 {
            return true;
        }
    }
    false
}

/// Whether a table shows that the first k variables, and fewer of them, don't decide the clauses.
pub fn is_undecided(alloc: Global, table: &[u8], cnf: &Cnf, k: u32) -> Result<bool, OutOfMemory>
    requires { k < 32 }
    ensures { IfOk result (λ r. IsTrue r → (j : ℕ) → j ≤ k → Decides j cnf.now.variables cnf.now.clauses → ⊥) }
{
    let variables = cnf.variables;
    if variables >= 1 << 31 || !is_table(table) {
        return Ok(false);
    }
    if !have_values(table, k) || !has_open(table, variables) {
        return Ok(false);
    }
    let none = Seq::new(alloc);
    let mut pairs = no_pairs(alloc, cnf.clauses.len())?;
    Ok(are_settled(table, &cnf.clauses, &none, &mut pairs))
}
