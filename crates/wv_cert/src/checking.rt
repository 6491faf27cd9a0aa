// Logs checked against the failing bits of a net.
ghost use Rattle.std.specs.Prelude.{◌≡◌, ◌+◌, ◌<◌, ◌^◌, ◌↔◌, IfOk, IsTrue, Some, length, slice_get};
ghost use Rattle.circuits.specs.Net.{IsIn};
ghost use Rattle.circuits.specs.Numbers.{AreIn};
ghost use Rattle.clauses.specs.Accepted.{RefutesBit};
ghost use Rattle.wv_cert.specs.Accepted.{IsAnswer, IsNeverTrue, IsSound};

use circuits::{Bit, Net};
use clauses::{Refutation, accepts, cnf_of};
use std::alloc::Global;
use wv_base::{OutOfMemory, Seq};

/// Each log refutes the clauses of its failing bit; or one doesn't, counted from 1, and those before it do; or there
/// are not as many logs as failing bits.
#[derive(Drop)]
pub enum Rechecked {
    Yes { count: u32 },
    No { index: u32 },
    Count { expected: u32, found: u64 },
}

/// Whether a log refutes the clauses of a bit.
fn refutes(alloc: Global, net: &Net, bit: Bit, log: &Refutation) -> Result<bool, OutOfMemory>
    requires bit_in { IsIn net.now bit }
    requires room { length net.now < 2 ^ 28 }
    ensures exact { IfOk result (λ r. IsTrue r ↔ RefutesBit net.now bit log.now) }
    ensures sound { IfOk result (λ r. IsTrue r → IsNeverTrue net.now bit) }
{
    let clauses = cnf_of(alloc, net, bit)?;
    let refuted = accepts(alloc, &clauses, log)?;
    Ok(refuted)
}

fn bit_at(failing: &Seq<Bit>, at: usize) -> Bit
    requires { at < length failing.now }
    ensures { Some result ≡ slice_get failing.now at }
{
    failing.as_slice()[at]
}

fn log_at(logs: &Seq<Refutation>, at: usize) -> &Refutation
    requires { at < length logs.now }
    ensures { Some result.now ≡ slice_get logs.now at }
{
    &logs.as_slice()[at]
}

/// Checks as many logs as there are failing bits, one after the other.
pub fn recheck_bits(
    alloc: Global,
    net: &Net,
    failing: &Seq<Bit>,
    logs: &Seq<Refutation>,
) -> Result<Rechecked, OutOfMemory>
    requires bits_in { AreIn net.now failing.now }
    requires room { length net.now < 2 ^ 28 }
    requires numbered { length failing.now < 2 ^ 32 }
    ensures exact { IfOk result (IsAnswer net.now failing.now logs.now) }
    ensures sound { IfOk result (IsSound net.now failing.now) }
{
    let many = failing.len();
    if logs.len() != many {
        return Ok(Rechecked::Count {
            expected: many as u32,
            found: logs.len() as u64,
        });
    }
    for at in 0..many {
        let bit = bit_at(failing, at);
        let log = log_at(logs, at);
        let refuted = refutes(alloc, net, bit, log)?;
        if !refuted {
            return Ok(Rechecked::No {
                index: at as u32 + 1,
            });
        }
    }
    Ok(Rechecked::Yes { count: many as u32 })
}
