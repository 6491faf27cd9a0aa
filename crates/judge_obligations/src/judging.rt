// The verdict on all obligations in their order.
ghost use Rattle.std.specs.Prelude.{◌≡◌, ℕ, ◌+◌, ◌-◌, ◌≤◌, ◌<◌, ◌^◌, IfOk, OnOk, Some, length, slice_get};
ghost use Rattle.c_core.specs.View.{program_view};
ghost use Rattle.c_meaning.specs.Placing.{placed_view};
ghost use Rattle.circuits.specs.Net.{count_inputs};
ghost use Rattle.folded_nets.specs.Following.{Follows};
ghost use Rattle.judge_obligations.specs.Answering.{IsShown, IsLeftOpen};
ghost use Rattle.judge_obligations.specs.Deciding.{AreNeverTrue, IsTrueAt};
ghost use Rattle.judge_obligations.specs.Logged.{IsOther, IsPassedAs, IsPassedUnspent, IsSettledAs, IsSettledUnspent};
ghost use Rattle.judge_obligations.specs.Verdicts.{AreObligationsOf, IsRightOnInvariants, IsKept, IsDecided};

use crate::asking::{Asked, Folding};
use bit_answers::{Finding, decide_bit, draws_under, is_false};
use c_core::Program;
use c_meaning::{Cause, Draw, PlacedInvariant, Verdict};
use circuits::Bit;
use clauses::{Refutation, SpentAt};
use std::alloc::Global;
use sym_duties::Obligations;
use wv_base::{OutOfMemory, Seq};

/// A verdict; and where its budget was spent, the clauses and the log that show it.
#[derive(Drop)]
pub struct Judged {
    pub verdict: Verdict,
    pub spent: Option<SpentAt>,
}

// obligations are numbered from 1
fn number_at(at: usize) -> u32
    requires { at + 1 < 2 ^ 32 }
    ensures { result ≡ at + 1 }
{
    at as u32 + 1
}

// the failing bit of the obligation at an index
fn failing_at(obligations: &Obligations, at: usize) -> Bit
    requires { at < length obligations.now.failing }
    ensures { Some result ≡ slice_get obligations.now.failing at }
{
    obligations.failing.as_slice()[at]
}

// the obligation at an index fails, with these draws
fn failed(obligations: &Obligations, at: usize, draws: Seq<Draw>) -> Judged
    requires within { at < length obligations.now.list }
    requires numbered { at + 1 < 2 ^ 32 }
    ensures { IsShown obligations.now.list at draws result }
{
    let duty = obligations.list.as_slice()[at];
    Judged {
        verdict: Verdict::CorrectnessNot {
            index: number_at(at),
            duty,
            draws,
        },
        spent: None,
    }
}

// the budget was spent on the obligation at an index
fn undecided(at: usize, conflicts: u64, spent: SpentAt) -> Judged
    requires numbered { at + 1 < 2 ^ 32 }
    ensures { IsLeftOpen at conflicts spent result }
{
    Judged {
        verdict: Verdict::Undecided(Cause::Conflicts {
            index: number_at(at),
            count: conflicts,
        }),
        spent: Some(spent),
    }
}

// the obligation at an index fails, where those before it hold: these inputs make its failing bit true
fn shown(
    alloc: Global,
    program: &Program,
    invariants: &Seq<PlacedInvariant>,
    obligations: &Obligations,
    at: usize,
    values: &[bool],
) -> Result<Judged, OutOfMemory>
    requires promised { AreObligationsOf (program_view program.now) (placed_view invariants.now) obligations.now }
    requires within { at < length obligations.now.failing }
    requires before { AreNeverTrue obligations.now.net obligations.now.failing at }
    requires on { IsTrueAt obligations.now at values.now }
    ensures other { IfOk result (λ r. (N : ℕ) → IsOther N (program_view program.now) (placed_view invariants.now)
        obligations.now r) }
    ensures decided { IfOk result (λ r. IsDecided r.verdict) }
{
    let sites = obligations.sites.as_slice();
    let draws = draws_under(alloc, program, &obligations.net, sites, values)?;
    Ok(failed(obligations, at, draws))
}

/// One obligation: it holds, by its log; or the verdict that it gives, where those before it hold.
#[derive(Drop)]
pub enum Settled {
    Holds(Refutation),
    Ends(Judged),
}

/// Decides the obligation at an index, where those before it hold.
pub fn settle(
    alloc: Global,
    program: &Program,
    invariants: &Seq<PlacedInvariant>,
    obligations: &Obligations,
    at: usize,
    conflicts: u64,
) -> Result<Settled, OutOfMemory>
    requires promised { AreObligationsOf (program_view program.now) (placed_view invariants.now) obligations.now }
    requires within { at < length obligations.now.failing }
    requires before { AreNeverTrue obligations.now.net obligations.now.failing at }
    requires some { 1 ≤ conflicts }
    requires bounded { conflicts ≤ 1000000 }
    ensures settled { IfOk result
        (IsSettledAs conflicts (program_view program.now) (placed_view invariants.now) obligations.now at) }
    ensures decided { IfOk result (λ r. 2 ^ (count_inputs obligations.now.net + 1) - 2 < conflicts
        → IsSettledUnspent r) }
{
    let net = &obligations.net;
    let _ = net.nodes();
    let bit = failing_at(obligations, at);
    match decide_bit(alloc, net, bit, conflicts)? {
        Finding::NeverTrue(log) => Ok(Settled::Holds(log)),
        Finding::TrueUnder(values) => {
            let judged = shown(
                alloc,
                program,
                invariants,
                obligations,
                at,
                values.as_slice(),
            )?;
            Ok(Settled::Ends(judged))
        }
        Finding::Spent(spent) => Ok(Settled::Ends(undecided(at, conflicts, spent))),
    }
}

// the obligation at an index by the net itself; where it holds, it makes the folded net smaller
fn pass_whole(
    alloc: Global,
    program: &Program,
    invariants: &Seq<PlacedInvariant>,
    obligations: &Obligations,
    at: usize,
    conflicts: u64,
    folding: &mut Folding,
) -> Result<Option<Judged>, OutOfMemory>
    requires promised { AreObligationsOf (program_view program.now) (placed_view invariants.now) obligations.now }
    requires within { at < length obligations.now.failing }
    requires before { AreNeverTrue obligations.now.net obligations.now.failing at }
    requires some { 1 ≤ conflicts }
    requires bounded { conflicts ≤ 1000000 }
    requires follows { Follows obligations.now.net folding.old.folded }
    ensures follows { OnOk result (Follows obligations.now.net folding.new.folded) }
    ensures passed { IfOk result
        (IsPassedAs conflicts (program_view program.now) (placed_view invariants.now) obligations.now at) }
    ensures decided { IfOk result (λ r. 2 ^ (count_inputs obligations.now.net + 1) - 2 < conflicts
        → IsPassedUnspent r) }
{
    let net = &obligations.net;
    let _ = net.nodes();
    let bit = failing_at(obligations, at);
    match settle(alloc, program, invariants, obligations, at, conflicts)? {
        Settled::Holds(_) => {
            folding.keep(net, bit)?;
            Ok(None)
        }
        Settled::Ends(judged) => Ok(Some(judged)),
    }
}

// decides the obligation at an index, where those before it hold: `None` where it holds too
fn pass(
    alloc: Global,
    program: &Program,
    invariants: &Seq<PlacedInvariant>,
    obligations: &Obligations,
    at: usize,
    conflicts: u64,
    folding: &mut Folding,
) -> Result<Option<Judged>, OutOfMemory>
    requires promised { AreObligationsOf (program_view program.now) (placed_view invariants.now) obligations.now }
    requires within { at < length obligations.now.failing }
    requires before { AreNeverTrue obligations.now.net obligations.now.failing at }
    requires some { 1 ≤ conflicts }
    requires bounded { conflicts ≤ 1000000 }
    requires follows { Follows obligations.now.net folding.old.folded }
    ensures follows { OnOk result (Follows obligations.now.net folding.new.folded) }
    ensures passed { IfOk result
        (IsPassedAs conflicts (program_view program.now) (placed_view invariants.now) obligations.now at) }
    ensures decided { IfOk result (λ r. 2 ^ (count_inputs obligations.now.net + 1) - 2 < conflicts
        → IsPassedUnspent r) }
{
    let net = &obligations.net;
    let _ = net.nodes();
    let bit = failing_at(obligations, at);
    match folding.ask(alloc, net, bit, conflicts)? {
        Asked::NeverTrue => Ok(None),
        Asked::TrueUnder(values) => {
            let judged = shown(
                alloc,
                program,
                invariants,
                obligations,
                at,
                values.as_slice(),
            )?;
            Ok(Some(judged))
        }
        Asked::Open => pass_whole(
            alloc,
            program,
            invariants,
            obligations,
            at,
            conflicts,
            folding,
        ),
    }
}

/// Decides the obligations one after the other, each with a budget of conflicts, up to the first that doesn't hold. Those
/// that hold make the net smaller for the next; what isn't decided there is decided in the net itself.
pub fn decide(
    alloc: Global,
    program: &Program,
    invariants: &Seq<PlacedInvariant>,
    obligations: &Obligations,
    conflicts: u64,
) -> Result<Judged, OutOfMemory>
    requires promised { AreObligationsOf (program_view program.now) (placed_view invariants.now) obligations.now }
    requires some { 1 ≤ conflicts }
    requires bounded { conflicts ≤ 1000000 }
    ensures right { IfOk result (λ r. IsRightOnInvariants conflicts (program_view program.now)
        (placed_view invariants.now) r.verdict) }
    ensures kept { IfOk result (λ r. IsKept conflicts obligations.now r.verdict r.spent) }
    ensures decided { IfOk result (λ r. 2 ^ (count_inputs obligations.now.net + 1) - 2 < conflicts
        → IsDecided r.verdict) }
{
    let net = &obligations.net;
    let many = obligations.failing.len();
    let mut folding = Folding::new(alloc, net)?;
    for at in 0..many {
        if is_false(net, failing_at(obligations, at)) {
            continue;
        }
        match pass(
            alloc,
            program,
            invariants,
            obligations,
            at,
            conflicts,
            &mut folding,
        )? {
            None => {}
            Some(judged) => return Ok(judged),
        }
    }
    Ok(Judged {
        verdict: Verdict::CorrectnessConfirmed { count: many as u32 },
        spent: None,
    })
}
