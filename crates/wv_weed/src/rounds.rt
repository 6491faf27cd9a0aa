// One round: the obligations of the invariants that are left, one after the other.
ghost use Rattle.std.specs.Prelude.{◌≡◌, ◌+◌, ◌<◌, ◌^◌, IfOk, IsTrue, Some, length, slice_get};
ghost use Rattle.wv_weed.specs.Known.{AreNever};
ghost use Rattle.wv_weed.specs.Rounds.{IsDutyOf, IsFoundIn, IsKeptFirst, IsPlaceOf, IsRoundOf, IsTrial};

use crate::known::{is_known, place_of_flag, raise_flag};
use bit_answers::{Finding, decide_bit};
use c_core::Program;
use c_inductive::{as_many_are_picked, duties_name_invariants, failures_drop};
use c_meaning::{DutyKind, PlacedInvariant};
use circuits::Bit;
use clauses::SpentAt;
use judge_obligations::failing_bits_tell;
use std::alloc::Global;
use sym_duties::Obligations;
use wv_base::{OutOfMemory, Seq};

/// What a round reads: a program with its invariants in witness order, the numbers of those that are left, the
/// obligations with these alone, and the budget of each.
#[derive(Clone, Copy)]
pub struct Trial<'a> {
    pub alloc: Global,
    pub program: &'a Program,
    pub invariants: &'a Seq<PlacedInvariant>,
    pub left: &'a Seq<u32>,
    pub obligations: &'a Obligations,
    pub conflicts: u64,
}

/// An obligation on which the budget was spent, by its number from 1.
#[derive(Drop)]
pub struct Open {
    pub number: u32,
    pub at: SpentAt,
}

/// What a round has found: a flag for each invariant that was left, set where one of its obligations fails; the first
/// obligation that is open; and a flag for each bit of the net, set where it is known that no inputs make it true.
/// `asked` counts the calls of the solver, and `failed` those up to the last that found a failing obligation.
#[derive(Drop)]
pub struct Round {
    pub dropped: Vec<bool>,
    pub first: Option<Open>,
    pub never: Vec<bool>,
    pub asked: u64,
    pub failed: u64,
}

/// What the solver says of an obligation.
#[derive(Drop)]
pub enum Found {
    Holds,
    Fails,
    Spent(SpentAt),
}

// the place of the invariant that an obligation is of, among those that are left
fn place_of(obligations: &Obligations, at: usize) -> Option<u32>
    requires { at < length obligations.now.list }
    ensures { IsPlaceOf obligations.now.list at result }
{
    let duty = obligations.list.as_slice()[at];
    match duty.kind {
        DutyKind::Property => None,
        DutyKind::Location | DutyKind::Entry | DutyKind::Kept => duty.invariant,
    }
}

fn failing_at(obligations: &Obligations, at: usize) -> Bit
    requires { at < length obligations.now.failing }
    ensures { Some result ≡ slice_get obligations.now.failing at }
{
    obligations.failing.as_slice()[at]
}

// one obligation, of the invariant at a place, by its failing bit
fn ask(trial: &Trial, at: usize, place: u32, bit: Bit) -> Result<Found, OutOfMemory>
    requires trial { IsTrial trial.now }
    requires of { IsDutyOf trial.now.obligations.now.list at place }
    requires bit { Some bit ≡ slice_get trial.now.obligations.now.failing at }
    ensures { IfOk result (IsFoundIn trial.now at place bit) }
{
    failing_bits_tell();
    failures_drop();
    let net = &trial.obligations.net;
    let _ = net.nodes();
    match decide_bit(trial.alloc, net, bit, trial.conflicts)? {
        Finding::NeverTrue(_) => Ok(Found::Holds),
        Finding::TrueUnder(_) => Ok(Found::Fails),
        Finding::Spent(spent) => Ok(Found::Spent(spent)),
    }
}

// the first open obligation stays
fn keep(first: Option<Open>, at: usize, spent: SpentAt) -> Option<Open>
    requires { at + 1 < 2 ^ 32 }
    ensures { IsKeptFirst first at spent result }
{
    match first {
        Some(open) => Some(open),
        None => Some(Open {
            number: at as u32 + 1,
            at: spent,
        }),
    }
}

// what the solver said of one more obligation, of the invariant at a place, by its failing bit
fn enter(trial: &Trial, at: usize, place: u32, bit: Bit, found: Found, mut round: Round) -> Round
    requires trial { IsTrial trial.now }
    requires of { IsDutyOf trial.now.obligations.now.list at place }
    requires bit { Some bit ≡ slice_get trial.now.obligations.now.failing at }
    requires found { IsFoundIn trial.now at place bit found }
    requires so_far { IsRoundOf trial.now at round }
    ensures { IsRoundOf trial.now (at + 1) result }
{
    duties_name_invariants();
    as_many_are_picked();
    failing_bits_tell();
    round.asked = round.asked.saturating_add(1);
    match found {
        Found::Holds => {
            raise_flag(&mut round.never, place_of_flag(bit));
            round
        }
        Found::Fails => {
            raise_flag(&mut round.dropped, place as usize);
            round.failed = round.asked;
            round
        }
        Found::Spent(spent) => {
            round.first = keep(round.first, at, spent);
            round
        }
    }
}

// one more obligation
fn step(trial: &Trial, at: usize, round: Round) -> Result<Round, OutOfMemory>
    requires trial { IsTrial trial.now }
    requires within { at < length trial.now.obligations.now.failing }
    requires so_far { IsRoundOf trial.now at round }
    ensures { IfOk result (IsRoundOf trial.now (at + 1)) }
{
    duties_name_invariants();
    as_many_are_picked();
    failing_bits_tell();
    let Some(place) = place_of(trial.obligations, at) else {
        return Ok(round);
    };
    if round.dropped[place as usize] {
        return Ok(round);
    }
    let bit = failing_at(trial.obligations, at);
    if is_known(&trial.obligations.net, &round.never, bit) {
        return Ok(round);
    }
    let found = ask(trial, at, place, bit)?;
    Ok(enter(trial, at, place, bit, found, round))
}

// an obligation fails, and the solver was asked as often after the last that does as up to it
fn is_enough(round: &Round) -> bool
    ensures { IsTrue result → 0 < round.now.failed }
{
    0 < round.failed && round.failed <= round.asked / 2
}

/// Decides the obligations of the invariants that are left, in their order, but for those of an invariant that fails
/// already and those that are known to hold. Where an obligation fails the round needn't be whole: it ends once the
/// solver was asked twice as often as up to the last that fails.
pub fn judge(trial: &Trial, never: Vec<bool>) -> Result<Round, OutOfMemory>
    requires trial { IsTrial trial.now }
    requires known { AreNever trial.now.obligations.now.net never.items }
    ensures { IfOk result (IsRoundOf trial.now (length trial.now.obligations.now.failing)) }
{
    let mut round = Round {
        dropped: vec![in trial.alloc; false; trial.left.len()]?,
        first: None,
        never,
        asked: 0,
        failed: 0,
    };
    for at in 0..trial.obligations.failing.len() {
        if is_enough(&round) {
            return Ok(round);
        }
        round = step(trial, at, round)?;
    }
    Ok(round)
}
