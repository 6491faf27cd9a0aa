// What expressions weigh and draw, and the functions that they call.
ghost use Rattle.std.specs.Prelude.{◌≡◌, ◌++◌, drop, slice_get, IfOk, OnOk};
ghost use Rattle.c_core.specs.View.{expr_view, expr_view_if, exprs_view, node_view, program_view};
ghost use Rattle.sym_weight.specs.Sum as sums;
ghost use Rattle.sym_weight.specs.Table as table;
ghost use Rattle.sym_weight.specs.Tally as tally;
ghost use Rattle.sym_weight.specs.Tally.{capped, tallying};
ghost use Rattle.sym_weight.specs.Weight.{weighing};

use crate::cost::{Cost, draws, nothing, plus, weighs};
use crate::table::{node_bits, node_work, stored};
use c_core::{Callee, DataModel, Expr, IntType, Node, Program};
use c_meaning::{type_of, type_of_object};
use std::alloc::Global;
use wv_base::OutOfMemory;

// An argument, where there is one for the parameter.
fn passed_one(program: &Program, parameter: u32, args: &[Expr], index: usize) -> u64
    ensures { result ≡ table.passed_first (program_view program.now) parameter (exprs_view (drop index args.now)) }
{
    match args.get(index) {
        Some(e) => stored(
            program.model,
            type_of(e),
            type_of_object(program, parameter),
        ),
        None => 0,
    }
}

fn passed(program: &Program, params: &[u32], args: &[Expr]) -> Cost
    ensures { result ≡ tally.cost (table.passed (program_view program.now) params.now (exprs_view args.now)) 0 }
{
    let mut sum = 0u64;
    for (index, parameter) in params.iter().enumerate() {
        sum = sum.saturating_add(passed_one(program, *parameter, args, index));
    }
    Cost {
        weight: sum,
        bits: 0,
    }
}

fn passed_to_exit(model: DataModel, args: &[Expr]) -> Cost
    ensures { result ≡ tally.cost (table.passed_to_exit model (exprs_view args.now)) 0 }
{
    match args.first() {
        Some(e) => weighs(stored(model, type_of(e), IntType::Int)),
        None => nothing(),
    }
}

fn params_of(program: &Program, function: u32) -> &[u32]
    ensures { result.now ≡ table.params_of (slice_get (program_view program.now).functions function) }
{
    match program.functions.get(function as usize) {
        Some(function) => function.params.as_slice(),
        None => &[],
    }
}

/// What the arguments of a call weigh as they are put into the parameters of a function, by its number.
pub fn parameters_weight(program: &Program, function: u32, args: &[Expr]) -> u64
    ensures { result ≡ capped (table.passed (program_view program.now)
        (table.params_of (slice_get (program_view program.now).functions function)) (exprs_view args.now)) }
{
    passed(program, params_of(program, function), args).weight
}

/// What the argument of `exit` weighs as it is put into the parameter.
pub fn exit_weight(model: DataModel, args: &[Expr]) -> u64
    ensures { result ≡ capped (table.passed_to_exit model (exprs_view args.now)) }
{
    passed_to_exit(model, args).weight
}

fn called(
    program: &Program,
    calls: &mut Vec<u32>,
    callee: Callee,
    args: &[Expr],
) -> Result<Cost, OutOfMemory>
    ensures cost { IfOk result (λ c. c
        ≡ (sums.called (program_view program.now) tallying callee (exprs_view args.now)).cost) }
    ensures calls { OnOk result (calls.new.items
        ≡ calls.old.items ++ (sums.called (program_view program.now) tallying callee (exprs_view args.now)).calls) }
{
    match callee {
        Callee::Defined(function) => {
            calls.push(function)?;
            Ok(passed(program, params_of(program, function), args))
        }
        Callee::Exit => Ok(passed_to_exit(program.model, args)),
        _ => Ok(nothing()),
    }
}

/// What an expression weighs; its calls are noted.
#[cycle(expression)]
pub fn expression(program: &Program, calls: &mut Vec<u32>, e: &Expr) -> Result<Cost, OutOfMemory>
    ensures cost { IfOk result (λ c. c ≡ (sums.expression (program_view program.now) tallying (expr_view e.now)).cost) }
    ensures calls { OnOk result (calls.new.items
        ≡ calls.old.items ++ (sums.expression (program_view program.now) tallying (expr_view e.now)).calls) }
{
    let own = draws(
        16 + node_work(program, e.ty, &e.node),
        node_bits(program, &e.node),
    );
    let inner = operands(program, calls, &e.node)?;
    Ok(plus(own, inner))
}

#[cycle(expression)]
fn operands(program: &Program, calls: &mut Vec<u32>, node: &Node) -> Result<Cost, OutOfMemory>
    ensures cost { IfOk result (λ c. c
        ≡ (sums.operands (program_view program.now) tallying (node_view node.now)).cost) }
    ensures calls { OnOk result (calls.new.items
        ≡ calls.old.items ++ (sums.operands (program_view program.now) tallying (node_view node.now)).calls) }
{
    match node {
        Node::Const(_) => Ok(nothing()),
        Node::Var(_) => Ok(nothing()),
        Node::Index { at, .. } => {
            let inner = arguments(program, calls, at.as_slice())?;
            Ok(inner)
        }
        Node::Unary { of, .. } => expression(program, calls, of),
        Node::Cast(of) => expression(program, calls, of),
        Node::Step { target: of, .. } => target(program, calls, of),
        Node::Binary { left, right, .. } => {
            let left = expression(program, calls, left)?;
            let right = expression(program, calls, right)?;
            Ok(plus(left, right))
        }
        Node::Logic { left, right, .. } => {
            let left = expression(program, calls, left)?;
            let right = expression(program, calls, right)?;
            Ok(plus(left, right))
        }
        Node::Choose { test, yes, no, .. } => {
            let test = expression(program, calls, test)?;
            let yes = expression(program, calls, yes)?;
            let no = expression(program, calls, no)?;
            Ok(plus(test, plus(yes, no)))
        }
        Node::Comma { first, last } => {
            let first = expression(program, calls, first)?;
            let last = expression(program, calls, last)?;
            Ok(plus(first, last))
        }
        Node::Assign {
            target: to,
            from,
            ..
        } => {
            let to = target(program, calls, to)?;
            let from = expression(program, calls, from)?;
            Ok(plus(to, from))
        }
        Node::Call { callee, args, .. } => {
            let args = args.as_slice();
            let values = arguments(program, calls, args)?;
            let body = called(program, calls, *callee, args)?;
            Ok(plus(values, body))
        }
    }
}

// What an assignment or a step puts its value into.
#[cycle(expression)]
fn target(program: &Program, calls: &mut Vec<u32>, e: &Expr) -> Result<Cost, OutOfMemory>
    ensures cost { IfOk result (λ c. c ≡ (sums.target (program_view program.now) tallying (expr_view e.now)).cost) }
    ensures calls { OnOk result (calls.new.items
        ≡ calls.old.items ++ (sums.target (program_view program.now) tallying (expr_view e.now)).calls) }
{
    let indexes = indexes_of(program, calls, &e.node)?;
    Ok(plus(weighs(16), indexes))
}

#[cycle(expression)]
fn indexes_of(program: &Program, calls: &mut Vec<u32>, node: &Node) -> Result<Cost, OutOfMemory>
    ensures cost { IfOk result (λ c. c
        ≡ (sums.indexes_of (program_view program.now) tallying (node_view node.now)).cost) }
    ensures calls { OnOk result (calls.new.items
        ≡ calls.old.items ++ (sums.indexes_of (program_view program.now) tallying (node_view node.now)).calls) }
{
    match node {
        Node::Index { at, .. } => {
            let inner = arguments(program, calls, at.as_slice())?;
            Ok(inner)
        }
        _ => Ok(nothing()),
    }
}

#[cycle(expression)]
fn arguments(program: &Program, calls: &mut Vec<u32>, args: &[Expr]) -> Result<Cost, OutOfMemory>
    ensures cost { IfOk result (λ c. c
        ≡ (sums.arguments (program_view program.now) tallying (exprs_view args.now)).cost) }
    ensures calls { OnOk result (calls.new.items
        ≡ calls.old.items ++ (sums.arguments (program_view program.now) tallying (exprs_view args.now)).calls) }
{
    let mut sum = nothing();
    for e in args {
        let value = expression(program, calls, e)?;
        sum = plus(sum, value);
    }
    Ok(sum)
}

/// What an expression weighs without the bodies of the functions that it calls.
pub fn weight_of(alloc: Global, program: &Program, e: &Expr) -> Result<u64, OutOfMemory>
    ensures { IfOk result (λ w. w ≡ capped (sums.expression (program_view program.now) (weighing (λ f. 0))
        (expr_view e.now))) }
{
    let mut calls = Vec::new(alloc);
    let cost = expression(program, &mut calls, e)?;
    Ok(cost.weight)
}
