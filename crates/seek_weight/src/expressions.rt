// What expressions weigh.
ghost use Rattle.std.specs.Prelude.{◌≡◌, ℕ, cond};
ghost use Rattle.c_core.specs.View.{expr_view, exprs_view, node_view};
ghost use Rattle.c_meaning.specs.Duties.{node_may_overflow};
ghost use Rattle.seek_weight.specs.SeekWeight as sums;
ghost use Rattle.seek_weight.specs.inside.Weighing.{IsReady, beneath_in, in_walk};
ghost use Rattle.sym_weight.specs.Tally.{capped};

use crate::walk::{Walk, call_toll, plus, test_toll, total_at};
use c_core::{Callee, DataModel, Expr, Node};
use c_duties::node_may_overflow;
use sym_weight::{exit_weight, node_work, parameters_weight};

fn risk(model: DataModel, node: &Node) -> u64
    ensures { result ≡ cond (node_may_overflow model (node_view node.now)) 64 0 }
{
    if node_may_overflow(model, node) {
        64
    } else {
        0
    }
}

// A call of a defined function after its arguments, where it isn't too deep.
fn body_weight(walk: Walk, function: u32, parameters: u64) -> u64
    requires { IsReady walk }
    ensures { (params : ℕ) → parameters ≡ capped params
        → result ≡ capped (beneath_in walk.entry params function) }
{
    if walk.depth == 0 {
        0
    } else {
        plus(parameters, total_at(walk.totals, function))
    }
}

fn called(walk: Walk, callee: Callee, args: &[Expr]) -> u64
    requires { IsReady walk }
    ensures { result ≡ capped (in_walk sums.called walk.entry callee (exprs_view args.now)) }
{
    match callee {
        Callee::Defined(function) => {
            let parameters = parameters_weight(walk.program, function, args);
            body_weight(walk, function, parameters)
        }
        Callee::Exit => exit_weight(walk.program.model, args),
        _ => 0,
    }
}

/// What an expression weighs.
#[cycle(expression)]
pub fn expression(walk: Walk, e: &Expr) -> u64
    requires { IsReady walk }
    ensures { result ≡ capped (in_walk sums.expression walk.entry (expr_view e.now)) }
{
    let own = 16 + node_work(walk.program, e.ty, &e.node);
    let inner = operands(walk, &e.node);
    plus(own, plus(risk(walk.program.model, &e.node), inner))
}

#[cycle(expression)]
fn operands(walk: Walk, node: &Node) -> u64
    requires { IsReady walk }
    ensures { result ≡ capped (in_walk sums.operands walk.entry (node_view node.now)) }
{
    match node {
        Node::Const(_) => 0,
        Node::Var(_) => 0,
        Node::Index { at, .. } => arguments(walk, at.as_slice()),
        Node::Unary { of, .. } => expression(walk, of),
        Node::Cast(of) => expression(walk, of),
        Node::Step { target: of, .. } => target(walk, of),
        Node::Binary { left, right, .. } => plus(expression(walk, left), expression(walk, right)),
        Node::Logic { left, right, .. } => plus(expression(walk, left), expression(walk, right)),
        Node::Choose {
            mark,
            test,
            yes,
            no,
        } => {
            let arms = plus(expression(walk, yes), expression(walk, no));
            plus(test_toll(walk, *mark), plus(expression(walk, test), arms))
        }
        Node::Comma { first, last } => plus(expression(walk, first), expression(walk, last)),
        Node::Assign {
            target: to,
            from,
            ..
        } => plus(target(walk, to), expression(walk, from)),
        Node::Call {
            callee,
            args,
            close,
        } => {
            let args = args.as_slice();
            let values = arguments(walk, args);
            let body = called(walk, *callee, args);
            plus(call_toll(walk, *close), plus(values, body))
        }
    }
}

// What an assignment or a step puts its value into.
#[cycle(expression)]
fn target(walk: Walk, e: &Expr) -> u64
    requires { IsReady walk }
    ensures { result ≡ capped (in_walk sums.target walk.entry (expr_view e.now)) }
{
    plus(16, indexes_of(walk, &e.node))
}

#[cycle(expression)]
fn indexes_of(walk: Walk, node: &Node) -> u64
    requires { IsReady walk }
    ensures { result ≡ capped (in_walk sums.indexes_of walk.entry (node_view node.now)) }
{
    match node {
        Node::Index { at, .. } => arguments(walk, at.as_slice()),
        _ => 0,
    }
}

#[cycle(expression)]
fn arguments(walk: Walk, args: &[Expr]) -> u64
    requires { IsReady walk }
    ensures { result ≡ capped (in_walk sums.arguments walk.entry (exprs_view args.now)) }
{
    let mut sum = 0u64;
    for e in args {
        sum = plus(sum, expression(walk, e));
    }
    sum
}
