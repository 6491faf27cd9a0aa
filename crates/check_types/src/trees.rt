// Expressions, typed part by part. Each part is looked at once, after its own parts.
ghost use Rattle.std.specs.Prelude.{◌≡◌, IfOk, OnOk};
ghost use Rattle.c_core.specs.View.{expr_view as typed_view, exprs_view as typed_views};
ghost use Rattle.c_parser.specs.Tree as raw;
ghost use Rattle.c_parser.specs.Tree.{exps};
ghost use Rattle.c_parser.specs.View.{expr_view, exprs_view, node_view};
ghost use Rattle.check_rules.specs.Codes as codes;
ghost use Rattle.check_rules.specs.Noting.{noted_parts};
ghost use Rattle.check_rules.specs.Parts as part;
ghost use Rattle.check_rules.specs.Parts.{bodies_of};
ghost use Rattle.check_rules.specs.Roles.{role_of};
ghost use Rattle.check_rules.specs.Typed as typing;
ghost use Rattle.check_scope.specs.InScope.{all_of};
ghost use Rattle.check_scope.specs.Sources.{items_of};
ghost use Rattle.check_types.specs.Contexts.{items_in, bodies_in, entries_in};
ghost use Rattle.check_types.specs.Words.{word_at};

use crate::context::Context;
use crate::nodes;
use crate::own::note_own;
use crate::words::{Word, word_at};
use c_core::{BinOp, DataModel, Expr, IntType, Spot};
use c_parser::{RawExpr, RawNode};
use check_rules::{Refusal, Role};
use check_scope::{Functions, Table};
use std::alloc::Global;
use wv_base::{OutOfMemory, Seq};

// What is cast to void may be void.
fn role_of_cast(to: Option<IntType>) -> Role
    ensures { role_of result ≡ part.of_cast to }
{
    match to {
        Some(_) => Role::Value,
        None => Role::Effect,
    }
}

/// The typed tree of an expression, which stands there for its value, to be stored to or for its effect.
/// `best` is the first refusal so far, and goes on.
pub fn expression(
    alloc: Global,
    functions: &Functions,
    table: &Table,
    model: DataModel,
    best: &mut Option<Refusal>,
    role: Role,
    e: &RawExpr,
) -> Result<Expr, OutOfMemory>
    ensures typed { IfOk result (λ r. typed_view r
        ≡ typing.typed model (bodies_of (items_of functions.now)) (all_of table.now) (expr_view e.now)) }
    ensures noted { OnOk result (best.new
        ≡ noted_parts model (items_of functions.now) best.old
        (part.parts (all_of table.now) (role_of role) (expr_view e.now))) }
{
    let context = Context {
        alloc,
        functions,
        table,
        model,
    };
    let typed = whole(&context, best, role, e)?;
    Ok(typed)
}

// The same, within a context.
#[cycle(expression)]
fn whole(
    context: &Context,
    best: &mut Option<Refusal>,
    role: Role,
    e: &RawExpr,
) -> Result<Expr, OutOfMemory>
    ensures typed { IfOk result (λ r. typed_view r
        ≡ typing.typed context.now.model (bodies_in context.now) (entries_in context.now) (expr_view e.now)) }
    ensures noted { OnOk result (best.new
        ≡ noted_parts context.now.model (items_in context.now) best.old
        (part.parts (entries_in context.now) (role_of role) (expr_view e.now))) }
{
    let word = word_at(context.table, &e.node);
    let typed = node(context, best, e.spot, word, &e.node)?;
    *best = note_own(
        context.functions,
        context.table,
        context.model,
        *best,
        role,
        e,
        word,
        &typed,
    );
    Ok(typed)
}

// A node, whose parts are looked at, but not the node itself.
#[cycle(expression)]
fn node(
    context: &Context,
    best: &mut Option<Refusal>,
    spot: Spot,
    word: Word,
    node: &RawNode,
) -> Result<Expr, OutOfMemory>
    requires { word ≡ word_at (entries_in context.now) (codes.word_of (node_view node.now)) }
    ensures typed { IfOk result (λ r. typed_view r
        ≡ typing.typed_node context.now.model (bodies_in context.now) (entries_in context.now) spot
        (node_view node.now)) }
    ensures noted { OnOk result (best.new
        ≡ noted_parts context.now.model (items_in context.now) best.old (part.parts_in (entries_in context.now)
        (node_view node.now))) }
{
    match node {
        RawNode::Number {
            value,
            decimal,
            unsigned,
            longs,
        } => Ok(nodes::number(context.model, spot, *value, *decimal, *unsigned, *longs)),
        RawNode::Char(value) => Ok(nodes::character(spot, *value)),
        RawNode::Var { .. } => Ok(nodes::variable(spot, word)),
        RawNode::Index { at, .. } => {
            let at = values(context, best, at.as_slice())?;
            Ok(nodes::index(spot, word, at))
        }
        RawNode::Unary { op, of } => {
            let of = whole(context, best, Role::Value, of)?;
            let typed = nodes::unary(context.alloc, context.model, spot, *op, of)?;
            Ok(typed)
        }
        RawNode::Cast { to, of } => {
            let role = role_of_cast(*to);
            let of = whole(context, best, role, of)?;
            let typed = nodes::cast(context.alloc, spot, *to, of)?;
            Ok(typed)
        }
        RawNode::Step { op, target } => {
            let target = whole(context, best, Role::Target, target)?;
            let typed = nodes::step(context.alloc, spot, *op, target)?;
            Ok(typed)
        }
        RawNode::Binary { op, left, right } => binary(context, best, spot, *op, left, right),
        RawNode::Logic { both, left, right } => logic(context, best, spot, *both, left, right),
        RawNode::Choose {
            mark,
            test,
            yes,
            no,
        } => choice(context, best, spot, *mark, test, yes, no),
        RawNode::Comma { first, last } => comma(context, best, spot, first, last),
        RawNode::Assign { op, target, from } => assign(context, best, spot, *op, target, from),
        RawNode::Call {
            callee,
            args,
            close,
            ..
        } => {
            let args = values(context, best, args.as_slice())?;
            let callee = context.functions.callee(callee.as_str(), word.is_function);
            Ok(nodes::call(spot, word.result, callee, args, *close))
        }
    }
}

// A binary operator.
#[cycle(expression)]
fn binary(
    context: &Context,
    best: &mut Option<Refusal>,
    spot: Spot,
    op: BinOp,
    left: &RawExpr,
    right: &RawExpr,
) -> Result<Expr, OutOfMemory>
    ensures typed { IfOk result (λ r. typed_view r
        ≡ typing.typed_node context.now.model (bodies_in context.now) (entries_in context.now) spot
        (raw.Binary op (expr_view left.now) (expr_view right.now))) }
    ensures noted { OnOk result (best.new
        ≡ noted_parts context.now.model (items_in context.now) best.old (part.parts_in (entries_in context.now)
        (raw.Binary op (expr_view left.now) (expr_view right.now)))) }
{
    let left = whole(context, best, Role::Value, left)?;
    let right = whole(context, best, Role::Value, right)?;
    let typed = nodes::binary(context.alloc, context.model, spot, op, left, right)?;
    Ok(typed)
}

// `&&`, where `both` is true, or `||`.
#[cycle(expression)]
fn logic(
    context: &Context,
    best: &mut Option<Refusal>,
    spot: Spot,
    both: bool,
    left: &RawExpr,
    right: &RawExpr,
) -> Result<Expr, OutOfMemory>
    ensures typed { IfOk result (λ r. typed_view r
        ≡ typing.typed_node context.now.model (bodies_in context.now) (entries_in context.now) spot
        (raw.Logic both (expr_view left.now) (expr_view right.now))) }
    ensures noted { OnOk result (best.new
        ≡ noted_parts context.now.model (items_in context.now) best.old (part.parts_in (entries_in context.now)
        (raw.Logic both (expr_view left.now) (expr_view right.now)))) }
{
    let left = whole(context, best, Role::Value, left)?;
    let right = whole(context, best, Role::Value, right)?;
    let typed = nodes::logic(context.alloc, spot, both, left, right)?;
    Ok(typed)
}

// A conditional, whose arms may both be void.
#[cycle(expression)]
fn choice(
    context: &Context,
    best: &mut Option<Refusal>,
    spot: Spot,
    mark: Spot,
    test: &RawExpr,
    yes: &RawExpr,
    no: &RawExpr,
) -> Result<Expr, OutOfMemory>
    ensures typed { IfOk result (λ r. typed_view r
        ≡ typing.typed_node context.now.model (bodies_in context.now) (entries_in context.now) spot
        (raw.Choose mark (expr_view test.now) (expr_view yes.now) (expr_view no.now))) }
    ensures noted { OnOk result (best.new
        ≡ noted_parts context.now.model (items_in context.now) best.old (part.parts_in (entries_in context.now)
        (raw.Choose mark (expr_view test.now) (expr_view yes.now) (expr_view no.now)))) }
{
    let test = whole(context, best, Role::Value, test)?;
    let yes = whole(context, best, Role::Effect, yes)?;
    let no = whole(context, best, Role::Effect, no)?;
    let typed = nodes::choose(context.alloc, context.model, spot, mark, test, yes, no)?;
    Ok(typed)
}

// A comma operator, whose operands may be void.
#[cycle(expression)]
fn comma(
    context: &Context,
    best: &mut Option<Refusal>,
    spot: Spot,
    first: &RawExpr,
    last: &RawExpr,
) -> Result<Expr, OutOfMemory>
    ensures typed { IfOk result (λ r. typed_view r
        ≡ typing.typed_node context.now.model (bodies_in context.now) (entries_in context.now) spot
        (raw.Comma (expr_view first.now) (expr_view last.now))) }
    ensures noted { OnOk result (best.new
        ≡ noted_parts context.now.model (items_in context.now) best.old (part.parts_in (entries_in context.now)
        (raw.Comma (expr_view first.now) (expr_view last.now)))) }
{
    let first = whole(context, best, Role::Effect, first)?;
    let last = whole(context, best, Role::Effect, last)?;
    let typed = nodes::comma(context.alloc, spot, first, last)?;
    Ok(typed)
}

// An assignment, plain or compound.
#[cycle(expression)]
fn assign(
    context: &Context,
    best: &mut Option<Refusal>,
    spot: Spot,
    op: Option<BinOp>,
    target: &RawExpr,
    from: &RawExpr,
) -> Result<Expr, OutOfMemory>
    ensures typed { IfOk result (λ r. typed_view r
        ≡ typing.typed_node context.now.model (bodies_in context.now) (entries_in context.now) spot
        (raw.Assign op (expr_view target.now) (expr_view from.now))) }
    ensures noted { OnOk result (best.new
        ≡ noted_parts context.now.model (items_in context.now) best.old (part.parts_in (entries_in context.now)
        (raw.Assign op (expr_view target.now) (expr_view from.now)))) }
{
    let target = whole(context, best, Role::Target, target)?;
    let from = whole(context, best, Role::Value, from)?;
    let typed = nodes::assign(context.alloc, spot, op, target, from)?;
    Ok(typed)
}

// Expressions whose values are needed, one after another.
#[cycle(expression)]
fn values(
    context: &Context,
    best: &mut Option<Refusal>,
    es: &[RawExpr],
) -> Result<Seq<Expr>, OutOfMemory>
    ensures typed { IfOk result (λ r. typed_views r
        ≡ typing.typed_all context.now.model (bodies_in context.now) (entries_in context.now)
        (exps (exprs_view es.now))) }
    ensures noted { OnOk result (best.new
        ≡ noted_parts context.now.model (items_in context.now) best.old (part.parts_of (entries_in context.now)
        (exps (exprs_view es.now)))) }
{
    let mut all = Seq::new(context.alloc);
    for e in es {
        let typed = whole(context, best, Role::Value, e)?;
        all.push(typed)?;
    }
    Ok(all)
}
