// Expressions that carry their height, so that each node costs a comparison.
ghost use Rattle.std.specs.Prelude.{[], ◌∷◌, ◌++◌, OnOk, OnErr, ◌≡◌, ◌≤◌, ◌<◌, ◌+◌, ◌^◌, ℕ, IfOk, max};
ghost use Rattle.c_parser.specs.Tree as t;
ghost use Rattle.c_parser.specs.Signs.{joined};
ghost use Rattle.c_parser.specs.Heights.{height_in, heights};
ghost use Rattle.c_parser.specs.ReadExpressions.{grown};
ghost use Rattle.c_parser.specs.View.{expr_view, exprs_view, node_view};
ghost use Rattle.c_parser.specs.Gives.{Gives, Fits, FitsAll, joint_view};

use crate::cursor::Read;
use crate::fault::Unread;
use crate::look::Joint;
use crate::tree::{RawExpr, RawNode};
use c_core::{BinOp, Spot, StepOp};
use c_tokens::Token;
use std::alloc::Global;
use wv_base::{OutOfMemory, Seq, Text};

/// An expression with its height.
#[derive(Drop)]
pub struct Measured {
    pub expr: RawExpr,
    pub height: usize,
}

/// An expression in a box.
pub fn boxed(alloc: Global, expr: RawExpr) -> Result<Box<RawExpr>, OutOfMemory>
    ensures { IfOk result (λ b. b.value ≡ expr) }
{
    Ok(Box::new(alloc, expr)?)
}

/// A node whose parts have this height, unless that is above the limit.
pub fn grown<'a>(
    limit: usize,
    spot: Spot,
    node: RawNode,
    parts: usize,
    rest: &'a [Token],
) -> Read<'a, Measured>
    requires limit { limit < 2 ^ 15 }
    requires parts { parts ≡ height_in (node_view node) }
    ensures { Gives (limit + 1) result (grown limit spot (node_view node) rest.now) }
{
    if parts > limit {
        return Err(Unread::Unspelled);
    }
    let expr = RawExpr { spot, node };
    let height = parts + 1;
    Ok((Measured { expr, height }, rest))
}

/// Two operands and what joins them.
pub fn joined<'a>(
    alloc: Global,
    limit: usize,
    spot: Spot,
    joint: Joint,
    left: Measured,
    right: Measured,
    rest: &'a [Token],
) -> Read<'a, Measured>
    requires limit { limit < 2 ^ 15 }
    requires left { Fits (limit + 1) left }
    requires right { Fits limit right }
    ensures { Gives (limit + 1) result (grown limit spot (joined (joint_view joint) (expr_view left.expr)
        (expr_view right.expr)) rest.now) }
{
    let parts = left.height.max(right.height);
    let left = boxed(alloc, left.expr)?;
    let right = boxed(alloc, right.expr)?;
    let node = match joint {
        Joint::Sequence => RawNode::Comma {
            first: left,
            last: right,
        },
        Joint::Both => RawNode::Logic {
            both: true,
            left,
            right,
        },
        Joint::Either => RawNode::Logic {
            both: false,
            left,
            right,
        },
        Joint::Plain(op) => RawNode::Binary { op, left, right },
    };
    let got = grown(limit, spot, node, parts, rest)?;
    Ok(got)
}

/// An assignment.
pub fn assigned<'a>(
    alloc: Global,
    limit: usize,
    spot: Spot,
    op: Option<BinOp>,
    left: Measured,
    right: Measured,
    rest: &'a [Token],
) -> Read<'a, Measured>
    requires limit { limit < 2 ^ 15 }
    requires left { Fits (limit + 1) left }
    requires right { Fits limit right }
    ensures { Gives (limit + 1) result (grown limit spot (t.Assign op (expr_view left.expr) (expr_view right.expr))
        rest.now) }
{
    let parts = left.height.max(right.height);
    let node = RawNode::Assign {
        op,
        target: boxed(alloc, left.expr)?,
        from: boxed(alloc, right.expr)?,
    };
    let got = grown(limit, spot, node, parts, rest)?;
    Ok(got)
}

/// A conditional expression.
pub fn chosen<'a>(
    alloc: Global,
    limit: usize,
    spot: Spot,
    mark: Spot,
    test: Measured,
    yes: Measured,
    no: Measured,
    rest: &'a [Token],
) -> Read<'a, Measured>
    requires limit { limit < 2 ^ 15 }
    requires test { Fits (limit + 1) test }
    requires yes { Fits limit yes }
    requires no { Fits limit no }
    ensures { Gives (limit + 1) result (grown limit spot (t.Choose mark (expr_view test.expr) (expr_view yes.expr)
        (expr_view no.expr)) rest.now) }
{
    let parts = test.height.max(yes.height.max(no.height));
    let node = RawNode::Choose {
        mark,
        test: boxed(alloc, test.expr)?,
        yes: boxed(alloc, yes.expr)?,
        no: boxed(alloc, no.expr)?,
    };
    let got = grown(limit, spot, node, parts, rest)?;
    Ok(got)
}

/// A step before or after its target.
pub fn stepped<'a>(
    alloc: Global,
    limit: usize,
    spot: Spot,
    op: StepOp,
    target: Measured,
    rest: &'a [Token],
) -> Read<'a, Measured>
    requires limit { limit < 2 ^ 15 }
    requires target { Fits (limit + 1) target }
    ensures { Gives (limit + 1) result (grown limit spot (t.Step op (expr_view target.expr)) rest.now) }
{
    let parts = target.height;
    let node = RawNode::Step {
        op,
        target: boxed(alloc, target.expr)?,
    };
    let got = grown(limit, spot, node, parts, rest)?;
    Ok(got)
}

/// An expression without parts.
pub fn leaf(spot: Spot, node: RawNode) -> Measured
    requires { height_in (node_view node) ≡ 0 }
    ensures expr { expr_view result.expr ≡ t.Expr spot (node_view node) }
    ensures height { result.height ≡ 1 }
{
    let expr = RawExpr { spot, node };
    Measured { expr, height: 1 }
}

/// Expressions with their greatest height.
#[derive(Drop)]
pub struct MeasuredRow {
    pub exprs: Seq<RawExpr>,
    pub height: usize,
}

impl MeasuredRow {
    /// No expressions.
    pub fn new(alloc: Global) -> MeasuredRow
        ensures { (result.exprs ≡ []) × (result.height ≡ 0) }
    {
        MeasuredRow {
            exprs: Seq::new(alloc),
            height: 0,
        }
    }

    /// Adds an expression; the height is that of the highest.
    pub fn push(&mut self, last: Measured) -> Result<(), OutOfMemory>
        ensures exprs { OnOk result (self.new.exprs ≡ self.old.exprs ++ last.expr ∷ []) }
        ensures height { OnOk result (self.new.height ≡ max self.old.height last.height) }
    {
        self.exprs.push(last.expr)?;
        self.height = self.height.max(last.height);
        Ok(())
    }
}

/// An element of an array with its indexes.
pub fn element_of(
    alloc: Global,
    spot: Spot,
    word: &str,
    indexes: MeasuredRow,
) -> Result<Measured, OutOfMemory>
    requires { indexes.height < 2 ^ 15 }
    ensures expr { IfOk result (λ e. expr_view e.expr
        ≡ t.Expr spot (t.Index word.now spot (t.exps (exprs_view indexes.exprs)))) }
    ensures height { IfOk result (λ e. e.height ≡ indexes.height + 1) }
{
    let height = indexes.height + 1;
    let node = RawNode::Index {
        object: Text::of(alloc, word)?,
        word: spot,
        at: indexes.exprs,
    };
    let expr = RawExpr { spot, node };
    Ok(Measured { expr, height })
}

/// A call with its arguments and the place of its closing parenthesis.
pub fn call_of(
    alloc: Global,
    spot: Spot,
    word: &str,
    arguments: MeasuredRow,
    close: Spot,
) -> Result<Measured, OutOfMemory>
    requires { arguments.height < 2 ^ 15 }
    ensures expr { IfOk result (λ e. expr_view e.expr
        ≡ t.Expr spot (t.Call word.now spot (t.exps (exprs_view arguments.exprs)) close)) }
    ensures height { IfOk result (λ e. e.height ≡ arguments.height + 1) }
{
    let height = arguments.height + 1;
    let node = RawNode::Call {
        callee: Text::of(alloc, word)?,
        word: spot,
        args: arguments.exprs,
        close,
    };
    let expr = RawExpr { spot, node };
    Ok(Measured { expr, height })
}
