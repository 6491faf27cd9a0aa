// Typed expressions, made of typed parts.
ghost use Rattle.std.specs.Prelude.{◌≡◌, pos, Some, IfOk};
ghost use Rattle.c_core.specs.Tree as t;
ghost use Rattle.c_core.specs.Typing as typing;
ghost use Rattle.c_core.specs.View.{expr_view, exprs_view};
ghost use Rattle.c_core.specs.declared.number.IntType.TheVariants.{Int};
ghost use Rattle.check_rules.specs.Constants as constants;
ghost use Rattle.check_rules.specs.Typed as typed;

use crate::literals::constant_type;
use crate::operators::{binary_type, choice_type, unary_type, valued};
use crate::words::Word;
use c_core::{BinOp, Callee, DataModel, Expr, IntType, Node, Spot, StepOp, UnOp};
use std::alloc::Global;
use wv_base::{OutOfMemory, Seq};

/// An integer constant. One that no type holds counts as an `int`.
pub fn number(
    model: DataModel,
    spot: Spot,
    value: u64,
    decimal: bool,
    unsigned: bool,
    longs: u8,
) -> Expr
    ensures { expr_view result ≡ t.Expr spot
        (Some (constants.valued (constants.constant_type model value decimal unsigned longs))) (t.Const (pos value)) }
{
    let ty = valued(constant_type(model, value, decimal, unsigned, longs));
    Expr {
        spot,
        ty: Some(ty),
        node: Node::Const(i128::from(value)),
    }
}

/// A character constant is an `int` (C11 6.4.4.4p10).
pub fn character(spot: Spot, value: i32) -> Expr
    ensures { expr_view result ≡ t.Expr spot (Some Int) (t.Const value) }
{
    Expr {
        spot,
        ty: Some(IntType::Int),
        node: Node::Const(i128::from(value)),
    }
}

/// An object by its name.
pub fn variable(spot: Spot, word: Word) -> Expr
    ensures { expr_view result ≡ t.Expr spot (Some word.ty) (t.Var word.number) }
{
    Expr {
        spot,
        ty: Some(word.ty),
        node: Node::Var(word.number),
    }
}

/// An element of an array.
pub fn index(spot: Spot, word: Word, at: Seq<Expr>) -> Expr
    ensures { expr_view result ≡ t.Expr spot (Some word.ty) (t.Index word.number (exprs_view at)) }
{
    Expr {
        spot,
        ty: Some(word.ty),
        node: Node::Index {
            object: word.number,
            at,
        },
    }
}

/// A unary operator, with the type of its value.
pub fn unary(
    alloc: Global,
    model: DataModel,
    spot: Spot,
    op: UnOp,
    of: Expr,
) -> Result<Expr, OutOfMemory>
    ensures { IfOk result (λ r. expr_view r
        ≡ t.Expr spot (Some (typed.unary_type op (constants.valued of.ty))) (t.Unary op (expr_view of))) }
{
    let ty = unary_type(model, op, valued(of.ty));
    let node = Node::Unary {
        op,
        of: Box::new(alloc, of)?,
    };
    Ok(Expr {
        spot,
        ty: Some(ty),
        node,
    })
}

/// A cast.
pub fn cast(alloc: Global, spot: Spot, to: Option<IntType>, of: Expr) -> Result<Expr, OutOfMemory>
    ensures { IfOk result (λ r. expr_view r ≡ t.Expr spot to (t.Cast (expr_view of))) }
{
    let node = Node::Cast(Box::new(alloc, of)?);
    Ok(Expr { spot, ty: to, node })
}

/// A step of a target.
pub fn step(alloc: Global, spot: Spot, op: StepOp, target: Expr) -> Result<Expr, OutOfMemory>
    ensures { IfOk result (λ r. expr_view r
        ≡ t.Expr spot (Some (constants.valued target.ty)) (t.Step op (expr_view target))) }
{
    let ty = valued(target.ty);
    let node = Node::Step {
        op,
        target: Box::new(alloc, target)?,
    };
    Ok(Expr {
        spot,
        ty: Some(ty),
        node,
    })
}

/// A binary operator, with the type of its value.
pub fn binary(
    alloc: Global,
    model: DataModel,
    spot: Spot,
    op: BinOp,
    left: Expr,
    right: Expr,
) -> Result<Expr, OutOfMemory>
    ensures { IfOk result (λ r. expr_view r
        ≡ t.Expr spot (Some (typing.binary_type model op (constants.valued left.ty) (constants.valued right.ty)))
        (t.Binary op (expr_view left) (expr_view right))) }
{
    let ty = binary_type(model, op, valued(left.ty), valued(right.ty));
    let node = Node::Binary {
        op,
        left: Box::new(alloc, left)?,
        right: Box::new(alloc, right)?,
    };
    Ok(Expr {
        spot,
        ty: Some(ty),
        node,
    })
}

/// `&&`, where `both` is true, or `||`.
pub fn logic(
    alloc: Global,
    spot: Spot,
    both: bool,
    left: Expr,
    right: Expr,
) -> Result<Expr, OutOfMemory>
    ensures { IfOk result (λ r. expr_view r
        ≡ t.Expr spot (Some Int) (t.Logic both (expr_view left) (expr_view right))) }
{
    let node = Node::Logic {
        both,
        left: Box::new(alloc, left)?,
        right: Box::new(alloc, right)?,
    };
    Ok(Expr {
        spot,
        ty: Some(IntType::Int),
        node,
    })
}

/// A conditional, with the common type of its arms.
pub fn choose(
    alloc: Global,
    model: DataModel,
    spot: Spot,
    mark: Spot,
    test: Expr,
    yes: Expr,
    no: Expr,
) -> Result<Expr, OutOfMemory>
    ensures { IfOk result (λ r. expr_view r
        ≡ t.Expr spot (typed.choice_type model yes.ty no.ty)
        (t.Choose mark (expr_view test) (expr_view yes) (expr_view no))) }
{
    let ty = choice_type(model, yes.ty, no.ty);
    let node = Node::Choose {
        mark,
        test: Box::new(alloc, test)?,
        yes: Box::new(alloc, yes)?,
        no: Box::new(alloc, no)?,
    };
    Ok(Expr { spot, ty, node })
}

/// A comma operator.
pub fn comma(alloc: Global, spot: Spot, first: Expr, last: Expr) -> Result<Expr, OutOfMemory>
    ensures { IfOk result (λ r. expr_view r ≡ t.Expr spot last.ty (t.Comma (expr_view first) (expr_view last))) }
{
    let ty = last.ty;
    let node = Node::Comma {
        first: Box::new(alloc, first)?,
        last: Box::new(alloc, last)?,
    };
    Ok(Expr { spot, ty, node })
}

/// An assignment, plain or compound.
pub fn assign(
    alloc: Global,
    spot: Spot,
    op: Option<BinOp>,
    target: Expr,
    from: Expr,
) -> Result<Expr, OutOfMemory>
    ensures { IfOk result (λ r. expr_view r
        ≡ t.Expr spot (Some (constants.valued target.ty)) (t.Assign op (expr_view target) (expr_view from))) }
{
    let ty = valued(target.ty);
    let node = Node::Assign {
        op,
        target: Box::new(alloc, target)?,
        from: Box::new(alloc, from)?,
    };
    Ok(Expr {
        spot,
        ty: Some(ty),
        node,
    })
}

/// A call.
pub fn call(spot: Spot, ty: Option<IntType>, callee: Callee, args: Seq<Expr>, close: Spot) -> Expr
    ensures { expr_view result ≡ t.Expr spot ty (t.Call callee (exprs_view args) close) }
{
    Expr {
        spot,
        ty,
        node: Node::Call {
            callee,
            args,
            close,
        },
    }
}
