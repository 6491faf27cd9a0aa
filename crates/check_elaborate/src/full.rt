// Full expressions (C11 6.8p4).
ghost use Rattle.std.specs.Prelude.{◌≡◌, IfOk, OnOk};
ghost use Rattle.std.specs.Option.{option_map};
ghost use Rattle.c_core.specs.View.{expr_view as typed_view, expr_view_if as typed_view_if};
ghost use Rattle.c_parser.specs.View.{expr_view};
ghost use Rattle.check_rules.specs.Checked as checked;
ghost use Rattle.check_rules.specs.Parts as part;
ghost use Rattle.check_rules.specs.Roles.{role_of};
ghost use Rattle.check_rules.specs.Scopes.{seen};
ghost use Rattle.check_rules.specs.Typed as typing;
ghost use Rattle.check_elaborate.specs.Walks.{scope_at, bodies_in, IsNoted};

use crate::context::Context;
use crate::walk::Walk;
use c_core::Expr;
use c_parser::RawExpr;
use check_rules::Role;
use check_types::expression;
use wv_base::OutOfMemory;

/// An expression that is part of no other.
pub fn full(
    context: &Context,
    walk: &mut Walk,
    role: Role,
    e: &RawExpr,
) -> Result<Expr, OutOfMemory>
    ensures typed { IfOk result (λ r. typed_view r
        ≡ typing.typed context.now.model (bodies_in context.now) (seen (scope_at walk.old)) (expr_view e.now)) }
    ensures scope { OnOk result (scope_at walk.new ≡ scope_at walk.old) }
    ensures noted { OnOk result (IsNoted context.now walk.old walk.new
        (part.parts (seen (scope_at walk.old)) (role_of role) (expr_view e.now))) }
{
    let typed = expression(
        context.alloc,
        context.functions,
        &walk.table,
        context.model,
        &mut walk.best,
        role,
        e,
    )?;
    Ok(typed)
}

/// The same, where one stands.
pub fn full_if(
    context: &Context,
    walk: &mut Walk,
    role: Role,
    e: &Option<RawExpr>,
) -> Result<Option<Expr>, OutOfMemory>
    ensures typed { IfOk result (λ r. typed_view_if r
        ≡ checked.typed_if context.now.model (bodies_in context.now) (seen (scope_at walk.old))
        (option_map expr_view e.now)) }
    ensures scope { OnOk result (scope_at walk.new ≡ scope_at walk.old) }
    ensures noted { OnOk result (IsNoted context.now walk.old walk.new
        (part.parts_if (seen (scope_at walk.old)) (role_of role) (option_map expr_view e.now))) }
{
    match e {
        None => Ok(None),
        Some(e) => {
            let typed = full(context, walk, role, e)?;
            Ok(Some(typed))
        }
    }
}
