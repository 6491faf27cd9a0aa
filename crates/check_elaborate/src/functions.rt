// Functions with a body.
ghost use Rattle.std.specs.Prelude.{◌≡◌, false, map, IfOk, OnOk};
ghost use Rattle.c_core.specs.View.{function_view, stmts_view};
ghost use Rattle.c_parser.specs.SourceView.{param_view, stmt_view};
ghost use Rattle.c_parser.specs.Tree as raw;
ghost use Rattle.c_parser.specs.Tree.{stms};
ghost use Rattle.check_rules.specs.Checked as checked;
ghost use Rattle.check_rules.specs.Kept.{kept_of_parts};
ghost use Rattle.check_rules.specs.Parts as part;
ghost use Rattle.check_rules.specs.Scopes as scopes;
ghost use Rattle.check_elaborate.specs.Items.{kept_views};
ghost use Rattle.check_elaborate.specs.Walks.{scope_at, bodies_in, IsJudged};

use crate::context::Context;
use crate::forms::block_of;
use crate::labels::note_labels;
use crate::naming::declare;
use crate::parameters::parameters;
use crate::statements::statements;
use crate::walk::Walk;
use c_core::{Function, IntType, Spot, Stmt};
use c_parser::{RawForm, RawParam, RawStmt};
use check_rules::Within;
use check_scope::{Known, Stated};
use check_sequencing::Kept;
use wv_base::{OutOfMemory, Seq, Text};

const IN_BODY: Within = Within {
    breaks: false,
    continues: false,
};

/// A function, with the full expressions that its tree doesn't hold.
#[derive(Drop)]
pub struct Defined {
    pub function: Function,
    pub kept: Seq<Kept>,
}

// What stands in a body.
#[derive(Drop)]
struct Body {
    statements: Seq<Stmt>,
    kept: Seq<Kept>,
}

// The statements of a body.
fn statements_in(body: &RawStmt) -> &[RawStmt]
    ensures { stms (map stmt_view result.now) ≡ scopes.statements_of (stmt_view body.now) }
{
    match &body.form {
        RawForm::Block(ss) => ss.as_slice(),
        _ => &[],
    }
}

// The statements of a body. What is kept of it is kept apart.
fn body_of<'a>(
    context: &Context,
    walk: &mut Walk<'a>,
    gives: Option<IntType>,
    body: &'a RawStmt,
) -> Result<Body, OutOfMemory>
    ensures typed { IfOk result (λ r. stmts_view r.statements
        ≡ checked.typed_block context.now.model (bodies_in context.now) (scope_at walk.old)
        (scopes.statements_of (stmt_view body.now))) }
    ensures scope { OnOk result (scope_at walk.new
        ≡ scopes.after_block context.now.model (bodies_in context.now) (scope_at walk.old)
        (scopes.statements_of (stmt_view body.now))) }
    ensures noted { OnOk result
        (IsJudged context.now walk.old walk.new
        (part.parts_of_block context.now.model (bodies_in context.now) gives part.in_body (scope_at walk.old)
        (scopes.statements_of (stmt_view body.now)))) }
    ensures kept { IfOk result (λ r. kept_views r.kept
        ≡ kept_of_parts context.now.model (bodies_in context.now)
        (part.parts_of_block context.now.model (bodies_in context.now) gives part.in_body (scope_at walk.old)
        (scopes.statements_of (stmt_view body.now)))) }
    ensures outside { OnOk result (walk.new.kept ≡ walk.old.kept) }
{
    let empty = Seq::new(context.alloc);
    let outside = walk.set_kept(empty);
    let statements = statements(context, walk, gives, IN_BODY, statements_in(body))?;
    let kept = walk.set_kept(outside);
    Ok(Body { statements, kept })
}

/// A function with a body.
pub fn function<'a>(
    context: &Context,
    walk: &mut Walk<'a>,
    spot: Spot,
    name: &'a Text,
    gives: Option<IntType>,
    xs: &'a [RawParam],
    body: &'a RawStmt,
) -> Result<Defined, OutOfMemory>
    ensures name { IfOk result (λ r. r.function.name ≡ name.now) }
    ensures typed { IfOk result (λ r. function_view r.function
        ≡ checked.typed_function context.now.model (bodies_in context.now) (scope_at walk.old) name.now gives
        (map param_view xs.now) (stmt_view body.now)) }
    ensures scope { OnOk result (scope_at walk.new
        ≡ scopes.after_item context.now.model (bodies_in context.now) (scope_at walk.old)
        (raw.Function spot name.now gives (map param_view xs.now) (stmt_view body.now))) }
    ensures noted { OnOk result (IsJudged context.now walk.old walk.new
        (part.parts_of_item context.now.model (bodies_in context.now) (scope_at walk.old)
        (raw.Function spot name.now gives (map param_view xs.now) (stmt_view body.now)))) }
    ensures kept { IfOk result (λ r. kept_views r.kept
        ≡ kept_of_parts context.now.model (bodies_in context.now)
        (part.parts_of_body context.now.model (bodies_in context.now) (scope_at walk.old) name.now gives
        (map param_view xs.now) (stmt_view body.now))) }
    ensures outside { OnOk result (kept_views walk.new.kept ≡ kept_views walk.old.kept) }
{
    let known = Known::Function {
        result: gives,
        stated: Stated::Parameters(xs),
        has_body: true,
    };
    declare(context, walk, spot, name, known)?;
    let outside = walk.open();
    let params = parameters(context, walk, xs)?;
    let inner = body_of(context, walk, gives, body)?;
    walk.close(outside);
    note_labels(context, walk, body)?;
    let name = Text::of(context.alloc, name.as_str())?;
    let body = Stmt {
        spot: body.spot,
        form: block_of(inner.statements),
    };
    let function = Function {
        name,
        result: gives,
        params,
        body,
    };
    Ok(Defined {
        function,
        kept: inner.kept,
    })
}
