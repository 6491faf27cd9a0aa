// Functions and prototypes, as they are declared.
ghost use Rattle.std.specs.Prelude.{◌≡◌, OnOk};
ghost use Rattle.c_core.specs.Typing as typing;
ghost use Rattle.check_rules.specs.Codes as codes;
ghost use Rattle.check_rules.specs.Names as names;
ghost use Rattle.check_rules.specs.Noting.{noted_part};
ghost use Rattle.check_rules.specs.Parts as part;
ghost use Rattle.check_rules.specs.Scopes as scopes;
ghost use Rattle.check_scope.specs.Kinds.{kind_of, types_stated};
ghost use Rattle.check_elaborate.specs.Walks.{scope_at, items_in};

use crate::context::Context;
use crate::walk::Walk;
use c_core::{Callee, IntType, Spot};
use check_rules::{CheckCode, noted};
use check_scope::{Known, Stated, built_in};
use wv_base::{OutOfMemory, Seq, Text};

fn same_type(one: IntType, other: IntType) -> bool
    ensures { result ≡ typing.same_type one other }
{
    one == other
}

// Are two results of one type, or both void?
fn same_result(one: Option<IntType>, other: Option<IntType>) -> bool
    ensures { result ≡ typing.same_types one other }
{
    match (one, other) {
        (None, None) => true,
        (Some(one), Some(other)) => same_type(one, other),
        _ => false,
    }
}

fn result_of(callee: Callee) -> Option<IntType>
    ensures { result ≡ names.result_of_callee callee }
{
    match callee {
        Callee::Input(ty) => Some(ty),
        _ => None,
    }
}

// A built-in function but `reach_error` has no body, and its own result.
fn alters(built: Option<Callee>, known: Known) -> bool
    ensures { result ≡ codes.alters built (kind_of known.entry) }
{
    match (built, known) {
        (None, _) => false,
        (Some(Callee::ReachError), _) => false,
        (
            Some(callee),
            Known::Function {
                result,
                has_body,
                ..
            },
        ) => has_body || !same_result(result_of(callee), result),
        _ => false,
    }
}

fn note_named(context: &Context, walk: &mut Walk, spot: Spot, name: &str, known: Known)
    ensures scope { scope_at walk.new ≡ scope_at walk.old }
    ensures noted { walk.new.best ≡ noted_part context.now.model (items_in context.now) walk.old.best
        (part.Naming (scope_at walk.old) (names.entry name.now (kind_of known.entry)) spot) }
    ensures kept { walk.new.kept ≡ walk.old.kept }
{
    let _ = context;
    let doubled = walk.table.is_again(name, known) || alters(built_in(name), known);
    walk.best = noted(walk.best, doubled, CheckCode::Again, spot);
}

/// Declares a function or a prototype.
pub fn declare<'a>(
    context: &Context,
    walk: &mut Walk<'a>,
    spot: Spot,
    name: &'a Text,
    known: Known<'a>,
) -> Result<(), OutOfMemory>
    ensures scope { OnOk result (scope_at walk.new
        ≡ scopes.with_entry (scope_at walk.old) (names.entry name.now (kind_of known.entry))) }
    ensures noted { OnOk result (walk.new.best
        ≡ noted_part context.now.model (items_in context.now) walk.old.best
        (part.Naming (scope_at walk.old) (names.entry name.now (kind_of known.entry)) spot)) }
    ensures kept { OnOk result (walk.new.kept ≡ walk.old.kept) }
{
    let word = name.as_str();
    note_named(context, walk, spot, word, known);
    walk.table.declare(word, known)?;
    Ok(())
}

/// The parameters that a prototype states, but for input functions, which are compared by their results alone.
pub fn stated_by<'a>(name: &str, types: &'a Option<Seq<IntType>>) -> Stated<'a>
    ensures { types_stated result ≡ scopes.stated_by name.now types.now }
{
    match (built_in(name), types) {
        (Some(Callee::Input(_)), _) => Stated::Unstated,
        (_, None) => Stated::Unstated,
        (_, Some(types)) => Stated::Types(types.as_slice()),
    }
}
