// The refusals of an expression itself, whose parts are typed already.
ghost use Rattle.std.specs.Prelude.{◌≡◌, ◌||◌, Option};
ghost use Rattle.std.specs.Option.{option_map};
ghost use Rattle.c_core.specs.View.{expr_view as typed_view};
ghost use Rattle.c_core.specs.declared.number.DataModel.{DataModel as Model};
ghost use Rattle.c_parser.specs.View.{expr_view, node_view};
ghost use Rattle.check_rules.specs.Codes as codes;
ghost use Rattle.check_rules.specs.Names as names;
ghost use Rattle.check_rules.specs.Names.{Kind};
ghost use Rattle.check_rules.specs.Noting.{noted_part};
ghost use Rattle.check_rules.specs.Parts.{Expression, bodies_of};
ghost use Rattle.check_rules.specs.Roles.{role_of};
ghost use Rattle.check_rules.specs.Typed as typing;
ghost use Rattle.check_scope.specs.InScope.{all_of};
ghost use Rattle.check_scope.specs.Sources.{items_of};
ghost use Rattle.check_types.specs.Own.{has_one_void, unfit_by, name_called};
ghost use Rattle.check_types.specs.Words.{word_as, word_at};

use crate::literals::constant_type;
use crate::words::{Word, count_for};
use c_core::{DataModel, Expr, IntType, Node, Spot};
use c_parser::{RawExpr, RawNode};
use check_rules::{CheckCode, Refusal, Role, noted};
use check_scope::{Functions, Table};

// Is one of two arms void, and not the other?
fn has_one_void(e: &Expr) -> bool
    ensures { result ≡ has_one_void (typed_view e.now) }
{
    match &e.node {
        Node::Choose { yes, no, .. } => yes.ty.is_some() != no.ty.is_some(),
        _ => false,
    }
}

// Is an object called, or a function with another number of arguments?
fn is_miscalled(functions: &Functions, table: &Table, name: &str, count: usize, word: Word) -> bool
    requires { word ≡ word_as (names.named (all_of table.now) name.now) }
    ensures { (m : Model) → result
        ≡ codes.miscalled m (items_of functions.now) (all_of table.now) name.now count
        (names.named (all_of table.now) name.now) }
{
    if word.is_function {
        match count_for(functions, table, name) {
            Some(wanted) => count != wanted,
            None => false,
        }
    } else {
        !word.is_nameless
    }
}

// Is there an index on a scalar or on a function, or are there fewer or more indexes than dimensions?
fn is_no_element(word: Word, count: usize) -> bool
    ensures { (k : Option Kind) → word ≡ word_as k → result ≡ codes.is_no_element count k }
{
    word.is_no_array || (!word.is_nameless && usize::from(word.dims) != count)
}

// A constant without type, a word or a call of the wrong kind, a choice with one void arm.
fn is_misused(
    functions: &Functions,
    table: &Table,
    model: DataModel,
    e: &RawExpr,
    word: Word,
    typed: &Expr,
) -> bool
    requires word { word ≡ word_at (all_of table.now) (codes.word_of (node_view e.now.node)) }
    requires typed { typed_view typed.now ≡ typing.typed model (bodies_of (items_of functions.now)) (all_of table.now)
        (expr_view e.now) }
    ensures { result ≡ codes.misused model (items_of functions.now) (all_of table.now) (node_view e.now.node) }
{
    match &e.node {
        RawNode::Number {
            value,
            decimal,
            unsigned,
            longs,
        } => constant_type(model, *value, *decimal, *unsigned, *longs).is_none(),
        RawNode::Var { .. } => word.is_no_scalar,
        RawNode::Index { at, .. } => is_no_element(word, at.len()),
        RawNode::Choose { .. } => has_one_void(typed),
        RawNode::Call { callee, args, .. } => is_miscalled(
            functions,
            table,
            callee.as_str(),
            args.len(),
            word,
        ),
        RawNode::Char(_) => false,
        RawNode::Unary { .. } => false,
        RawNode::Cast { .. } => false,
        RawNode::Step { .. } => false,
        RawNode::Binary { .. } => false,
        RawNode::Logic { .. } => false,
        RawNode::Comma { .. } => false,
        RawNode::Assign { .. } => false,
    }
}

// An object or an element (C11 6.3.2.1p1).
fn is_place(node: &RawNode) -> bool
    ensures { result ≡ codes.is_place (node_view node.now) }
{
    match node {
        RawNode::Var { .. } => true,
        RawNode::Index { .. } => true,
        _ => false,
    }
}

// Void where a value is needed, or something to store to that is no place.
fn is_unfit(role: Role, node: &RawNode, ty: Option<IntType>) -> bool
    ensures { result ≡ unfit_by (role_of role) ty (node_view node.now) }
{
    match role {
        Role::Value => ty.is_none(),
        Role::Target => !is_place(node),
        Role::Effect => false,
    }
}

// A part that breaks a rule on types.
fn is_mistyped(
    functions: &Functions,
    table: &Table,
    model: DataModel,
    role: Role,
    e: &RawExpr,
    word: Word,
    typed: &Expr,
) -> bool
    requires word { word ≡ word_at (all_of table.now) (codes.word_of (node_view e.now.node)) }
    requires typed { typed_view typed.now ≡ typing.typed model (bodies_of (items_of functions.now)) (all_of table.now)
        (expr_view e.now) }
    ensures { result ≡ (codes.misused model (items_of functions.now) (all_of table.now) (node_view e.now.node) ||
        unfit_by (role_of role) typed.now.ty (node_view e.now.node)) }
{
    let misused = is_misused(functions, table, model, e, word, typed);
    let unfit = is_unfit(role, &e.node, typed.ty);
    misused || unfit
}

// The name that is called.
fn name_called(node: &RawNode) -> Option<&str>
    ensures { option_map (λ name. name.now) result ≡ name_called (node_view node.now) }
{
    match node {
        RawNode::Call { callee, .. } => Some(callee.as_str()),
        _ => None,
    }
}

// Is a function called that has no body?
fn is_bodiless(functions: &Functions, table: &Table, node: &RawNode, word: Word) -> bool
    requires { word ≡ word_at (all_of table.now) (codes.word_of (node_view node.now)) }
    ensures { (m : Model) → result
        ≡ codes.calls_bodiless m (items_of functions.now) (all_of table.now) (node_view node.now) }
{
    match name_called(node) {
        Some(name) => word.is_function && functions.is_bodiless(name),
        None => false,
    }
}

// The place of the word of an expression that begins here.
fn place_of_word(spot: Spot, node: &RawNode) -> Spot
    ensures { result ≡ codes.place_of_word spot (node_view node.now) }
{
    match node {
        RawNode::Var { word, .. } => *word,
        RawNode::Index { word, .. } => *word,
        RawNode::Call { word, .. } => *word,
        _ => spot,
    }
}

/// The first refusal, where those of an expression itself are looked at too.
pub fn note_own(
    functions: &Functions,
    table: &Table,
    model: DataModel,
    best: Option<Refusal>,
    role: Role,
    e: &RawExpr,
    word: Word,
    typed: &Expr,
) -> Option<Refusal>
    requires word { word ≡ word_at (all_of table.now) (codes.word_of (node_view e.now.node)) }
    requires typed { typed_view typed.now ≡ typing.typed model (bodies_of (items_of functions.now)) (all_of table.now)
        (expr_view e.now) }
    ensures { result ≡ noted_part model (items_of functions.now) best
        (Expression (all_of table.now) (role_of role) (expr_view e.now)) }
{
    let place = place_of_word(e.spot, &e.node);
    let best = noted(best, word.is_nameless, CheckCode::Name, place);
    let mistyped = is_mistyped(functions, table, model, role, e, word, typed);
    let best = noted(best, mistyped, CheckCode::Typing, e.spot);
    let bodiless = is_bodiless(functions, table, &e.node, word);
    noted(best, bodiless, CheckCode::Body, e.spot)
}
