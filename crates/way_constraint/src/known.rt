// Whether the words of an expression are objects in scope.
ghost use Rattle.std.specs.Prelude.{◌≡◌};
ghost use Rattle.std.specs.Option.{option_map};
ghost use Rattle.c_parser.specs.Formed.{every_node, every_part, every_argument};
ghost use Rattle.c_parser.specs.Tree.{exps};
ghost use Rattle.c_parser.specs.View.{expr_view, exprs_view, node_view};
ghost use Rattle.check_rules.specs.Codes.{word_of};
ghost use Rattle.check_rules.specs.Names.{named};
ghost use Rattle.check_scope.specs.InScope.{all_of};
ghost use Rattle.way_constraint.specs.Known.{is_object, means_object, stands_for_object};

use c_parser::{RawExpr, RawNode};
use check_scope::{Meaning, Table};

fn means_object(meaning: Option<Meaning>) -> bool
    ensures { result ≡ means_object meaning }
{
    match meaning {
        Some(Meaning::Object { .. }) => true,
        Some(Meaning::Function(_)) => false,
        Some(Meaning::Closed) => false,
        None => false,
    }
}

// Is this word an object in scope?
fn is_object(table: &Table, name: &str) -> bool
    ensures { result ≡ is_object (named (all_of table.now) name.now) }
{
    means_object(table.meaning(name))
}

/// The name that a node uses itself.
pub fn name_in(node: &RawNode) -> Option<&str>
    ensures { option_map (λ name. name.now) result ≡ word_of (node_view node.now) }
{
    match node {
        RawNode::Var { name, .. } => Some(name.as_str()),
        RawNode::Index { object, .. } => Some(object.as_str()),
        RawNode::Call { callee, .. } => Some(callee.as_str()),
        _ => None,
    }
}

// Is the word of a node, where it has one, an object?
fn names_object(table: &Table, node: &RawNode) -> bool
    ensures { result ≡ stands_for_object (all_of table.now) (node_view node.now) }
{
    match name_in(node) {
        Some(name) => is_object(table, name),
        None => true,
    }
}

/// Is every word of an expression an object in scope?
#[cycle(objects)]
pub fn names_objects(table: &Table, e: &RawExpr) -> bool
    ensures { result ≡ every_node (stands_for_object (all_of table.now)) (expr_view e.now) }
{
    names_object(table, &e.node) && parts_name_objects(table, &e.node)
}

// Is it so in the parts of a node?
#[cycle(objects)]
fn parts_name_objects(table: &Table, node: &RawNode) -> bool
    ensures { result ≡ every_part (stands_for_object (all_of table.now)) (node_view node.now) }
{
    match node {
        RawNode::Number { .. } => true,
        RawNode::Char(_) => true,
        RawNode::Var { .. } => true,
        RawNode::Index { at, .. } => all_name_objects(table, at.as_slice()),
        RawNode::Unary { of, .. } => names_objects(table, of),
        RawNode::Cast { of, .. } => names_objects(table, of),
        RawNode::Step { target, .. } => names_objects(table, target),
        RawNode::Binary { left, right, .. } => names_objects(table, left)
            && names_objects(table, right),
        RawNode::Logic { left, right, .. } => names_objects(table, left)
            && names_objects(table, right),
        RawNode::Choose { test, yes, no, .. } => names_objects(table, test)
            && (names_objects(table, yes) && names_objects(table, no)),
        RawNode::Comma { first, last } => names_objects(table, first) && names_objects(table, last),
        RawNode::Assign { target, from, .. } => names_objects(table, target)
            && names_objects(table, from),
        RawNode::Call { args, .. } => all_name_objects(table, args.as_slice()),
    }
}

// Is it so in each of these?
#[cycle(objects)]
fn all_name_objects(table: &Table, es: &[RawExpr]) -> bool
    ensures { result ≡ every_argument (stands_for_object (all_of table.now)) (exps (exprs_view es.now)) }
{
    for e in es {
        if !names_objects(table, e) {
            return false;
        }
    }
    true
}
