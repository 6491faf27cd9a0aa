// The first expression of a kind, over all bodies.
ghost use Rattle.std.specs.Prelude.{◌≡◌, ◌&&◌, ◌||◌, [], ◌∷◌, ◌++◌, None, is_some};
ghost use Rattle.std.specs.List.{flat_map};
ghost use Rattle.std.specs.Option.{option_copied};
ghost use Rattle.c_core.specs.Parts.{exps_of, exps_of_arguments, exps_of_node, same_spot};
ghost use Rattle.c_core.specs.Places.{aim_fits, call_at};
ghost use Rattle.c_core.specs.View.{expr_view, expr_view_if, exprs_view, first_view, form_view, functions_view, init_view, names_view, node_view, program_view, rows_view, stmt_view, stmts_view, switch_view};
ghost use Rattle.way_places.specs.Seeking.{first_of, is_wanted};
ghost use Rattle.way_places.specs.Sought.{found_by, is_reachability, parts_of, each_if, each_in, each_in_block, each_in_first, each_in_form, each_in_functions, each_in_init, each_in_list, each_in_names};

use crate::place::{names, place_at};
use c_core::{
    Arm, Callee, Declared, Expr, First, Form, Function, Init, Node, PlaceKind, Program, Property,
    Row, Spot, Stmt,
};

/// What an expression is sought for: a call that ends there, a full expression that starts at a place, a call of
/// `reach_error` that does.
#[derive(Clone, Copy)]
pub enum Wanted {
    EndsAt(Spot),
    Starts(u32, Option<u32>),
    ReachesError(u32, Option<u32>),
}

/// Whether two places of the text are one.
pub fn is_same(a: Spot, b: Spot) -> bool
    ensures { result ≡ same_spot a b }
{
    a.line == b.line && a.column == b.column
}

fn is_wanted(wanted: Wanted, e: &Expr) -> bool
    ensures { result ≡ is_wanted wanted (expr_view e.now) }
{
    match wanted {
        Wanted::EndsAt(close) => match &e.node {
            Node::Call { close: end, .. } => is_same(*end, close),
            _ => false,
        },
        Wanted::Starts(line, column) => names(line, column, e.spot),
        Wanted::ReachesError(line, column) => match &e.node {
            Node::Call {
                callee: Callee::ReachError,
                ..
            } => names(line, column, e.spot),
            _ => false,
        },
    }
}

fn own<'a>(wanted: Wanted, found: Option<&'a Expr>, e: &'a Expr) -> Option<&'a Expr>
    ensures { expr_view_if (option_copied result)
        ≡ first_of (is_wanted wanted) (expr_view_if (option_copied found.entry)) (expr_view e.now ∷ []) }
{
    match found {
        Some(first) => Some(first),
        None => { if is_wanted(wanted, e) { Some(e) } else { None } }
    }
}

#[cycle(expression)]
fn expression<'a>(wanted: Wanted, found: Option<&'a Expr>, e: &'a Expr) -> Option<&'a Expr>
    ensures { expr_view_if (option_copied result)
        ≡ first_of (is_wanted wanted) (expr_view_if (option_copied found.entry)) (exps_of (expr_view e.now)) }
{
    let found = own(wanted, found, e);
    node(wanted, found, &e.node)
}

#[cycle(expression)]
#[tactic(auto, using(crate::proofs::SeekingLaws::first_of_both))]
fn node<'a>(wanted: Wanted, found: Option<&'a Expr>, inner: &'a Node) -> Option<&'a Expr>
    ensures { expr_view_if (option_copied result)
        ≡ first_of (is_wanted wanted) (expr_view_if (option_copied found.entry)) (exps_of_node (node_view inner.now)) }
{
    match inner {
        Node::Const(_) => found,
        Node::Var(_) => found,
        Node::Index { at, .. } => arguments(wanted, found, at.as_slice()),
        Node::Unary { of, .. } => expression(wanted, found, of),
        Node::Cast(of) => expression(wanted, found, of),
        Node::Step { target, .. } => expression(wanted, found, target),
        Node::Binary { left, right, .. } => {
            let found = expression(wanted, found, left);
            expression(wanted, found, right)
        }
        Node::Logic { left, right, .. } => {
            let found = expression(wanted, found, left);
            expression(wanted, found, right)
        }
        Node::Choose { test, yes, no, .. } => {
            let found = expression(wanted, found, test);
            let found = expression(wanted, found, yes);
            expression(wanted, found, no)
        }
        Node::Comma { first, last } => {
            let found = expression(wanted, found, first);
            expression(wanted, found, last)
        }
        Node::Assign { target, from, .. } => {
            let found = expression(wanted, found, target);
            expression(wanted, found, from)
        }
        Node::Call { args, .. } => arguments(wanted, found, args.as_slice()),
    }
}

#[cycle(expression)]
#[tactic(auto, using(crate::proofs::SeekingLaws::first_of_both))]
fn arguments<'a>(wanted: Wanted, found: Option<&'a Expr>, es: &'a [Expr]) -> Option<&'a Expr>
    ensures { expr_view_if (option_copied result)
        ≡ first_of (is_wanted wanted) (expr_view_if (option_copied found.entry))
        (exps_of_arguments (exprs_view es.now)) }
{
    let mut first = found;
    for e in es {
        first = expression(wanted, first, e);
    }
    first
}

/// A full expression.
fn full<'a>(wanted: Wanted, found: Option<&'a Expr>, e: &'a Expr) -> Option<&'a Expr>
    ensures { expr_view_if (option_copied result)
        ≡ first_of (is_wanted wanted) (expr_view_if (option_copied found.entry)) (parts_of wanted (expr_view e.now)) }
{
    match wanted {
        Wanted::Starts(_, _) => own(wanted, found, e),
        Wanted::EndsAt(_) => expression(wanted, found, e),
        Wanted::ReachesError(_, _) => expression(wanted, found, e),
    }
}

fn optional<'a>(wanted: Wanted, found: Option<&'a Expr>, e: &'a Option<Expr>) -> Option<&'a Expr>
    ensures { expr_view_if (option_copied result)
        ≡ first_of (is_wanted wanted) (expr_view_if (option_copied found.entry))
        (each_if (parts_of wanted) (expr_view_if e.now)) }
{
    match e {
        None => found,
        Some(e) => full(wanted, found, e),
    }
}

#[tactic(auto, using(crate::proofs::SeekingLaws::first_of_both))]
fn listed<'a>(wanted: Wanted, found: Option<&'a Expr>, es: &'a [Expr]) -> Option<&'a Expr>
    ensures { expr_view_if (option_copied result)
        ≡ first_of (is_wanted wanted) (expr_view_if (option_copied found.entry))
        (each_in_list (parts_of wanted) (exprs_view es.now)) }
{
    let mut first = found;
    for e in es {
        first = full(wanted, first, e);
    }
    first
}

#[tactic(auto, using(crate::proofs::SeekingLaws::first_of_both))]
fn in_rows<'a>(wanted: Wanted, found: Option<&'a Expr>, rows: &'a [Row]) -> Option<&'a Expr>
    ensures { expr_view_if (option_copied result)
        ≡ first_of (is_wanted wanted) (expr_view_if (option_copied found.entry))
        (flat_map (each_in_list (parts_of wanted)) (rows_view rows.now)) }
{
    let mut first = found;
    for row in rows {
        first = listed(wanted, first, row.values.as_slice());
    }
    first
}

fn initial<'a>(wanted: Wanted, found: Option<&'a Expr>, init: &'a Init) -> Option<&'a Expr>
    ensures { expr_view_if (option_copied result)
        ≡ first_of (is_wanted wanted) (expr_view_if (option_copied found.entry))
        (each_in_init (parts_of wanted) (init_view init.now)) }
{
    match init {
        Init::Absent => found,
        Init::One(e) => full(wanted, found, e),
        Init::Many(es) => listed(wanted, found, es.as_slice()),
        Init::Rows(rows) => in_rows(wanted, found, rows.as_slice()),
    }
}

#[tactic(auto, using(crate::proofs::SeekingLaws::first_of_both))]
fn declared<'a>(wanted: Wanted, found: Option<&'a Expr>, names: &'a [Declared]) -> Option<&'a Expr>
    ensures { expr_view_if (option_copied result)
        ≡ first_of (is_wanted wanted) (expr_view_if (option_copied found.entry))
        (each_in_names (parts_of wanted) (names_view names.now)) }
{
    let mut first = found;
    for name in names {
        first = initial(wanted, first, &name.init);
    }
    first
}

fn beginning<'a>(wanted: Wanted, found: Option<&'a Expr>, first: &'a First) -> Option<&'a Expr>
    ensures { expr_view_if (option_copied result)
        ≡ first_of (is_wanted wanted) (expr_view_if (option_copied found.entry))
        (each_in_first (parts_of wanted) (first_view first.now)) }
{
    match first {
        First::Absent => found,
        First::Expr(e) => full(wanted, found, e),
        First::Declare(names) => declared(wanted, found, names.as_slice()),
    }
}

#[cycle(statement)]
fn statement<'a>(wanted: Wanted, found: Option<&'a Expr>, s: &'a Stmt) -> Option<&'a Expr>
    ensures { expr_view_if (option_copied result)
        ≡ first_of (is_wanted wanted) (expr_view_if (option_copied found.entry))
        (each_in (parts_of wanted) (stmt_view s.now)) }
{
    inside(wanted, found, &s.form)
}

#[cycle(statement)]
#[tactic(auto, using(crate::proofs::SeekingLaws::first_of_both))]
fn inside<'a>(wanted: Wanted, found: Option<&'a Expr>, form: &'a Form) -> Option<&'a Expr>
    ensures { expr_view_if (option_copied result)
        ≡ first_of (is_wanted wanted) (expr_view_if (option_copied found.entry))
        (each_in_form (parts_of wanted) (form_view form.now)) }
{
    match form {
        Form::Empty => found,
        Form::Expr(e) => full(wanted, found, e),
        Form::Declare(names) => declared(wanted, found, names.as_slice()),
        Form::Block(body) => block(wanted, found, body.as_slice()),
        Form::If { test, yes, no } => {
            let found = full(wanted, found, test);
            let found = statement(wanted, found, yes);
            match no {
                None => found,
                Some(no) => statement(wanted, found, no),
            }
        }
        Form::While { test, body } => {
            let found = full(wanted, found, test);
            statement(wanted, found, body)
        }
        Form::Do { body, test } => {
            let found = full(wanted, found, test);
            statement(wanted, found, body)
        }
        Form::For {
            first,
            test,
            step,
            body,
        } => {
            let found = beginning(wanted, found, first);
            let found = optional(wanted, found, test);
            let found = optional(wanted, found, step);
            statement(wanted, found, body)
        }
        Form::Break => found,
        Form::Continue => found,
        Form::Return(e) => optional(wanted, found, e),
        Form::Label(of) => statement(wanted, found, of),
        Form::Switch { test, arms } => {
            let found = full(wanted, found, test);
            in_arms(wanted, found, arms.as_slice())
        }
    }
}

#[cycle(statement)]
#[tactic(auto, using(crate::proofs::SeekingLaws::first_of_both))]
fn block<'a>(wanted: Wanted, found: Option<&'a Expr>, body: &'a [Stmt]) -> Option<&'a Expr>
    ensures { expr_view_if (option_copied result)
        ≡ first_of (is_wanted wanted) (expr_view_if (option_copied found.entry))
        (each_in_block (parts_of wanted) (stmts_view body.now)) }
{
    let mut first = found;
    for s in body {
        first = statement(wanted, first, s);
    }
    first
}

#[cycle(statement)]
#[tactic(auto, using(crate::proofs::SeekingLaws::first_of_both))]
fn in_arms<'a>(wanted: Wanted, found: Option<&'a Expr>, arms: &'a [Arm]) -> Option<&'a Expr>
    ensures { expr_view_if (option_copied result)
        ≡ first_of (is_wanted wanted) (expr_view_if (option_copied found.entry))
        (each_in_block (parts_of wanted) (switch_view arms.now)) }
{
    let mut first = found;
    for arm in arms {
        first = block(wanted, first, arm.body.as_slice());
    }
    first
}

#[tactic(auto, using(crate::proofs::SeekingLaws::first_of_both))]
fn in_functions<'a>(wanted: Wanted, functions: &'a [Function]) -> Option<&'a Expr>
    ensures { expr_view_if (option_copied result)
        ≡ first_of (is_wanted wanted) None (each_in_functions (parts_of wanted) (functions_view functions.now)) }
{
    let mut first = None;
    for function in functions {
        first = statement(wanted, first, &function.body);
    }
    first
}

fn is_reachability(property: Property) -> bool
    ensures { result ≡ is_reachability property }
{
    match property {
        Property::UnreachCall => true,
        Property::NoOverflow => false,
    }
}

fn is_found(program: &Program, wanted: Wanted) -> bool
    ensures { result ≡ is_some (found_by wanted (program_view program.now)) }
{
    in_functions(wanted, program.functions.as_slice()).is_some()
}

fn is_aim(at_statement: bool, at_start: bool, in_task: bool, at_error: bool) -> bool
    ensures { result ≡ at_statement || (at_start || (in_task && at_error)) }
{
    at_statement || at_start || in_task && at_error
}

/// Whether a target may stand there, exactly or somewhere on the line.
pub fn aim_fits(program: &Program, line: u32, column: Option<u32>) -> bool
    ensures { result ≡ aim_fits (program_view program.now) line column }
{
    let at_statement = place_at(program, PlaceKind::Statement, line, column).is_some();
    let at_start = is_found(program, Wanted::Starts(line, column));
    let at_error = is_found(program, Wanted::ReachesError(line, column));
    let in_task = is_reachability(program.property);
    is_aim(at_statement, at_start, in_task, at_error)
}

/// The call whose closing parenthesis stands there.
pub fn call_at(program: &Program, close: Spot) -> Option<&Expr>
    ensures { expr_view_if (option_copied result) ≡ call_at (program_view program.now) close }
{
    in_functions(Wanted::EndsAt(close), program.functions.as_slice())
}
