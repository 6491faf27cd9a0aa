// The place that a location names.
ghost use Rattle.std.specs.Prelude.{◌≡◌, [], ◌∷◌, ◌++◌, None, Some};
ghost use Rattle.std.specs.List.{flat_map};
ghost use Rattle.c_core.specs.Places.{is_named, place, place_at, places_if, places_in, places_in_arguments, places_in_first, places_in_init, places_in_names, places_in_node, places_of_block, places_of_form, places_of_statement, same_kind};
ghost use Rattle.c_core.specs.View.{block_view, expr_view, expr_view_if, exprs_view, first_view, form_view, functions_view, init_view, names_view, node_view, program_view, rows_view, stmt_view, stmts_view, switch_view};
ghost use Rattle.c_core.specs.declared.place.PlaceKind.TheVariants.{Branch, CallEnd, Loop};
ghost use Rattle.way_places.specs.Seeking.{best_of, places_of_functions};

use c_core::{
    Arm, Declared, Expr, First, Form, Function, Init, Node, PlaceKind, Program, Row, Spot, Stmt,
};

/// Whether a spot is exactly there, or on the line where no column is named.
pub fn names(line: u32, column: Option<u32>, spot: Spot) -> bool
    ensures { result ≡ is_named line column spot }
{
    match column {
        None => spot.line == line,
        Some(column) => spot.line == line && spot.column == column,
    }
}

/// Whether two kinds of places are the same.
pub fn is_same(a: PlaceKind, b: PlaceKind) -> bool
    ensures { result ≡ same_kind a b }
{
    match a {
        PlaceKind::Statement => matches!(b, PlaceKind::Statement),
        PlaceKind::Loop => matches!(b, PlaceKind::Loop),
        PlaceKind::Branch => matches!(b, PlaceKind::Branch),
        PlaceKind::CallEnd => matches!(b, PlaceKind::CallEnd),
    }
}

/// A place is sought of this kind, exactly there or on the line.
#[derive(Clone, Copy)]
struct Location {
    kind: PlaceKind,
    line: u32,
    column: Option<u32>,
}

impl Location {
    fn own(&self, best: Option<Spot>, kind: PlaceKind, spot: Spot) -> Option<Spot>
        ensures { result ≡ best_of self.now.kind self.now.line self.now.column best (place kind spot ∷ []) }
    {
        if !is_same(self.kind, kind) || !names(self.line, self.column, spot) {
            return best;
        }
        match best {
            None => Some(spot),
            Some(best) => {
                if spot.column < best.column {
                    Some(spot)
                } else {
                    Some(best)
                }
            }
        }
    }

    #[cycle(expression)]
    fn expression(&self, best: Option<Spot>, e: &Expr) -> Option<Spot>
        ensures { result ≡ best_of self.now.kind self.now.line self.now.column best (places_in (expr_view e.now)) }
    {
        self.node(best, &e.node)
    }

    #[cycle(expression)]
    #[tactic(auto, using(crate::proofs::SeekingLaws::best_of_both))]
    fn node(&self, best: Option<Spot>, node: &Node) -> Option<Spot>
        ensures { result ≡ best_of self.now.kind self.now.line self.now.column best
            (places_in_node (node_view node.now)) }
    {
        match node {
            Node::Const(_) => best,
            Node::Var(_) => best,
            Node::Index { at, .. } => self.arguments(best, at.as_slice()),
            Node::Unary { of, .. } => self.expression(best, of),
            Node::Cast(of) => self.expression(best, of),
            Node::Step { target, .. } => self.expression(best, target),
            Node::Binary { left, right, .. } => {
                let best = self.expression(best, left);
                self.expression(best, right)
            }
            Node::Logic { left, right, .. } => {
                let best = self.expression(best, left);
                self.expression(best, right)
            }
            Node::Choose {
                mark,
                test,
                yes,
                no,
            } => {
                let best = self.expression(best, test);
                let best = self.own(best, PlaceKind::Branch, *mark);
                let best = self.expression(best, yes);
                self.expression(best, no)
            }
            Node::Comma { first, last } => {
                let best = self.expression(best, first);
                self.expression(best, last)
            }
            Node::Assign { target, from, .. } => {
                let best = self.expression(best, target);
                self.expression(best, from)
            }
            Node::Call { args, close, .. } => self.call(best, args.as_slice(), *close),
        }
    }

    #[cycle(expression)]
    #[tactic(auto, using(crate::proofs::SeekingLaws::best_of_both))]
    fn call(&self, best: Option<Spot>, es: &[Expr], close: Spot) -> Option<Spot>
        ensures { result ≡ best_of self.now.kind self.now.line self.now.column best
            (places_in_arguments (exprs_view es.now) ++ place CallEnd close ∷ []) }
    {
        let inner = self.arguments(best, es);
        self.own(inner, PlaceKind::CallEnd, close)
    }

    #[cycle(expression)]
    #[tactic(auto, using(crate::proofs::SeekingLaws::best_of_both))]
    fn arguments(&self, best: Option<Spot>, es: &[Expr]) -> Option<Spot>
        ensures { result ≡ best_of self.now.kind self.now.line self.now.column best
            (places_in_arguments (exprs_view es.now)) }
    {
        let mut nearest = best;
        for e in es {
            nearest = self.expression(nearest, e);
        }
        nearest
    }

    fn optional(&self, best: Option<Spot>, e: &Option<Expr>) -> Option<Spot>
        ensures { result ≡ best_of self.now.kind self.now.line self.now.column best (places_if (expr_view_if e.now)) }
    {
        match e {
            None => best,
            Some(e) => self.expression(best, e),
        }
    }

    #[tactic(auto, using(crate::proofs::SeekingLaws::best_of_both))]
    fn rows(&self, best: Option<Spot>, rows: &[Row]) -> Option<Spot>
        ensures { result ≡ best_of self.now.kind self.now.line self.now.column best
            (flat_map places_in_arguments (rows_view rows.now)) }
    {
        let mut nearest = best;
        for row in rows {
            nearest = self.arguments(nearest, row.values.as_slice());
        }
        nearest
    }

    fn init(&self, best: Option<Spot>, init: &Init) -> Option<Spot>
        ensures { result ≡ best_of self.now.kind self.now.line self.now.column best
            (places_in_init (init_view init.now)) }
    {
        match init {
            Init::Absent => best,
            Init::One(e) => self.expression(best, e),
            Init::Many(es) => self.arguments(best, es.as_slice()),
            Init::Rows(rows) => self.rows(best, rows.as_slice()),
        }
    }

    #[tactic(auto, using(crate::proofs::SeekingLaws::best_of_both))]
    fn names(&self, best: Option<Spot>, names: &[Declared]) -> Option<Spot>
        ensures { result ≡ best_of self.now.kind self.now.line self.now.column best
            (places_in_names (names_view names.now)) }
    {
        let mut nearest = best;
        for name in names {
            nearest = self.init(nearest, &name.init);
        }
        nearest
    }

    fn first(&self, best: Option<Spot>, first: &First) -> Option<Spot>
        ensures { result ≡ best_of self.now.kind self.now.line self.now.column best
            (places_in_first (first_view first.now)) }
    {
        match first {
            First::Absent => best,
            First::Expr(e) => self.expression(best, e),
            First::Declare(names) => self.names(best, names.as_slice()),
        }
    }

    #[cycle(statement)]
    #[tactic(auto, using(crate::proofs::SeekingLaws::best_of_both))]
    fn statement(&self, best: Option<Spot>, s: &Stmt) -> Option<Spot>
        ensures { result ≡ best_of self.now.kind self.now.line self.now.column best
            (places_of_statement (stmt_view s.now)) }
    {
        let best = self.own(best, PlaceKind::Statement, s.spot);
        self.form(best, s.spot, &s.form)
    }

    #[cycle(statement)]
    #[tactic(auto, using(crate::proofs::SeekingLaws::best_of_both))]
    fn form(&self, best: Option<Spot>, at: Spot, form: &Form) -> Option<Spot>
        ensures { result ≡ best_of self.now.kind self.now.line self.now.column best
            (places_of_form at (form_view form.now)) }
    {
        match form {
            Form::Empty => best,
            Form::Expr(e) => self.expression(best, e),
            Form::Declare(names) => self.names(best, names.as_slice()),
            Form::Block(body) => self.block(best, body.as_slice()),
            Form::If { test, yes, no } => {
                let best = self.own(best, PlaceKind::Branch, at);
                let best = self.expression(best, test);
                let best = self.statement(best, yes);
                match no {
                    None => best,
                    Some(no) => self.statement(best, no),
                }
            }
            Form::While { test, body } => {
                let best = self.turning(best, at);
                let best = self.expression(best, test);
                self.statement(best, body)
            }
            Form::Do { body, test } => {
                let best = self.turning(best, at);
                let best = self.statement(best, body);
                self.expression(best, test)
            }
            Form::For {
                first,
                test,
                step,
                body,
            } => {
                let best = self.turning(best, at);
                let best = self.first(best, first);
                let best = self.optional(best, test);
                let best = self.optional(best, step);
                self.statement(best, body)
            }
            Form::Break => best,
            Form::Continue => best,
            Form::Return(e) => self.optional(best, e),
            Form::Label(of) => self.statement(best, of),
            Form::Switch { test, arms } => {
                let best = self.own(best, PlaceKind::Branch, at);
                let best = self.expression(best, test);
                self.arms(best, arms.as_slice())
            }
        }
    }

    /// The places of a loop itself.
    #[tactic(auto, using(crate::proofs::SeekingLaws::best_of_both))]
    fn turning(&self, best: Option<Spot>, at: Spot) -> Option<Spot>
        ensures { result ≡ best_of self.now.kind self.now.line self.now.column best
            (place Loop at ∷ place Branch at ∷ []) }
    {
        let best = self.own(best, PlaceKind::Loop, at);
        self.own(best, PlaceKind::Branch, at)
    }

    #[cycle(statement)]
    #[tactic(auto, using(crate::proofs::SeekingLaws::best_of_both))]
    fn block(&self, best: Option<Spot>, body: &[Stmt]) -> Option<Spot>
        ensures { result ≡ best_of self.now.kind self.now.line self.now.column best
            (places_of_block (stmts_view body.now)) }
    {
        let mut nearest = best;
        for s in body {
            nearest = self.statement(nearest, s);
        }
        nearest
    }

    #[cycle(statement)]
    #[tactic(auto, using(crate::proofs::SeekingLaws::best_of_both))]
    fn arms(&self, best: Option<Spot>, arms: &[Arm]) -> Option<Spot>
        ensures { result ≡ best_of self.now.kind self.now.line self.now.column best
            (places_of_block (switch_view arms.now)) }
    {
        let mut nearest = best;
        for arm in arms {
            nearest = self.block(nearest, arm.body.as_slice());
        }
        nearest
    }

    #[tactic(auto, using(crate::proofs::SeekingLaws::best_of_both))]
    fn functions(&self, functions: &[Function]) -> Option<Spot>
        ensures { result ≡ best_of self.now.kind self.now.line self.now.column None
            (places_of_functions (functions_view functions.now)) }
    {
        let mut nearest = None;
        for function in functions {
            nearest = self.form(nearest, function.body.spot, &function.body.form);
        }
        nearest
    }
}

/// The place of this kind that a location names: exactly there, or the leftmost on the line.
pub fn place_at(program: &Program, kind: PlaceKind, line: u32, column: Option<u32>) -> Option<Spot>
    ensures { result ≡ place_at (program_view program.now) kind line column }
{
    let location = Location { kind, line, column };
    location.functions(program.functions.as_slice())
}
