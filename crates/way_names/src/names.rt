// The objects that are visible at the places of a program.
ghost use Rattle.std.specs.Prelude.{◌≡◌, IfOk, IsTrue};
ghost use Rattle.c_core.specs.View.{program_view};
ghost use Rattle.way_names.specs.Scopes.{scope_at, scope_of};
ghost use Rattle.way_names.specs.Visible.{is_scoped, names_at};

use crate::places::{ScopesAt, in_order};
use crate::scope::{Scope, names_in};
use crate::statics::{push_before, statics};
use crate::walk::in_functions;
use c_core::{PlaceKind, Program, Spot};
use std::alloc::Global;
use std::marker::Model;
use way_places::found_at;
use wv_base::{OutOfMemory, Seq};

/// A program whose visible names are found without a walk.
#[derive(Drop)]
struct Names<'a> {
    program: &'a Program,
    statics: Vec<(Spot, u32)>,
    scopes: Vec<Scope>,
    statements: ScopesAt,
    loops: ScopesAt,
}

impl<'a> Model for Names<'a> {
    ghost use Rattle.std.specs.Coded.{codes};
    ghost use Rattle.c_core.specs.View.{program_view};
    ghost use Rattle.c_core.specs.contracts.tree.Expr as expression;
    ghost use Rattle.c_core.specs.contracts.tree.Stmt as statement;
    ghost use Rattle.c_core.specs.declared.program.Program.{Program};
    ghost use Rattle.way_names.specs.Scopes.{IsNames};

    ghost Value = { Program };

    ghost coded = { Prim.hlevel (codes, expression.the_row.coded, statement.the_row.coded) };

    ghost view = { λ x. x.program.now };

    ghost invariant = { λ x. IsNames (program_view x.program.now) x.statics.items x.scopes.items x.statements x.loops };
}

/// The scope that a place sees, the outermost where there is no such place.
fn scope_at(scopes: &ScopesAt, spot: Spot) -> Option<usize>
    ensures { result ≡ scope_at scopes.now spot }
{
    found_at(scopes.marks.as_slice(), spot).flatten()
}

/// By the kind of a place.
pub fn scope_of(
    kind: PlaceKind,
    spot: Spot,
    statements: &ScopesAt,
    loops: &ScopesAt,
) -> Option<usize>
    ensures { result ≡ scope_of kind spot statements.now loops.now }
{
    match kind {
        PlaceKind::Statement => scope_at(statements, spot),
        PlaceKind::Loop => scope_at(loops, spot),
        PlaceKind::Branch => None,
        PlaceKind::CallEnd => None,
    }
}

impl<'a> Names<'a> {
    /// The scopes of a program's names, in one walk over it.
    fn new(alloc: Global, program: &'a Program) -> Result<Names<'a>, OutOfMemory>
        ensures { IfOk result (λ names. names ≡ program.now) }
    {
        let statics = statics(alloc, program.objects.as_slice())?;
        let walk = in_functions(alloc, program.functions.as_slice())?;
        let statements = in_order(walk.statements)?;
        let loops = in_order(walk.loops)?;
        Ok(Names {
            program,
            statics,
            scopes: walk.scopes,
            statements,
            loops,
        })
    }

    /// The objects that are visible at a statement or a loop, innermost last.
    fn visible_at(
        &self,
        alloc: Global,
        kind: PlaceKind,
        spot: Spot,
    ) -> Result<Seq<u32>, OutOfMemory>
        requires { IsTrue (is_scoped (program_view self.now) kind spot) }
        ensures { IfOk result (λ names. names ≡ names_at (program_view self.now) kind spot) }
    {
        let scope = scope_of(kind, spot, &self.statements, &self.loops);
        let locals = names_in(alloc, self.scopes.as_slice(), scope)?;
        let mut names = Vec::new(alloc);
        push_before(&mut names, spot, self.statics.as_slice())?;
        names.extend_from_slice(locals.as_slice())?;
        Ok(Seq::from_vec(names))
    }
}

/// The objects that are visible at one place, innermost last: the last of a name is the one that it means. For what names
/// mean at many places make `NamedObjects` once.
pub fn names_at(
    alloc: Global,
    program: &Program,
    kind: PlaceKind,
    spot: Spot,
) -> Result<Seq<u32>, OutOfMemory>
    requires { IsTrue (is_scoped (program_view program.now) kind spot) }
    ensures { IfOk result (λ names. names ≡ names_at (program_view program.now) kind spot) }
{
    let names = Names::new(alloc, program)?;
    let visible = names.visible_at(alloc, kind, spot)?;
    Ok(visible)
}
