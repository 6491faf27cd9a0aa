ghost use Rattle.std.specs.Prelude.{◌≡◌, IfOk};
ghost use Rattle.std.specs.Option.{option_copied, option_map};
ghost use Rattle.c_core.specs.Places.{aim_fits, call_at, of_kind, place_at, stmt_before};
ghost use Rattle.c_core.specs.View.{expr_view_if, program_view, stmt_view};
ghost use Rattle.way_places.specs.Switches.{switch_at};

use crate::aims::{aims, push_of_kind};
use crate::calls::calls;
use crate::first::found_at;
use crate::fulls::fulls;
use crate::leftmost::named_in;
use crate::listed::places;
use crate::neighbours::neighbours;
use crate::order::{sort_by_spot, sort_spots};
use crate::tests::tests;
use c_core::{Expr, IntType, Place, PlaceKind, Program, Spot, Stmt};
use std::alloc::Global;
use std::marker::Model;
use wv_base::OutOfMemory;

/// A program whose places, targets, calls, statements before places and switches are found without a walk.
#[derive(Drop)]
pub struct Index<'a> {
    program: &'a Program,
    statements: Vec<Spot>,
    loops: Vec<Spot>,
    branches: Vec<Spot>,
    call_ends: Vec<Spot>,
    aims: Vec<Spot>,
    calls: Vec<(Spot, &'a Expr)>,
    befores: Vec<(Spot, &'a Stmt)>,
    switches: Vec<(Spot, IntType)>,
}

impl<'a> Model for Index<'a> {
    ghost use Rattle.std.specs.Coded.{codes};
    ghost use Rattle.c_core.specs.View.{program_view};
    ghost use Rattle.c_core.specs.contracts.tree.Expr as expression;
    ghost use Rattle.c_core.specs.contracts.tree.Stmt as statement;
    ghost use Rattle.c_core.specs.declared.program.Program.{Program};
    ghost use Rattle.way_places.specs.Indexed.{IsIndex};

    ghost Value = { Program };

    ghost coded = { Prim.hlevel (codes, expression.the_row.coded, statement.the_row.coded) };

    ghost view = { λ x. x.program.now };

    ghost invariant = { λ x. IsIndex (program_view x.program.now) x.statements.items x.loops.items x.branches.items x.call_ends.items x.aims.items x.calls.items x.befores.items x.switches.items };
}

fn spots_of_kind(alloc: Global, kind: PlaceKind, places: &[Place]) -> Result<Vec<Spot>, OutOfMemory>
    ensures { IfOk result (λ spots. spots.items ≡ of_kind kind places.now) }
{
    let mut spots = Vec::new(alloc);
    push_of_kind(&mut spots, kind, places)?;
    Ok(spots)
}

impl<'a> Index<'a> {
    /// The places of a program, found by place and by line.
    pub fn new(alloc: Global, program: &'a Program) -> Result<Index<'a>, OutOfMemory>
        ensures { IfOk result (λ index. index ≡ program.now) }
    {
        let list = places(alloc, program)?;
        let places = list.as_slice();
        let whole = fulls(alloc, program)?;
        let fulls = whole.as_slice();
        let statements = spots_of_kind(alloc, PlaceKind::Statement, places)?;
        let loops = spots_of_kind(alloc, PlaceKind::Loop, places)?;
        let branches = spots_of_kind(alloc, PlaceKind::Branch, places)?;
        let call_ends = spots_of_kind(alloc, PlaceKind::CallEnd, places)?;
        let mut calls = calls(alloc, fulls)?;
        let mut aims = aims(alloc, program.property, places, fulls, calls.as_slice())?;
        sort_spots(&mut aims)?;
        sort_by_spot(&mut calls)?;
        let mut befores = neighbours(alloc, program)?;
        sort_by_spot(&mut befores)?;
        let mut switches = tests(alloc, program)?;
        sort_by_spot(&mut switches)?;
        Ok(Index {
            program,
            statements,
            loops,
            branches,
            call_ends,
            aims,
            calls,
            befores,
            switches,
        })
    }

    /// The program whose places these are.
    pub fn program(&self) -> &'a Program
        ensures { result.now ≡ self.now }
    {
        self.program
    }

    /// The place of this kind that a location names: exactly there, or the leftmost on the line.
    pub fn place_at(&self, kind: PlaceKind, line: u32, column: Option<u32>) -> Option<Spot>
        ensures { result ≡ place_at (program_view self.now) kind line column }
    {
        match kind {
            PlaceKind::Statement => named_in(self.statements.as_slice(), line, column),
            PlaceKind::Loop => named_in(self.loops.as_slice(), line, column),
            PlaceKind::Branch => named_in(self.branches.as_slice(), line, column),
            PlaceKind::CallEnd => named_in(self.call_ends.as_slice(), line, column),
        }
    }

    /// Whether a target may stand there, exactly or somewhere on the line.
    pub fn aim_fits(&self, line: u32, column: Option<u32>) -> bool
        ensures { result ≡ aim_fits (program_view self.now) line column }
    {
        named_in(self.aims.as_slice(), line, column).is_some()
    }

    /// The call whose closing parenthesis stands there.
    pub fn call_at(&self, close: Spot) -> Option<&'a Expr>
        ensures { expr_view_if (option_copied result) ≡ call_at (program_view self.now) close }
    {
        found_at(self.calls.as_slice(), close)
    }

    /// The statement or declaration directly before the one at a place, in the same block.
    pub fn stmt_before(&self, spot: Spot) -> Option<&'a Stmt>
        ensures { option_map stmt_view (option_copied result) ≡ stmt_before (program_view self.now) spot }
    {
        found_at(self.befores.as_slice(), spot)
    }

    /// The promoted type of the test of the switch at a place.
    pub fn switch_at(&self, spot: Spot) -> Option<IntType>
        ensures { result ≡ switch_at (program_view self.now) spot }
    {
        found_at(self.switches.as_slice(), spot)
    }
}
