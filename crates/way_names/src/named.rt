// The objects that names mean at the places of a program, found without a list of all names that are visible there.
ghost use Rattle.std.specs.Prelude.{◌≡◌, ◌<◌, IfOk, IsTrue, length};
ghost use Rattle.c_core.specs.View.{program_view};
ghost use Rattle.way_names.specs.Keys.{has_key, last_of, last_named};
ghost use Rattle.way_names.specs.Named.{IsNamed};
ghost use Rattle.way_names.specs.Visible.{fixed_before, is_scoped, names_at};

use crate::keys::Keys;
use crate::names::scope_of;
use crate::places::{ScopesAt, in_order};
use crate::statics::{count_before, statics};
use crate::versions::{Versions, behind, of_scopes, of_statics};
use crate::walk::in_functions;
use c_core::{PlaceKind, Program, Spot};
use std::alloc::Global;
use wv_base::OutOfMemory;

/// A program whose objects are found by their names: a version of a map for each static object and each scope.
#[derive(Drop)]
pub struct NamedObjects<'a> {
    pub program: &'a Program,
    keys: Keys<'a>,
    statics: Vec<(Spot, u32)>,
    before: Versions,
    nested: Versions,
    statements: ScopesAt,
    loops: ScopesAt,
    ghost keyed: { keys.objects.now ≡ program.now.objects },
    ghost named: { IsNamed (program_view program.now) statics.items before nested statements loops },
}

/// A statement or a loop of a program.
#[derive(Clone, Copy)]
pub struct NamesAt<'n, 'a> {
    pub names: &'n NamedObjects<'a>,
    pub kind: PlaceKind,
    pub spot: Spot,
    ghost there: { IsTrue (is_scoped (program_view names.now.program.now) kind spot) },
}

impl<'a> NamedObjects<'a> {
    /// In one walk over a program.
    pub fn new(alloc: Global, program: &'a Program) -> Result<NamedObjects<'a>, OutOfMemory>
        ensures { IfOk result (λ names. names.program.now ≡ program.now) }
    {
        let keys = Keys::of(alloc, program.objects.as_slice())?;
        let statics = statics(alloc, program.objects.as_slice())?;
        let walk = in_functions(alloc, program.functions.as_slice())?;
        let before = of_statics(alloc, &keys, statics.as_slice())?;
        let nested = of_scopes(alloc, &keys, walk.scopes.as_slice())?;
        let statements = in_order(walk.statements)?;
        let loops = in_order(walk.loops)?;
        Ok(NamedObjects {
            program,
            keys,
            statics,
            before,
            nested,
            statements,
            loops,
        })
    }

    /// The last object of static storage that is declared before a place and has this key.
    fn static_of(&self, spot: Spot, key: usize) -> Option<u32>
        requires { key < length self.now.program.now.objects }
        ensures { result ≡ last_of (has_key self.now.program.now.objects key)
            (fixed_before (program_view self.now.program.now) spot) }
    {
        let count = count_before(spot, self.statics.as_slice());
        self.before.look(behind(count), key)
    }

    fn object_of(&self, kind: PlaceKind, spot: Spot, key: usize) -> Option<u32>
        requires there { IsTrue (is_scoped (program_view self.now.program.now) kind spot) }
        requires known { key < length self.now.program.now.objects }
        ensures { result ≡ last_of (has_key self.now.program.now.objects key)
            (names_at (program_view self.now.program.now) kind spot) }
    {
        let scope = scope_of(kind, spot, &self.statements, &self.loops);
        match self.nested.look(scope, key) {
            Some(object) => Some(object),
            None => self.static_of(spot, key),
        }
    }
}

impl<'n, 'a> NamesAt<'n, 'a> {
    /// The object that a name means there: of those that are visible the innermost that has it.
    pub fn object(&self, name: &str) -> Option<u32>
        ensures { result ≡ last_named self.now.names.now.program.now.objects
            (names_at (program_view self.now.names.now.program.now) self.now.kind self.now.spot) name.now }
    {
        match self.names.keys.key(name) {
            Some(key) => self.names.object_of(self.kind, self.spot, key),
            None => None,
        }
    }
}
