ghost use Rattle.std.specs.Prelude.{◌≡◌, IfOk};

use c_core::Program;
use std::alloc::Global;
use way_names::NamedObjects;
use way_places::Index;
use wv_base::OutOfMemory;

/// A program whose places, and what names mean there, are found without a walk.
#[derive(Drop)]
pub struct Lookup<'a> {
    pub index: Index<'a>,
    pub names: NamedObjects<'a>,
    ghost one_program: { names.program.now ≡ index },
}

impl<'a> Lookup<'a> {
    /// The program's names and its lines' places, each made once for all waypoints of a witness.
    pub fn new(alloc: Global, program: &'a Program) -> Result<Lookup<'a>, OutOfMemory>
        ensures { IfOk result (λ lookup. lookup.index ≡ program.now) }
    {
        let index = Index::new(alloc, program)?;
        let names = NamedObjects::new(alloc, program)?;
        Ok(Lookup { index, names })
    }
}
