ghost use Rattle.c_core.specs.TreeView.{program_of};
ghost use Rattle.c_core.specs.Program.{IsProgram};

use crate::number::{DataModel, Property};
use crate::tree::{Function, Object, Start};
use wv_base::Seq;

/// A checked program. Objects are numbered in the order of their declarations.
#[derive(Drop)]
pub struct Program {
    pub model: DataModel,
    pub property: Property,
    pub objects: Seq<Object>,
    pub starts: Seq<Start>,
    pub functions: Seq<Function>,
    pub main: u32,
    pub ghost checked: { IsProgram (program_of model property objects starts functions main) },
}
