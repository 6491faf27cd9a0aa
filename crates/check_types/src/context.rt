use c_core::DataModel;
use check_scope::{Functions, Table};
use std::alloc::Global;

/// What stands fixed while an expression is typed: the functions of the source, and the names in scope.
#[derive(Clone, Copy)]
pub struct Context<'a, 'f, 'b, 't> {
    pub alloc: Global,
    pub functions: &'a Functions<'f>,
    pub table: &'b Table<'t>,
    pub model: DataModel,
}
