use c_core::DataModel;
use check_scope::Functions;
use std::alloc::Global;

/// What stands fixed while a source is gone through. The functions are those of a source that outlives them.
#[derive(Clone, Copy)]
pub struct Context<'a, 's> {
    pub alloc: Global,
    pub functions: &'a Functions<'s>,
    pub model: DataModel,
}
