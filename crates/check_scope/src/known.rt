use c_core::IntType;
use c_parser::RawParam;

/// The parameters that a declaration of a function states.
#[derive(Clone, Copy)]
pub enum Stated<'a> {
    Unstated,
    Types(&'a [IntType]),
    Parameters(&'a [RawParam]),
}

/// What a declaration makes of its name.
#[derive(Clone, Copy)]
pub enum Known<'a> {
    Object {
        number: u32,
        ty: IntType,
        dims: u8,
        fixed: bool,
    },
    Function {
        result: Option<IntType>,
        stated: Stated<'a>,
        has_body: bool,
    },
    /// By a closed item, of which only the name is known.
    Closed,
}
