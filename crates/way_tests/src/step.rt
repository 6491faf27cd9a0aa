// The steps of a constraint.
use c_core::{BinOp, IntType};

/// What a test reads: the first cell of an object, by the object's type, or a constant.
#[derive(Clone, Copy, Debug, PartialEq, Eq)]
pub enum Operand {
    Cell(u32, IntType),
    Number(i128),
}

/// What has an answer where its operands have values.
#[derive(Clone, Copy, Debug, PartialEq, Eq)]
pub enum Test {
    /// Whether a value isn't 0.
    Truth(Operand),
    /// A comparison of two values, both converted to a type.
    Compare(BinOp, IntType, Operand, Operand),
}

/// A test, and how many of the steps after it are passed over where it holds, and where it doesn't.
#[derive(Clone, Copy, Debug, PartialEq, Eq)]
pub struct Step {
    pub test: Test,
    pub yes: usize,
    pub no: usize,
}
