// How strongly the parts of an expression hold together; the binary operators are 4 to 13.

/// A whole expression, which the comma joins.
pub const EXPR: usize = 1;

/// The binding strength of an assignment, above the comma.
pub const ASSIGNMENT: usize = 2;

/// The binding strength of `?:`.
pub const CONDITIONAL: usize = 3;

/// The least binding strength of a binary operator.
pub const BINARY: usize = 4;
/// What binds more strongly than comparisons.
pub const SHIFT: usize = 11;

/// The binding strength of a cast.
pub const CAST: usize = 14;

/// The binding strength of a unary operator.
pub const UNARY: usize = 15;
