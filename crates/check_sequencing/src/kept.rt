use c_core::Expr;

/// A full expression that a typed program doesn't hold: the size of an array, or an initializer of static storage,
/// which has its object.
#[derive(Drop)]
pub struct Kept {
    pub object: Option<u32>,
    pub value: Expr,
}
