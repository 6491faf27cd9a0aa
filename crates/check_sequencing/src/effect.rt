/// What an expression does for which an order may be needed: to an object by its number, or a call of a function with a
/// body.
#[derive(Clone, Copy, Debug, PartialEq, Eq)]
pub enum Effect {
    Reads(u32),
    Changes(u32),
    Calls(u32),
}
