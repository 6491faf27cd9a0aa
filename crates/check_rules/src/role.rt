/// What an expression is there for: its value, what is stored to it, or its effect, where it may be void.
#[derive(Clone, Copy, Debug, PartialEq, Eq)]
pub enum Role {
    Value,
    Target,
    Effect,
}
