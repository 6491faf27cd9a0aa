/// How often statements of a line of the program were begun.
#[derive(Clone, Copy, Debug, PartialEq, Eq)]
pub enum Reached {
    /// No statement begins on this line.
    NoStatement,
    Times(u64),
}
