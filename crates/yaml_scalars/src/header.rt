/// What becomes of the line breaks at a block scalar's end: none stays, one stays, or all stay (YAML 1.2.2 8.1.1.2).
#[derive(Clone, Copy, Debug, PartialEq, Eq)]
pub enum Chomp {
    Strip,
    Clip,
    Keep,
}

/// The header of a block scalar: `>` or `|`, its digit or 0, and its sign (YAML 1.2.2 8.1.1).
#[derive(Clone, Copy, Debug, PartialEq, Eq)]
pub struct Header {
    pub folds: bool,
    pub digit: usize,
    pub chomp: Chomp,
}
