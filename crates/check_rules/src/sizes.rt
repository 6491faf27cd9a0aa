/// The sizes that a declared name states; one is none where it isn't a constant from 1 to 1,024.
#[derive(Clone, Copy, Debug, PartialEq, Eq)]
pub enum Sizes {
    Scalar,
    Array(Option<u16>),
    /// Of rows and of the columns of each.
    Table(Option<u16>, Option<u16>),
}
