use c_core::Spot;

/// A label at its place.
#[derive(Clone, Copy)]
pub struct Label<'a> {
    pub name: &'a str,
    pub spot: Spot,
}
