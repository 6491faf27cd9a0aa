use crate::known::Known;
use crate::past::Past;

/// A declaration that is in scope, with what those before it make of its name.
#[derive(Clone, Copy)]
pub struct Line<'a> {
    pub name: &'a str,
    pub known: Known<'a>,
    pub before: Option<Past<'a>>,
}
