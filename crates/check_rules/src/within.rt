/// What stands around a statement: may it leave it by `break`, and go on with it by `continue`?
#[derive(Clone, Copy, Debug, PartialEq, Eq)]
pub struct Within {
    pub breaks: bool,
    pub continues: bool,
}
