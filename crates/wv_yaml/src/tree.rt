use wv_base::{Seq, Text};

/// What a document says.
#[cycle(tree)]
#[derive(Debug, Drop)]
pub enum Tree {
    Text(Text),
    List(Seq<Tree>),
    Map(Seq<Pair>),
}

/// One pair of a map.
#[cycle(tree)]
#[derive(Debug, Drop)]
pub struct Pair {
    pub key: Text,
    pub value: Tree,
}
