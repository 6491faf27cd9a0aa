use wv_base::Text;

/// A token of a flow collection (YAML 1.2.2 7.4). A `Key` is a scalar with its colon.
#[derive(Debug, Drop)]
pub enum Token {
    OpenList,
    CloseList,
    OpenMap,
    CloseMap,
    Comma,
    Key(Text),
    Word(Text),
}
