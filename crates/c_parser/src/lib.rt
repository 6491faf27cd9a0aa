//! The C grammar: which trees the tokens of a source text, of a witness expression and of a `\result` constraint spell.
#![tactic(auto)]

mod brackets;
mod closed;
mod cursor;
mod declarations;
mod expressions;
mod fault;
mod headers;
mod item;
mod items;
mod kinds;
mod laws;
mod look;
mod measured;
mod parameters;
mod source;
mod specifiers;
mod statements;
mod strength;
mod tree;
mod type_name;
mod type_words;
mod witness;
mod words;

pub use fault::{ExprFault, ParseFault};
pub use item::{Item, RawParam, Source};
pub use laws::{
    one_expression, one_item, one_source, one_syntax, some_outcome, source_or_syntax,
    sources_are_formed, text_order, tokens_are_orderly,
};
pub use source::parse;
pub use tree::{
    RawArm, RawDeclared, RawExpr, RawFirst, RawForm, RawInit, RawLabel, RawNode, RawRow, RawStmt,
    ResultTest,
};
pub use witness::{parse_expr, parse_result};
