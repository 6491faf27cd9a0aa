//! Programs as code: one list of operations with jumps.
#![tactic(auto)]

mod calls;
mod choices;
mod code;
mod compiled;
mod declarations;
mod elements;
mod emit;
mod expressions;
mod loops;
mod operands;
mod sizes;
mod statements;
mod statics;
mod switches;
mod tables;
mod targets;
mod words;

pub use code::{
    Action, Body, Code, First, Into, Op, Operand, Parameter, Place, Source, Store, Then, Word,
};
pub use compiled::compile;
pub use tables::Table;
pub use words::type_of_word;
