//! The process that a program runs in: its arguments, its files and its standard output, as the top call wants them.
#![tactic(auto)]

mod file_shelf;
mod out_sink;
mod words;

pub use file_shelf::FileShelf;
pub use out_sink::OutSink;
pub use words::words_of;

#[cfg(test)]
mod tests;
