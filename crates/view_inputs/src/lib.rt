//! What the viewer goes by: the arguments of its command line, the lines of a list, the files as they were read once, and
//! the reply as it was written.
#![tactic(auto)]

mod certificate_words;
mod command;
mod keeping;
mod names;
mod reply_sink;
mod screen;

pub use command::{Asked, Asking, Form, ListForm, Part, Search, read_words, read_words_at};
pub use keeping::Keeping;
pub use names::names_in;
pub use reply_sink::ReplySink;
pub use screen::Screen;
