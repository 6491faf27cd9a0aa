//! Files of rows, and how they are tried. A row is a small input and what must be answered to it, written down by hand
//! or taken from an outside tool. `try_rows` prints each row that differs, with what was wanted and what came, and then
//! `N rows, M differ`.
//!
//! A file is of lines. `# ` begins a comment, and an empty line says nothing.
//! - `rows KIND FIELD` begins a section: `KIND` says what is tried (the kinds stand in `came` of the programs `rows`
//! and `run_rows`), and `FIELD` is the field that stands before the arrows of its rows.
//! - `TEXT => ANSWER` is a row: `TEXT` is its field `FIELD`.
//! - `== NAME` begins a row of several fields, a line `FIELD VALUE` each, or a line `FIELD` and behind it the lines of
//! its value, each after `| `. What must come is its field `answer`.
//! - `FIELD VALUE` before the first row of a section holds for each of its rows, where the row has no such field of its
//! own.
//!
//! The fields: `program` names files of `data/`, and `source` is a program's text (behind those files); `witness` names
//! files of witnesses, in which `hash` stands for HASH and `formula` for FORMULA and `edits` are made (`OLD | NEW | OLD
//! | NEW ..`, the first occurrence of each) and of which the first `lines` are taken, `segments` are put after them,
//! and `yaml` is a witness's text. Segments stand between the words `then`, the waypoints of one between semicolons,
//! and a waypoint is its action, its type, its line or `line:column`, and its constraint. `property` is a property,
//! `words` is a command line over the files `p`, `q`, `w` and `c`, `model` is a data model or `both`, and `fails` is
//! the device that fails: `shelf` or `sink` and the number of the call that fails, or `room` and the number of bytes
//! that the sink takes. `text` is a list, an expression or a place; or it is a certificate's text, after the files of
//! `data/` that `certificate` names.
//!
//! `escapes.rt` says how control characters, bytes and repeated texts are written.
#![tactic(auto)]

mod escapes;
mod table;
mod texts;
mod trial;

pub use table::{NotTried, Row};
pub use texts::{certificate, program, witness};
pub use trial::{Files, Trial, try_rows};
