//! Lines and characters of a YAML text (YAML 1.2.2 5 and 6): its lines with their indentation, the text of a value that
//! goes on over lines, and the marks within one line.
#![tactic(auto)]

mod characters;
mod line;
mod lines;
mod scan;

pub use characters::{Characters, first_of, is_blank, is_end, rest_of, slice_from, without_blanks};
pub use line::Line;
pub use lines::{are_allowed, characters_of, is_within, read_lines, without_mark};
pub use scan::{
    are_quiet, does_begin_with, from_place, gap_len, is_dash, is_nothing, is_parted, is_quiet,
    is_tail_text, len_without_end, lines_from, lines_to, without_gap,
};
