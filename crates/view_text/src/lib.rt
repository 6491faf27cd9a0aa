//! What a person is shown of a verdict: messages with their places in the files that were judged, in the form of
//! compilers. Files and witnesses are hostile: whatever is printed of them is printed as text, without control
//! characters.
#![tactic(auto)]

mod extent;
mod files;
mod growing;
mod lines;
mod listing;
mod look;
mod message;
mod noted;
mod printed;
mod reached;
mod report;
mod rules;
mod window;

pub use extent::extent_of;
pub use files::Files;
pub use growing::{Growing, last_holding};
pub use lines::{line_of, offset_of, spot_at, width_at};
pub use listing::{lay_out_counts, lay_out_listing};
pub use look::Look;
pub use message::{Change, File, Level, Message, Messages};
pub use noted::{by_line, parted_at};
pub use printed::{escaped_json, printable_text, push_printable, shortened};
pub use reached::Reached;
pub use report::lay_out_message;
pub use rules::{advice, wanted_place};
