//! What is shown of a verdict as a document: SARIF 2.1.0 for editors and services, one page of HTML, one line of JSON.
//! Names, programs and witnesses are hostile: in each they are text.
#![tactic(auto)]

mod confirmed;
mod escaped;
mod html;
mod json_line;
mod list_page;
mod page;
mod regions;
mod results;
mod rules;
mod sarif_log;

pub use html::page_of;
pub use json_line::json_of;
pub use list_page::{list_head, list_row, list_tail};
pub use sarif_log::log_of;
