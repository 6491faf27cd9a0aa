//! What there is to look at in a certificate: the line at which its bytes stop to be one, the chain of a log that isn't
//! right, the obligations that it is about; and its obligations for other checkers, as a manifest, as DIMACS CNF and as
//! LRAT.
#![tactic(auto)]

mod exporting;
mod form;
mod listing;
mod logs;
mod obliged;
mod replied;
mod task;
mod walk;

pub use exporting::exported;
pub use listing::manifest;
pub use obliged::{Obliged, obliged_by};
pub use replied::explain_certificate;
