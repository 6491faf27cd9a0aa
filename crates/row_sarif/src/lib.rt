//! What the published schema of SARIF 2.1.0 asks of a log, for rows of views: required members, numbers in their
//! ranges, words of enumerations, elements that differ; and of the standard's text that numbers lie within their lists,
//! that nothing in a message is a link or is put in its place, and that no name of a file is read as that of a host.
#![tactic(auto)]

mod fields;
mod fixes;
mod members;
mod places;
mod results;

pub use members::lacking;
