//! Tries the rows of files of `data/`, whose names are its arguments: command lines of `witval` and of `witval-view`
//! over files in memory. It prints each row that differs, and then `N rows, M differ`. The head of the crate
//! `row_files` says how rows are written.
//! - `run`: the status of `witval` and its report; `shape`: the same without the values that are drawn.
//! - `certificate`: the same of `recheck`, where the certificate `c` is the one that `certify` writes for the same
//! files; `authored` and `weeded`: the same where the witness `w` is the one that `author` writes for the values in
//! `c`, or that `weed` writes.
//! - `device`: the same over a shelf or a sink that fails, as the field `fails` says.
//! - `view`: the status of `witval-view` and all that it prints. Of each the reply of `witval::run` must stand before
//! all else, and a SARIF log must have the members that the schema of SARIF 2.1.0 requires.
//! - `list`: the same of a list, the field `text`, with one line of JSON for each of its lines.
#![tactic(auto)]

mod chained;
mod command_lines;
mod commands;
mod devices;
mod listing;
mod replies;
mod viewing;

use row_files::{Files, NotTried, Row, Trial, try_rows};
use std::process::ExitCode;

/// The rows that this program tries.
struct Rows;

impl Trial for Rows {
    fn came(files: &Files<'_>, row: &Row) -> Result<String, NotTried> {
        match row.kind.as_str() {
            "run" => commands::told(files, row),
            "shape" => commands::told_without_values(files, row),
            "certificate" => chained::told_certified(files, row),
            "authored" => chained::told_authored(files, row),
            "weeded" => chained::told_weeded(files, row),
            "device" => devices::told(files, row),
            "view" => viewing::told(files, row),
            "list" => listing::told(files, row),
            _ => Err(NotTried::Lacks("a kind, or it is no row")),
        }
    }
}

fn main(rt: HostRuntime) -> ExitCode {
    try_rows::<Rows>(&rt)
}
