// Calls that aren't over.
use run_state::CallSite;

/// A call of a function that isn't over: where the run goes on behind it, and how many cells lived as it began.
#[derive(Clone, Copy, Debug, PartialEq, Eq)]
pub struct Frame {
    pub back: usize,
    pub cells: usize,
    pub site: CallSite,
}
