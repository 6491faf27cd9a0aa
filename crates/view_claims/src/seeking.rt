// The command that looks for values of draws that the witness leaves open.
use crate::shell::command_of;
use std::alloc::Global;
use view_text::{File, Files, Messages};
use wv_base::OutOfMemory;

/// Says, where draws took 0 for lack of a value, which command looks for their values.
pub fn note_seeking(
    alloc: Global,
    files: &Files<'_>,
    unfixed: u64,
    out: &mut Messages,
) -> Result<(), OutOfMemory> {
    if unfixed == 0 {
        return Ok(());
    }
    let mut told = command_of(alloc, "witval seek", files)?;
    told.push_str(" looks for values of the draws that took 0")?;
    out.note(File::Witness, None, told)
}
