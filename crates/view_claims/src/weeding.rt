// The command that keeps of the invariants of a witness those that hold up together.
use crate::shell::command_of;
use std::alloc::Global;
use view_text::{File, Files, Messages};
use wv_base::OutOfMemory;

/// The file that the command writes, which is none that it reads.
fn written_file(files: &Files<'_>) -> &'static str {
    if files.name(File::Witness).ends_with("kept.yml") {
        "weeded.yml"
    } else {
        "kept.yml"
    }
}

/// Says which command keeps those invariants of the witness that hold up together.
pub fn note_weeding(
    alloc: Global,
    files: &Files<'_>,
    out: &mut Messages,
) -> Result<(), OutOfMemory> {
    let mut told = command_of(alloc, "witval weed", files)?;
    let kept = written_file(files);
    write!(told, " > {kept} keeps the invariants that hold up together")?;
    out.note(File::Witness, None, told)
}
