// The cells with which a machine begins.
ghost use Rattle.std.specs.Prelude.{◌≡◌, IfOk};
ghost use Rattle.flow_code.specs.Programs.{cells_of};

use c_meaning::Memory;
use flow_code::Code;
use std::alloc::Global;
use wv_base::OutOfMemory;

/// The cells that live as the code begins.
pub fn first_cells(alloc: Global, code: &Code) -> Result<Memory, OutOfMemory>
    ensures { IfOk result (λ memory. memory.cells ≡ cells_of code.now.first) }
{
    let mut memory = Memory::new(alloc);
    memory.lay_out(code.sizes.as_slice())?;
    for cell in code.first.as_slice() {
        memory.add(cell.object, cell.index, cell.value)?;
    }
    Ok(memory)
}
