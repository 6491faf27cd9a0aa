// Draws.
ghost use Rattle.std.specs.Prelude.{◌<◌, ◌^◌, IfOk, length};
ghost use Rattle.c_core.specs.View.{program_view};
ghost use Rattle.sym_state.specs.Standing.{IsState};
ghost use Rattle.sym_state.specs.Drawn.{IsDrawn};

use crate::cells::copied;
use crate::state::{DrawSite, Sym};
use c_core::{IntType, Program, Spot};
use c_meaning::DrawKind;
use circuits::{Bits, input_bits};
use std::alloc::Global;
use wv_base::OutOfMemory;

/// A run that is here draws a value of a type: new inputs, at one more site.
pub fn draw(
    alloc: Global,
    program: &Program,
    sym: &mut Sym,
    from: DrawKind,
    spot: Spot,
    ty: IntType,
) -> Result<Bits, OutOfMemory>
    requires fits { IsState (program_view program.now) sym.old }
    requires room { length sym.old.net < 2 ^ 28 }
    ensures { IfOk result (λ r. IsDrawn (program_view program.now) from spot ty sym.old sym.new r.bits) }
{
    let bits = input_bits(alloc, &mut sym.net, program.model, ty)?;
    let own = copied(alloc, &bits)?;
    let site = DrawSite {
        spot,
        ty,
        from,
        bits: own,
        live: sym.live,
    };
    sym.sites.push(site)?;
    Ok(bits)
}
