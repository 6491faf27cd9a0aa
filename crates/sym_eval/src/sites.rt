// What the sites of a net stand for, also those at which no run is.
ghost use Rattle.std.specs.Prelude.{IsTrue, OnOk};
ghost use Rattle.std.specs.List.{All, Contains};
ghost use Rattle.c_core.specs.View.{program_view};
ghost use Rattle.c_draws.specs.Drawing.{IsDrawn};
ghost use Rattle.sym_duties.specs.Promise.{StandsFor};

use c_core::Program;
use c_draws::{DrawPlace, draws, is_listed};
use std::alloc::Global;
use sym_state::DrawSite;
use wv_base::OutOfMemory;

// Whether each site is at one of the places at which the program draws.
fn all_stand(program: &Program, places: &[DrawPlace], sites: &[DrawSite]) -> bool
    requires { (x : DrawPlace) → Contains places.now x → IsDrawn (program_view program.now) x }
    ensures { IsTrue result → All (StandsFor (program_view program.now)) sites.now }
{
    for site in sites {
        let place = DrawPlace {
            spot: site.spot,
            ty: site.ty,
            from: site.from,
        };
        if !is_listed(places, place) {
            return false;
        }
    }
    true
}

/// Each site stands for something in the program.
pub fn test_sites(alloc: Global, program: &Program, sites: &[DrawSite]) -> Result<(), OutOfMemory>
    ensures { OnOk result (All (StandsFor (program_view program.now)) sites.now) }
{
    let places = draws(alloc, program)?;
    // the walk draws nowhere else
    if !all_stand(program, places.as_slice(), sites) {
        return Err(OutOfMemory);
    }
    Ok(())
}
