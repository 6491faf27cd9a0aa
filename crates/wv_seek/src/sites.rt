// What the sites of a net stand for, also those at which no run is: input calls and cells without initializer.
ghost use Rattle.std.specs.Prelude.{◌≡◌, IsTrue, OnOk};
ghost use Rattle.std.specs.List.{All, Contains};
ghost use Rattle.c_core.specs.View.{program_view};
ghost use Rattle.c_draws.specs.Drawing.{IsDrawn};
ghost use Rattle.c_draws.specs.declared.places.DrawPlace.{DrawPlace as Place};
ghost use Rattle.c_meaning.specs.declared.run.DrawKind.TheVariants.{Havoc};
ghost use Rattle.seek_answer.specs.Reaching.{IsOpen, StandsFor};

use c_core::Program;
use c_draws::{DrawPlace, draws, is_listed};
use c_meaning::DrawKind;
use std::alloc::Global;
use sym_state::DrawSite;
use wv_base::OutOfMemory;

// Whether what a loop changes isn't meant.
fn is_unchanged(from: DrawKind) -> bool
    ensures { IsTrue result → from ≡ Havoc → ⊥ }
{
    match from {
        DrawKind::Input | DrawKind::Cell => true,
        DrawKind::Havoc => false,
    }
}

// Whether a place is listed and stands for an input call or a cell without initializer.
fn is_open(places: &[DrawPlace], place: DrawPlace) -> bool
    ensures listed { IsTrue result → Contains places.now place }
    ensures unchanged { IsTrue result → place.from ≡ Havoc → ⊥ }
{
    is_unchanged(place.from) && is_listed(places, place)
}

// Whether each site is at one of the open places of the program.
fn all_stand(program: &Program, places: &[DrawPlace], sites: &[DrawSite]) -> bool
    requires { (x : Place) → Contains places.now x → IsDrawn (program_view program.now) x }
    ensures { IsTrue result → All (StandsFor (program_view program.now)) sites.now }
{
    for site in sites {
        let place = DrawPlace {
            spot: site.spot,
            ty: site.ty,
            from: site.from,
        };
        if !is_open(places, place) {
            return false;
        }
    }
    true
}

/// Each site stands for an open part of the program.
pub fn test_sites(alloc: Global, program: &Program, sites: &[DrawSite]) -> Result<(), OutOfMemory>
    ensures { OnOk result (All (StandsFor (program_view program.now)) sites.now) }
{
    let places = draws(alloc, program)?;
    // the walk draws nowhere else
    if !all_stand(program, places.as_slice(), sites) {
        return Err(OutOfMemory);
    }
    Ok(())
}
