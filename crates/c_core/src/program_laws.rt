// Laws of programs, each the contract of a function without a body.
ghost use Rattle.std.specs.Prelude.{◌≡◌, true};
ghost use Rattle.c_core.specs.Tree as t;
ghost use Rattle.c_core.specs.Program.{places_rise};
ghost use Rattle.c_core.specs.TextOrder.{rises};
ghost use Rattle.c_core.specs.Places.{spots_of_kind};
ghost use Rattle.c_core.specs.declared.place.PlaceKind.{PlaceKind};

/// The places of a kind rise, so that two of them differ.
pub fn places_of_a_kind_rise()
    ensures { (p : t.Program) → places_rise p ≡ true → (kind : PlaceKind) → rises (spots_of_kind kind p) ≡ true }
{}
