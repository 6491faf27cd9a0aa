// The invariants of an invariant set.
ghost use Rattle.std.specs.Prelude.{◌≡◌, List, codes, map};
ghost use Rattle.wv_schema.specs.declared.witness.Invariant.{Invariant};
ghost use Rattle.wv_schema.specs.Table.{in_map, invariant_fields};
ghost use Rattle.wv_schema.specs.Judging.{first_fault, items_fault};
ghost use Rattle.wv_schema.specs.Values.{map_at, invariant_kind, invariant_in, claim_in};
ghost use Rattle.wv_schema.specs.Schema.{Gives, claim_fault};

use crate::fault::SchemaFault;
use crate::field::{needed_map, needed_str};
use crate::location::{expression_of, location_of};
use crate::place::{place_of_item, place_of_key, wrong_kind};
use crate::reach::pairs_of;
use crate::rule::TextRule;
use crate::witness::{Invariant, InvariantKind};
use std::alloc::Global;
use wv_base::Seq;
use wv_yaml::{Pair, Tree};

#[tactic(auto, unfolding(crate::specs::Values::invariant_kind))]
fn kind_of(word: &str) -> InvariantKind
    ensures { result ≡ invariant_kind word.now }
{
    if word == "loop_invariant" {
        InvariantKind::Loop
    } else {
        InvariantKind::Location
    }
}

fn invariant_fields_of(alloc: Global, at: &str, pairs: &[Pair]) -> Result<Invariant, SchemaFault>
    ensures { Gives (λ (v : Invariant). v) result (first_fault at.now pairs.now invariant_fields)
        (invariant_in pairs.now) }
{
    let word = needed_str(alloc, at, pairs, "type", TextRule::InvariantType)?;
    let location = location_of(alloc, at, pairs)?;
    let expression = expression_of(alloc, at, pairs)?;
    Ok(Invariant {
        kind: kind_of(word),
        location,
        value: expression.value,
        format: expression.format,
    })
}

fn invariant_of(alloc: Global, at: &str, pairs: &[Pair]) -> Result<Invariant, SchemaFault>
    ensures { Gives (λ (v : Invariant). v) result
        (first_fault at.now pairs.now (in_map (codes "invariant") invariant_fields))
        (invariant_in (map_at (codes "invariant") pairs.now)) }
{
    let inside = needed_map(alloc, at, pairs, "invariant")?;
    let place = place_of_key(alloc, at, "invariant")?;
    invariant_fields_of(alloc, place.as_str(), inside)
}

/// An item of the content.
fn claim_of(alloc: Global, at: &str, item: &Tree) -> Result<Invariant, SchemaFault>
    ensures { Gives (λ (v : Invariant). v) result (claim_fault at.now item.now) (claim_in item.now) }
{
    match pairs_of(item) {
        None => Err(wrong_kind(alloc, at)),
        Some(pairs) => invariant_of(alloc, at, pairs),
    }
}

/// The content of an invariant set.
pub fn invariants_of(alloc: Global, at: &str, items: &[Tree]) -> Result<Seq<Invariant>, SchemaFault>
    ensures { Gives (λ (v : List Invariant). v) result (items_fault claim_fault at.now 0 items.now)
        (map claim_in items.now) }
{
    let mut invariants = Seq::new(alloc);
    for (index, item) in items.iter().enumerate() {
        let place = place_of_item(alloc, at, index)?;
        let invariant = claim_of(alloc, place.as_str(), item)?;
        invariants.push(invariant)?;
    }
    Ok(invariants)
}
