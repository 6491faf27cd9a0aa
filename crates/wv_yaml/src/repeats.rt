// Repeated keys.
ghost use Rattle.std.specs.Prelude.{◌≡◌, [], Bool, Some};
ghost use Rattle.wv_yaml.specs.Repeats.{repeats_after, repeats, items_repeat, values_repeat};
ghost use Rattle.yaml_scalars.specs.Gives.{Gives};

use crate::tree::{Pair, Tree};
use std::alloc::Global;
use std::collections::BTreeMap;
use yaml_scalars::YamlFault;

/// Whether two of the pairs have one key.
fn do_keys_repeat(alloc: Global, pairs: &[Pair]) -> Result<bool, YamlFault>
    ensures { Gives (λ (b : Bool). b) result (Some (repeats_after [] pairs.now)) }
{
    let mut seen = BTreeMap::new(alloc);
    for pair in pairs {
        let before = seen.insert(pair.key.as_str(), ())?;
        if before.is_some() {
            return Ok(true);
        }
    }
    Ok(false)
}

/// Whether one of a tree's maps has two equal keys.
#[cycle(repeats)]
pub fn does_repeat(alloc: Global, tree: &Tree) -> Result<bool, YamlFault>
    ensures { Gives (λ (b : Bool). b) result (Some (repeats tree.now)) }
{
    match tree {
        Tree::Text(_) => Ok(false),
        Tree::List(items) => do_items_repeat(alloc, items.as_slice()),
        Tree::Map(pairs) => {
            if do_keys_repeat(alloc, pairs.as_slice())? {
                return Ok(true);
            }
            do_values_repeat(alloc, pairs.as_slice())
        }
    }
}

#[cycle(repeats)]
fn do_items_repeat(alloc: Global, items: &[Tree]) -> Result<bool, YamlFault>
    ensures { Gives (λ (b : Bool). b) result (Some (items_repeat items.now)) }
{
    for item in items {
        if does_repeat(alloc, item)? {
            return Ok(true);
        }
    }
    Ok(false)
}

#[cycle(repeats)]
fn do_values_repeat(alloc: Global, pairs: &[Pair]) -> Result<bool, YamlFault>
    ensures { Gives (λ (b : Bool). b) result (Some (values_repeat pairs.now)) }
{
    for pair in pairs {
        if does_repeat(alloc, &pair.value)? {
            return Ok(true);
        }
    }
    Ok(false)
}
