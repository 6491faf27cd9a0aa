// Where something stands, as it is reported.
ghost use Rattle.std.specs.Prelude.{◌≡◌, IfOk, Some, string_bytes};
ghost use Rattle.wv_schema.specs.Paths.{key_place, item_place};
ghost use Rattle.wv_schema.specs.declared.fault.SchemaFault.TheVariants as fault;
ghost use Rattle.wv_schema.specs.Schema.{Fails};

use crate::fault::SchemaFault;
use std::alloc::Global;
use wv_base::{OutOfMemory, Text};

/// The place of a key in the map at a place.
pub fn place_of_key(alloc: Global, at: &str, key: &str) -> Result<String, OutOfMemory>
    ensures { IfOk result (λ s. string_bytes s ≡ key_place at.now key.now) }
{
    let place = format!(in alloc; "{at}.{key}")?;
    Ok(place)
}

/// The place of an item, from 0, of the list at a place.
pub fn place_of_item(alloc: Global, at: &str, index: usize) -> Result<String, OutOfMemory>
    ensures { IfOk result (λ s. string_bytes s ≡ item_place at.now index) }
{
    let place = format!(in alloc; "{at}[{index}]")?;
    Ok(place)
}

/// Another kind stands at a place.
pub fn wrong_kind(alloc: Global, at: &str) -> SchemaFault
    ensures { Fails result (Some (fault.WrongKind at.now)) }
{
    match Text::of(alloc, at) {
        Ok(text) => SchemaFault::WrongKind(text),
        Err(_) => SchemaFault::OutOfMemory,
    }
}

/// Nothing stands at a key.
pub fn missing(alloc: Global, at: &str, key: &str) -> SchemaFault
    ensures { Fails result (Some (fault.Missing (key_place at.now key.now))) }
{
    match key_text(alloc, at, key) {
        Ok(text) => SchemaFault::Missing(text),
        Err(_) => SchemaFault::OutOfMemory,
    }
}

/// Another kind stands at a key.
pub fn wrong_kind_at(alloc: Global, at: &str, key: &str) -> SchemaFault
    ensures { Fails result (Some (fault.WrongKind (key_place at.now key.now))) }
{
    match key_text(alloc, at, key) {
        Ok(text) => SchemaFault::WrongKind(text),
        Err(_) => SchemaFault::OutOfMemory,
    }
}

/// A text stands at a key that may not.
pub fn bad_value(alloc: Global, at: &str, key: &str) -> SchemaFault
    ensures { Fails result (Some (fault.BadValue (key_place at.now key.now))) }
{
    match key_text(alloc, at, key) {
        Ok(text) => SchemaFault::BadValue(text),
        Err(_) => SchemaFault::OutOfMemory,
    }
}

fn key_text(alloc: Global, at: &str, key: &str) -> Result<Text, OutOfMemory>
    ensures { IfOk result (λ s. s ≡ key_place at.now key.now) }
{
    let place = place_of_key(alloc, at, key)?;
    Text::of(alloc, place.as_str())
}
