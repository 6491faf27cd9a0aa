// Warnings about what of a witness isn't read. The reply stays what it is, since the format lets such keys pass.
use crate::known::{inside, map_words, meant, owner};
use crate::unread::{Finds, Found, Unread};
use c_core::Spot;
use std::alloc::Global;
use view_paths::{place_of_path, places_in};
use view_text::{File, Messages, shortened, width_at};
use wv_base::OutOfMemory;
use wv_yaml::Tree;

/// Where a key belongs that stands in a map within another, or which one it is meant for.
fn hint(
    alloc: Global,
    map: &'static str,
    above: &'static str,
    key: &str,
) -> Result<String, OutOfMemory> {
    if let Some(other) = owner(map, above, key) {
        let other = map_words(other);
        return Ok(format!(in alloc; "it belongs in {other}")?);
    }
    let Some(known) = meant(map, key) else {
        return Ok(String::from_str(alloc, "docs/FORMATS.md lists the keys that are read")?);
    };
    if inside(map, known).is_some() {
        return Ok(format!(in alloc; "did you mean `{known}`?")?);
    }
    let other = map_words(owner(map, above, known).unwrap_or(map));
    Ok(format!(in alloc; "did you mean `{known}`, which belongs in {other}?")?)
}

fn key_text(alloc: Global, unread: &Unread<'_>, found: Found<'_>) -> Result<String, OutOfMemory> {
    let map = unread.name_of(found.node);
    let above = unread.name_of(unread.above(found.node));
    let hint = hint(alloc, map, above, found.key)?;
    let hint = hint.as_str();
    let key = shortened(found.key);
    let words = map_words(map);
    Ok(format!(in alloc; "the key `{key}` isn't read, since {words} has no such key: {hint}")?)
}

fn name_text(alloc: Global, unread: &Unread<'_>, found: Found<'_>) -> Result<String, OutOfMemory> {
    let name = shortened(found.key);
    let file = shortened(unread.file());
    Ok(format!(in alloc;
        "this location names the file `{name}`, but the witness is about `{file}`: its line is taken as one of `{file}`"
    )?)
}

/// The place of a key in the witness; none where others took the time for it.
fn spot_of<'t>(
    alloc: Global,
    text: &[u8],
    unread: &Unread<'t>,
    node: usize,
    key: &'t str,
    is_sought: bool,
) -> Result<Option<Spot>, OutOfMemory> {
    if !is_sought {
        return Ok(None);
    }
    let steps = unread.path(alloc, node, key)?;
    Ok(Some(place_of_path(alloc, text, steps.as_slice())?))
}

fn warn_of_rest(
    alloc: Global,
    code: &str,
    finds: &Finds<'_>,
    out: &mut Messages,
) -> Result<(), OutOfMemory> {
    let rest = finds.count.saturating_sub(finds.first.len());
    if rest == 0 {
        return Ok(());
    }
    let told = format!(in alloc; "and {rest} more")?;
    out.warning(code, File::Witness, None, told)
}

/// Mends a key that stands at a place by the one of its map that it is most likely meant for, unless the map has that.
fn mend_key(
    text: &[u8],
    unread: &Unread<'_>,
    found: Found<'_>,
    spot: Spot,
    out: &mut Messages,
) -> Result<(), OutOfMemory> {
    let map = unread.name_of(found.node);
    let above = unread.name_of(unread.above(found.node));
    let width = width_at(text, spot, found.key);
    if width == 0 || owner(map, above, found.key).is_some() {
        return Ok(());
    }
    match meant(map, found.key) {
        Some(known) if inside(map, known).is_some() && !unread.has(found.node, known) => {
            out.mend(spot, width, known)
        }
        _ => Ok(()),
    }
}

fn warn_of_keys(
    alloc: Global,
    text: &[u8],
    unread: &Unread<'_>,
    out: &mut Messages,
) -> Result<(), OutOfMemory> {
    let sought = places_in(text);
    for (index, found) in unread.keys.first.as_slice().iter().enumerate() {
        let told = key_text(alloc, unread, *found)?;
        let spot = spot_of(alloc, text, unread, found.node, found.key, index < sought)?;
        out.warning("unknown-key", File::Witness, spot, told)?;
        if let Some(spot) = spot {
            mend_key(text, unread, *found, spot, out)?;
        }
    }
    warn_of_rest(alloc, "unknown-key", &unread.keys, out)
}

/// The first name of another file, and how many there are.
fn warn_of_names(
    alloc: Global,
    text: &[u8],
    unread: &Unread<'_>,
    out: &mut Messages,
) -> Result<(), OutOfMemory> {
    let Some(found) = unread.names.first.get(0) else {
        return Ok(());
    };
    let mut told = name_text(alloc, unread, *found)?;
    let count = unread.names.count;
    if count > 1 {
        write!(told, " ({count} locations name other files)")?;
    }
    let spot = spot_of(alloc, text, unread, found.node, "file_name", true)?;
    out.warning("file-name", File::Witness, spot, told)
}

/// Warns of the keys of a readable witness that aren't read, and of a location in another file.
pub fn warn_of_unread(
    alloc: Global,
    text: &[u8],
    tree: &Tree,
    out: &mut Messages,
) -> Result<(), OutOfMemory> {
    let unread = Unread::of(alloc, tree, text.len().saturating_add(1))?;
    warn_of_keys(alloc, text, &unread, out)?;
    warn_of_names(alloc, text, &unread, out)
}
