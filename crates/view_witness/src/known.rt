// The keys that the format has in each map of a witness.
use view_paths::is_near;

/// A map, a key that it may have, and the map or the list that stands at this key; empty where it is a text, or what
/// isn't looked into.
const KNOWN: [(&str, &str, &str); 35] = [
    ("entry", "entry_type", ""),
    ("entry", "metadata", "metadata"),
    ("entry", "content", "content"),
    ("metadata", "format_version", ""),
    ("metadata", "uuid", ""),
    ("metadata", "creation_time", ""),
    ("metadata", "producer", "producer"),
    ("metadata", "task", "task"),
    ("producer", "name", ""),
    ("producer", "version", ""),
    ("producer", "configuration", ""),
    ("producer", "command_line", ""),
    ("producer", "description", ""),
    ("task", "input_files", ""),
    ("task", "input_file_hashes", ""),
    ("task", "specification", ""),
    ("task", "data_model", ""),
    ("task", "language", ""),
    ("element", "segment", "segment"),
    ("element", "invariant", "invariant"),
    ("step", "waypoint", "waypoint"),
    ("waypoint", "type", ""),
    ("waypoint", "action", ""),
    ("waypoint", "location", "location"),
    ("waypoint", "constraint", "constraint"),
    ("location", "file_name", ""),
    ("location", "line", ""),
    ("location", "column", ""),
    ("location", "function", ""),
    ("constraint", "value", ""),
    ("constraint", "format", ""),
    ("invariant", "type", ""),
    ("invariant", "location", "location"),
    ("invariant", "value", ""),
    ("invariant", "format", ""),
];

/// The maps of the table, in its order.
const MAPS: [&str; 10] = [
    "entry",
    "metadata",
    "producer",
    "task",
    "element",
    "step",
    "waypoint",
    "location",
    "constraint",
    "invariant",
];

/// The name of the items of a list; empty where they aren't looked into.
pub fn item_of(list: &str) -> &'static str {
    match list {
        "entries" => "entry",
        "content" => "element",
        "segment" => "step",
        _ => "",
    }
}

/// How a message calls a map.
pub fn map_words(map: &str) -> &'static str {
    match map {
        "entry" => "an entry",
        "metadata" => "`metadata`",
        "producer" => "`producer`",
        "task" => "`task`",
        "element" => "an item of `content`",
        "step" => "an item of `segment`",
        "waypoint" => "`waypoint`",
        "location" => "`location`",
        "constraint" => "`constraint`",
        _ => "`invariant`",
    }
}

/// What stands at a key of a map, where the map may have it.
pub fn inside(map: &str, key: &str) -> Option<&'static str> {
    for row in KNOWN {
        let (known_map, known, within) = row;
        if known_map == map && known == key {
            return Some(within);
        }
    }
    None
}

/// The map at a key of a map that may have a key itself.
fn owner_below(map: &str, key: &str) -> Option<&'static str> {
    for row in KNOWN {
        let (known_map, _, within) = row;
        if known_map == map && inside(within, key).is_some() {
            return Some(within);
        }
    }
    None
}

/// The first map that may have a key.
fn owner_anywhere(key: &str) -> Option<&'static str> {
    for row in KNOWN {
        let (map, known, _) = row;
        if known == key {
            return Some(map);
        }
    }
    None
}

/// The map into which a key belongs that stands in a map within another one.
pub fn owner(map: &'static str, above: &'static str, key: &str) -> Option<&'static str> {
    if inside(map, key).is_some() {
        return Some(map);
    }
    if let Some(below) = owner_below(map, key) {
        return Some(below);
    }
    if inside(above, key).is_some() {
        return Some(above);
    }
    owner_anywhere(key)
}

/// The key of a map that is near to a word.
fn near_in(map: &str, word: &str) -> Option<&'static str> {
    for row in KNOWN {
        let (known_map, known, _) = row;
        if known_map == map && is_near(known, word) {
            return Some(known);
        }
    }
    None
}

/// The key of any map that is near to a word.
fn near_anywhere(word: &str) -> Option<&'static str> {
    for map in MAPS {
        if let Some(near) = near_in(map, word) {
            return Some(near);
        }
    }
    None
}

/// The known key that a word in a map is most likely meant for: one of the map, or the word itself, or one of another
/// map.
pub fn meant(map: &str, word: &str) -> Option<&'static str> {
    if let Some(near) = near_in(map, word) {
        return Some(near);
    }
    near_anywhere(word)
}
