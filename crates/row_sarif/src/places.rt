// Locations, regions, references to files, and messages.
use crate::fields::{are_unique, is_array_if, is_index_if, is_text, items_of, number_in, text_in};
use serde_json::Value;

/// The signs that may stand in a reference (RFC 3986, A), the percent sign apart.
const SIGNS: &[u8] = b"-._~/!$&'()*+,;=:@";

fn is_of_reference(byte: u8) -> bool {
    byte.is_ascii_alphanumeric() || SIGNS.contains(&byte)
}

/// Whether a digit of base 16 stands there.
fn is_digit(byte: Option<&u8>) -> bool {
    match byte {
        Some(byte) => byte.is_ascii_hexdigit(),
        None => false,
    }
}

/// Whether a text is characters of references, and each percent sign stands before two digits of base 16.
fn is_escaped(text: &[u8]) -> bool {
    for (at, byte) in text.iter().enumerate() {
        let fits = if *byte == b'%' {
            is_digit(text.get(at.saturating_add(1))) && is_digit(text.get(at.saturating_add(2)))
        } else {
            is_of_reference(*byte)
        };
        if !fits {
            return false;
        }
    }
    true
}

/// Whether a reference is a path (RFC 3986 4.2): it has no host, and no scheme before its first slash.
fn is_path(uri: &str) -> bool {
    if uri.starts_with("//") || uri.is_empty() {
        return false;
    }
    let (first, _) = uri.split_once('/').unwrap_or((uri, ""));
    !first.as_bytes().contains(&b':')
}

/// Whether a message has a text in which braces come in pairs, since one alone stands for an argument (3.11.5), and
/// nothing is a link (3.11.6).
pub fn is_message(message: Option<&Value>) -> bool {
    let Some(message) = message else {
        return false;
    };
    if !is_text(message.get("text")) {
        return false;
    }
    let text = text_in(message.get("text"));
    !text.contains("](") && !text.is_empty() && is_paired(text, '{') && is_paired(text, '}')
}

/// Whether a sign stands in pairs alone.
fn is_paired(text: &str, sign: char) -> bool {
    let mut is_open = false;
    for c in text.chars() {
        if c == sign {
            is_open = !is_open;
        } else if is_open {
            return false;
        }
    }
    !is_open
}

/// Whether the end of a region isn't before its start.
pub fn is_ordered(region: &Value) -> bool {
    let line = number_in(region.get("startLine"));
    let column = number_in(region.get("startColumn"));
    let (Some(line), Some(column)) = (line, column) else {
        return false;
    };
    let last = number_in(region.get("endLine")).unwrap_or(line);
    let end = number_in(region.get("endColumn"));
    line >= 1 && column >= 1 && last >= line && (last > line || is_from(end, column))
}

/// Whether a number is there and at least another.
fn is_from(number: Option<u64>, least: u64) -> bool {
    match number {
        Some(number) => number >= least,
        None => false,
    }
}

/// What the name of an artifact lacks.
pub fn artifact_lacks(place: &Value) -> Option<&'static str> {
    let uri = place.pointer("/artifactLocation/uri");
    if !is_text(uri) {
        return Some("artifactLocation.uri");
    }
    let uri = text_in(uri);
    if !is_path(uri) || !is_escaped(uri.as_bytes()) {
        return Some("a reference to a file");
    }
    None
}

/// What a physical location lacks: it has to name its artifact, and a region here has its first and last line and
/// column.
fn physical_lacks(place: &Value) -> Option<&'static str> {
    if let Some(member) = artifact_lacks(place) {
        return Some(member);
    }
    match place.get("region") {
        Some(region) if !is_ordered(region) => Some("an ordered region"),
        _ => None,
    }
}

/// What a location lacks.
pub fn location_lacks(location: &Value) -> Option<&'static str> {
    if !is_index_if(location.get("id")) {
        return Some("location.id");
    }
    if location.get("message").is_some() && !is_message(location.get("message")) {
        return Some("location.message");
    }
    match location.get("physicalLocation") {
        Some(place) => physical_lacks(place),
        None => Some("physicalLocation"),
    }
}

/// What an array of locations lacks.
pub fn locations_lack(value: Option<&Value>, are_distinct: bool) -> Option<&'static str> {
    if !is_array_if(value) {
        return Some("an array of locations");
    }
    let locations = items_of(value);
    if are_distinct && !are_unique(locations) {
        return Some("locations that differ");
    }
    for location in locations {
        if let Some(member) = location_lacks(location) {
            return Some(member);
        }
    }
    None
}
