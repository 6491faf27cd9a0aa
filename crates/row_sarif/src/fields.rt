// Fields of objects, and elements of arrays.
use serde_json::Value;

pub fn is_text(value: Option<&Value>) -> bool {
    match value {
        Some(value) => value.is_string(),
        None => false,
    }
}

/// Whether nothing stands there, or a text.
pub fn is_text_if(value: Option<&Value>) -> bool {
    value.is_none() || is_text(value)
}

/// The text there; empty where there is none.
pub fn text_in<'v>(value: Option<&'v Value>) -> &'v str {
    match value {
        Some(value) => value.as_str().unwrap_or(""),
        None => "",
    }
}

/// The number there, if it isn't negative.
pub fn number_in(value: Option<&Value>) -> Option<u64> {
    match value {
        Some(value) => value.as_u64(),
        None => None,
    }
}

/// Whether nothing stands there, or a number of at least -1, as the schema has it of indexes and identities.
pub fn is_index_if(value: Option<&Value>) -> bool {
    match value {
        Some(value) => match value.as_i64() {
            Some(number) => number >= -1,
            None => false,
        },
        None => true,
    }
}

/// The elements of an array; none where no array stands there.
pub fn items_of<'v>(value: Option<&'v Value>) -> &'v [Value] {
    match value {
        Some(value) => match value.as_array() {
            Some(items) => items.as_slice(),
            None => &[],
        },
        None => &[],
    }
}

/// Whether nothing stands there, or an array.
pub fn is_array_if(value: Option<&Value>) -> bool {
    match value {
        Some(value) => value.is_array(),
        None => true,
    }
}

/// Whether a value is among others.
fn is_among(value: &Value, others: &[Value]) -> bool {
    for other in others {
        if *other == *value {
            return true;
        }
    }
    false
}

/// Whether no two elements are equal (`uniqueItems`).
pub fn are_unique(items: &[Value]) -> bool {
    for (at, item) in items.iter().enumerate() {
        if is_among(item, items.get(..at).unwrap_or(&[])) {
            return false;
        }
    }
    true
}

/// Whether nothing stands there, or one of these words.
pub fn is_word_if(value: Option<&Value>, words: &[&str]) -> bool {
    match value {
        Some(value) => match value.as_str() {
            Some(word) => words.contains(&word),
            None => false,
        },
        None => true,
    }
}
