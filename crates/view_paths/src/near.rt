// Words that differ little.

/// Longer words are near to none.
const LONGEST: usize = 32;

/// Whether two words have the same letter at these offsets, whatever its case.
fn is_same_letter(a: &[u8], b: &[u8], in_a: usize, in_b: usize) -> bool {
    match (a.get(in_a), b.get(in_b)) {
        (Some(x), Some(y)) => x.to_ascii_lowercase() == y.to_ascii_lowercase(),
        _ => false,
    }
}

/// How many letters two words have in common at their fronts.
fn common_front(a: &[u8], b: &[u8]) -> usize {
    for at in 0..LONGEST {
        if !is_same_letter(a, b, at, at) {
            return at;
        }
    }
    LONGEST
}

/// How many letters two words have in common at their ends.
fn common_end(a: &[u8], b: &[u8]) -> usize {
    for count in 0..a.len().min(b.len()) {
        let in_a = a.len().saturating_sub(count).saturating_sub(1);
        let in_b = b.len().saturating_sub(count).saturating_sub(1);
        if !is_same_letter(a, b, in_a, in_b) {
            return count;
        }
    }
    a.len().min(b.len())
}

/// Whether two words differ in at most two neighbouring letters, and have more than half in common.
pub fn is_near(a: &str, b: &str) -> bool {
    let longer = a.len().max(b.len());
    let shorter = a.len().min(b.len());
    if longer > LONGEST {
        return false;
    }
    let front = common_front(a.as_bytes(), b.as_bytes());
    let end = common_end(a.as_bytes(), b.as_bytes());
    let common = front.saturating_add(end).min(shorter);
    common.saturating_add(2) >= longer && common.saturating_mul(2) > longer
}
