// The programs and witnesses of a number.
use std::process::Abort;
use std::test::Fail;
use wv_author::demo;
use wv_schema::Witness;

/// The text has this line after this many others.
fn has_line(rt: &impl Abort, text: &str, before: usize, wanted: &str) {
    let line = text.lines().nth(before);
    assert!(rt; line == Some(wanted), "behind {before} lines");
}

/// The hash that the first entry states.
fn hash_in(witness: &Witness) -> Option<&str> {
    let entry = witness.entries.get(0)?;
    let pair = entry.metadata.input_hashes.get(0)?;
    Some(pair.hash.as_str())
}

/// The hashes are those that `sha256sum` gives for the two texts.
#[test]
fn the_number_gives_the_bounds_and_the_hashes(rt: HostRuntime) -> Result<(), Fail> {
    let zero = demo(rt.alloc(), 0)?;
    has_line(&rt, zero.correct.as_str(), 4, "  while (x1 < 1) {");
    has_line(&rt, zero.correct.as_str(), 11, "  while (x2 < 69) {");
    let made = demo(rt.alloc(), 7)?;
    has_line(&rt, made.correct.as_str(), 4, "  while (x1 < 65) {");
    has_line(&rt, made.faulty.as_str(), 284, "  if (y == 7) {");
    assert!(rt;
        hash_in(&made.invariants)
            == Some("52682147ccf83b6e1930582558dbc74a6406b6a9e304b6bce26076d258519ed4")
    );
    assert!(rt;
        hash_in(&made.violation)
            == Some("04d2e50ec2188cdb3880bf70290622f6bc347bd3b49d33e00d79a99af0546f96")
    );
    Ok(())
}
