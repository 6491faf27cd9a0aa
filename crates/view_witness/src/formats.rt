// Witnesses of other formats than 2.0.

/// Whether a text is a document of XML, as witnesses of format 1.0 are.
pub fn is_graphml(text: &[u8]) -> bool {
    let solid = match text {
        [0xef, 0xbb, 0xbf, rest @ ..] => rest.trim_ascii_start(),
        _ => text.trim_ascii_start(),
    };
    match solid {
        [b'<', b'?' | b'!', ..] => true,
        [b'<', next, ..] => next.is_ascii_alphabetic(),
        _ => false,
    }
}

/// What is told of a witness of format 1.0.
pub const GRAPHML: &str =
    "the witness is in format 1.0 (GraphML), which isn't read: write it in format 2.0 (YAML)";

/// What is told of a version that isn't read, after its name.
pub fn version_rule(stated: &str) -> &'static str {
    match stated {
        "2.1" =>
            "only \"2.0\" is read. A witness that uses nothing of 2.1 can state \"2.0\"; transition invariants, ghost variables, function contracts and cycles aren't read",
        "0.1" | "1.0" | "1" => "it is older than what is read: it has to be \"2.0\"",
        "2" => "it has to be \"2.0\", in quotes and with its digit after the point",
        _ => "it has to be \"2.0\"",
    }
}

/// The other format that has a type of entries or invariants, in words that stand after it; empty where none is known.
pub fn other_format(word: &str) -> &'static str {
    match word {
        "ghost_instrumentation"
        | "loop_transition_invariant"
        | "location_transition_invariant"
        | "function_contract" => " (that is of format 2.1, which isn't read)",
        "loop_invariant_certificate" | "precondition_loop_invariant" =>
            " (that is of format 0.1, which isn't read)",
        _ => "",
    }
}
