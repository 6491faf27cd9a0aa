// What each code says and what may stand there, in one sentence.

/// What a refusal says, by its code.
pub fn advice(code: &str) -> &'static str {
    match code {
        "fault" => "this file isn't there, or can't be read",
        "usage" => "the arguments of the command line are misused",
        "too-long" =>
            "the file is too long: 1,048,576 bytes of a program or a witness, 4,096 of a property, 67,108,864 of a certificate",
        "property" => "the file holds neither the property of unreach-call nor that of no-overflow",
        "yaml-bytes" => "no such character may stand in a witness",
        "yaml-grammar" =>
            "the witness can be read up to here: what follows is outside the YAML that is read (no anchors, aliases, tags, directives, second documents, tabs as indentation; no GraphML)",
        "yaml-duplicate" => "this key stands twice in its map",
        "schema-missing" => "a key is missing here",
        "schema-kind" => "a value of another kind has to stand here",
        "schema-value" => "this text may not stand here",
        "schema-version" => "the version of the format has to be \"2.0\"",
        "schema-shape" =>
            "a segment is waypoints to avoid and then one to follow; the target is the waypoint to follow of the last segment, and stands nowhere else",
        "schema-entries" => "a witness is one violation sequence, or invariant sets alone",
        "kind" =>
            "certificates are of invariant sets, and values are sought for violation sequences: this witness is of the other kind",
        "files" => "an entry names one input file, and one hash, whose key is that file's name",
        "hash" => "the witness was made for a program of other bytes",
        "specification" =>
            "this isn't the given property: its whole text, or its inner formula, has to stand here",
        "language" => "the language has to be C",
        "model" => "the data model has to be ILP32 or LP64, and that of the first entry",
        "uuid" => "this is no identifier of RFC 9562",
        "token" => "no token of integer C stands here",
        "directive" =>
            "a directive that isn't skipped: run the preprocessor first (#include, #line, #pragma and line markers are skipped)",
        "syntax" => "this token can't stand here",
        "check-name" =>
            "this word names no object in scope, and no function that was declared before",
        "check-again" =>
            "this name is declared in this scope already, this label in this function, or this constant or default in this switch",
        "check-typing" =>
            "a rule on types is broken here: of operands, arguments, indexes, an initializer, a case constant, or of return, break or continue",
        "check-size" =>
            "an array has one or two constant sizes, at most 1,024 elements, and at most as many initializers",
        "check-order" =>
            "operands without an order change or read one object here, or call two functions that are defined in this file: give each its own statement",
        "check-body" => "this function has no body here, and isn't one of those that are built in",
        "check-main" => "main is missing, has parameters, or gives something other than int",
        "check-cells" => "with this declaration all objects have more than 100,000 cells",
        "recursion" =>
            "this function calls itself, maybe through others, and main reaches it: invariants are judged only of programs without recursion",
        "weight" => "the obligations, or the runs within the bound, are too big as circuits",
        "unknown-key" => "this key isn't read: the format doesn't have it in this map",
        "file-name" => "a location is in the file that the witness is about",
        "ended" => "the run that the witness gives ends without a violation of the property",
        "undefined" =>
            "the run that the witness gives comes to undefined behaviour before it violates the property",
        "unmatched" =>
            "the run that the witness gives violates the property, but doesn't pass its segments in their order",
        "none" => "no values make a run within the bound as the witness says",
        "undecided" => "a budget is spent: larger ones (--steps, --conflicts) may decide",
        "obligation" => "an obligation of the invariants fails, with the values that are shown",
        _ => "this release doesn't judge this form",
    }
}

/// Where a waypoint or an invariant of a type has to stand.
pub fn wanted_place(kind: &str) -> &'static str {
    match kind {
        "assumption" | "location_invariant" =>
            "the first character of a statement or of a declaration in a block",
        "loop_invariant" => "the first character of while, for or do",
        "branching" =>
            "the first character of if, while, for, do or switch, or the ? of a conditional",
        "function_enter" | "function_return" => "the closing parenthesis of a call",
        _ => "the first character of a statement, of a full expression or of a call of reach_error",
    }
}
