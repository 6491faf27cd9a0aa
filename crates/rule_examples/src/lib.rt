//! Small sources beside their first refusals, computed by the rules of `check_rules`: definitions alone, on which no
//! crate stands.
#![tactic(auto)]
