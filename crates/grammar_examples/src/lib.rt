//! Small texts beside the trees that the grammar of `c_parser` spells for them, computed or derived: definitions alone,
//! on which only examples stand.
#![tactic(auto)]
