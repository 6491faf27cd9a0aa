//! Small texts beside the trees that they spell, computed by the definitions of `wv_yaml`: definitions alone, on which
//! no crate stands.
#![tactic(auto)]
