//! What the waypoints of a witness are bound to can be followed on circuits. Its one promise is that law.
#![tactic(auto)]

mod laws;

pub use laws::bound_segments_can_be_followed;
