//! Waypoints of violation witnesses bound to a program: what an event passes, at which positions a run's events match
//! the segments, which values a witness gives, and which verdict is right.
#![tactic(auto)]

mod avoided;
mod by_place;
mod compared;
mod given_values;
mod laws;
mod matcher;
mod passing;
mod point;
mod prepared;
mod resting;
mod same;
mod sight;
mod states;
mod stored;
mod values;

pub use given_values::{given, given_over};
pub use laws::{confirmed_violates, confirms_exactly, test_matches};
pub use matcher::Matcher;
pub use point::{Aim, Bound, BoundSegment, Point, ReturnTest};
