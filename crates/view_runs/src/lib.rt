//! A violation sequence along the run that it gives: how far the run passes its segments, what its constraints read at
//! each coming, how often it comes to each line; and the words that messages have for waypoints, types, places and
//! objects.
#![tactic(auto)]

mod comings;
mod passing;
mod placed;
mod reads;
mod route;
mod segments;
mod spelled;
mod tracker;
mod ways;

pub use comings::{Avoided, Coming, Comings, Held, comings_text, values_text};
pub use route::{Route, Waiting};
pub use segments::{Numbered, number_in_segment, number_of_follow, waypoint_at};
pub use spelled::{
    declared_at, invariant_word, is_same_spot, place_text, spot_of, times_text, type_word,
    way_word, waypoint_text,
};
pub use tracker::{Tracker, shown_spot};
