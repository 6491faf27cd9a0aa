// Numbered waypoints of a violation sequence.
use wv_schema::{Segment, Waypoint};

/// A waypoint, with whether it is to be followed.
#[derive(Clone, Copy)]
pub struct Numbered<'a> {
    pub waypoint: &'a Waypoint,
    pub is_follow: bool,
}

/// The waypoint of this number, from 1.
pub fn waypoint_at(segments: &[Segment], number: u32) -> Option<Numbered<'_>> {
    let mut before = (number as usize).saturating_sub(1);
    for segment in segments {
        if let Some(waypoint) = segment.avoids.get(before) {
            return Some(Numbered {
                waypoint,
                is_follow: false,
            });
        }
        before = before.saturating_sub(segment.avoids.len());
        if before == 0 {
            return Some(Numbered {
                waypoint: &segment.follow,
                is_follow: true,
            });
        }
        before = before.saturating_sub(1);
    }
    None
}

/// The number of the waypoint to follow of a segment, which is counted from 0.
pub fn number_of_follow(segments: &[Segment], at: usize) -> u32 {
    let mut number = 0u32;
    for (index, segment) in segments.iter().enumerate() {
        let size = segment.avoids.len().saturating_add(1);
        number = number.saturating_add(u32::try_from(size).unwrap_or(u32::MAX));
        if index >= at {
            break;
        }
    }
    number
}

/// The number of a waypoint to avoid of a segment, which is counted from 0 in it; the waypoint to follow has the given
/// number.
pub fn number_in_segment(segment: &Segment, follow: u32, at: usize) -> u32 {
    let behind = segment.avoids.len().saturating_sub(at);
    follow.saturating_sub(u32::try_from(behind).unwrap_or(u32::MAX))
}
