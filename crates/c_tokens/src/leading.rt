// What stands before a word of its own: blanks, comments and opening parentheses.
ghost use Rattle.std.specs.Prelude.{◌≡◌, ◌∷◌, [], ◌<◌, length, drop};
ghost use Rattle.c_tokens.specs.Reading.{Leads, LeadEnds, start};
ghost use Rattle.c_tokens.specs.Scan.{LeadSteps};

use crate::gap::{Gap, gap_at};
use crate::place::{Place, first_place, place_past};

/// How many bytes the next gap or parenthesis takes, and how many parentheses these are.
fn lead_step(text: &[u8]) -> Option<(usize, usize)>
    ensures { LeadSteps text.now result }
{
    match gap_at(false, text) {
        Gap::Space(length) => Some((length, 0)),
        _ => match text {
            [b'(', ..] => Some((1, 1)),
            _ => None,
        },
    }
}

/// How many opening parentheses the text begins with, blanks and comments between them, the place after all of these
/// and the rest of the text from there on.
pub fn lead(bytes: &[u8]) -> (usize, Place, &[u8])
    ensures leads { Leads start bytes.now result.0 result.1 result.2.now }
    ensures ends { LeadEnds result.2.now }
{
    let mut parens = 0;
    let mut place = first_place();
    let mut rest = bytes;
    for _passed in 0..bytes.len() {
        let Some((length, more)) = lead_step(rest) else {
            return (parens, place, rest);
        };
        place = place_past(place, &rest[..length]);
        rest = &rest[length..];
        parens += more;
    }
    (parens, place, rest)
}
