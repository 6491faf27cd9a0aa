ghost use Rattle.std.specs.Prelude.{◌≡◌};
ghost use Rattle.c_tokens.specs.Reading.{start, past, after};

use crate::bytes::is_blank;
use c_core::Spot;

/// A place in the text, and whether only blanks stand before it on its line.
#[derive(Clone, Copy, Debug)]
pub struct Place {
    pub spot: Spot,
    pub fresh: bool,
}

/// Line 1, column 1.
pub fn first_place() -> Place
    ensures { result ≡ start }
{
    Place {
        spot: Spot { line: 1, column: 1 },
        fresh: true,
    }
}

/// The place after one byte.
fn after_byte(place: Place, byte: u8) -> Place
    ensures { result ≡ after place byte }
{
    if byte == b'\n' {
        let spot = Spot {
            line: place.spot.line.saturating_add(1),
            column: 1,
        };
        return Place { spot, fresh: true };
    }
    let spot = Spot {
        line: place.spot.line,
        column: place.spot.column.saturating_add(1),
    };
    Place {
        spot,
        fresh: place.fresh && is_blank(byte),
    }
}

/// The place after a piece of text.
pub fn place_past(place: Place, piece: &[u8]) -> Place
    ensures { result ≡ past place piece.now }
{
    let mut at = place;
    for byte in piece {
        at = after_byte(at, *byte);
    }
    at
}
