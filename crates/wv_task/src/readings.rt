// Identifiers and creation times of entries.
ghost use Rattle.std.specs.Prelude.{◌≡◌, IfOk, is_some};
ghost use Rattle.uuid.specs.Text.{parsed};
ghost use Rattle.wv_task.specs.Readings.{created_of, identifier_of};

use jiff::Timestamp;
use std::alloc::Global;
use uuid::Uuid;
use wv_base::{OutOfMemory, Text};

/// The seconds since 1970 of a creation time, rounded down, or `None` where it is no instant. Years before 1970 give
/// negative numbers.
pub fn created(_alloc: Global, time: &Text) -> Result<Option<i128>, OutOfMemory>
    ensures { result ≡ Ok (created_of time.now) }
{
    match time.as_str().parse::<Timestamp>() {
        Ok(instant) => Ok(Some(instant.as_nanosecond().div_euclid(1_000_000_000))),
        Err(_) => Ok(None),
    }
}

/// An identifier in lower case with hyphens, or `None` where the text is none.
pub fn identifier(alloc: Global, uuid: &Text) -> Result<Option<Text>, OutOfMemory>
    ensures { IfOk result (λ found. found ≡ identifier_of uuid.now) }
{
    match Uuid::parse_str(uuid.as_str()) {
        Ok(id) => {
            let mut buffer = Uuid::encode_buffer();
            let text = Text::of(alloc, id.hyphenated().encode_lower(&mut buffer))?;
            Ok(Some(text))
        }
        Err(_) => Ok(None),
    }
}

/// Whether `uuid` reads the text.
pub fn is_identifier(text: &str) -> bool
    ensures { result ≡ is_some (parsed text.now) }
{
    Uuid::parse_str(text).is_ok()
}
