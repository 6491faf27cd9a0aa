// What a text of a file of rows stands for. A control picture stands for its character: U+2400 to U+241F for the
// control characters from NUL on (a line feed, a tab), U+2420 for a blank, U+2421 for DEL. Angle brackets U+27E8 and
// U+27E9 hold `x` and a byte in hexadecimal digits, `U+` and a character's number, or a count, a blank and a text that
// stands there so many times.
use std::alloc::{AllocError, Global};

/// The character that a character of a file stands for.
fn meant(c: char) -> char {
    let code = c as u32;
    let meant = match code {
        0x2400..=0x2420 => char::from_u32(code - 0x2400),
        0x2421 => Some('\x7f'),
        _ => None,
    };
    meant.unwrap_or(c)
}

/// The character that shows a character of an answer.
fn picture(c: char) -> char {
    let code = c as u32;
    let picture = match code {
        0..0x20 => char::from_u32(code + 0x2400),
        0x7f => char::from_u32(0x2421),
        _ => None,
    };
    picture.unwrap_or(c)
}

/// A text in one line, its control characters as pictures.
pub fn in_one_line(alloc: Global, text: &str) -> Result<String, AllocError> {
    let mut line = String::new(alloc);
    for c in text.chars() {
        line.push(picture(c))?;
    }
    Ok(line)
}

fn push_plain(alloc: Global, out: &mut Vec<u8>, text: &str) -> Result<(), AllocError> {
    let mut plain = String::new(alloc);
    for c in text.chars() {
        plain.push(meant(c))?;
    }
    out.extend_from_slice(plain.as_bytes())
}

/// A character by its number; what is no number stands for nothing.
fn push_numbered(alloc: Global, out: &mut Vec<u8>, digits: &str) -> Result<(), AllocError> {
    let Ok(code) = u32::from_str_radix(digits, 16) else {
        return Ok(());
    };
    let mut text = String::new(alloc);
    if let Some(c) = char::from_u32(code) {
        text.push(c)?;
    }
    out.extend_from_slice(text.as_bytes())
}

fn push_repeated(
    alloc: Global,
    out: &mut Vec<u8>,
    count: &str,
    text: &str,
) -> Result<(), AllocError> {
    let Ok(count) = count.parse::<u32>() else {
        return Ok(());
    };
    let mut once = Vec::new(alloc);
    push_plain(alloc, &mut once, text)?;
    for _ in 0..count {
        out.extend_from_slice(once.as_slice())?;
    }
    Ok(())
}

/// What stands between angle brackets.
fn push_bracketed(alloc: Global, out: &mut Vec<u8>, inside: &str) -> Result<(), AllocError> {
    if let Some(digits) = inside.strip_prefix("U+") {
        return push_numbered(alloc, out, digits);
    }
    if let Some(digits) = inside.strip_prefix('x') {
        if let Ok(byte) = u8::from_str_radix(digits, 16) {
            out.push(byte)?;
        }
        return Ok(());
    }
    match inside.split_once(' ') {
        Some((count, text)) => push_repeated(alloc, out, count, text),
        None => Ok(()),
    }
}

/// Appends the bytes that a text of a file stands for.
pub fn push_meant(alloc: Global, out: &mut Vec<u8>, text: &str) -> Result<(), AllocError> {
    for part in text.split('\u{27e8}') {
        match part.split_once('\u{27e9}') {
            Some((inside, behind)) => {
                push_bracketed(alloc, out, inside)?;
                push_plain(alloc, out, behind)?;
            }
            None => push_plain(alloc, out, part)?,
        }
    }
    Ok(())
}
