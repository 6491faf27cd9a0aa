// Classes of bytes, and how many bytes of a class stand at the front of a text.
ghost use Rattle.std.specs.Prelude.{◌≡◌, ◌≤◌, ◌<◌, length, IsTrue};
ghost use Rattle.std.specs.List.{prefix_len};
ghost use Rattle.c_tokens.specs.Bytes;
ghost use Rattle.c_tokens.specs.Gaps;

/// A space, a tab, a vertical tab or a form feed (ISO C11 5.1.1.2).
pub fn is_blank(byte: u8) -> bool
    ensures { result ≡ Bytes.is_blank byte }
{
    matches!(byte, b' ' | b'\t')
}

/// A letter of an identifier, or an underscore (ISO C11 6.4.2.1).
pub fn is_letter(byte: u8) -> bool
    ensures { result ≡ Bytes.is_letter byte }
{
    matches!(byte, b'a'..=b'z' | b'A'..=b'Z' | b'_')
}

/// A decimal digit.
pub fn is_digit(byte: u8) -> bool
    ensures { result ≡ Bytes.is_digit byte }
{
    matches!(byte, b'0'..=b'9')
}

/// An octal digit.
pub fn is_octal_digit(byte: u8) -> bool
    ensures { result ≡ Bytes.is_octal_digit byte }
{
    matches!(byte, b'0'..=b'7')
}

fn is_hexadecimal_digit(byte: u8) -> bool
    ensures { result ≡ Bytes.is_hexadecimal_digit byte }
{
    matches!(byte, b'0'..=b'9' | b'a'..=b'f' | b'A'..=b'F')
}

fn is_word_byte(byte: u8) -> bool
    ensures { result ≡ Bytes.is_word_byte byte }
{
    is_letter(byte) || is_digit(byte)
}

fn is_number_byte(byte: u8) -> bool
    ensures { result ≡ Bytes.is_number_byte byte }
{
    is_word_byte(byte) || byte == b'.'
}

/// A byte that may stand in a character constant or string as itself.
pub fn is_plain(byte: u8) -> bool
    ensures { result ≡ Bytes.is_plain byte }
{
    matches!(byte, b' '..=b'~') && byte != b'\'' && byte != b'\\'
}

/// The value of a digit, hexadecimal ones included.
pub fn digit_value(digit: u8) -> u8
    ensures { result ≡ Bytes.digit_value digit }
{
    match digit {
        0..=b'9' => digit.saturating_sub(48),
        b':'..=b'F' => digit.saturating_sub(55),
        _ => digit.saturating_sub(87),
    }
}

/// Whether a text begins with this byte.
pub fn begins_with(byte: u8, text: &[u8]) -> bool
    ensures here { result ≡ Gaps.begins_with byte text.now }
    ensures within { IsTrue result → 0 < length text.now }
{
    match text {
        [first, ..] => *first == byte,
        [] => false,
    }
}

/// How many blanks a text begins with.
pub fn blank_run(text: &[u8]) -> usize
    ensures run { result ≡ prefix_len Bytes.is_blank text.now }
    ensures within { result ≤ length text.now }
{
    text.iter().take_while(|byte| is_blank(**byte)).count()
}

/// How many bytes of a word a text begins with.
pub fn word_run(text: &[u8]) -> usize
    ensures run { result ≡ prefix_len Bytes.is_word_byte text.now }
    ensures within { result ≤ length text.now }
{
    text.iter().take_while(|byte| is_word_byte(**byte)).count()
}

/// How many bytes of a number a text begins with.
pub fn number_run(text: &[u8]) -> usize
    ensures run { result ≡ prefix_len Bytes.is_number_byte text.now }
    ensures within { result ≤ length text.now }
{
    text.iter()
        .take_while(|byte| is_number_byte(**byte))
        .count()
}

/// How many decimal digits a text begins with.
pub fn digit_run(text: &[u8]) -> usize
    ensures run { result ≡ prefix_len Bytes.is_digit text.now }
    ensures within { result ≤ length text.now }
{
    text.iter().take_while(|byte| is_digit(**byte)).count()
}

/// How many octal digits a text begins with.
pub fn octal_run(text: &[u8]) -> usize
    ensures run { result ≡ prefix_len Bytes.is_octal_digit text.now }
    ensures within { result ≤ length text.now }
{
    text.iter()
        .take_while(|byte| is_octal_digit(**byte))
        .count()
}

/// How many hexadecimal digits a text begins with.
pub fn hexadecimal_run(text: &[u8]) -> usize
    ensures run { result ≡ prefix_len Bytes.is_hexadecimal_digit text.now }
    ensures within { result ≤ length text.now }
{
    text.iter()
        .take_while(|byte| is_hexadecimal_digit(**byte))
        .count()
}

/// How many bytes stand before the line's end.
pub fn line_length(text: &[u8]) -> usize
    ensures before { result ≡ Gaps.line_length text.now }
    ensures within { result ≤ length text.now }
{
    text.iter().take_while(|byte| **byte != b'\n').count()
}
