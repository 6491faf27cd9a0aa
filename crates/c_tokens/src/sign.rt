ghost use Rattle.std.specs.Prelude.{◌≡◌, ◌∷◌, []};
ghost use Rattle.c_tokens.specs.Signs.{signs};
ghost use Rattle.c_tokens.specs.Scan.{sign_among};

use crate::token::Punct;

/// The longest sign here, and its length.
pub fn sign_at(text: &[u8]) -> Option<(usize, Punct)>
    ensures { result ≡ sign_among signs text.now }
{
    match text {
        [first, second, third, ..] => sign_of(*first, *second, *third),
        [first, second] => sign_of(*first, *second, 0),
        [first] => sign_of(*first, 0, 0),
        [] => None,
    }
}

/// The longest sign that these bytes begin with.
fn sign_of(first: u8, second: u8, third: u8) -> Option<(usize, Punct)>
    ensures { result ≡ sign_among signs (first ∷ second ∷ third ∷ []) }
{
    match first {
        b'(' => Some((1, Punct::ParenOpen)),
        b')' => Some((1, Punct::ParenClose)),
        b'{' => Some((1, Punct::BraceOpen)),
        b'}' => Some((1, Punct::BraceClose)),
        b'[' => Some((1, Punct::BracketOpen)),
        b']' => Some((1, Punct::BracketClose)),
        b';' => Some((1, Punct::Semicolon)),
        b',' => Some((1, Punct::Comma)),
        b':' => Some((1, Punct::Colon)),
        b'?' => Some((1, Punct::Question)),
        b'~' => Some((1, Punct::Tilde)),
        b'.' if second == b'.' && third == b'.' => Some((3, Punct::Ellipsis)),
        b'.' => Some((1, Punct::Dot)),
        b'=' if second == b'=' => Some((2, Punct::Equal)),
        b'=' => Some((1, Punct::Assign)),
        b'!' if second == b'=' => Some((2, Punct::NotEqual)),
        b'!' => Some((1, Punct::Exclamation)),
        b'<' if second == b'<' && third == b'=' => Some((3, Punct::ShiftLeftAssign)),
        b'<' if second == b'<' => Some((2, Punct::ShiftLeft)),
        b'<' if second == b'=' => Some((2, Punct::LessEqual)),
        b'<' => Some((1, Punct::Less)),
        b'>' if second == b'>' && third == b'=' => Some((3, Punct::ShiftRightAssign)),
        b'>' if second == b'>' => Some((2, Punct::ShiftRight)),
        b'>' if second == b'=' => Some((2, Punct::GreaterEqual)),
        b'>' => Some((1, Punct::Greater)),
        b'+' if second == b'+' => Some((2, Punct::PlusPlus)),
        b'+' if second == b'=' => Some((2, Punct::PlusAssign)),
        b'+' => Some((1, Punct::Plus)),
        b'-' if second == b'>' => Some((2, Punct::Arrow)),
        b'-' if second == b'-' => Some((2, Punct::MinusMinus)),
        b'-' if second == b'=' => Some((2, Punct::MinusAssign)),
        b'-' => Some((1, Punct::Minus)),
        b'*' if second == b'=' => Some((2, Punct::StarAssign)),
        b'*' => Some((1, Punct::Star)),
        b'/' if second == b'=' => Some((2, Punct::SlashAssign)),
        b'/' => Some((1, Punct::Slash)),
        b'%' if second == b'=' => Some((2, Punct::PercentAssign)),
        b'%' => Some((1, Punct::Percent)),
        b'^' if second == b'=' => Some((2, Punct::CaretAssign)),
        b'^' => Some((1, Punct::Caret)),
        b'&' if second == b'&' => Some((2, Punct::AmpersandAmpersand)),
        b'&' if second == b'=' => Some((2, Punct::AmpersandAssign)),
        b'&' => Some((1, Punct::Ampersand)),
        b'|' if second == b'|' => Some((2, Punct::PipePipe)),
        b'|' if second == b'=' => Some((2, Punct::PipeAssign)),
        b'|' => Some((1, Punct::Pipe)),
        _ => None,
    }
}
