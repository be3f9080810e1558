// What a byte can be to a reader of documents, outside of strings.
ghost use Rattle.std.specs.Prelude.{◌≡◌};
ghost use Rattle.flux_doctext.specs.Reading.{sign_of};

use flux_atom::can_continue;

#[derive(Clone, Copy)]
pub(crate) enum Sign {
    Space,
    Comma,
    LeftBracket,
    RightBracket,
    LeftParen,
    RightParen,
    Quote,
    // It may begin a name.
    Letter,
    // It may stand in a name, and begins none: a digit, `.` or `-`.
    Digit,
    // It stands in strings alone.
    Other,
}

impl Sign {
    pub(crate) fn of(byte: u8) -> Sign
        ensures { result ≡ sign_of byte }
    {
        match byte {
            b' ' | b'\t' | b'\r' | b'\n' => Sign::Space,
            b',' => Sign::Comma,
            b'[' => Sign::LeftBracket,
            b']' => Sign::RightBracket,
            b'(' => Sign::LeftParen,
            b')' => Sign::RightParen,
            b'"' => Sign::Quote,
            b'_' => Sign::Letter,
            _ if byte.is_ascii_alphabetic() => Sign::Letter,
            _ if can_continue(byte) => Sign::Digit,
            _ => Sign::Other,
        }
    }
}
