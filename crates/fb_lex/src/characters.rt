//! Characters.

ghost use Rattle.std.specs.Prelude.{◌≡◌};
ghost use Rattle.fb_model.specs.Spelling.{is_layout, is_digit, is_start, is_part};
ghost use Rattle.fb_lex.specs.Scanning.{digit_below, digit_in};

pub(crate) fn is_layout(byte: u8) -> bool
    ensures { result ≡ is_layout byte }
{
    byte == b' ' || byte == b'\t' || byte == b'\r' || byte == b'\n'
}

pub(crate) fn is_digit(byte: u8) -> bool
    ensures { result ≡ is_digit byte }
{
    b'0' <= byte && byte <= b'9'
}

/// A letter or `_`.
pub(crate) fn is_start(byte: u8) -> bool
    ensures { result ≡ is_start byte }
{
    (b'A' <= byte && byte <= b'Z') || (b'a' <= byte && byte <= b'z') || byte == b'_'
}

pub(crate) fn is_part(byte: u8) -> bool
    ensures { result ≡ is_part byte }
{
    is_start(byte) || is_digit(byte)
}

/// What a digit counts in a base of 16 at most, letters from A on counting from ten.
pub(crate) fn digit_in(base: u64, byte: u8) -> Option<u64>
    ensures { result ≡ digit_in base byte }
{
    let upper = byte.to_ascii_uppercase();
    if is_digit(byte) {
        digit_below(base, byte - b'0')
    } else if b'A' <= upper && upper <= b'F' {
        digit_below(base, upper - 55)
    } else {
        None
    }
}

fn digit_below(base: u64, value: u8) -> Option<u64>
    ensures { result ≡ digit_below base value }
{
    if (value as u64) < base {
        Some(value as u64)
    } else {
        None
    }
}
