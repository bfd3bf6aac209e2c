//! Layout and comments.

ghost use Rattle.std.specs.Prelude.{◌≡◌, false};
ghost use Rattle.fb_lex.specs.Scanning.{closes_at, begins_layout, gap_at};
ghost use Rattle.fb_lex.specs.Lexing.{Closing, Gaps, Skips};

use crate::characters::is_layout;
use fb_faults::TextFault;

/// What is left behind the `*)` that comes first.
#[tactic(auto, unfolding(crate::specs::Scanning::closes_at))]
fn closes_at(bytes: &[u8]) -> Option<&[u8]>
    ensures { Closing result (closes_at bytes.now) }
{
    let mut rest = bytes;
    while let [first, second, behind @ ..] = rest {
        if *first == b'*' && *second == b')' {
            return Some(behind);
        }
        rest = &rest[1..];
    }
    None
}

/// What a comment leaves, where no layout stands.
#[tactic(auto, unfolding(crate::specs::Scanning::gap_at))]
pub(crate) fn comment_at(start: usize, bytes: &[u8]) -> Result<Option<&[u8]>, TextFault>
    requires { begins_layout bytes.now ≡ false }
    ensures { Skips start result (gap_at bytes.now) }
{
    let [first, second, inside @ ..] = bytes else {
        return Ok(None);
    };
    if *first != b'(' || *second != b'*' {
        return Ok(None);
    }
    match closes_at(inside) {
        Some(behind) => Ok(Some(behind)),
        None => Err(TextFault::BadCharacter(start)),
    }
}

/// What is left behind the layout characters that stand there.
pub(crate) fn behind_layout(bytes: &[u8]) -> &[u8]
    ensures left { Gaps bytes.now result.now }
    ensures bare { begins_layout result.now ≡ false }
{
    let mut left = bytes;
    while let [byte, behind @ ..] = left
        && is_layout(*byte)
    {
        left = behind;
    }
    left
}
