//! Notes on what is accepted: which words show them, and how they count in the status.

ghost use Rattle.std.specs.Prelude.{◌≤◌};
ghost use Rattle.fbr_static.specs.Tellings.{IsCounted};

use fbr_tell::Words;
use fbr_words::{Bound, Check, Ranges};

/// The status where notes count, and there may be some: 1 where it would be 0.
pub fn counted(is_strict: bool, has_notes: bool, status: u8) -> u8
    ensures value { IsCounted is_strict status result }
    ensures small { status ≤ 4 → result ≤ 4 }
{
    if is_strict && has_notes && status == 0 {
        1
    } else {
        status
    }
}

/// The words that show what is noted of two files.
pub fn words_of_check<'a>(request: Check<'a>) -> Words<'a> {
    Words {
        cert: Some(request.cert),
        repeats: None,
        allowed: request.allowed,
    }
}

/// The words that show what is noted beside a certificate that was found: its file, where it is written into one; or none, where `explain` finds it again.
pub fn words_of_bound<'a>(request: Bound<'a>) -> Words<'a> {
    let is_again = matches!(request.ranges, Ranges::Rounds) && request.room.is_none();
    let cert = match request.into {
        Some(name) => Some(name),
        None => { if is_again { None } else { Some("CERT") } }
    };
    Words {
        cert,
        repeats: if cert.is_some() {
            None
        } else {
            request.repeats
        },
        allowed: request.allowed,
    }
}
