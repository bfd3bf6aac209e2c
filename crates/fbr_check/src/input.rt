//! The verdict over what standard input holds.

ghost use Rattle.std.specs.Prelude.{◌≡◌, MatchResult, option_map, true, false};
ghost use Rattle.std.specs.Str.{is_utf8};
ghost use Rattle.fbr_check.specs.Halves.{fence, fence_here, divide};
ghost use Rattle.fbr_check.specs.Verdicts.{IsInputVerdict, IsInputOutcome};

use crate::verdict::texts_outcome;
use fbr_files::{Fault, LIMIT, ReadFault, read_whole};
use std::alloc::Global;
use std::io::Read;

// What comes after the dividing line, where a text begins with it.
fn after_fence(text: &[u8]) -> Option<&[u8]>
    ensures { option_map (λ s. s.now) result ≡ fence text.now }
{
    if text.starts_with(b"====\n") {
        Some(&text[5..])
    } else if text.starts_with(b"====") && text.len() == 4 {
        Some(&[])
    } else {
        None
    }
}

// The dividing line stands only where a line begins.
fn fence_at(is_start: bool, text: &[u8]) -> Option<&[u8]>
    ensures { option_map (λ s. s.now) result ≡ fence_here is_start text.now }
{
    if is_start { after_fence(text) } else { None }
}

// The text up to the first line that is exactly `====`, and what comes after it.
fn halves(text: &[u8]) -> (&[u8], &[u8])
    ensures { (result.0.now, result.1.now) ≡ divide true text.now }
{
    let mut is_start = true;
    for i in 0..text.len() {
        if let Some(rest) = fence_at(is_start, &text[i..]) {
            return (&text[..i], rest);
        }
        is_start = text[i] == b'\n';
    }
    (text, &[])
}

// Bytes as text, where they are UTF-8.
fn as_text<'a, 'b>(bytes: &'a [u8]) -> Result<&'a str, Fault<'b>>
    ensures { MatchResult result (λ s. (s.now ≡ bytes.now) × (is_utf8 bytes.now ≡ true)) (λ f. (is_utf8 bytes.now ≡ false) × (f ≡ Fault.Input)) }
{
    match str::from_utf8(bytes) {
        Ok(text) => Ok(text),
        Err(_) => Err(Fault::Input),
    }
}

// The verdict over the two halves of an input.
fn check_bytes<'a>(alloc: Global, bytes: &[u8]) -> Result<(), Fault<'a>>
    ensures { IsInputVerdict bytes.now result }
{
    if bytes.len() > LIMIT {
        return Err(Fault::Input);
    }
    let (app, cert) = halves(bytes);
    match as_text(app) {
        Ok(app) => match as_text(cert) {
            Ok(cert) => texts_outcome(alloc, app, cert),
            Err(fault) => Err(fault),
        },
        Err(fault) => Err(fault),
    }
}

/// The verdict over what standard input holds: an application, a line that is exactly `====`, and its certificate.
pub fn input_outcome<'a, I: Read>(alloc: Global, input: &mut I) -> Result<(), Fault<'a>>
    ensures { IsInputOutcome (I.remaining input.old) result }
{
    match read_whole(alloc, input) {
        Ok(bytes) => check_bytes(alloc, &bytes),
        Err(ReadFault::Memory) => Err(Fault::Memory),
        Err(ReadFault::Unreadable) => Err(Fault::Input),
    }
}
