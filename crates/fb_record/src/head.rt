//! The first line of a record.

ghost use Rattle.std.specs.Prelude.{◌≡◌, ◌++◌, ◌∷◌, [], IfOk, map, option_map, string_bytes};
ghost use Rattle.std.specs.Io.KnownBytes.{Appends};
ghost use Rattle.hex.specs.Hex.{encode_lower};
ghost use Rattle.sha2.specs.Sha256.{sha256};
ghost use Rattle.fb_record.specs.Records.{head_in, head_text, head_with, is_digest, words_line};
ghost use Rattle.fb_record.specs.Views.{head_of};

use fb_numbers::read_long_number;
use sha2::{Digest, Sha256};
use std::alloc::{AllocError, Global};
use std::io;
use std::io::Write;

/// Whose turns a record holds: the device's name and its boot, and the SHA-256 of its application and of its certificate, in hexadecimal digits.
#[derive(Clone, Copy)]
pub struct Head<'a> {
    pub device: &'a str,
    pub boot: u32,
    pub app: &'a str,
    pub cert: &'a str,
}

// The SHA-256 of a text, in digits.
fn digest_of(alloc: Global, text: &str) -> Result<String, AllocError>
    ensures { IfOk result (λ digits. string_bytes digits ≡ encode_lower (sha256 text.now)) }
{
    let digest = Sha256::digest(text.as_bytes());
    hex::encode(alloc, digest)
}

/// Whether a word is the SHA-256 of a text.
pub fn is_digest(alloc: Global, word: &str, text: &str) -> Result<bool, AllocError>
    ensures { IfOk result (λ is. is ≡ is_digest word.now text.now) }
{
    let digits = digest_of(alloc, text)?;
    Ok(word == digits.as_str())
}

// The first line of a record with these words.
fn words_line(
    alloc: Global,
    device: &str,
    boot: u32,
    app: &str,
    cert: &str,
) -> Result<String, AllocError>
    ensures { IfOk result (λ line. string_bytes line ≡ words_line device.now boot app.now cert.now ++ 10 ∷ []) }
{
    let mut line = format!(in alloc; "fbr-record 1 {device} {boot} ")?;
    line.push_str(app)?;
    line.push_str(" ")?;
    line.push_str(cert)?;
    line.push_str("\n")?;
    Ok(line)
}

/// Writes the first line of the record of a device of two texts.
pub fn put_head<F: Write>(
    alloc: Global,
    device: &str,
    boot: u32,
    app: &str,
    cert: &str,
    stream: &mut F,
) -> io::Result<()>
    ensures { IfOk result (λ _. Appends (F.contents stream.old) (F.contents stream.new) (head_text device.now boot app.now cert.now ++ 10 ∷ [])) }
{
    let app = digest_of(alloc, app)?;
    let cert = digest_of(alloc, cert)?;
    let line = words_line(alloc, device, boot, app.as_str(), cert.as_str())?;
    stream.write_all(line.as_bytes())
}

// Whose turns these words say, where the boot is one.
fn head_with<'a>(
    device: &'a str,
    boot: Option<u32>,
    app: &'a str,
    cert: &'a str,
) -> Option<Head<'a>>
    ensures { option_map head_of result ≡ head_with device.now boot app.now cert.now }
{
    match boot {
        Some(boot) => Some(Head {
            device,
            boot,
            app,
            cert,
        }),
        None => None,
    }
}

/// Whose turns a record holds, by the words of its first line.
pub fn read_head<'a>(words: &[&'a str]) -> Option<Head<'a>>
    ensures { option_map head_of result ≡ head_in (map (λ w. w.now) words.now) }
{
    match words {
        [magic, version, device, boot, app, cert] => {
            if *magic == "fbr-record" && *version == "1" {
                head_with(device, read_long_number(boot), app, cert)
            } else {
                None
            }
        }
        _ => None,
    }
}
