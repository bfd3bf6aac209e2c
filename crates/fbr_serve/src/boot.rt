//! The boot of a device.

ghost use Rattle.std.specs.Prelude.{◌≡◌, ◌<◌, MatchResult, string_bytes, IfOk};
ghost use Rattle.fbr_files.specs.Outcomes.{IsReadFault};
ghost use Rattle.fbr_files.specs.Writing.{LeavesAllBut, LeavesOthers};
ghost use Rattle.fbr_words.specs.Program.{boot_file};
ghost use Rattle.fbr_words.specs.Requests.{boot_of};
ghost use Rattle.fbr_serve.specs.Serving.{boot_in, next_text, HasNoBoot, TakesBoot, TakesFileBoot};

use fb_numbers::read_long_number;
use fbr_files::{Fault, Sources, put_text, read_file};
use fbr_words::Boot;
use std::alloc::{AllocError, Global};

// The boot that a file's text holds.
fn read_boot(text: &str) -> Option<u32>
    ensures { result ≡ boot_in text.now }
{
    match read_long_number(text.trim()) {
        Some(boot) => { if boot < u32::MAX { Some(boot) } else { None } }
        None => None,
    }
}

// The text of the boot behind one.
fn next_text(alloc: Global, boot: u32) -> Result<String, AllocError>
    requires { boot < 4294967295 }
    ensures { IfOk result (λ text. string_bytes text ≡ next_text boot) }
{
    let next = boot + 1;
    format!(in alloc; "{next}\n")
}

// Takes the boot that a file holds, and puts the next one there.
fn take_from<'a, S: Sources>(alloc: Global, files: &mut S, name: &'a str) -> Result<u32, Fault<'a>>
    ensures taken { MatchResult result (λ boot. TakesFileBoot name.now (S.contents files.old name.now) (S.contents files.new name.now) boot) (λ f. IsReadFault name.now f × (S.contents files.new name.now ≡ S.contents files.old name.now)) }
    ensures others { LeavesOthers (S.same files.old) name.now (S.contents files.old) (S.contents files.new) }
    ensures names { S.same files.new ≡ S.same files.old }
{
    let file = read_file(alloc, files, name);
    let boot = match file.text() {
        Ok(text) => match read_boot(text) {
            Some(boot) => boot,
            None => return Err(Fault::File(name)),
        },
        Err(fault) => return Err(fault),
    };
    match next_text(alloc, boot) {
        Ok(text) => match put_text(files, name, text.as_str().as_bytes()) {
            Ok(()) => Ok(boot),
            Err(fault) => Err(fault),
        },
        Err(_) => Err(Fault::Memory),
    }
}

/// The boot that a device starts with. Where a file holds it, the file holds the next one then, and has it on the disk, before this returns: no two
/// starts take the same. `File`, 61, where the file cannot be read or written, or holds no number below 4,294,967,295.
pub fn take_boot<'a, S: Sources>(
    alloc: Global,
    files: &mut S,
    boot: Boot<'a>,
) -> Result<u32, Fault<'a>>
    ensures taken { MatchResult result (λ taken. TakesBoot (boot_of boot.entry) (S.contents files.old) (S.contents files.new) taken) (λ f. HasNoBoot (boot_of boot.entry) (S.contents files.old) (S.contents files.new) f) }
    ensures others { LeavesAllBut (S.same files.old) (boot_file (boot_of boot.entry)) (S.contents files.old) (S.contents files.new) }
    ensures names { S.same files.new ≡ S.same files.old }
{
    match boot {
        Boot::Number(number) => Ok(number),
        Boot::File(name) => take_from(alloc, files, name),
    }
}
