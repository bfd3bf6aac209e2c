//! Several texts as one: the files of `--with`, and behind them the application's.

ghost use Rattle.std.specs.Prelude.{◌≡◌, ◌≤◌, ℕ, List, Option, map, IfOk, IfErr, MatchResult, string_bytes};
ghost use Rattle.fbr_files.specs.Outcomes.{IsReadFault};
ghost use Rattle.fbr_files.specs.Reading.{IsRead};
ghost use Rattle.fbr_find.specs.Bounding.{IsTypedFault};
ghost use Rattle.fbr_texts.specs.Joining.{IsAdded, IsApplication, IsTypesFault};
ghost use Rattle.fbr_texts.specs.Once.{nothing, written_of};
ghost use Rattle.fbr_texts.specs.Parts.{start_of};
ghost use Rattle.fbr.specs.Together.{AreFilesAdded, IsApplicationAdded, IsFaultAmong, IsFileAdded, IsFileFault, IsJoined, IsOwnFault, IsJoinFault, fault_of};

use fb_faults::{Refusal, TextFault};
use fbr_files::{Fault, FileText, Held, Sources, read_file};
use fbr_find::typed_in;
use fbr_texts::{Joined, Joining};
use std::alloc::Global;

/// A fault, and the file in which it is.
#[derive(Drop)]
pub struct Stopped<'a> {
    pub fault: Fault<'a>,
    pub file: FileText<'a>,
}

// A fault of the text of a file.
fn text_fault<'a>(fault: TextFault) -> Fault<'a>
    ensures { result ≡ fault_of fault }
{
    match fault {
        TextFault::OutOfMemory => Fault::Memory,
        other => Fault::Refused(Refusal::Text(other)),
    }
}

// Adds the block types of a file that was read.
fn add_read<'a>(
    alloc: Global,
    file: &FileText<'a>,
    joining: &mut Joining<'a>,
) -> Result<(), Fault<'a>>
    ensures { (held : Option (List ℕ)) → IsRead held file.now.held
        → MatchResult result (λ _. IsFileAdded held file.now.name.now (written_of joining.old) (written_of joining.new)) (IsFileFault held file.now.name.now) }
{
    match file.text() {
        Ok(text) => match joining.types(alloc, file.name, text) {
            Ok(()) => Ok(()),
            Err(fault) => Err(text_fault(fault)),
        },
        Err(fault) => Err(fault),
    }
}

// Adds the text of an application that was read.
fn add_application<'a>(
    alloc: Global,
    file: &FileText<'a>,
    joining: &mut Joining<'a>,
) -> Result<(), Fault<'a>>
    ensures { (held : Option (List ℕ)) → IsRead held file.now.held
        → MatchResult result (λ _. IsApplicationAdded held file.now.name.now (written_of joining.old) (written_of joining.new)) (IsOwnFault held file.now.name.now) }
{
    match file.text() {
        Ok(text) => match joining.application(alloc, file.name, text) {
            Ok(()) => Ok(()),
            Err(fault) => Err(text_fault(fault)),
        },
        Err(fault) => Err(fault),
    }
}

// Adds the block types of a file.
fn add_file<'a, S: Sources>(
    alloc: Global,
    files: &S,
    name: &'a str,
    joining: &mut Joining<'a>,
) -> Result<(), Stopped<'a>>
    ensures { MatchResult result (λ _. IsFileAdded (S.contents files.now name.now) name.now (written_of joining.old) (written_of joining.new))
        (λ stopped. IsFileFault (S.contents files.now name.now) name.now stopped.fault × (stopped.file.name.now ≡ name.now)) }
{
    let file = read_file(alloc, files, name);
    match add_read(alloc, &file, joining) {
        Ok(()) => Ok(()),
        Err(fault) => Err(Stopped { fault, file }),
    }
}

// Adds the block types of files, one behind another.
fn add_files<'a, S: Sources>(
    alloc: Global,
    files: &S,
    names: &[&'a str],
    joining: &mut Joining<'a>,
) -> Result<(), Stopped<'a>>
    ensures { MatchResult result (λ _. AreFilesAdded (S.contents files.now) (map (λ name. name.now) names.now) (written_of joining.old) (written_of joining.new))
        (λ stopped. IsFaultAmong (S.contents files.now) (map (λ name. name.now) names.now) stopped.fault stopped.file.name.now) }
{
    for name in names {
        add_file(alloc, files, *name, joining)?;
    }
    Ok(())
}

// Adds the text of an application.
fn add_last<'a, S: Sources>(
    alloc: Global,
    files: &S,
    name: &'a str,
    joining: &mut Joining<'a>,
) -> Result<(), Stopped<'a>>
    ensures { MatchResult result (λ _. IsApplicationAdded (S.contents files.now name.now) name.now (written_of joining.old) (written_of joining.new))
        (λ stopped. IsOwnFault (S.contents files.now name.now) name.now stopped.fault × (stopped.file.name.now ≡ name.now)) }
{
    let file = read_file(alloc, files, name);
    match add_application(alloc, &file, joining) {
        Ok(()) => Ok(()),
        Err(fault) => Err(Stopped { fault, file }),
    }
}

// What was added as one text.
fn ended<'a>(joining: Joining<'a>, app: &'a str) -> Result<Joined<'a>, Stopped<'a>>
    ensures { MatchResult result (λ j. (string_bytes j.text ≡ (written_of joining.entry).bytes) × (map start_of j.parts.items ≡ (written_of joining.entry).parts))
        (λ stopped. (stopped.fault ≡ Fault.Memory) × (stopped.file.name.now ≡ app.now)) }
{
    match joining.end() {
        Ok(joined) => Ok(joined),
        Err(_) => Err(Stopped {
            fault: Fault::Memory,
            file: FileText {
                name: app,
                held: Held::Unread,
                meant: None,
            },
        }),
    }
}

/// The text that the application in a file is with the block types of others before it; or what is at fault, and in which file.
pub fn joined_of<'a, S: Sources>(
    alloc: Global,
    files: &S,
    names: &[&'a str],
    app: &'a str,
) -> Result<Joined<'a>, Stopped<'a>>
    ensures { MatchResult result (λ j. IsJoined (S.contents files.now) (map (λ name. name.now) names.now) app.now (string_bytes j.text) (map start_of j.parts.items))
        (λ stopped. IsJoinFault (S.contents files.now) (map (λ name. name.now) names.now) app.now stopped.fault stopped.file.name.now) }
{
    let mut joining = Joining::new(alloc);
    match add_files(alloc, files, names, &mut joining) {
        Ok(()) => match add_last(alloc, files, app, &mut joining) {
            Ok(()) => ended(joining, app),
            Err(stopped) => Err(stopped),
        },
        Err(stopped) => Err(stopped),
    }
}

/// Why a text is none of an application: the text itself, or its types.
pub fn typing_fault<'a>(alloc: Global, text: &str) -> Result<(), Fault<'a>>
    ensures { IfErr result (IsTypedFault text.now) }
{
    match typed_in(alloc, text) {
        Ok(typed) => {
            typed.let_go();
            Ok(())
        }
        Err(fault) => Err(fault),
    }
}
