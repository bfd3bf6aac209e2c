//! `fbr pack`.

ghost use Rattle.std.specs.Prelude.{◌≡◌, ◌≤◌, Some, IfOk};
ghost use Rattle.fbr_files.specs.Writing.{AreApart, LeavesAllBut};
ghost use Rattle.fbr_words.specs.Requests.{packing_of};
ghost use Rattle.fbr_static.specs.Tellings.{TellsPack};

use crate::bounding::put_out;
use crate::given::{Files, tell};
use crate::misread::misused;
use fbr_files::{Sources, into_another, print_outcome, read_app};
use fbr_words::Pack;
use std::alloc::Global;
use std::io;
use std::io::Write;

// What people are told where the application's file would be written.
const CLASH: &str = "fbr: `-o` takes another file than APP";

// Puts out the text that is meant by an application, or tells why it was not read.
fn pack_read<'a, S: Sources, W: Write, E: Write>(
    alloc: Global,
    request: Pack<'a>,
    files: &mut S,
    output: &mut W,
    errors: &mut E,
) -> io::Result<u8>
    ensures told { AreApart (S.same files.old) (packing_of request.entry).into (Some request.entry.app.now)
        → IfOk result (λ status. TellsPack (packing_of request.entry) (S.same files.old) (S.contents files.old) (S.contents files.new) (W.contents output.old) (W.contents output.new) status) }
    ensures others { LeavesAllBut (S.same files.old) (packing_of request.entry).into (S.contents files.old) (S.contents files.new) }
    ensures status { IfOk result (λ status. status ≤ 4) }
{
    let app = read_app(alloc, files, request.app, request.meant);
    match app.text() {
        Ok(text) => put_out(files, request.into, text, output, errors),
        Err(fault) => {
            tell(alloc, &fault, Files::one(&app), errors);
            print_outcome(Err(fault), output)
        }
    }
}

/// Writes the one text that is meant by an application on `output`, or into the file that is named: what its file holds, or what it is with the block types before
/// it. The application's own file is not written: such words are at fault.
pub fn pack<'a, S: Sources, W: Write, E: Write>(
    alloc: Global,
    request: Pack<'a>,
    files: &mut S,
    output: &mut W,
    errors: &mut E,
) -> io::Result<u8>
    ensures told { IfOk result (λ status. TellsPack (packing_of request.entry) (S.same files.old) (S.contents files.old) (S.contents files.new) (W.contents output.old) (W.contents output.new) status) }
    ensures others { LeavesAllBut (S.same files.old) (packing_of request.entry).into (S.contents files.old) (S.contents files.new) }
    ensures status { IfOk result (λ status. status ≤ 4) }
{
    if !into_another(files, request.into, Some(request.app)) {
        return misused(CLASH, output, errors);
    }
    pack_read(alloc, request, files, output, errors)
}
