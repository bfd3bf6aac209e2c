//! `fbr draw`. The graph is tested, and no contract says it.

ghost use Rattle.std.specs.Prelude.{◌≡◌, ◌≤◌, Some, IfOk, IfSome, option_map};
ghost use Rattle.fbr_files.specs.Writing.{LeavesAllBut};
ghost use Rattle.fbr_words.specs.Requests.{drawing_of};
ghost use Rattle.fbr_static.specs.Tellings.{TellsDraw};

use crate::bounding::CLASH;
use crate::given::{maybe_named, named};
use crate::misread::misused;
use fbr_files::{FileText, Sources, into_another, print_outcome, read_app, read_file, write_into};
use fbr_tell::{Drawing, picture};
use fbr_words::Draw;
use std::alloc::Global;
use std::io;
use std::io::Write;

/// Reads a file, where one is named.
pub fn read_maybe<'a, S: Sources>(
    alloc: Global,
    files: &S,
    name: Option<&'a str>,
) -> Option<FileText<'a>> {
    match name {
        Some(name) => Some(read_file(alloc, files, name)),
        None => None,
    }
}

// Hands out a graph: on `output`, or into the file that is named.
fn give_page<'a, S: Sources, W: Write, E: Write>(
    files: &mut S,
    into: Option<&'a str>,
    page: &[u8],
    output: &mut W,
    errors: &mut E,
) -> io::Result<u8>
    ensures others { LeavesAllBut (S.same files.old) (option_map (λ name. name.now) into.entry) (S.contents files.old) (S.contents files.new) }
    ensures status { IfOk result (λ status. status ≤ 4) }
{
    match into {
        Some(name) => write_into(files, name, page, output, errors),
        None => {
            output.write_all(page)?;
            Ok(0)
        }
    }
}

// What is drawn, of the files that were read for it.
fn drawing_of<'b>(
    app: &'b FileText<'b>,
    cert: Option<&'b FileText<'b>>,
    request: Draw<'b>,
) -> Drawing<'b>
    ensures { result.repeats ≡ request.entry.repeats }
{
    Drawing {
        app: named(app),
        cert: maybe_named(cert),
        repeats: request.repeats,
        boxes: !request.is_flat,
        chart: request.chart,
    }
}

// Draws what is asked for.
fn draw_read<'a, S: Sources, W: Write, E: Write>(
    alloc: Global,
    request: Draw<'a>,
    files: &mut S,
    output: &mut W,
    errors: &mut E,
) -> io::Result<u8>
    requires { IfSome request.repeats (λ n. 1 ≤ n) }
    ensures others { LeavesAllBut (S.same files.old) (drawing_of request.entry).into (S.contents files.old) (S.contents files.new) }
    ensures status { IfOk result (λ status. status ≤ 4) }
{
    let app = read_app(alloc, files, request.app, request.meant);
    let cert = read_maybe(alloc, files, request.cert);
    match picture(alloc, drawing_of(&app, cert.as_ref(), request), errors) {
        Ok(page) => give_page(files, request.into, &page, output, errors),
        Err(fault) => print_outcome(Err(fault), output),
    }
}

/// Writes the system of the application in a file as a graph in DOT, with its bounds, or the chart of a block type; or the fault of a text, or of the words where
/// there is no such type, and people are told why. A file that is named for it gets the graph, and nothing else. No file that is read is written: such words are at fault.
pub fn draw<'a, S: Sources, W: Write, E: Write>(
    alloc: Global,
    request: Draw<'a>,
    files: &mut S,
    output: &mut W,
    errors: &mut E,
) -> io::Result<u8>
    requires { IfSome request.repeats (λ n. 1 ≤ n) }
    ensures told { IfOk result (λ status. TellsDraw (drawing_of request.entry) (S.same files.old) (S.contents files.old) (S.contents files.new) (W.contents output.old) (W.contents output.new) status) }
    ensures others { LeavesAllBut (S.same files.old) (drawing_of request.entry).into (S.contents files.old) (S.contents files.new) }
    ensures status { IfOk result (λ status. status ≤ 4) }
{
    if !into_another(files, request.into, Some(request.app)) {
        return misused(CLASH, output, errors);
    }
    if !into_another(files, request.into, request.cert) {
        return misused(CLASH, output, errors);
    }
    draw_read(alloc, request, files, output, errors)
}
