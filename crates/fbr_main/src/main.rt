//! Room: program. The program `fbr`: `main` hands the process's words, files and streams to `command`.
//! A status becomes the process's own; that `main` calls the command at all is shown by the stored run alone.
#![tactic(auto)]

mod live;
mod people;
mod stack;

ghost use Rattle.std.specs.Prelude.{◌≤◌, IfOk};

use crate::live::Live;
use crate::people::People;
use fbr::{command, input_named};
use fbr_files::Disk;
use fbr_status::{exit_code, outcome};
use fbr_tell::paint;
use std::alloc::AllocError;
use std::env::{Env, FillError, VarError};
use std::io;
use std::io::{BufWriter, ErrorKind, IsTerminal, Write};
use std::process::ExitCode;

// Whether words ask for more room in queues.
fn is_roomy(words: &[&str]) -> bool {
    for word in words {
        if word.starts_with("--room") {
            return true;
        }
    }
    false
}

// Tells people at a terminal that a certificate is looked for, and what its depths are to be where more room is asked for.
fn tell_bound(rt: &HostRuntime, words: &[&str]) -> io::Result<()> {
    eprintln!(rt; "fbr: looking for the least certificate")?;
    if is_roomy(words) {
        let depths =
            "fbr: each DEPTH is then enough for so many arrivals of each kind at once, up to 4096";
        eprintln!(rt; "{depths}")?;
    }
    Ok(())
}

// Tells people at a terminal what the command waits for or does.
fn tell_waiting(rt: &HostRuntime, words: &[&str]) -> io::Result<()> {
    let word = words.get(1).copied();
    if rt.stdin().is_terminal() {
        match word {
            None => eprintln!(rt;
                "fbr: reading an application, a line `====` and a certificate from the terminal; `fbr --help` lists the commands"
            )?,
            Some("sim") => eprintln!(rt;
                "fbr: reading a script from the terminal, a call a line, as `offer D 1` and `dispatch D R`, to its end (Ctrl-D)"
            )?,
            Some(_) => {}
        }
    }
    if rt.stderr().is_terminal() {
        match word {
            Some("bound") => tell_bound(rt, words)?,
            _ => {}
        }
    }
    Ok(())
}

// Tells people of a file that was not read, or of output that failed.
fn tell_failure<W: Write>(status: u8, errors: &mut W) -> io::Result<()> {
    if status == 3 {
        let why =
            "fbr: a file could not be read or written, a port could not be used, or the output failed; `fbr --help` lists the commands";
        writeln!(errors, "{why}")?;
    }
    Ok(())
}

// The process's words, where all are UTF-8.
fn words_of(rt: &HostRuntime) -> io::Result<Vec<String>> {
    let words: Vec<String> = std::env::args(rt)?.collect(rt.alloc())?;
    Ok(words)
}

// Tells of a word of the process that is no UTF-8 as of a file that cannot be read: by its bytes, as they were given.
fn refuse_word(rt: &HostRuntime) -> io::Result<u8>
    ensures { IfOk result (λ status. status ≤ 4) }
{
    let mut bytes = [0u8; 4096];
    let mut page = Vec::new(rt.alloc());
    page.write_all(b"refused 61")?;
    for at in 0..usize::MAX {
        match rt.arg(at, &mut bytes) {
            Ok(count) => {
                let word = bytes.get(..count).unwrap_or(&[]);
                if str::from_utf8(word).is_err() {
                    page.write_all(b" ")?;
                    page.write_all(word)?;
                    break;
                }
            }
            Err(FillError::TooLong) => {}
            Err(FillError::NotPresent) => break,
        }
    }
    page.write_all(b"\n")?;
    rt.stdout().write_all(&page)?;
    eprintln!(rt; "fbr: names of files are to be UTF-8, and this one is not")?;
    Ok(3)
}

// Whether what goes to a terminal has colour: it has not where NO_COLOR is set, or that cannot be known.
fn is_coloured(rt: &HostRuntime) -> bool {
    match std::env::var(rt, "NO_COLOR") {
        Ok(text) => text.is_empty(),
        Err(VarError::NotPresent) => true,
        Err(_) => false,
    }
}

// Runs a command that explains at a terminal, and gives the lines that it writes a colour.
fn explain_in_colour<W: Write, E: Write>(
    rt: &HostRuntime,
    words: &[&str],
    files: &mut Disk<'_, HostRuntime>,
    output: &mut W,
    errors: &mut E,
) -> u8
    ensures { result ≤ 4 }
{
    let mut page = Vec::new(rt.alloc());
    let status = command(rt, words, files, &mut rt.reader(), &mut page, errors);
    outcome(status, paint(&page, output))
}

// Runs a device, which waits for nobody who reads what it writes.
fn serve_live(rt: &HostRuntime, words: &[&str], files: &mut Disk<'_, HostRuntime>) -> io::Result<u8>
    ensures { IfOk result (λ status. status ≤ 4) }
{
    let mut output = Live::new(rt.alloc(), 1)?;
    let mut errors = Live::new(rt.alloc(), 2)?;
    let status = command(rt, words, files, &mut rt.reader(), &mut output, &mut errors);
    let status = outcome(status, output.finish());
    let _ = tell_failure(status, &mut errors);
    let _ = errors.finish();
    Ok(status)
}

// Whether the words ask for a device that runs.
fn is_served(words: &[&str]) -> bool {
    matches!(words.get(1).copied(), Some("serve"))
}

// Whether the words ask for an explanation for people.
fn is_explained(words: &[&str]) -> bool {
    for word in words {
        if *word == "--json" {
            return false;
        }
    }
    matches!(words.get(1).copied(), Some("explain"))
}

// Tells that the stack is too small for the deepest texts, which counts as want of memory.
fn refuse_stack(rt: &HostRuntime) -> io::Result<u8>
    ensures { IfOk result (λ status. status ≤ 4) }
{
    println!(rt; "refused 9")?;
    eprintln!(rt;
        "fbr: the limit of the stack is below 1 MiB: `ulimit -s 8192` makes it the usual one"
    )?;
    Ok(4)
}

// Runs the command of the process's words, over its files, its standard input, its standard output, and its standard error for people.
fn status(rt: &HostRuntime) -> io::Result<u8>
    ensures { IfOk result (λ status. status ≤ 4) }
{
    if !stack::is_enough() {
        return refuse_stack(rt);
    }
    let alloc = rt.alloc();
    let words = match words_of(rt) {
        Ok(words) => words,
        Err(error) if error.kind() == ErrorKind::InvalidData => return refuse_word(rt),
        Err(error) => return Err(error),
    };
    let mut texts: Vec<&str> = Vec::new(alloc);
    for word in &words {
        texts.push(word.as_str()).map_err(AllocError::from)?;
    }
    tell_waiting(rt, texts.as_slice()).unwrap_or(());
    let mut input = rt.reader();
    let mut files = Disk {
        rt,
        alloc,
        input: input_named(alloc, texts.as_slice(), &mut input),
    };
    let words = texts.as_slice();
    if is_served(words) {
        return serve_live(rt, words, &mut files);
    }
    let mut output = BufWriter::new(rt.alloc(), io::writer(rt))?;
    let is_coloured = is_coloured(rt);
    let mut stream = rt.stderr();
    let is_painted = is_coloured && stream.is_terminal();
    let mut errors = People::new(alloc, is_painted, &mut stream);
    let status = if is_explained(words) && is_coloured && rt.stdout().is_terminal() {
        explain_in_colour(rt, words, &mut files, &mut output, &mut errors)
    } else {
        command(rt, words, &mut files, &mut input, &mut output, &mut errors)
    };
    let status = outcome(status, output.flush());
    errors.flush().unwrap_or(());
    tell_failure(status, &mut rt.stderr()).unwrap_or(());
    Ok(status)
}

fn main(rt: HostRuntime) -> ExitCode {
    exit_code(status(&rt))
}
