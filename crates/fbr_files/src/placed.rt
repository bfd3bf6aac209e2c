//! Faults of a text that several files are together: they are told where they are in their own file.

ghost use Rattle.std.specs.Prelude.{◌≡◌, ◌≤◌, IfOk, map, option_map};
ghost use Rattle.fbr_texts.specs.Parts.{start_of};
ghost use Rattle.fbr_files.specs.Outcomes.{Tells};
ghost use Rattle.fbr_files.specs.Placed as placed;
ghost use Rattle.fbr_files.specs.Placed.{outcome_at};

use crate::fault::Fault;
use fb_faults::{Refusal, TextFault, TypeFault};
use fbr_texts::Meant;
use std::io::Write;
use std::{fmt, io};

// Where in a text a fault of it is.
fn text_offset(fault: &TextFault) -> Option<usize>
    ensures { result ≡ placed.text_offset fault.now }
{
    match fault {
        TextFault::BadCharacter(at) => Some(*at),
        TextFault::Syntax(at) => Some(*at),
        TextFault::TooDeep(at) => Some(*at),
        TextFault::BigNumber(at) => Some(*at),
        TextFault::OutOfMemory | TextFault::TooLong => None,
    }
}

// Where in a text a fault of its types is.
fn type_offset(fault: &TypeFault) -> Option<usize>
    ensures { result ≡ placed.type_offset fault.now }
{
    match fault {
        TypeFault::OutOfMemory => None,
        TypeFault::UnknownName(at) => Some(*at),
        TypeFault::DuplicateName(at) => Some(*at),
        TypeFault::TypeMismatch(at) => Some(*at),
        TypeFault::BadLiteral(at) => Some(*at),
        TypeFault::NotWritable(at) => Some(*at),
        TypeFault::BadConnection(at) => Some(*at),
        TypeFault::TwoSources(at) => Some(*at),
        TypeFault::BadService(at) => Some(*at),
        TypeFault::RecursiveComposite(at) => Some(*at),
        TypeFault::Limit(at) => Some(*at),
        TypeFault::ChannelShape(at) => Some(*at),
    }
}

// Where in the text of an application a refusal is.
fn refusal_offset(refusal: &Refusal) -> Option<usize>
    ensures { result ≡ placed.refusal_offset refusal.now }
{
    match refusal {
        Refusal::Text(fault) => text_offset(fault),
        Refusal::Typing(fault) => type_offset(fault),
        Refusal::OutOfMemory | Refusal::Certificate(_) => None,
        Refusal::UnknownRow(_) | Refusal::UnknownChannel(_) => None,
        Refusal::MissingRow(_) | Refusal::MissingChannel(_) => None,
        Refusal::RangeStart(_) | Refusal::RangeLink(_) | Refusal::RangeKept(_) => None,
        Refusal::IndexOrDivisor(_) | Refusal::Charge(_) | Refusal::Weight(_) => None,
        Refusal::Depth(_) | Refusal::Far(_) | Refusal::Channel(_) => None,
    }
}

// Where in the text of an application a fault is.
fn offset_of(fault: &Fault<'_>) -> Option<usize>
    ensures { result ≡ placed.offset_of fault.now }
{
    match fault {
        Fault::Refused(refusal) => refusal_offset(refusal),
        Fault::Memory | Fault::Input | Fault::File(_) | Fault::Line(_) | Fault::Usage => None,
        Fault::Unbound(_) | Fault::Device(_) | Fault::LinkDown | Fault::Socket(_) => None,
    }
}

/// A fault of a text that is meant, as it is told: where it is in its own file, with the file's name, where that is not the application's.
#[derive(Clone, Copy)]
pub struct Placed<'b, 'a> {
    pub fault: &'b Fault<'a>,
    pub meant: Meant<'b>,
}

// Where a byte of a text that is meant is in its own file, and the file's name.
fn place_at<'b>(meant: Meant<'b>, at: usize) -> Option<(usize, &'b str)>
    ensures { option_map (λ p. (p.0, p.1.now)) result ≡ placed.place_at (map start_of meant.entry.parts.now) at }
{
    match meant.part_at(at) {
        Some(part) => Some((at.saturating_sub(part.start), part.name)),
        None => None,
    }
}

impl<'b> Placed<'b, '_> {
    // Where it is, and in which file.
    fn place(&self) -> Option<(usize, &'b str)>
        ensures { option_map (λ p. (p.0, p.1.now)) result ≡ placed.place_in (map start_of self.now.meant.parts.now) self.now.fault.now }
    {
        match offset_of(self.fault) {
            Some(at) => place_at(self.meant, at),
            None => None,
        }
    }
}

impl fmt::Display for Placed<'_, '_> {
    ghost use Rattle.std.specs.Prelude.{Some, map};
    ghost use Rattle.fbr_texts.specs.Parts.{start_of};
    ghost use Rattle.fbr_files.specs.Placed.{line_in};

    ghost output = { λ p. Some (line_in p.meant.app.now (map start_of p.meant.parts.now) p.fault.now) };

    fn fmt<W: fmt::Write>(&self, f: &mut fmt::Formatter<W>) -> fmt::Result {
        let code = self.fault.code();
        match self.place() {
            Some((at, name)) => {
                if name == self.meant.app {
                    write!(f, "refused {code} {at}")
                } else {
                    write!(f, "refused {code} {at} {name}")
                }
            }
            None => {
                let fault: &Fault<'_> = self.fault;
                write!(f, "{fault}")
            }
        }
    }
}

/// Prints the line of a fault of a text that is meant, and gives the program's status.
pub fn print_placed<W: Write>(fault: &Fault<'_>, meant: Meant<'_>, output: &mut W) -> io::Result<u8>
    ensures told { IfOk result (λ status. Tells (outcome_at meant.entry.app.now (map start_of meant.entry.parts.now) fault.now) (W.contents output.old) (W.contents output.new) status) }
    ensures status { IfOk result (λ status. status ≤ 4) }
{
    let placed = Placed { fault, meant };
    writeln!(output, "{placed}")?;
    Ok(fault.status())
}
