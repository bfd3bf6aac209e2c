//! Why nothing is told of a system whose certificate fits.

use crate::list::ListFault;
use crate::way::WayFault;
use fbr_files::Fault;
use fbr_places::Writing;
use std::alloc::{AllocError, Global};
use std::io::Write;

/// Why nothing is told of what was accepted.
#[derive(Drop)]
pub enum Halt<'a> {
    Memory,
    /// The file of prices was not read, or is no text.
    File(Fault<'a>),
    List(ListFault<'a>),
    /// The prices are those of another program.
    Other,
    /// This part of the rates is not understood.
    Rate(&'a str),
    /// The arrival of this name has a rate already.
    RateTwice(&'a str),
    /// There are rates and no prices.
    Unpriced,
    Way(WayFault<'a>),
    /// An algorithm or an event takes more than what is counted.
    TooMuch,
}

impl<'a> From<AllocError> for Halt<'a> {
    fn from(_fault: AllocError) -> Halt<'a> {
        Halt::Memory
    }
}

// Writes what is wrong with a line of a list of prices.
fn put_line(line: usize, wrong: &str, writing: &mut Writing) {
    writing.put("fbr: line ");
    writing.show(&line);
    writing.put(" of the prices ");
    writing.put(wrong);
}

// Writes why a text is not a list of prices.
fn put_list(fault: ListFault<'_>, writing: &mut Writing) {
    match fault {
        ListFault::Memory => {}
        ListFault::Headless => {
            writing.put("fbr: a list of prices begins with the line `fbr prices 1`");
        }
        ListFault::Line(line) => {
            let wrong = "is not understood: write a word and a number of picoseconds";
            put_line(line, wrong, writing);
        }
        ListFault::Twice(line) => {
            put_line(line, "has the word of an earlier line", writing);
        }
        ListFault::Missing(word) => {
            writing.put("fbr: the prices have no line `");
            writing.put(word);
            writing.put(" ..`");
        }
    }
}

// Writes two names.
fn put_names(from: &str, to: &str, writing: &mut Writing) {
    writing.put(from);
    writing.put(" and ");
    writing.put(to);
}

// Writes why no way is told.
fn put_way_fault(fault: WayFault<'_>, writing: &mut Writing) {
    writing.put("fbr: ");
    match fault {
        WayFault::Memory => {}
        WayFault::Unknown(name) => {
            writing.put("no instance is called ");
            writing.put(name);
        }
        WayFault::Many(name) => {
            writing.put("several instances are called ");
            writing.put(name);
            writing.put("; write more of the path");
        }
        WayFault::NoArrival(name) => {
            writing.put("nothing arrives at ");
            writing.put(name);
            writing.put(": it is no INPUT, SUBSCRIBE, timer or E_RESTART");
        }
        WayFault::Apart(from, to) => {
            put_names(from, to, writing);
            writing.put(" are in different resources; a way stays within one");
        }
        WayFault::None(from, to) => {
            writing.put("no event leads from ");
            writing.put(from);
            writing.put(" to ");
            writing.put(to);
        }
    }
}

// Writes why, in one line.
fn put_halt(halt: &Halt<'_>, writing: &mut Writing) {
    match halt {
        Halt::Memory | Halt::File(_) => {}
        Halt::List(fault) => put_list(*fault, writing),
        Halt::Way(fault) => put_way_fault(*fault, writing),
        Halt::Other => writing.put(
            "fbr: these prices were measured with another program; measure them with this one (`fbr-calibrate`)",
        ),
        Halt::Rate(part) => {
            writing.put("fbr: the rate `");
            writing.put(part);
            writing.put(
                "` is not understood: write INPUT=10/s, INPUT=10/min or INPUT=10/h, with commas between several",
            );
        }
        Halt::RateTwice(name) => {
            writing.put("fbr: ");
            writing.put(name);
            writing.put(" has two rates");
        }
        Halt::Unpriced => writing.put(
            "fbr: `--rate` needs prices, and these need `--calibration FILE`",
        ),
        Halt::TooMuch => writing.put(
            "fbr: at these prices an algorithm or an event takes more than a second, which is the most that is counted",
        ),
    }
    writing.put("\n");
}

// Tells people why.
fn tell<E: Write>(alloc: Global, halt: &Halt<'_>, errors: &mut E) {
    let mut writing = Writing::new(alloc);
    put_halt(halt, &mut writing);
    let _ = errors.write_all(writing.bytes());
    drop(writing);
}

/// Tells people why, and gives the fault that the command tells.
pub fn fault_of<'a, E: Write>(alloc: Global, halt: Halt<'a>, errors: &mut E) -> Fault<'a> {
    match halt {
        Halt::Memory | Halt::List(ListFault::Memory) | Halt::Way(WayFault::Memory) => Fault::Memory,
        Halt::File(fault) => fault,
        told => {
            tell(alloc, &told, errors);
            Fault::Usage
        }
    }
}
