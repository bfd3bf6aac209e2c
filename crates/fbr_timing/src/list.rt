//! Lists of prices: a line for each primitive, and for what a turn takes besides.

use fb_numbers::read_wide_number;
use fb_prices::{PRIMITIVES, Prices};
use std::alloc::{AllocError, Global};

/// What a turn takes besides its dispatches, and the worst delay by the system that was seen, in picoseconds.
#[derive(Clone, Copy)]
pub(crate) struct Around {
    /// A turn in which nothing happens.
    pub turn: u64,
    /// A datagram that is received and admitted.
    pub datagram: u64,
    /// A datagram that is sent to all peers, or a line that is printed.
    pub effect: u64,
    /// How much longer than its price a turn took at worst, while this was measured.
    pub jitter: u64,
}

/// A list of prices, in picoseconds.
#[derive(Drop)]
pub(crate) struct PriceList<'a> {
    /// The SHA-256 of the program that was measured, in hex.
    pub program: &'a str,
    /// The machine that it ran on.
    pub machine: &'a str,
    pub prices: Prices,
    pub around: Around,
}

/// Why a text is not a list of prices.
#[derive(Clone, Copy)]
pub enum ListFault<'a> {
    Memory,
    /// Its first line is another one.
    Headless,
    /// The line of this number is not understood.
    Line(usize),
    /// The line of this number has the word of an earlier line.
    Twice(usize),
    /// No line has this word.
    Missing(&'a str),
}

/// The first line of a list.
const HEAD: &str = "fbr prices 1";

/// The words of what a turn takes besides its dispatches.
const AROUND: [&str; 4] = ["TURN", "DATAGRAM", "EFFECT", "JITTER"];

// What the lines say so far: the numbers of the primitives, and after them those of what a turn takes.
#[derive(Drop)]
struct Read<'a> {
    program: Option<&'a str>,
    machine: Option<&'a str>,
    numbers: Vec<Option<u64>>,
}

// Room for each number of a list.
fn add_room(numbers: &mut Vec<Option<u64>>) -> Result<(), AllocError> {
    for _ in &PRIMITIVES {
        numbers.push(None)?;
    }
    for _ in &AROUND {
        numbers.push(None)?;
    }
    Ok(())
}

// The place of a word among the numbers.
fn place_of(word: &str) -> Option<usize> {
    for primitive in &PRIMITIVES {
        if primitive.word() == word {
            return Some(primitive.number());
        }
    }
    for (index, own) in AROUND.iter().enumerate() {
        if *own == word {
            return Some(PRIMITIVES.len().saturating_add(index));
        }
    }
    None
}

// Takes the number of a line, once.
fn take_number<'a>(slot: &mut Option<u64>, said: &str, line: usize) -> Result<(), ListFault<'a>> {
    if slot.is_some() {
        return Err(ListFault::Twice(line));
    }
    match read_wide_number(said) {
        Some(number) => {
            *slot = Some(number);
            Ok(())
        }
        None => Err(ListFault::Line(line)),
    }
}

// Takes the text of a line, once.
fn take_text<'a>(
    slot: &mut Option<&'a str>,
    said: &'a str,
    line: usize,
) -> Result<(), ListFault<'a>> {
    if slot.is_some() {
        return Err(ListFault::Twice(line));
    }
    *slot = Some(said);
    Ok(())
}

// Takes a line that has a word and what it says.
fn take_said<'a>(
    read: &mut Read<'a>,
    word: &str,
    said: &'a str,
    line: usize,
) -> Result<(), ListFault<'a>> {
    match word {
        "program" => take_text(&mut read.program, said, line),
        "machine" => take_text(&mut read.machine, said, line),
        _ => match place_of(word) {
            Some(place) => match read.numbers.get_mut(place) {
                Some(slot) => take_number(slot, said, line),
                None => Err(ListFault::Line(line)),
            },
            None => Err(ListFault::Line(line)),
        },
    }
}

// Takes a line; one that is empty or begins with `#` says nothing.
fn take_line<'a>(read: &mut Read<'a>, text: &'a str, line: usize) -> Result<(), ListFault<'a>> {
    let text = text.trim();
    if text.is_empty() || text.starts_with('#') {
        return Ok(());
    }
    match text.split_once(' ') {
        Some((word, said)) => take_said(read, word, said.trim(), line),
        None => Err(ListFault::Line(line)),
    }
}

// Takes all lines after the first.
fn take_lines<'a>(read: &mut Read<'a>, text: &'a str) -> Result<(), ListFault<'a>> {
    let mut has_head = false;
    for (index, line) in text.lines().enumerate() {
        if !has_head {
            if line.trim() != HEAD {
                return Err(ListFault::Headless);
            }
            has_head = true;
        } else {
            take_line(read, line, index.saturating_add(1))?;
        }
    }
    if has_head {
        Ok(())
    } else {
        Err(ListFault::Headless)
    }
}

// The number that was said at a place, with the word of it.
fn said_at<'a>(numbers: &[Option<u64>], place: usize, word: &'a str) -> Result<u64, ListFault<'a>> {
    match numbers.get(place) {
        Some(Some(number)) => Ok(*number),
        _ => Err(ListFault::Missing(word)),
    }
}

// What was said of a turn.
fn said_around<'a>(numbers: &[Option<u64>]) -> Result<Around, ListFault<'a>> {
    let first = PRIMITIVES.len();
    Ok(Around {
        turn: said_at(numbers, first, AROUND[0])?,
        datagram: said_at(numbers, first.saturating_add(1), AROUND[1])?,
        effect: said_at(numbers, first.saturating_add(2), AROUND[2])?,
        jitter: said_at(numbers, first.saturating_add(3), AROUND[3])?,
    })
}

// Adds the prices of all primitives, if none is missing.
fn add_prices<'a>(numbers: &[Option<u64>], prices: &mut Vec<u64>) -> Result<(), ListFault<'a>> {
    for primitive in &PRIMITIVES {
        let price = said_at(numbers, primitive.number(), primitive.word())?;
        if prices.push(price).is_err() {
            return Err(ListFault::Memory);
        }
    }
    Ok(())
}

// A text that a list has to say.
fn needed<'a>(said: Option<&'a str>, word: &'a str) -> Result<&'a str, ListFault<'a>> {
    match said {
        Some(text) => Ok(text),
        None => Err(ListFault::Missing(word)),
    }
}

// A list, all lines of which were taken.
fn whole<'a>(alloc: Global, read: &Read<'a>) -> Result<PriceList<'a>, ListFault<'a>> {
    let program = needed(read.program, "program")?;
    let machine = needed(read.machine, "machine")?;
    let around = said_around(&read.numbers)?;
    let mut numbers = Vec::new(alloc);
    match add_prices(&read.numbers, &mut numbers) {
        Ok(()) => Ok(PriceList {
            program,
            machine,
            prices: Prices { numbers },
            around,
        }),
        Err(fault) => {
            drop(numbers);
            Err(fault)
        }
    }
}

// Takes all lines of a list and puts it together.
fn taken<'a>(
    alloc: Global,
    read: &mut Read<'a>,
    text: &'a str,
) -> Result<PriceList<'a>, ListFault<'a>> {
    if add_room(&mut read.numbers).is_err() {
        return Err(ListFault::Memory);
    }
    take_lines(read, text)?;
    whole(alloc, read)
}

/// Reads a list of prices.
pub(crate) fn read_list<'a>(alloc: Global, text: &'a str) -> Result<PriceList<'a>, ListFault<'a>> {
    let mut read = Read {
        program: None,
        machine: None,
        numbers: Vec::new(alloc),
    };
    let list = taken(alloc, &mut read, text);
    drop(read);
    list
}

/// Adds a price of 1 for each primitive.
pub(crate) fn add_units(numbers: &mut Vec<u64>) -> Result<(), AllocError> {
    for _ in &PRIMITIVES {
        numbers.push(1)?;
    }
    Ok(())
}
