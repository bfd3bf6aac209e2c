//! Texts that are written one behind another.

ghost use Rattle.std.specs.Prelude.{◌≡◌, ◌++◌, map, None, Some, IfOk, MatchResult, string_bytes};
ghost use Rattle.fb_lex.specs.Lexing.{Refuses};
ghost use Rattle.fbr_texts.specs.Fronts.{IsFrontOf, front_of, span_of};
ghost use Rattle.fbr_texts.specs.Joining.{IsAdded, IsApplication, IsTypesFault, end_in, stop_in};
ghost use Rattle.fbr_texts.specs.Once as once;
ghost use Rattle.fbr_texts.specs.Once.{begun, blanked, declared, ended, put, put_text, written_of};
ghost use Rattle.fbr_texts.specs.Parts.{start_of};

use crate::front::{Front, Place, Span, front_in};
use crate::meant::Part;
use fb_faults::TextFault;
use std::alloc::{AllocError, Global};

/// The bytes that are written, the declarations that stand in them, each once, and the files that they come from.
#[derive(Drop)]
pub struct Joining<'a> {
    bytes: Vec<u8>,
    seen: Vec<Vec<u8>>,
    parts: Vec<Part<'a>>,
}

/// The text that texts are together, and where in it the text of each file begins, of which the application's is the last.
#[derive(Drop)]
pub struct Joined<'a> {
    pub text: String,
    pub parts: Vec<Part<'a>>,
}

// The bytes of a text from one to before another; none where it has not so many.
fn between(text: &[u8], from: usize, to: usize) -> &[u8]
    ensures { result.now ≡ once.between text.now from to }
{
    if from <= to && to <= text.len() {
        &text[from..to]
    } else {
        &[]
    }
}

// Whether these bytes are among others.
fn is_among(own: &[u8], others: &[Vec<u8>]) -> bool
    ensures { result ≡ once.is_among own.now (map (λ other. other.items) others.now) }
{
    for other in others {
        if other.as_slice() == own {
            return true;
        }
    }
    false
}

// What stands in the place of a byte that counts for nothing: a line goes on where it did.
fn blank(byte: u8) -> u8
    ensures { result ≡ once.blank byte }
{
    if byte == b'\n' { b'\n' } else { b' ' }
}

// Adds what stands in the place of bytes that count for nothing.
fn put_blanks(bytes: &mut Vec<u8>, own: &[u8]) -> Result<(), AllocError>
    ensures { IfOk result (λ _. bytes.new.items ≡ bytes.old.items ++ blanked own.now) }
{
    for byte in own {
        bytes.push(blank(*byte))?;
    }
    Ok(())
}

// Where the block types of a text end that holds nothing else, but perhaps a system of no devices behind them; or where it stops.
fn end_of(text: &str, place: Place) -> Result<usize, usize>
    ensures { MatchResult result (λ end. end_in text.now place ≡ Some end) (λ at. (end_in text.now place ≡ None) × (at ≡ stop_in text.now place)) }
{
    match place {
        Place::Between => Ok(text.len()),
        Place::Closed(at) => Ok(at),
        Place::Within(_) | Place::Opened(_) | Place::Named(_) => Err(text.len()),
        Place::Past(at) => Err(at),
    }
}

impl<'a> Joining<'a> {
    /// Nothing so far.
    pub fn new(alloc: Global) -> Joining<'a>
        ensures { written_of result ≡ once.nothing }
    {
        Joining {
            bytes: Vec::new(alloc),
            seen: Vec::new(alloc),
            parts: Vec::new(alloc),
        }
    }

    // Adds bytes.
    fn put(&mut self, own: &[u8]) -> Result<(), AllocError>
        ensures { IfOk result (λ _. written_of self.new ≡ put own.now (written_of self.old)) }
    {
        self.bytes.extend_from_slice(own)
    }

    // Adds a declaration, or blanks where it stands there already.
    fn put_declared(&mut self, alloc: Global, own: &[u8]) -> Result<(), AllocError>
        ensures { IfOk result (λ _. written_of self.new ≡ declared own.now (written_of self.old)) }
    {
        if is_among(own, self.seen.as_slice()) {
            put_blanks(&mut self.bytes, own)
        } else {
            self.seen.push(Vec::from_slice(alloc, own)?)?;
            self.bytes.extend_from_slice(own)
        }
    }

    // Adds a file, which begins here.
    fn begin(&mut self, name: &'a str) -> Result<(), AllocError>
        ensures { IfOk result (λ _. written_of self.new ≡ begun name.now (written_of self.old)) }
    {
        let start = self.bytes.len();
        self.parts.push(Part { name, start })?;
        Ok(())
    }

    // Adds a text with these declarations, each of which counts once, and blanks from its end on.
    fn put_text(
        &mut self,
        alloc: Global,
        text: &[u8],
        end: usize,
        spans: &[Span],
    ) -> Result<(), AllocError>
        ensures { IfOk result (λ _. written_of self.new ≡ put_text text.now end 0 (map span_of spans.now) (written_of self.old)) }
    {
        let mut at = 0;
        for span in spans {
            self.put(between(text, at, span.from))?;
            self.put_declared(alloc, between(text, span.from, span.to))?;
            at = span.to;
        }
        self.put(between(text, at, end))?;
        put_blanks(&mut self.bytes, between(text, end, text.len()))
    }

    // Adds the text of a file.
    fn put_file(
        &mut self,
        alloc: Global,
        name: &'a str,
        text: &str,
        end: usize,
        front: &Front,
    ) -> Result<(), AllocError>
        ensures { IfOk result (λ _. written_of self.new ≡ put_text text.now end 0 (front_of front.now).spans (begun name.now (written_of self.old))) }
    {
        self.begin(name)?;
        self.put_text(alloc, text.as_bytes(), end, front.spans.as_slice())
    }

    // Adds the text of a file, and the end of a line, so that the next one goes on behind it.
    fn put_types(
        &mut self,
        alloc: Global,
        name: &'a str,
        text: &str,
        end: usize,
        front: &Front,
    ) -> Result<(), AllocError>
        ensures { IfOk result (λ _. written_of self.new ≡ ended (put_text text.now end 0 (front_of front.now).spans (begun name.now (written_of self.old)))) }
    {
        self.put_file(alloc, name, text, end, front)?;
        self.bytes.push(b'\n')?;
        Ok(())
    }

    // Adds the text of a file with such a front.
    fn add_front(
        &mut self,
        alloc: Global,
        name: &'a str,
        text: &str,
        front: &Front,
    ) -> Result<(), TextFault>
        ensures { IsFrontOf text.now (front_of front.now) → MatchResult result (λ _. IsAdded (name.now, text.now) (written_of self.old) (written_of self.new)) (IsTypesFault text.now) }
    {
        match end_of(text, front.place) {
            Ok(end) => match self.put_types(alloc, name, text, end, front) {
                Ok(()) => Ok(()),
                Err(_) => Err(TextFault::OutOfMemory),
            },
            Err(at) => Err(TextFault::Syntax(at)),
        }
    }

    /// Adds the text of a file that holds declarations of block types, and nothing else but perhaps a system of no devices behind them, which is left out. A
    /// declaration that stands there already, with the same characters from its first token to its last, counts once. Blanks stand in the place of what is left out,
    /// so that each byte of the file is where it was. `Syntax` is at what is none of this, or at the text's length, where it ends too soon.
    pub fn types(&mut self, alloc: Global, name: &'a str, text: &str) -> Result<(), TextFault>
        ensures { MatchResult result (λ _. IsAdded (name.now, text.now) (written_of self.old) (written_of self.new)) (IsTypesFault text.now) }
    {
        match front_in(alloc, text) {
            Ok(front) => self.add_front(alloc, name, text, &front),
            Err(fault) => Err(fault),
        }
    }

    /// Adds the text of an application, in which the declarations of block types at its front count once too.
    pub fn application(&mut self, alloc: Global, name: &'a str, text: &str) -> Result<(), TextFault>
        ensures { MatchResult result (λ _. IsApplication (name.now, text.now) (written_of self.old) (written_of self.new)) (λ fault. Refuses fault text.now) }
    {
        match front_in(alloc, text) {
            Ok(front) => match self.put_file(alloc, name, text, text.len(), &front) {
                Ok(()) => Ok(()),
                Err(_) => Err(TextFault::OutOfMemory),
            },
            Err(fault) => Err(fault),
        }
    }

    /// What was added, as one text. It is UTF-8, since blanks stand in the place of whole declarations.
    pub fn end(self) -> Result<Joined<'a>, AllocError>
        ensures { IfOk result (λ j. (string_bytes j.text ≡ (written_of self.entry).bytes) × (map start_of j.parts.items ≡ (written_of self.entry).parts)) }
    {
        let Joining { bytes, seen, parts } = self;
        drop(seen);
        match String::from_utf8(bytes) {
            Ok(text) => Ok(Joined { text, parts }),
            Err(_) => Err(AllocError),
        }
    }
}
