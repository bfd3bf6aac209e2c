//! Where in a text a refusal stands.

use fb_faults::{CertFault, Refusal, TextFault, TypeFault};
use fbr_places::Declared;

// The byte that the refusal of a text names.
fn byte_in_text(fault: &TextFault) -> Option<usize> {
    match fault {
        TextFault::OutOfMemory | TextFault::TooLong => None,
        TextFault::BadCharacter(at)
        | TextFault::Syntax(at)
        | TextFault::TooDeep(at)
        | TextFault::BigNumber(at) => Some(*at),
    }
}

// The byte that the refusal of what is not well typed names.
fn byte_in_types(fault: &TypeFault) -> Option<usize> {
    match fault {
        TypeFault::OutOfMemory => None,
        TypeFault::UnknownName(at)
        | TypeFault::DuplicateName(at)
        | TypeFault::TypeMismatch(at)
        | TypeFault::BadLiteral(at)
        | TypeFault::NotWritable(at)
        | TypeFault::BadConnection(at)
        | TypeFault::TwoSources(at)
        | TypeFault::BadService(at)
        | TypeFault::RecursiveComposite(at)
        | TypeFault::Limit(at)
        | TypeFault::ChannelShape(at) => Some(*at),
    }
}

/// The byte of the application's text that a refusal names.
pub fn byte_in(refusal: &Refusal) -> Option<usize> {
    match refusal {
        Refusal::Text(fault) => byte_in_text(fault),
        Refusal::Typing(fault) => byte_in_types(fault),
        _ => None,
    }
}

/// The line of the certificate's text that a refusal names.
pub fn line_in(refusal: &Refusal) -> Option<usize> {
    match refusal {
        Refusal::Certificate(CertFault::Row(line) | CertFault::DuplicateRow(line)) => Some(*line),
        _ => None,
    }
}

/// The path of the system that a refusal names.
pub fn path_in(refusal: &Refusal) -> Option<&str> {
    match refusal {
        Refusal::UnknownRow(path)
        | Refusal::MissingRow(path)
        | Refusal::RangeStart(path)
        | Refusal::RangeLink(path)
        | Refusal::RangeKept(path)
        | Refusal::IndexOrDivisor(path)
        | Refusal::Charge(path)
        | Refusal::Weight(path)
        | Refusal::Depth(path)
        | Refusal::Far(path) => Some(path.as_str()),
        _ => None,
    }
}

// Whether a declared place may have a row of this kind, in a certificate with a row REPEATS or without.
fn may_have(declared: Option<Declared<'_>>, kind: &str, repeats: bool) -> bool {
    let (own, far) = match declared {
        Some(Declared::Resource(_)) => ("DEPTH", ""),
        Some(Declared::State(_, _)) => ("CHARGE", "FARSTATE"),
        Some(Declared::Event(_) | Declared::Port(_)) => ("WEIGHT", "FAR"),
        Some(Declared::Variable(_, _)) => ("RANGE", ""),
        _ => ("", ""),
    };
    kind.eq_ignore_ascii_case(own) || (repeats && kind.eq_ignore_ascii_case(far))
}

// The kind of a line that is a row of this path or number.
fn kind_of<'a>(line: &'a str, path: &str) -> Option<&'a str> {
    let mut words = line.split_whitespace();
    let kind = words.next()?;
    if words.next()?.eq_ignore_ascii_case(path) {
        Some(kind)
    } else {
        None
    }
}

/// The line of a certificate's text that is a row of this path which the place may not have; where there is none, the first row of the path.
pub fn row_line(
    text: &str,
    declared: Option<Declared<'_>>,
    repeats: bool,
    path: &str,
) -> Option<usize> {
    let mut first = None;
    for (index, line) in text.split('\n').enumerate() {
        if let Some(kind) = kind_of(line, path) {
            let number = Some(index.saturating_add(1));
            if !may_have(declared, kind, repeats) {
                return number;
            }
            first = first.or(number);
        }
    }
    first
}

// Whether a line is the row of this channel.
fn is_channel(line: &str, number: u16) -> bool {
    let mut words = line.split_whitespace();
    match (words.next(), words.next()) {
        (Some(kind), Some(told)) => {
            kind.eq_ignore_ascii_case("CHANNEL") && told.parse::<u16>().ok() == Some(number)
        }
        _ => false,
    }
}

/// The line of a certificate's text that is the row of a channel.
pub fn channel_line(text: &str, number: u16) -> Option<usize> {
    for (index, line) in text.split('\n').enumerate() {
        if is_channel(line, number) {
            return Some(index.saturating_add(1));
        }
    }
    None
}
