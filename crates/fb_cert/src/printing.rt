//! The text of a certificate.

ghost use Rattle.std.specs.Prelude.{◌≡◌, ◌++◌, flat_map, length, slice_get, string_bytes, IfOk};
ghost use Rattle.fb_model.specs.CertificateText.{Spells};
ghost use Rattle.fb_cert.specs.Views.{rows_of, certificate_of, text_row_of, row_seen};
ghost use Rattle.fb_cert.specs.Printed.{row_line, entries_of, printed};

use crate::certificate::Certificate;
use crate::kind::Kind;
use crate::law::printed_spells;
use crate::row::Row;
use fb_faults::OutOfMemory;
use std::alloc::{AllocError, Global};
use std::fmt;

/// The words of the row, with a space between them.
impl<'a> fmt::Display for Row<'a> {
    ghost use Rattle.std.specs.Prelude.{Some};
    ghost use Rattle.fb_cert.specs.Printed.{row_text};
    ghost use Rattle.fb_cert.specs.Views.{text_row_of};

    ghost output = { λ row. Some (row_text (text_row_of row)) };

    fn fmt<W: fmt::Write>(&self, f: &mut fmt::Formatter<W>) -> fmt::Result {
        match self {
            Row::Repeats(number) => write!(f, "REPEATS {number}"),
            Row::Range(path, interval) => {
                let low = interval.low;
                let high = interval.high;
                write!(f, "RANGE {path} {low} {high}")
            }
            Row::Charge(path, amount) => {
                let steps = amount.steps;
                let places = amount.places;
                write!(f, "CHARGE {path} {steps} {places}")
            }
            Row::Weight(path, amount) => {
                let steps = amount.steps;
                let places = amount.places;
                write!(f, "WEIGHT {path} {steps} {places}")
            }
            Row::Depth(path, depth) => write!(f, "DEPTH {path} {depth}"),
            Row::Far(path, steps) => write!(f, "FAR {path} {steps}"),
            Row::FarState(path, steps) => write!(f, "FARSTATE {path} {steps}"),
            Row::Channel(number, steps) => write!(f, "CHANNEL {number} {steps}"),
        }
    }
}

// Writes a row and the end of its line.
fn print_row(text: &mut String, row: Row) -> Result<(), AllocError>
    ensures { IfOk result (λ _. string_bytes text.new ≡ string_bytes text.old ++ row_line (text_row_of row.entry)) }
{
    writeln!(text, "{row}")
}

// How many rows of a kind there are.
fn count(certificate: &Certificate, kind: Kind) -> usize
    ensures { result ≡ length (entries_of kind (rows_of certificate.now)) }
{
    match kind {
        Kind::Repeats => match certificate.repeats() {
            Some(_) => 1,
            None => 0,
        },
        Kind::Range => certificate.range_count(),
        Kind::Charge => certificate.charge_count(),
        Kind::Weight => certificate.weight_count(),
        Kind::Depth => certificate.depth_count(),
        Kind::Far => certificate.far_count(),
        Kind::FarState => certificate.far_state_count(),
        Kind::Channel => certificate.channel_count(),
    }
}

// The row of a kind at an index in text order.
fn row_at<'a>(certificate: &'a Certificate, kind: Kind, index: usize) -> Option<Row<'a>>
    ensures { row_seen result ≡ slice_get (entries_of kind (rows_of certificate.now)) index }
{
    match kind {
        Kind::Repeats => {
            if index > 0 {
                return None;
            }
            Some(Row::Repeats(certificate.repeats()?))
        }
        Kind::Range => {
            let (path, interval) = certificate.range_at(index)?;
            Some(Row::Range(path, interval))
        }
        Kind::Charge => {
            let (path, amount) = certificate.charge_at(index)?;
            Some(Row::Charge(path, amount))
        }
        Kind::Weight => {
            let (path, amount) = certificate.weight_at(index)?;
            Some(Row::Weight(path, amount))
        }
        Kind::Depth => {
            let (path, depth) = certificate.depth_at(index)?;
            Some(Row::Depth(path, depth))
        }
        Kind::Far => {
            let (path, steps) = certificate.far_at(index)?;
            Some(Row::Far(path, steps))
        }
        Kind::FarState => {
            let (path, steps) = certificate.far_state_at(index)?;
            Some(Row::FarState(path, steps))
        }
        Kind::Channel => {
            let (number, steps) = certificate.channel_at(index)?;
            Some(Row::Channel(number, steps))
        }
    }
}

// Writes the rows of a kind.
fn print_kind(text: &mut String, certificate: &Certificate, kind: Kind) -> Result<(), AllocError>
    ensures { IfOk result (λ _. string_bytes text.new ≡ string_bytes text.old ++ flat_map row_line (entries_of kind (rows_of certificate.now))) }
{
    for index in 0..count(certificate, kind) {
        if let Some(row) = row_at(certificate, kind, index) {
            print_row(text, row)?;
        }
    }
    Ok(())
}

fn print_rows(alloc: Global, certificate: &Certificate) -> Result<String, AllocError>
    ensures { IfOk result (λ s. string_bytes s ≡ printed (rows_of certificate.now)) }
{
    let mut text = String::from_str(alloc, "CERT 1\n")?;
    print_kind(&mut text, certificate, Kind::Repeats)?;
    print_kind(&mut text, certificate, Kind::Range)?;
    print_kind(&mut text, certificate, Kind::Charge)?;
    print_kind(&mut text, certificate, Kind::Weight)?;
    print_kind(&mut text, certificate, Kind::Depth)?;
    print_kind(&mut text, certificate, Kind::Far)?;
    print_kind(&mut text, certificate, Kind::FarState)?;
    print_kind(&mut text, certificate, Kind::Channel)?;
    Ok(text)
}

/// The text of a certificate: `CERT 1`, and then a row a line: `REPEATS`, all `RANGE`, all `CHARGE`, all `WEIGHT`, all `DEPTH`, all `FAR`, all `FARSTATE`
/// and all `CHANNEL`, each in its order.
pub fn print_cert(alloc: Global, certificate: &Certificate) -> Result<String, OutOfMemory>
    ensures text { IfOk result (λ s. string_bytes s ≡ printed (rows_of certificate.now)) }
    // What is printed spells the certificate.
    ensures spelled { IfOk result (λ s. Spells (string_bytes s) (certificate_of certificate.now)) }
{
    printed_spells(certificate);
    match print_rows(alloc, certificate) {
        Ok(text) => Ok(text),
        Err(_) => Err(OutOfMemory),
    }
}
