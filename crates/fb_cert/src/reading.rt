//! Certificate texts, line by line.

ghost use Rattle.std.specs.Prelude.{◌≡◌, ◌≤◌, ◌<◌, length, IfOk, IfErr, Ok, Err, false};
ghost use Rattle.std.specs.Str.Lines.{lines};
ghost use Rattle.fb_model.specs.CertificateText.{words, most_characters, Spells};
ghost use Rattle.fb_model.specs.Certificates as book;
ghost use Rattle.fb_cert.specs.Views.{rows_in, book_of, no_rows, texts, certificate_of};
ghost use Rattle.fb_cert.specs.Progress.{read_of};
ghost use Rattle.fb_cert.specs.Reading.{read, row_at, words_at, lines_at, whole, text_at};
ghost use Rattle.fb_cert.specs.Sayable.{AreSayable};
ghost use Rattle.fb_faults.specs.declared.certificate.CertFault.{CertFault};
ghost use Rattle.fb_faults.specs.declared.certificate.CertFault.TheVariants.{TooLong};
ghost use Rattle.fb_cert.specs.Answers.{Gives, Makes, Finds, Tells};
ghost use Rattle.fb_model.specs.RefusedCertificates.{Faulty, Refuses};

use crate::certificate::Certificate;
use crate::lists::Lists;
use crate::row::{begins_cert, is_head, read_row};
use fb_faults::CertFault;
use std::alloc::{AllocError, Global};

/// The most bytes of a text.
const MOST_BYTES: usize = 16_777_216;

/// What is read so far: whether the first row has come, and the rows behind it.
#[derive(Drop)]
struct Reader {
    headed: bool,
    lists: Lists,
}

fn words_of(alloc: Global, line: &str) -> Result<Vec<&str>, AllocError>
    ensures { IfOk result (λ v. texts v.items ≡ words line.now) }
{
    line.split(' ')
        .filter(|word| !word.is_empty())
        .collect(alloc)
}

// Enters a row after the first.
fn enter(alloc: Global, lists: &mut Lists, words: &[&str], line: usize) -> Result<(), CertFault>
    ensures { Makes (rows_in lists.new) result (row_at line (texts words.now) (rows_in lists.old)) }
{
    if begins_cert(words) {
        return Err(CertFault::DuplicateRow(line));
    }
    match read_row(words) {
        None => Err(CertFault::Row(line)),
        Some(row) => {
            if lists.add(alloc, row)? {
                Ok(())
            } else {
                Err(CertFault::DuplicateRow(line))
            }
        }
    }
}

impl Reader {
    // Takes the words of the line with this number.
    fn take(&mut self, alloc: Global, words: &[&str], line: usize) -> Result<(), CertFault>
        ensures { Makes (read_of self.new) result (words_at line (texts words.now) (read_of self.old)) }
    {
        if words.is_empty() {
            return Ok(());
        }
        if self.headed {
            return enter(alloc, &mut self.lists, words, line);
        }
        if !is_head(words) {
            return Err(CertFault::Row(line));
        }
        self.headed = true;
        Ok(())
    }
}

// Takes a line with its number.
fn take_line(alloc: Global, reader: &mut Reader, line: &str, number: usize) -> Result<(), CertFault>
    ensures { Makes (read_of reader.new) result (words_at number (words line.now) (read_of reader.old)) }
{
    let words = words_of(alloc, line)?;
    reader.take(alloc, words.as_slice(), number)
}

// Takes the lines of a text in upper case.
fn take_lines(alloc: Global, reader: &mut Reader, text: &str) -> Result<(), CertFault>
    requires { length text.now ≤ most_characters }
    ensures { Makes (read_of reader.new) result (lines_at 1 (lines text.now) (read_of reader.old)) }
{
    let mut number = 0;
    for line in text.lines() {
        number += 1;
        take_line(alloc, reader, line, number)?;
    }
    Ok(())
}

// The rows of a text that is read to its end.
fn rows_read(reader: Reader) -> Result<Lists, CertFault>
    ensures { Gives rows_in result (whole (Ok (read_of reader))) }
{
    if !reader.headed {
        reader.lists.let_go();
        return Err(CertFault::Row(1));
    }
    Ok(reader.lists)
}

// Reads a text in upper case.
fn read_lines(alloc: Global, text: &str) -> Result<Lists, CertFault>
    requires { length text.now ≤ most_characters }
    ensures { Gives rows_in result (whole (lines_at 1 (lines text.now) (read false no_rows))) }
{
    let mut reader = Reader {
        headed: false,
        lists: Lists::new(alloc),
    };
    match take_lines(alloc, &mut reader, text) {
        Ok(()) => rows_read(reader),
        Err(fault) => {
            reader.lists.let_go();
            Err(fault)
        }
    }
}

fn read_text(alloc: Global, text: &str) -> Result<Lists, CertFault>
    ensures read { Gives rows_in result (text_at text.now) }
    ensures long { most_characters < length text.now → result ≡ Err TooLong }
{
    if text.len() > MOST_BYTES {
        return Err(CertFault::TooLong);
    }
    let upper = text.to_ascii_uppercase(alloc)?;
    read_lines(alloc, upper.as_str())
}

// The rows that a text spells.
fn read_spelled(alloc: Global, text: &str) -> Result<Lists, CertFault>
    ensures found { IfOk result (λ c. Spells text.now (book_of (rows_in c))) }
    ensures sayable { IfOk result (λ c. AreSayable (rows_in c)) }
    ensures within { IfOk result (λ c. length text.now ≤ most_characters) }
    ensures long { most_characters < length text.now → result ≡ Err TooLong }
    ensures only { (certificate : book.Certificate) → length text.now ≤ most_characters → Spells text.now certificate → Finds (λ c. book_of (rows_in c)) result certificate }
    ensures refused { IfErr result (Refuses text.now) }
    ensures told { (fault : CertFault) → Faulty text.now fault → Tells fault result }
{
    read_text(alloc, text)
}

/// The certificate that a text spells: `CERT 1`, and then a row a line, as `REPEATS 2`, `RANGE D.R.C.V -1 9`, `CHARGE D.R.C.START 0 0`,
/// `WEIGHT D.R.C.EI 3 1`, `DEPTH D.R 1`, `FAR D.R.C.EI 3`, `FARSTATE D.R.C.START 0` or `CHANNEL 7 5`. Letter case has no meaning.
///
/// The two numbers of a range are those of LINT, the second no less than the first. Steps are at most 1,000,000,000,000 and places
/// at most 4096; a depth is 1 to 4096, a number of `REPEATS` 1 to 255, that of a channel at most 65,535. Words stand between spaces,
/// and lines without words have no meaning but are counted.
pub fn parse_cert(alloc: Global, text: &str) -> Result<Certificate, CertFault>
    // What is answered is what the text spells, and the text is not too long; a text that is too long is refused as such.
    ensures found { IfOk result (λ c. Spells text.now (certificate_of c)) }
    ensures within { IfOk result (λ c. length text.now ≤ most_characters) }
    ensures long { most_characters < length text.now → result ≡ Err TooLong }
    // What a text spells that is not too long is answered, unless memory runs out.
    ensures only { (certificate : book.Certificate) → length text.now ≤ most_characters → Spells text.now certificate → Finds certificate_of result certificate }
    // A refusal tells the first fault of the text, and its line.
    ensures refused { IfErr result (Refuses text.now) }
    // The first fault of a text is told, unless memory runs out.
    ensures told { (fault : CertFault) → Faulty text.now fault → Tells fault result }
{
    match read_spelled(alloc, text) {
        Ok(lists) => Ok(Certificate { lists }),
        Err(fault) => Err(fault),
    }
}
