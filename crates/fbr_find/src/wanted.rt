//! What `bound` is asked for, with its files read, and the text that answers it.

ghost use Rattle.std.specs.Prelude.{◌≡◌, ◌≤◌, ℕ, List, Option, IfErr, IfOk, IfSome, MatchResult, string_bytes};
ghost use Rattle.fb_types.specs.Views.{system_of};
ghost use Rattle.fb_model.specs.CertificateText.{Spells};
ghost use Rattle.fb_cert.specs.Views.{book_of, certificate_of, rows_of, Rows};
ghost use Rattle.fb_cert.specs.Printed.{printed};
ghost use Rattle.fb_find.specs.Bounds.{RowsStand};
ghost use Rattle.fb_model.specs.Finding.{IsFound};
ghost use Rattle.fb_find_search.specs.Searching.{IsFoundSomehow, IsSearched};
ghost use Rattle.fbr_files.specs.declared.fault.Fault.TheVariants.{Memory};
ghost use Rattle.fbr_files.specs.Reading.{IsRead, IsFile};
ghost use Rattle.fbr_files.specs.Writing.{Holdings};
ghost use Rattle.fbr_words.specs.Program as program;
ghost use Rattle.fbr_words.specs.Requests.{ranges_of, sought_of};
ghost use Rattle.fbr_find.specs.Bounding.{AreRangesRead, IsReadFor, HoldsRows, IsGivenFault, IsKeptFault, IsUnboundKeeping, IsUnbound, IsRangesFault, IsSystemFault, IsTextFaultAsked, IsFoundBy, IsTextOf, IsTextAsked, IsFitting, IsAccepted, IsLengthFault, IsSoughtText, IsSoughtFault, with_room as roomed};

use crate::finding::{bounded, text_of, typed_in};
use fb_cert::{Certificate, parse_cert};
use fb_faults::{CertFault, Refusal};
use fb_find::find;
use fb_find_length::rows_are_long;
use fb_find_room::with_room;
use fb_find_search::{find_keeping, search};
use fb_types::Typed;
use fbr_files::{Fault, FileText, Sources, read_app, read_file};
use fbr_words::{Bound, Ranges};
use std::alloc::Global;

/// The most characters of a certificate's text.
const LONGEST: usize = 16_777_216;

/// Which ranges a certificate gets: those of the finder's rounds; others where nothing is clear under these; or such as keep the rows RANGE of a file.
#[derive(Drop)]
pub enum RangesFrom<'a> {
    Rounds,
    Searched,
    Within(FileText<'a>),
}

/// What is wanted: a certificate of what a file holds.
#[derive(Drop)]
pub struct Wanted<'a> {
    pub app: FileText<'a>,
    pub ranges: RangesFrom<'a>,
    /// How often datagrams are delivered at most, 1 or more.
    pub repeats: Option<u8>,
    pub room: Option<u8>,
}

// Reads the file whose rows are kept, where one is named.
fn read_ranges<'a, S: Sources>(alloc: Global, files: &S, ranges: Ranges<'a>) -> RangesFrom<'a>
    ensures { AreRangesRead (ranges_of ranges.entry) (S.contents files.now) result }
{
    match ranges {
        Ranges::Rounds => RangesFrom::Rounds,
        Ranges::Searched => RangesFrom::Searched,
        Ranges::Within(name) => RangesFrom::Within(read_file(alloc, files, name)),
    }
}

/// Reads the files of what is asked for.
pub fn read_wanted<'a, S: Sources>(alloc: Global, files: &S, bound: Bound<'a>) -> Wanted<'a>
    ensures { IsReadFor (sought_of bound.entry) (S.contents files.now) result }
{
    Wanted {
        app: read_app(alloc, files, bound.app, bound.meant),
        ranges: read_ranges(alloc, files, bound.ranges),
        repeats: bound.repeats,
        room: bound.room,
    }
}

// The rows that a file holds.
fn given_rows<'a>(alloc: Global, file: &FileText<'a>) -> Result<Certificate, Fault<'a>>
    ensures { (held : Option (List ℕ)) → IsRead held file.now.held → MatchResult result (λ c. HoldsRows held (rows_of c)) (IsGivenFault file.now.name.now held) }
{
    match file.text() {
        Ok(text) => match parse_cert(alloc, text) {
            Ok(rows) => Ok(rows),
            Err(CertFault::OutOfMemory) => Err(Fault::Memory),
            Err(fault) => Err(Fault::Refused(Refusal::Certificate(fault))),
        },
        Err(fault) => Err(fault),
    }
}

// The certificate of a system with the ranges of the finder's rounds.
fn least_for<'a>(
    alloc: Global,
    typed: &Typed,
    repeats: Option<u8>,
) -> Result<Certificate, Fault<'a>>
    requires { IfSome repeats (λ r. 1 ≤ r) }
    ensures { MatchResult result (λ c. IsFound repeats (system_of typed.now) (certificate_of c)) (IsUnbound repeats (system_of typed.now)) }
{
    bounded(find(alloc, typed, repeats))
}

// The same, with other ranges where nothing is clear under these.
fn searched_for<'a>(
    alloc: Global,
    typed: &Typed,
    repeats: Option<u8>,
) -> Result<Certificate, Fault<'a>>
    requires { IfSome repeats (λ r. 1 ≤ r) }
    ensures { MatchResult result (λ c. IsFoundSomehow repeats (system_of typed.now) (certificate_of c) × IsSearched repeats (system_of typed.now) (certificate_of c)) (IsUnbound repeats (system_of typed.now)) }
{
    bounded(search(alloc, typed, repeats))
}

// The certificate of a system that keeps the rows RANGE that are given.
fn kept_for<'a>(
    alloc: Global,
    typed: &Typed,
    repeats: Option<u8>,
    given: Certificate,
) -> Result<Certificate, Fault<'a>>
    requires { IfSome repeats (λ r. 1 ≤ r) }
    ensures { MatchResult result (λ c. IsFoundSomehow repeats (system_of typed.now) (certificate_of c) × RowsStand (rows_of given) (rows_of c)) (IsUnboundKeeping (rows_of given) repeats (system_of typed.now)) }
{
    bounded(find_keeping(alloc, typed, repeats, given))
}

// The same with those of a file.
fn kept_in<'a>(
    alloc: Global,
    typed: &Typed,
    repeats: Option<u8>,
    file: &FileText<'a>,
) -> Result<Certificate, Fault<'a>>
    requires { IfSome repeats (λ r. 1 ≤ r) }
    ensures { (held : Option (List ℕ)) → IsRead held file.now.held
        → MatchResult result (λ c. IsFoundSomehow repeats (system_of typed.now) (certificate_of c) × ((given : Rows) × HoldsRows held given × RowsStand given (rows_of c))) (IsKeptFault file.now.name.now held repeats (system_of typed.now)) }
{
    match given_rows(alloc, file) {
        Ok(given) => kept_for(alloc, typed, repeats, given),
        Err(fault) => Err(fault),
    }
}

// The certificate of a system with such ranges.
fn certificate_in<'a>(
    alloc: Global,
    typed: &Typed,
    repeats: Option<u8>,
    ranges: &RangesFrom<'a>,
) -> Result<Certificate, Fault<'a>>
    requires { IfSome repeats (λ r. 1 ≤ r) }
    ensures { (asked : Option (Option (List ℕ))) (files : Holdings) → AreRangesRead asked files ranges.now
        → MatchResult result (λ c. IsFoundBy asked repeats files (system_of typed.now) (rows_of c)) (IsRangesFault asked repeats files (system_of typed.now)) }
{
    match ranges {
        RangesFrom::Rounds => least_for(alloc, typed, repeats),
        RangesFrom::Searched => searched_for(alloc, typed, repeats),
        RangesFrom::Within(file) => kept_in(alloc, typed, repeats, file),
    }
}

// A certificate with so much room, where any is asked for.
fn roomy_for<'a>(
    alloc: Global,
    typed: &Typed,
    room: Option<u8>,
    certificate: Certificate,
) -> Result<Certificate, Fault<'a>>
    ensures { MatchResult result (λ c. rows_of c ≡ roomed room (system_of typed.now) (rows_of certificate)) (λ f. f ≡ Memory) }
{
    let Some(times) = room else {
        return Ok(certificate);
    };
    match with_room(alloc, typed, times, certificate) {
        Ok(roomy) => Ok(roomy),
        Err(_) => Err(Fault::Memory),
    }
}

// Its text.
fn text_with_room<'a>(
    alloc: Global,
    typed: &Typed,
    room: Option<u8>,
    certificate: Certificate,
) -> Result<String, Fault<'a>>
    ensures text { MatchResult result (λ text. string_bytes text ≡ printed (roomed room (system_of typed.now) (rows_of certificate))) (λ f. f ≡ Memory) }
    ensures spelled { IfOk result (λ text. Spells (string_bytes text) (book_of (roomed room (system_of typed.now) (rows_of certificate)))) }
{
    match roomy_for(alloc, typed, room, certificate) {
        Ok(roomy) => {
            let text = text_of(alloc, &roomy);
            roomy.let_go();
            text
        }
        Err(fault) => Err(fault),
    }
}

impl<'a> Wanted<'a> {
    // The text that is wanted of a system.
    fn text_for(&self, alloc: Global, typed: &Typed) -> Result<String, Fault<'a>>
        requires { IfSome self.now.repeats (λ r. 1 ≤ r) }
        ensures { (q : program.Sought) (files : Holdings) → IsReadFor q files self.now
            → MatchResult result (λ text. IsTextOf q files (system_of typed.now) (string_bytes text)) (IsRangesFault q.ranges q.repeats files (system_of typed.now)) }
    {
        match certificate_in(alloc, typed, self.repeats, &self.ranges) {
            Ok(certificate) => text_with_room(alloc, typed, self.room, certificate),
            Err(fault) => Err(fault),
        }
    }

    // The same, unless the rows that the system must have are longer than what the checker reads: then nothing is examined.
    fn text_unless_long(&self, alloc: Global, typed: &Typed) -> Result<String, Fault<'a>>
        requires { IfSome self.now.repeats (λ r. 1 ≤ r) }
        ensures { (q : program.Sought) (files : Holdings) → IsReadFor q files self.now
            → MatchResult result (λ text. IsTextOf q files (system_of typed.now) (string_bytes text)) (IsSystemFault q files (system_of typed.now)) }
    {
        if rows_are_long(typed, self.repeats) {
            return Err(Fault::Refused(Refusal::Certificate(CertFault::TooLong)));
        }
        self.text_for(alloc, typed)
    }

    // The text that is wanted of an application's text. It fits.
    fn text_over(&self, alloc: Global, app: &str) -> Result<String, Fault<'a>>
        requires { IfSome self.now.repeats (λ r. 1 ≤ r) }
        ensures { (q : program.Sought) (files : Holdings) → IsReadFor q files self.now
            → MatchResult result (λ text. IsTextAsked q files app.now (string_bytes text) × IsFitting app.now (string_bytes text)) (IsTextFaultAsked q files app.now) }
    {
        match typed_in(alloc, app) {
            Ok(typed) => {
                let text = self.text_unless_long(alloc, &typed);
                typed.let_go();
                text
            }
            Err(fault) => Err(fault),
        }
    }

    // The same, where it is not longer than what the checker reads.
    fn short_text(&self, alloc: Global, app: &str) -> Result<String, Fault<'a>>
        requires { IfSome self.now.repeats (λ r. 1 ≤ r) }
        ensures { (q : program.Sought) (files : Holdings) → IsReadFor q files self.now
            → MatchResult result (λ text. IsTextAsked q files app.now (string_bytes text) × IsAccepted app.now (string_bytes text)) (IsTextFaultAsked q files app.now) }
    {
        match self.text_over(alloc, app) {
            Ok(text) => {
                if text.len() > LONGEST {
                    Err(Fault::Refused(Refusal::Certificate(CertFault::TooLong)))
                } else {
                    Ok(text)
                }
            }
            Err(fault) => Err(fault),
        }
    }

    /// The text of the certificate that is wanted, which the checker accepts unless memory runs out; or why there is none.
    pub fn text(&self, alloc: Global) -> Result<String, Fault<'a>>
        requires { IfSome self.now.repeats (λ r. 1 ≤ r) }
        ensures { (q : program.Sought) (files : Holdings) → IsReadFor q files self.now → MatchResult result (λ text. IsSoughtText q files (string_bytes text)) (IsSoughtFault q files) }
    {
        match self.app.text() {
            Ok(app) => self.short_text(alloc, app),
            Err(fault) => Err(fault),
        }
    }
}
