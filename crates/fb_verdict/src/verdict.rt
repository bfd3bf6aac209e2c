//! The verdict over a system and a certificate.

ghost use Rattle.std.specs.Prelude.{◌≡◌, ◌≤◌, ◌<◌, ℕ, Some, length, map, IfOk, IfErr, Err, OnOk};
ghost use Rattle.std.specs.List.{AllByRecursion};
ghost use Rattle.fb_model.specs.Spelling.{text_limit};
ghost use Rattle.fb_model.specs.System.{System};
ghost use Rattle.fb_model.specs.Declarations.{SourceTree};
ghost use Rattle.fb_model.specs.EventBlocks.{Elaborates};
ghost use Rattle.fb_model.specs.Certificates as book;
ghost use Rattle.fb_model.specs.CertificateText.{Spells, most_characters};
ghost use Rattle.fb_cert.specs.Views.{certificate_of};
ghost use Rattle.fb_model.specs.Sources.{IsSource};
ghost use Rattle.fb_types.specs.declared.typed.Configuration as systems;
ghost use Rattle.fb_types.specs.Views.{system_of};
ghost use Rattle.fb_flat.specs.Leaves.{flat_device, written_device};
ghost use Rattle.fb_model.specs.Certificates.{FollowsFew, FarFits, Fits};
ghost use Rattle.fb_faults.specs.declared.shortfall.Shortfall.{Shortfall};
ghost use Rattle.fb_flat.specs.Tables.{AreDevices};
ghost use Rattle.fb_model.specs.Misfits.{AllClear};
ghost use Rattle.fb_check_columns.specs.Fitting.{AllPay, AreKnown};
ghost use Rattle.fb_model.specs.Misfits.{IsUnpaid};
ghost use Rattle.fb_verdict.specs.Fitting.{FitsAlone};
ghost use Rattle.fb_faults.specs.Refusals.{of_far};
ghost use Rattle.fb_verdict.specs.Faults.{IsFitFault};
ghost use Rattle.fb_verified.specs.Checked.{system_in, certificate_in};
ghost use Rattle.fb_model.specs.Written.{IsWritten};
ghost use Rattle.fb_verdict.specs.Verdicts.{AreGiven, IsOfTexts, verdict_of};
ghost use Rattle.fb_model.specs.Verdicts.{IsFaultOf, StandIn};
ghost use Rattle.fb_model.specs.Promises.{AcceptsExactly, RefusesTruly};
ghost use Rattle.fb_faults.specs.declared.text.TextFault.TheVariants as texts;
ghost use Rattle.fb_faults.specs.declared.refusal.Refusal.TheVariants.{OutOfMemory};
ghost use Rattle.fb_faults.specs.declared.refusal.Refusal.TheVariants as refusals;

use crate::texts::{read_certificate, read_system};
use fb_cert::Certificate;
use fb_check_columns::{Column, channels_pay, column_pays};
use fb_check_ranges::rows_clear;
use fb_check_rows::{depths_fit, rows_match};
use fb_faults::{Refusal, Shortfall};
use fb_flat::{Flat, flatten};
use fb_types::Typed;
use fb_verified::Verified;
use std::alloc::Global;

// The rows are those that the system must have, all is clear under them, and they pay in both columns and at each queue.
fn alone_fits(alloc: Global, flat: &Flat, certificate: &Certificate) -> Result<(), Refusal>
    ensures fits { (s : System) → IsWritten s → map flat_device flat.now.devices.items ≡ map written_device s.devices → AllByRecursion FollowsFew s.devices → OnOk result (FitsAlone s (certificate_of certificate.now)) }
    ensures refused { (typed : systems.Configuration) → IsWritten (system_of typed) → map flat_device flat.now.devices.items ≡ map written_device (system_of typed).devices → IfErr result (IsFitFault typed (certificate_of certificate.now)) }
{
    rows_match(alloc, flat, certificate)?;
    rows_clear(alloc, flat, certificate)?;
    column_pays(alloc, flat, certificate, Column::Steps)?;
    column_pays(alloc, flat, certificate, Column::Places)?;
    depths_fit(alloc, flat, certificate)?;
    Ok(())
}

// A row that does not pay for what happens on all devices.
fn far_refusal(fault: Shortfall) -> Refusal
    ensures { result ≡ of_far fault }
{
    match fault {
        Shortfall::OutOfMemory => Refusal::OutOfMemory,
        Shortfall::Charge(path) => Refusal::Far(path),
        Shortfall::Weight(path) => Refusal::Far(path),
        Shortfall::Channel(number) => Refusal::Channel(number),
    }
}

// The rows of states and events pay for what happens on all devices.
fn far_pays(alloc: Global, flat: &Flat, certificate: &Certificate) -> Result<(), Refusal>
    ensures pays { (s : System) → AreDevices flat.now.devices.items s.devices → AreKnown (certificate_of certificate.now).ranges s → OnOk result (AllPay (book.far_of (certificate_of certificate.now)) (certificate_of certificate.now).ranges s) }
    ensures refused { (s : System) → AreDevices flat.now.devices.items s.devices → AreKnown (certificate_of certificate.now).ranges s → IfErr result (λ f. (g : Shortfall) × (f ≡ of_far g) × IsUnpaid (book.far_of (certificate_of certificate.now)) (certificate_of certificate.now).ranges s g) }
{
    match column_pays(alloc, flat, certificate, Column::Far) {
        Ok(()) => Ok(()),
        Err(fault) => Err(far_refusal(fault)),
    }
}

// And those of channels pay for what a datagram causes at all SUBSCRIBE, delivered so often.
fn network_pays(
    alloc: Global,
    flat: &Flat,
    certificate: &Certificate,
    repeats: u8,
) -> Result<(), Refusal>
    ensures fits { (s : System) → IsWritten s → map flat_device flat.now.devices.items ≡ map written_device s.devices → AllClear (certificate_of certificate.now).ranges s → OnOk result (FarFits (certificate_of certificate.now) repeats s) }
    ensures refused { (typed : systems.Configuration) → IsWritten (system_of typed) → map flat_device flat.now.devices.items ≡ map written_device (system_of typed).devices → AllClear (certificate_of certificate.now).ranges (system_of typed) → (certificate_of certificate.now).repeats ≡ Some repeats → IfErr result (IsFitFault typed (certificate_of certificate.now)) }
{
    far_pays(alloc, flat, certificate)?;
    channels_pay(alloc, flat, certificate, repeats)?;
    Ok(())
}

// With a row REPEATS both hold.
fn far_fits(alloc: Global, flat: &Flat, certificate: &Certificate) -> Result<(), Refusal>
    ensures fits { (s : System) → IsWritten s → map flat_device flat.now.devices.items ≡ map written_device s.devices → AllClear (certificate_of certificate.now).ranges s → OnOk result ((r : ℕ) → (certificate_of certificate.now).repeats ≡ Some r → FarFits (certificate_of certificate.now) r s) }
    ensures refused { (typed : systems.Configuration) → IsWritten (system_of typed) → map flat_device flat.now.devices.items ≡ map written_device (system_of typed).devices → AllClear (certificate_of certificate.now).ranges (system_of typed) → IfErr result (IsFitFault typed (certificate_of certificate.now)) }
{
    match certificate.repeats() {
        Some(repeats) => network_pays(alloc, flat, certificate, repeats),
        None => Ok(()),
    }
}

// All of this together.
fn tables_fit(alloc: Global, flat: &Flat, certificate: &Certificate) -> Result<(), Refusal>
    ensures fits { (s : System) → IsWritten s → map flat_device flat.now.devices.items ≡ map written_device s.devices → AllByRecursion FollowsFew s.devices → OnOk result (Fits s (certificate_of certificate.now)) }
    ensures refused { (typed : systems.Configuration) → IsWritten (system_of typed) → map flat_device flat.now.devices.items ≡ map written_device (system_of typed).devices → AllByRecursion FollowsFew (system_of typed).devices → IfErr result (IsFitFault typed (certificate_of certificate.now)) }
{
    alone_fits(alloc, flat, certificate)?;
    far_fits(alloc, flat, certificate)
}

// The leaves of a system, where a certificate fits it.
fn fitting_leaves(alloc: Global, typed: &Typed, certificate: &Certificate) -> Result<Flat, Refusal>
    ensures tables { IfOk result (λ f. map flat_device f.devices.items ≡ map written_device (system_of typed.now).devices) }
    ensures fits { OnOk result (Fits (system_of typed.now) (certificate_of certificate.now)) }
    ensures refused { IfErr result (IsFitFault typed.now (certificate_of certificate.now)) }
{
    typed.stands_in_text();
    let flat = flatten(alloc, typed)?;
    match tables_fit(alloc, &flat, certificate) {
        Ok(()) => Ok(flat),
        Err(refusal) => {
            flat.let_go();
            Err(refusal)
        }
    }
}

// A system with a certificate that fits it.
fn verified(alloc: Global, typed: Typed, certificate: Certificate) -> Result<Verified, Refusal>
    ensures same { IfOk result (λ v. (system_in v ≡ system_of typed) × (certificate_in v ≡ certificate_of certificate)) }
    ensures fits { OnOk result (Fits (system_of typed) (certificate_of certificate)) }
    ensures refused { IfErr result (IsFitFault typed (certificate_of certificate)) }
{
    typed.stands_in_text();
    certificate.stands_in_text();
    match fitting_leaves(alloc, &typed, &certificate) {
        Ok(flat) => Ok(Verified::new(typed, flat, certificate)),
        Err(refusal) => {
            typed.let_go();
            certificate.let_go();
            Err(refusal)
        }
    }
}

/// Whether a certificate fits a system: its rows are exactly those that the system must have, every variable keeps in its
/// range whatever happens and nothing traps, and all inequalities hold, over whole numbers, in the steps column and in the places column, and for
/// each depth; with a row REPEATS also those of the steps on all devices and of channels.
///
/// Refused with `UnknownRow`, `MissingRow`, `UnknownChannel`, `MissingChannel`, `RangeStart`, `RangeLink`, `RangeKept`, `IndexOrDivisor`, `Charge`, `Weight`,
/// `Depth`, `Far`, `Channel`, or with `Limit` where too many connections are followed: each only where it is so, and none, unless memory runs out, where
/// the certificate fits.
pub fn check(alloc: Global, typed: Typed, certificate: Certificate) -> Result<Verified, Refusal>
    ensures exactly { AcceptsExactly (AreGiven (system_of typed) (certificate_of certificate)) (verdict_of result) }
    ensures truly { RefusesTruly (IsFitFault typed (certificate_of certificate)) (verdict_of result) }
    ensures same { IfOk result (λ v. (system_in v ≡ system_of typed) × (certificate_in v ≡ certificate_of certificate)) }
    ensures fits { OnOk result (Fits (system_of typed) (certificate_of certificate)) }
    ensures refused { IfErr result (IsFitFault typed (certificate_of certificate)) }
    ensures accepts { Fits (system_of typed) (certificate_of certificate) → IfErr result (λ f. f ≡ OutOfMemory) }
{
    verified(alloc, typed, certificate)
}

// The verdict over two texts, case by case.
fn judge(alloc: Global, text: &str, certificate: &str) -> Result<Verified, Refusal>
    ensures accepted { IfOk result (IsOfTexts text.now certificate.now) }
    ensures within { IfOk result (λ v. (length text.now ≤ text_limit) × (length certificate.now ≤ most_characters)) }
    ensures long { text_limit < length text.now → result ≡ Err (refusals.Text texts.TooLong) }
    ensures refused { IfErr result (IsFaultOf text.now certificate.now) }
    ensures accepts { (source : SourceTree) (system : System) (rows : book.Certificate) → length text.now ≤ text_limit → length certificate.now ≤ most_characters
        → IsSource text.now source → Elaborates source system → Spells certificate.now rows → Fits system rows → IfErr result (λ f. f ≡ OutOfMemory) }
{
    match read_system(alloc, text) {
        Ok(typed) => match read_certificate(alloc, certificate) {
            Ok(rows) => check(alloc, typed, rows),
            Err(refusal) => {
                typed.let_go();
                Err(refusal)
            }
        },
        Err(refusal) => Err(refusal),
    }
}

/// The verdict over the text of an application and the text of a certificate: it accepts exactly what fits, and refuses truly. The other clauses say both case by case.
///
/// It accepts just where the first is spelled and well typed, the second is spelled, and the certificate fits, unless memory runs out or a text is
/// too long. What a refusal says is so.
pub fn check_text(alloc: Global, text: &str, certificate: &str) -> Result<Verified, Refusal>
    ensures exactly { AcceptsExactly (StandIn text.now certificate.now) (verdict_of result) }
    ensures truly { RefusesTruly (IsFaultOf text.now certificate.now) (verdict_of result) }
    ensures accepted { IfOk result (IsOfTexts text.now certificate.now) }
    ensures within { IfOk result (λ v. (length text.now ≤ text_limit) × (length certificate.now ≤ most_characters)) }
    ensures long { text_limit < length text.now → result ≡ Err (refusals.Text texts.TooLong) }
    ensures refused { IfErr result (IsFaultOf text.now certificate.now) }
    ensures accepts { (source : SourceTree) (system : System) (rows : book.Certificate) → length text.now ≤ text_limit → length certificate.now ≤ most_characters
        → IsSource text.now source → Elaborates source system → Spells certificate.now rows → Fits system rows → IfErr result (λ f. f ≡ OutOfMemory) }
{
    judge(alloc, text, certificate)
}
