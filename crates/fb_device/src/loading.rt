//! From texts to a device.

ghost use Rattle.std.specs.Prelude.{ℕ, ◌≡◌, ◌≤◌, ◌<◌, true, false, List, map, string_bytes, length, Some, Err, slice_get, IfOk, IfErr};
ghost use Rattle.std.specs.List.{AllByRecursion};
ghost use Rattle.fb_model.specs.Spelling.{text_limit};
ghost use Rattle.fb_model.specs.System.{System, Device as book};
ghost use Rattle.fb_model.specs.Declarations.{SourceTree};
ghost use Rattle.fb_model.specs.Certificates as certs;
ghost use Rattle.fb_model.specs.CertificateText.{Spells, most_characters};
ghost use Rattle.fb_model.specs.Messages as messages;
ghost use Rattle.fb_model.specs.EventBlocks.{Elaborates};
ghost use Rattle.fb_model.specs.Wires.{leaves};
ghost use Rattle.fb_model.specs.Devices.{at_first, begun, first_stamp, silent};
ghost use Rattle.fb_wire.specs.Views.{stamped_of};
ghost use Rattle.st_exec.specs.Cells.{Form, forms_of};
ghost use Rattle.fb_chart.specs.Views.{body_kind, kind_of};
ghost use Rattle.fb_device_values.specs.First.{HaveFirstCells};
ghost use Rattle.fb_verified.specs.Checked.{system_in, certificate_in, IsChecked};
ghost use Rattle.fb_model.specs.Written.{IsSystemOf};
ghost use Rattle.fb_model.specs.Sources.{IsSource};
ghost use Rattle.fb_device_tables.specs.Tables.{AreTables};
ghost use Rattle.fb_device_state.specs.Machines.{device_in, cert_in, machine_of};
ghost use Rattle.fb_model.specs.Promises.{IsBounded};
ghost use Rattle.fb_device.specs.Refusals.{no_memory};
ghost use Rattle.fb_device.specs.Silence.{last_first, CanBegin};
ghost use Rattle.fb_device.specs.declared.refusal.Refusal.TheVariants.{Limit};
ghost use Rattle.fb_device.specs.Finding.{first_named};
ghost use Rattle.fb_device.specs.Starting.{upcoming_of, latest_of, first_of, AreEmpty, IsAtRest, IsSetUp};
ghost use Rattle.fb_device.specs.Loads.{IsLoaded, IsLoadFault, IsBeginFault, IsThere, IsReadyOf, IsMissing, IsUnnamed};

use crate::device::Device;
use crate::names::is_same;
use crate::refusal::Refusal;
use crate::sharing::{release, share};
use fb_chart::{Block, Body, Condition, Memory, Stamps, Standing};
use fb_device_state::{Program, Running};
use fb_device_tables::{Resource, Tables, tables};
use fb_device_values::{FirstValues, first_values};
use fb_sched::{Outbox, Queue, Timers};
use fb_types_services::Service;
use fb_verdict::check_text;
use fb_verified::Verified;
use fb_wire::Stamp;
use fb_words::Format;
use std::alloc::{AllocError, Global};
use std::marker::Model;
use std::rc::Rc;

// No device begins with a later cause, so that there are numbers for all that begin.
const LAST_FIRST: u64 = 18446744073709535000;

// The stamp of the first messages of a device of which no boot is told.
const FIRST_STAMP: Stamp = Stamp {
    boot: 0,
    sequence: 1,
};

/// A device that is loaded and not started yet. Contracts see it as the device's session, in which nothing has happened.
#[derive(Drop)]
pub struct Ready {
    device: Device,
}

impl Model for Ready {
    ghost use Rattle.std.specs.Coded.{codes};
    ghost use Rattle.fb_verified.specs.contracts.verified.Verified as checked;
    ghost use Rattle.fb_device_state.specs.Sessions.{Session};
    ghost use Rattle.fb_device.specs.Silence.{IsSilent};

    ghost Value = { Session };

    ghost coded = { Prim.hlevel (codes, checked.the_row.coded) };

    ghost view = { λ r. r.device };

    ghost invariant = { λ r. IsSilent r.device };
}

impl Ready {
    /// Starts the device: every BEGIN is admitted, in resource and block order.
    pub fn start(self) -> Device
        ensures begun { machine_of result ≡ begun (leaves (device_in self)) (machine_of self) }
        ensures first { (first : ℕ) (stamp : messages.Stamp) → machine_of self ≡ silent (device_in self) first stamp → machine_of result ≡ at_first (device_in self) first stamp }
        ensures bounded { IsBounded (cert_in result) (device_in result) (machine_of result) }
        ensures same { (result.verified ≡ self.verified) × (result.number ≡ self.number) }
    {
        let Ready { mut device } = self;
        device.begin();
        device
    }

    /// What was checked of the texts.
    pub fn verified(&self) -> &Verified
        ensures { result.now ≡ self.now.verified }
    {
        self.device.verified()
    }
}

// The number of the first device of a name.
fn device_named(verified: &Verified, name: &str) -> Option<usize>
    ensures { result ≡ first_named (map (λ d. string_bytes d.name) verified.now.typed.devices.items) name.now }
{
    let devices = verified.typed().devices.as_slice();
    for at in 0..devices.len() {
        if is_same(devices[at].name.as_str(), name) {
            return Some(at);
        }
    }
    None
}

// One queue for each resource, with room for as many entries as its DEPTH.
fn queues(alloc: Global, resources: &[Resource]) -> Result<Vec<Queue>, AllocError>
    ensures { IfOk result (λ v. AreEmpty resources.now v.items) }
{
    let mut queues = Vec::new(alloc);
    for resource in resources {
        queues.push(Queue::new(alloc, resource.depth as usize)?)?;
    }
    Ok(queues)
}

// The greatest DEPTH.
fn greatest(resources: &[Resource]) -> usize
    ensures { AllByRecursion (λ (x : _). x.depth ≤ result) resources.now }
{
    let mut greatest = 0;
    for resource in resources {
        greatest = greatest.max(resource.depth as usize);
    }
    greatest
}

// What a PUBLISH keeps at first.
fn first_upcoming(stamp: Stamp, format: Format) -> Stamps
    ensures { result ≡ upcoming_of stamp format }
{
    match format {
        Format::First => Stamps::Unstamped,
        Format::Second => Stamps::Upcoming(stamp),
    }
}

// What a SUBSCRIBE keeps at first.
fn first_latest(format: Format) -> Stamps
    ensures { result ≡ latest_of format }
{
    match format {
        Format::First => Stamps::Unstamped,
        Format::Second => Stamps::Latest(Stamp {
            boot: 0,
            sequence: 0,
        }),
    }
}

// What a block remembers at first.
fn first_condition(stamp: Stamp, body: &Body) -> Condition
    ensures { result ≡ first_of stamp (body_kind body.now) }
{
    match body {
        Body::Chart(_) => Condition::State(0),
        Body::Served(Service::Publish(channel, _)) => {
            Condition::Service(Standing::Closed(first_upcoming(stamp, channel.format)))
        }
        Body::Served(Service::Subscribe(channel, _)) => {
            Condition::Service(Standing::Closed(first_latest(channel.format)))
        }
        Body::Served(Service::Delay) => Condition::Service(Standing::Quiet),
        Body::Served(Service::Cycle) => Condition::Service(Standing::Quiet),
        Body::Served(_) => Condition::Service(Standing::Plain),
    }
}

// What each block remembers at first.
fn conditions(alloc: Global, stamp: Stamp, blocks: &[Block]) -> Result<Vec<Condition>, AllocError>
    ensures { IfOk result (λ v. v.items ≡ map (λ (x : _). first_of stamp (kind_of x)) blocks.now) }
{
    let mut conditions = Vec::new(alloc);
    for block in blocks {
        conditions.push(first_condition(stamp, &block.body))?;
    }
    Ok(conditions)
}

// A device to which nothing has happened, with all the room that it will take.
fn at_rest(
    alloc: Global,
    tables: &Tables,
    values: FirstValues,
    first: u64,
    stamp: Stamp,
) -> Result<Running, AllocError>
    ensures { IfOk result (IsAtRest tables.now values first stamp) }
{
    let queues = queues(alloc, &tables.resources)?;
    let conditions = conditions(alloc, stamp, &tables.blocks)?;
    let timers = Timers::new(alloc, tables.blocks.len())?;
    let outbox = Outbox::new(alloc, greatest(&tables.resources))?;
    Ok(Running {
        queues,
        memory: Memory {
            own: values.own,
            issued: values.issued,
            conditions,
        },
        timers,
        outbox,
        clock: 0,
        next: Some(first),
    })
}

// The tables of a device, and how it stands at first.
fn made(
    alloc: Global,
    verified: &Verified,
    number: usize,
    first: u64,
    stamp: Stamp,
) -> Result<(Tables, Running), AllocError>
    requires within { number < length (system_in verified.now).devices }
    ensures tables { (d : book) → slice_get (system_in verified.now).devices number ≡ Some d → IfOk result (λ p. AreTables (certificate_in verified.now) d (map forms_of p.1.memory.own.items) (map forms_of p.1.memory.issued.items) p.0) }
    ensures first { IfOk result (λ p. (values : _) × IsSetUp verified.now number first stamp values p.0 p.1) }
    ensures checked { IsChecked verified.now }
{
    verified.fits();
    let values = first_values(alloc, verified, number)?;
    let tables = tables(alloc, verified, number, &values)?;
    match at_rest(alloc, &tables, values, first, stamp) {
        Ok(running) => Ok((tables, running)),
        Err(error) => {
            tables.let_go();
            Err(error)
        }
    }
}

// The device of a number of what was checked, which begins with this cause and this stamp.
fn numbered_ready(
    alloc: Global,
    verified: Rc<Verified>,
    number: usize,
    first: u64,
    stamp: Stamp,
) -> Result<Ready, Refusal>
    requires within { number < length (system_in verified.value).devices }
    requires early { first ≤ last_first }
    ensures ready { IfOk result (λ r. (r.verified ≡ verified.value) × (r.number ≡ number) × (machine_of r ≡ silent (device_in r) first (stamped_of stamp))) }
    ensures refused { IfErr result (λ f. f ≡ no_memory) }
{
    match made(alloc, &verified, number, first, stamp) {
        Ok((tables, running)) => {
            let program = Program {
                verified,
                number,
                tables,
            };
            Ok(Ready {
                device: Device { program, running },
            })
        }
        Err(_) => {
            release(verified);
            Err(Refusal::Checked(fb_faults::Refusal::OutOfMemory))
        }
    }
}

// The same, where no other device shares what was checked.
fn alone_ready(
    alloc: Global,
    verified: Verified,
    number: usize,
    first: u64,
    stamp: Stamp,
) -> Result<Ready, Refusal>
    requires within { number < length (system_in verified).devices }
    requires early { first ≤ last_first }
    ensures ready { IfOk result (λ r. (r.verified ≡ verified) × (r.number ≡ number) × (machine_of r ≡ silent (device_in r) first (stamped_of stamp))) }
    ensures refused { IfErr result (λ f. f ≡ no_memory) }
{
    match share(alloc, verified) {
        Ok(shared) => numbered_ready(alloc, shared, number, first, stamp),
        Err(refusal) => Err(refusal),
    }
}

/// Loads the device of this number, counted from 0, of what was checked, which devices share. Its first cause is 1, and its first messages are stamped with the boot 0 and the
/// sequence number 1.
///
/// Refused only where memory runs out.
pub fn load_checked(alloc: Global, verified: Rc<Verified>, number: usize) -> Result<Ready, Refusal>
    requires within { number < length (system_in verified.value).devices }
    ensures ready { IfOk result (λ r. (r.verified ≡ verified.value) × (r.number ≡ number) × (machine_of r ≡ silent (device_in r) 1 first_stamp)) }
    ensures refused { IfErr result (λ f. f ≡ no_memory) }
{
    numbered_ready(alloc, verified, number, 1, FIRST_STAMP)
}

// The refusal that names a device in upper case.
fn no_device(alloc: Global, device: &str) -> Refusal
    ensures { IsUnnamed device.now result }
{
    match String::from_str(alloc, device) {
        Ok(mut name) => {
            name.make_ascii_uppercase();
            Refusal::NoDevice(name)
        }
        Err(_) => Refusal::Checked(fb_faults::Refusal::OutOfMemory),
    }
}

// The device of a name, where there is one.
fn made_ready(
    alloc: Global,
    verified: Verified,
    device: &str,
    first: u64,
    stamp: Stamp,
) -> Result<Ready, Refusal>
    requires { first ≤ last_first }
    ensures ready { IfOk result (IsReadyOf verified device.now first (stamped_of stamp)) }
    ensures refused { IfErr result (IsMissing verified device.now) }
{
    match device_named(&verified, device) {
        Some(number) => alone_ready(alloc, verified, number, first, stamp),
        None => {
            verified.let_go();
            Err(no_device(alloc, device))
        }
    }
}

// Whether a device may begin with this cause and this sequence number.
fn is_within(first: u64, next: u32) -> bool
    ensures yes { result ≡ true → CanBegin first next }
    ensures no { result ≡ false → CanBegin first next → ⊥ }
{
    first <= LAST_FIRST && next > 0
}

// The device of a name in two texts, which begins with this cause and this stamp.
fn loaded(
    alloc: Global,
    text: &str,
    certificate: &str,
    device: &str,
    first: u64,
    stamp: Stamp,
) -> Result<Ready, Refusal>
    requires { first ≤ last_first }
    ensures loaded { IfOk result (IsLoaded text.now certificate.now device.now first (stamped_of stamp)) }
    ensures within { IfOk result (λ d. (length text.now ≤ text_limit) × (length certificate.now ≤ most_characters)) }
    ensures refused { IfErr result (IsLoadFault text.now certificate.now device.now) }
    ensures accepts { (source : SourceTree) (system : System) (rows : certs.Certificate) → length text.now ≤ text_limit → length certificate.now ≤ most_characters
        → IsSource text.now source → Elaborates source system → Spells certificate.now rows → certs.Fits system rows
        → ((s : System) → IsSystemOf text.now s → IsThere s device.now) → IfErr result (λ f. f ≡ no_memory) }
{
    match check_text(alloc, text, certificate) {
        Ok(verified) => made_ready(alloc, verified, device, first, stamp),
        Err(refusal) => Err(Refusal::Checked(refusal)),
    }
}

/// Loads the device of a name. Its first cause is 1, and its first messages are stamped with the boot 0 and the sequence number 1. Letter case has no meaning
/// in the name.
///
/// Refused as [`check_text`](fb_verdict::check_text) refuses, and with `NoDevice` where the text has no such device.
pub fn load(alloc: Global, text: &str, certificate: &str, device: &str) -> Result<Ready, Refusal>
    ensures loaded { IfOk result (IsLoaded text.now certificate.now device.now 1 first_stamp) }
    ensures within { IfOk result (λ d. (length text.now ≤ text_limit) × (length certificate.now ≤ most_characters)) }
    ensures refused { IfErr result (IsLoadFault text.now certificate.now device.now) }
    ensures accepts { (source : SourceTree) (system : System) (rows : certs.Certificate) → length text.now ≤ text_limit → length certificate.now ≤ most_characters
        → IsSource text.now source → Elaborates source system → Spells certificate.now rows → certs.Fits system rows
        → ((s : System) → IsSystemOf text.now s → IsThere s device.now) → IfErr result (λ f. f ≡ no_memory) }
{
    loaded(alloc, text, certificate, device, 1, FIRST_STAMP)
}

/// Loads the device of a name as [`load`] does, with another first cause.
///
/// Refused as `load` refuses, and with `Limit` just where the first cause is above 18446744073709535000.
pub fn load_from(
    alloc: Global,
    text: &str,
    certificate: &str,
    device: &str,
    first: u64,
) -> Result<Ready, Refusal>
    ensures loaded { IfOk result (IsLoaded text.now certificate.now device.now first first_stamp) }
    ensures within { IfOk result (λ d. (length text.now ≤ text_limit) × (length certificate.now ≤ most_characters)) }
    ensures refused { IfErr result (IsBeginFault text.now certificate.now device.now first 1) }
    ensures limit { (CanBegin first 1 → ⊥) → result ≡ Err Limit }
    ensures accepts { CanBegin first 1 → (source : SourceTree) (system : System) (rows : certs.Certificate) → length text.now ≤ text_limit → length certificate.now ≤ most_characters
        → IsSource text.now source → Elaborates source system → Spells certificate.now rows → certs.Fits system rows
        → ((s : System) → IsSystemOf text.now s → IsThere s device.now) → IfErr result (λ f. f ≡ no_memory) }
{
    load_boot(alloc, text, certificate, device, first, FIRST_STAMP)
}

/// Loads the device of a name as [`load`] does, with another first cause, and with the stamp of its first messages: each PUBLISH of format 2 begins with it.
///
/// Refused as `load` refuses, and with `Limit` just where the first cause is above 18446744073709535000 or the sequence number is 0.
pub fn load_boot(
    alloc: Global,
    text: &str,
    certificate: &str,
    device: &str,
    first: u64,
    stamp: Stamp,
) -> Result<Ready, Refusal>
    ensures loaded { IfOk result (IsLoaded text.now certificate.now device.now first (stamped_of stamp)) }
    ensures within { IfOk result (λ d. (length text.now ≤ text_limit) × (length certificate.now ≤ most_characters)) }
    ensures refused { IfErr result (IsBeginFault text.now certificate.now device.now first stamp.sequence) }
    ensures limit { (CanBegin first stamp.sequence → ⊥) → result ≡ Err Limit }
    ensures accepts { CanBegin first stamp.sequence → (source : SourceTree) (system : System) (rows : certs.Certificate) → length text.now ≤ text_limit → length certificate.now ≤ most_characters
        → IsSource text.now source → Elaborates source system → Spells certificate.now rows → certs.Fits system rows
        → ((s : System) → IsSystemOf text.now s → IsThere s device.now) → IfErr result (λ f. f ≡ no_memory) }
{
    if !is_within(first, stamp.sequence) {
        return Err(Refusal::Limit);
    }
    loaded(alloc, text, certificate, device, first, stamp)
}
