//! What people are told while a device runs. It is tested, and no contract says it.

use crate::dropping::{Drops, tell_unsealed};
use crate::shapes::{Misfit, Shapes};
use crate::stop::Stop;
use crate::sums::Sums;
use fb_device::{Denied, Device, Effect, Ended, Ran};
use fb_wire::{Message, Purpose, WireFault, decode};
use fbr_words::Telling;
use std::fmt;
use std::io::Write;

/// How many lines of a kind are told in a second; those behind them are counted.
const MOST: u64 = 10;

/// The kinds of lines that are counted: a number of a denial, or a datagram that the link did not take.
const KINDS: usize = 12;

/// The kind of a datagram that was not taken.
const UNSENT: usize = 11;

/// Of how many queues the fullest state is told.
const QUEUES: u16 = 16;

// A number of steps, as `1 step`.
#[derive(Clone, Copy)]
struct Steps(u64);

impl fmt::Display for Steps {
    fn fmt<W: fmt::Write>(&self, f: &mut fmt::Formatter<W>) -> fmt::Result {
        let count = self.0;
        if count == 1 {
            write!(f, "1 step")
        } else {
            write!(f, "{count} steps")
        }
    }
}

// A moment as people read it, as `12.304 s`.
#[derive(Clone, Copy)]
struct Moment(u64);

impl fmt::Display for Moment {
    fn fmt<W: fmt::Write>(&self, f: &mut fmt::Formatter<W>) -> fmt::Result {
        let seconds = self.0 / 1000;
        let millis = self.0 % 1000;
        write!(f, "{seconds}.{millis:03} s")
    }
}

// For whom a datagram is, as `INPUT 1`.
#[derive(Clone, Copy)]
struct For(Purpose, u16);

impl For {
    // That of a message.
    fn of(message: &Message) -> For {
        For(message.purpose(), message.number())
    }
}

impl fmt::Display for For {
    fn fmt<W: fmt::Write>(&self, f: &mut fmt::Formatter<W>) -> fmt::Result {
        let number = self.1;
        match self.0 {
            Purpose::ToInput => write!(f, "INPUT {number}"),
            Purpose::ToChannel => write!(f, "channel {number}"),
        }
    }
}

// The field of bytes that is at fault.
fn field_of(fault: WireFault) -> &'static str {
    match fault {
        WireFault::Short => "Short",
        WireFault::Magic => "Magic",
        WireFault::Version => "Version",
        WireFault::Kind => "Kind",
        WireFault::Count => "Count",
        WireFault::TypeCode => "TypeCode",
        WireFault::Value => "Value",
        WireFault::Trailing => "Trailing",
    }
}

/// Why something was denied, in words, and how a message differs from what is taken.
#[derive(Clone, Copy)]
pub struct Why(pub Denied, pub Misfit);

impl fmt::Display for Why {
    fn fmt<W: fmt::Write>(&self, f: &mut fmt::Formatter<W>) -> fmt::Result {
        match self.0 {
            Denied::UnknownInput => write!(f, "there is no such INPUT"),
            Denied::BadCount => write!(f, "the INPUT takes another number of values"),
            Denied::BadValue(place) => write!(f, "value {place} does not fit its type"),
            Denied::NoCredit { needs, free } => write!(f, "{needs} places needed, {free} free"),
            Denied::Spent => write!(f, "no number is left for a cause"),
            Denied::Wire(fault) => {
                let field = field_of(fault);
                write!(f, "it is no message ({field})")
            }
            Denied::NoSubscriber => write!(f, "no SUBSCRIBE takes this channel"),
            Denied::Shape => {
                let misfit = self.1;
                write!(f, "{misfit}")
            }
            Denied::Closed => write!(f, "the SUBSCRIBE is closed"),
            Denied::Stale { boot, sequence } => {
                write!(f, "it is not later than boot {boot}, number {sequence}")
            }
        }
    }
}

// The kind of a denial.
fn kind_of(denied: &Denied) -> usize {
    match denied.code() {
        64 => 10,
        code => (code as usize).saturating_sub(50),
    }
}

/// What turns came to so far.
#[derive(Clone, Copy)]
pub struct Past {
    pub sums: Sums,
    /// Whether the device has waited since the last one.
    pub has_waited: bool,
    /// How many datagrams were dropped.
    pub drops: Drops,
    /// Whether the record has ended, since a line could not be written.
    pub is_unrecorded: bool,
}

// Tells how many datagrams of strangers were dropped, where some were.
fn tell_dropped<E: Write>(errors: &mut E, dropped: u64) {
    if dropped > 0 {
        let _ = writeln!(
            errors,
            "fbr: {dropped} datagrams so far came from addresses that --from does not name, and were dropped"
        );
    }
}

/// Tells people of a device on standard error: each denial and each datagram that was not taken, at most ten of a kind in a second, and more where that is
/// asked for.
#[derive(Drop)]
pub struct Teller {
    is_verbose: bool,
    second: u64,
    shapes: Shapes,
    told: [u64; 12],
    denied: [u64; 12],
    lost_lines: u64,
    summary: Option<u32>,
    next_summary: u64,
    last_turn: u64,
    longest_turn: u64,
    fullest: [u64; 16],
    is_unrecorded: bool,
}

impl Teller {
    /// One who has told nothing yet, of a device of a system that takes these.
    pub fn new(telling: Telling, shapes: Shapes) -> Teller {
        let seconds = telling.summary.unwrap_or(0);
        Teller {
            is_verbose: telling.is_verbose,
            second: 0,
            shapes,
            told: [0; KINDS],
            denied: [0; KINDS],
            lost_lines: 0,
            summary: telling.summary,
            next_summary: u64::from(seconds).saturating_mul(1000),
            last_turn: 0,
            longest_turn: 0,
            fullest: [0; 16],
            is_unrecorded: false,
        }
    }

    // Looks how full the queues are, where sums are told.
    fn look(&mut self, device: &Device) {
        if self.summary.is_some() {
            for resource in 0..QUEUES {
                if let Some(fill) = device.fill_of(resource) {
                    let held = fill.depth.saturating_sub(fill.free);
                    if let Some(most) = self.fullest.get_mut(usize::from(resource)) {
                        *most = held.max(*most);
                    }
                }
            }
        }
    }

    // Tells the most places that causes held in each queue.
    fn tell_fullest<E: Write>(&self, errors: &mut E, device: &Device) {
        for resource in 0..QUEUES {
            if let Some(fill) = device.fill_of(resource) {
                let most = self
                    .fullest
                    .get(usize::from(resource))
                    .copied()
                    .unwrap_or(0);
                let (name, depth) = (fill.name, fill.depth);
                let _ = write!(errors, ", {name} held {most} of {depth}");
            }
        }
    }

    // Tells how many more there were of a kind in the second that has passed.
    fn tell_more<E: Write>(&self, errors: &mut E, kind: usize, second: u64) {
        let told = self.told.get(kind).copied().unwrap_or(0);
        if told > MOST {
            let more = told - MOST;
            let moment = Moment(second.saturating_mul(1000).saturating_add(999));
            let code = if kind == 10 {
                64
            } else {
                kind.saturating_add(50)
            };
            let _ = if kind == UNSENT {
                writeln!(errors, "{moment} {more} more were not taken in that second")
            } else {
                writeln!(errors, "{moment} {more} more denied {code} in that second")
            };
        }
    }

    // Begins a second anew, if it is another one.
    fn enter<E: Write>(&mut self, errors: &mut E, now: u64) {
        let second = now / 1000;
        if second != self.second {
            for kind in 0..KINDS {
                self.tell_more(errors, kind, self.second);
            }
            self.told = [0; KINDS];
            self.second = second;
        }
    }

    // Counts one of a kind, and answers whether it is told.
    fn counts<E: Write>(&mut self, errors: &mut E, now: u64, kind: usize) -> bool {
        self.enter(errors, now);
        match self.told.get_mut(kind) {
            Some(told) => {
                *told = told.saturating_add(1);
                *told <= MOST
            }
            None => true,
        }
    }

    // Tells of a denial by a device of this name.
    fn denied<E: Write>(
        &mut self,
        errors: &mut E,
        now: u64,
        device: &str,
        bytes: &[u8],
        denied: &Denied,
    ) {
        let kind = kind_of(denied);
        if let Some(count) = self.denied.get_mut(kind) {
            *count = count.saturating_add(1);
        }
        if self.counts(errors, now, kind) {
            let moment = Moment(now);
            let code = denied.code();
            let _ = match decode(bytes) {
                Ok(message) => {
                    let why = Why(*denied, self.shapes.misfit(device, &message));
                    let whom = For::of(&message);
                    writeln!(errors, "{moment} {whom} denied {code}: {why}")
                }
                Err(_) => {
                    let why = Why(*denied, Misfit::Other);
                    let size = bytes.len();
                    writeln!(errors, "{moment} {size} bytes denied {code}: {why}")
                }
            };
        }
    }

    /// A datagram came, and this was answered.
    pub fn came<E: Write>(
        &mut self,
        errors: &mut E,
        now: u64,
        device: &Device,
        bytes: &[u8],
        answer: &Result<u64, Denied>,
    ) {
        self.look(device);
        match answer {
            Ok(cause) => {
                if self.is_verbose {
                    Teller::admitted(errors, now, device, bytes, *cause);
                }
            }
            Err(denied) => self.denied(errors, now, device.name(), bytes, denied),
        }
    }

    // Tells of an arrival.
    fn admitted<E: Write>(errors: &mut E, now: u64, device: &Device, bytes: &[u8], cause: u64) {
        if let Ok(message) = decode(bytes) {
            let moment = Moment(now);
            let whom = For::of(&message);
            let _ = match device.opening(cause) {
                Some(opening) => {
                    let bound = Steps(opening.weight);
                    writeln!(
                        errors,
                        "{moment} {whom} begins cause {cause}, of at most {bound}"
                    )
                }
                None => writeln!(errors, "{moment} {whom} begins cause {cause}"),
            };
        }
    }

    /// A block ran, and the link took what it sent, if it sent something.
    pub fn ran<E: Write>(
        &mut self,
        errors: &mut E,
        now: u64,
        device: &Device,
        ran: &Ran,
        is_taken: bool,
    ) {
        self.look(device);
        if self.is_verbose {
            Teller::dispatched(errors, now, device, ran);
        }
        if let Some(Effect::Send(message)) = &ran.effect {
            self.sent(errors, now, message, is_taken);
        }
        if self.is_verbose {
            if let Some(ended) = &ran.ended {
                Teller::ended(errors, now, ended);
            }
        }
    }

    // Tells of a dispatch.
    fn dispatched<E: Write>(errors: &mut E, now: u64, device: &Device, ran: &Ran) {
        let moment = Moment(now);
        let (cause, steps) = (ran.cause, Steps(ran.steps));
        if let Some((path, event)) = device.path(ran.block, ran.event) {
            let _ = writeln!(errors, "{moment} {path}.{event} of cause {cause}: {steps}");
        }
    }

    // Tells of what was sent.
    fn sent<E: Write>(&mut self, errors: &mut E, now: u64, message: &Message, is_taken: bool) {
        let moment = Moment(now);
        let whom = For::of(message);
        if !is_taken {
            if self.counts(errors, now, UNSENT) {
                let _ = writeln!(errors, "{moment} sent to {whom}: not every peer took it");
            }
        } else if self.is_verbose {
            let _ = writeln!(errors, "{moment} sent to {whom}");
        }
    }

    // Tells of a cause that has ended.
    fn ended<E: Write>(errors: &mut E, now: u64, ended: &Ended) {
        let moment = Moment(now);
        let (cause, total, bound) = (ended.cause, ended.total, Steps(ended.bound));
        let _ = writeln!(
            errors,
            "{moment} cause {cause} has ended after {total} of {bound}"
        );
    }

    /// A line could not be written.
    pub fn lost_line(&mut self) {
        self.lost_lines = self.lost_lines.saturating_add(1);
    }

    /// Tells, once, that the record could not be written any more.
    pub fn unrecorded<E: Write>(&mut self, errors: &mut E) {
        if !self.is_unrecorded {
            self.is_unrecorded = true;
            let _ = writeln!(
                errors,
                "fbr: the record ends here, since it could not be written; the device goes on"
            );
        }
    }

    /// A turn begins, behind turns that did this. The time since the one before is that turn's, unless the device waited then.
    pub fn turned<E: Write>(&mut self, errors: &mut E, device: &Device, now: u64, past: &Past) {
        self.enter(errors, now);
        if past.is_unrecorded {
            self.unrecorded(errors);
        }
        if !past.has_waited {
            self.longest_turn = self.longest_turn.max(now.saturating_sub(self.last_turn));
        }
        self.last_turn = now;
        if let Some(seconds) = self.summary {
            if now >= self.next_summary {
                self.tell_sums(errors, device, now, &past.sums);
                tell_dropped(errors, past.drops.strangers);
                tell_unsealed(past.drops.unsealed, errors);
                let step = u64::from(seconds).saturating_mul(1000);
                self.next_summary = now.saturating_add(step);
            }
        }
    }

    // Tells how often each number was denied.
    fn tell_denied<E: Write>(&self, errors: &mut E) {
        for kind in 0..KINDS {
            let count = self.denied.get(kind).copied().unwrap_or(0);
            if count > 0 {
                let code = if kind == 10 {
                    64
                } else {
                    kind.saturating_add(50)
                };
                let _ = write!(errors, " {code}:{count}");
            }
        }
    }

    // Tells the sums so far.
    fn tell_sums<E: Write>(&self, errors: &mut E, device: &Device, now: u64, sums: &Sums) {
        let moment = Moment(now);
        let longest = self.longest_turn;
        let lines = self.lost_lines;
        let _ = write!(errors, "{moment} {sums}; longest turn {longest} ms");
        self.tell_fullest(errors, device);
        let _ = write!(errors, ", lines lost {lines}, denied");
        if sums.denied == 0 {
            let _ = write!(errors, " none");
        }
        self.tell_denied(errors);
        let _ = writeln!(errors, "");
    }

    /// Tells what was left to tell, as the device ends: of the last second, the sums where they are told at all, and of lines that were lost.
    pub fn close<E: Write>(&mut self, errors: &mut E, device: &Device, end: &Result<Sums, Stop>) {
        let last = self.last_turn;
        self.enter(errors, u64::MAX);
        if let Ok(sums) = end {
            if self.summary.is_some() {
                self.tell_sums(errors, device, last, sums);
            }
        }
        let lines = self.lost_lines;
        if lines == 1 {
            let _ = writeln!(errors, "fbr: 1 line could not be written");
        } else if lines > 1 {
            let _ = writeln!(errors, "fbr: {lines} lines could not be written");
        }
    }
}
