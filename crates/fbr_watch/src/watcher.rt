//! Looks at devices, and writes what has changed.

use crate::dump::{write_declarations, write_sequence, write_stamp, write_value};
use crate::lines::{write_beginning, write_line};
use crate::objects::{write_change, write_run};
use crate::table::{write_columns, write_row};
use crate::value::Change;
use fb_device::{Condition, Device, Look, Ran};
use fbr_signals::{Owner, Shown, Signal, Signals, Site, Station};
use fbr_timeline::{Causes, Clock, Turn, out_of_memory};
use std::alloc::{AllocError, Global};
use std::io;
use std::io::Write;

/// The form in which changes are written.
#[derive(Clone, Copy, PartialEq, Eq)]
pub enum Form {
    /// Lines for people and programs: `TIME PATH.VARIABLE = VALUE`, `TIME PATH IN STATE`, `TIME RESOURCE QUEUE COUNT`. The values at the beginning of a run
    /// have none.
    Lines,
    /// Lines for programs, a JSON object each, as `docs/JSON.md` says, also of the values at the beginning of a run.
    Objects,
    /// Comma-separated values, with a row for each first value and each change.
    Table,
    /// A Value Change Dump.
    Dump,
}

/// A dispatch that is looked at: the resource, the moment of the device's clock in milliseconds, and what ran.
#[derive(Clone, Copy)]
pub struct RanAt<'r> {
    pub resource: u16,
    pub now: u64,
    pub ran: &'r Ran,
}

/// What is known of a signal: where its variable lies, and its value when it was looked at last.
#[derive(Clone, Copy)]
struct Cell {
    slot: usize,
    value: i64,
    is_known: bool,
}

/// What was seen last of all signals, and the form in which changes are written.
#[derive(Drop)]
pub struct Watcher<'s, 'a> {
    alloc: Global,
    signals: &'s Signals<'a>,
    form: Form,
    cells: Vec<Cell>,
    causes: Causes,
    clock: Clock,
    now: u64,
    // The name of the run, if it has one.
    sequence: Option<String>,
    // The time that a dump has told last.
    told: Option<u64>,
    has_begun: bool,
    // Whether the first values are looked at, of which lines tell nothing.
    is_first: bool,
    // Whether a dump has all first values.
    is_dumped: bool,
}

/// The place of a device's station among those that are watched.
pub(crate) fn station_of<'x, 'a>(
    signals: &'x Signals<'a>,
    number: u16,
) -> Option<(usize, &'x Station<'a>)> {
    for (place, station) in signals.stations.iter().enumerate() {
        if station.number == number {
            return Some((place, station));
        }
    }
    None
}

// Where the variable of a signal lies in the store of its block.
fn slot_of(signal: &Signal<'_>, look: &Look<'_>) -> usize {
    match look.own.layout().location(signal.variable.as_str()) {
        Some(location) => location.first.saturating_add(signal.before),
        None => usize::MAX,
    }
}

// A count in the form of a value.
fn counted(count: u64) -> i64 {
    i64::try_from(count).unwrap_or(i64::MAX)
}

impl<'s, 'a> Watcher<'s, 'a> {
    /// A watcher that has seen nothing yet.
    pub fn new(
        alloc: Global,
        signals: &'s Signals<'a>,
        form: Form,
    ) -> Result<Watcher<'s, 'a>, AllocError> {
        let mut cells = Vec::new(alloc);
        let unknown = Cell {
            slot: usize::MAX,
            value: 0,
            is_known: false,
        };
        cells.resize(signals.all.len(), unknown)?;
        Ok(Watcher {
            alloc,
            signals,
            form,
            cells,
            causes: Causes::new(alloc),
            clock: Clock::new(),
            now: 0,
            sequence: None,
            told: None,
            has_begun: false,
            is_first: false,
            is_dumped: false,
        })
    }

    // Writes the time of a dump, if it has not been told yet.
    fn stamp<W: Write>(&mut self, out: &mut W) -> io::Result<()> {
        let stamp = self.clock.stamp();
        if self.told == Some(stamp) {
            return Ok(());
        }
        self.told = Some(stamp);
        write_stamp(stamp, out)
    }

    // Writes what stands before the first value of the first run.
    fn write_head<W: Write>(&mut self, out: &mut W) -> io::Result<()> {
        let has_sequences = self.sequence.is_some();
        match self.form {
            Form::Lines | Form::Objects => Ok(()),
            Form::Table => write_columns(has_sequences, out),
            Form::Dump => {
                write_declarations(self.signals, has_sequences, out)?;
                self.stamp(out)?;
                out.write_all(b"$dumpvars\n")
            }
        }
    }

    // Writes the name of a run that begins.
    fn write_name<W: Write>(&mut self, name: &str, out: &mut W) -> io::Result<()> {
        match self.form {
            Form::Lines => write_beginning(name, out),
            Form::Objects => write_run(self.alloc, name, out),
            Form::Table => Ok(()),
            Form::Dump => {
                self.stamp(out)?;
                write_sequence(name, out)
            }
        }
    }

    // A later run begins: a table tells all its first values again, a dump those that are others than the last ones.
    fn restart(&mut self) {
        self.clock.restart();
        self.causes.clear();
        self.now = 0;
        if self.form != Form::Dump {
            for at in 0..self.cells.len() {
                if let Some(cell) = self.cells.get_mut(at) {
                    cell.is_known = false;
                }
            }
        }
    }

    /// A run begins at time 0, which may have a name: all runs of a watcher have one, or none has. Then [`Watcher::first`] is to be called for each device.
    pub fn begin<W: Write>(&mut self, sequence: Option<&str>, out: &mut W) -> io::Result<()> {
        let is_later = self.has_begun;
        self.has_begun = true;
        if is_later {
            self.restart();
        }
        self.sequence = match sequence {
            Some(name) => match String::from_str(self.alloc, name) {
                Ok(name) => Some(name),
                Err(_) => return Err(out_of_memory()),
            },
            None => None,
        };
        if !is_later {
            self.write_head(out)?;
        }
        match sequence {
            Some(name) => self.write_name(name, out),
            None => Ok(()),
        }
    }

    // Writes a change of the signal at a place.
    fn tell<W: Write>(
        &mut self,
        place: usize,
        owner: &Owner<'a>,
        value: i64,
        out: &mut W,
    ) -> io::Result<()> {
        let signals = self.signals;
        let (Some(signal), Some(station)) = (
            signals.all.get(place),
            signals.stations.get(owner.station),
        ) else {
            return Ok(());
        };
        let change = Change {
            device: station.name,
            name: owner.name.as_str(),
            signal,
            value,
        };
        match self.form {
            Form::Lines => write_line(change, self.now, signals.is_alone, out),
            Form::Objects => write_change(self.alloc, change, self.now, out),
            Form::Table => match &self.sequence {
                Some(sequence) => write_row(change, self.now, Some(sequence.as_str()), out),
                None => write_row(change, self.now, None, out),
            },
            Form::Dump => {
                self.stamp(out)?;
                write_value(signal, place, value, out)
            }
        }
    }

    // The signal at a place has a value. It is told where it is another than the last one.
    fn see<W: Write>(
        &mut self,
        place: usize,
        owner: &Owner<'a>,
        value: i64,
        out: &mut W,
    ) -> io::Result<()> {
        let Some(cell) = self.cells.get_mut(place) else {
            return Ok(());
        };
        if cell.is_known && cell.value == value {
            return Ok(());
        }
        cell.is_known = true;
        cell.value = value;
        if self.is_first && self.form == Form::Lines {
            return Ok(());
        }
        self.tell(place, owner, value, out)
    }

    // Where the variable of the signal at a place lies, which is found once.
    fn slot(&mut self, place: usize, signal: &Signal<'a>, look: &Look<'_>) -> usize {
        let Some(cell) = self.cells.get_mut(place) else {
            return usize::MAX;
        };
        if cell.slot == usize::MAX {
            cell.slot = slot_of(signal, look);
        }
        cell.slot
    }

    // The value of the signal at a place, in what its block holds.
    fn value_in(&mut self, place: usize, signal: &Signal<'a>, look: &Look<'_>) -> Option<i64> {
        match signal.shown {
            Shown::State(_) => match look.condition {
                Condition::State(state) => Some(i64::from(state)),
                Condition::Service(_) => None,
            },
            Shown::Value(_) => {
                let slot = self.slot(place, signal, look);
                Some(look.own.number(slot))
            }
            Shown::Queue | Shown::Steps => None,
        }
    }

    // Looks at the signals of a block.
    fn look_at_block<W: Write>(
        &mut self,
        owner: &Owner<'a>,
        look: &Look<'_>,
        out: &mut W,
    ) -> io::Result<()> {
        let signals = self.signals;
        for place in owner.from..owner.to {
            if let Some(signal) = signals.all.get(place) {
                if let Some(value) = self.value_in(place, signal, look) {
                    self.see(place, owner, value, out)?;
                }
            }
        }
        Ok(())
    }

    // Looks at the signals of a resource: how many entries are pending, and the steps of a cause, where one was dispatched.
    fn look_at_resource<W: Write>(
        &mut self,
        owner: &Owner<'a>,
        pending: usize,
        steps: Option<u64>,
        out: &mut W,
    ) -> io::Result<()> {
        let signals = self.signals;
        for place in owner.from..owner.to {
            if let Some(signal) = signals.all.get(place) {
                let value = match signal.shown {
                    Shown::Queue => u64::try_from(pending).ok(),
                    Shown::Steps => steps,
                    Shown::State(_) | Shown::Value(_) => None,
                };
                if let Some(value) = value {
                    self.see(place, owner, counted(value), out)?;
                }
            }
        }
        Ok(())
    }

    // Looks at the owner at a place.
    fn look_at<W: Write>(
        &mut self,
        place: Option<usize>,
        device: &Device,
        steps: Option<u64>,
        out: &mut W,
    ) -> io::Result<()> {
        let signals = self.signals;
        let Some(place) = place else {
            return Ok(());
        };
        let Some(owner) = signals.owners.get(place) else {
            return Ok(());
        };
        match owner.site {
            Site::Block(number) => match device.look_at(number) {
                Some(look) => self.look_at_block(owner, &look, out),
                None => Ok(()),
            },
            Site::Resource(number) => match device.fill_of(number) {
                Some(fill) => self.look_at_resource(owner, fill.pending, steps, out),
                None => Ok(()),
            },
        }
    }

    // Makes room for the causes of a resource.
    fn reserve(&mut self, device: &Device, resource: u16) -> io::Result<()> {
        match device.fill_of(resource) {
            Some(fill) => match self.causes.reserve(fill.depth) {
                Ok(()) => Ok(()),
                Err(_) => Err(out_of_memory()),
            },
            None => Ok(()),
        }
    }

    // Looks at all that is watched of the device at a place.
    fn look_at_all<W: Write>(
        &mut self,
        station: usize,
        device: &Device,
        out: &mut W,
    ) -> io::Result<()> {
        let signals = self.signals;
        for (place, owner) in signals.owners.iter().enumerate() {
            if owner.station == station {
                if let Site::Resource(resource) = owner.site {
                    self.reserve(device, resource)?;
                }
                self.look_at(Some(place), device, Some(0), out)?;
            }
        }
        Ok(())
    }

    /// Looks at the device of a number for the first time in a run: each device that is watched, in the order of their numbers, before anything is
    /// dispatched. After that memory grows no more.
    pub fn first<W: Write>(&mut self, number: u16, device: &Device, out: &mut W) -> io::Result<()> {
        let signals = self.signals;
        let Some((station, _)) = station_of(signals, number) else {
            return Ok(());
        };
        if station == 0 {
            self.clock.step(0);
        }
        self.is_first = true;
        let looked = self.look_at_all(station, device, out);
        self.is_first = false;
        looked?;
        let is_last = station.saturating_add(1) == signals.stations.len();
        if self.form == Form::Dump && is_last && !self.is_dumped {
            self.is_dumped = true;
            out.write_all(b"$end\n")?;
        }
        Ok(())
    }

    // Another look, at a moment of the device's clock.
    fn step(&mut self, now: u64) {
        self.now = now;
        self.clock.step(now);
    }

    // The steps so far of a cause that was dispatched at the resource whose owner is at a place.
    fn steps_of(&mut self, place: Option<usize>, ran: &Ran) -> io::Result<Option<u64>> {
        let Some(resource) = place else {
            return Ok(None);
        };
        let turn = Turn {
            resource,
            cause: ran.cause,
            steps: ran.steps,
            is_last: ran.ended.is_some(),
        };
        match self.causes.take(turn) {
            Ok(steps) => Ok(Some(steps)),
            Err(_) => Err(out_of_memory()),
        }
    }

    /// Looks at the device of a number after a dispatch: at the block that ran, and at the resource.
    pub fn ran<W: Write>(
        &mut self,
        number: u16,
        device: &Device,
        at: RanAt<'_>,
        out: &mut W,
    ) -> io::Result<()> {
        let signals = self.signals;
        self.step(at.now);
        let Some((_, station)) = station_of(signals, number) else {
            return Ok(());
        };
        let block = station.blocks.get(usize::from(at.ran.block)).copied();
        self.look_at(block.unwrap_or(None), device, None, out)?;
        let home = station.resources.get(usize::from(at.resource)).copied();
        let place = home.unwrap_or(None);
        let steps = self.steps_of(place, at.ran)?;
        self.look_at(place, device, steps, out)
    }

    /// Looks at the queues of the device of a number after a tick or an arrival, at a moment of its clock in milliseconds. Neither changes what a block holds.
    pub fn came<W: Write>(
        &mut self,
        number: u16,
        device: &Device,
        now: u64,
        out: &mut W,
    ) -> io::Result<()> {
        let signals = self.signals;
        self.step(now);
        let Some((_, station)) = station_of(signals, number) else {
            return Ok(());
        };
        for place in &station.resources {
            self.look_at(*place, device, None, out)?;
        }
        Ok(())
    }

    /// The end of all runs: a dump tells the time at which the last one ended.
    pub fn end<W: Write>(&mut self, out: &mut W) -> io::Result<()> {
        if self.form == Form::Dump && self.has_begun {
            self.stamp(out)
        } else {
            Ok(())
        }
    }
}
