//! A run that is watched in several forms at once.

use crate::lanes::look_first;
use crate::watcher::{Form, RanAt, Watcher};
use fb_device::Device;
use fbr_signals::Signals;
use fbr_timeline::{Timeline, out_of_memory};
use std::alloc::{AllocError, Global};
use std::io;
use std::io::Write;

/// What writes a table, a dump or a timeline, where one is kept.
#[derive(Drop)]
pub struct Kept<F> {
    pub table: Option<F>,
    pub dump: Option<F>,
    pub timeline: Option<F>,
}

/// A watcher, and where it writes.
#[derive(Drop)]
struct Recorder<'s, 'a, F> {
    watcher: Watcher<'s, 'a>,
    out: F,
}

/// A timeline, and where it is drawn.
#[derive(Drop)]
struct Drawer<'s, 'a, F> {
    alloc: Global,
    signals: &'s Signals<'a>,
    timeline: Timeline,
    out: F,
}

/// A run that is watched in up to four forms at once: lines, which go where the caller writes, and a table, a dump and a timeline, which go where they are
/// kept. A write that fails is told at the end, and nothing is written behind it. A timeline is written at the end.
#[derive(Drop)]
pub struct Watching<'s, 'a, F> {
    lines: Option<Watcher<'s, 'a>>,
    table: Option<Recorder<'s, 'a, F>>,
    dump: Option<Recorder<'s, 'a, F>>,
    timeline: Option<Drawer<'s, 'a, F>>,
    done: io::Result<()>,
}

// What a note in memory comes to as a write.
fn noted(done: Result<(), AllocError>) -> io::Result<()> {
    match done {
        Ok(()) => Ok(()),
        Err(_) => Err(out_of_memory()),
    }
}

impl<'s, 'a, F: Write + Drop> Recorder<'s, 'a, F> {
    // A recorder in a form, where there is something to write to.
    fn of(
        alloc: Global,
        signals: &'s Signals<'a>,
        form: Form,
        out: Option<F>,
    ) -> Result<Option<Recorder<'s, 'a, F>>, AllocError> {
        match out {
            Some(out) => {
                let watcher = Watcher::new(alloc, signals, form)?;
                Ok(Some(Recorder { watcher, out }))
            }
            None => Ok(None),
        }
    }

    // A run begins.
    fn begin(&mut self, sequence: Option<&str>) -> io::Result<()> {
        let Recorder { watcher, out } = self;
        watcher.begin(sequence, out)
    }

    // The first look at a device.
    fn first(&mut self, number: u16, device: &Device) -> io::Result<()> {
        let Recorder { watcher, out } = self;
        watcher.first(number, device, out)
    }

    // A look after a dispatch.
    fn ran(&mut self, number: u16, device: &Device, at: RanAt<'_>) -> io::Result<()> {
        let Recorder { watcher, out } = self;
        watcher.ran(number, device, at, out)
    }

    // A look after a tick or an arrival.
    fn came(&mut self, number: u16, device: &Device, now: u64) -> io::Result<()> {
        let Recorder { watcher, out } = self;
        watcher.came(number, device, now, out)
    }

    // The end of all runs. Gives what it wrote to.
    fn end(self) -> io::Result<F> {
        let Recorder {
            mut watcher,
            mut out,
        } = self;
        watcher.end(&mut out)?;
        out.flush()?;
        Ok(out)
    }
}

impl<F> Drawer<'_, '_, F> {
    // The first look at a device.
    fn first(&mut self, number: u16, device: &Device) -> io::Result<()> {
        let signals = self.signals;
        let timeline = &mut self.timeline;
        noted(look_first(self.alloc, signals, number, device, timeline))
    }
}

impl<'s, 'a, F: Write + Drop> Watching<'s, 'a, F> {
    /// A run of which nothing is watched.
    pub fn nothing() -> Watching<'s, 'a, F> {
        Watching {
            lines: None,
            table: None,
            dump: None,
            timeline: None,
            done: Ok(()),
        }
    }

    /// Watches signals, with lines of a form or without, and in the forms for which there is something to write to.
    pub fn new(
        alloc: Global,
        signals: &'s Signals<'a>,
        lines: Option<Form>,
        kept: Kept<F>,
    ) -> Result<Watching<'s, 'a, F>, AllocError> {
        let Kept {
            table,
            dump,
            timeline,
        } = kept;
        let lines = match lines {
            Some(form) => Some(Watcher::new(alloc, signals, form)?),
            None => None,
        };
        Ok(Watching {
            lines,
            table: Recorder::of(alloc, signals, Form::Table, table)?,
            dump: Recorder::of(alloc, signals, Form::Dump, dump)?,
            timeline: drawer_of(alloc, signals, timeline),
            done: Ok(()),
        })
    }

    // A run begins, in all forms.
    fn begin_all<W: Write>(&mut self, sequence: Option<&str>, output: &mut W) -> io::Result<()> {
        if let Some(watcher) = &mut self.lines {
            watcher.begin(sequence, output)?;
        }
        if let Some(recorder) = &mut self.table {
            recorder.begin(sequence)?;
        }
        if let Some(recorder) = &mut self.dump {
            recorder.begin(sequence)?;
        }
        if let Some(drawer) = &mut self.timeline {
            noted(drawer.timeline.begin(sequence))?;
        }
        Ok(())
    }

    /// A run begins at time 0, as [`Watcher::begin`] says.
    pub fn begin<W: Write>(&mut self, sequence: Option<&str>, output: &mut W) {
        if self.done.is_ok() {
            self.done = self.begin_all(sequence, output);
        }
    }

    // The first look at a device, in all forms.
    fn first_all<W: Write>(
        &mut self,
        number: u16,
        device: &Device,
        output: &mut W,
    ) -> io::Result<()> {
        if let Some(watcher) = &mut self.lines {
            watcher.first(number, device, output)?;
        }
        if let Some(recorder) = &mut self.table {
            recorder.first(number, device)?;
        }
        if let Some(recorder) = &mut self.dump {
            recorder.first(number, device)?;
        }
        if let Some(drawer) = &mut self.timeline {
            drawer.first(number, device)?;
        }
        Ok(())
    }

    /// Looks at the device of a number for the first time in a run, as [`Watcher::first`] says.
    pub fn first<W: Write>(&mut self, number: u16, device: &Device, output: &mut W) {
        if self.done.is_ok() {
            self.done = self.first_all(number, device, output);
        }
    }

    // A look after a dispatch, in all forms.
    fn ran_all<W: Write>(
        &mut self,
        number: u16,
        device: &Device,
        at: RanAt<'_>,
        output: &mut W,
    ) -> io::Result<()> {
        if let Some(watcher) = &mut self.lines {
            watcher.ran(number, device, at, output)?;
        }
        if let Some(recorder) = &mut self.table {
            recorder.ran(number, device, at)?;
        }
        if let Some(recorder) = &mut self.dump {
            recorder.ran(number, device, at)?;
        }
        if let Some(drawer) = &mut self.timeline {
            let timeline = &mut drawer.timeline;
            noted(timeline.ran(number, device, at.resource, at.now, at.ran))?;
        }
        Ok(())
    }

    /// Looks at the device of a number after a dispatch, as [`Watcher::ran`] says.
    pub fn ran<W: Write>(&mut self, number: u16, device: &Device, at: RanAt<'_>, output: &mut W) {
        if self.done.is_ok() {
            self.done = self.ran_all(number, device, at, output);
        }
    }

    // A look after a tick or an arrival, in all forms.
    fn came_all<W: Write>(
        &mut self,
        number: u16,
        device: &Device,
        now: u64,
        output: &mut W,
    ) -> io::Result<()> {
        if let Some(watcher) = &mut self.lines {
            watcher.came(number, device, now, output)?;
        }
        if let Some(recorder) = &mut self.table {
            recorder.came(number, device, now)?;
        }
        if let Some(recorder) = &mut self.dump {
            recorder.came(number, device, now)?;
        }
        if let Some(drawer) = &mut self.timeline {
            noted(drawer.timeline.came(number, device, now))?;
        }
        Ok(())
    }

    /// Looks at the queues of the device of a number after a tick or an arrival, as [`Watcher::came`] says.
    pub fn came<W: Write>(&mut self, number: u16, device: &Device, now: u64, output: &mut W) {
        if self.done.is_ok() {
            self.done = self.came_all(number, device, now, output);
        }
    }

    /// The end of all runs. Gives what a table, a dump and a timeline were written to, or an error where a write has failed, of any form.
    pub fn end(self) -> io::Result<Kept<F>> {
        let Watching {
            table,
            dump,
            timeline,
            done,
            ..
        } = self;
        done?;
        Ok(Kept {
            table: end_of(table)?,
            dump: end_of(dump)?,
            timeline: drawn(timeline)?,
        })
    }
}

// The end of all runs in a form, where it is kept.
fn end_of<F: Write + Drop>(recorder: Option<Recorder<'_, '_, F>>) -> io::Result<Option<F>> {
    match recorder {
        Some(recorder) => Ok(Some(recorder.end()?)),
        None => Ok(None),
    }
}

// What draws a timeline, where there is something to draw it on.
fn drawer_of<'s, 'a, F: Write + Drop>(
    alloc: Global,
    signals: &'s Signals<'a>,
    out: Option<F>,
) -> Option<Drawer<'s, 'a, F>> {
    match out {
        Some(out) => Some(Drawer {
            alloc,
            signals,
            timeline: Timeline::new(alloc),
            out,
        }),
        None => None,
    }
}

// Draws a timeline, where it is kept.
fn drawn<F: Write + Drop>(drawer: Option<Drawer<'_, '_, F>>) -> io::Result<Option<F>> {
    match drawer {
        Some(drawer) => {
            let Drawer {
                timeline,
                mut out,
                ..
            } = drawer;
            timeline.end(&mut out)?;
            out.flush()?;
            Ok(Some(out))
        }
        None => Ok(None),
    }
}
