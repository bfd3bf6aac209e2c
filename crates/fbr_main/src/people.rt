//! What people are told of a command.

use fbr_tell::paint;
use std::alloc::Global;
use std::io;
use std::io::Write;

/// Where people are told. What they are told waits until the command lets it be seen, with `flush`; a command that tells all at its end never does.
#[derive(Drop)]
pub(crate) struct People<'p, W> {
    told: Vec<u8>,
    is_coloured: bool,
    output: &'p mut W,
}

impl<'p, W: Write> People<'p, W> {
    /// People to whom nothing was told yet, with colour or without.
    pub(crate) fn new(alloc: Global, is_coloured: bool, output: &'p mut W) -> People<'p, W> {
        People {
            told: Vec::new(alloc),
            is_coloured,
            output,
        }
    }

    // Writes what waits.
    fn write_out(&mut self) -> io::Result<()> {
        if self.is_coloured {
            paint(&self.told, self.output)
        } else {
            self.output.write_all(&self.told)
        }
    }
}

impl<W: Write> Write for People<'_, W> {
    fn write(&mut self, bytes: &[u8]) -> io::Result<usize> {
        self.told.write_all(bytes)?;
        Ok(bytes.len())
    }

    fn flush(&mut self) -> io::Result<()> {
        if self.told.is_empty() {
            return Ok(());
        }
        let written = self.write_out();
        self.told.clear();
        written
    }
}
