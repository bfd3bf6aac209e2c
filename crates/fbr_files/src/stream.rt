//! Files that are written bit by bit.

use std::fs::OpenFile;
use std::io;
use std::io::Write;

/// A file that is written bit by bit, or none, and then what is written goes nowhere.
#[derive(Drop)]
pub struct Stream<F> {
    pub(crate) file: Option<F>,
    /// Each flush has on the disk what was written.
    pub(crate) is_synced: bool,
}

impl<F: OpenFile + Write> Write for Stream<F> {
    fn write(&mut self, bytes: &[u8]) -> io::Result<usize> {
        match &mut self.file {
            Some(file) => file.write(bytes),
            None => Ok(bytes.len()),
        }
    }

    fn flush(&mut self) -> io::Result<()> {
        match &mut self.file {
            Some(file) => {
                file.flush()?;
                if self.is_synced {
                    return file.sync_data();
                }
                Ok(())
            }
            None => Ok(()),
        }
    }
}
