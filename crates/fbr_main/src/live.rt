//! Output that waits for nobody: what a device tells may not hold it up.

use fbr_lines::Lines;
use libc::net::{POLLOUT, poll};
use libc::types::pollfd;
use std::alloc::{AllocError, Global};
use std::io;
use std::io::{ErrorKind, Write};

/// How many bytes wait for a reader at most.
const ROOM: usize = 65_536;

/// The bytes of a line for which there is room from the beginning. What a device prints and tells while it runs is shorter.
const LINE: usize = 4096;

/// How long the end of the program waits for a reader, in milliseconds.
const LAST: i32 = 1000;

/// A stream of the process, by its number, that is written as far as somebody reads it. Lines wait in between; one that finds no room is lost whole, and
/// its write fails.
#[derive(Drop)]
pub(crate) struct Live {
    stream: i32,
    lines: Lines,
    line: Vec<u8>,
    failed: bool,
}

// Whether a stream takes bytes within so many milliseconds.
fn is_ready(stream: i32, millis: i32) -> bool {
    let mut asked = [pollfd {
        fd: stream,
        events: POLLOUT,
        revents: 0,
    }];
    poll(&mut asked, millis) > 0
}

impl Live {
    /// The stream of this number.
    pub(crate) fn new(alloc: Global, stream: i32) -> Result<Live, AllocError> {
        Ok(Live {
            stream,
            lines: Lines::new(alloc, ROOM)?,
            line: Vec::with_capacity(alloc, LINE)?,
            failed: false,
        })
    }

    // Writes the next piece, where the stream takes it within so many milliseconds, and answers whether there may be more to do.
    fn write_piece(&mut self, millis: i32) -> bool {
        let piece = self.lines.front();
        if piece.is_empty() || !is_ready(self.stream, millis) {
            return false;
        }
        let size = piece.len();
        let count = libc::write(self.stream, piece);
        if count <= 0 {
            self.failed = true;
            return false;
        }
        self.lines.took((count as usize).min(size));
        true
    }

    // Writes what is there, a piece for each turn of a loop that ends.
    fn write_out(&mut self, millis: i32) {
        for _ in 0..ROOM {
            if !self.write_piece(millis) {
                return;
            }
        }
    }

    /// Writes what is left, and waits for it a little; and answers whether all lines went out.
    pub(crate) fn finish(&mut self) -> io::Result<()> {
        self.write_out(LAST);
        if self.lines.lost() > 0 || self.failed || !self.lines.front().is_empty() {
            return Err(io::Error::from(ErrorKind::WriteZero));
        }
        Ok(())
    }
}

impl Write for Live {
    fn write(&mut self, bytes: &[u8]) -> io::Result<usize> {
        for byte in bytes {
            self.line.push(*byte).map_err(AllocError::from)?;
            if *byte == b'\n' {
                let has_room = self.lines.put(&self.line);
                self.line.clear();
                if !has_room {
                    return Err(io::Error::from(ErrorKind::WouldBlock));
                }
            }
        }
        Ok(bytes.len())
    }

    fn flush(&mut self) -> io::Result<()> {
        self.failed = false;
        self.write_out(0);
        if self.failed {
            return Err(io::Error::from(ErrorKind::WriteZero));
        }
        Ok(())
    }
}
