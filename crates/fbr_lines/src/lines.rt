//! Lines that wait.

ghost use Rattle.std.specs.Prelude.{◌≡◌, ◌≤◌, ◌+◌, [], ◌++◌, length, take, drop, min, nat_le, if◌then◌else◌, IfOk};
ghost use Rattle.fbr_lines.specs.Waiting.{Waiting, after_put};

use std::alloc::{AllocError, Global};
use std::marker::Model;

/// The most bytes that are handed out at once. A pipe that takes any bytes takes so many without waiting.
pub const PIECE: usize = 4096;

/// Lines that wait to be written: whole ones, in order, of so many bytes at most. Only `new` takes memory.
#[derive(Drop)]
pub struct Lines {
    waiting: Vec<u8>,
    lost: u64,
}

impl Model for Lines {
    ghost use Rattle.std.specs.Prelude.{vec_capacity};
    ghost use Rattle.fbr_lines.specs.Waiting.{Waiting};

    ghost Value = { Waiting };

    ghost view = { λ l. record { bytes = l.waiting.items; room = vec_capacity l.waiting; lost = l.lost } };
}

impl Lines {
    /// No lines, and room for so many bytes, or a few more.
    pub fn new(alloc: Global, room: usize) -> Result<Lines, AllocError>
        ensures empty { IfOk result (λ lines. (lines.bytes ≡ []) × (lines.lost ≡ 0)) }
        ensures room { IfOk result (λ lines. room ≤ lines.room) }
    {
        Ok(Lines {
            waiting: Vec::with_capacity(alloc, room)?,
            lost: 0,
        })
    }

    /// Takes a line where there is room for all of it, and counts it as lost where there is not. Answers whether it took it.
    pub fn put(&mut self, line: &[u8]) -> bool
        ensures taken { result ≡ nat_le (length self.old.bytes + length line.now) self.old.room }
        ensures after { self.new ≡ after_put self.old line.now }
    {
        if self.waiting.capacity() - self.waiting.len() < line.len() {
            self.lost = self.lost.saturating_add(1);
            return false;
        }
        for byte in line {
            self.waiting.push_reserved(*byte);
        }
        true
    }

    /// The bytes that are to be written next, `PIECE` at most.
    pub fn front(&self) -> &[u8]
        ensures { result.now ≡ take 4096 self.now.bytes }
    {
        let count = PIECE.min(self.waiting.len());
        &self.waiting[..count]
    }

    /// So many of the first bytes were written.
    pub fn took(&mut self, count: usize)
        requires { count ≤ length self.old.bytes }
        ensures bytes { self.new.bytes ≡ drop count self.old.bytes }
        ensures others { (self.new.room ≡ self.old.room) × (self.new.lost ≡ self.old.lost) }
    {
        self.waiting.rotate_left(count);
        let left = self.waiting.len() - count;
        self.waiting.truncate(left);
    }

    /// How many lines were lost, up to 2^64 - 1.
    pub fn lost(&self) -> u64
        ensures { result ≡ self.now.lost }
    {
        self.lost
    }
}
