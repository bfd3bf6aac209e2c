//! Lines that are read.

ghost use Rattle.std.specs.Prelude.{◌≡◌, ◌∷◌, [], MatchOption};
ghost use Rattle.std.specs.Io.Buffered.{reader_remaining};
ghost use Rattle.std.specs.Io.KnownBytes.{Consumes};
ghost use Rattle.fbr_lines.specs.Reading.{IsGiven, IsNext};

use std::io::{BufRead, BufReader, ErrorKind, Read};

/// What there was to be read.
#[derive(Clone, Copy)]
pub enum Next {
    /// A line, and a line feed behind it.
    Whole,
    /// The last line, which has no line feed.
    Last,
    /// Nothing: the stream has ended.
    End,
    /// More bytes than a line may have.
    TooLong,
    /// Memory ran out.
    Memory,
    /// The stream could not be read.
    Failed,
}

// What a read of one byte gave.
#[derive(Clone, Copy)]
enum Given {
    Byte(u8),
    End,
    Failed,
}

// Reads the next byte of a stream. A read that was interrupted is tried again.
fn read_byte<R: Read>(reader: &mut R) -> Given
    ensures { IsGiven (R.remaining reader.old) (R.remaining reader.new) result }
{
    let mut one = [0u8; 1];
    for _ in 0..u64::MAX {
        match reader.read(&mut one) {
            Ok(0) => return Given::End,
            Ok(_) => return Given::Byte(one[0]),
            Err(error) => {
                if error.kind() != ErrorKind::Interrupted {
                    return Given::Failed;
                }
            }
        }
    }
    Given::Failed
}

// Takes the next byte of those that were read ahead, if there is one.
fn byte_ahead<R: Read>(reader: &mut BufReader<R>) -> Option<u8>
    ensures { MatchOption result (reader_remaining R.remaining reader.new ≡ reader_remaining R.remaining reader.old) (λ b. Consumes (reader_remaining R.remaining reader.old) (reader_remaining R.remaining reader.new) (b ∷ [])) }
{
    let first = match reader.buffer() {
        [first, ..] => *first,
        [] => return None,
    };
    reader.consume(1);
    Some(first)
}

// The next byte of a stream.
fn next_byte<R: Read>(reader: &mut BufReader<R>) -> Given
    ensures { IsGiven (reader_remaining R.remaining reader.old) (reader_remaining R.remaining reader.new) result }
{
    match byte_ahead(reader) {
        Some(byte) => Given::Byte(byte),
        None => read_byte(reader),
    }
}

/// Reads the next line of a stream, of so many bytes at most, its line feed counted. The line is what was read, without the line feed.
pub fn next_line<R: Read>(reader: &mut BufReader<R>, line: &mut Vec<u8>, most: usize) -> Next
    ensures { IsNext most (reader_remaining R.remaining reader.old) (reader_remaining R.remaining reader.new) line.new.items result }
{
    line.clear();
    for _ in 0..most {
        match next_byte(reader) {
            Given::Byte(b'\n') => return Next::Whole,
            Given::Byte(byte) => {
                if line.push(byte).is_err() {
                    return Next::Memory;
                }
            }
            Given::End => return if line.is_empty() {
                Next::End
            } else {
                Next::Last
            },
            Given::Failed => return Next::Failed,
        }
    }
    Next::TooLong
}
