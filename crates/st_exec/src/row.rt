//! A row of numbers, one in each slot.

ghost use Rattle.std.specs.Prelude.{◌≡◌, ◌≤◌, ◌+◌, ◌++◌, pos, length, take, drop, replicate, slice_index_or};

/// The number in a slot, and 0 behind all slots.
pub(crate) fn number_at(numbers: &[i64], slot: usize) -> i64
    ensures { result ≡ slice_index_or numbers.now slot (pos 0) }
{
    match numbers.get(slot) {
        Some(number) => *number,
        None => 0,
    }
}

/// Copies so many numbers from one slot on to another.
pub(crate) fn write(numbers: &mut [i64], first: usize, from: &[i64], source: usize, count: usize)
    requires room { first + count ≤ length numbers.old }
    requires enough { source + count ≤ length from.now }
    ensures { numbers.new ≡ take first numbers.old ++ take count (drop source from.now) ++ drop (first + count) numbers.old }
{
    numbers[first..first + count].copy_from_slice(&from[source..source + count]);
}

/// Writes a number into so many slots from one on.
pub(crate) fn spread(numbers: &mut [i64], first: usize, count: usize, number: i64)
    requires { first + count ≤ length numbers.old }
    ensures { numbers.new ≡ take first numbers.old ++ replicate count number ++ drop (first + count) numbers.old }
{
    numbers[first..first + count].fill(number);
}
