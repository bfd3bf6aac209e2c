//! Numbers in words.

ghost use Rattle.std.specs.Prelude.{◌≡◌, ◌==◌, slice_index};
ghost use Rattle.fb_numbers.specs.Numbers.{number_in, long_number_in, wide_number_in, value_in};

// Whether a plus stands first, which no number has.
fn has_plus(word: &str) -> bool
    ensures { result ≡ (slice_index word.now 0 == 43) }
{
    match word.as_bytes() {
        [] => false,
        [first, ..] => *first == b'+',
    }
}

/// The number of 16 bits that digits write.
pub fn read_number(word: &str) -> Option<u16>
    ensures { result ≡ number_in word.now }
{
    if has_plus(word) {
        return None;
    }
    word.parse::<u16>().ok()
}

/// The number of 32 bits that digits write.
pub fn read_long_number(word: &str) -> Option<u32>
    ensures { result ≡ long_number_in word.now }
{
    if has_plus(word) {
        return None;
    }
    word.parse::<u32>().ok()
}

/// The number of 64 bits that digits write.
pub fn read_wide_number(word: &str) -> Option<u64>
    ensures { result ≡ wide_number_in word.now }
{
    if has_plus(word) {
        return None;
    }
    word.parse::<u64>().ok()
}

/// The number of 64 bits that digits write, perhaps behind a minus.
pub fn read_value(word: &str) -> Option<i64>
    ensures { result ≡ value_in word.now }
{
    if has_plus(word) {
        return None;
    }
    word.parse::<i64>().ok()
}
