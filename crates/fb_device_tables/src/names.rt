//! Names and their numbers.

ghost use Rattle.std.specs.Prelude.{◌≡◌, ◌≤◌};
ghost use Rattle.fb_types_blocks.specs.Answers.{names_in_map};
ghost use Rattle.fb_types_blocks.specs.Views.{names_of};
ghost use Rattle.fb_device_tables.specs.Filling.{IsNumber, IsOptionalNumber, most_numbers};

use indexmap::{IndexMap, IndexSet};

/// A number in two bytes, 0 where it does not fit.
pub(crate) fn short(number: usize) -> u16
    ensures { number ≤ most_numbers → result ≡ number }
{
    if number <= 65_535 { number as u16 } else { 0 }
}

/// The number of a name in a set, 0 where it is not there.
pub(crate) fn number(names: &IndexSet<String>, name: &str) -> u16
    ensures { IsNumber (names_of names.now) name.now result }
{
    match names.get_index_of(name) {
        Some(index) => short(index),
        None => 0,
    }
}

/// The number of a name in a table, 0 where it is not there.
pub(crate) fn number_in<V>(table: &IndexMap<String, V>, name: &str) -> u16
    ensures { IsNumber (names_in_map table.now) name.now result }
{
    match table.get_index_of(name) {
        Some(index) => short(index),
        None => 0,
    }
}

/// The number of a name in a table, where there is a name.
pub(crate) fn optional<V>(table: &IndexMap<String, V>, name: &Option<String>) -> Option<u16>
    ensures { IsOptionalNumber (names_in_map table.now) name.now result }
{
    match name {
        Some(name) => Some(number_in(table, name.as_str())),
        None => None,
    }
}
