//! Places in texts, and numbers from one to another.

use fb_ranges::Interval;
use fbr_needs::Of;
use fbr_objects::Object;
use fbr_places::Located;
use std::alloc::Global;

/// A character of a file: the byte, the line and the column at which it stands, and that line.
pub fn place_object(alloc: Global, place: &Located<'_>) -> Object {
    let mut object = Object::new(alloc);
    object.text("file", place.file);
    object.count("byte", place.spot.byte);
    object.count("line", place.spot.line);
    object.count("column", place.spot.column);
    object.text("text", place.spot.text);
    object
}

/// Adds the place of something, if it has one.
pub fn put_place(alloc: Global, place: Option<&Located<'_>>, object: &mut Object) {
    if let Some(place) = place {
        object.object("place", place_object(alloc, place));
    }
}

/// Adds the numbers from one to another.
pub fn put_numbers(alloc: Global, name: &str, low: i64, high: i64, object: &mut Object) {
    let mut numbers = Object::new(alloc);
    numbers.signed("lowest", low);
    numbers.signed("highest", high);
    object.object(name, numbers);
}

/// Adds the numbers of a range.
pub fn put_range(alloc: Global, name: &str, range: Interval, object: &mut Object) {
    put_numbers(alloc, name, range.low, range.high, object);
}

/// Adds what a row is of: a path, or the number of a channel.
pub fn put_of(of: Of<'_>, object: &mut Object) {
    match of {
        Of::Path(path) => object.text("path", path),
        Of::Channel(number) => object.number("channel", u64::from(number)),
    }
}
