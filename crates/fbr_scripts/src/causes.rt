//! Why a line of a script was denied, or is bad, where its number has several causes, and which roots are not bounded by FAR.
//! It is tested, and no contract says it.

use crate::station::{Station, put_name, stations_of};
use fb_device::Denied;
use fb_flat::Flat;
use fb_numbers::words_of;
use fb_script::{Misread, Missing, Witness};
use fb_words::ElemType;
use fb_world::{TooOften, World};
use fb_world_course::WorldEvent;
use fbr_places::Writing;
use indexmap::IndexSet;
use std::alloc::Global;
use std::io::Write;

// A word that is longer is not told.
const LONGEST: usize = 64;

/// Who tells people, on standard error, which cause it was, and which roots are not bounded.
#[derive(Drop)]
pub struct Causes<'e, E> {
    alloc: Global,
    stations: Vec<Station>,
    /// The roots that lines have asked for, and of which nothing is told yet.
    roots: IndexSet<u64>,
    errors: &'e mut E,
}

// Writes a word of a line, if it is short and spelled in visible letters.
fn put_word(word: &str, writing: &mut Writing) {
    let mut is_plain = word.len() <= LONGEST;
    for byte in word.as_bytes() {
        if !byte.is_ascii_graphic() {
            is_plain = false;
        }
    }
    writing.put(if is_plain { word } else { "this word" });
}

// The form of the lines that begin with a word.
fn form_of(word: &str) -> &'static str {
    match word {
        "offer" => "offer DEVICE INPUT VALUE ..",
        "deliver" => "deliver DATAGRAM DEVICE",
        "tick" => "tick DEVICE MILLISECONDS",
        "dispatch" => "dispatch DEVICE RESOURCE",
        _ => "root NUMBER",
    }
}

// Writes which numbers a word may be.
fn put_numbers(word: &str, numbers: &str, writing: &mut Writing) {
    put_word(word, writing);
    writing.put(" is no number of ");
    writing.put(numbers);
}

// The word of a place, counted from 1.
fn word_at<'l>(words: &[&'l str], place: usize) -> &'l str {
    match place.checked_sub(1) {
        Some(at) => words.get(at).copied().unwrap_or(""),
        None => "",
    }
}

// Writes why words are no command.
fn put_misread(words: &[&str], why: Misread, writing: &mut Writing) {
    let first = word_at(words, 1);
    match why {
        Misread::Verb => {
            put_word(first, writing);
            writing.put(" is none of offer, deliver, tick, dispatch and root");
        }
        Misread::Count => {
            let count = words.len();
            writing.put("the form is '");
            writing.put(form_of(first));
            writing.put(if count == 1 {
                "', and this line has one word"
            } else {
                "', and this line has "
            });
            if count != 1 {
                writing.show(&count);
                writing.put(" words");
            }
        }
        Misread::Number(place) => put_numbers(word_at(words, place), "0 to 65535", writing),
        Misread::WideNumber(place) => put_numbers(
            word_at(words, place),
            "0 to 18446744073709551615",
            writing,
        ),
        Misread::Value(place) => put_numbers(
            word_at(words, place),
            "-9223372036854775808 to 9223372036854775807",
            writing,
        ),
    }
}

// Writes that a value is none of its type.
fn put_value(place: u16, value: i64, of_type: ElemType, writing: &mut Writing) {
    let lowest = of_type.lowest();
    let highest = of_type.highest();
    writing.show(&place);
    writing.put(": value ");
    writing.show(&place);
    writing.put(" is ");
    writing.show(&value);
    writing.put(", and ");
    writing.put(of_type.name());
    if matches!(of_type, ElemType::Bool) {
        writing.put(" has 0 and 1");
        return;
    }
    writing.put(" holds ");
    writing.show(&lowest);
    writing.put(" to ");
    writing.show(&highest);
}

impl<'e, E: Write> Causes<'e, E> {
    /// Who tells people of a script over a system. Where memory runs out, less is told.
    pub fn of(alloc: Global, flat: &Flat, errors: &'e mut E) -> Causes<'e, E> {
        let stations = match stations_of(alloc, flat) {
            Ok(stations) => stations,
            Err(_) => Vec::new(alloc),
        };
        Causes {
            alloc,
            stations,
            roots: IndexSet::new(alloc),
            errors,
        }
    }

    // Begins what is told of the line of a number.
    fn begin(&self, line: usize) -> Writing {
        let mut writing = Writing::new(self.alloc);
        writing.put("fbr: standard input:");
        writing.show(&line);
        writing.put(": ");
        writing
    }

    // Hands out what is told, whole or not at all.
    fn hand_out(&mut self, mut writing: Writing) {
        writing.put("\n");
        if let Ok(told) = writing.end() {
            let _ = self.errors.write_all(&told);
        }
    }

    // Hands out why a line is refused.
    fn refuse(&mut self, mut writing: Writing) {
        writing.put("; 'fbr explain 60' says more");
        self.hand_out(writing);
    }

    // Writes the names of the devices.
    fn put_devices(&self, writing: &mut Writing) {
        let count = self.stations.len();
        for (index, station) in self.stations.iter().enumerate() {
            if index == 0 {
                writing.put("; its device");
            }
            put_name(index, count, station.name.as_str(), writing);
        }
    }

    // Writes the names of the resources of a device.
    fn put_resources(&self, device: &str, writing: &mut Writing) {
        for station in &self.stations {
            if station.name.as_str().eq_ignore_ascii_case(device) {
                let count = station.resources.len();
                for (index, resource) in station.resources.iter().enumerate() {
                    if index == 0 {
                        writing.put("; its resource");
                    }
                    put_name(index, count, resource.as_str(), writing);
                }
            }
        }
    }

    // Writes what is missing.
    fn put_missing(&self, what: Missing<'_>, writing: &mut Writing) {
        match what {
            Missing::Device(name) => {
                writing.put("the system has no device ");
                put_word(name, writing);
                self.put_devices(writing);
            }
            Missing::Resource(device, name) => {
                put_word(device, writing);
                writing.put(" has no resource ");
                put_word(name, writing);
                self.put_resources(device, writing);
            }
            Missing::Datagram(number) => {
                writing.put("no datagram ");
                writing.show(&number);
                writing.put(" was sent before this line");
            }
            Missing::Root(number) => {
                writing.put("no root ");
                writing.show(&number);
                writing.put(" was opened before this line");
            }
        }
    }

    // Tells that a datagram of a root came more often than REPEATS says.
    fn tell_often(&mut self, often: TooOften) {
        let mut writing = Writing::new(self.alloc);
        writing.put("fbr: root ");
        writing.show(&often.root);
        writing.put(": FAR does not bound its steps, because ");
        match self.stations.get(usize::from(often.device)) {
            Some(station) => writing.put(station.name.as_str()),
            None => writing.put("a device"),
        }
        writing.put(" admitted datagram ");
        writing.show(&often.datagram);
        writing.put(" more often than REPEATS says");
        self.hand_out(writing);
    }

    /// Tells, once for each root that a line asked for, that its FAR is no bound, if one of its datagrams without a stamp was admitted
    /// more often than REPEATS says.
    pub fn tell_unbound(&mut self, world: &World) {
        let mut behind = 0;
        for _ in 0..usize::MAX {
            if self.roots.is_empty() {
                return;
            }
            let Some(often) = world.next_too_often(behind) else {
                return;
            };
            behind = often.datagram;
            if self.roots.swap_remove(&often.root) {
                self.tell_often(often);
            }
        }
    }

    // The type of a value of an INPUT of the device of a number.
    fn type_of(&self, device: u16, input: u16, place: u16) -> Option<ElemType> {
        self.stations
            .get(usize::from(device))?
            .type_of(input, place)
    }
}

impl<E: Write> Witness for Causes<'_, E> {
    fn denied(&mut self, number: usize, event: &WorldEvent, why: &Denied) {
        let (WorldEvent::Offer(device, input, values), Denied::BadValue(place)) = (event, why)
        else {
            return;
        };
        let at = usize::from(*place).saturating_sub(1);
        if let (Some(of_type), Some(value)) = (
            self.type_of(*device, *input, *place),
            values.get(at),
        ) {
            let mut writing = self.begin(number);
            writing.put("denied 52 ");
            put_value(*place, *value, of_type, &mut writing);
            self.hand_out(writing);
        }
    }

    fn misread(&mut self, number: usize, line: &str, why: Misread) {
        if let Ok(words) = words_of(self.alloc, line) {
            let mut writing = self.begin(number);
            writing.put("refused 60: ");
            put_misread(&words, why, &mut writing);
            self.refuse(writing);
        }
    }

    fn missing(&mut self, number: usize, what: Missing<'_>) {
        let mut writing = self.begin(number);
        writing.put("refused 60: ");
        self.put_missing(what, &mut writing);
        self.refuse(writing);
    }

    fn asked(&mut self, root: u64) {
        let _ = self.roots.insert(root);
    }
}
