//! What is watched of a system.

use crate::fault::Unwatched;
use crate::search::Search;
use crate::signal::{Owner, Signal, Station};
use fb_flat::Flat;
use fbr_names::unknown;
use std::alloc::{AllocError, Global};

/// What is watched of a system, or of one of its devices.
#[derive(Drop)]
pub struct Signals<'a> {
    pub stations: Vec<Station<'a>>,
    pub owners: Vec<Owner<'a>>,
    pub all: Vec<Signal<'a>>,
    /// Whether the system has one device, whose name says nothing then.
    pub is_alone: bool,
}

// The patterns in upper case.
fn in_upper_case(alloc: Global, patterns: &[&str]) -> Result<Vec<String>, AllocError> {
    let mut upper = Vec::new(alloc);
    for pattern in patterns {
        upper.push(pattern.to_ascii_uppercase(alloc)?)?;
    }
    Ok(upper)
}

// Searches all devices, or the one of a number.
fn search<'a, 'p>(
    alloc: Global,
    flat: &'a Flat,
    only: Option<u16>,
    patterns: &'p [String],
) -> Result<Search<'a, 'p>, AllocError> {
    let mut found = Search::new(alloc, flat.devices.len() == 1, patterns)?;
    for (number, device) in flat.devices.iter().enumerate() {
        let is_searched = match only {
            Some(wanted) => usize::from(wanted) == number,
            None => true,
        };
        if is_searched {
            found.add_device(device, number)?;
        }
    }
    Ok(found)
}

impl Signals<'_> {
    // The name of an owner, as people write it.
    fn name_of(&self, alloc: Global, owner: &Owner<'_>) -> Result<String, AllocError> {
        let mut name = String::new(alloc);
        if !self.is_alone {
            if let Some(station) = self.stations.get(owner.station) {
                name.push_str(station.name)?;
                name.push_str(".")?;
            }
        }
        name.push_str(owner.name.as_str())?;
        Ok(name)
    }

    // Adds the names of the variables of an owner.
    fn add_variables(
        &self,
        alloc: Global,
        owner: &Owner<'_>,
        names: &mut Vec<String>,
    ) -> Result<(), AllocError> {
        for at in owner.from..owner.to {
            if let Some(signal) = self.all.get(at) {
                if signal.before == 0 && !signal.variable.is_empty() {
                    let mut name = self.name_of(alloc, owner)?;
                    name.push_str(".")?;
                    name.push_str(signal.variable.as_str())?;
                    names.push(name)?;
                }
            }
        }
        Ok(())
    }

    // The names that are near to one that names nothing: the variables of an instance that it begins with, or else all instances and resources.
    fn names_near(&self, alloc: Global, wanted: &str) -> Result<Vec<String>, AllocError> {
        let mut names = Vec::new(alloc);
        if let Some((head, _)) = wanted.rsplit_once('.') {
            for owner in &self.owners {
                if self.name_of(alloc, owner)?.as_str() == head || owner.path == head {
                    self.add_variables(alloc, owner, &mut names)?;
                }
            }
        }
        if names.is_empty() {
            for owner in &self.owners {
                names.push(self.name_of(alloc, owner)?)?;
            }
        }
        Ok(names)
    }
}

// The signals that were found.
fn signals_in<'a>(found: Search<'a, '_>, is_alone: bool) -> Signals<'a> {
    let Search {
        stations,
        owners,
        signals,
        ..
    } = found;
    Signals {
        stations,
        owners,
        all: signals,
        is_alone,
    }
}

// That the pattern of a place names nothing, with the nearest name that there is.
fn names_nothing(
    alloc: Global,
    flat: &Flat,
    only: Option<u16>,
    place: usize,
    pattern: &str,
) -> Unwatched {
    let everything = match in_upper_case(alloc, &["*"]) {
        Ok(everything) => everything,
        Err(_) => return Unwatched::Memory,
    };
    let found = match search(alloc, flat, only, &everything) {
        Ok(found) => found,
        Err(_) => return Unwatched::Memory,
    };
    let known = signals_in(found, flat.devices.len() == 1);
    match known.names_near(alloc, pattern) {
        Ok(names) => {
            let words = ["there is nothing to watch that is named ", pattern];
            Unwatched::from(unknown(alloc, place, &words, &names, pattern))
        }
        Err(_) => Unwatched::Memory,
    }
}

// The signals that patterns name, of all devices or of one.
fn chosen<'a>(
    alloc: Global,
    flat: &'a Flat,
    only: Option<u16>,
    patterns: &[&str],
) -> Result<Signals<'a>, Unwatched> {
    let upper = in_upper_case(alloc, patterns)?;
    let found = search(alloc, flat, only, &upper)?;
    for (place, pattern) in upper.iter().enumerate() {
        if found.met.get(place).copied() != Some(true) {
            return Err(names_nothing(alloc, flat, only, place, pattern.as_str()));
        }
    }
    Ok(signals_in(found, flat.devices.len() == 1))
}

/// The signals of a system that patterns name: `*` for all, `PATH.*` for all within a device, a resource or an instance, and else the path of an instance
/// (its state and all its variables; of a composite, those of all that is in it), of a variable, of an element of an array (`PATH[3]`), or of a resource (its
/// queue and the steps of its causes). Paths are those of stories: letter case has no meaning, and where the system has one device neither it nor its resource
/// need be named. Each pattern has to name something.
pub fn find_signals<'a>(
    alloc: Global,
    flat: &'a Flat,
    patterns: &[&str],
) -> Result<Signals<'a>, Unwatched> {
    chosen(alloc, flat, None, patterns)
}

/// The signals of the device of a number that patterns name, as [`find_signals`] says.
pub fn find_signals_of<'a>(
    alloc: Global,
    flat: &'a Flat,
    number: u16,
    patterns: &[&str],
) -> Result<Signals<'a>, Unwatched> {
    chosen(alloc, flat, Some(number), patterns)
}
