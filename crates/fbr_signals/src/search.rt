//! Searches a system for what patterns name.

use crate::leaves::{Held, variables_of};
use crate::pattern::{Part, Subject};
use crate::signal::{Owner, Shown, Signal, Site, Station};
use fb_flat::{Body, FlatDevice, FlatResource, Leaf};
use std::alloc::{AllocError, Global};

/// What was found so far: devices, owners and signals, and which patterns named something.
#[derive(Drop)]
pub(crate) struct Search<'a, 'p> {
    alloc: Global,
    is_alone: bool,
    patterns: &'p [String],
    pub(crate) met: Vec<bool>,
    pub(crate) stations: Vec<Station<'a>>,
    pub(crate) owners: Vec<Owner<'a>>,
    pub(crate) signals: Vec<Signal<'a>>,
}

/// A path as the names of its device and its resource, and what is behind them.
pub(crate) fn parts(path: &str) -> (&str, &str, Option<&str>) {
    match path.split_once('.') {
        Some((device, rest)) => match rest.split_once('.') {
            Some((resource, inner)) => (device, resource, Some(inner)),
            None => (device, rest, None),
        },
        None => (path, "", None),
    }
}

// The path of an instance within its resource.
fn inner_of(path: &str) -> &str {
    match parts(path) {
        (_, _, Some(inner)) => inner,
        _ => path,
    }
}

// Whether another resource of a device has an instance of this path.
fn is_shared(device: &FlatDevice, path: &str) -> bool {
    let inner = inner_of(path);
    for resource in &device.resources {
        for leaf in &resource.leaves {
            let other = leaf.path.as_str();
            if other != path && inner_of(other) == inner {
                return true;
            }
        }
    }
    false
}

// The shortest name of an instance within its device.
fn name_within(alloc: Global, device: &FlatDevice, path: &str) -> Result<String, AllocError> {
    let mut name = String::new(alloc);
    if is_shared(device, path) {
        let (_, resource, _) = parts(path);
        name.push_str(resource)?;
        name.push_str(".")?;
    }
    name.push_str(inner_of(path))?;
    Ok(name)
}

// A number in two bytes. There are never as many devices, resources or blocks as it cannot hold.
fn short(number: usize) -> u16 {
    u16::try_from(number).unwrap_or(u16::MAX)
}

impl<'a, 'p> Search<'a, 'p> {
    /// A search that has found nothing yet.
    pub(crate) fn new(
        alloc: Global,
        is_alone: bool,
        patterns: &'p [String],
    ) -> Result<Search<'a, 'p>, AllocError> {
        let mut met = Vec::new(alloc);
        met.resize(patterns.len(), false)?;
        Ok(Search {
            alloc,
            is_alone,
            patterns,
            met,
            stations: Vec::new(alloc),
            owners: Vec::new(alloc),
            signals: Vec::new(alloc),
        })
    }

    // What a path is to patterns.
    fn subject<'x>(&self, path: &'x str) -> Subject<'x> {
        let (device, resource, inner) = parts(path);
        Subject {
            is_alone: self.is_alone,
            device,
            resource,
            inner,
        }
    }

    // Whether a pattern names this, and notes those that do.
    fn is_meant(&mut self, subject: Subject<'_>, part: Option<Part<'_>>) -> bool {
        let patterns = self.patterns;
        let mut is_meant = false;
        for (place, pattern) in patterns.iter().enumerate() {
            if subject.is_meant(pattern.as_str(), part) {
                is_meant = true;
                if let Some(met) = self.met.get_mut(place) {
                    *met = true;
                }
            }
        }
        is_meant
    }

    // Adds a signal of the owner that comes next.
    fn add(
        &mut self,
        variable: &str,
        element: Option<(i64, usize)>,
        shown: Shown<'a>,
    ) -> Result<(), AllocError> {
        let (index, before) = match element {
            Some((index, before)) => (Some(index), before),
            None => (None, 0),
        };
        self.signals.push(Signal {
            owner: self.owners.len(),
            variable: String::from_str(self.alloc, variable)?,
            index,
            before,
            shown,
        })?;
        Ok(())
    }

    // Adds the elements of an array that are meant.
    fn add_elements(
        &mut self,
        subject: Subject<'_>,
        held: &Held,
        bounds: (i64, i64),
    ) -> Result<(), AllocError> {
        let (low, high) = bounds;
        let mut before: usize = 0;
        for index in low..=high {
            let part = Part {
                variable: held.name.as_str(),
                index: Some(index),
            };
            if self.is_meant(subject, Some(part)) {
                let shown = Shown::Value(held.of_type);
                self.add(held.name.as_str(), Some((index, before)), shown)?;
            }
            before = before.saturating_add(1);
        }
        Ok(())
    }

    // Adds a variable, if it is meant.
    fn add_variable(&mut self, subject: Subject<'_>, held: &Held) -> Result<(), AllocError> {
        match held.bounds {
            Some(bounds) => self.add_elements(subject, held, bounds),
            None => {
                let part = Part {
                    variable: held.name.as_str(),
                    index: None,
                };
                if self.is_meant(subject, Some(part)) {
                    self.add(held.name.as_str(), None, Shown::Value(held.of_type))?;
                }
                Ok(())
            }
        }
    }

    // Adds the owner of the signals from this one on. Gives its place, or nothing where there are none.
    fn close(
        &mut self,
        site: Site,
        path: &'a str,
        name: String,
        from: usize,
    ) -> Result<Option<usize>, AllocError> {
        let to = self.signals.len();
        if to == from {
            return Ok(None);
        }
        let place = self.owners.len();
        self.owners.push(Owner {
            station: self.stations.len(),
            site,
            path,
            name,
            from,
            to,
        })?;
        Ok(Some(place))
    }

    // Adds what is meant of an instance, the block of a number.
    fn add_leaf(
        &mut self,
        device: &FlatDevice,
        leaf: &'a Leaf,
        block: u16,
    ) -> Result<Option<usize>, AllocError> {
        let path: &'a str = leaf.path.as_str();
        let from = self.signals.len();
        let subject = self.subject(path);
        let body: &'a Body = &leaf.body;
        if let Body::Basic(basic) = body {
            if self.is_meant(subject, None) {
                self.add("", None, Shown::State(basic))?;
            }
        }
        let variables = variables_of(self.alloc, leaf)?;
        for held in &variables {
            self.add_variable(subject, held)?;
        }
        let name = name_within(self.alloc, device, path)?;
        self.close(Site::Block(block), path, name, from)
    }

    // Adds what is meant of a resource itself.
    fn add_resource(
        &mut self,
        resource: &'a FlatResource,
        number: u16,
    ) -> Result<Option<usize>, AllocError> {
        let path: &'a str = resource.path.as_str();
        let from = self.signals.len();
        let subject = self.subject(path);
        if self.is_meant(subject, None) {
            self.add("", None, Shown::Queue)?;
            self.add("", None, Shown::Steps)?;
        }
        let name = String::from_str(self.alloc, subject.resource)?;
        self.close(Site::Resource(number), path, name, from)
    }

    /// Adds what is meant of the device of a number.
    pub(crate) fn add_device(
        &mut self,
        device: &'a FlatDevice,
        number: usize,
    ) -> Result<(), AllocError> {
        let mut blocks = Vec::new(self.alloc);
        let mut resources = Vec::new(self.alloc);
        for (place, resource) in device.resources.iter().enumerate() {
            resources.push(self.add_resource(resource, short(place))?)?;
            for leaf in &resource.leaves {
                let block = short(blocks.len());
                blocks.push(self.add_leaf(device, leaf, block)?)?;
            }
        }
        self.stations.push(Station {
            number: short(number),
            name: device.name.as_str(),
            blocks,
            resources,
        })?;
        Ok(())
    }
}
