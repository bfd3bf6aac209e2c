//! The blocks, services, devices and resources of a system, by the names that stories give them.

use crate::fault::Fault;
use crate::near::{unknown, unknown_behind};
use crate::place::{NumberedLeaf, Sort, is_joined, parts, short};
use fb_flat::Flat;
use fbr_alone::Alone;
use fbr_places::Writing;
use std::alloc::{AllocError, Global};

/// What a name stands for.
#[derive(Clone, Copy)]
enum Found<'a> {
    Nothing,
    One(NumberedLeaf<'a>),
    Several(NumberedLeaf<'a>, NumberedLeaf<'a>),
}

// That a name stands for two instances.
fn ambiguous(
    alloc: Global,
    at: usize,
    name: &str,
    one: NumberedLeaf<'_>,
    other: NumberedLeaf<'_>,
) -> Fault {
    let mut writing = Writing::new(alloc);
    writing.put(name);
    writing.put(" is ambiguous: write ");
    writing.put(one.leaf.path.as_str());
    writing.put(" or ");
    writing.put(other.leaf.path.as_str());
    Fault::written(at, writing)
}

// That a name stands for an instance of another sort.
fn of_another_sort(alloc: Global, at: usize, name: &str, sort: &str) -> Fault {
    Fault::at(alloc, at, &[name, " is no ", sort])
}

// That there is no instance of a sort that has a name.
fn none_of(alloc: Global, name: &str, sort: &str) -> Writing {
    let mut writing = Writing::new(alloc);
    writing.put("there is no ");
    writing.put(sort);
    writing.put(" ");
    writing.put(name);
    writing
}

/// The names of a system, or of a block type alone in the system that is made around it.
#[derive(Drop)]
pub struct Names<'a> {
    pub(crate) places: Vec<NumberedLeaf<'a>>,
    flat: &'a Flat,
    /// The block type, where it was made around one.
    pub alone: Option<&'a Alone>,
}

impl<'a> Names<'a> {
    /// The names of a system whose leaves these are, of a block type where it was made around one.
    pub fn of(
        alloc: Global,
        flat: &'a Flat,
        around: Option<&'a Alone>,
    ) -> Result<Names<'a>, AllocError> {
        let mut places = Vec::new(alloc);
        for (number, device) in flat.devices.iter().enumerate() {
            let mut block: usize = 0;
            for resource in &device.resources {
                for leaf in &resource.leaves {
                    places.push(NumberedLeaf {
                        device: short(number),
                        block: short(block),
                        leaf,
                    })?;
                    block = block.saturating_add(1);
                }
            }
        }
        Ok(Names {
            places,
            flat,
            alone: around,
        })
    }

    /// How many devices the system has.
    pub fn devices(&self) -> u16 {
        short(self.flat.devices.len())
    }

    // Whether the system has one device, whose name says nothing then.
    fn has_one_device(&self) -> bool {
        self.flat.devices.len() == 1
    }

    // Whether a name stands for an instance.
    fn is_called(&self, place: NumberedLeaf<'_>, name: &str) -> bool {
        let Some((device, resource, inner)) = parts(place.leaf.path.as_str()) else {
            return false;
        };
        if is_joined(name, device, inner) {
            return true;
        }
        self.has_one_device() && (name == inner || is_joined(name, resource, inner))
    }

    // What a name stands for among the instances of a sort.
    fn find(&self, sort: Sort, name: &str) -> Found<'a> {
        let mut found = Found::Nothing;
        for place in &self.places {
            if sort.has(place.leaf) {
                if place.leaf.path.as_str() == name {
                    return Found::One(*place);
                }
                if self.is_called(*place, name) {
                    found = match found {
                        Found::Nothing => Found::One(*place),
                        Found::One(first) | Found::Several(first, _) => {
                            Found::Several(first, *place)
                        }
                    };
                }
            }
        }
        found
    }

    // Whether another resource of the device has an instance of the same name.
    fn is_shared(&self, place: NumberedLeaf<'_>) -> bool {
        for other in &self.places {
            if other.device == place.device
                && other.block != place.block
                && other.inner() == place.inner()
            {
                return true;
            }
        }
        false
    }

    /// The shortest name of an instance, in upper case.
    pub fn shortest(&self, alloc: Global, place: NumberedLeaf<'_>) -> Result<String, AllocError> {
        let mut text = String::new(alloc);
        if let Some((device, resource, _)) = parts(place.leaf.path.as_str()) {
            if !self.has_one_device() {
                text.push_str(device)?;
                text.push_str(".")?;
            }
            if self.is_shared(place) {
                text.push_str(resource)?;
                text.push_str(".")?;
            }
        }
        text.push_str(place.inner())?;
        Ok(text)
    }

    // The shortest names of the instances of a sort.
    fn all(&self, alloc: Global, sort: Sort) -> Result<Vec<String>, AllocError> {
        let mut names = Vec::new(alloc);
        for place in &self.places {
            if sort.has(place.leaf) {
                names.push(self.shortest(alloc, *place)?)?;
            }
        }
        Ok(names)
    }

    // A name without that of its resource before it, where the system has one device.
    fn in_resource<'n>(&self, name: &'n str) -> &'n str {
        for device in &self.flat.devices {
            for resource in &device.resources {
                if let Some(behind) = name.strip_prefix(self.shortest_of(resource.path.as_str())) {
                    if let Some(inner) = behind.strip_prefix('.') {
                        return inner;
                    }
                }
            }
        }
        name
    }

    // What instances of a sort are called.
    fn called(&self, sort: Sort) -> &'static str {
        match (sort, self.alone) {
            (Sort::Output, Some(_)) => "event output",
            _ => sort.name(),
        }
    }

    /// The instance of a sort that a name at a byte stands for.
    pub fn resolve(
        &self,
        alloc: Global,
        sort: Sort,
        name: &str,
        at: usize,
    ) -> Result<NumberedLeaf<'a>, Fault> {
        match (self.find(sort, name), self.find(Sort::Block, name)) {
            (Found::One(place), _) => Ok(place),
            (Found::Several(one, other), _) => Err(ambiguous(alloc, at, name, one, other)),
            (Found::Nothing, Found::One(_)) => {
                Err(of_another_sort(alloc, at, name, self.called(sort)))
            }
            (Found::Nothing, _) => {
                let names = self.all(alloc, sort)?;
                let begun = none_of(alloc, name, self.called(sort));
                Err(unknown_behind(alloc, at, begun, &names, self.in_resource(name)))
            }
        }
    }

    /// The OUTPUT of a number at a device.
    pub fn output(&self, device: u16, output: u16) -> Option<NumberedLeaf<'a>> {
        for place in &self.places {
            if place.device == device && Sort::Output.has(place.leaf) {
                if let Some((number, _)) = place.port() {
                    if number == output {
                        return Some(*place);
                    }
                }
            }
        }
        None
    }

    /// The name of the device of a number, in upper case.
    pub fn device_name(&self, device: u16) -> &'a str {
        let flat: &'a Flat = self.flat;
        match flat.devices.get(usize::from(device)) {
            Some(device) => device.name.as_str(),
            None => "",
        }
    }

    /// The number of the device that a name at a byte stands for.
    pub fn device(&self, alloc: Global, name: &str, at: usize) -> Result<u16, Fault> {
        let mut names = Vec::new(alloc);
        for (number, device) in self.flat.devices.iter().enumerate() {
            if device.name.as_str() == name {
                return Ok(short(number));
            }
            names.push(device.name.clone()?)?;
        }
        let words = ["there is no device ", name];
        Err(unknown(alloc, at, &words, &names, name))
    }

    // The shortest name of a resource, by its path.
    fn shortest_of<'p>(&self, path: &'p str) -> &'p str {
        match path.split_once('.') {
            Some((_, resource)) if self.has_one_device() => resource,
            _ => path,
        }
    }

    /// The numbers of the device and the resource that a name at a byte stands for.
    pub fn resource(&self, alloc: Global, name: &str, at: usize) -> Result<(u16, u16), Fault> {
        let mut names = Vec::new(alloc);
        for (number, device) in self.flat.devices.iter().enumerate() {
            for (place, resource) in device.resources.iter().enumerate() {
                let path = resource.path.as_str();
                let shortest = self.shortest_of(path);
                if path == name || shortest == name {
                    return Ok((short(number), short(place)));
                }
                names.push(String::from_str(alloc, shortest)?)?;
            }
        }
        let words = ["there is no resource ", name];
        Err(unknown(alloc, at, &words, &names, name))
    }
}
