//! Floods: arrivals that become more events at once than a queue can hold.

use fb_find_demands::{Numbering, Right, numbering, plain_rights};
use fb_flat::{Body, Flat, FlatResource, joined};
use fbr_leaves::resource_at;
use std::alloc::{AllocError, Global};

// The most places of a queue.
const MOST_PLACES: u64 = 4096;

// The inequalities are gone through so often at most. They stand in the order of the text, so that events which lead on to later blocks need one round.
const ROUNDS: usize = 256;

// So many events are followed at most.
const LINKS: usize = 64;

/// An event, and how many events it becomes at once.
#[derive(Drop)]
pub struct Link {
    pub path: String,
    pub places: u64,
}

/// The arrival that becomes most events at once, first, and what follows it: of what each event leads to that which becomes most.
#[derive(Drop)]
pub struct Flood {
    pub chain: Vec<Link>,
}

// What a right side comes to.
fn asked(right: &Right, numbers: &[u64]) -> u64 {
    let mut sum = right.constant;
    for term in &right.terms {
        sum = sum.saturating_add(numbers.get(*term).copied().unwrap_or(0));
    }
    sum
}

// Raises numbers to what inequalities ask, from the last one on; and whether one was raised.
fn raise(rights: &[Right], numbers: &mut Vec<u64>) -> bool {
    let mut is_raised = false;
    for index in 0..rights.len() {
        let last = rights.len().saturating_sub(index).saturating_sub(1);
        if let Some(right) = rights.get(last) {
            let sum = asked(right, numbers.as_slice());
            if right.node < numbers.len() && numbers[right.node] < sum {
                numbers[right.node] = sum;
                is_raised = true;
            }
        }
    }
    is_raised
}

// How many places each node takes, by its number.
fn places_of(alloc: Global, count: usize, rights: &[Right]) -> Result<Vec<u64>, AllocError> {
    let mut numbers: Vec<u64> = vec![in alloc; 0; count]?;
    for _ in 0..ROUNDS {
        if !raise(rights, &mut numbers) {
            return Ok(numbers);
        }
    }
    Ok(numbers)
}

// Of what a node leads to, that which takes most places.
fn next_of(rights: &[Right], numbers: &[u64], node: usize) -> Option<usize> {
    let mut most: u64 = 0;
    let mut next = None;
    for right in rights {
        if right.node == node && asked(right, numbers) > most {
            most = asked(right, numbers);
            next = greatest(right, numbers);
        }
    }
    next
}

// The term of a right side that takes most places.
fn greatest(right: &Right, numbers: &[u64]) -> Option<usize> {
    let mut most: u64 = 0;
    let mut found = None;
    for term in &right.terms {
        let number = numbers.get(*term).copied().unwrap_or(0);
        if number > most {
            most = number;
            found = Some(*term);
        }
    }
    found
}

// The arrival of a resource that takes most places, by its number.
fn most_taking(
    alloc: Global,
    numbering: &Numbering,
    numbers: &[u64],
    resource: &FlatResource,
) -> Result<Option<(String, usize)>, AllocError> {
    let mut most = MOST_PLACES;
    let mut found = None;
    for leaf in &resource.leaves {
        if let Body::Served(service) = &leaf.body {
            if let Some(event) = service.arrival() {
                let node = numbering.event(alloc, leaf.path.as_str(), event)?;
                let places = numbers.get(node).copied().unwrap_or(0);
                if places > most {
                    most = places;
                    found = Some((joined(alloc, leaf.path.as_str(), event)?, node));
                }
            }
        }
    }
    Ok(found)
}

// Adds the event of a node to a chain; a state is passed over.
fn add_link(
    numbering: &Numbering,
    numbers: &[u64],
    node: usize,
    chain: &mut Vec<Link>,
) -> Result<(), AllocError> {
    let Some(index) = node.checked_sub(numbering.states.len()) else {
        return Ok(());
    };
    let Some(path) = numbering.events.get_index(index) else {
        return Ok(());
    };
    chain.push(Link {
        path: path.clone()?,
        places: numbers.get(node).copied().unwrap_or(0),
    })?;
    Ok(())
}

// What follows an arrival.
fn chain_from(
    alloc: Global,
    numbering: &Numbering,
    rights: &[Right],
    numbers: &[u64],
    arrival: (String, usize),
) -> Result<Vec<Link>, AllocError> {
    let (path, first) = arrival;
    let mut chain = Vec::new(alloc);
    chain.push(Link {
        path,
        places: numbers.get(first).copied().unwrap_or(0),
    })?;
    let mut node = first;
    for _ in 0..LINKS {
        match next_of(rights, numbers, node) {
            Some(next) => node = next,
            None => return Ok(chain),
        }
        add_link(numbering, numbers, node, &mut chain)?;
    }
    Ok(chain)
}

/// The flood of the resource of a path: nothing where no arrival of it becomes more events at once than a queue can hold.
pub fn flood_of(alloc: Global, flat: &Flat, path: &str) -> Result<Option<Flood>, AllocError> {
    let Some(resource) = resource_at(flat, path) else {
        return Ok(None);
    };
    let numbering = numbering(alloc, None, flat).map_err(|_| AllocError)?;
    let rights = plain_rights(alloc, &numbering, 0, flat)?;
    let numbers = places_of(alloc, numbering.count()?, rights.as_slice())?;
    match most_taking(alloc, &numbering, numbers.as_slice(), resource)? {
        Some(arrival) => Ok(Some(Flood {
            chain: chain_from(
                alloc,
                &numbering,
                rights.as_slice(),
                numbers.as_slice(),
                arrival,
            )?,
        })),
        None => Ok(None),
    }
}
