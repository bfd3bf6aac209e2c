//! What each event at an arrival takes.

use crate::list::{PriceList, add_units};
use crate::rates::{Comes, Rate, comes_of};
use crate::response::{Sides, overhead_of, response_of};
use crate::settled::{Settled, settle};
use fb_cert::Certificate;
use fb_flat::{Body, FlatDevice, FlatResource, Leaf, joined};
use fb_prices::Prices;
use fb_turns::{Turns, count_turns};
use fb_verified::Verified;
use fb_work::{NoWork, Work, count_work};
use fbr_explain::{Counted, Dispatches, dispatches_of};
use fbr_needs::queue_in;
use std::alloc::{AllocError, Global};

/// The time of an event at an arrival, in picoseconds.
#[derive(Clone, Copy)]
pub(crate) struct Took {
    /// Of all its dispatches.
    pub time: u64,
    /// Until all has ended, from its admission.
    pub response: u64,
}

/// What one event at an arrival takes at most.
#[derive(Clone, Copy)]
pub(crate) struct Most {
    pub dispatches: Dispatches,
    /// How many primitives all its dispatches do.
    pub work: u64,
    pub took: Option<Took>,
}

/// An arrival.
#[derive(Drop)]
pub(crate) struct Row {
    pub path: String,
    pub most: Most,
    /// How often its events come, if rates are given.
    pub comes: Option<Comes>,
    /// How long an event takes beside those of all other arrivals at their rates, from admission, in picoseconds.
    pub settled: Option<u64>,
}

/// A resource, with what its arrivals take.
#[derive(Drop)]
pub(crate) struct Timed<'a> {
    pub resource: &'a FlatResource,
    /// What a turn takes besides the dispatches of this resource, in picoseconds.
    pub overhead: Option<u64>,
    pub rows: Vec<Row>,
    /// What becomes of it at the rates, if these are given.
    pub settled: Option<Settled>,
}

// The work of a system, in primitives and at the prices of a list.
#[derive(Drop)]
struct Works {
    work: Work,
    time: Option<Work>,
}

/// The counts of a system, its work, and its work at the prices of a list.
#[derive(Drop)]
pub(crate) struct Measures {
    turns: Turns,
    works: Works,
}

// The work of a system where each primitive counts 1.
fn work_in_units(alloc: Global, verified: &Verified) -> Result<Work, NoWork> {
    let mut units = Prices {
        numbers: Vec::new(alloc),
    };
    let work = match add_units(&mut units.numbers) {
        Ok(()) => count_work(alloc, verified, &units),
        Err(AllocError) => Err(NoWork::OutOfMemory),
    };
    drop(units);
    work
}

// The work of a system, with a list of prices or without.
fn works_of(
    alloc: Global,
    verified: &Verified,
    list: Option<&PriceList<'_>>,
) -> Result<Works, NoWork> {
    let work = work_in_units(alloc, verified)?;
    let Some(list) = list else {
        return Ok(Works { work, time: None });
    };
    match count_work(alloc, verified, &list.prices) {
        Ok(time) => Ok(Works {
            work,
            time: Some(time),
        }),
        Err(fault) => {
            drop(work);
            Err(fault)
        }
    }
}

/// Counts a system, with a list of prices or without.
pub(crate) fn measures_of(
    alloc: Global,
    verified: &Verified,
    list: Option<&PriceList<'_>>,
) -> Result<Measures, NoWork> {
    let works = works_of(alloc, verified, list)?;
    match count_turns(alloc, verified) {
        Ok(turns) => Ok(Measures { turns, works }),
        Err(AllocError) => {
            drop(works);
            Err(NoWork::OutOfMemory)
        }
    }
}

// The arrival of a leaf, if it has one.
fn arrival_of(leaf: &Leaf) -> Option<&'static str> {
    match &leaf.body {
        Body::Basic(_) => None,
        Body::Served(service) => service.arrival(),
    }
}

// The most time that an event at an arrival of a resource causes.
fn dearest(alloc: Global, time: &Work, resource: &FlatResource) -> Result<u64, AllocError> {
    let mut most = 0;
    for leaf in &resource.leaves {
        if let Some(event) = arrival_of(leaf) {
            most = time.of(alloc, leaf.path.as_str(), event)?.max(most);
        }
    }
    Ok(most)
}

// What dispatches of the other resources of a device take in a turn.
fn others(
    alloc: Global,
    time: &Work,
    device: &FlatDevice,
    own: &FlatResource,
) -> Result<u64, AllocError> {
    let mut sum: u64 = 0;
    for resource in &device.resources {
        if resource.path.as_str() != own.path.as_str() {
            sum = sum.saturating_add(dearest(alloc, time, resource)?);
        }
    }
    Ok(sum)
}

// What a resource adds to the time of each of its events.
#[derive(Clone, Copy)]
struct Costs<'a> {
    time: &'a Work,
    /// What a turn takes besides the dispatches of this resource, in picoseconds.
    overhead: u64,
    /// What its dearest event takes, in picoseconds.
    dearest: u64,
}

// A resource of a device, of which rows are made.
#[derive(Clone, Copy)]
struct View<'a> {
    alloc: Global,
    verified: &'a Verified,
    work: &'a Work,
    counted: Counted<'a>,
    around: Option<Costs<'a>>,
    rates: Option<&'a [Rate<'a>]>,
}

// The time of an event.
fn took_of(
    alloc: Global,
    around: Costs<'_>,
    path: &str,
    event: &str,
    dispatches: Dispatches,
) -> Result<Took, AllocError> {
    let time = around.time.of(alloc, path, event)?;
    let response = response_of(dispatches, time, around.dearest, around.overhead);
    Ok(Took { time, response })
}

// What an event at the arrival of a leaf takes.
fn most_of(view: View<'_>, leaf: &Leaf, event: &str) -> Result<Most, AllocError> {
    let alloc = view.alloc;
    let path = leaf.path.as_str();
    let dispatches = dispatches_of(alloc, view.verified, view.counted, leaf, event)?;
    let took = match view.around {
        Some(around) => Some(took_of(alloc, around, path, event, dispatches)?),
        None => None,
    };
    let work = view.work.of(alloc, path, event)?;
    Ok(Most {
        dispatches,
        work,
        took,
    })
}

// The row of the arrival of a leaf.
fn row_of(view: View<'_>, leaf: &Leaf, event: &str) -> Result<Row, AllocError> {
    let most = most_of(view, leaf, event)?;
    let comes = match view.rates {
        Some(rates) => Some(comes_of(rates, leaf)),
        None => None,
    };
    let path = joined(view.alloc, leaf.path.as_str(), event)?;
    Ok(Row {
        path,
        most,
        comes,
        settled: None,
    })
}

// Adds the rows of all arrivals of a resource.
fn add_rows(view: View<'_>, rows: &mut Vec<Row>) -> Result<(), AllocError> {
    for leaf in &view.counted.resource.leaves {
        if let Some(event) = arrival_of(leaf) {
            rows.push(row_of(view, leaf, event)?)?;
        }
    }
    Ok(())
}

// What a resource adds to the time of each of its events.
fn around_of<'a>(
    alloc: Global,
    time: &'a Work,
    list: &PriceList<'_>,
    device: &FlatDevice,
    resource: &FlatResource,
) -> Result<Costs<'a>, AllocError> {
    let overhead = overhead_of(Sides {
        around: list.around,
        resources: device.resources.len(),
        others: others(alloc, time, device, resource)?,
    });
    let dearest = dearest(alloc, time, resource)?;
    Ok(Costs {
        time,
        overhead,
        dearest,
    })
}

/// What is asked of a system: a list of prices and rates, if they are given.
#[derive(Clone, Copy)]
pub(crate) struct Asked<'a, 'l> {
    pub alloc: Global,
    pub verified: &'a Verified,
    pub list: Option<&'a PriceList<'l>>,
    pub rates: Option<&'a [Rate<'a>]>,
}

// A resource, as rows are made of it.
fn view_of<'a>(
    asked: Asked<'a, '_>,
    measures: &'a Measures,
    device: &FlatDevice,
    resource: &'a FlatResource,
) -> Result<View<'a>, AllocError> {
    let alloc = asked.alloc;
    let around = match (&measures.works.time, asked.list) {
        (Some(time), Some(list)) => Some(around_of(alloc, time, list, device, resource)?),
        _ => None,
    };
    let certificate = asked.verified.certificate();
    let depth = certificate.depth(resource.path.as_str()).unwrap_or(0);
    Ok(View {
        alloc,
        verified: asked.verified,
        work: &measures.works.work,
        counted: Counted {
            resource,
            depth,
            turns: &measures.turns,
        },
        around,
        rates: asked.rates,
    })
}

// The depth with which the queue of a resource holds one event of each arrival.
fn enough(
    alloc: Global,
    certificate: &Certificate,
    resource: &FlatResource,
) -> Result<u64, AllocError> {
    let queue = queue_in(alloc, certificate, resource)?;
    let places = queue.places();
    drop(queue);
    Ok(places)
}

// Finds the least times at the rates, if these and prices are given.
fn settled_of(view: View<'_>, rows: &mut Vec<Row>) -> Result<Option<Settled>, AllocError> {
    let (Some(_), Some(around)) = (view.rates, view.around) else {
        return Ok(None);
    };
    let resource = view.counted.resource;
    let enough = enough(view.alloc, view.verified.certificate(), resource)?;
    Ok(Some(Settled {
        holds: settle(rows, around.overhead),
        depth: view.counted.depth,
        enough,
    }))
}

// Adds all rows of a resource, and tells what becomes of it at the rates.
fn fill(view: View<'_>, rows: &mut Vec<Row>) -> Result<Option<Settled>, AllocError> {
    add_rows(view, rows)?;
    settled_of(view, rows)
}

/// What the arrivals of a resource take.
pub(crate) fn timed_of<'a>(
    asked: Asked<'_, '_>,
    measures: &Measures,
    device: &FlatDevice,
    resource: &'a FlatResource,
) -> Result<Timed<'a>, AllocError> {
    let view = view_of(asked, measures, device, resource)?;
    let overhead = match view.around {
        Some(around) => Some(around.overhead),
        None => None,
    };
    let mut rows = Vec::new(asked.alloc);
    match fill(view, &mut rows) {
        Ok(settled) => Ok(Timed {
            resource,
            overhead,
            rows,
            settled,
        }),
        Err(fault) => {
            drop(rows);
            Err(fault)
        }
    }
}
