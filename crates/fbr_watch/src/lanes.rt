//! The lanes of a timeline: a resource in which something is watched has one.

use crate::watcher::station_of;
use fb_device::Device;
use fbr_signals::Signals;
use fbr_timeline::Timeline;
use std::alloc::{AllocError, Global};

// Whether a path is in a resource of a name.
fn is_in(path: &str, resource: &str) -> bool {
    match path.split_once('.') {
        Some((_, rest)) => match rest.split_once('.') {
            Some((name, _)) => name == resource,
            None => rest == resource,
        },
        None => false,
    }
}

// Whether something is watched in a resource of the device at a place.
fn is_watched(signals: &Signals<'_>, station: usize, resource: &str) -> bool {
    for owner in &signals.owners {
        if owner.station == station && is_in(owner.path, resource) {
            return true;
        }
    }
    false
}

// The name of a lane.
fn name_of(
    alloc: Global,
    signals: &Signals<'_>,
    device: &str,
    resource: &str,
) -> Result<String, AllocError> {
    let mut name = String::new(alloc);
    if !signals.is_alone {
        name.push_str(device)?;
        name.push_str(".")?;
    }
    name.push_str(resource)?;
    Ok(name)
}

// Adds the lane of a resource of the device of the station at a place, if something is watched in it.
fn add_lane(
    alloc: Global,
    signals: &Signals<'_>,
    place: usize,
    device: &Device,
    resource: u16,
    timeline: &mut Timeline,
) -> Result<(), AllocError> {
    let (Some(station), Some(fill)) = (signals.stations.get(place), device.fill_of(resource)) else {
        return Ok(());
    };
    if is_watched(signals, place, fill.name) {
        let name = name_of(alloc, signals, device.name(), fill.name)?;
        timeline.add(station.number, resource, fill.depth, name)?;
    }
    Ok(())
}

/// A timeline looks at the device of a number for the first time in a run: each device that is watched, in the order of their numbers.
pub(crate) fn look_first(
    alloc: Global,
    signals: &Signals<'_>,
    number: u16,
    device: &Device,
    timeline: &mut Timeline,
) -> Result<(), AllocError> {
    let Some((station, _)) = station_of(signals, number) else {
        return Ok(());
    };
    for resource in 0..device.resources() {
        add_lane(alloc, signals, station, device, resource, timeline)?;
    }
    timeline.first(number, device, station == 0)
}
