//! From what was checked to tables.

ghost use Rattle.std.specs.Prelude.{◌≡◌, ◌<◌, length, map, Some, slice_get, IfOk};
ghost use Rattle.fb_model.specs.System.{Device};
ghost use Rattle.fb_model.specs.Wires.{leaves};
ghost use Rattle.st_exec.specs.Cells.{forms_of};
ghost use Rattle.fb_cert.specs.Views.{count_in};
ghost use Rattle.fb_verified.specs.Checked.{system_in, certificate_in};
ghost use Rattle.fb_device_values.specs.First.{HaveFirstCells};
ghost use Rattle.fb_device_tables.specs.Tables.{AreTables};
ghost use Rattle.fb_chart.specs.Tables.{Each};
ghost use Rattle.fb_device_tables.specs.Filling.{IsResourceMade};

use crate::block::blocks;
use crate::port::ports;
use crate::seat::{homes, paths, seats};
use crate::table::{Resource, Tables};
use crate::taker::{Taker, numbered};
use fb_cert::Certificate;
use fb_device_values::FirstValues;
use fb_flat::joined;
use fb_verified::Verified;
use std::alloc::{AllocError, Global};

// The depth of a row, 0 where there is none.
fn depth(row: Option<u64>) -> u64
    ensures { result ≡ count_in row }
{
    match row {
        Some(depth) => depth,
        None => 0,
    }
}

// A resource with its DEPTH row.
fn resource(
    alloc: Global,
    certificate: &Certificate,
    device: &str,
    source: &fb_types::Resource,
) -> Result<Resource, AllocError>
    ensures { IfOk result (λ x. IsResourceMade certificate.now device.now source.now x) }
{
    let path = joined(alloc, device, source.name.as_str())?;
    Ok(Resource {
        name: source.name.clone()?,
        depth: depth(certificate.depth(path.as_str())),
    })
}

// Resources, in order.
fn resources(
    alloc: Global,
    certificate: &Certificate,
    device: &str,
    sources: &[fb_types::Resource],
) -> Result<Vec<Resource>, AllocError>
    ensures { IfOk result (λ v. Each (IsResourceMade certificate.now device.now) sources.now v.items) }
{
    let mut resources = Vec::new(alloc);
    for source in sources {
        resources.push(resource(alloc, certificate, device, source)?)?;
    }
    Ok(resources)
}

/// The tables of the device of this number, counted from 0, whose first values are these.
///
/// Its blocks are the leaves of the device, depth first in text order, and its numbers are those of the certificate.
pub fn tables(
    alloc: Global,
    verified: &Verified,
    device: usize,
    values: &FirstValues,
) -> Result<Tables, AllocError>
    requires within { device < length (system_in verified.now).devices }
    requires first { (d : Device) → slice_get (system_in verified.now).devices device ≡ Some d → HaveFirstCells (leaves d) values.now.own.items values.now.issued.items }
    ensures { (d : Device) → slice_get (system_in verified.now).devices device ≡ Some d → IfOk result (AreTables (certificate_in verified.now) d (map forms_of values.now.own.items) (map forms_of values.now.issued.items)) }
{
    verified.fits();
    let certificate = verified.certificate();
    let flat = &verified.flat().devices[device];
    let typed = &verified.typed().devices[device];
    let homes = homes(alloc, &flat.resources)?;
    let seats = seats(alloc, &homes, &values.own, &values.issued)?;
    let paths = paths(alloc, &seats)?;
    let blocks = blocks(alloc, certificate, &paths, &seats)?;
    let ports = ports(alloc, &seats)?;
    let inputs = numbered(alloc, &blocks, Taker::Input)?;
    let subscribers = numbered(alloc, &blocks, Taker::Subscriber)?;
    let resources = resources(alloc, certificate, typed.name.as_str(), &typed.resources)?;
    Ok(Tables {
        blocks,
        ports,
        resources,
        inputs,
        subscribers,
    })
}
