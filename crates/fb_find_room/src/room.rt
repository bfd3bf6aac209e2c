//! Rows `DEPTH` with room.

ghost use Rattle.std.specs.Prelude.{◌≡◌, List, slice_get, option_map, IfOk, OnOk};
ghost use Rattle.fb_model.specs.System as book;
ghost use Rattle.fb_model.specs.CertificateText.{names_in};
ghost use Rattle.fb_cert.specs.Views.{certificate_of, rows_of};
ghost use Rattle.fb_flat.specs.Tables.{AreDevices};
ghost use Rattle.fb_types.specs.Views.{system_of};
ghost use Rattle.fb_find_room.specs.Room.{roomy_at, roomy_depth, roomy_rows};

use crate::arrivals::at_path;
use fb_cert::Certificate;
use fb_flat::{Flat, flatten};
use fb_types::Typed;
use std::alloc::{AllocError, Global};

/// The most places of a row `DEPTH`.
const MOST_PLACES: u64 = 4096;

// The depth that the row at an index gets, where there is one.
fn depth_with_room(
    alloc: Global,
    flat: &Flat,
    times: u8,
    certificate: &Certificate,
    index: usize,
) -> Result<Option<u64>, AllocError>
    ensures { (ds : List book.Device) → AreDevices flat.now.devices.items ds
        → IfOk result (λ depth. depth ≡ option_map (λ r. roomy_depth times ds (certificate_of certificate.now) (names_in r.0) r.1) (slice_get (rows_of certificate.now).depths index)) }
{
    let Some((path, depth)) = certificate.depth_at(index) else {
        return Ok(None);
    };
    let places = at_path(alloc, certificate, path, flat)?;
    let wanted = places.saturating_mul(u64::from(times)).min(MOST_PLACES);
    Ok(Some(wanted.max(depth)))
}

// Gives the row at an index room.
fn deepen(
    alloc: Global,
    flat: &Flat,
    times: u8,
    certificate: &mut Certificate,
    index: usize,
) -> Result<(), AllocError>
    ensures { (ds : List book.Device) → AreDevices flat.now.devices.items ds → OnOk result (rows_of certificate.new ≡ roomy_at index times ds (rows_of certificate.old)) }
{
    if let Some(depth) = depth_with_room(alloc, flat, times, certificate, index)? {
        certificate.set_depth(index, depth);
    }
    Ok(())
}

// Gives each row room.
fn deepen_all(
    alloc: Global,
    flat: &Flat,
    times: u8,
    certificate: &mut Certificate,
) -> Result<(), AllocError>
    ensures { (ds : List book.Device) → AreDevices flat.now.devices.items ds → OnOk result (rows_of certificate.new ≡ roomy_rows times ds (rows_of certificate.old)) }
{
    for index in 0..certificate.depth_count() {
        deepen(alloc, flat, times, certificate, index)?;
    }
    Ok(())
}

// The same, of a system.
fn deepen_for(
    alloc: Global,
    typed: &Typed,
    times: u8,
    certificate: &mut Certificate,
) -> Result<(), AllocError>
    ensures { OnOk result (rows_of certificate.new ≡ roomy_rows times (system_of typed.now).devices (rows_of certificate.old)) }
{
    typed.stands_in_text();
    let Ok(flat) = flatten(alloc, typed) else {
        return Err(AllocError);
    };
    let done = deepen_all(alloc, &flat, times, certificate);
    flat.let_go();
    done
}

/// The certificate with room for so many arrivals of each kind at once in the queue of each resource, within 4,096 places; no queue gets less depth than it had,
/// and all other rows stay. Refused only where memory runs out, or where a resource of the system follows too many connections, so that no certificate fits it.
pub fn with_room(
    alloc: Global,
    typed: &Typed,
    times: u8,
    certificate: Certificate,
) -> Result<Certificate, AllocError>
    ensures { IfOk result (λ c. rows_of c ≡ roomy_rows times (system_of typed.now).devices (rows_of certificate)) }
{
    let mut certificate = certificate;
    match deepen_for(alloc, typed, times, &mut certificate) {
        Ok(()) => Ok(certificate),
        Err(fault) => {
            certificate.let_go();
            Err(fault)
        }
    }
}
