//! When the rows of a system pay in a column.

ghost use Rattle.std.specs.Prelude.{IfErr, OnOk};
ghost use Rattle.std.specs.List.{AllByRecursion, Any};
ghost use Rattle.fb_model.specs.System.{System};
ghost use Rattle.fb_cert.specs.Views.{certificate_of};
ghost use Rattle.fb_flat.specs.Tables.{AreDevices};
ghost use Rattle.fb_check_columns.specs.Columns.{column_of};
ghost use Rattle.fb_check_columns.specs.Sharing.{IsCosted};
ghost use Rattle.fb_check_columns.specs.Tables.{LeafPays, LeafFails, ResourcePays, ResourceFails, DevicePays, DeviceFails};
ghost use Rattle.fb_check_columns.specs.Fitting.{AllPay, AreKnown};
ghost use Rattle.fb_model.specs.Misfits.{IsUnpaid};

use crate::column::Column;
use crate::costed::Costed;
use crate::leaf::leaf_pays;
use fb_cert::Certificate;
use fb_faults::Shortfall;
use fb_flat::{Flat, FlatDevice, FlatResource, Leaf};
use std::alloc::Global;

// The rows of all leaves of a resource pay.
fn leaves_pay<'a>(
    alloc: Global,
    leaves: &'a [Leaf],
    certificate: &Certificate,
    column: Column,
    known: &mut Vec<Costed<'a>>,
) -> Result<(), Shortfall>
    requires { AllByRecursion IsCosted known.old.items }
    ensures pays { OnOk result (AllByRecursion (LeafPays column certificate.now) leaves.now) }
    ensures refused { IfErr result (λ f. Any (LeafFails column certificate.now f) leaves.now) }
    ensures known { OnOk result (AllByRecursion IsCosted known.new.items) }
{
    for leaf in leaves {
        leaf_pays(alloc, certificate, column, known, leaf)?;
    }
    Ok(())
}

// The same of all resources of a device.
fn resources_pay<'a>(
    alloc: Global,
    resources: &'a [FlatResource],
    certificate: &Certificate,
    column: Column,
    known: &mut Vec<Costed<'a>>,
) -> Result<(), Shortfall>
    requires { AllByRecursion IsCosted known.old.items }
    ensures pays { OnOk result (AllByRecursion (ResourcePays column certificate.now) resources.now) }
    ensures refused { IfErr result (λ f. Any (ResourceFails column certificate.now f) resources.now) }
    ensures known { OnOk result (AllByRecursion IsCosted known.new.items) }
{
    for resource in resources {
        let leaves = resource.leaves.as_slice();
        leaves_pay(alloc, leaves, certificate, column, known)?;
    }
    Ok(())
}

// The same of all devices. Leaves that are alike share what their algorithms cost.
fn devices_pay(
    alloc: Global,
    devices: &[FlatDevice],
    certificate: &Certificate,
    column: Column,
) -> Result<(), Shortfall>
    ensures pays { OnOk result (AllByRecursion (DevicePays column certificate.now) devices.now) }
    ensures refused { IfErr result (λ f. Any (DeviceFails column certificate.now f) devices.now) }
{
    let mut known = Vec::new(alloc);
    for device in devices {
        let resources = device.resources.as_slice();
        resources_pay(alloc, resources, certificate, column, &mut known)?;
    }
    Ok(())
}

/// The rows of all leaves pay in a column: each charge for its state's actions and free transitions, each weight for its dispatch and all that it can cause.
///
/// Refused with `Charge` or `Weight`, only where it is so.
pub fn column_pays(
    alloc: Global,
    flat: &Flat,
    certificate: &Certificate,
    column: Column,
) -> Result<(), Shortfall>
    ensures pays { (s : System) → AreDevices flat.now.devices.items s.devices → AreKnown (certificate_of certificate.now).ranges s → OnOk result (AllPay (column_of column (certificate_of certificate.now)) (certificate_of certificate.now).ranges s) }
    ensures refused { (s : System) → AreDevices flat.now.devices.items s.devices → AreKnown (certificate_of certificate.now).ranges s → IfErr result (IsUnpaid (column_of column (certificate_of certificate.now)) (certificate_of certificate.now).ranges s) }
{
    certificate.stands_in_text();
    devices_pay(alloc, flat.devices.as_slice(), certificate, column)
}
