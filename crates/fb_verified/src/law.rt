//! A law of systems whose certificate fits.

ghost use Rattle.std.specs.List.{AllByRecursion};
ghost use Rattle.fb_model.specs.System.{System};
ghost use Rattle.fb_model.specs.Certificates.{Certificate, Fits, DeviceHolds};
ghost use Rattle.fb_model.specs.Written.{IsWritten};

/// Where a certificate fits a system that stands in texts, each device holds: its leaves are found by their paths, their outputs lead to event
/// inputs, their numbers and value types have room in messages, they keep their values in the rows, whatever happens, and the certificate pays for
/// them.
pub fn devices_hold()
    ensures { (system : System) (cert : Certificate) → IsWritten system → Fits system cert → AllByRecursion (DeviceHolds cert) system.devices }
{}
