//! The services of devices and of systems together: this project's profile of IEC 61499-1 edition 2, 6.1.

ghost use Rattle.std.specs.Prelude.{◌≡◌, ◌++◌, [], map, OnOk, IfErr};
ghost use Rattle.fb_model.specs.Typing.{AreNewNumbers};
ghost use Rattle.fb_model.specs.NetworkTyping.{inputs, outputs, subscribed, senders, device_services, all_services, AreAlike};
ghost use Rattle.fb_faults.specs.declared.typing.TypeFault.TheVariants.{OutOfMemory};
ghost use Rattle.fb_types.specs.Uses.{use_of, service_in, services_at};
ghost use Rattle.fb_words.specs.declared.number.NumberKind.TheVariants.{Input, Output, Subscriber, Sender};
ghost use Rattle.fb_model.specs.NumberFaults.{numbers_in};
ghost use Rattle.fb_types.specs.Views.{resource_of, device_of, device_uses, system_uses};
ghost use Rattle.fb_model.specs.NumberFaults.{IsNumberFault, IsChannelFault};

use crate::numbers::differ;
use crate::shapes::alike;
use crate::typed::{Device, Resource};
use crate::uses::{Use, gather_all};
use fb_faults::TypeFault;
use fb_words::NumberKind;
use std::alloc::Global;

// Adds the services of resources at the end.
fn of_resources<'a>(uses: &mut Vec<Use<'a>>, resources: &'a [Resource]) -> Result<(), TypeFault>
    ensures added { OnOk result (map use_of uses.new.items ≡ map use_of uses.old.items ++ device_uses resources.now) }
    ensures services { OnOk result (map service_in uses.new.items ≡ map service_in uses.old.items ++ device_services (map resource_of resources.now)) }
    ensures refused { IfErr result (λ f. f ≡ OutOfMemory) }
{
    for resource in resources {
        gather_all(uses, &resource.network.instances)?;
    }
    Ok(())
}

// Adds the services of devices at the end.
fn of_devices<'a>(uses: &mut Vec<Use<'a>>, devices: &'a [Device]) -> Result<(), TypeFault>
    ensures added { OnOk result (map use_of uses.new.items ≡ map use_of uses.old.items ++ system_uses devices.now) }
    ensures services { OnOk result (map service_in uses.new.items ≡ map service_in uses.old.items ++ all_services (map device_of devices.now)) }
    ensures refused { IfErr result (λ f. f ≡ OutOfMemory) }
{
    for device in devices {
        of_resources(uses, &device.resources)?;
    }
    Ok(())
}

// Refuses a number that two services of a kind have.
fn all_differ(alloc: Global, uses: &[Use]) -> Result<(), TypeFault>
    ensures inputs { OnOk result (AreNewNumbers [] (numbers_in Input (map use_of uses.now))) }
    ensures outputs { OnOk result (AreNewNumbers [] (numbers_in Output (map use_of uses.now))) }
    ensures channels { OnOk result (AreNewNumbers [] (numbers_in Subscriber (map use_of uses.now))) }
    ensures refused { IfErr result (IsNumberFault (map use_of uses.now)) }
{
    differ(alloc, NumberKind::Input, uses)?;
    differ(alloc, NumberKind::Output, uses)?;
    differ(alloc, NumberKind::Subscriber, uses)
}

/// Refuses a number that two INPUTs or two OUTPUTs of a device have, with `BadService`, and a channel that two SUBSCRIBEs of it have, with
/// `ChannelShape`: at the name of the later instance.
pub fn numbers_differ(alloc: Global, resources: &[Resource]) -> Result<(), TypeFault>
    ensures inputs { OnOk result (AreNewNumbers [] (inputs (device_services (map resource_of resources.now)))) }
    ensures outputs { OnOk result (AreNewNumbers [] (outputs (device_services (map resource_of resources.now)))) }
    ensures channels { OnOk result (AreNewNumbers [] (subscribed (device_services (map resource_of resources.now)))) }
    ensures refused { IfErr result (IsNumberFault (device_uses resources.now)) }
    ensures only { AreNewNumbers [] (inputs (device_services (map resource_of resources.now))) → AreNewNumbers [] (outputs (device_services (map resource_of resources.now))) → AreNewNumbers [] (subscribed (device_services (map resource_of resources.now))) → IfErr result (λ f. f ≡ OutOfMemory) }
{
    let mut uses = Vec::new(alloc);
    of_resources(&mut uses, resources)?;
    all_differ(alloc, &uses)
}

// Refuses an end of a channel that is not as an earlier one, and a second PUBLISH of a channel of format 2.
fn all_alike(alloc: Global, uses: &[Use]) -> Result<(), TypeFault>
    ensures alike { OnOk result (AreAlike (services_at (map use_of uses.now))) }
    ensures senders { OnOk result (AreNewNumbers [] (numbers_in Sender (map use_of uses.now))) }
    ensures refused { IfErr result (IsChannelFault (map use_of uses.now)) }
{
    alike(alloc, uses)?;
    differ(alloc, NumberKind::Sender, uses)
}

/// Refuses ends of one channel that have other types or another format, and a second PUBLISH of a channel of format 2, with
/// `ChannelShape` at the name of the later instance.
pub fn channels_alike(alloc: Global, devices: &[Device]) -> Result<(), TypeFault>
    ensures alike { OnOk result (AreAlike (all_services (map device_of devices.now))) }
    ensures senders { OnOk result (AreNewNumbers [] (senders (all_services (map device_of devices.now)))) }
    ensures refused { IfErr result (IsChannelFault (system_uses devices.now)) }
    ensures only { AreAlike (all_services (map device_of devices.now)) → AreNewNumbers [] (senders (all_services (map device_of devices.now))) → IfErr result (λ f. f ≡ OutOfMemory) }
{
    let mut uses = Vec::new(alloc);
    of_devices(&mut uses, devices)?;
    all_alike(alloc, &uses)
}
