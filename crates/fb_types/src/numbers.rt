//! Numbers of services, which differ in a device, and those of channels with one PUBLISH at most, which differ in a system: this project's profile of IEC 61499-1 edition 2, 6.1.

ghost use Rattle.std.specs.Prelude.{◌≡◌, ◌++◌, [], map, OnOk, IfErr};
ghost use Rattle.fb_model.specs.Typing.{AreNewNumbers};
ghost use Rattle.fb_faults.specs.declared.typing.TypeFault.TheVariants.{OutOfMemory};
ghost use Rattle.fb_types_services.specs.Views.{channel_of, service_of};
ghost use Rattle.fb_types.specs.Uses.{use_of};
ghost use Rattle.fb_model.specs.NumberFaults.{given, second_number, number_of, numbers_in, taken_fault, IsTaken, IsRepeated};

use crate::uses::Use;
use fb_faults::TypeFault;
use fb_types_services::{Channel, Service};
use fb_words::{Format, NumberKind};
use indexmap::IndexSet;
use std::alloc::Global;

// The number of a channel of format 2.
fn second(channel: Channel) -> Option<u16>
    ensures { result ≡ second_number (channel_of channel) }
{
    match channel.format {
        Format::First => None,
        Format::Second => Some(channel.number),
    }
}

// The number that a service has of a kind.
fn number(kind: NumberKind, service: &Service) -> Option<u16>
    ensures { result ≡ number_of kind (service_of service.now) }
{
    match kind {
        NumberKind::Input => match service {
            Service::Input(number, _) => Some(*number),
            _ => None,
        },
        NumberKind::Output => match service {
            Service::Output(number, _) => Some(*number),
            _ => None,
        },
        NumberKind::Subscriber => match service {
            Service::Subscribe(channel, _) => Some(channel.number),
            _ => None,
        },
        NumberKind::Sender => match service {
            Service::Publish(channel, _) => second(*channel),
            _ => None,
        },
    }
}

// The refusal of a number that is taken, by an instance whose name stands at this offset.
fn taken(kind: NumberKind, at: usize) -> TypeFault
    ensures { result ≡ taken_fault kind at }
{
    match kind {
        NumberKind::Input => TypeFault::BadService(at),
        NumberKind::Output => TypeFault::BadService(at),
        NumberKind::Subscriber => TypeFault::ChannelShape(at),
        NumberKind::Sender => TypeFault::ChannelShape(at),
    }
}

// Adds the number of a service, which has to be new.
fn enter(numbers: &mut IndexSet<u16>, kind: NumberKind, used: &Use) -> Result<(), TypeFault>
    ensures new { OnOk result (AreNewNumbers numbers.old.keys (given (number_of kind ((use_of used.now).1)))) }
    ensures added { OnOk result (numbers.new.keys ≡ numbers.old.keys ++ given (number_of kind ((use_of used.now).1))) }
    ensures refused { IfErr result (IsTaken kind numbers.old.keys (use_of used.now)) }
{
    match number(kind, used.service) {
        None => Ok(()),
        Some(number) => {
            if numbers.insert(number)? {
                Ok(())
            } else {
                Err(taken(kind, used.at))
            }
        }
    }
}

// Refuses a number that an earlier service of the kind has.
fn each_differs(alloc: Global, kind: NumberKind, uses: &[Use]) -> Result<(), TypeFault>
    ensures new { OnOk result (AreNewNumbers [] (numbers_in kind (map use_of uses.now))) }
    ensures refused { IfErr result (IsRepeated kind [] (map use_of uses.now)) }
{
    let mut numbers = IndexSet::new(alloc);
    for used in uses {
        enter(&mut numbers, kind, used)?;
    }
    Ok(())
}

/// Refuses a number that an earlier service of the kind has, at the later instance's name: of INPUTs and OUTPUTs with `BadService`,
/// of SUBSCRIBEs and PUBLISHs with `ChannelShape`.
pub fn differ(alloc: Global, kind: NumberKind, uses: &[Use]) -> Result<(), TypeFault>
    ensures new { OnOk result (AreNewNumbers [] (numbers_in kind (map use_of uses.now))) }
    ensures refused { IfErr result (IsRepeated kind [] (map use_of uses.now)) }
    ensures only { AreNewNumbers [] (numbers_in kind (map use_of uses.now)) → IfErr result (λ f. f ≡ OutOfMemory) }
{
    each_differs(alloc, kind, uses)
}
