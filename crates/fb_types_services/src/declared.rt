//! Services by their declarations.

ghost use Rattle.std.specs.Prelude.{◌≡◌, ◌<◌, ◌≤◌, ◌↔◌, ℕ, pos, [], ◌∷◌, None, true, false, length, codes, IsTrue, IfOk, IfErr, IfSome, IfNone, OnOk};
ghost use Rattle.fb_model.specs.Names.{is_in};
ghost use Rattle.fb_model.specs.Typing.{IsId, IsWhole, service_names};
ghost use Rattle.fb_words.specs.declared.format.Format as formats;
ghost use Rattle.fb_model.specs.NetworkTyping.{IsFormat, IsService, having, id, format, format_number, value_types, most_types};
ghost use Rattle.fb_model.specs.System as book;
ghost use Rattle.fb_tree.specs.Algorithms.{literal_of};
ghost use Rattle.fb_tree.specs.Files.{parameter_of, instance_of};
ghost use Rattle.fb_types_services.specs.Answers.{IsNamed, FindsService, IsNumbered, IsChannelled};
ghost use Rattle.fb_model.specs.ServiceFaults.{IsNumberFault, IsFormatFault, IsTypesFault, IsBareFault, IsNumberedFault, IsChannelledFault, IsServiceFault, has_values, is_timer};
ghost use Rattle.fb_types_services.specs.Views.{channel_of, service_of};

use crate::number::whole;
use crate::service::{Channel, Service};
use fb_faults::TypeFault;
use fb_tree::{InstanceTree, Literal, ParameterTree};
use fb_words::{ElemType, Format};
use std::alloc::Global;

/// The most value types of a service.
pub const TYPES: usize = 16;

/// The greatest number of an INPUT or OUTPUT, and the greatest channel.
pub const MOST_ID: u64 = 65_535;

// The parameters of a name: none, one, or more.
#[derive(Clone, Copy)]
enum Named<'a> {
    Absent,
    Once(&'a ParameterTree),
    Often,
}

fn parameters<'a>(all: &'a [ParameterTree], name: &str) -> Named<'a>
    ensures { IsNamed name.now all.now result }
{
    let mut found = Named::Absent;
    for parameter in all {
        if parameter.name.text.as_str() == name {
            found = match found {
                Named::Absent => Named::Once(parameter),
                Named::Once(_) | Named::Often => Named::Often,
            };
        }
    }
    found
}

// The number of a service: its parameter ID, which is given once.
fn number(source: &InstanceTree) -> Result<u16, TypeFault>
    ensures is { IfOk result (λ n. IsId (having id (instance_of source.now).parameters) n) }
    ensures refused { IfErr result (IsNumberFault (instance_of source.now)) }
{
    match parameters(&source.parameters, "ID") {
        Named::Once(parameter) => match whole(parameter.value.value) {
            Some(number) => {
                if number > MOST_ID {
                    Err(TypeFault::BadService(source.name.at))
                } else {
                    Ok(number as u16)
                }
            }
            None => Err(TypeFault::BadService(source.name.at)),
        },
        _ => Err(TypeFault::BadService(source.name.at)),
    }
}

// The format of a number.
fn format_numbered(number: u64) -> Option<Format>
    ensures is { IfSome result (λ f. format_number f ≡ number) }
    ensures none { IfNone result ((f : formats.Format) → format_number f ≡ number → ⊥) }
{
    match number {
        1 => Some(Format::First),
        2 => Some(Format::Second),
        _ => None,
    }
}

// The format that a parameter gives.
fn said(value: Literal) -> Option<Format>
    ensures is { IfSome result (λ f. IsWhole (literal_of value) (pos (format_number f))) }
    ensures none { IfNone result ((f : formats.Format) → IsWhole (literal_of value) (pos (format_number f)) → ⊥) }
{
    format_numbered(whole(value)?)
}

// The wire format of a channel: its parameter FORMAT, which may be given once. The first where it is not given.
fn format(source: &InstanceTree) -> Result<Format, TypeFault>
    ensures is { IfOk result (IsFormat (having format (instance_of source.now).parameters)) }
    ensures refused { IfErr result (IsFormatFault (instance_of source.now)) }
{
    match parameters(&source.parameters, "FORMAT") {
        Named::Absent => Ok(Format::First),
        Named::Once(parameter) => match said(parameter.value.value) {
            Some(format) => Ok(format),
            None => Err(TypeFault::BadService(source.name.at)),
        },
        Named::Often => Err(TypeFault::BadService(source.name.at)),
    }
}

// The value types in square brackets.
fn types(alloc: Global, source: &InstanceTree) -> Result<Vec<ElemType>, TypeFault>
    ensures few { OnOk result (length (value_types (instance_of source.now).types) ≤ most_types) }
    ensures are { IfOk result (λ v. v.items ≡ value_types (instance_of source.now).types) }
    ensures refused { IfErr result (IsTypesFault (instance_of source.now)) }
{
    match &source.types {
        Some(types) => {
            if types.len() > TYPES {
                Err(TypeFault::Limit(source.name.at))
            } else {
                Ok(types.clone()?)
            }
        }
        None => Ok(Vec::new(alloc)),
    }
}

/// Refuses square brackets.
pub fn bare(source: &InstanceTree) -> Result<(), TypeFault>
    ensures none { OnOk result ((instance_of source.now).types ≡ None) }
    ensures refused { IfErr result (IsBareFault (instance_of source.now)) }
{
    if source.types.is_some() {
        Err(TypeFault::BadService(source.name.at))
    } else {
        Ok(())
    }
}

// The number of a service or of its channel, and its value types.
fn numbered(alloc: Global, source: &InstanceTree) -> Result<(u16, Vec<ElemType>), TypeFault>
    ensures is { IfOk result (λ x. IsNumbered (instance_of source.now) x.0 x.1.items) }
    ensures refused { IfErr result (IsNumberedFault (instance_of source.now)) }
{
    let number = number(source)?;
    let types = types(alloc, source)?;
    Ok((number, types))
}

// The channel of a service, and its value types.
fn channelled(alloc: Global, source: &InstanceTree) -> Result<(Channel, Vec<ElemType>), TypeFault>
    ensures is { IfOk result (λ x. IsChannelled (instance_of source.now) (channel_of x.0) x.1.items) }
    ensures refused { IfErr result (IsChannelledFault (instance_of source.now)) }
{
    let format = format(source)?;
    let (number, types) = numbered(alloc, source)?;
    Ok((Channel { number, format }, types))
}

// A service with a number or channel, by its name.
fn valued(alloc: Global, source: &InstanceTree) -> Result<Option<Service>, TypeFault>
    ensures is { IfOk result (λ o. IfSome o (λ s. IsService (instance_of source.now) (service_of s))) }
    ensures none { IfOk result (λ o. IfNone o (has_values (instance_of source.now).type.text ≡ false)) }
    ensures refused { IfErr result (IsServiceFault (instance_of source.now)) }
{
    let name = source.of_type.text.as_str();
    if name == "INPUT" {
        let (number, types) = numbered(alloc, source)?;
        return Ok(Some(Service::Input(number, types)));
    }
    if name == "OUTPUT" {
        let (number, types) = numbered(alloc, source)?;
        return Ok(Some(Service::Output(number, types)));
    }
    if name == "PUBLISH" {
        let (channel, types) = channelled(alloc, source)?;
        return Ok(Some(Service::Publish(channel, types)));
    }
    if name == "SUBSCRIBE" {
        let (channel, types) = channelled(alloc, source)?;
        return Ok(Some(Service::Subscribe(channel, types)));
    }
    Ok(None)
}

// A service without a number, by its name.
fn timer(source: &InstanceTree) -> Result<Option<Service>, TypeFault>
    ensures is { IfOk result (λ o. IfSome o (λ s. IsService (instance_of source.now) (service_of s))) }
    ensures none { IfOk result (λ o. IfNone o (is_timer (instance_of source.now).type.text ≡ false)) }
    ensures refused { IfErr result (λ f. (is_timer (instance_of source.now).type.text ≡ true) × IsBareFault (instance_of source.now) f) }
{
    let service = match source.of_type.text.as_str() {
        "E_DELAY" => Service::Delay,
        "E_CYCLE" => Service::Cycle,
        "E_RESTART" => Service::Restart,
        _ => return Ok(None),
    };
    bare(source)?;
    Ok(Some(service))
}

// The service of an instance.
fn declared(alloc: Global, source: &InstanceTree) -> Result<Option<Service>, TypeFault>
    ensures is { IfOk result (λ o. IfSome o (λ s. IsService (instance_of source.now) (service_of s))) }
    ensures none { IfOk result (λ o. IfNone o (is_in (instance_of source.now).type.text service_names ≡ false)) }
    ensures refused { IfErr result (IsServiceFault (instance_of source.now)) }
{
    match valued(alloc, source)? {
        Some(service) => Ok(Some(service)),
        None => timer(source),
    }
}

/// The service of an instance, none where its type's name is no service's.
///
/// Refused at the instance's name: `BadService` where ID is not given exactly once as a whole number from 0 to 65535, where FORMAT of
/// PUBLISH or SUBSCRIBE is given and is neither 1 nor 2 or is given twice, and where a service without values has square brackets; `Limit` where
/// there are more than 16 value types.
pub fn served(alloc: Global, source: &InstanceTree) -> Result<Option<Service>, TypeFault>
    ensures is { IfOk result (λ o. IfSome o (λ s. IsService (instance_of source.now) (service_of s))) }
    ensures none { IfOk result (λ o. IfNone o (is_in (instance_of source.now).type.text service_names ≡ false)) }
    ensures refused { IfErr result (IsServiceFault (instance_of source.now)) }
    ensures only { (s : book.Service) → IsService (instance_of source.now) s → FindsService result s }
{
    declared(alloc, source)
}
