//! The formats and types of channels: this project's profile of IEC 61499-1 edition 2, 6.1.

ghost use Rattle.std.specs.Prelude.{◌≡◌, ◌++◌, ◌∷◌, [], true, false, None, map, OnOk, IfErr};
ghost use Rattle.std.specs.Option.{option_map};
ghost use Rattle.fb_model.specs.NetworkTyping.{AreAlike};
ghost use Rattle.fb_faults.specs.declared.typing.TypeFault.TheVariants.{OutOfMemory};
ghost use Rattle.fb_types_services.specs.Views.{service_of};
ghost use Rattle.fb_types.specs.Uses.{use_of, services_at};
ghost use Rattle.fb_types.specs.Shapes.{shape_in, shape_of, shapes_of, Noted, IsOtherwise};
ghost use Rattle.fb_model.specs.NumberFaults.{end_of, IsUnlike};

use crate::uses::Use;
use fb_faults::TypeFault;
use fb_types_services::Service;
use fb_words::{ElemType, Format};
use indexmap::IndexMap;
use std::alloc::Global;

// What the first end of a channel has.
#[derive(Clone, Copy)]
struct Seen<'a> {
    format: Format,
    types: &'a Vec<ElemType>,
}

// Channels with their shapes.
type Shapes<'a> = IndexMap<u16, Seen<'a>>;

// The channel of which a service is an end, with its shape.
fn channel(service: &Service) -> Option<(u16, Seen<'_>)>
    ensures { option_map (λ p. (p.0, shape_of p.1)) result ≡ end_of (service_of service.now) }
{
    match service {
        Service::Publish(channel, types) => {
            let format = channel.format;
            Some((channel.number, Seen { format, types }))
        }
        Service::Subscribe(channel, types) => {
            let format = channel.format;
            Some((channel.number, Seen { format, types }))
        }
        _ => None,
    }
}

// Whether types are the same.
fn same(first: &[ElemType], second: &[ElemType]) -> bool
    ensures same { result ≡ true → first.now ≡ second.now }
    ensures differ { result ≡ false → first.now ≡ second.now → ⊥ }
{
    first == second
}

// Whether shapes are the same.
fn agree(first: Seen, second: Seen) -> bool
    ensures same { result ≡ true → shape_of first.entry ≡ shape_of second.entry }
    ensures differ { result ≡ false → shape_of first.entry ≡ shape_of second.entry → ⊥ }
{
    if first.format == second.format {
        same(first.types, second.types)
    } else {
        false
    }
}

// The shape of a channel, where it is among these.
fn first<'a>(shapes: &Shapes<'a>, number: u16) -> Option<Seen<'a>>
    ensures { option_map shape_of result ≡ shape_in (shapes_of shapes.now) number }
{
    shapes.get(&number).copied()
}

// Adds a channel that is none of these.
fn put<'a>(shapes: &mut Shapes<'a>, number: u16, shape: Seen<'a>) -> Result<(), TypeFault>
    requires { shape_in (shapes_of shapes.old) number ≡ None }
    ensures added { OnOk result (shapes_of shapes.new ≡ shapes_of shapes.old ++ (number, shape_of shape.entry) ∷ []) }
    ensures refused { IfErr result (λ f. f ≡ OutOfMemory) }
{
    shapes.insert(number, shape)?;
    Ok(())
}

// Adds the channel of which a service is an end, where it is a new one. Another end of it has to have the same shape.
fn note<'a>(shapes: &mut Shapes<'a>, used: &Use<'a>) -> Result<(), TypeFault>
    ensures noted { OnOk result (Noted (shapes_of shapes.old) (end_of ((use_of used.now).1)) (shapes_of shapes.new)) }
    ensures refused { IfErr result (IsOtherwise (shapes_of shapes.old) (use_of used.now)) }
{
    match channel(used.service) {
        None => Ok(()),
        Some((number, shape)) => match first(shapes, number) {
            Some(first) => {
                if agree(first, shape) {
                    Ok(())
                } else {
                    Err(TypeFault::ChannelShape(used.at))
                }
            }
            None => put(shapes, number, shape),
        },
    }
}

// Refuses an end of a channel that has other types or another format than an earlier end of it.
fn each_alike(alloc: Global, uses: &[Use]) -> Result<(), TypeFault>
    ensures alike { OnOk result (AreAlike (services_at (map use_of uses.now))) }
    ensures refused { IfErr result (IsUnlike (map use_of uses.now)) }
{
    let mut shapes = IndexMap::new(alloc);
    for used in uses {
        note(&mut shapes, used)?;
    }
    Ok(())
}

/// Refuses an end of a channel that has other types or another format than an earlier end of it, with `ChannelShape` at the later
/// instance's name.
pub fn alike(alloc: Global, uses: &[Use]) -> Result<(), TypeFault>
    ensures alike { OnOk result (AreAlike (services_at (map use_of uses.now))) }
    ensures refused { IfErr result (IsUnlike (map use_of uses.now)) }
    ensures only { AreAlike (services_at (map use_of uses.now)) → IfErr result (λ f. f ≡ OutOfMemory) }
{
    each_alike(alloc, uses)
}
