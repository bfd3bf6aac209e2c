//! Networks with indexes.

ghost use Rattle.std.specs.Prelude.{◌≡◌, ◌<◌, [], Some, Option, length, map, slice_get, None, IfOk, IfSome, MatchOption};
ghost use Rattle.std.specs.Option.{option_map, option_map_or};
ghost use Rattle.fb_model.specs.Names.{Name};
ghost use Rattle.fb_types_networks.specs.declared.typed.Body.{out-Body};
ghost use Rattle.fb_types_networks.specs.declared.typed.Instance.{Instance};
ghost use Rattle.fb_types_networks.specs.declared.typed.Network.{out-Network};
ghost use Rattle.fb_types_networks.specs.Views.{connection_of};
ghost use Rattle.fb_flat.specs.Sites.{events_in};
ghost use Rattle.fb_flat.specs.Leaves.{values_in};
ghost use Rattle.fb_flat.specs.Placed.{AreNames, first_named};
ghost use Rattle.fb_flat.specs.Bundled.{IsBundled, key_of, seen, ending, source_of, target_of};
ghost use Rattle.fb_flat.specs.Indexes.{IsInside, AreInside};

use crate::bundle::{Bundles, at, by_source, by_target, key};
use crate::position::{Positions, positions};
use fb_types_blocks::Face;
use fb_types_networks::{Body, Connection, Instance, Network};
use std::alloc::{AllocError, Global};
use std::marker::Model;

/// A network with indexes: the positions of its instances by name, its connections by their ends, and what is inside its instances.
#[derive(Drop)]
#[cycle(indexed)]
pub struct Indexed<'a> {
    network: &'a Network,
    positions: Positions,
    events: Bundles<'a>,
    values: Bundles<'a>,
    inside: Vec<Inside<'a>>,
}

/// What is inside an instance: nothing in a leaf; in a composite its interface and its network.
#[derive(Drop)]
#[cycle(indexed)]
pub enum Inside<'a> {
    Leaf,
    Composite(&'a Face, Indexed<'a>),
}

impl<'a> Model for Indexed<'a> {
    ghost use Rattle.fb_types_networks.specs.declared.typed.Network.{Network, out-Network};
    ghost use Rattle.fb_types_networks.specs.contracts.typed.Network as e;
    ghost use Rattle.std.specs.Coded.{codes};

    ghost Value = { Network };

    ghost coded = { Prim.hlevel (codes, e.the_row.coded) };

    ghost use Rattle.fb_flat.specs.Indexes.{IsIndexed, size_of};

    ghost view = { λ a. a.network.now };

    ghost invariant = { λ a. IsIndexed (out-Network a.network.now) a.positions a.events a.values a.inside.items };

    ghost size = { size_of };

    ghost use Rattle.fb_flat.specs.Sizes.{inside_smaller};

    ghost size_decreases = { λ a h. inside_smaller a.network.now a.inside.items h.inside_are };
}

// What is inside an instance, with indexes.
#[cycle(indexing)]
fn within<'a>(alloc: Global, instance: &'a Instance) -> Result<Inside<'a>, AllocError>
    ensures { IfOk result (λ x. IsInside (out-Body instance.now.body) x) }
{
    match &instance.body {
        Body::Basic(_) => Ok(Inside::Leaf),
        Body::Served(_) => Ok(Inside::Leaf),
        Body::Composite(face, network) => Ok(Inside::Composite(face, index(alloc, network)?)),
    }
}

// The event and data connections of a network, by their ends.
fn bundles<'a>(
    alloc: Global,
    network: &'a Network,
) -> Result<(Bundles<'a>, Bundles<'a>), AllocError>
    ensures events_are { IfOk result (λ t. IsBundled source_of (map connection_of (out-Network network.now).events.items) t.0) }
    ensures values_are { IfOk result (λ t. IsBundled target_of (map connection_of (out-Network network.now).values.items) t.1) }
{
    let events = by_source(alloc, &network.events)?;
    match by_target(alloc, &network.values) {
        Ok(values) => Ok((events, values)),
        Err(fault) => {
            drop(events);
            Err(fault)
        }
    }
}

// The positions of a network's instances by name, and its event and data connections by their ends.
fn tables<'a>(
    alloc: Global,
    network: &'a Network,
) -> Result<(Positions, Bundles<'a>, Bundles<'a>), AllocError>
    ensures positions_are { IfOk result (λ t. AreNames (out-Network network.now).instances.items t.0) }
    ensures events_are { IfOk result (λ t. IsBundled source_of (map connection_of (out-Network network.now).events.items) t.1) }
    ensures values_are { IfOk result (λ t. IsBundled target_of (map connection_of (out-Network network.now).values.items) t.2) }
{
    let positions = positions(alloc, &network.instances)?;
    match bundles(alloc, network) {
        Ok((events, values)) => Ok((positions, events, values)),
        Err(fault) => {
            drop(positions);
            Err(fault)
        }
    }
}

// A network with its indexes, by what is inside its instances.
fn with_inside<'a>(
    alloc: Global,
    network: &'a Network,
    inside: Vec<Inside<'a>>,
) -> Result<Indexed<'a>, AllocError>
    requires { AreInside (out-Network network.now).instances.items inside.items }
    ensures { IfOk result (λ i. i ≡ network.now) }
{
    match tables(alloc, network) {
        Ok((positions, events, values)) => Ok(Indexed {
            network,
            positions,
            events,
            values,
            inside,
        }),
        Err(fault) => {
            drop(inside);
            Err(fault)
        }
    }
}

/// A network with its indexes.
#[cycle(indexing)]
pub fn index<'a>(alloc: Global, network: &'a Network) -> Result<Indexed<'a>, AllocError>
    ensures { IfOk result (λ i. i ≡ network.now) }
{
    let mut inside = Vec::new(alloc);
    for instance in &network.instances {
        match within(alloc, instance) {
            Ok(one) => inside.push(one)?,
            Err(fault) => {
                drop(inside);
                return Err(fault);
            }
        }
    }
    with_inside(alloc, network, inside)
}

impl<'a> Indexed<'a> {
    /// The instances, in text order.
    pub fn instances(&self) -> &'a [Instance]
        ensures { result.now ≡ (out-Network self.now).instances.items }
    {
        &self.network.instances
    }

    /// What is inside the instance at a position.
    pub fn inside(&self, position: usize) -> &Inside<'a>
        requires { position < length (out-Network self.now).instances.items }
        ensures { (i : Instance) → slice_get (out-Network self.now).instances.items position ≡ Some i → IsInside (out-Body i.body) result.now }
    {
        &self.inside[position]
    }

    /// The position of the first instance of a name.
    pub fn position(&self, name: &str) -> Option<usize>
        ensures first { MatchOption result (first_named (out-Network self.now).instances.items name.now ≡ None) (λ k. slice_get (out-Network self.now).instances.items k ≡ first_named (out-Network self.now).instances.items name.now) }
        ensures within { IfSome result (λ k. k < length (out-Network self.now).instances.items) }
    {
        self.positions.get(name).copied()
    }

    /// Event connections, in text order, among which are all whose source has this text.
    pub fn events(&self, key: &str) -> Option<&Vec<&'a Connection>>
        ensures { (i : Option Name) (port : Name) → key.now ≡ key_of i port → ending source_of i port (map seen (option_map_or (λ v. v.now.items) result [])) ≡ ending source_of i port (events_in self.now) }
    {
        at(&self.events, key)
    }

    /// Data connections, in text order, among which are all whose target has this text.
    pub fn values(&self, key: &str) -> Option<&Vec<&'a Connection>>
        ensures { (i : Option Name) (port : Name) → key.now ≡ key_of i port → ending target_of i port (map seen (option_map_or (λ v. v.now.items) result [])) ≡ ending target_of i port (values_in self.now) }
    {
        at(&self.values, key)
    }
}

/// Event connections, in text order, among which are all whose source is this port of an instance, or of the composite itself.
pub fn leaving<'t, 'a>(
    alloc: Global,
    indexed: &'t Indexed<'a>,
    instance: Option<&str>,
    port: &str,
) -> Result<Option<&'t Vec<&'a Connection>>, AllocError>
    ensures { IfOk result (λ o. ending source_of (option_map (λ n. n.now) instance.entry) port.now (map seen (option_map_or (λ v. v.now.items) o [])) ≡ ending source_of (option_map (λ n. n.now) instance.entry) port.now (events_in indexed.now)) }
{
    let key = key(alloc, instance, port)?;
    Ok(indexed.events(key.as_str()))
}

/// Data connections, in text order, among which are all whose target is this port of an instance, or of the composite itself.
pub fn arriving<'t, 'a>(
    alloc: Global,
    indexed: &'t Indexed<'a>,
    instance: Option<&str>,
    port: &str,
) -> Result<Option<&'t Vec<&'a Connection>>, AllocError>
    ensures { IfOk result (λ o. ending target_of (option_map (λ n. n.now) instance.entry) port.now (map seen (option_map_or (λ v. v.now.items) o [])) ≡ ending target_of (option_map (λ n. n.now) instance.entry) port.now (values_in indexed.now)) }
{
    let key = key(alloc, instance, port)?;
    Ok(indexed.values(key.as_str()))
}
