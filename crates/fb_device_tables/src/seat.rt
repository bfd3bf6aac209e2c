//! The leaves of a device in order, over all its resources.

ghost use Rattle.std.specs.Prelude.{◌≡◌, ◌≤◌, ◌++◌, length, map, IfOk, OnOk};
ghost use Rattle.fb_model.specs.Typing.{AreDistinct};
ghost use Rattle.st_exec.specs.Cells.{forms_of};
ghost use Rattle.fb_types_blocks.specs.Views.{names_of};
ghost use Rattle.fb_device_tables.specs.Filling.{homes_of, seats_of, numbered, numbered_from, paths_of, most_numbers, AreSeats};

use crate::names::short;
use fb_chart::Store;
use fb_flat::{FlatResource, Leaf};
use fb_types_blocks::insert;
use indexmap::IndexSet;
use st_exec::Layout;
use std::alloc::{AllocError, Global};

/// A leaf, and the number of its resource.
#[derive(Clone, Copy)]
pub(crate) struct Home<'a> {
    pub(crate) resource: u16,
    pub(crate) leaf: &'a Leaf,
}

/// A leaf with the number of its resource, and where its working and its issued values lie.
#[derive(Clone, Copy)]
pub(crate) struct Seat<'a> {
    pub(crate) resource: u16,
    pub(crate) leaf: &'a Leaf,
    pub(crate) own: &'a Layout,
    pub(crate) issued: &'a Layout,
}

// Adds the leaves of a resource at the end.
fn add_leaves<'a>(
    homes: &mut Vec<Home<'a>>,
    resource: u16,
    leaves: &'a [Leaf],
) -> Result<(), AllocError>
    ensures { OnOk result (homes_of homes.new.items ≡ homes_of homes.old.items ++ numbered resource leaves.now) }
{
    for leaf in leaves {
        homes.push(Home { resource, leaf })?;
    }
    Ok(())
}

/// The leaves of resources in order, each with the number of its resource.
pub(crate) fn homes<'a>(
    alloc: Global,
    resources: &'a [FlatResource],
) -> Result<Vec<Home<'a>>, AllocError>
    ensures { length resources.now ≤ most_numbers → IfOk result (λ v. homes_of v.items ≡ numbered_from 0 resources.now) }
{
    let mut homes = Vec::new(alloc);
    for index in 0..resources.len() {
        add_leaves(&mut homes, short(index), &resources[index].leaves)?;
    }
    Ok(homes)
}

/// Leaves in order, each with where its values lie.
pub(crate) fn seats<'a>(
    alloc: Global,
    homes: &[Home<'a>],
    own: &'a [Store],
    issued: &'a [Store],
) -> Result<Vec<Seat<'a>>, AllocError>
    requires own { length own.now ≡ length homes.now }
    requires issued { length issued.now ≡ length homes.now }
    ensures { IfOk result (λ v. AreSeats (homes_of homes.now) (map forms_of own.now) (map forms_of issued.now) (seats_of v.items)) }
{
    let mut seats = Vec::new(alloc);
    for index in 0..homes.len() {
        let home = homes[index];
        seats.push(Seat {
            resource: home.resource,
            leaf: home.leaf,
            own: own[index].layout(),
            issued: issued[index].layout(),
        })?;
    }
    Ok(seats)
}

/// The paths of leaves, in order.
pub(crate) fn paths(alloc: Global, seats: &[Seat]) -> Result<IndexSet<String>, AllocError>
    ensures { AreDistinct (paths_of (seats_of seats.now)) → IfOk result (λ t. names_of t ≡ paths_of (seats_of seats.now)) }
{
    let mut names = IndexSet::new(alloc);
    for seat in seats {
        let _ = insert(&mut names, &seat.leaf.path)?;
    }
    Ok(names)
}
