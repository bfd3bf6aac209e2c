//! The leaves of a device by their paths.

ghost use Rattle.std.specs.Prelude.{◌≡◌, ◌++◌, ◌∷◌, [], map, IfOk, OnOk};
ghost use Rattle.fb_model.specs.Names.{Name};
ghost use Rattle.fb_check_ranges.specs.Places.{leaves_in, leaf_named, under, ArePlaces, or_else};

use fb_flat::{FlatResource, Leaf};
use indexmap::IndexMap;
use std::alloc::{AllocError, Global};

/// Leaves by their paths.
pub type Places<'a> = IndexMap<String, &'a Leaf>;

// Adds leaves at the end.
fn add_leaves<'a>(leaves: &'a [Leaf], all: &mut Vec<&'a Leaf>) -> Result<(), AllocError>
    ensures { OnOk result (map (λ l. l.now) all.new.items ≡ map (λ l. l.now) all.old.items ++ leaves.now) }
{
    for leaf in leaves {
        all.push(leaf)?;
    }
    Ok(())
}

/// All leaves of resources, in order.
pub fn leaves_of<'a>(
    alloc: Global,
    resources: &'a [FlatResource],
) -> Result<Vec<&'a Leaf>, AllocError>
    ensures { IfOk result (λ v. map (λ l. l.now) v.items ≡ leaves_in resources.now) }
{
    let mut all = Vec::new(alloc);
    for resource in resources {
        add_leaves(resource.leaves.as_slice(), &mut all)?;
    }
    Ok(all)
}

// Puts a leaf under its path, unless one stands there.
fn put<'a>(alloc: Global, places: &mut Places<'a>, leaf: &'a Leaf) -> Result<(), AllocError>
    ensures { OnOk result ((x : Name) → under places.new x ≡ or_else (under places.old x) (leaf_named (leaf.now ∷ []) x)) }
{
    let path = leaf.path.as_str();
    if !places.contains_key(path) {
        places.insert(String::from_str(alloc, path)?, leaf)?;
    }
    Ok(())
}

/// Leaves by their paths: the first of each path.
pub fn places<'a>(alloc: Global, leaves: &[&'a Leaf]) -> Result<Places<'a>, AllocError>
    ensures { IfOk result (λ m. ArePlaces (map (λ l. l.now) leaves.now) m) }
{
    let mut places = IndexMap::new(alloc);
    for leaf in leaves {
        put(alloc, &mut places, *leaf)?;
    }
    Ok(places)
}
