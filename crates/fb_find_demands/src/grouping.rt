//! Inequalities put together place by place.

ghost use Rattle.std.specs.Prelude.{◌≡◌, ◌++◌, ◌∷◌, [], List, length, IfOk, OnOk};
ghost use Rattle.fb_find_laws.specs.Nodes.{Numbered, AreGrouped};
ghost use Rattle.fb_find_graph.specs.Views.{system_of};
ghost use Rattle.fb_find_demands.specs.Rights.{right_of, rights_of};

use crate::right::Right;
use fb_find_graph::Alternative;
use std::alloc::{AllocError, Global};

// So many places without inequalities.
fn empty(alloc: Global, count: usize) -> Result<Vec<Vec<Alternative>>, AllocError>
    ensures grouped { IfOk result (λ v. AreGrouped count [] (system_of v.items)) }
    ensures sized { IfOk result (λ v. length v.items ≡ count) }
{
    let mut places = Vec::new(alloc);
    for _ in 0..count {
        places.push(Vec::new(alloc))?;
    }
    Ok(places)
}

// Puts an inequality behind those of its place, if there is such a place.
fn put(places: &mut Vec<Vec<Alternative>>, right: Right) -> Result<(), AllocError>
    ensures grouped { (rs : List Numbered) → AreGrouped (length places.old.items) rs (system_of places.old.items) → OnOk result (AreGrouped (length places.old.items) (rs ++ right_of right ∷ []) (system_of places.new.items)) }
    ensures sized { OnOk result (length places.new.items ≡ length places.old.items) }
{
    let Right {
        node,
        constant,
        terms,
    } = right;
    if node < places.len() {
        places[node].push(Alternative { constant, terms })?;
    }
    Ok(())
}

/// The inequalities of each of so many places, in their order.
pub fn group(
    alloc: Global,
    count: usize,
    rights: Vec<Right>,
) -> Result<Vec<Vec<Alternative>>, AllocError>
    ensures grouped { IfOk result (λ v. AreGrouped count (rights_of rights.items) (system_of v.items)) }
    ensures sized { IfOk result (λ v. length v.items ≡ count) }
{
    let mut places = empty(alloc, count)?;
    for right in rights {
        put(&mut places, right)?;
    }
    Ok(places)
}
