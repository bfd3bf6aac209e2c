//! Where the numbers of one variable lie.

ghost use Rattle.std.specs.Prelude.{◌≡◌, ◌<◌, ◌^◌, ◌+◌, ◌++◌, [], ◌∷◌, true, None, IfSome, IfOk, OnOk, OnErr};
ghost use Rattle.st_exec.specs.Forms.{slot_count};
ghost use Rattle.st_exec.specs.Laid.{found, forms_in, IsLaid};

use indexmap::IndexMap;
use std::alloc::{AllocError, Global};

/// Where the numbers of a variable are.
#[derive(Clone, Copy)]
pub struct Location {
    /// The slot of the first of them.
    pub first: usize,
    /// The lowest and the highest index of an array.
    pub bounds: Option<(i64, i64)>,
}

impl Location {
    /// How many slots the variable has.
    pub fn count(&self) -> usize
        requires { slot_count self.now.bounds < 2 ^ 64 }
        ensures { result ≡ slot_count self.now.bounds }
    {
        match self.bounds {
            None => 1,
            Some((low, high)) => high.abs_diff(low) as usize + 1,
        }
    }
}

/// The location of a variable.
pub(crate) fn find(locations: &IndexMap<String, Location>, name: &str) -> Option<Location>
    ensures { result ≡ found locations.now.entries name.now }
{
    locations.get(name).copied()
}

// The end of the slots that begin at one, if there can be so many.
fn end_of(first: usize, bounds: Option<(i64, i64)>) -> Option<usize>
    ensures { IfSome result (λ end. end ≡ first + slot_count bounds) }
{
    match bounds {
        None => first.checked_add(1),
        Some((low, high)) => {
            let last = first.checked_add(high.abs_diff(low) as usize)?;
            last.checked_add(1)
        }
    }
}

/// Adds a variable of a new name, whose slots begin behind all others, and answers where they end.
pub(crate) fn give(
    alloc: Global,
    locations: &mut IndexMap<String, Location>,
    first: usize,
    name: &str,
    bounds: Option<(i64, i64)>,
) -> Result<usize, AllocError>
    requires absent { found locations.old.entries name.now ≡ None }
    requires laid { IsLaid 0 locations.old.entries first }
    ensures forms { OnOk result (forms_in locations.new.entries ≡ forms_in locations.old.entries ++ (name.now, bounds) ∷ []) }
    ensures laid { IfOk result (λ end. IsLaid 0 locations.new.entries end) }
    ensures unchanged { OnErr result (locations.new.entries ≡ locations.old.entries) }
{
    let Some(end) = end_of(first, bounds) else {
        return Err(AllocError);
    };
    let key = String::from_str(alloc, name)?;
    match locations.insert(key, Location { first, bounds }) {
        Ok(_) => Ok(end),
        Err(_) => Err(AllocError),
    }
}

/// Whether two tables have the same variables in the same order.
pub(crate) fn same_locations(
    one: &IndexMap<String, Location>,
    other: &IndexMap<String, Location>,
) -> bool
    ensures { result ≡ true → forms_in one.now.entries ≡ forms_in other.now.entries }
{
    if one.len() != other.len() {
        return false;
    }
    for at in 0..one.len() {
        let (Some((name, location)), Some((next, like))) = (one.get_index(at), other.get_index(at))
        else {
            return false;
        };
        if name != next || location.bounds != like.bounds {
            return false;
        }
    }
    true
}
