//! Instances by their names.

ghost use Rattle.std.specs.Prelude.{◌≡◌, Some, IfOk, OnOk, string_bytes, if◌then◌else◌};
ghost use Rattle.std.specs.Option.{unwrap_or};
ghost use Rattle.std.specs.HashMap.{get_by_text};
ghost use Rattle.std.specs.Str.{bytes_eq};
ghost use Rattle.fb_model.specs.Names.{Name};
ghost use Rattle.fb_flat.specs.Placed.{AreNames};

use fb_types_networks::Instance;
use indexmap::IndexMap;
use std::alloc::{AllocError, Global};

/// The positions of the first instances of names.
pub type Positions = IndexMap<String, usize>;

// Adds the position of an instance, unless there is one of its name.
fn note(positions: &mut Positions, name: &String, position: usize) -> Result<(), AllocError>
    ensures { OnOk result ((x : Name) → get_by_text positions.new x ≡ (if bytes_eq x (string_bytes name.now) then Some (unwrap_or (get_by_text positions.old x) position) else get_by_text positions.old x)) }
{
    positions.entry(name.clone()?)?.or_insert(position);
    Ok(())
}

/// The positions of instances by their names.
pub fn positions(alloc: Global, instances: &[Instance]) -> Result<Positions, AllocError>
    ensures { IfOk result (AreNames instances.now) }
{
    let mut positions = IndexMap::new(alloc);
    for (position, instance) in instances.iter().enumerate() {
        note(&mut positions, &instance.name, position)?;
    }
    Ok(positions)
}
