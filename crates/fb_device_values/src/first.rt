//! The first values of all leaves of a device.

ghost use Rattle.std.specs.Prelude.{◌≡◌, ◌<◌, ◌++◌, List, Some, length, slice_get, IfOk, OnOk};
ghost use Rattle.fb_model.specs.System.{Device};
ghost use Rattle.fb_model.specs.Wires.{leaves};
ghost use Rattle.fb_verified.specs.Checked.{system_in};
ghost use Rattle.fb_flat.specs.declared.flat.Leaf as flat;
ghost use Rattle.fb_device_values.specs.First.{HaveFirstCells};
ghost use Rattle.fb_device_values.specs.Filling.{AreFilled, leaves_in};

use crate::leaf::{issued_values, own_values};
use fb_flat::{FlatResource, Leaf};
use fb_verified::Verified;
use st_exec::{Layout, Store};
use std::alloc::{AllocError, Global};
use std::rc::Rc;

/// The first values of all blocks of a device, by their numbers: working values of all variables, and issued values of outputs.
#[derive(Drop)]
pub struct FirstValues {
    pub own: Vec<Store>,
    pub issued: Vec<Store>,
}

// Adds the values of leaves at the end.
fn add_leaves(
    alloc: Global,
    known: &mut Vec<Rc<Layout>>,
    values: &mut FirstValues,
    leaves: &[Leaf],
) -> Result<(), AllocError>
    ensures { OnOk result ((before : List flat.Leaf) → AreFilled before values.old.own.items values.old.issued.items → AreFilled (before ++ leaves.now) values.new.own.items values.new.issued.items) }
{
    for leaf in leaves {
        values.own.push(own_values(alloc, known, leaf)?)?;
        values.issued.push(issued_values(alloc, known, leaf)?)?;
    }
    Ok(())
}

// The values of the leaves of resources, in order.
fn leaf_values(alloc: Global, resources: &[FlatResource]) -> Result<FirstValues, AllocError>
    ensures { IfOk result (λ f. AreFilled (leaves_in resources.now) f.own.items f.issued.items) }
{
    let mut known = Vec::new(alloc);
    let mut values = FirstValues {
        own: Vec::new(alloc),
        issued: Vec::new(alloc),
    };
    for resource in resources {
        add_leaves(alloc, &mut known, &mut values, &resource.leaves)?;
    }
    Ok(values)
}

/// The first values of all blocks of the device of this number, counted from 0, by the blocks' numbers.
///
/// An input has the constant that it always takes, and any other variable its start value, which is 0 where none is declared.
pub fn first_values(
    alloc: Global,
    verified: &Verified,
    device: usize,
) -> Result<FirstValues, AllocError>
    requires within { device < length (system_in verified.now).devices }
    ensures { (d : Device) → slice_get (system_in verified.now).devices device ≡ Some d → IfOk result (λ f. HaveFirstCells (leaves d) f.own.items f.issued.items) }
{
    verified.fits();
    leaf_values(alloc, &verified.flat().devices[device].resources)
}
