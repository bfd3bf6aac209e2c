//! The first values of one leaf.

ghost use Rattle.std.specs.Prelude.{◌≡◌, ◌++◌, IfOk, OnOk};
ghost use Rattle.fb_device_values.specs.Drafts.{Holds, cells_in};
ghost use Rattle.fb_device_values.specs.Filling.{IsSmall, output_cells, internal_cells, own_cells};

use crate::declare::{add_inputs, add_variables};
use crate::draft::Draft;
use crate::making::store_of;
use crate::port::add_outputs;
use fb_flat::{Body, Leaf};
use st_exec::{Layout, Store};
use std::alloc::{AllocError, Global};
use std::rc::Rc;

// Adds the outputs of a leaf.
fn add_given(alloc: Global, drafts: &mut Vec<Draft>, body: &Body) -> Result<(), AllocError>
    ensures { IsSmall body.now → OnOk result (cells_in drafts.new.items ≡ cells_in drafts.old.items ++ output_cells body.now) }
{
    match body {
        Body::Basic(block) => add_variables(alloc, drafts, &block.face.outputs),
        Body::Served(service) => add_outputs(alloc, drafts, service),
    }
}

// Adds the internal variables of a leaf.
fn add_internals(alloc: Global, drafts: &mut Vec<Draft>, body: &Body) -> Result<(), AllocError>
    ensures { OnOk result (cells_in drafts.new.items ≡ cells_in drafts.old.items ++ internal_cells body.now) }
{
    match body {
        Body::Basic(block) => add_variables(alloc, drafts, &block.internals),
        Body::Served(_) => Ok(()),
    }
}

// All variables of a leaf.
fn own_drafts(alloc: Global, leaf: &Leaf) -> Result<Vec<Draft>, AllocError>
    ensures { IsSmall leaf.now.body → IfOk result (λ ds. cells_in ds.items ≡ own_cells leaf.now) }
{
    let mut drafts = Vec::new(alloc);
    add_inputs(alloc, &mut drafts, &leaf.body, &leaf.inputs)?;
    add_given(alloc, &mut drafts, &leaf.body)?;
    add_internals(alloc, &mut drafts, &leaf.body)?;
    Ok(drafts)
}

// The outputs of a leaf.
fn output_drafts(alloc: Global, body: &Body) -> Result<Vec<Draft>, AllocError>
    ensures { IsSmall body.now → IfOk result (λ ds. cells_in ds.items ≡ output_cells body.now) }
{
    let mut drafts = Vec::new(alloc);
    add_given(alloc, &mut drafts, body)?;
    Ok(drafts)
}

/// The working values of a leaf, of all its variables.
pub(crate) fn own_values(
    alloc: Global,
    known: &mut Vec<Rc<Layout>>,
    leaf: &Leaf,
) -> Result<Store, AllocError>
    ensures { IsSmall leaf.now.body → IfOk result (λ s. Holds s (own_cells leaf.now)) }
{
    let drafts = own_drafts(alloc, leaf)?;
    store_of(alloc, known, &drafts)
}

/// The issued values of a leaf, of its outputs.
pub(crate) fn issued_values(
    alloc: Global,
    known: &mut Vec<Rc<Layout>>,
    leaf: &Leaf,
) -> Result<Store, AllocError>
    ensures { IsSmall leaf.now.body → IfOk result (λ s. Holds s (output_cells leaf.now.body)) }
{
    let drafts = output_drafts(alloc, &leaf.body)?;
    store_of(alloc, known, &drafts)
}
