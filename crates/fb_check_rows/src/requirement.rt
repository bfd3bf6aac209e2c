//! The rows that a system must have, kind by kind.

ghost use Rattle.std.specs.Prelude.{◌≡◌, [], map, string_bytes, IfOk, IfErr, OnOk};
ghost use Rattle.std.specs.List.{flat_map};
ghost use Rattle.fb_model.specs.Wires.{Charted, Serviced};
ghost use Rattle.fb_model.specs.Certificates.{is_boolean as is_true};
ghost use Rattle.fb_types_blocks.specs.Views.{names_of, variables_of, block_of};
ghost use Rattle.fb_types_services.specs.Views.{service_of};
ghost use Rattle.fb_flat.specs.Sites.{dotted};
ghost use Rattle.fb_check_rows.specs.declared.kind.RowKind.TheVariants.{Weight, Range};
ghost use Rattle.fb_check_rows.specs.Members.{gathered, with_name};
ghost use Rattle.fb_check_rows.specs.Texts.{texts_in, ranged_names, row_names, leaf_texts, resource_texts, device_texts, texts_of};
ghost use Rattle.fb_check_rows.specs.Faults.{IsMemory};

use crate::kind::RowKind;
use fb_faults::RowFault;
use fb_flat::{Body, Flat, FlatDevice, FlatResource, Leaf, joined};
use fb_types_blocks::{Block, Variables};
use fb_types_services::Service;
use fb_words::ElemType;
use indexmap::{IndexMap, IndexSet};
use std::alloc::Global;

// A row is required.
fn require(rows: &mut IndexSet<String>, row: String) -> Result<(), RowFault>
    ensures rows { OnOk result (names_of rows.new ≡ with_name (names_of rows.old) (string_bytes row)) }
    ensures memory { IfErr result IsMemory }
{
    let _ = rows.insert(row)?;
    Ok(())
}

// The row of a name behind a path is required.
fn require_name(
    alloc: Global,
    rows: &mut IndexSet<String>,
    path: &str,
    name: &str,
) -> Result<(), RowFault>
    ensures rows { OnOk result (names_of rows.new ≡ with_name (names_of rows.old) (dotted path.now name.now)) }
    ensures memory { IfErr result IsMemory }
{
    require(rows, joined(alloc, path, name)?)
}

// The rows of names are required.
fn require_names(
    alloc: Global,
    rows: &mut IndexSet<String>,
    path: &str,
    names: &[&str],
) -> Result<(), RowFault>
    ensures rows { OnOk result (names_of rows.new ≡ gathered (names_of rows.old) (texts_in path.now (map (λ n. n.now) names.now))) }
    ensures memory { IfErr result IsMemory }
{
    for name in names {
        require_name(alloc, rows, path, *name)?;
    }
    Ok(())
}

// The rows of all names of a table are required.
fn require_table<V>(
    alloc: Global,
    rows: &mut IndexSet<String>,
    path: &str,
    table: &IndexMap<String, V>,
) -> Result<(), RowFault>
    ensures rows { OnOk result (names_of rows.new ≡ gathered (names_of rows.old) (texts_in path.now (map (λ p. string_bytes p.0) table.now.entries))) }
    ensures memory { IfErr result IsMemory }
{
    for index in 0..table.len() {
        let Some((name, _)) = table.get_index(index) else {
            return Ok(());
        };
        require_name(alloc, rows, path, name.as_str())?;
    }
    Ok(())
}

// Whether a type has the two truth values alone.
fn is_boolean(of: ElemType) -> bool
    ensures { result ≡ is_true of }
{
    match of {
        ElemType::Bool => true,
        _ => false,
    }
}

// The rows RANGE of variables are required: of those that are not BOOL.
fn require_variables(
    alloc: Global,
    rows: &mut IndexSet<String>,
    path: &str,
    variables: &Variables,
) -> Result<(), RowFault>
    ensures rows { OnOk result (names_of rows.new ≡ gathered (names_of rows.old) (texts_in path.now (ranged_names (variables_of variables.now)))) }
    ensures memory { IfErr result IsMemory }
{
    for index in 0..variables.len() {
        let Some((name, variable)) = variables.get_index(index) else {
            return Ok(());
        };
        if !is_boolean(variable.of_type) {
            require_name(alloc, rows, path, name.as_str())?;
        }
    }
    Ok(())
}

// The rows RANGE of a basic block are required.
fn require_ranges(
    alloc: Global,
    rows: &mut IndexSet<String>,
    path: &str,
    block: &Block,
) -> Result<(), RowFault>
    ensures rows { OnOk result (names_of rows.new ≡ gathered (names_of rows.old) (texts_in path.now (row_names Range (Charted (block_of block.now))))) }
    ensures memory { IfErr result IsMemory }
{
    require_variables(alloc, rows, path, &block.face.inputs)?;
    require_variables(alloc, rows, path, &block.face.outputs)?;
    require_variables(alloc, rows, path, &block.internals)
}

// The rows of a basic block are required.
fn require_block(
    alloc: Global,
    kind: RowKind,
    rows: &mut IndexSet<String>,
    path: &str,
    block: &Block,
) -> Result<(), RowFault>
    ensures rows { OnOk result (names_of rows.new ≡ gathered (names_of rows.old) (texts_in path.now (row_names kind (Charted (block_of block.now))))) }
    ensures memory { IfErr result IsMemory }
{
    match kind {
        RowKind::Charge => require_table(alloc, rows, path, &block.states),
        RowKind::Weight => require_table(alloc, rows, path, &block.face.event_inputs),
        RowKind::Range => require_ranges(alloc, rows, path, block),
        RowKind::Depth => Ok(()),
    }
}

// The rows WEIGHT of a service are required.
fn require_events(
    alloc: Global,
    rows: &mut IndexSet<String>,
    path: &str,
    service: &Service,
) -> Result<(), RowFault>
    ensures rows { OnOk result (names_of rows.new ≡ gathered (names_of rows.old) (texts_in path.now (row_names Weight (Serviced (service_of service.now))))) }
    ensures memory { IfErr result IsMemory }
{
    require_names(alloc, rows, path, service.event_inputs())?;
    match service.arrival() {
        Some(event) => require_name(alloc, rows, path, event),
        None => Ok(()),
    }
}

// The rows of a service are required.
fn require_service(
    alloc: Global,
    kind: RowKind,
    rows: &mut IndexSet<String>,
    path: &str,
    service: &Service,
) -> Result<(), RowFault>
    ensures rows { OnOk result (names_of rows.new ≡ gathered (names_of rows.old) (texts_in path.now (row_names kind (Serviced (service_of service.now))))) }
    ensures memory { IfErr result IsMemory }
{
    match kind {
        RowKind::Weight => require_events(alloc, rows, path, service),
        RowKind::Charge | RowKind::Range | RowKind::Depth => Ok(()),
    }
}

// The rows of a leaf are required.
fn require_leaf(
    alloc: Global,
    kind: RowKind,
    rows: &mut IndexSet<String>,
    leaf: &Leaf,
) -> Result<(), RowFault>
    ensures rows { OnOk result (names_of rows.new ≡ gathered (names_of rows.old) (leaf_texts kind leaf.now)) }
    ensures memory { IfErr result IsMemory }
{
    match &leaf.body {
        Body::Basic(block) => require_block(alloc, kind, rows, leaf.path.as_str(), block),
        Body::Served(service) => require_service(alloc, kind, rows, leaf.path.as_str(), service),
    }
}

// The rows of leaves are required.
fn require_leaves(
    alloc: Global,
    kind: RowKind,
    rows: &mut IndexSet<String>,
    leaves: &[Leaf],
) -> Result<(), RowFault>
    ensures rows { OnOk result (names_of rows.new ≡ gathered (names_of rows.old) (flat_map (leaf_texts kind) leaves.now)) }
    ensures memory { IfErr result IsMemory }
{
    for leaf in leaves {
        require_leaf(alloc, kind, rows, leaf)?;
    }
    Ok(())
}

// The rows of a resource are required.
fn require_resource(
    alloc: Global,
    kind: RowKind,
    rows: &mut IndexSet<String>,
    resource: &FlatResource,
) -> Result<(), RowFault>
    ensures rows { OnOk result (names_of rows.new ≡ gathered (names_of rows.old) (resource_texts kind resource.now)) }
    ensures memory { IfErr result IsMemory }
{
    match kind {
        RowKind::Charge => require_leaves(alloc, kind, rows, resource.leaves.as_slice()),
        RowKind::Weight => require_leaves(alloc, kind, rows, resource.leaves.as_slice()),
        RowKind::Range => require_leaves(alloc, kind, rows, resource.leaves.as_slice()),
        RowKind::Depth => require(rows, resource.path.clone()?),
    }
}

// The rows of a device are required.
fn require_device(
    alloc: Global,
    kind: RowKind,
    rows: &mut IndexSet<String>,
    device: &FlatDevice,
) -> Result<(), RowFault>
    ensures rows { OnOk result (names_of rows.new ≡ gathered (names_of rows.old) (device_texts kind device.now)) }
    ensures memory { IfErr result IsMemory }
{
    for resource in &device.resources {
        require_resource(alloc, kind, rows, resource)?;
    }
    Ok(())
}

/// The rows of a kind that a system must have, in text order.
pub fn required(alloc: Global, kind: RowKind, flat: &Flat) -> Result<IndexSet<String>, RowFault>
    ensures rows { IfOk result (λ rows. names_of rows ≡ gathered [] (texts_of kind flat.now.devices.items)) }
    ensures memory { IfErr result IsMemory }
{
    let mut rows = IndexSet::new(alloc);
    for device in &flat.devices {
        require_device(alloc, kind, &mut rows, device)?;
    }
    Ok(rows)
}
