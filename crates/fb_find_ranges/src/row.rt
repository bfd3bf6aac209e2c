//! The rows RANGE of a certificate.

ghost use Rattle.std.specs.Prelude.{◌≡◌, true, [], ◌∷◌, map, length, IfOk, OnOk};
ghost use Rattle.std.specs.List.{All, AllByRecursion, IsDistinct};
ghost use Rattle.std.specs.Str.{bytes_eq};
ghost use Rattle.fb_model.specs.Certificates.{all_leaves, is_boolean as is_true};
ghost use Rattle.fb_model.specs.System.{System};
ghost use Rattle.fb_model.specs.Wires.{Charted};
ghost use Rattle.fb_model_laws.specs.Words.{IsWordyDevice};
ghost use Rattle.fb_ranges_intervals.specs.Views.{span_of};
ghost use Rattle.fb_ranges.specs.Views.{spans_of};
ghost use Rattle.fb_types_blocks.specs.Views.{declared_of, variables_of, block_of};
ghost use Rattle.fb_model.specs.BlockTyping.{variable_of};
ghost use Rattle.fb_flat.specs.Sites.{dotted};
ghost use Rattle.fb_flat.specs.Tables.{AreDevices};
ghost use Rattle.fb_cert.specs.Adding.{is_upper_path};
ghost use Rattle.fb_cert.specs.Views.{rows_of};
ghost use Rattle.fb_find_ranges.specs.Found.{spelled};
ghost use Rattle.fb_check_rows.specs.declared.kind.RowKind.TheVariants.{Range};
ghost use Rattle.fb_check_rows.specs.Texts.{texts_of};
ghost use Rattle.fb_find_ranges.specs.AddedRows.{added, adding, all_rows, flat_leaves, kind_rows, leaf_rows, variable_rows, AddsRanges};

use fb_cert::{Certificate, Row};
use fb_check_ranges::leaves_of;
use fb_flat::{Body, Flat, FlatDevice, Leaf, joined};
use fb_ranges::Ranges;
use fb_ranges_intervals::Interval;
use fb_types_blocks::{Block, Variable, Variables};
use fb_words::ElemType;
use std::alloc::{AllocError, Global};

// Adds a row, if a text can say it and its path stands in no row.
fn add_row(
    alloc: Global,
    path: &str,
    name: &str,
    range: Interval,
    certificate: &mut Certificate,
) -> Result<(), AllocError>
    ensures { OnOk result (rows_of certificate.new ≡ added (dotted path.now name.now, span_of range) (rows_of certificate.old)) }
{
    let text = joined(alloc, path, name)?;
    let _ = certificate.add(alloc, Row::Range(text.as_str(), range))?;
    Ok(())
}

// Whether a type has the two truth values alone.
fn is_boolean(of: ElemType) -> bool
    ensures { result ≡ is_true of }
{
    match of {
        ElemType::Bool => true,
        _ => false,
    }
}

// Adds the row of a variable that is not BOOL.
fn add_variable(
    alloc: Global,
    path: &str,
    name: &str,
    variable: &Variable,
    table: &Ranges,
    certificate: &mut Certificate,
) -> Result<(), AllocError>
    ensures { OnOk result (rows_of certificate.new ≡ adding (variable_rows (spans_of table.now) path.now (variable_of (declared_of name.now variable.now) ∷ [])) (rows_of certificate.old)) }
{
    if is_boolean(variable.of_type) {
        return Ok(());
    }
    add_row(alloc, path, name, table.find(name), certificate)
}

// The same of each variable.
fn add_variables(
    alloc: Global,
    path: &str,
    variables: &Variables,
    table: &Ranges,
    certificate: &mut Certificate,
) -> Result<(), AllocError>
    ensures { OnOk result (rows_of certificate.new ≡ adding (variable_rows (spans_of table.now) path.now (variables_of variables.now)) (rows_of certificate.old)) }
{
    for index in 0..variables.len() {
        let Some((name, variable)) = variables.get_index(index) else {
            return Ok(());
        };
        add_variable(alloc, path, name.as_str(), variable, table, certificate)?;
    }
    Ok(())
}

// Adds the rows of the variables of a block.
fn add_block(
    alloc: Global,
    path: &str,
    block: &Block,
    table: &Ranges,
    certificate: &mut Certificate,
) -> Result<(), AllocError>
    ensures { OnOk result (rows_of certificate.new ≡ adding (kind_rows (spans_of table.now) path.now (Charted (block_of block.now))) (rows_of certificate.old)) }
{
    add_variables(alloc, path, &block.face.inputs, table, certificate)?;
    add_variables(alloc, path, &block.face.outputs, table, certificate)?;
    add_variables(alloc, path, &block.internals, table, certificate)
}

// Adds the rows of a leaf.
fn add_leaf(
    alloc: Global,
    leaf: &Leaf,
    table: &Ranges,
    certificate: &mut Certificate,
) -> Result<(), AllocError>
    ensures { OnOk result (rows_of certificate.new ≡ adding (leaf_rows (spans_of table.now) leaf.now) (rows_of certificate.old)) }
{
    match &leaf.body {
        Body::Basic(block) => add_block(alloc, leaf.path.as_str(), block, table, certificate),
        Body::Served(_) => Ok(()),
    }
}

// Adds the rows of leaves, each by its own table.
fn add_leaves(
    alloc: Global,
    leaves: &[&Leaf],
    tables: &[Ranges],
    certificate: &mut Certificate,
) -> Result<(), AllocError>
    ensures { OnOk result (rows_of certificate.new ≡ adding (all_rows (map spans_of tables.now) (map (λ l. l.now) leaves.now)) (rows_of certificate.old)) }
{
    for index in 0..leaves.len() {
        let Some(table) = tables.get(index) else {
            return Ok(());
        };
        add_leaf(alloc, leaves[index], table, certificate)?;
    }
    Ok(())
}

// The leaves of all devices.
fn leaves_in<'a>(alloc: Global, devices: &'a [FlatDevice]) -> Result<Vec<&'a Leaf>, AllocError>
    ensures { IfOk result (λ v. map (λ l. l.now) v.items ≡ flat_leaves devices.now) }
{
    let mut all = Vec::new(alloc);
    for device in devices {
        let mut own = leaves_of(alloc, device.resources.as_slice())?;
        all.append(&mut own)?;
    }
    Ok(all)
}

/// Adds the rows RANGE of all variables that are not BOOL, leaf by leaf, each with its range in the leaf's table.
pub fn add_ranges(
    alloc: Global,
    flat: &Flat,
    tables: &[Ranges],
    certificate: &mut Certificate,
) -> Result<(), AllocError>
    ensures { (s : System) → AreDevices flat.now.devices.items s.devices → AllByRecursion IsWordyDevice s.devices → All (λ t. is_upper_path t ≡ true) (texts_of Range flat.now.devices.items) → IsDistinct bytes_eq (texts_of Range flat.now.devices.items)
        → (rows_of certificate.old).ranges ≡ [] → length (map spans_of tables.now) ≡ length (all_leaves s.devices)
        → OnOk result (AddsRanges (spelled (map spans_of tables.now) (all_leaves s.devices)) (rows_of certificate.old) (rows_of certificate.new)) }
{
    let leaves = leaves_in(alloc, flat.devices.as_slice())?;
    add_leaves(alloc, leaves.as_slice(), tables, certificate)
}
