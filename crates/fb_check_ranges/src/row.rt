//! The rows of variables.

ghost use Rattle.std.specs.Prelude.{◌≡◌, string_bytes, IfOk, OnOk};
ghost use Rattle.fb_model.specs.Clear.{reset};
ghost use Rattle.fb_model.specs.Store.{variable_names};
ghost use Rattle.fb_model.specs.Wires as wires;
ghost use Rattle.fb_model.specs.Wires.{Charted, Serviced};
ghost use Rattle.fb_model.specs.Ranges.{variables, rows};
ghost use Rattle.fb_model.specs.CertificateText.{names_in};
ghost use Rattle.fb_model_laws.specs.Words.{IsWordyLeaf};
ghost use Rattle.fb_cert.specs.Views.{certificate_of};
ghost use Rattle.fb_flat.specs.Leaves.{kind_of};
ghost use Rattle.fb_types_blocks.specs.Views.{block_of, variables_of};
ghost use Rattle.fb_types_services.specs.Views.{service_of};
ghost use Rattle.fb_ranges_intervals.specs.Views.{span_of};
ghost use Rattle.fb_ranges.specs.Views.{spans_of};
ghost use Rattle.fb_check_ranges.specs.Rows.{row_in, type_in, typed_row, rows_in};
ghost use Rattle.fb_check_ranges.specs.Clearing.{rows_of_block};

use crate::span::numbers;
use fb_cert::Certificate;
use fb_flat::{Body, Leaf, joined};
use fb_ranges::Ranges;
use fb_ranges_intervals::{Interval, whole};
use fb_types_blocks::{Block, Variables};
use fb_types_services::Service;
use fb_words::ElemType;
use std::alloc::{AllocError, Global};

/// The row of a variable of this name and type, and where it has none all numbers of the type.
pub(crate) fn row(
    alloc: Global,
    certificate: &Certificate,
    path: &str,
    name: &str,
    of: ElemType,
) -> Result<Interval, AllocError>
    ensures { IfOk result (λ r. span_of r ≡ row_in certificate.now path.now name.now of) }
{
    let text = joined(alloc, path, name)?;
    match certificate.range(text.as_str()) {
        Some(range) => Ok(range),
        None => Ok(whole(of)),
    }
}

// The type of the variable of a name among these.
fn type_in(variables: &Variables, name: &str) -> Option<ElemType>
    ensures { result ≡ type_in (variables_of variables.now) name.now }
{
    let variable = variables.get(name).copied()?;
    Some(variable.of_type)
}

// The same among the variables of a block.
fn type_named(block: &Block, name: &str) -> Option<ElemType>
    ensures { result ≡ type_in (variables (Charted (block_of block.now))) name.now }
{
    match type_in(&block.face.inputs, name) {
        Some(of) => Some(of),
        None => match type_in(&block.face.outputs, name) {
            Some(of) => Some(of),
            None => type_in(&block.internals, name),
        },
    }
}

// The row of the variable of a name, and all numbers of LINT where there is none.
fn row_named(
    alloc: Global,
    certificate: &Certificate,
    path: &str,
    block: &Block,
    name: &str,
) -> Result<Interval, AllocError>
    ensures { IfOk result (λ r. span_of r ≡ rows_of_block certificate.now path.now block.now name.now) }
{
    match type_named(block, name) {
        Some(of) => row(alloc, certificate, path, name, of),
        None => Ok(whole(ElemType::Lint)),
    }
}

// The type of the data input or output of a name.
fn port_type(service: &Service, name: &str) -> Option<ElemType>
    ensures { result ≡ type_in (variables (Serviced (service_of service.now))) name.now }
{
    match service.input(name) {
        Some(of) => Some(of),
        None => service.output(name),
    }
}

/// The row of the variable of a leaf: of a service, all numbers of its type.
pub fn leaf_row(
    alloc: Global,
    certificate: &Certificate,
    leaf: &Leaf,
    name: &str,
) -> Result<Interval, AllocError>
    ensures { IfOk result (λ r. span_of r ≡ rows_in certificate.now (string_bytes leaf.now.path) (kind_of leaf.now.body) name.now) }
{
    match &leaf.body {
        Body::Basic(block) => row_named(alloc, certificate, leaf.path.as_str(), block, name),
        Body::Served(service) => Ok(numbers(port_type(service, name))),
    }
}

// Gives each of these variables of a block its row.
fn add_rows(
    alloc: Global,
    certificate: &Certificate,
    path: &str,
    block: &Block,
    variables: &Variables,
    rows: &mut Ranges,
) -> Result<(), AllocError>
    ensures { OnOk result (spans_of rows.new ≡ reset (variable_names (variables_of variables.now)) (rows_of_block certificate.now path.now block.now) (spans_of rows.old)) }
{
    for index in 0..variables.len() {
        let Some((name, _)) = variables.get_index(index) else {
            return Ok(());
        };
        let row = row_named(alloc, certificate, path, block, name.as_str())?;
        rows.insert(name.as_str(), row)?;
    }
    Ok(())
}

/// The rows of a block's variables, where the block stands at this path: of a variable without a row all numbers of its type.
pub fn block_rows(
    alloc: Global,
    certificate: &Certificate,
    path: &str,
    block: &Block,
) -> Result<Ranges, AllocError>
    ensures table { IfOk result (λ r. spans_of r ≡ rows_of_block certificate.now path.now block.now) }
    ensures rows { (leaf : wires.Leaf) → names_in path.now ≡ leaf.path → leaf.kind ≡ Charted (block_of block.now) → IsWordyLeaf leaf → IfOk result (λ r. spans_of r ≡ rows (certificate_of certificate.now).ranges leaf.path leaf.kind) }
{
    let mut rows = Ranges::new(alloc)?;
    add_rows(
        alloc,
        certificate,
        path,
        block,
        &block.face.inputs,
        &mut rows,
    )?;
    add_rows(
        alloc,
        certificate,
        path,
        block,
        &block.face.outputs,
        &mut rows,
    )?;
    add_rows(alloc, certificate, path, block, &block.internals, &mut rows)?;
    Ok(rows)
}
