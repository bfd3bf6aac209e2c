//! The rows of variables at first.

ghost use Rattle.std.specs.Prelude.{◌≡◌, ◌≤◌, ◌++◌, map, length, IfOk, OnOk};
ghost use Rattle.fb_model.specs.Wires.{Charted};
ghost use Rattle.fb_model.specs.BlockTyping.{variable_of};
ghost use Rattle.fb_types_blocks.specs.Views.{declared_of, variables_of, block_of};
ghost use Rattle.fb_flat.specs.Leaves.{kind_of};
ghost use Rattle.fb_flat.specs.Tables.{source_at};
ghost use Rattle.fb_ranges_intervals.specs.Views.{span_of};
ghost use Rattle.fb_find_ranges.specs.Lines.{first_from, first_lined, line_by, lines_by};
ghost use Rattle.fb_find_ranges.specs.Views.{AreKept, AreLinked, IsKept, IsKind, line_of, lined_in, linked_in, shown};

use crate::alike::like;
use crate::rows::{LeafRows, Row};
use crate::table::with_rows;
use fb_check_ranges::{first_range, source_named, start_range};
use fb_flat::{Body, Input, Leaf};
use fb_ranges_intervals::{Interval, whole};
use fb_types_blocks::{Block, Variable, Variables};
use fb_words::ElemType;
use std::alloc::{AllocError, Global};
use std::rc::Rc;

// The range of what a variable has at first, by the inputs of its block and their sources.
fn range_first(sources: &[Input], inputs: &Variables, name: &str, variable: &Variable) -> Interval
    ensures { span_of result ≡ first_from (variables_of inputs.now) (source_at sources.now) (variable_of (declared_of name.now variable.now)) }
{
    if inputs.contains_key(name) {
        first_range(source_named(sources, name), variable)
    } else {
        start_range(variable)
    }
}

// Its row; a BOOL has all values of its type.
fn row_first<'a>(
    sources: &[Input],
    inputs: &Variables,
    name: &'a str,
    variable: &Variable,
    number: usize,
) -> Row<'a>
    ensures { line_of result ≡ line_by (first_from (variables_of inputs.now) (source_at sources.now)) (variable_of (declared_of name.now variable.now)) }
{
    let of_type = variable.of_type;
    let range = match of_type {
        ElemType::Bool => whole(of_type),
        _ => range_first(sources, inputs, name, variable),
    };
    Row {
        name,
        of_type,
        range,
        number,
    }
}

// Adds the rows of variables of a block at the end.
fn add_rows<'a>(
    sources: &[Input],
    inputs: &Variables,
    variables: &'a Variables,
    rows: &mut Vec<Row<'a>>,
) -> Result<(), AllocError>
    ensures { OnOk result (map line_of rows.new.items ≡ map line_of rows.old.items ++ map (line_by (first_from (variables_of inputs.now) (source_at sources.now))) (variables_of variables.now)) }
{
    for index in 0..variables.len() {
        let Some((name, variable)) = variables.get_index(index) else {
            return Ok(());
        };
        let number = rows.len();
        rows.push(row_first(sources, inputs, name.as_str(), variable, number))?;
    }
    Ok(())
}

// The rows of a block.
fn block_rows<'a>(
    alloc: Global,
    sources: &[Input],
    block: &'a Block,
) -> Result<Vec<Row<'a>>, AllocError>
    ensures { IfOk result (λ v. map line_of v.items ≡ lines_by (first_from (variables_of block.now.face.inputs) (source_at sources.now)) (Charted (block_of block.now))) }
{
    let inputs = &block.face.inputs;
    let mut rows = Vec::new(alloc);
    add_rows(sources, inputs, inputs, &mut rows)?;
    add_rows(sources, inputs, &block.face.outputs, &mut rows)?;
    add_rows(sources, inputs, &block.internals, &mut rows)?;
    Ok(rows)
}

// The rows of a leaf; a service has none.
fn own_rows<'a>(alloc: Global, leaf: &'a Leaf) -> Result<Vec<Row<'a>>, AllocError>
    ensures { IfOk result (λ v. map line_of v.items ≡ (first_lined (shown leaf.now)).lines) }
{
    match &leaf.body {
        Body::Basic(block) => block_rows(alloc, leaf.inputs.as_slice(), block),
        Body::Served(_) => Ok(Vec::new(alloc)),
    }
}

// A leaf with its rows, behind those before it.
fn leaf_rows<'a>(
    alloc: Global,
    before: &[Rc<LeafRows<'a>>],
    leaf: &'a Leaf,
) -> Result<Rc<LeafRows<'a>>, AllocError>
    requires before { AreKept before.now }
    requires links { AreLinked (map linked_in before.now) }
    ensures link { IfOk result (λ s. ((linked_in s).0 ≡ kind_of leaf.now.body) × ((linked_in s).1 ≤ length before.now) × IsKind (map linked_in before.now) (linked_in s).1 (kind_of leaf.now.body)) }
    ensures lined { IfOk result (λ s. lined_in s ≡ first_lined (shown leaf.now)) }
    ensures kept { IfOk result (λ s. IsKept s.value) }
{
    let rows = own_rows(alloc, leaf)?;
    with_rows(alloc, before, like(before, leaf), leaf, rows)
}

/// The rows of leaves at first.
pub(crate) fn first_rows<'a>(
    alloc: Global,
    leaves: &[&'a Leaf],
) -> Result<Vec<Rc<LeafRows<'a>>>, AllocError>
    ensures lined { IfOk result (λ v. map lined_in v.items ≡ map (λ l. first_lined (shown l.now)) leaves.now) }
    ensures links { IfOk result (λ v. AreLinked (map linked_in v.items)) }
    ensures kept { IfOk result (λ v. AreKept v.items) }
{
    let mut all = Vec::new(alloc);
    for leaf in leaves {
        let first = leaf_rows(alloc, all.as_slice(), *leaf)?;
        all.push(first)?;
    }
    Ok(all)
}
