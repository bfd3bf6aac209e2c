//! The rows of a certificate by their kinds.

ghost use Rattle.std.specs.Prelude.{◌≡◌, IfOk, IfErr};
ghost use Rattle.fb_model.specs.CertificateText.{repeats};
ghost use Rattle.indexmap.specs.IndexMap.{set_value_at};
ghost use Rattle.fb_cert.specs.Views.{rows_in, with_depth_at, no_rows, texts_of, has_number, Adds, AddsNew, AddsRow, text_row_of};

use crate::certificate::Amount;
use crate::row::Row;
use fb_ranges_intervals::Interval;
use indexmap::IndexMap;
use std::alloc::{AllocError, Global};

/// Rows in text order, by the path or the number that each names.
#[derive(Drop)]
pub(crate) struct Lists {
    pub(crate) repeats: Option<u8>,
    pub(crate) ranges: IndexMap<String, Interval>,
    pub(crate) charges: IndexMap<String, Amount>,
    pub(crate) weights: IndexMap<String, Amount>,
    pub(crate) depths: IndexMap<String, u64>,
    pub(crate) fars: IndexMap<String, u64>,
    pub(crate) far_states: IndexMap<String, u64>,
    pub(crate) channels: IndexMap<u16, u64>,
}

// Adds a row at the end, unless its path stands in an earlier one; says whether it is new.
fn add<V: Drop>(
    alloc: Global,
    rows: &mut IndexMap<String, V>,
    path: &str,
    value: V,
) -> Result<bool, AllocError>
    ensures added { IfOk result (λ new. Adds (texts_of rows.old) path.now value (texts_of rows.new) new) }
    ensures kept { IfErr result (λ _. texts_of rows.new ≡ texts_of rows.old) }
{
    if rows.contains_key(path) {
        return Ok(false);
    }
    rows.insert(String::from_str(alloc, path)?, value)?;
    Ok(true)
}

// Puts another value into the row at an index, where there is one.
fn set_at(rows: &mut IndexMap<String, u64>, index: usize, value: u64)
    ensures { texts_of rows.new ≡ set_value_at (texts_of rows.old) index value }
{
    if let Some(old) = rows.get_index_mut(index) {
        *old = value;
    }
}

// Ends rows of one kind.
fn end_of<V: Drop>(rows: IndexMap<String, V>) {}

// Adds a row at the end, unless its number stands in an earlier one; says whether it is new.
fn add_channel(rows: &mut IndexMap<u16, u64>, number: u16, steps: u64) -> Result<bool, AllocError>
    ensures added { IfOk result (λ new. AddsNew (has_number number rows.old.entries) rows.old.entries (number, steps) rows.new.entries new) }
    ensures kept { IfErr result (λ _. rows.new.entries ≡ rows.old.entries) }
{
    if rows.contains_key(&number) {
        return Ok(false);
    }
    rows.insert(number, steps)?;
    Ok(true)
}

impl Lists {
    /// No rows.
    pub(crate) fn new(alloc: Global) -> Lists
        ensures { rows_in result ≡ no_rows }
    {
        Lists {
            repeats: None,
            ranges: IndexMap::new(alloc),
            charges: IndexMap::new(alloc),
            weights: IndexMap::new(alloc),
            depths: IndexMap::new(alloc),
            fars: IndexMap::new(alloc),
            far_states: IndexMap::new(alloc),
            channels: IndexMap::new(alloc),
        }
    }

    /// Lets the rows go.
    pub(crate) fn let_go(self) {
        end_of(self.ranges);
        end_of(self.charges);
        end_of(self.weights);
        end_of(self.depths);
        end_of(self.fars);
        end_of(self.far_states);
    }

    // Takes the number of REPEATS, unless there is one; says whether it is new.
    fn repeat(&mut self, number: u8) -> bool
        ensures { AddsRow (rows_in self.old) (repeats number) (rows_in self.new) result }
    {
        if self.repeats.is_some() {
            return false;
        }
        self.repeats = Some(number);
        true
    }

    /// Puts another depth into the row at an index, where there is one.
    pub(crate) fn set_depth(&mut self, index: usize, depth: u64)
        ensures { rows_in self.new ≡ with_depth_at index depth (rows_in self.old) }
    {
        set_at(&mut self.depths, index, depth);
    }

    /// Adds a row at the end, unless its path or number stands in an earlier one of its kind; says whether it is new.
    pub(crate) fn add(&mut self, alloc: Global, row: Row) -> Result<bool, AllocError>
        ensures added { IfOk result (λ new. AddsRow (rows_in self.old) (text_row_of row.entry) (rows_in self.new) new) }
        ensures kept { IfErr result (λ _. rows_in self.new ≡ rows_in self.old) }
    {
        match row {
            Row::Repeats(number) => Ok(self.repeat(number)),
            Row::Range(path, interval) => add(alloc, &mut self.ranges, path, interval),
            Row::Charge(path, amount) => add(alloc, &mut self.charges, path, amount),
            Row::Weight(path, amount) => add(alloc, &mut self.weights, path, amount),
            Row::Depth(path, depth) => add(alloc, &mut self.depths, path, depth),
            Row::Far(path, steps) => add(alloc, &mut self.fars, path, steps),
            Row::FarState(path, steps) => add(alloc, &mut self.far_states, path, steps),
            Row::Channel(number, steps) => add_channel(&mut self.channels, number, steps),
        }
    }
}
