//! Notes on arithmetic that may wrap, and on guards that never hold.

use crate::paths::Paths;
use fb_check_ranges::block_rows;
use fb_flat::{Leaf, Source};
use fb_ranges::{Interval, Ranges, copied};
use fb_ranges_intervals::whole;
use fb_tree::{AlgorithmTree, BlockTree, BodyTree, ChartTree};
use fb_types_blocks::{Block, Variables};
use fb_verified::Verified;
use fb_words::{ElemType, Mark};
use fbr_advice::tokens::{index_at, mark_of, put_spelled};
use fbr_faults::{Wrap, algorithm_wraps, guard_can_hold, guard_wraps};
use fbr_leaves::block_in;
use fbr_notes::noted::{NoteKind, Noting, Page};
use fbr_places::Writing;
use indexmap::{IndexMap, IndexSet};
use std::alloc::{AllocError, Global};

// So many are told, and so many of those whose operands have all numbers of a type.
const TOLD: usize = 15;

const VAGUE: usize = 4;

// What was found in all instances: operations that may wrap, by the bytes at which they stand; whether a guard can hold, by that of its `[`; and the types that were
// examined, with the ranges of their variables.
#[derive(Drop)]
struct Found {
    wraps: IndexMap<usize, Wrap>,
    guards: IndexMap<usize, bool>,
    examined: IndexSet<String>,
}

impl Found {
    // Notes operations. One that is noted before, in another instance, goes on with it.
    fn add_wraps(&mut self, wraps: &[Wrap]) -> Result<(), AllocError> {
        for wrap in wraps {
            let all = match self.wraps.get(&wrap.at) {
                Some(other) => Wrap {
                    low: wrap.low.min(other.low),
                    high: wrap.high.max(other.high),
                    is_vague: wrap.is_vague && other.is_vague,
                    ..*wrap
                },
                None => *wrap,
            };
            self.wraps.insert(wrap.at, all)?;
        }
        Ok(())
    }

    // Notes whether a guard can hold in an instance.
    fn add_guard(&mut self, at: usize, can_hold: bool) -> Result<(), AllocError> {
        let before = match self.guards.get(&at) {
            Some(held) => *held,
            None => false,
        };
        self.guards.insert(at, before || can_hold)?;
        Ok(())
    }
}

// Notes what is so of the guards of a chart: where they may wrap under its rows, and whether they can hold under those in which parameters are free.
fn chart_found(
    page: Page<'_>,
    chart: &ChartTree,
    block: &Block,
    rows: &Ranges,
    freed: &Ranges,
    found: &mut Found,
) -> Result<(), AllocError> {
    let mut wraps = Vec::new(page.alloc);
    for (source, transition) in chart.transitions.iter().zip(&block.transitions) {
        if let (Some(told), Some(guard)) = (&source.guard, &transition.guard) {
            guard_wraps(&told.condition, guard, rows, &mut wraps)?;
            let can_hold = guard_can_hold(page.alloc, guard, freed)?;
            found.add_guard(told.at, can_hold)?;
        }
    }
    found.add_wraps(&wraps)
}

// Notes what is so in the algorithms of a basic block.
fn block_found(
    page: Page<'_>,
    chart: &ChartTree,
    block: &Block,
    rows: &Ranges,
    found: &mut Found,
) -> Result<(), AllocError> {
    let alloc = page.alloc;
    let mut trees: IndexMap<String, &AlgorithmTree> = IndexMap::new(alloc);
    for tree in &chart.algorithms {
        trees.insert(tree.name.text.clone()?, tree)?;
    }
    for (name, algo) in &block.procedures {
        if let Some(tree) = trees.get(name.as_str()) {
            let mut wraps = Vec::new(alloc);
            algorithm_wraps(alloc, &tree.body, algo, rows, &mut wraps)?;
            found.add_wraps(&wraps)?;
        }
    }
    Ok(())
}

// Writes the ranges of variables.
fn put_rows(variables: &Variables, rows: &Ranges, writing: &mut Writing) {
    for (name, _) in variables {
        let row = rows.find(name.as_str());
        writing.put(" ");
        writing.show(&row.low);
        writing.put(" ");
        writing.show(&row.high);
    }
}

// A block type with the ranges of its variables, as a text: what is so in one instance is so in all that have the same.
fn key_of(
    alloc: Global,
    tree: &BlockTree,
    block: &Block,
    rows: &Ranges,
) -> Result<String, AllocError> {
    let mut writing = Writing::new(alloc);
    writing.put(tree.name.text.as_str());
    put_rows(&block.face.inputs, rows, &mut writing);
    put_rows(&block.face.outputs, rows, &mut writing);
    put_rows(&block.internals, rows, &mut writing);
    writing.text()
}

// Gives each BOOL input that holds a constant this constant: no row says it.
fn hold_constants(leaf: &Leaf, block: &Block, rows: &mut Ranges) -> Result<(), AllocError> {
    for input in &leaf.inputs {
        let name = input.name.as_str();
        if let (Source::Number(number), Some(variable)) = (
            &input.source,
            block.face.inputs.get(name),
        ) {
            if matches!(variable.of_type, ElemType::Bool) {
                let only = Interval {
                    low: *number,
                    high: *number,
                };
                rows.insert(name, only)?;
            }
        }
    }
    Ok(())
}

// Rows in which each input that holds a number has all numbers of its type: a type that serves many is not told for the parameters of one.
fn freed_rows(leaf: &Leaf, block: &Block, rows: &Ranges) -> Result<Ranges, AllocError> {
    let mut freed = copied(rows)?;
    for input in &leaf.inputs {
        let name = input.name.as_str();
        if let (Source::Number(_), Some(variable)) = (&input.source, block.face.inputs.get(name)) {
            if !matches!(variable.of_type, ElemType::Bool) {
                freed.insert(name, whole(variable.of_type))?;
            }
        }
    }
    Ok(freed)
}

// Notes what is so in a leaf, if it is a basic block of the text, and none of its type with the same ranges was examined before.
fn leaf_found(
    page: Page<'_>,
    paths: &Paths<'_>,
    verified: &Verified,
    leaf: &Leaf,
    found: &mut Found,
) -> Result<(), AllocError> {
    let path = leaf.path.as_str();
    let (Some(block), Some(instance)) = (block_in(leaf), paths.instance(page.alloc, path)?) else {
        return Ok(());
    };
    let Some(tree) = page.own(instance.of_type.text.as_str()) else {
        return Ok(());
    };
    let BodyTree::Chart(chart) = &tree.body else {
        return Ok(());
    };
    let mut rows = block_rows(page.alloc, verified.certificate(), path, block)?;
    hold_constants(leaf, block, &mut rows)?;
    let key = key_of(page.alloc, tree, block, &rows)?;
    if found.examined.contains(key.as_str()) {
        return Ok(());
    }
    found.examined.insert(key)?;
    block_found(page, chart, block, &rows, found)?;
    let freed = freed_rows(leaf, block, &rows)?;
    chart_found(page, chart, block, &rows, &freed, found)
}

// What is so in all basic blocks of what was verified, under the ranges of its certificate.
fn all_found(page: Page<'_>, paths: &Paths<'_>, verified: &Verified) -> Result<Found, AllocError> {
    let mut found = Found {
        wraps: IndexMap::new(page.alloc),
        guards: IndexMap::new(page.alloc),
        examined: IndexSet::new(page.alloc),
    };
    for device in &verified.flat().devices {
        for resource in &device.resources {
            for leaf in &resource.leaves {
                leaf_found(page, paths, verified, leaf, &mut found)?;
            }
        }
    }
    Ok(found)
}

// Writes the notes on guards that hold in no instance.
fn note_guards(found: &Found, notes: &mut Noting) {
    for (at, can_hold) in &found.guards {
        if !*can_hold {
            notes.begin(NoteKind::GuardNeverHolds, *at);
            notes.put(
                "this guard is FALSE under the ranges of the certificate",
                "",
                "",
                "",
            );
        }
    }
}

// The operations that may wrap and are not silenced.
fn wraps_told(page: Page<'_>, found: &Found) -> Result<Vec<Wrap>, AllocError> {
    let mut told = Vec::new(page.alloc);
    for (at, wrap) in &found.wraps {
        if !page.quiet.is_quiet(NoteKind::ArithmeticMayWrap, *at) {
            told.push(*wrap)?;
        }
    }
    Ok(told)
}

// What an operation is in the text: its operands, with their parentheses, and the operator between them; or the operator alone where that takes more than a line.
fn spelled<'a>(page: Page<'a>, wrap: Wrap) -> &'a str {
    let first = index_at(page.tokens, wrap.first);
    let last = index_at(page.tokens, wrap.last);
    let mut open: usize = 0;
    let mut before: usize = 0;
    for token in page
        .tokens
        .get(first..last.saturating_add(1))
        .unwrap_or(&[])
    {
        match mark_of(Some(token)) {
            Some(Mark::LParen | Mark::LBracket) => open = open.saturating_add(1),
            Some(Mark::RParen | Mark::RBracket) if open > 0 => open = open.saturating_sub(1),
            Some(Mark::RParen | Mark::RBracket) => before = before.saturating_add(1),
            _ => {}
        }
    }
    let from = page.tokens.get(first.saturating_sub(before));
    let to = page.tokens.get(last.saturating_add(open));
    let sign = page.tokens.get(index_at(page.tokens, wrap.at));
    let (Some(from), Some(to), Some(sign)) = (from, to, sign) else {
        return "";
    };
    let whole = page.app.text.get(from.start..to.end).unwrap_or("");
    if whole.contains('\n') {
        return page.app.text.get(sign.start..sign.end).unwrap_or("");
    }
    whole
}

// Writes the note on an operation.
fn note_wrap(page: Page<'_>, wrap: Wrap, notes: &mut Noting) {
    notes.begin(NoteKind::ArithmeticMayWrap, wrap.at);
    let writing = notes.said();
    put_spelled(spelled(page, wrap), writing);
    let low = wrap.low;
    let high = wrap.high;
    let name = wrap.of_type.name();
    let lowest = wrap.of_type.lowest();
    let highest = wrap.of_type.highest();
    writing.put(" is ");
    writing.show(&low);
    writing.put(" to ");
    writing.show(&high);
    writing.put(", ");
    writing.put(name);
    writing.put(" holds ");
    writing.show(&lowest);
    writing.put(" to ");
    writing.show(&highest);
    writing.put("\n");
}

// The first of these operations in the text, from a byte on.
fn next_of(found: &[Wrap], is_vague: bool, from: usize) -> Option<Wrap> {
    let mut next: Option<Wrap> = None;
    for each in found {
        if each.is_vague == is_vague && each.at >= from {
            next = match next {
                Some(other) if other.at <= each.at => Some(other),
                _ => Some(*each),
            };
        }
    }
    next
}

// Writes the notes on these operations in their order, at most so many, and says how many these are.
fn note_some(
    page: Page<'_>,
    found: &[Wrap],
    is_vague: bool,
    most: usize,
    notes: &mut Noting,
) -> usize {
    let mut from: usize = 0;
    for told in 0..most {
        match next_of(found, is_vague, from) {
            Some(wrap) => {
                note_wrap(page, wrap, notes);
                from = wrap.at.saturating_add(1);
            }
            None => return told,
        }
    }
    most
}

/// Adds the notes on guards that never hold, and on arithmetic that may wrap, last those on operations of which an operand has all numbers of its type; and tells how many
/// more of these there are.
pub fn note_wraps(
    page: Page<'_>,
    paths: &Paths<'_>,
    verified: &Verified,
    notes: &mut Noting,
) -> Result<usize, AllocError> {
    let found = all_found(page, paths, verified)?;
    note_guards(&found, notes);
    let wraps = wraps_told(page, &found)?;
    let told = note_some(page, &wraps, false, TOLD, notes);
    let vague = note_some(page, &wraps, true, VAGUE, notes);
    Ok(wraps.len().saturating_sub(told).saturating_sub(vague))
}
