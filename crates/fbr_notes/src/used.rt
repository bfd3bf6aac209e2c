//! Notes on variables: those that are never written, or never read, and numbers without a unit for a TIME.

use crate::noted::{NoteKind, Noting, Page};
use fb_lex::Token;
use fb_tree::{BlockTree, ChartTree, Constant, Literal, Name, VariableTree};
use fb_words::{ElemType, Mark};
use fbr_advice::tokens::{index_at, mark_of, name_of};
use indexmap::IndexMap;
use std::alloc::{AllocError, Global};

/// How a variable is used by the algorithms and guards of its block type.
#[derive(Clone, Copy)]
struct Use {
    is_read: bool,
    is_written: bool,
}

/// What is asked of a variable of a kind.
#[derive(Clone, Copy)]
struct Asked<'a> {
    block: &'a str,
    uses: &'a IndexMap<String, Use>,
    reads: bool,
    writes: bool,
}

// Neither read nor written.
const UNUSED: Use = Use {
    is_read: false,
    is_written: false,
};

// How a name is used behind a token.
fn use_behind(before: Option<Mark>, found: Use) -> Use {
    let is_for = matches!(before, Some(Mark::For));
    let is_first = matches!(
        before,
        Some(Mark::Semicolon | Mark::Then | Mark::Else | Mark::Do | Mark::Colon)
    );
    Use {
        is_read: found.is_read || !is_first,
        is_written: found.is_written || is_first || is_for,
    }
}

// Notes that a name is used behind a token.
fn add_use(
    alloc: Global,
    uses: &mut IndexMap<String, Use>,
    name: &str,
    before: Option<Mark>,
) -> Result<(), AllocError> {
    match uses.get_mut(name) {
        Some(found) => *found = use_behind(before, *found),
        None => {
            uses.insert(String::from_str(alloc, name)?, use_behind(before, UNUSED))?;
        }
    }
    Ok(())
}

// How names are used by the algorithms and guards of the declaration that begins with these tokens.
fn uses_in(alloc: Global, tokens: &[Token]) -> Result<IndexMap<String, Use>, AllocError> {
    let mut uses = IndexMap::new(alloc);
    let mut is_code = false;
    let mut is_guarded = false;
    let mut before = None;
    for token in tokens {
        let mark = mark_of(Some(token));
        match mark {
            Some(Mark::EndFunctionBlock) => return Ok(uses),
            Some(Mark::EcTransitions) => is_guarded = true,
            Some(Mark::EndTransitions) => is_guarded = false,
            Some(Mark::LBracket) if is_guarded => is_code = true,
            Some(Mark::RBracket) if is_guarded => is_code = false,
            Some(Mark::Algorithm) => is_code = true,
            Some(Mark::EndAlgorithm) => is_code = false,
            _ => {
                let is_variable = is_code && !matches!(before, Some(Mark::Algorithm));
                if let (true, Some(name)) = (is_variable, name_of(Some(token))) {
                    add_use(alloc, &mut uses, name, before)?;
                }
            }
        }
        before = mark;
    }
    Ok(uses)
}

// Writes that a variable is never written or never read, where that is asked of it.
fn note_variable(page: Page<'_>, asked: Asked<'_>, name: &Name, notes: &mut Noting) {
    let found = asked
        .uses
        .get(name.text.as_str())
        .copied()
        .unwrap_or(UNUSED);
    let unread = asked.reads && !found.is_read;
    let unwritten = asked.writes && !found.is_written;
    let (kind, says) = match (unread, unwritten) {
        (true, true) => (NoteKind::NeverUsed, " is never used"),
        (true, false) => (NoteKind::NeverRead, " is never read"),
        (false, true) => (NoteKind::NeverWritten, " is never written"),
        (false, false) => return,
    };
    notes.begin(kind, name.at);
    notes.put(name.text.as_str(), " of ", asked.block, says);
}

/// Writes that a number without a unit stands for a TIME, where that is so and it is not 0.
pub fn note_time(page: Page<'_>, of_type: ElemType, value: &Constant, notes: &mut Noting) {
    match (of_type, value.value) {
        (ElemType::Time, Literal::Whole(_, number)) if number > 0 => {
            notes.begin(NoteKind::TimeWithoutUnit, value.at);
            notes.said().put(
                "a TIME of so many milliseconds: write its unit, as T#30s or T#30ms\n",
            );
        }
        _ => {}
    }
}

// Writes the notes on variables of one kind.
fn note_declared(page: Page<'_>, asked: Asked<'_>, declared: &[VariableTree], notes: &mut Noting) {
    for variables in declared {
        if let Some(start) = &variables.start {
            note_time(page, variables.of_type, &start.value, notes);
        }
        let is_constant = asked.reads && variables.start.is_some();
        let each = Asked {
            writes: asked.writes && !is_constant,
            ..asked
        };
        for name in &variables.names {
            note_variable(page, each, name, notes);
        }
    }
}

/// Writes the notes on the variables of a basic block type.
pub fn note_variables(
    page: Page<'_>,
    block: &BlockTree,
    chart: &ChartTree,
    notes: &mut Noting,
) -> Result<(), AllocError> {
    let first = index_at(page.tokens, block.name.at);
    let tokens = page.tokens.get(first..).unwrap_or(&[]);
    let uses = uses_in(page.alloc, tokens)?;
    let asked = Asked {
        block: block.name.text.as_str(),
        uses: &uses,
        reads: true,
        writes: false,
    };
    note_declared(page, asked, &block.inputs, notes);
    let asked = Asked {
        reads: false,
        writes: true,
        ..asked
    };
    note_declared(page, asked, &block.outputs, notes);
    let asked = Asked {
        reads: true,
        ..asked
    };
    note_declared(page, asked, &chart.internals, notes);
    Ok(())
}
