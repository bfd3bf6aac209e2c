//! Notes on what is accepted.

use crate::heard::note_channels;
use crate::paths::Paths;
use crate::wrapped::note_wraps;
use fb_lex::Token;
use fb_tree::{BodyTree, FileTree};
use fb_verified::Verified;
use fbr_notes::charted::note_chart;
use fbr_notes::known::Known;
use fbr_notes::noted::{Notes, Noting, Page};
use fbr_notes::quiet::{Hushed, Quiet};
use fbr_notes::shadowed::note_shadows;
use fbr_notes::used::note_variables;
use fbr_notes::wired::note_network;
use fbr_places::{FACES, Named, Types, tokens_of, tree_in, tree_of};
use std::alloc::{AllocError, Global};

// Writes the notes on a text in its order: its block types, and then its resources.
fn note_all(page: Page<'_>, notes: &mut Noting) -> Result<(), AllocError> {
    for block in &page.types.file.blocks {
        match &block.body {
            BodyTree::Chart(chart) => {
                note_variables(page, block, chart, notes)?;
                note_chart(block, chart, notes);
                note_shadows(page, block, chart, notes)?;
            }
            BodyTree::Network(network) => note_network(page, network, notes)?,
        }
    }
    for device in &page.types.file.system.devices {
        for resource in &device.resources {
            note_network(page, &resource.network, notes)?;
        }
    }
    Ok(())
}

// The same, and behind them those on its channels, its guards and its arithmetic.
fn note_both(page: Page<'_>, verified: &Verified) -> Result<Notes, AllocError> {
    let mut notes = Noting::new(page.alloc);
    note_all(page, &mut notes)?;
    let paths = Paths::of(page)?;
    note_channels(page, &paths, verified, &mut notes)?;
    let more = note_wraps(page, &paths, verified, &mut notes)?;
    notes.end(page, more)
}

// A text and its tokens, and the notes that words silence.
#[derive(Clone, Copy)]
struct Read<'a> {
    alloc: Global,
    app: Named<'a>,
    tokens: &'a [Token],
    allowed: &'a str,
}

// Notes on a text by its types.
fn note_types(read: Read<'_>, verified: &Verified, types: Types<'_>) -> Result<Notes, AllocError> {
    let known = Known::of(read.alloc, types)?;
    let hushed = Hushed::of(read.alloc, read.app.text, read.tokens)?;
    let page = Page {
        alloc: read.alloc,
        app: read.app,
        tokens: read.tokens,
        types,
        known: &known,
        quiet: Quiet {
            hushed: &hushed,
            allowed: read.allowed,
        },
    };
    note_both(page, verified)
}

// The same by its source tree, beside the types that are there beforehand.
fn note_file(read: Read<'_>, verified: &Verified, file: &FileTree) -> Result<Notes, AllocError> {
    match tree_of(read.alloc, FACES)? {
        Some(library) => {
            let types = Types {
                file,
                library: &library,
            };
            let noted = note_types(read, verified, types);
            library.let_go();
            noted
        }
        None => Ok(Notes::none(read.alloc)),
    }
}

/// Notes on the text of an application that is accepted: what it has and does not use, what never happens in it, what leads nowhere, numbers without a unit, and
/// arithmetic that may wrap under the ranges of its certificate. None has one of the names that are allowed, which have commas between them.
pub fn notes_of(
    alloc: Global,
    verified: &Verified,
    app: Named<'_>,
    allowed: &str,
) -> Result<Notes, AllocError> {
    let Some(tokens) = tokens_of(alloc, app.text)? else {
        return Ok(Notes::none(alloc));
    };
    match tree_in(alloc, &tokens, app.text.len())? {
        Some(file) => {
            let read = Read {
                alloc,
                app,
                tokens: &tokens,
                allowed,
            };
            let noted = note_file(read, verified, &file);
            file.let_go();
            noted
        }
        None => Ok(Notes::none(alloc)),
    }
}
