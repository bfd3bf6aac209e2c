//! Execution control charts.

use crate::charge::{Charges, charges_of};
use crate::guard::spelled;
use crate::state::draw_state;
use crate::transition::draw_transitions;
use fb_cert::Certificate;
use fb_tree::{BlockTree, BodyTree, ChartTree, FileTree};
use fbr_draw::{Picture, close_title, open_title, write_note, write_refused, write_walk};
use fbr_places::Writing;
use std::alloc::{AllocError, Global};

/// What each part of a chart is drawn with.
#[derive(Clone, Copy)]
pub struct Chart<'a> {
    pub alloc: Global,
    pub picture: &'a Picture<'a>,
    pub block: &'a BlockTree,
    pub body: &'a ChartTree,
    pub charges: &'a Charges,
}

// The basic block type of this name, in upper case, with its chart.
fn chart_named<'a>(file: &'a FileTree, name: &str) -> Option<(&'a BlockTree, &'a ChartTree)> {
    for block in &file.blocks {
        if let BodyTree::Chart(chart) = &block.body {
            if block.name.text.as_str() == name {
                return Some((block, chart));
            }
        }
    }
    None
}

// Writes how everything is drawn of which nothing else is said.
fn write_defaults(writing: &mut Writing) {
    writing.put("  ranksep=0.6;\n  nodesep=0.5;\n");
    writing.put("  graph [fontname=\"Helvetica\", fontsize=12, labeljust=l];\n");
    writing.put("  node [shape=plain, fontname=\"Helvetica\", fontsize=10];\n");
    writing.put("  edge [arrowsize=0.7, fontname=\"Helvetica\", fontsize=9];\n");
}

// Writes what the numbers of a certificate mean.
fn write_charges(certificate: &Certificate, is_refused: bool, writing: &mut Writing) {
    let note = match certificate.repeats() {
        Some(_) => {
            "below a state: steps / places in the queue, the most that entering it costs in an instance; far: steps on all devices"
        }
        None =>
            "below a state: steps / places in the queue, the most that entering it costs in an instance",
    };
    let note = if is_refused {
        "below a state: steps / places in the queue, as the certificate says them"
    } else {
        note
    };
    write_note("gray40", note, writing);
}

// Writes the title of a chart, and what its signs mean.
fn write_legend(chart: &Chart<'_>, writing: &mut Writing) -> Result<(), AllocError> {
    let app = chart.picture.app;
    let name = spelled(app.text, &chart.block.name);
    open_title(chart.alloc, name, app.name, writing)?;
    write_note(
        "gray40",
        "double border: the initial state; beside a state: its algorithms and event outputs; 1. 2.: the order in which its transitions are tried",
        writing,
    );
    write_refused(chart.alloc, chart.picture, writing)?;
    match chart.picture.certificate {
        Some(certificate) => {
            write_charges(certificate, chart.picture.refused.is_some(), writing);
        }
        None => write_walk(chart.picture, writing),
    }
    close_title(writing);
    Ok(())
}

// Writes a chart as a graph.
fn write_chart(chart: &Chart<'_>, writing: &mut Writing) -> Result<(), AllocError> {
    writing.put("digraph \"");
    writing.put(chart.block.name.text.as_str());
    writing.put("\" {\n");
    write_defaults(writing);
    write_legend(chart, writing)?;
    for (number, state) in chart.body.states.iter().enumerate() {
        draw_state(chart, number, state, writing);
    }
    draw_transitions(chart, writing)?;
    writing.put("}\n");
    Ok(())
}

/// Writes the execution control chart of a basic block type as a graph in DOT, and says whether there is such a type: letter case has no meaning.
pub fn draw_chart(
    alloc: Global,
    picture: &Picture<'_>,
    name: &str,
    writing: &mut Writing,
) -> Result<bool, AllocError> {
    let name = name.to_ascii_uppercase(alloc)?;
    let Some((block, body)) = chart_named(picture.file, name.as_str()) else {
        return Ok(false);
    };
    let charges = charges_of(alloc, picture, name.as_str())?;
    let chart = Chart {
        alloc,
        picture,
        block,
        body,
        charges: &charges,
    };
    write_chart(&chart, writing)?;
    Ok(true)
}
