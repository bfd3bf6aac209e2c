//! The states of a chart, as tables: the state and beside it its actions.

use crate::charge::{Charge, walks_state};
use crate::chart::Chart;
use crate::guard::spelled;
use fb_tree::{ActionTree, Name, StateTree};
use fbr_places::Writing;

// Writes a charge below the name of a state.
fn write_charge(charge: Charge, writing: &mut Writing) {
    writing.put("<BR/><FONT POINT-SIZE=\"8\" COLOR=\"gray40\">");
    writing.show(&charge.steps);
    writing.put(" / ");
    writing.show(&charge.places);
    if let Some(far) = charge.far {
        writing.put(", far ");
        writing.show(&far);
    }
    writing.put("</FONT>");
}

// Writes what a state is called, in red if a walk comes to it, and its charge.
fn write_name(chart: &Chart<'_>, state: &StateTree, writing: &mut Writing) {
    let name = state.name.text.as_str();
    let (before, after) = if walks_state(chart.picture, chart.block.name.text.as_str(), name) {
        ("<FONT COLOR=\"red\"><B>", "</B></FONT>")
    } else {
        ("<B>", "</B>")
    };
    let app = chart.picture.app;
    writing.put(before);
    writing.put(spelled(app.text, &state.name));
    writing.put(after);
    if let Some(charge) = chart.charges.get(name) {
        write_charge(*charge, writing);
    }
}

// Draws the cell of a state beside so many rows, with a second border if it is the initial one.
fn draw_name(chart: &Chart<'_>, number: usize, state: &StateTree, writing: &mut Writing) {
    let rows = state.actions.len().max(1);
    writing.put("<TD ROWSPAN=\"");
    writing.show(&rows);
    writing.put("\" BGCOLOR=\"gray94\"");
    let (before, after) = if number == 0 {
        (
            " CELLPADDING=\"2\"><TABLE BORDER=\"1\" CELLBORDER=\"0\" CELLSPACING=\"0\" CELLPADDING=\"4\"><TR><TD>",
            "</TD></TR></TABLE></TD>",
        )
    } else {
        (">", "</TD>")
    };
    writing.put(before);
    write_name(chart, state, writing);
    writing.put(after);
}

// Draws the cell of an algorithm or an event output, or a dash where there is none.
fn draw_part(text: &str, part: Option<&Name>, writing: &mut Writing) {
    writing.put("<TD ALIGN=\"LEFT\">");
    match part {
        Some(name) => writing.put(spelled(text, name)),
        None => writing.put("<FONT COLOR=\"gray60\">–</FONT>"),
    }
    writing.put("</TD>");
}

// Draws the cells of an action.
fn draw_action(text: &str, action: &ActionTree, writing: &mut Writing) {
    draw_part(text, action.algorithm.as_ref(), writing);
    draw_part(text, action.output.as_ref(), writing);
}

// Draws the rows of a state: it stands in the first, and in each one action.
fn draw_rows(chart: &Chart<'_>, number: usize, state: &StateTree, writing: &mut Writing) {
    let app = chart.picture.app;
    writing.put("      <TR>");
    draw_name(chart, number, state, writing);
    for (index, action) in state.actions.iter().enumerate() {
        if index > 0 {
            writing.put("</TR>\n      <TR>");
        }
        draw_action(app.text, action, writing);
    }
    writing.put("</TR>\n");
}

/// Draws a state, which has a number, 0 if it is the initial one.
pub fn draw_state(chart: &Chart<'_>, number: usize, state: &StateTree, writing: &mut Writing) {
    writing.put("  s");
    writing.show(&number);
    writing.put(" [label=<\n");
    writing.put("    <TABLE BORDER=\"0\" CELLBORDER=\"1\" CELLSPACING=\"0\" CELLPADDING=\"4\">\n");
    draw_rows(chart, number, state, writing);
    writing.put("    </TABLE>\n  >];\n");
}
