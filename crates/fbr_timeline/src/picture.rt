//! Timelines as SVG 1.1: rows of lanes, which are read as lines of a text are.

use crate::columns::{Pen, count_rows, row_end};
use crate::lane::{Dispatch, Lane, Note, Run};
use crate::xml::put_escaped;
use fbr_places::Writing;
use std::alloc::Global;
use std::io;
use std::io::{ErrorKind, Write};

/// What is drawn.
#[derive(Clone, Copy)]
pub(crate) struct Scene<'n> {
    pub(crate) alloc: Global,
    pub(crate) lanes: &'n [Lane],
    pub(crate) runs: &'n [Run],
    pub(crate) notes: &'n [Note],
}

// Notes of a run, from a place up to another.
#[derive(Clone, Copy)]
struct Row {
    from: usize,
    to: usize,
}

// How many colours causes have.
const COLOURS: u64 = 10;

// How high what explains the picture is.
const KEY: u64 = 50;

// How high the name of a run is, with the line above it.
const NAME: u64 = 34;

// How high the moments above a row are.
const MOMENTS: u64 = 18;

// How high a lane is, with the gap below it.
const LANE: u64 = 54;

// How high the curve of a full queue is.
const QUEUE: u64 = 20;

// How high a line of text is.
const LINE: u64 = 20;

// Where the middle of a bar is in its column.
const MIDDLE: u64 = 5;

// How wide the columns of a row are, with the margin behind them.
const WIDTH: u64 = 1024;

// How wide a character of a name is.
const CHARACTER: u64 = 7;

// How many characters the longest name has that is not pressed together.
const LONGEST: u64 = 46;

// The look in light and in darkness.
const STYLE: &str = "<style>
svg{color:#222}.page{fill:#fff}
@media(prefers-color-scheme:dark){svg{color:#ddd}.page{fill:#181818}}
.c0{fill:#4e79a7}.c1{fill:#f28e2b}.c2{fill:#59a14f}.c3{fill:#e15759}.c4{fill:#76b7b2}
.c5{fill:#b07aa1}.c6{fill:#d4b13f}.c7{fill:#ff9da7}.c8{fill:#9c755f}.c9{fill:#8f8f8f}
.line{stroke:currentColor;stroke-opacity:.25;fill:none}
.queue{stroke:currentColor;stroke-opacity:.6;fill:currentColor;fill-opacity:.12}
.small{font-size:9px;fill-opacity:.75}.name{font-size:14px;font-weight:bold}
</style>
";

// What explains the picture, behind the colours of causes.
const LEGEND: &str = "causes, by their last digit; a bar is a dispatch</text>
<path d=\"M5 31h6l-3 6z\"/><text x=\"17\" y=\"38\">an arrival or a timer</text>
<path class=\"queue\" d=\"M200 38v-3h6v-4h6v7z\"/><text x=\"218\" y=\"38\">entries pending in the queue; above: milliseconds of the clock</text>
";

// The widest name of a lane, in characters.
fn widest(lanes: &[Lane]) -> u64 {
    let mut most: u64 = 14;
    for lane in lanes {
        most = most.max(u64::try_from(lane.name.len()).unwrap_or(LONGEST));
    }
    most.min(LONGEST)
}

impl Scene<'_> {
    // Where the first column is: behind the names of the lanes.
    fn left(self) -> u64 {
        widest(self.lanes)
            .saturating_mul(CHARACTER)
            .saturating_add(14)
    }

    // How high a row is.
    fn row(self) -> u64 {
        let lanes = u64::try_from(self.lanes.len()).unwrap_or(u64::MAX);
        LANE.saturating_mul(lanes).saturating_add(MOMENTS)
    }

    // The place behind the last note of the run at a place.
    fn run_end(self, place: usize) -> usize {
        match self.runs.get(place.saturating_add(1)) {
            Some(next) => next.from,
            None => self.notes.len(),
        }
    }

    // How high the picture of the run at a place is.
    fn run_height(self, place: usize, run: &Run) -> u64 {
        let head = if run.name.is_some() { NAME } else { 0 };
        let to = self.run_end(place);
        if to <= run.from {
            return head.saturating_add(LINE);
        }
        count_rows(self.notes, run.from, to)
            .saturating_mul(self.row())
            .saturating_add(head)
    }

    // How high the whole picture is.
    fn height(self) -> u64 {
        let mut height = KEY.saturating_add(LINE / 2);
        for (place, run) in self.runs.iter().enumerate() {
            height = height.saturating_add(self.run_height(place, run));
        }
        height
    }
}

/// The error of a write for which there was no memory.
pub fn out_of_memory() -> io::Error {
    io::Error::from(ErrorKind::OutOfMemory)
}

// Writes a number with what is before it.
fn put_number(before: &str, number: u64, page: &mut Writing) {
    page.put(before);
    page.show(&number);
}

// Writes what the document begins with.
fn put_head(scene: Scene<'_>, page: &mut Writing) {
    let width = scene.left().saturating_add(WIDTH);
    let height = scene.height();
    page.put(
        "<?xml version=\"1.0\" encoding=\"UTF-8\"?>\n<svg xmlns=\"http://www.w3.org/2000/svg\"",
    );
    put_number(" width=\"", width, page);
    put_number("\" height=\"", height, page);
    put_number("\" viewBox=\"0 0 ", width, page);
    put_number(" ", height, page);
    page.put(
        "\" font-family=\"ui-monospace,Menlo,Consolas,'DejaVu Sans Mono',monospace\" font-size=\"11\" fill=\"currentColor\">\n<title>What ran when</title>\n",
    );
    page.put(STYLE);
    page.put("<rect class=\"page\" width=\"100%\" height=\"100%\"/>\n");
}

// Writes what explains the picture.
fn put_key(page: &mut Writing) {
    for colour in 0..COLOURS {
        let at = colour.saturating_mul(18).saturating_add(5);
        put_number("<path class=\"c", colour, page);
        put_number("\" d=\"M", at, page);
        put_number(
            " 6v14h6v-14z\"/><text class=\"small\" x=\"",
            at.saturating_add(8),
            page,
        );
        put_number("\" y=\"16\">", colour, page);
        page.put("</text>\n");
    }
    page.put("<text x=\"192\" y=\"17\">");
    page.put(LEGEND);
}

// Writes a line across the picture, and the name of a run below it.
fn put_name(scene: Scene<'_>, name: &str, top: u64, page: &mut Writing) {
    let line = top.saturating_add(4);
    put_number("<path class=\"line\" d=\"M0 ", line, page);
    put_number(".5H", scene.left().saturating_add(WIDTH), page);
    put_number(
        "\"/>\n<text class=\"name\" x=\"5\" y=\"",
        top.saturating_add(24),
        page,
    );
    page.put("\">");
    put_escaped(name, page);
    page.put("</text>\n");
}

// Writes that nothing ran.
fn put_nothing(top: u64, page: &mut Writing) {
    put_number("<text x=\"5\" y=\"", top.saturating_add(12), page);
    page.put("\">nothing ran</text>\n");
}

// Writes the moments above a row, with a line through all lanes at each.
fn put_moments(scene: Scene<'_>, row: Row, page: &mut Writing) {
    let down = scene.row().saturating_sub(14);
    let mut pen = Pen::new();
    for at in row.from..row.to {
        if let Some(note) = scene.notes.get(at) {
            let column = pen.place(note);
            if column.is_told {
                put_number("<path class=\"line\" d=\"M", column.at, page);
                put_number(".5 2v", down, page);
                put_number(
                    "\"/><text class=\"small\" x=\"",
                    column.at.saturating_add(3),
                    page,
                );
                put_number("\" y=\"10\">", note.now, page);
                page.put("</text>\n");
            }
        }
    }
}

// Writes the moment of a note.
fn put_moment(note: &Note, page: &mut Writing) {
    put_number("<title>", note.now, page);
    put_number(" ms, #", note.stamp, page);
    page.put(": ");
}

// Writes what a dispatch was.
fn put_dispatch(lane: &Lane, dispatch: Dispatch, page: &mut Writing) {
    if let Some(called) = lane.called.get(dispatch.called) {
        put_escaped(called.name.as_str(), page);
    }
    put_number(", cause ", dispatch.cause, page);
    put_number(", ", dispatch.steps, page);
    page.put(if dispatch.steps == 1 {
        " step"
    } else {
        " steps"
    });
    page.put(if dispatch.is_last {
        ", which ends it"
    } else {
        " so far"
    });
}

// Writes a note in its column.
fn put_note(lane: &Lane, note: &Note, at: u64, page: &mut Writing) {
    match note.dispatch {
        Some(dispatch) => {
            put_number("<path class=\"c", dispatch.cause % COLOURS, page);
            put_number("\" d=\"M", at.saturating_add(2), page);
            page.put(" 0v16h6v-16z\">");
            put_moment(note, page);
            put_dispatch(lane, dispatch, page);
        }
        None => {
            put_number("<path d=\"M", at.saturating_add(2), page);
            page.put(" 5h6l-3 6z\">");
            put_moment(note, page);
            page.put("comes in");
        }
    }
    put_number("; ", note.pending, page);
    page.put(" pending</title></path>\n");
}

// Writes the notes of the lane at a place that a row has.
fn put_notes(scene: Scene<'_>, place: usize, lane: &Lane, row: Row, page: &mut Writing) {
    let mut pen = Pen::new();
    for at in row.from..row.to {
        if let Some(note) = scene.notes.get(at) {
            let column = pen.place(note);
            if note.lane == place {
                put_note(lane, note, column.at, page);
            }
        }
    }
}

// How far below the top of a lane so many pending entries are drawn.
fn level(lane: &Lane, pending: u64) -> u64 {
    let up = pending
        .saturating_mul(QUEUE)
        .checked_div(lane.most)
        .unwrap_or(0);
    QUEUE.saturating_sub(up).saturating_add(20)
}

// Writes how many entries are pending in a lane along a row, at whose beginning there are so many, up to where its last column ends.
fn put_queue(
    scene: Scene<'_>,
    place: usize,
    lane: &Lane,
    row: Row,
    pending: u64,
    page: &mut Writing,
) {
    let mut pen = Pen::new();
    put_number(
        "<path class=\"queue\" d=\"M0 40V",
        level(lane, pending),
        page,
    );
    for at in row.from..row.to {
        if let Some(note) = scene.notes.get(at) {
            let column = pen.place(note);
            if note.lane == place {
                put_number("H", column.at.saturating_add(MIDDLE), page);
                put_number("V", level(lane, note.pending), page);
            }
        }
    }
    put_number("H", pen.last(), page);
    page.put("V40z\"/>\n");
}

// Writes the name of a lane, and how many entries its queue had and may have.
fn put_label(lane: &Lane, page: &mut Writing) {
    page.put("<text x=\"-9\" y=\"12\" text-anchor=\"end\"");
    if u64::try_from(lane.name.len()).unwrap_or(u64::MAX) > LONGEST {
        put_number(" textLength=\"", LONGEST.saturating_mul(CHARACTER), page);
        page.put("\" lengthAdjust=\"spacingAndGlyphs\"");
    }
    page.put(">");
    put_escaped(lane.name.as_str(), page);
    put_number(
        "</text>\n<text class=\"small\" x=\"-9\" y=\"34\" text-anchor=\"end\">queue 0..",
        lane.most,
        page,
    );
    put_number(" of ", lane.depth, page);
    page.put("</text>\n");
}

// Writes the lanes of a row, of whose queues so many entries are pending at its beginning.
fn put_lanes(scene: Scene<'_>, row: Row, pending: &[u64], page: &mut Writing) {
    let mut top = MOMENTS;
    for (place, lane) in scene.lanes.iter().enumerate() {
        put_number("<g transform=\"translate(0 ", top, page);
        page.put(")\">\n");
        put_label(lane, page);
        put_notes(scene, place, lane, row, page);
        let before = pending.get(place).copied().unwrap_or(0);
        put_queue(scene, place, lane, row, before, page);
        page.put("</g>\n");
        top = top.saturating_add(LANE);
    }
}

// Writes a row.
fn put_row(scene: Scene<'_>, row: Row, top: u64, pending: &[u64], page: &mut Writing) {
    put_number("<g transform=\"translate(", scene.left(), page);
    put_number(" ", top, page);
    page.put(")\">\n<text class=\"small\" x=\"-9\" y=\"10\" text-anchor=\"end\">ms</text>\n");
    put_moments(scene, row, page);
    put_lanes(scene, row, pending, page);
    page.put("</g>\n");
}

// Hands on what was written, if memory held all of it.
fn hand<W: Write>(page: Writing, out: &mut W) -> io::Result<()> {
    match page.end() {
        Ok(bytes) => out.write_all(&bytes),
        Err(_) => Err(out_of_memory()),
    }
}

// Keeps how many entries are pending behind a row.
fn keep(scene: Scene<'_>, row: Row, pending: &mut Vec<u64>) {
    for at in row.from..row.to {
        if let Some(note) = scene.notes.get(at) {
            if let Some(kept) = pending.get_mut(note.lane) {
                *kept = note.pending;
            }
        }
    }
}

// Draws the notes from a place up to another, in rows.
fn draw_rows<W: Write>(
    scene: Scene<'_>,
    all: Row,
    top: u64,
    pending: &mut Vec<u64>,
    out: &mut W,
) -> io::Result<()> {
    let mut from = all.from;
    let mut top = top;
    for _ in all.from..all.to {
        if from >= all.to {
            break;
        }
        let to = row_end(scene.notes, from, all.to);
        let row = Row { from, to };
        let mut page = Writing::new(scene.alloc);
        put_row(scene, row, top, pending.as_slice(), &mut page);
        hand(page, out)?;
        keep(scene, row, pending);
        top = top.saturating_add(scene.row());
        from = to;
    }
    Ok(())
}

// Draws the run at a place: its name, and its rows.
fn draw_run<W: Write>(
    scene: Scene<'_>,
    place: usize,
    run: &Run,
    top: u64,
    out: &mut W,
) -> io::Result<()> {
    let mut pending: Vec<u64> = Vec::new(scene.alloc);
    if pending.resize(scene.lanes.len(), 0).is_err() {
        return Err(out_of_memory());
    }
    let mut page = Writing::new(scene.alloc);
    let mut below = top;
    if let Some(name) = &run.name {
        put_name(scene, name.as_str(), top, &mut page);
        below = top.saturating_add(NAME);
    }
    let all = Row {
        from: run.from,
        to: scene.run_end(place),
    };
    if all.to <= all.from {
        put_nothing(below, &mut page);
    }
    hand(page, out)?;
    draw_rows(scene, all, below, &mut pending, out)
}

/// Draws all runs, one below another.
pub(crate) fn draw<W: Write>(scene: Scene<'_>, out: &mut W) -> io::Result<()> {
    let mut page = Writing::new(scene.alloc);
    put_head(scene, &mut page);
    put_key(&mut page);
    hand(page, out)?;
    let mut top = KEY;
    for (place, run) in scene.runs.iter().enumerate() {
        draw_run(scene, place, run, top, out)?;
        top = top.saturating_add(scene.run_height(place, run));
    }
    out.write_all(b"</svg>\n")
}
