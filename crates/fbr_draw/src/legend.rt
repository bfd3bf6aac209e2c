//! What stands above a picture: its title, and what its signs mean.

use crate::picture::Picture;
use crate::text::{last_of, shown};
use fb_cert::Certificate;
use fbr_places::Writing;
use std::alloc::{AllocError, Global};

/// Begins the label of a picture with its title: what it is of, and the name of the file.
pub fn open_title(
    alloc: Global,
    of: &str,
    file: &str,
    writing: &mut Writing,
) -> Result<(), AllocError> {
    let file = shown(alloc, last_of(file))?;
    writing.put(
        "  labelloc=t;\n  label=<\n    <TABLE BORDER=\"0\" CELLSPACING=\"0\" CELLPADDING=\"1\">\n",
    );
    writing.put("      <TR><TD ALIGN=\"LEFT\"><FONT POINT-SIZE=\"14\"><B>");
    writing.put(of);
    writing.put("</B> · ");
    writing.put(file.as_str());
    writing.put("</FONT></TD></TR>\n");
    Ok(())
}

/// Ends the label of a picture.
pub fn close_title(writing: &mut Writing) {
    writing.put("    </TABLE>\n  >;\n");
}

// Begins a line of a legend in a colour.
fn open_note(color: &str, writing: &mut Writing) {
    writing.put("      <TR><TD ALIGN=\"LEFT\"><FONT POINT-SIZE=\"9\" COLOR=\"");
    writing.put(color);
    writing.put("\">");
}

// Ends a line of a legend.
fn close_note(writing: &mut Writing) {
    writing.put("</FONT></TD></TR>\n");
}

/// Writes a line of a legend in a colour.
pub fn write_note(color: &str, note: &str, writing: &mut Writing) {
    open_note(color, writing);
    writing.put(note);
    close_note(writing);
}

/// Writes for which refusal the numbers of a certificate are no bounds, or for which one there are none, if that is so.
pub fn write_refused(
    alloc: Global,
    picture: &Picture<'_>,
    writing: &mut Writing,
) -> Result<(), AllocError> {
    let Some(refused) = picture.refused else {
        return Ok(());
    };
    let refused = shown(alloc, refused)?;
    open_note("red", writing);
    match picture.certificate {
        Some(_) => {
            writing.put("not accepted: ");
            writing.put(refused.as_str());
            writing.put("; the numbers are those of the certificate, and no bounds");
        }
        None => {
            writing.put("no numbers, since there is no certificate: ");
            writing.put(refused.as_str());
        }
    }
    close_note(writing);
    Ok(())
}

// Writes what the numbers of a certificate mean.
fn write_numbers(certificate: &Certificate, is_refused: bool, writing: &mut Writing) {
    let note = if is_refused {
        "at an event: steps / places in the queue, as the certificate says them"
    } else {
        "at an event: steps / places in the queue, the most that it causes on its device with all that follows"
    };
    write_note("gray40", note, writing);
    if is_refused {
        return;
    }
    if let Some(_) = certificate.repeats() {
        write_note(
            "gray40",
            "far: the most steps on all devices; ×n: how often a device admits a datagram at most",
            writing,
        );
    }
}

/// Writes that what is red is a walk, where there is one.
pub fn write_walk(picture: &Picture<'_>, writing: &mut Writing) {
    if picture.walk.is_empty() {
        return;
    }
    let note =
        "red: each triggers the next, and one of them costs a step, so that no certificate fits";
    write_note("red", note, writing);
}

/// Writes the title of a system, and what its signs mean.
pub fn write_legend(
    alloc: Global,
    picture: &Picture<'_>,
    writing: &mut Writing,
) -> Result<(), AllocError> {
    let system = picture.file.system.name.text.as_str();
    open_title(alloc, system, picture.app.name, writing)?;
    write_note(
        "gray40",
        "solid: events; dashed: data; dotted: datagrams; grey: a port without a connection",
        writing,
    );
    write_refused(alloc, picture, writing)?;
    match picture.certificate {
        Some(certificate) => write_numbers(certificate, picture.refused.is_some(), writing),
        None => write_walk(picture, writing),
    }
    close_title(writing);
    Ok(())
}
