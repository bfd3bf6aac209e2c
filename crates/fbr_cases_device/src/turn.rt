//! What devices do with links in memory.

use crate::device::{bytes, halves, loaded, played};
use fb_device::{Denied, Device, Dispatched, Effect};
use fb_link::{Link, MemoryLink, Plan};
use fb_turn::{LinkDown, Report, Watch, turn};
use fbr_cases_language::{Case, ended, refused, text_of};
use std::alloc::{AllocError, Global};
use std::fmt::Write;

// What OUTPUTs write, a line each; and whether memory ran out for one of them.
#[derive(Drop)]
pub(crate) struct Page {
    pub text: String,
    pub failed: bool,
}

// Adds what an OUTPUT writes.
fn wrote(out: &mut String, number: u16, values: &[i64]) -> Result<(), AllocError> {
    write!(out, "write {number}")?;
    for value in values {
        let value = *value;
        write!(out, " {value}")?;
    }
    out.push('\n')
}

impl Watch for Page {
    fn came(&mut self, _device: &Device, _bytes: &[u8], _answer: &Result<u64, Denied>) {}

    fn served(&mut self, _device: &Device, answer: &Dispatched, _is_taken: bool) {
        if let Dispatched::Ran(ran) = answer {
            if let Some(Effect::Write(number, values)) = &ran.effect {
                if wrote(&mut self.text, *number, values.as_slice()).is_err() {
                    self.failed = true;
                }
            }
        }
    }
}

// The datagrams of lines of hexadecimal digits, so many times.
fn held(alloc: Global, lines: &str, times: u16) -> Result<Vec<Vec<u8>>, AllocError> {
    let mut held = Vec::new(alloc);
    for _ in 0..times {
        for line in lines.lines() {
            held.push(bytes(alloc, line)?)?;
        }
    }
    Ok(held)
}

// The numbers of a line.
fn planned(alloc: Global, line: &str) -> Result<Vec<u64>, AllocError> {
    let mut planned = Vec::new(alloc);
    for word in line.split_whitespace() {
        if let Ok(number) = word.parse::<u64>() {
            planned.push(number)?;
        }
    }
    Ok(planned)
}

// The link of a case: the datagrams that it holds, the room for those that it takes, and the receives and the sends that are to fail.
fn link_of(alloc: Global, case: &Case<'_>) -> Result<MemoryLink, AllocError> {
    let (receives, sends) = case.text("plan").split_once('\n').unwrap_or(("", ""));
    let plan = Plan {
        receives: planned(alloc, receives)?,
        sends: planned(alloc, sends)?,
    };
    let times = case.text("copies").parse::<u16>().unwrap_or(1);
    let room = case.text("room").parse::<u16>().unwrap_or(0);
    let held = held(alloc, case.text("datagrams"), times)?;
    MemoryLink::new(alloc, held, room as usize, plan)
}

// What a turn reports.
fn reported(out: &mut String, report: Result<Report, LinkDown>) -> Result<(), AllocError> {
    match report {
        Ok(report) => {
            let Report {
                fired,
                received,
                denied,
                ran,
                sent,
                lost,
            } = report;
            writeln!(
                out,
                "fired {fired} received {received} denied {denied} ran {ran} sent {sent} lost {lost}"
            )
        }
        Err(down) => writeln!(out, "refused {}", down.code()),
    }
}

// What a device answers to lines, of which `turn NOW` is a turn over the link.
fn turned(
    alloc: Global,
    page: &mut Page,
    device: &mut Device,
    link: &mut MemoryLink,
    lines: &str,
) -> Result<(), AllocError> {
    for line in lines.lines() {
        let (word, rest) = halves(line);
        if word == "turn" {
            let report = turn(device, link, page, rest.parse::<u64>().unwrap_or(0));
            reported(&mut page.text, report)?;
        } else {
            played(alloc, &mut page.text, device, line)?;
        }
    }
    if page.failed { Err(AllocError) } else { Ok(()) }
}

// What the link took, and how many of its calls failed.
fn told(alloc: Global, out: &mut String, link: &MemoryLink) -> Result<(), AllocError> {
    for index in 0..link.taken_len() {
        if let Some(bytes) = link.taken(index) {
            let digits = hex::encode_upper(alloc, bytes)?;
            out.push_str("took ")?;
            out.push_str(digits.as_str())?;
            out.push('\n')?;
        }
    }
    writeln!(out, "failures {}", link.failures())
}

// The answer of a device that has started.
fn answered(alloc: Global, case: &Case<'_>, device: &mut Device) -> Result<String, AllocError> {
    let mut link = link_of(alloc, case)?;
    let mut page = Page {
        text: String::new(alloc),
        failed: false,
    };
    turned(alloc, &mut page, device, &mut link, case.text("calls"))?;
    let Page {
        mut text,
        failed: _,
    } = page;
    told(alloc, &mut text, &link)?;
    Ok(ended(text))
}

/// What a device answers to the lines of `calls`, of which `turn NOW` is a turn over a link in memory; then what the link took, and how many of its calls failed.
pub fn turns(alloc: Global, case: &Case<'_>) -> Result<String, AllocError> {
    let text = text_of(alloc, case)?;
    match loaded(alloc, case, text.as_str(), case.text("device")) {
        Ok(ready) => {
            let mut device = ready.start();
            let answer = answered(alloc, case, &mut device);
            device.let_go();
            answer
        }
        Err(refusal) => refused(alloc, &refusal),
    }
}
