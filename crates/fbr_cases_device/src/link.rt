//! What two devices do with each other over sockets.

use crate::device::loaded;
use crate::turn::Page;
use fb_device::{Device, Refusal};
use fb_link::UdpLink;
use fb_turn::turn;
use fbr_cases_language::{Case, ended, refused, text_of};
use std::alloc::{AllocError, Global};
use std::net::Net;

// The most turns of each device.
const TURNS: u16 = 1_000;

// Both devices take turns, the first is offered its button once both are ready, and they go on until the second writes.
fn take_turns(
    one: &mut Device,
    other: &mut Device,
    links: (UdpLink, UdpLink),
    page: &mut Page,
    unheard: &mut Page,
) {
    let (mut from, mut to) = links;
    for round in 0..TURNS {
        if round == 2 && one.offer(1, &[]).is_err() {
            return;
        }
        if turn(one, &mut from, unheard, 0).is_err() || turn(other, &mut to, page, 0).is_err() {
            return;
        }
        if !page.text.is_empty() {
            return;
        }
    }
}

// What nothing was written to yet.
fn blank(alloc: Global) -> Page {
    Page {
        text: String::new(alloc),
        failed: false,
    }
}

// What the second device writes once the first has its button offered; each has a port, and the other's as its peer.
fn talked<R: Net>(
    rt: &R,
    alloc: Global,
    one: &mut Device,
    other: &mut Device,
    ports: (u16, u16),
) -> Result<String, AllocError> {
    let (from, to) = ports;
    let links = match (
        UdpLink::open(rt, from, &[to]),
        UdpLink::open(rt, to, &[from]),
    ) {
        (Ok(first), Ok(second)) => (first, second),
        _ => return String::from_str(alloc, "no socket"),
    };
    let mut page = blank(alloc);
    let mut unheard = blank(alloc);
    take_turns(one, other, links, &mut page, &mut unheard);
    let Page { text, failed } = page;
    if failed {
        Err(AllocError)
    } else {
        Ok(ended(text))
    }
}

// The device of a name, started.
fn started(alloc: Global, case: &Case<'_>, text: &str, name: &str) -> Result<Device, Refusal> {
    let ready = loaded(alloc, case, text, name)?;
    Ok(ready.start())
}

// The two devices of a case.
fn pair(alloc: Global, case: &Case<'_>, text: &str) -> Result<(Device, Device), Refusal> {
    let (one, other) = case.text("devices").split_once(' ').unwrap_or(("", ""));
    let first = started(alloc, case, text, one)?;
    match started(alloc, case, text, other) {
        Ok(second) => Ok((first, second)),
        Err(refusal) => {
            first.let_go();
            Err(refusal)
        }
    }
}

/// What the second of the section `devices` writes, over two sockets of the ports of the section `ports`, once the INPUT 1 of the first is offered.
pub fn links<R: Net>(rt: &R, alloc: Global, case: &Case<'_>) -> Result<String, AllocError> {
    let text = text_of(alloc, case)?;
    let (one, other) = case.text("ports").split_once(' ').unwrap_or(("", ""));
    let ports = (
        one.parse::<u16>().unwrap_or(0),
        other.parse::<u16>().unwrap_or(0),
    );
    match pair(alloc, case, text.as_str()) {
        Ok((mut first, mut second)) => {
            let answer = talked(rt, alloc, &mut first, &mut second, ports);
            first.let_go();
            second.let_go();
            answer
        }
        Err(refusal) => refused(alloc, &refusal),
    }
}
