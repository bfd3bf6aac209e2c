//! What devices answer.

use fb_device::{
    Answer, Device, Dispatched, Effect, Opening, Ready, Refusal, Step, load, load_boot, load_from,
};
use fb_script::tell;
use fb_wire::{Stamp, encode};
use fbr_cases_language::{Case, ended, refused, text_of};
use std::alloc::{AllocError, Global};
use std::fmt::Write;

// The words of a text that are numbers.
pub(crate) fn numbers(alloc: Global, text: &str) -> Result<Vec<i64>, AllocError> {
    let mut found = Vec::new(alloc);
    for word in text.split_whitespace() {
        if let Ok(number) = word.parse::<i64>() {
            found.push(number)?;
        }
    }
    Ok(found)
}

// The bytes of hexadecimal digits; none where these are none.
pub(crate) fn bytes(alloc: Global, digits: &str) -> Result<Vec<u8>, AllocError> {
    match hex::decode(alloc, digits.replace(alloc, " ", "")?.as_str()) {
        Ok(bytes) => Ok(bytes),
        Err(_) => Ok(Vec::new(alloc)),
    }
}

// A number of an input, a block, an event or a resource; the largest one where it is none.
pub(crate) fn small(word: &str) -> u16 {
    word.parse::<u16>().unwrap_or(u16::MAX)
}

// The first word of a line, and what stands behind it.
pub(crate) fn halves(line: &str) -> (&str, &str) {
    line.split_once(' ').unwrap_or((line, ""))
}

// An offer, bytes, a moment or a dispatch: `offer NUMBER VALUES`, `deliver DIGITS`, `tick NOW`, `dispatch NUMBER`.
fn step(alloc: Global, line: &str) -> Result<Option<Step>, AllocError> {
    let (word, rest) = halves(line);
    match word {
        "dispatch" => Ok(Some(Step::Dispatch(small(rest)))),
        "deliver" => Ok(Some(Step::Deliver(bytes(alloc, rest)?))),
        "tick" => Ok(Some(Step::Tick(rest.parse::<u64>().unwrap_or(0)))),
        "offer" => {
            let (number, values) = halves(rest);
            Ok(Some(Step::Offer(small(number), numbers(alloc, values)?)))
        }
        _ => Ok(None),
    }
}

// The steps on all devices that an arrival may cause.
fn farther(out: &mut String, far: Option<u64>) -> Result<(), AllocError> {
    match far {
        Some(far) => writeln!(out, " far {far}"),
        None => out.push('\n'),
    }
}

// The arrival that opened a cause.
fn opened(out: &mut String, opening: Opening) -> Result<(), AllocError> {
    let Opening {
        block,
        event,
        weight,
        far,
    } = opening;
    write!(out, "block {block} event {event} weight {weight}")?;
    farther(out, far)
}

// A path and a name, on a line of their own.
fn line_of(out: &mut String, path: &str, name: &str) -> Result<(), AllocError> {
    out.push_str(path)?;
    out.push(' ')?;
    out.push_str(name)?;
    out.push('\n')
}

// What the device says of itself: `opening CAUSE`, `path BLOCK EVENT`, `name`.
fn asked(out: &mut String, device: &Device, line: &str) -> Result<(), AllocError> {
    let (word, rest) = halves(line);
    match word {
        "opening" => match device.opening(rest.parse::<u64>().unwrap_or(0)) {
            Some(opening) => opened(out, opening),
            None => out.push_str("none\n"),
        },
        "path" => {
            let (block, event) = halves(rest);
            match device.path(small(block), small(event)) {
                Some((path, name)) => line_of(out, path, name),
                None => out.push_str("none\n"),
            }
        }
        _ => {
            out.push_str(device.name())?;
            out.push('\n')
        }
    }
}

// The bytes of what was sent, on a line of their own.
fn sent(alloc: Global, out: &mut String, answer: &Answer) -> Result<(), AllocError> {
    if let Answer::Served(Dispatched::Ran(ran)) = answer {
        if let Some(Effect::Send(message)) = &ran.effect {
            let bytes = encode(message);
            let digits = hex::encode_upper(alloc, bytes.as_slice())?;
            out.push_str(digits.as_str())?;
            return out.push('\n');
        }
    }
    Ok(())
}

// What the device answers to a step, and the bytes of what was sent.
fn taken(
    alloc: Global,
    out: &mut String,
    device: &mut Device,
    step: Step,
) -> Result<(), AllocError> {
    let answer = match step {
        Step::Offer(number, values) => Answer::Admitted(device.offer(number, values.as_slice())),
        Step::Deliver(bytes) => Answer::Admitted(device.deliver(bytes.as_slice())),
        Step::Tick(now) => Answer::Fired(device.tick(now)),
        Step::Dispatch(number) => Answer::Served(device.dispatch(number)),
    };
    writeln!(out, "{}", tell(device, &answer, Some(1)))?;
    sent(alloc, out, &answer)
}

// What a device answers to lines.
pub(crate) fn played(
    alloc: Global,
    out: &mut String,
    device: &mut Device,
    lines: &str,
) -> Result<(), AllocError> {
    for line in lines.lines() {
        match step(alloc, line)? {
            Some(step) => taken(alloc, out, device, step)?,
            None => asked(out, device, line)?,
        }
    }
    Ok(())
}

// What a device answers to lines at the last of so many times, and then to others.
fn rounds(
    alloc: Global,
    device: &mut Device,
    times: u32,
    lines: &str,
    calls: &str,
) -> Result<String, AllocError> {
    let mut out = String::new(alloc);
    for _ in 0..times {
        out.clear();
        played(alloc, &mut out, device, lines)?;
    }
    played(alloc, &mut out, device, calls)?;
    Ok(ended(out))
}

// The device of a name, as `load` gives it. Where the section `boot` has the number of its first cause, as `load_from` does, and where it has a boot and a sequence
// number too, as `load_boot` does.
pub(crate) fn loaded(
    alloc: Global,
    case: &Case<'_>,
    text: &str,
    name: &str,
) -> Result<Ready, Refusal> {
    let certificate = case.text("certificate");
    let Some(given) = case.given("boot") else {
        return load(alloc, text, certificate, name);
    };
    let (first, rest) = halves(given);
    let first = first.parse::<u64>().unwrap_or(1);
    if rest.is_empty() {
        return load_from(alloc, text, certificate, name, first);
    }
    let (boot, next) = halves(rest);
    let stamp = Stamp {
        boot: boot.parse::<u32>().unwrap_or(0),
        sequence: next.parse::<u32>().unwrap_or(1),
    };
    load_boot(alloc, text, certificate, name, first, stamp)
}

/// What a device answers to the lines of the section `rounds` at the last time, whose first line says how often, and to those of `calls`.
pub fn devices(alloc: Global, case: &Case<'_>) -> Result<String, AllocError> {
    let text = text_of(alloc, case)?;
    let (times, lines) = case.text("rounds").split_once('\n').unwrap_or(("0", ""));
    let times = times.parse::<u32>().unwrap_or(0);
    match loaded(alloc, case, text.as_str(), case.text("device")) {
        Ok(ready) => {
            let mut device = ready.start();
            let answer = rounds(alloc, &mut device, times, lines, case.text("calls"));
            device.let_go();
            answer
        }
        Err(refusal) => refused(alloc, &refusal),
    }
}
