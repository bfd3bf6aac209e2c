//! What worlds answer.

use crate::device::{halves, numbers, small};
use fb_script::{Told, tell};
use fb_world::{RootSteps, World};
use fb_world_course::{OutOfMemory, WorldAnswer, WorldEvent};
use fbr_cases_language::{Case, ended, refused, text_of};
use std::alloc::{AllocError, Global};
use std::fmt::Write;

// A number of a datagram, or a moment; 0 where it is none.
fn long(word: &str) -> u64 {
    word.parse::<u64>().unwrap_or(0)
}

// An event: `offer DEVICE INPUT VALUES`, `tick DEVICE NOW`, `dispatch DEVICE RESOURCE`, `deliver DATAGRAM DEVICE`.
fn event(alloc: Global, line: &str) -> Result<Option<WorldEvent>, AllocError> {
    let (word, rest) = halves(line);
    let (first, more) = halves(rest);
    match word {
        "tick" => Ok(Some(WorldEvent::Tick(small(first), long(more)))),
        "dispatch" => Ok(Some(WorldEvent::Dispatch(small(first), small(more)))),
        "deliver" => Ok(Some(WorldEvent::Deliver(long(first), small(more)))),
        "offer" => {
            let (input, values) = halves(more);
            let values = numbers(alloc, values)?;
            Ok(Some(WorldEvent::Offer(small(first), small(input), values)))
        }
        _ => Ok(None),
    }
}

// The events of lines.
fn events(alloc: Global, lines: &str) -> Result<Vec<WorldEvent>, AllocError> {
    let mut found = Vec::new(alloc);
    for line in lines.lines() {
        if let Some(event) = event(alloc, line)? {
            found.push(event)?;
        }
    }
    Ok(found)
}

// The device at which an event is.
fn device_of(event: &WorldEvent) -> u16 {
    match event {
        WorldEvent::Offer(device, _, _)
        | WorldEvent::Tick(device, _)
        | WorldEvent::Dispatch(device, _)
        | WorldEvent::Deliver(_, device) => *device,
    }
}

// The answer to an event.
fn told(
    out: &mut String,
    world: &World,
    event: &WorldEvent,
    answer: &WorldAnswer,
) -> Result<(), AllocError> {
    match answer {
        WorldAnswer::Answered(answer, sent) => match world.get(device_of(event)) {
            Some(device) => writeln!(out, "{}", tell(device, answer, *sent)),
            None => Ok(()),
        },
        WorldAnswer::Unknown => out.push_str("unknown\n"),
    }
}

// The steps of all roots, each on a line of its own.
fn roots(out: &mut String, world: &World) -> Result<(), AllocError> {
    for number in 1..u64::MAX {
        let Some(RootSteps { steps, far }) = world.root(number) else {
            return Ok(());
        };
        writeln!(out, "{}", Told::Root { number, steps, far })?;
    }
    Ok(())
}

// An event; where memory has run out, once more.
fn step(world: &mut World, event: &WorldEvent) -> Result<WorldAnswer, OutOfMemory> {
    match world.step(event) {
        Ok(answer) => Ok(answer),
        Err(_) => world.step(event),
    }
}

// Events all at once; where memory has run out, once more.
fn run(world: &mut World, events: &[WorldEvent]) -> Result<Vec<WorldAnswer>, OutOfMemory> {
    match world.run(events) {
        Ok(answers) => Ok(answers),
        Err(_) => world.run(events),
    }
}

// What a world answers to events, one at a time.
fn stepped(out: &mut String, world: &mut World, events: &[WorldEvent]) -> Result<(), AllocError> {
    for event in events {
        match step(world, event) {
            Ok(answer) => told(out, world, event, &answer)?,
            Err(_) => out.push_str("refused 9\n")?,
        }
    }
    Ok(())
}

// What a world answers to events all at once.
fn ran(out: &mut String, world: &mut World, events: &[WorldEvent]) -> Result<(), AllocError> {
    match run(world, events) {
        Ok(answers) => {
            for (index, answer) in answers.iter().enumerate() {
                if let Some(event) = events.get(index) {
                    told(out, world, event, answer)?;
                }
            }
            Ok(())
        }
        Err(_) => out.push_str("refused 9\n"),
    }
}

// What a world answers to events, all at once or one at a time.
fn answer(
    out: &mut String,
    world: &mut World,
    events: &[WorldEvent],
    at_once: bool,
) -> Result<(), AllocError> {
    if at_once {
        ran(out, world, events)
    } else {
        stepped(out, world, events)
    }
}

// What a case does with a world.
#[derive(Drop)]
struct Play {
    // Events whose answers are told.
    events: Vec<WorldEvent>,
    // Events behind them, whose answers are not told, and how often they come.
    more: Vec<WorldEvent>,
    rounds: u32,
}

// What a world answers to all of this, each list of events all at once or one event at a time; behind that the steps of its roots.
fn played(
    alloc: Global,
    world: &mut World,
    play: &Play,
    at_once: bool,
) -> Result<String, AllocError> {
    let mut out = String::new(alloc);
    answer(&mut out, world, play.events.as_slice(), at_once)?;
    let mut untold = String::new(alloc);
    for _ in 0..play.rounds {
        untold.clear();
        answer(&mut untold, world, play.more.as_slice(), at_once)?;
    }
    roots(&mut out, world)?;
    Ok(ended(out))
}

// What a first world answers.
fn answered(
    alloc: Global,
    text: &str,
    certificate: &str,
    play: &Play,
    at_once: bool,
) -> Result<String, AllocError> {
    match World::new(alloc, text, certificate) {
        Ok(mut world) => {
            let answer = played(alloc, &mut world, play, at_once);
            world.let_go();
            answer
        }
        Err(refusal) => refused(alloc, &refusal),
    }
}

/// What a world answers to the lines of `events`, then the steps of its roots, behind the lines of `rounds`, whose first says how often they come. It is asked one
/// event at a time; what a second world answers that gets them all at once is told where it differs.
pub fn worlds(alloc: Global, case: &Case<'_>) -> Result<String, AllocError> {
    let text = text_of(alloc, case)?;
    let (rounds, more) = case.text("rounds").split_once('\n').unwrap_or(("0", ""));
    let play = Play {
        events: events(alloc, case.text("events"))?,
        more: events(alloc, more)?,
        rounds: rounds.parse::<u32>().unwrap_or(0),
    };
    let certificate = case.text("certificate");
    let one = answered(alloc, text.as_str(), certificate, &play, false)?;
    let all = answered(alloc, text.as_str(), certificate, &play, true)?;
    if one.as_str() == all.as_str() {
        return Ok(one);
    }
    format!(in alloc; "{one}\nall at once:\n{all}")
}
