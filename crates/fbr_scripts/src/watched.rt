//! Runs a script on the world of a system's devices, and watches it, or tells it to programs.

use crate::causes::Causes;
use fb_device::{Answer, Dispatched, Ran, release, share};
use fb_script::{
    Asked, End, LineFault, Told, Witness, ask, hear, hear_unknown, next_text, read_line, tell,
    tell_dispatched,
};
use fb_verified::Verified;
use fb_world::{Missed, RootSteps, World};
use fb_world_course::{WorldAnswer, WorldEvent};
use fbr_answers::answer_object;
use fbr_files::Fault;
use fbr_watch::{RanAt, Seen, Watching, Wish};
use std::alloc::{AllocError, Global};
use std::io;
use std::io::{BufReader, Read, Write};
use std::rc::Rc;

/// How a script has ended that was watched, and what was kept of it.
#[derive(Drop)]
pub struct Simulated {
    pub end: End,
    pub seen: Seen,
}

impl Simulated {
    /// Why the script was not run to its end, where it was not.
    pub fn fault(&self) -> Option<Fault<'static>> {
        match self.end {
            End::Done => None,
            End::Line(number) => Some(Fault::Line(number)),
            End::Unreadable => Some(Fault::Input),
            End::OutOfMemory => Some(Fault::Memory),
        }
    }
}

// What watches a world, the moment of each device's clock, where lines go, and whether they are for programs.
#[derive(Drop)]
struct Course<'w, 's, 'a, W> {
    alloc: Global,
    is_json: bool,
    watching: &'w mut Watching<'s, 'a, Vec<u8>>,
    moments: Vec<u64>,
    output: &'w mut W,
}

// The moment that an event brings to the clock of its device, where it brings one.
fn moment_in(event: &WorldEvent) -> Option<u64> {
    match event {
        WorldEvent::Tick(_, now) => Some(*now),
        _ => None,
    }
}

impl<W: Write> Course<'_, '_, '_, W> {
    // All devices are seen for the first time.
    fn begin(&mut self, world: &World) -> Result<(), AllocError> {
        self.watching.begin(None, self.output);
        for number in 0..u16::MAX {
            let Some(device) = world.get(number) else {
                break;
            };
            self.moments.push(0)?;
            self.watching.first(number, device, self.output);
        }
        Ok(())
    }

    // The moment of the clock of the device of a number.
    fn moment(&self, device: u16) -> u64 {
        match self.moments.get(usize::from(device)) {
            Some(moment) => *moment,
            None => 0,
        }
    }

    // An event happened at the device of a number: its queues are looked at.
    fn look(&mut self, world: &World, number: u16, event: &WorldEvent) {
        if let Some(now) = moment_in(event) {
            if let Some(moment) = self.moments.get_mut(usize::from(number)) {
                // A clock does not go back.
                *moment = now.max(*moment);
            }
        }
        let moment = self.moment(number);
        if let Some(device) = world.get(number) {
            self.watching.came(number, device, moment, self.output);
        }
    }

    // A block ran at the device of a number, at a dispatch of the resource of a number.
    fn look_at(&mut self, world: &World, number: u16, resource: u16, ran: &Ran) {
        let at = RanAt {
            resource,
            now: self.moment(number),
            ran,
        };
        if let Some(device) = world.get(number) {
            self.watching.ran(number, device, at, self.output);
        }
    }

    // Writes an answer on a line.
    fn write_told(&mut self, told: &Told<'_>) -> io::Result<()> {
        if self.is_json {
            answer_object(self.alloc, told).write(self.output)
        } else {
            writeln!(self.output, "{told}")
        }
    }

    // Writes the answer of the device of a number.
    fn write_answer(
        &mut self,
        world: &World,
        device: u16,
        answer: &Answer,
        sent: Option<u64>,
    ) -> io::Result<()> {
        match world.get(device) {
            Some(station) => {
                let told = tell(station, answer, sent);
                self.write_told(&told)
            }
            None => Ok(()),
        }
    }

    // An event happens at the device of a number. Gives how the script ends, if it does there.
    fn happen<E: Write>(
        &mut self,
        world: &mut World,
        device: u16,
        event: &WorldEvent,
        line: usize,
        causes: &mut Causes<'_, E>,
    ) -> io::Result<Option<End>> {
        let answered = world.step(event);
        match &answered {
            Ok(WorldAnswer::Answered(answer, sent)) => {
                hear(line, event, answer, causes);
                self.write_answer(world, device, answer, *sent)?;
                self.look(world, device, event);
                Ok(None)
            }
            Ok(WorldAnswer::Unknown) => {
                hear_unknown(line, event, causes);
                Ok(Some(End::Line(line)))
            }
            Err(_) => Ok(Some(End::OutOfMemory)),
        }
    }

    // A resource of the device of a number is dispatched. Gives how the script ends, if it does there.
    fn dispatch(
        &mut self,
        world: &mut World,
        device: u16,
        resource: u16,
        line: usize,
    ) -> io::Result<Option<End>> {
        let mut answer = Dispatched::Idle;
        match world.dispatch(device, resource, &mut answer) {
            Ok(sent) => {
                if let Some(station) = world.get(device) {
                    let told = tell_dispatched(station, &answer, sent);
                    self.write_told(&told)?;
                }
                if let Dispatched::Ran(ran) = &answer {
                    self.look_at(world, device, resource, ran);
                }
                Ok(None)
            }
            Err(Missed::Unknown) => Ok(Some(End::Line(line))),
            Err(Missed::OutOfMemory) => Ok(Some(End::OutOfMemory)),
        }
    }

    // Tells the steps of a root.
    fn tell_root(&mut self, number: u64, told: RootSteps) -> io::Result<()> {
        let told = Told::Root {
            number,
            steps: told.steps,
            far: told.far,
        };
        self.write_told(&told)
    }

    // Runs a line. Gives how the script ends, if it does there.
    fn step<E: Write>(
        &mut self,
        alloc: Global,
        world: &mut World,
        text: &str,
        line: usize,
        causes: &mut Causes<'_, E>,
    ) -> io::Result<Option<End>> {
        let read = match read_line(alloc, text) {
            Ok(Some(read)) => read,
            Ok(None) => return Ok(None),
            Err(LineFault::Form(misread)) => {
                causes.misread(line, text, misread);
                return Ok(Some(End::Line(line)));
            }
            Err(LineFault::OutOfMemory) => return Ok(Some(End::OutOfMemory)),
        };
        match ask(world, read) {
            Asked::Event(device, event) => self.happen(world, device, &event, line, causes),
            Asked::Dispatch(device, resource) => self.dispatch(world, device, resource, line),
            Asked::Root(root, told) => {
                causes.asked(root);
                self.tell_root(root, told)?;
                Ok(None)
            }
            Asked::Unknown(missing) => {
                causes.missing(line, missing);
                Ok(Some(End::Line(line)))
            }
        }
    }

    // Runs the lines of a script, in order, up to the first that is bad.
    fn run<I: Read, E: Write>(
        &mut self,
        alloc: Global,
        world: &mut World,
        script: &mut BufReader<I>,
        causes: &mut Causes<'_, E>,
    ) -> io::Result<End> {
        let mut line = Vec::new(alloc);
        for number in 1..usize::MAX {
            let text = match next_text(script, &mut line) {
                Ok(text) => text,
                Err(end) => return Ok(end),
            };
            if let Some(end) = self.step(alloc, world, text, number, causes)? {
                return Ok(end);
            }
            if script.buffer().is_empty() {
                self.output.flush()?;
            }
        }
        Ok(End::Unreadable)
    }
}

// Runs a script on a world, and watches it.
fn run_on<I: Read, W: Write, E: Write>(
    alloc: Global,
    world: &mut World,
    is_json: bool,
    watching: &mut Watching<'_, '_, Vec<u8>>,
    input: &mut I,
    output: &mut W,
    causes: &mut Causes<'_, E>,
) -> io::Result<End> {
    let mut script = BufReader::new(alloc, &mut *input)?;
    let mut course = Course {
        alloc,
        is_json,
        watching,
        moments: Vec::new(alloc),
        output,
    };
    match course.begin(world) {
        Ok(()) => course.run(alloc, world, &mut script, causes),
        Err(_) => Ok(End::OutOfMemory),
    }
}

// Runs a script on the first world of what was verified, and watches it.
fn run_shared<I: Read, W: Write, E: Write>(
    alloc: Global,
    shared: &Rc<Verified>,
    wish: Wish<'_, '_>,
    input: &mut I,
    output: &mut W,
    errors: &mut E,
) -> io::Result<Result<Simulated, Fault<'static>>> {
    let signals = match wish.signals(alloc, shared.flat(), None) {
        Ok(signals) => signals,
        Err(unwatched) => {
            return Ok(Err(if unwatched.tell(errors) {
                Fault::Usage
            } else {
                Fault::Memory
            }));
        }
    };
    let Ok(mut watching) = wish.watching(alloc, &signals) else {
        return Ok(Err(Fault::Memory));
    };
    let Ok(mut world) = World::over(alloc, shared.clone()?) else {
        return Ok(Err(Fault::Memory));
    };
    let mut causes = Causes::of(alloc, shared.flat(), errors);
    let ended = run_on(
        alloc,
        &mut world,
        wish.is_json,
        &mut watching,
        input,
        output,
        &mut causes,
    );
    causes.tell_unbound(&world);
    world.let_go();
    let end = ended?;
    Ok(Ok(Simulated {
        end,
        seen: Seen::of(alloc, watching)?,
    }))
}

/// Runs the script on standard input on the first world of what was verified, line by line, and watches it: behind each answer stand the lines of what has changed
/// at the paths that are watched. Answers and changes are lines for people, or objects for programs. Where a path names nothing, people are told on `errors`, and nothing is run (`Usage`, 63). `print_end` tells how the script ended.
pub fn run_watched<I: Read, W: Write, E: Write>(
    alloc: Global,
    verified: Verified,
    wish: Wish<'_, '_>,
    input: &mut I,
    output: &mut W,
    errors: &mut E,
) -> io::Result<Result<Simulated, Fault<'static>>> {
    match share(alloc, verified) {
        Ok(shared) => {
            let ran = run_shared(alloc, &shared, wish, input, output, errors);
            release(shared);
            ran
        }
        Err(_) => Ok(Err(Fault::Memory)),
    }
}
