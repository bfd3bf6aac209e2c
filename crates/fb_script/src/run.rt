//! Whole scripts.

ghost use Rattle.std.specs.Prelude.{◌≡◌, IfOk, MatchResult, Some, slice_get};
ghost use Rattle.std.specs.Io.Buffered.{reader_remaining};
ghost use Rattle.std.specs.Io.KnownBytes.{Keeps};
ghost use Rattle.std.specs.Str.Lines.{StripsCarriageReturn};
ghost use Rattle.fb_model.specs.System.{Device};
ghost use Rattle.fb_model.specs.World.{At_device, A_dispatch};
ghost use Rattle.fb_device.specs.Answers.{answer_of, HasPlace};
ghost use Rattle.fb_device_dispatch.specs.Answers.{dispatched_of, HasPoint};
ghost use Rattle.fb_world_course.specs.Scenes.{system_of};
ghost use Rattle.fb_world_course.specs.Answers.{device_of, event_of, leaves_at};
ghost use Rattle.fb_world.specs.Answers.{steps_of};
ghost use Rattle.fb_script.specs.Texts.{answer_text, root_text, told_text};
ghost use Rattle.fb_script.specs.Views.{command_of};
ghost use Rattle.fb_script.specs.Steps.{IsWritten, HasHappened, IsObeyed, IsStep};
ghost use Rattle.fb_script.specs.Runs.{HaltsAt, IsLine, IsRun};
ghost use Rattle.fb_script.specs.declared.run.End.TheVariants.{Unreadable};

use crate::line::{Line, LineFault, read_line};
use crate::playing::{Asked, ask, tell, tell_dispatched};
use crate::told::Told;
use crate::witness::{Witness, hear, hear_unknown};
use fb_device::{Answer, Dispatched};
use fb_world::{Missed, RootSteps, World};
use fb_world_course::{WorldAnswer, WorldEvent};
use fbr_lines::{Next, next_line};
use std::alloc::Global;
use std::io;
use std::io::{BufReader, Read, Write};

// The most bytes of a line, its line feed counted.
const LONGEST: usize = 1_048_576;

/// How a script ends.
#[derive(Clone, Copy)]
pub enum End {
    /// Every line was run.
    Done,
    /// The line of this number, counted from 1, is of another form, or its device, its resource, its datagram or its root is unknown. Neither it nor a later one was run.
    Line(usize),
    /// The script could not be read on, or its next line is no UTF-8 or has more than 1,048,576 bytes. No later line was run.
    Unreadable,
    /// Memory ran out at a line. Neither it nor a later one was run.
    OutOfMemory,
}

// Writes what is told, on a line of its own.
fn write_told<W: Write>(told: &Told<'_>, output: &mut W) -> io::Result<()>
    ensures { IfOk result (λ _. IsWritten (told_text told.now) (W.contents output.old) (W.contents output.new)) }
{
    writeln!(output, "{told}")
}

// Writes the answer of the device of a number.
fn write_answer<W: Write>(
    world: &World,
    device: u16,
    answer: &Answer,
    sent: Option<u64>,
    output: &mut W,
) -> io::Result<()>
    requires there { (d : Device) × (slice_get (system_of world.now).devices device ≡ Some d) }
    requires place { HasPlace (leaves_at (system_of world.now) device) answer.now }
    ensures { IfOk result (λ _. IsWritten (answer_text sent (answer_of (leaves_at (system_of world.now) device) answer.now)) (W.contents output.old) (W.contents output.new)) }
{
    match world.get(device) {
        Some(device) => write_told(&tell(device, answer, sent), output),
        None => Ok(()),
    }
}

// Writes the answer to a dispatch at the device of a number.
fn write_dispatched<W: Write>(
    world: &World,
    device: u16,
    answer: &Dispatched,
    sent: Option<u64>,
    output: &mut W,
) -> io::Result<()>
    requires there { (d : Device) × (slice_get (system_of world.now).devices device ≡ Some d) }
    requires point { HasPoint (leaves_at (system_of world.now) device) answer.now }
    ensures { IfOk result (λ _. IsWritten (answer_text sent (dispatched_of (leaves_at (system_of world.now) device) answer.now)) (W.contents output.old) (W.contents output.new)) }
{
    match world.get(device) {
        Some(device) => write_told(&tell_dispatched(device, answer, sent), output),
        None => Ok(()),
    }
}

// Writes the steps of a root.
fn write_root<W: Write>(root: u64, told: RootSteps, output: &mut W) -> io::Result<()>
    ensures { IfOk result (λ _. IsWritten (root_text root (steps_of told)) (W.contents output.old) (W.contents output.new)) }
{
    let RootSteps { steps, far } = told;
    write_told(
        &Told::Root {
            number: root,
            steps,
            far,
        },
        output,
    )
}

// An event happens at the device of a number, and its answer is written. Gives how the script ends, if it does there.
fn happen<W: Write, V: Witness>(
    world: &mut World,
    device: u16,
    event: &WorldEvent,
    number: usize,
    output: &mut W,
    witness: &mut V,
) -> io::Result<Option<End>>
    requires there { (d : Device) × (slice_get (system_of world.old).devices device ≡ Some d) }
    requires device { device_of event.now ≡ device }
    ensures happens { IfOk result (λ end. HasHappened world.old (event_of event.now) number (W.contents output.old) (W.contents output.new) end world.new) }
    ensures same { world.new.verified ≡ world.old.verified }
{
    let answered = world.step(event);
    match &answered {
        Ok(WorldAnswer::Answered(answer, sent)) => {
            hear(number, event, answer, witness);
            write_answer(world, device, answer, *sent, output)?;
            Ok(None)
        }
        Ok(WorldAnswer::Unknown) => {
            hear_unknown(number, event, witness);
            Ok(Some(End::Line(number)))
        }
        Err(_) => Ok(Some(End::OutOfMemory)),
    }
}

// A dispatch happens at the device of a number, and its answer is written. Gives how the script ends, if it does there.
fn dispatch<W: Write>(
    world: &mut World,
    device: u16,
    resource: u16,
    number: usize,
    output: &mut W,
) -> io::Result<Option<End>>
    requires { (d : Device) × (slice_get (system_of world.old).devices device ≡ Some d) }
    ensures happens { IfOk result (λ end. HasHappened world.old (At_device device (A_dispatch resource)) number (W.contents output.old) (W.contents output.new) end world.new) }
    ensures same { world.new.verified ≡ world.old.verified }
{
    let mut answer = Dispatched::Idle;
    match world.dispatch(device, resource, &mut answer) {
        Ok(sent) => {
            write_dispatched(world, device, &answer, sent, output)?;
            Ok(None)
        }
        Err(Missed::Unknown) => Ok(Some(End::Line(number))),
        Err(Missed::OutOfMemory) => Ok(Some(End::OutOfMemory)),
    }
}

// Runs a command, and writes its answer. Gives how the script ends, if it does there.
fn obey<W: Write, V: Witness>(
    world: &mut World,
    line: Line<'_>,
    number: usize,
    output: &mut W,
    witness: &mut V,
) -> io::Result<Option<End>>
    ensures obeys { IfOk result (λ end. IsObeyed world.old (command_of line.entry) number (W.contents output.old) (W.contents output.new) end world.new) }
    ensures same { world.new.verified ≡ world.old.verified }
{
    match ask(world, line) {
        Asked::Event(device, event) => happen(world, device, &event, number, output, witness),
        Asked::Dispatch(device, resource) => dispatch(world, device, resource, number, output),
        Asked::Root(root, told) => {
            witness.asked(root);
            write_root(root, told, output)?;
            Ok(None)
        }
        Asked::Unknown(missing) => {
            witness.missing(number, missing);
            Ok(Some(End::Line(number)))
        }
    }
}

// Runs a line. Gives how the script ends, if it does there.
fn step<W: Write, V: Witness>(
    alloc: Global,
    world: &mut World,
    line: &str,
    number: usize,
    output: &mut W,
    witness: &mut V,
) -> io::Result<Option<End>>
    ensures steps { IfOk result (λ end. IsStep world.old line.now number (W.contents output.old) (W.contents output.new) end world.new) }
    ensures same { world.new.verified ≡ world.old.verified }
{
    match read_line(alloc, line) {
        Ok(Some(line)) => obey(world, line, number, output, witness),
        Ok(None) => Ok(None),
        Err(LineFault::Form(misread)) => {
            witness.misread(number, line, misread);
            Ok(Some(End::Line(number)))
        }
        Err(LineFault::OutOfMemory) => Ok(Some(End::OutOfMemory)),
    }
}

// A line without the carriage return at its end, where there is one.
fn without_return(line: &[u8]) -> &[u8]
    ensures { StripsCarriageReturn line.now result.now }
{
    match line {
        [rest @ .., b'\r'] => rest,
        _ => line,
    }
}

// A text, where bytes are one.
fn text_in(bytes: &[u8]) -> Result<&str, End>
    ensures { MatchResult result (λ text. text.now ≡ bytes.now) (λ end. end ≡ Unreadable) }
{
    match str::from_utf8(bytes) {
        Ok(text) => Ok(text),
        Err(_) => Err(End::Unreadable),
    }
}

/// The next line of a script, or how it ends. A carriage return before a line feed belongs to it.
pub fn next_text<'l, I: Read>(
    script: &mut BufReader<I>,
    line: &'l mut Vec<u8>,
) -> Result<&'l str, End>
    ensures { MatchResult result (λ text. IsLine (reader_remaining I.remaining script.old) text.now (reader_remaining I.remaining script.new)) (HaltsAt (reader_remaining I.remaining script.old)) }
{
    match next_line(script, line, LONGEST) {
        Next::Whole => text_in(without_return(line)),
        Next::Last => text_in(line),
        Next::End => Err(End::Done),
        Next::TooLong => Err(End::Unreadable),
        Next::Failed => Err(End::Unreadable),
        Next::Memory => Err(End::OutOfMemory),
    }
}

// Shows what was written where that is waited for.
fn show<W: Write>(is_waited: bool, output: &mut W) -> io::Result<()>
    ensures { IfOk result (λ _. Keeps (W.contents output.old) (W.contents output.new)) }
{
    if is_waited { output.flush() } else { Ok(()) }
}

/// Runs the lines of a script on a world, in order, up to the first that is bad. Each answer is written on a line of its own, and shown before the script is waited
/// for. The datagrams of all devices are numbered from 1 as they are sent, and come to a device where a line delivers them. The witness is told of lines that are
/// denied or bad, and of the roots that lines ask for.
pub fn simulate<I: Read, W: Write, V: Witness>(
    alloc: Global,
    world: &mut World,
    script: &mut BufReader<I>,
    output: &mut W,
    witness: &mut V,
) -> io::Result<End>
    ensures runs { IfOk result (λ end. IsRun world.old (reader_remaining I.remaining script.old) (W.contents output.old) (W.contents output.new) end world.new) }
    ensures same { world.new.verified ≡ world.old.verified }
{
    let mut line = Vec::new(alloc);
    for number in 1..usize::MAX {
        let text = match next_text(script, &mut line) {
            Ok(text) => text,
            Err(end) => return Ok(end),
        };
        match step(alloc, world, text, number, output, witness) {
            Ok(None) => {}
            Ok(Some(end)) => return Ok(end),
            Err(error) => return Err(error),
        }
        show(script.buffer().is_empty(), output)?;
    }
    Ok(End::Unreadable)
}
