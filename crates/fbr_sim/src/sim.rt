//! Runs a script on the world of a system's devices.

ghost use Rattle.std.specs.Prelude.{◌≡◌, ◌≤◌, IfOk, IfErr};
ghost use Rattle.std.specs.Io.Buffered.{reader_remaining};
ghost use Rattle.fbr_files.specs.declared.fault.Fault.TheVariants.{Memory};
ghost use Rattle.fbr_sim.specs.Simulation.{TellsEnd, IsFresh, TellsRunFrom, TellsScript};

use fb_device::share;
use fb_script::{End, simulate};
use fb_verified::Verified;
use fb_world::World;
use fbr_files::{Fault, print_outcome};
use fbr_scripts::Causes;
use std::alloc::Global;
use std::io;
use std::io::{BufReader, Read, Write};

/// Tells how a script has ended, and gives the program's status.
pub fn print_end<W: Write>(end: End, output: &mut W) -> io::Result<u8>
    ensures told { IfOk result (λ status. TellsEnd end (W.contents output.old) (W.contents output.new) status) }
    ensures status { IfOk result (λ status. status ≤ 4) }
{
    match end {
        End::Done => Ok(0),
        End::Line(number) => print_outcome(Err(Fault::Line(number)), output),
        End::Unreadable => print_outcome(Err(Fault::Input), output),
        End::OutOfMemory => print_outcome(Err(Fault::Memory), output),
    }
}

// Runs a script on a world.
fn run_world<I: Read, W: Write, E: Write>(
    alloc: Global,
    world: &mut World,
    script: &mut BufReader<I>,
    output: &mut W,
    causes: &mut Causes<'_, E>,
) -> io::Result<u8>
    ensures told { IfOk result (λ status. TellsRunFrom world.old (reader_remaining I.remaining script.old) (W.contents output.old) (W.contents output.new) status) }
    ensures status { IfOk result (λ status. status ≤ 4) }
{
    match simulate(alloc, world, script, output, causes) {
        Ok(end) => print_end(end, output),
        Err(error) => Err(error),
    }
}

// The first world of what was verified.
fn first_world<'a>(alloc: Global, verified: Verified) -> Result<World, Fault<'a>>
    ensures world { IfOk result (IsFresh verified) }
    ensures refused { IfErr result (λ fault. fault ≡ Memory) }
{
    match share(alloc, verified) {
        Ok(shared) => match World::over(alloc, shared) {
            Ok(world) => Ok(world),
            Err(_) => Err(Fault::Memory),
        },
        Err(_) => Err(Fault::Memory),
    }
}

// Runs a script on the first world of what was verified.
fn run_script<I: Read, W: Write, E: Write>(
    alloc: Global,
    verified: Verified,
    script: &mut BufReader<I>,
    output: &mut W,
    errors: &mut E,
) -> io::Result<u8>
    ensures told { IfOk result (λ status. TellsScript verified (reader_remaining I.remaining script.old) (W.contents output.old) (W.contents output.new) status) }
    ensures status { IfOk result (λ status. status ≤ 4) }
{
    let mut causes = Causes::of(alloc, verified.flat(), errors);
    match first_world(alloc, verified) {
        Ok(mut world) => {
            let ran = run_world(alloc, &mut world, script, output, &mut causes);
            causes.tell_unbound(&world);
            world.let_go();
            ran
        }
        Err(_) => print_outcome(Err(Fault::Memory), output),
    }
}

/// Runs the script on standard input on the first world of what was verified, line by line. Each answer is a line, and so is a refusal at its end. On `errors`
/// people are told which cause it was, where the number of a line that is denied or bad has several.
pub fn run_input<I: Read, W: Write, E: Write>(
    alloc: Global,
    verified: Verified,
    input: &mut I,
    output: &mut W,
    errors: &mut E,
) -> io::Result<u8>
    ensures told { IfOk result (λ status. TellsScript verified (I.remaining input.old) (W.contents output.old) (W.contents output.new) status) }
    ensures status { IfOk result (λ status. status ≤ 4) }
{
    match BufReader::new(alloc, input) {
        Ok(mut script) => run_script(alloc, verified, &mut script, output, errors),
        Err(_) => {
            verified.let_go();
            print_outcome(Err(Fault::Memory), output)
        }
    }
}
