//! Names of a device's blocks, events and resources.

ghost use Rattle.std.specs.Prelude.{ℕ, ◌≡◌, ◌<◌, ◌≤◌, length, map, string_bytes, List, Some, IfSome, MatchOption};
ghost use Rattle.std.specs.List.{AllByRecursion};
ghost use Rattle.fb_model.specs.Wires.{Leaf};
ghost use Rattle.fb_model.specs.Certificates.{Certificate};
ghost use Rattle.st_exec.specs.Cells.{Form};
ghost use Rattle.fb_chart.specs.declared.standing.Ports.{Ports};
ghost use Rattle.fb_verified.specs.Checked.{system_in};
ghost use Rattle.fb_verified.specs.Lookups.{is_same_path};
ghost use Rattle.fb_device_tables.specs.Tables.{AreBlocks};
ghost use Rattle.fb_sched.specs.declared.reaction.Reaction.{Reaction};
ghost use Rattle.fb_sched.specs.Agenda.{Agenda, slot_at};
ghost use Rattle.fb_device_state.specs.Machines.{device_at};
ghost use Rattle.fb_device_state.specs.Numbers.{IsKnown};
ghost use Rattle.fb_device.specs.Answers.{IsNamed, IsNoPoint};
ghost use Rattle.fb_device.specs.Finding.{first_named};
ghost use Rattle.fb_device.specs.Openings.{opening_at, IsOpeningIn};

use crate::answer::Opening;
use fb_chart::{Block, Point};
use fb_device_state::Program;
use fb_device_tables::Resource;
use fb_sched::Queue;

/// The name of the device.
pub fn name(program: &Program) -> &str
    requires { program.now.number < length program.now.verified.value.typed.devices.items }
    ensures { result.now ≡ (device_at (system_in program.now.verified.value).devices program.now.number).name }
{
    program.verified.typed().devices[program.number]
        .name
        .as_str()
}

/// The path of a block and the name of its event, by their numbers.
pub fn path(blocks: &[Block], block: u16, event: u16) -> Option<(&str, &str)>
    ensures { (cert : Certificate) (all : List Leaf) (issues owns rest : List (List Form)) (ports : List Ports) → AreBlocks cert all issues owns rest blocks.now ports all → MatchOption result (IsNoPoint all block event) (λ r. IsNamed all block event r.0.now r.1.now) }
{
    let at = block as usize;
    if at >= blocks.len() {
        return None;
    }
    let events = &blocks[at].events;
    let place = event as usize;
    if place >= events.len() {
        return None;
    }
    Some((blocks[at].path.as_str(), events[place].name.as_str()))
}

/// Whether two names are the same but for letter case.
pub fn is_same(one: &str, other: &str) -> bool
    ensures { result ≡ is_same_path one.now other.now }
{
    one.eq_ignore_ascii_case(other)
}

/// The number of the first resource of a name.
pub fn resource(resources: &[Resource], name: &str) -> Option<u16>
    requires { length resources.now ≤ 65535 }
    ensures { result ≡ first_named (map (λ r. string_bytes r.name) resources.now) name.now }
{
    for at in 0..resources.len() {
        if is_same(resources[at].name.as_str(), name) {
            return Some(at as u16);
        }
    }
    None
}

// An arrival with the numbers of its rows.
fn arrival(blocks: &[Block], point: Point) -> Opening
    requires { IsKnown blocks.now point }
    ensures { result ≡ opening_at blocks.now point }
{
    let event = &blocks[point.block as usize].events[point.event as usize];
    Opening {
        block: point.block,
        event: point.event,
        weight: event.steps,
        far: event.far,
    }
}

// The arrival that opened a cause, where it is newer than all that was pending in its queue before it.
fn newest(blocks: &[Block], queues: &[Queue], cause: u64) -> Option<Opening>
    requires { AllByRecursion (λ (a : Agenda). (slot : ℕ) (r : Reaction) → slot_at a.slots slot ≡ Some r → IsKnown blocks.now r.opening) queues.now }
    ensures { IfSome result (λ o. IsOpeningIn blocks.now queues.now cause (Some o)) }
{
    for queue in queues {
        if let Some(reaction) = queue.find_newest(cause) {
            return Some(arrival(blocks, reaction.opening));
        }
    }
    None
}

/// The arrival that opened a cause which has not ended. Where it has just been opened, alone or with others, it is found by halving.
pub fn opening(blocks: &[Block], queues: &[Queue], cause: u64) -> Option<Opening>
    requires { AllByRecursion (λ (a : Agenda). (slot : ℕ) (r : Reaction) → slot_at a.slots slot ≡ Some r → IsKnown blocks.now r.opening) queues.now }
    ensures { IsOpeningIn blocks.now queues.now cause result }
{
    if let Some(opening) = newest(blocks, queues, cause) {
        return Some(opening);
    }
    for queue in queues {
        if let Some(reaction) = queue.find(cause) {
            return Some(arrival(blocks, reaction.opening));
        }
    }
    None
}
