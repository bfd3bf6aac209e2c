//! What a device holds between two calls.

ghost use Rattle.std.specs.Prelude.{◌≡◌, ◌≤◌, length, None, slice_get, MatchOption};
ghost use Rattle.fb_device_state.specs.Keeping.{IsGood};
ghost use Rattle.fb_device_state.specs.Machines.{running_rows, running_device, running_leaves, running_state};
ghost use Rattle.fb_device.specs.Looks.{IsLook, IsFill};

use fb_chart::{Block, Condition, Store};
use fb_device_state::{Program, Running};

/// What a block holds: its path, the working values of its variables, the issued values of its outputs, and what it remembers.
#[derive(Clone, Copy)]
pub struct Look<'a> {
    pub path: &'a str,
    pub own: &'a Store,
    pub issued: &'a Store,
    pub condition: Condition,
}

/// How full the queue of a resource is.
#[derive(Clone, Copy)]
pub struct Fill<'a> {
    /// The name of the resource.
    pub name: &'a str,
    /// How many entries are pending.
    pub pending: usize,
    /// How many places no open cause holds.
    pub free: u64,
    /// How many places there are.
    pub depth: u64,
}

/// What the block of a number holds.
pub(crate) fn look_at<'a>(
    program: &'a Program,
    running: &'a Running,
    block: u16,
) -> Option<Look<'a>>
    requires { IsGood program.now running.now }
    ensures { MatchOption result (slice_get (running_leaves program.now running.now) block ≡ None) (IsLook (running_leaves program.now running.now) (running_state program.now running.now).store block) }
{
    let at = block as usize;
    let blocks: &[Block] = &program.tables.blocks;
    if at >= blocks.len() {
        return None;
    }
    let memory = &running.memory;
    Some(Look {
        path: blocks[at].path.as_str(),
        own: &memory.own[at],
        issued: &memory.issued[at],
        condition: memory.conditions[at],
    })
}

/// How full the queue of the resource of a number is.
pub(crate) fn fill_of<'a>(
    program: &'a Program,
    running: &Running,
    resource: u16,
) -> Option<Fill<'a>>
    requires { IsGood program.now running.now }
    ensures { MatchOption result (length (running_device program.now running.now).resources ≤ resource) (IsFill (running_rows program.now running.now) (running_device program.now running.now) (running_state program.now running.now) resource) }
{
    let at = resource as usize;
    if at >= running.queues.len() {
        return None;
    }
    let home = &program.tables.resources[at];
    let queue = &running.queues[at];
    Some(Fill {
        name: home.name.as_str(),
        pending: queue.len(),
        free: queue.free(),
        depth: home.depth,
    })
}
