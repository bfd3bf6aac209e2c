//! The start of a device.

ghost use Rattle.std.specs.Prelude.{◌≡◌, ◌≤◌, ◌<◌, ◌+◌, ◌^◌, true, length, Some, slice_get, if◌then◌else◌};
ghost use Rattle.fb_model.specs.Messages.{Stamp, IsStamp};
ghost use Rattle.fb_model.specs.Wires.{Leaf};
ghost use Rattle.fb_model.specs.Certificates.{is_restart};
ghost use Rattle.fb_model.specs.Devices.{HasRoom, admitted, beginning, begun, silent};
ghost use Rattle.fb_chart.specs.Views.{body_kind};
ghost use Rattle.fb_device_state.specs.Sessions.{next_of};
ghost use Rattle.fb_device_state.specs.Machines.{running_rows, running_device, running_leaves, running_state};
ghost use Rattle.fb_device_state.specs.Keeping.{IsGood};

use fb_chart::{Body, Point, Values};
use fb_device_state::{Program, Running, admit};
use fb_types_services::Service;

// Whether a body is an E_RESTART.
fn begins(body: &Body) -> bool
    ensures { result ≡ is_restart (body_kind body.now) }
{
    match body {
        Body::Served(Service::Restart) => true,
        _ => false,
    }
}

// Admits the BEGIN of a block, where it is an E_RESTART.
fn begin_one(program: &Program, running: &mut Running, block: u16)
    requires good { IsGood program.now running.old }
    requires within { block < length (running_leaves program.now running.old) }
    requires room { (leaf : Leaf) → slice_get (running_leaves program.now running.old) block ≡ Some leaf → is_restart leaf.kind ≡ true
        → HasRoom (running_rows program.now running.old) (running_device program.now running.old) (running_state program.now running.old) (beginning leaf) }
    ensures begun { (leaf : Leaf) → slice_get (running_leaves program.now running.old) block ≡ Some leaf
        → running_state program.now running.new ≡ (if is_restart leaf.kind then admitted (running_state program.now running.old) (beginning leaf) else running_state program.now running.old) }
    ensures good { IsGood program.now running.new }
{
    if begins(&program.tables.blocks[block as usize].body) {
        let _ = admit(program, running, Point { block, event: 0 }, Values::new());
    }
}

/// Admits every BEGIN of a device to which nothing has happened, in resource and block order. There is room for all: the certificate pays for them.
pub fn begin(program: &Program, running: &mut Running)
    requires good { IsGood program.now running.old }
    requires silent { (stamp : Stamp) × IsStamp stamp × (running_state program.now running.old ≡ silent (running_device program.now running.old) (next_of running.old.next) stamp) }
    requires numbers { next_of running.old.next + length (running_leaves program.now running.old) ≤ 2 ^ 64 }
    ensures begun { running_state program.now running.new ≡ begun (running_leaves program.now running.old) (running_state program.now running.old) }
    ensures good { IsGood program.now running.new }
{
    for at in 0..program.tables.blocks.len() {
        begin_one(program, running, at as u16);
    }
}
