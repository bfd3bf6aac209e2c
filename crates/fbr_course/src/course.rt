//! The course of a world in a sequence: it is served until nothing is left to do, and time goes on.

use crate::seen::{Sight, Sights};
use fb_device::{Answer, Denied, Effect, Ran};
use fb_drain::{Witness, drain};
use fb_world::World;
use fb_world_course::{WorldAnswer, WorldEvent};
use fbr_network::{Datagram, Network};
use fbr_story::{Arrival, Cause};
use fbr_watch::{RanAt, Watching};
use std::alloc::{AllocError, Global};
use std::io::Write;

/// The most dispatches of a stimulus.
pub(crate) const MOST: u64 = 1_000_000;

/// How far a world of so many devices has come, and what the outside saw since the last stimulus.
#[derive(Drop)]
pub(crate) struct Course<'w, 's, 'a, F, W> {
    alloc: Global,
    pub(crate) devices: u16,
    /// Where the clocks of all devices stand, in milliseconds.
    moment: u64,
    pub(crate) network: Network,
    pub(crate) sights: Sights,
    /// How many more dispatches the stimulus may cause.
    left: u64,
    /// The channel of the last datagram.
    pub(crate) channel: Option<u16>,
    /// What watches it, and where that writes lines.
    watching: &'w mut Watching<'s, 'a, F>,
    output: &'w mut W,
}

// The numbers once more.
fn copied(alloc: Global, numbers: &[i64]) -> Result<Vec<i64>, AllocError> {
    let mut copy = Vec::new(alloc);
    for number in numbers {
        copy.push(*number)?;
    }
    Ok(copy)
}

// Why an arrival or a datagram is denied, if it is.
fn denial(world: &mut World, event: &WorldEvent) -> Result<Option<Denied>, AllocError> {
    let answered = world.step(event);
    match &answered {
        Ok(WorldAnswer::Answered(Answer::Admitted(Err(denied)), _)) => Ok(Some(*denied)),
        Ok(_) => Ok(None),
        Err(_) => Err(AllocError),
    }
}

// The clock of a device comes to a moment. Answers whether a timer was fired.
fn fires(world: &mut World, device: u16, moment: u64) -> Result<bool, AllocError> {
    let answered = world.step(&WorldEvent::Tick(device, moment));
    match &answered {
        Ok(WorldAnswer::Answered(Answer::Fired(count), _)) => Ok(*count > 0),
        Ok(_) => Ok(false),
        Err(_) => Err(AllocError),
    }
}

impl<'w, 's, 'a, F: Write + Drop, W: Write> Course<'w, 's, 'a, F, W> {
    /// The course of a world to which nothing has happened.
    pub(crate) fn new(
        alloc: Global,
        devices: u16,
        watching: &'w mut Watching<'s, 'a, F>,
        output: &'w mut W,
    ) -> Course<'w, 's, 'a, F, W> {
        Course {
            alloc,
            devices,
            moment: 0,
            network: Network::new(alloc),
            sights: Sights::new(alloc),
            left: MOST,
            channel: None,
            watching,
            output,
        }
    }

    /// What watches it sees all devices for the first time in the sequence of this name.
    pub(crate) fn watch(&mut self, world: &World, sequence: &str) {
        self.watching.begin(Some(sequence), self.output);
        for number in 0..self.devices {
            if let Some(device) = world.get(number) {
                self.watching.first(number, device, self.output);
            }
        }
    }

    // What watches it looks at a device after a dispatch.
    fn look(&mut self, world: &World, number: u16, resource: u16, ran: &Ran) {
        let at = RanAt {
            resource,
            now: self.moment,
            ran,
        };
        if let Some(device) = world.get(number) {
            self.watching.ran(number, device, at, self.output);
        }
    }

    // What watches it looks at the queues of a device.
    fn look_at_queues(&mut self, world: &World, number: u16) {
        if let Some(device) = world.get(number) {
            self.watching.came(number, device, self.moment, self.output);
        }
    }

    // A new stimulus begins.
    fn begin(&mut self) {
        self.sights = Sights::new(self.alloc);
        self.left = MOST;
        self.channel = None;
    }

    /// Whether the stimulus caused more dispatches than it may.
    pub(crate) fn is_spent(&self) -> bool {
        self.left == 0
    }

    // A device sent the datagram of a number.
    fn send(&mut self, sender: u16, sent: Option<u64>) -> Result<(), AllocError> {
        match sent {
            Some(number) => self.network.send(Datagram { number, sender }),
            None => Ok(()),
        }
    }

    // A block of a device ran, and a datagram of this number was sent.
    fn note(&mut self, device: u16, ran: &Ran, sent: Option<u64>) -> Result<(), AllocError> {
        self.left = self.left.saturating_sub(1);
        self.sights.steps = self.sights.steps.saturating_add(ran.steps);
        match &ran.effect {
            Some(Effect::Write(output, values)) => {
                let values = copied(self.alloc, values.as_slice())?;
                self.sights.see(device, Sight::Write(*output, values))
            }
            Some(Effect::Send(message)) => {
                self.channel = Some(message.number());
                self.send(device, sent)
            }
            None => Ok(()),
        }
    }

    // Dispatches a resource until it is idle.
    fn drain(&mut self, world: &mut World, device: u16, resource: u16) -> Result<(), AllocError> {
        let _ = drain(world, device, resource, self)?;
        Ok(())
    }

    // Dispatches each resource of each device until it is idle, or the stimulus is spent between two of them.
    fn drain_all(&mut self, world: &mut World) -> Result<(), AllocError> {
        for device in 0..self.devices {
            let resources = match world.get(device) {
                Some(device) => device.resources(),
                None => 0,
            };
            for resource in 0..resources {
                if self.is_spent() {
                    return Ok(());
                }
                self.drain(world, device, resource)?;
            }
        }
        Ok(())
    }

    // A datagram comes to each device but its sender. Each device ignores the channels to which it does not subscribe.
    fn deliver(&mut self, world: &mut World, datagram: Datagram) -> Result<(), AllocError> {
        for device in 0..self.devices {
            if device != datagram.sender {
                match denial(world, &WorldEvent::Deliver(datagram.number, device))? {
                    None | Some(Denied::NoSubscriber) => {}
                    Some(denied) => self.sights.see(device, Sight::DeniedDatagram(denied))?,
                }
                self.look_at_queues(world, device);
            }
        }
        Ok(())
    }

    /// Serves the world until all queues are empty and no datagram is left, or the stimulus is spent.
    pub(crate) fn serve(&mut self, world: &mut World) -> Result<(), AllocError> {
        self.drain_all(world)?;
        for _ in 0..MOST {
            if self.is_spent() {
                break;
            }
            match self.network.take() {
                Some(datagram) => {
                    self.deliver(world, datagram)?;
                    self.drain_all(world)?;
                }
                None => break,
            }
        }
        Ok(())
    }

    // An arrival is offered.
    fn offer(&mut self, world: &mut World, arrival: &Arrival) -> Result<(), AllocError> {
        let values = copied(self.alloc, &arrival.values)?;
        let event = WorldEvent::Offer(arrival.device, arrival.input, values);
        match denial(world, &event)? {
            Some(denied) => self.sights.see(arrival.device, Sight::Denied(denied)),
            None => {
                self.look_at_queues(world, arrival.device);
                Ok(())
            }
        }
    }

    // The first moment at which a timer of any device is due.
    fn next_due(&self, world: &World) -> Option<u64> {
        let mut first: Option<u64> = None;
        for device in 0..self.devices {
            if let Some(device) = world.get(device) {
                if let Some(due) = device.next_due() {
                    first = match first {
                        Some(moment) => Some(moment.min(due)),
                        None => Some(due),
                    };
                }
            }
        }
        first
    }

    // The clocks of all devices come to a moment. Answers whether a timer was fired.
    fn tick(&mut self, world: &mut World, moment: u64) -> Result<bool, AllocError> {
        let mut is_fired = false;
        self.moment = moment;
        for device in 0..self.devices {
            if fires(world, device, moment)? {
                is_fired = true;
            }
            self.look_at_queues(world, device);
        }
        Ok(is_fired)
    }

    // So much time passes. Each timer is served at the moment at which it is due.
    fn pass(&mut self, world: &mut World, span: u64) -> Result<(), AllocError> {
        let end = self.moment.saturating_add(span);
        for _ in 0..MOST {
            let due = self.next_due(world).unwrap_or(u64::MAX);
            if due > end {
                break;
            }
            let is_fired = self.tick(world, due.max(self.moment))?;
            self.serve(world)?;
            if self.is_spent() {
                return Ok(());
            }
            if !is_fired {
                break;
            }
        }
        let _ = self.tick(world, end)?;
        Ok(())
    }

    /// So many of the steps that were taken are not counted.
    pub(crate) fn leave_out(&mut self, steps: u64) {
        self.sights.steps = self.sights.steps.saturating_sub(steps);
    }

    /// A stimulus comes, and the world is served.
    pub(crate) fn happen(&mut self, world: &mut World, cause: &Cause) -> Result<(), AllocError> {
        self.begin();
        match cause {
            Cause::Arrivals(arrivals) => {
                for arrival in arrivals {
                    self.offer(world, arrival)?;
                }
                self.serve(world)
            }
            Cause::Time(span) => self.pass(world, *span),
        }
    }
}

impl<F: Write + Drop, W: Write> Witness for Course<'_, '_, '_, F, W> {
    // What watches it looks at the device, and the outside sees what the block did.
    fn ran(
        &mut self,
        world: &World,
        device: u16,
        resource: u16,
        ran: &Ran,
        sent: Option<u64>,
    ) -> Result<(), AllocError> {
        self.look(world, device, resource, ran);
        self.note(device, ran, sent)
    }
}
