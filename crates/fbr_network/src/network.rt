//! The network between the devices of a story: datagrams that wait, and what becomes of the next ones.

use fbr_story::Fate;
use std::alloc::{AllocError, Global};

/// A datagram, by its number, and the number of the device that sent it.
#[derive(Clone, Copy)]
pub struct Datagram {
    pub number: u64,
    pub sender: u16,
}

/// The datagrams that were sent, and what becomes of the next ones.
#[derive(Drop)]
pub struct Network {
    // All that are to be delivered, in order, and how many of them were.
    queue: Vec<Datagram>,
    delivered: usize,
    // The fates of the next datagrams, in order, and how many of them were met.
    fates: Vec<Fate>,
    met: usize,
    held: Vec<Datagram>,
    silenced: Vec<u16>,
}

impl Network {
    /// A network over which nothing was sent.
    pub fn new(alloc: Global) -> Network {
        Network {
            queue: Vec::new(alloc),
            delivered: 0,
            fates: Vec::new(alloc),
            met: 0,
            held: Vec::new(alloc),
            silenced: Vec::new(alloc),
        }
    }

    /// The next datagram that has no fate yet has this one.
    pub fn next_has(&mut self, fate: Fate) -> Result<(), AllocError> {
        self.fates.push(fate)?;
        Ok(())
    }

    /// All datagrams of a device are lost from now on.
    pub fn silence(&mut self, device: u16) -> Result<(), AllocError> {
        self.silenced.push(device)?;
        Ok(())
    }

    /// Datagrams of all devices are delivered again.
    pub fn heal(&mut self) {
        self.silenced.clear();
    }

    // Whether all datagrams of a device are lost.
    fn is_silenced(&self, device: u16) -> bool {
        for silenced in &self.silenced {
            if *silenced == device {
                return true;
            }
        }
        false
    }

    // The fate of the next datagram, which is met by that.
    fn meet(&mut self) -> Option<Fate> {
        let fate = self.fates.get(self.met).copied()?;
        self.met = self.met.saturating_add(1);
        Some(fate)
    }

    // Those that were held come now, the last that was held first.
    fn release(&mut self) -> Result<(), AllocError> {
        for at in (0..self.held.len()).rev() {
            if let Some(datagram) = self.held.get(at).copied() {
                self.queue.push(datagram)?;
            }
        }
        self.held.clear();
        Ok(())
    }

    /// A datagram is sent.
    pub fn send(&mut self, datagram: Datagram) -> Result<(), AllocError> {
        if self.is_silenced(datagram.sender) {
            return Ok(());
        }
        match self.meet() {
            Some(Fate::Held) => {
                self.held.push(datagram)?;
                return Ok(());
            }
            Some(Fate::Lost) => {}
            Some(Fate::Doubled) => {
                self.queue.push(datagram)?;
                self.queue.push(datagram)?;
            }
            None => self.queue.push(datagram)?,
        }
        self.release()
    }

    /// The next datagram that is to be delivered, which is by that.
    pub fn take(&mut self) -> Option<Datagram> {
        let datagram = self.queue.get(self.delivered).copied()?;
        self.delivered = self.delivered.saturating_add(1);
        Some(datagram)
    }
}
