//! A socket in memory, which tells what it does.

ghost use Rattle.std.specs.Prelude.{◌≡◌, [], IfOk};
ghost use Rattle.fb_link.specs.Fake.{MemorySocketState, MemorySocketStep, IsNext};

use crate::link::{Link, Received};
use crate::memory::MemoryLink;
use crate::socket::{Socket, here};
use std::alloc::{AllocError, Global};
use std::io::ErrorKind;
use std::marker::Model;
use std::net::SocketAddr;

/// A socket over a link in memory: it takes what is sent to any address and hands out what the link does, and its calls fail as the link's do. It
/// keeps the first 256 addresses that it is to send to. The datagrams are those of the addresses that it was made with, one after another, and
/// then of port 0 of this machine.
#[derive(Drop)]
pub(crate) struct MemorySocket {
    pub(crate) link: MemoryLink,
    pub(crate) sent: Vec<SocketAddr>,
    senders: Vec<SocketAddr>,
    fault: ErrorKind,
}

impl Model for MemorySocket {
    ghost use Rattle.std.specs.Prelude.{◌≤◌, vec_capacity};
    ghost use Rattle.fb_link.specs.Fake.{MemorySocketState};

    ghost Value = { MemorySocketState };

    ghost view = { λ s. record {
      link = s.link;
      sent = s.sent.items;
      senders = s.senders.items;
      fault = s.fault;
    } };

    ghost invariant = { λ s. 256 ≤ vec_capacity s.sent };
}

impl MemorySocket {
    /// A socket over this link, with the addresses of its datagrams, whose failures are errors of this kind.
    pub(crate) fn new(
        alloc: Global,
        link: MemoryLink,
        senders: Vec<SocketAddr>,
        fault: ErrorKind,
    ) -> Result<Self, AllocError>
        ensures { IfOk result (λ s. s ≡ record { link = link; sent = []; senders = senders.items; fault = fault }) }
    {
        Ok(MemorySocket {
            link,
            sent: Vec::with_capacity(alloc, 256)?,
            senders,
            fault,
        })
    }
}

// Who sent the next datagram.
fn next_sender(senders: &mut Vec<SocketAddr>) -> SocketAddr
    ensures { IsNext senders.old.items result senders.new.items }
{
    if senders.is_empty() {
        here(0)
    } else {
        senders.remove(0)
    }
}

impl Socket for MemorySocket {
    ghost does = { MemorySocketStep };

    fn send_to(&mut self, bytes: &[u8], to: SocketAddr) -> Result<(), ErrorKind> {
        if self.sent.len() < 256 {
            self.sent.push_reserved(to);
        }
        if self.link.send(bytes) {
            Ok(())
        } else {
            Err(self.fault)
        }
    }

    fn receive(&mut self, buffer: &mut [u8]) -> Result<(usize, SocketAddr), ErrorKind> {
        match self.link.receive(buffer) {
            Received::Nothing => Err(ErrorKind::WouldBlock),
            Received::Got(count) => Ok((count, next_sender(&mut self.senders))),
            Received::Failed => Err(self.fault),
        }
    }
}
