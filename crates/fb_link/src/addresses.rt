//! Lists of at most 64 addresses, which take no memory of their own.

ghost use Rattle.std.specs.Prelude.{◌≡◌, ◌<◌, ◌≤◌, [], ◌∷◌, ◌++◌, length};
ghost use Rattle.fb_link.specs.Socket.{AreHere};

use crate::socket::here;
use std::marker::Model;
use std::net::{IpAddr, Ipv4Addr, SocketAddr};

/// To whom a link sends: at most 64 addresses.
#[derive(Drop)]
pub struct Peers {
    all: [SocketAddr; 64],
    count: usize,
}

impl Model for Peers {
    ghost use Rattle.std.specs.Prelude.{◌≤◌, List, take};
    ghost use Rattle.std.specs.declared.net.socket_addr.SocketAddr.{SocketAddr};

    ghost Value = { List SocketAddr };

    ghost view = { λ p. take p.count p.all };

    ghost invariant = { λ p. p.count ≤ 64 };
}

impl Peers {
    /// These addresses.
    pub fn new(addresses: &[SocketAddr]) -> Self
        requires { length addresses.now ≤ 64 }
        ensures { result ≡ addresses.now }
    {
        let mut all = [here(0); 64];
        let count = addresses.len();
        all[..count].copy_from_slice(addresses);
        Peers { all, count }
    }

    /// These ports of this machine.
    pub(crate) fn here(ports: &[u16]) -> Self
        requires { length ports.now ≤ 64 }
        ensures { AreHere result ports.now }
    {
        let mut peers = Peers {
            all: [here(0); 64],
            count: 0,
        };
        for port in ports {
            peers.push(here(*port));
        }
        peers
    }

    /// One more address.
    pub fn push(&mut self, address: SocketAddr)
        requires { length self.old < 64 }
        ensures { self.new ≡ self.old ++ address ∷ [] }
    {
        self.all[self.count] = address;
        self.count += 1;
    }

    /// The addresses.
    pub fn as_slice(&self) -> &[SocketAddr]
        ensures all { result.now ≡ self.now }
        ensures few { length self.now ≤ 64 }
    {
        &self.all[..self.count]
    }
}

/// From whom a link takes datagrams: at most 64 IP addresses.
#[derive(Drop)]
pub struct Senders {
    all: [IpAddr; 64],
    count: usize,
}

impl Model for Senders {
    ghost use Rattle.std.specs.Prelude.{◌≤◌, List, take};
    ghost use Rattle.std.specs.declared.net.ip_addr.IpAddr.{IpAddr};

    ghost Value = { List IpAddr };

    ghost view = { λ p. take p.count p.all };

    ghost invariant = { λ p. p.count ≤ 64 };
}

impl Senders {
    /// These addresses.
    pub fn new(addresses: &[IpAddr]) -> Self
        requires { length addresses.now ≤ 64 }
        ensures { result ≡ addresses.now }
    {
        let mut all = [IpAddr::V4(Ipv4Addr::UNSPECIFIED); 64];
        let count = addresses.len();
        all[..count].copy_from_slice(addresses);
        Senders { all, count }
    }

    /// One more address.
    pub fn push(&mut self, address: IpAddr)
        requires { length self.old < 64 }
        ensures { self.new ≡ self.old ++ address ∷ [] }
    {
        self.all[self.count] = address;
        self.count += 1;
    }

    /// The addresses.
    pub fn as_slice(&self) -> &[IpAddr]
        ensures all { result.now ≡ self.now }
        ensures few { length self.now ≤ 64 }
    {
        &self.all[..self.count]
    }
}
