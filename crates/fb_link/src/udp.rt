//! Links over UDP.

ghost use Rattle.std.specs.Prelude.{◌≡◌, ◌+◌, ◌<◌, ◌≤◌, ℕ, [], length, min, IfOk, IfErr};
ghost use Rattle.std.specs.Net.Socket.{socket_port};
ghost use Rattle.fb_link.specs.Link.{receipt, FitsRoom};
ghost use Rattle.fb_link.specs.Socket.{AreHere, SendsToEach, TakesFrom, UdpStep, ip_number, is_among, is_idle, may_send};

use crate::addresses::{Peers, Senders};
use crate::link::{Link, Received};
use crate::socket::{Socket, bound, here};
use std::fmt;
use std::io::ErrorKind;
use std::net::{IpAddr, Net, SocketAddr, UdpSocket};
use std::time::Duration;

/// How many datagrams of strangers one receive drops at most. A device receives sixteen times a turn at most, and ends that where nothing is there;
/// a receive that went on as long as strangers send would keep it in its turn.
const STRANGERS: u32 = 16;

/// No socket could be bound to this port. Code 62.
#[derive(Clone, Copy)]
pub struct SocketFault(pub u16);

impl SocketFault {
    /// The number of the refusal.
    pub fn code(&self) -> u8
        ensures { result ≡ 62 }
    {
        62
    }
}

/// The code, and the port.
impl fmt::Display for SocketFault {
    ghost use Rattle.std.specs.Prelude.{Some};
    ghost use Rattle.fb_link.specs.Link.{socket_line};

    ghost output = { λ f. Some (socket_line f) };

    fn fmt<W: fmt::Write>(&self, f: &mut fmt::Formatter<W>) -> fmt::Result {
        write!(f, "62 {}", self.0)
    }
}

/// A socket, the addresses to which it sends, and those from which it takes datagrams: from anybody, where these are none. It tells what it asks of
/// the socket; what becomes of datagrams only a socket that tells can say.
#[derive(Drop)]
pub struct UdpLink<S = UdpSocket> {
    socket: S,
    peers: Peers,
    senders: Senders,
    failures: u64,
    strangers: u64,
}

// Whether a receive found nothing, and did not fail.
fn is_idle(kind: ErrorKind) -> bool
    ensures { result ≡ is_idle kind }
{
    matches!(kind, ErrorKind::WouldBlock | ErrorKind::Interrupted)
}

// The number of an address among those of IPv6: an IPv4 address stands there as ::ffff:a.b.c.d.
fn ip_number(ip: IpAddr) -> u128
    ensures { result ≡ ip_number ip }
{
    match ip {
        IpAddr::V4(address) => 0xffff_0000_0000 + address.to_bits() as u128,
        IpAddr::V6(address) => address.to_bits(),
    }
}

// Whether an address is one of these.
fn is_among(senders: &[IpAddr], address: IpAddr) -> bool
    ensures { result ≡ is_among senders.now address }
{
    let number = ip_number(address);
    senders.iter().any(|sender| ip_number(*sender) == number)
}

// Whether datagrams from there are taken.
fn may_send(senders: &[IpAddr], from: SocketAddr) -> bool
    ensures { result ≡ may_send senders.now from }
{
    senders.is_empty() || is_among(senders, from.ip())
}

// Sends the bytes to each of the addresses, also where a send before it failed, and answers whether all sends were done.
fn send_to_each<S: Socket>(socket: &mut S, bytes: &[u8], peers: &[SocketAddr]) -> bool
    ensures { SendsToEach S.does bytes.now peers.now socket.old result socket.new }
{
    let mut done = true;
    for peer in peers {
        if socket.send_to(bytes, *peer).is_err() {
            done = false;
        }
    }
    done
}

// Takes the next datagram of one who may send, and counts those of strangers that it drops before.
fn take_from<S: Socket>(
    socket: &mut S,
    senders: &[IpAddr],
    counted: &mut u64,
    buffer: &mut [u8],
) -> Received
    ensures within { FitsRoom result (length buffer.new) }
    ensures told { TakesFrom S.does senders.now counted.old socket.old (receipt result buffer.new (length buffer.old)) counted.new socket.new }
{
    // Nothing happens here: the proof reads that the count fits.
    let _before = *counted;
    for _ in 0..STRANGERS {
        match socket.receive(buffer) {
            Ok((count, from)) => {
                if may_send(senders, from) {
                    return Received::Got(count);
                }
                *counted = counted.saturating_add(1);
            }
            Err(kind) if is_idle(kind) => return Received::Nothing,
            Err(_) => return Received::Failed,
        }
    }
    Received::Nothing
}

impl UdpLink {
    /// Binds a port on 127.0.0.1, to send to each of at most 64 ports there, and to take datagrams from anybody.
    pub fn open<R: Net>(rt: &R, bind: u16, peers: &[u16]) -> Result<UdpLink, SocketFault>
        requires { length peers.now ≤ 64 }
        ensures fresh { IfOk result (λ link. (link.failures ≡ 0) × AreHere link.peers peers.now × (link.senders ≡ []) × (link.strangers ≡ 0)) }
        ensures refused { IfErr result (λ fault. fault.0 ≡ bind) }
    {
        match bound(rt, here(bind)) {
            Ok(socket) => Ok(UdpLink::with(socket, Peers::here(peers), Senders::new(&[]))),
            Err(_) => Err(SocketFault(bind)),
        }
    }

    /// Binds an address, to send to each of at most 64 others, and to take datagrams from at most 64 IP addresses, or from anybody where none are given.
    pub fn open_at<R: Net>(
        rt: &R,
        bind: SocketAddr,
        peers: &[SocketAddr],
        senders: &[IpAddr],
    ) -> Result<UdpLink, SocketFault>
        requires peers { length peers.now ≤ 64 }
        requires senders { length senders.now ≤ 64 }
        ensures fresh { IfOk result (λ link. (link.failures ≡ 0) × (link.peers ≡ peers.now) × (link.senders ≡ senders.now) × (link.strangers ≡ 0)) }
        ensures refused { IfErr result (λ fault. fault.0 ≡ socket_port bind) }
    {
        match bound(rt, bind) {
            Ok(socket) => Ok(UdpLink::over(socket, peers, senders)),
            Err(_) => Err(SocketFault(bind.port())),
        }
    }
}

impl<S: Socket> UdpLink<S> {
    /// A link over this socket, to send to each of at most 64 addresses, and to take datagrams from at most 64 IP addresses, or from anybody where
    /// none are given.
    pub fn over(socket: S, peers: &[SocketAddr], senders: &[IpAddr]) -> UdpLink<S>
        requires peers { length peers.now ≤ 64 }
        requires senders { length senders.now ≤ 64 }
        ensures socket { result.socket ≡ socket }
        ensures peers { result.peers ≡ peers.now }
        ensures senders { result.senders ≡ senders.now }
        ensures fresh { (result.failures ≡ 0) × (result.strangers ≡ 0) }
    {
        UdpLink::with(socket, Peers::new(peers), Senders::new(senders))
    }

    // A link over this socket, with these peers and senders.
    fn with(socket: S, peers: Peers, senders: Senders) -> UdpLink<S>
        ensures socket { result.socket ≡ socket }
        ensures peers { result.peers ≡ peers }
        ensures senders { result.senders ≡ senders }
        ensures fresh { (result.failures ≡ 0) × (result.strangers ≡ 0) }
    {
        UdpLink {
            socket,
            peers,
            senders,
            failures: 0,
            strangers: 0,
        }
    }

    /// How many datagrams were dropped because of who sent them, up to 2^64 - 1.
    pub fn strangers(&self) -> u64
        ensures { result ≡ self.now.strangers }
    {
        self.strangers
    }
}

/// A send goes to every peer once, in order, and is one failure where any of these fails. A receive drops what strangers sent, sixteen datagrams at
/// most, and counts them. Who sent a datagram is told by its IP address alone, whatever the port, and an IPv4 address counts as itself where IPv6 has
/// it as ::ffff:a.b.c.d. A receive that would have to wait, is interrupted, or dropped sixteen finds nothing. Once 2^64 - 1 calls have failed the
/// socket is left alone.
impl<S: Socket> Link for UdpLink<S> {
    ghost count = { λ l. l.failures };

    ghost steps = { λ l call m. UdpStep S.does l.peers l.senders l.failures l.strangers l.socket call m.strangers m.socket
        × (m.peers ≡ l.peers) × (m.senders ≡ l.senders) };

    fn send(&mut self, bytes: &[u8]) -> bool {
        if self.failures == u64::MAX {
            return true;
        }
        let done = send_to_each(&mut self.socket, bytes, self.peers.as_slice());
        if !done {
            self.failures += 1;
        }
        done
    }

    fn receive(&mut self, buffer: &mut [u8]) -> Received {
        if self.failures == u64::MAX {
            return Received::Nothing;
        }
        let received = take_from(
            &mut self.socket,
            self.senders.as_slice(),
            &mut self.strangers,
            buffer,
        );
        if matches!(received, Received::Failed) {
            self.failures += 1;
        }
        received
    }

    fn dropped(&self) -> u64 {
        self.strangers
    }

    fn failures(&self) -> u64 {
        self.failures
    }

    fn wait(&self, most: Duration) {
        if self.failures < u64::MAX {
            self.socket.wait(most);
        }
    }
}

#[cfg(test)]
mod tests;
