//! Datagram sockets.

ghost use Rattle.std.specs.Prelude.{◌≡◌, ◌≤◌, ℕ, length, IfOk, is_ok};
ghost use Rattle.fb_link.specs.Socket.{SocketCall, SentTo, taking, IsHere};

use libc::net::{POLLIN, SO_RCVBUF, SOL_SOCKET, poll, setsockopt};
use libc::types::pollfd;
use std::io;
use std::io::ErrorKind;
use std::net::{Ipv4Addr, Net, SocketAddr, SocketAddrV4, UdpSocket};
use std::os::fd::AsRawFd;
use std::time::Duration;

/// What a link over UDP asks of a socket. No call but `wait` waits.
///
/// A socket tells by `does` what a call does; one that leaves it out tells nothing.
pub trait Socket {
    /// What a call does. A socket that tells nothing allows all.
    ghost does: { Self → SocketCall → Self → Type 0 } = { λ _ _ _. Unit {0} };

    /// Sends the bytes to an address once, as one datagram.
    fn send_to(&mut self, bytes: &[u8], to: SocketAddr) -> Result<(), ErrorKind>
        ensures told { does self.old (SentTo to bytes.now (is_ok result)) self.new };

    /// Takes the next datagram into the buffer, and answers how many bytes it is there, and who sent it. What does not fit is lost.
    fn receive(&mut self, buffer: &mut [u8]) -> Result<(usize, SocketAddr), ErrorKind>
        ensures within { IfOk result (λ got. got.0 ≤ length buffer.new) }
        ensures told { does self.old (taking result buffer.new (length buffer.old)) self.new };

    /// Waits until a datagram may be there, at most so long. A socket that cannot wait returns at once.
    fn wait(&self, _most: Duration) {}
}

/// A port of this machine, 127.0.0.1.
pub(crate) fn here(port: u16) -> SocketAddr
    ensures { IsHere result port }
{
    SocketAddr::V4(SocketAddrV4::new(Ipv4Addr::LOCALHOST, port))
}

/// The bytes of datagrams that the system is asked to keep until they are received: some ten thousand, with what it keeps of each.
const KEPT: i32 = 4_194_304;

// Asks the system for more room for datagrams that were not received yet. It may give less, and nothing here depends on it.
fn widen(socket: &UdpSocket) {
    let mut value = [0u8; 16];
    value[..4].copy_from_slice(&KEPT.to_ne_bytes());
    let _ = unsafe { setsockopt(socket.as_raw_fd(), SOL_SOCKET, SO_RCVBUF, &value, 4) };
}

// A socket that is bound to this address, with more room for what comes, and that waits in no call but `wait`.
pub(crate) fn bound<R: Net>(rt: &R, bind: SocketAddr) -> io::Result<UdpSocket> {
    let socket = UdpSocket::bind(rt, bind)?;
    widen(&socket);
    socket.set_nonblocking(true)?;
    Ok(socket)
}

// The milliseconds of a time, a started one as a whole one, and 24 days at most.
fn millis(most: Duration) -> i32 {
    most.as_nanos().div_ceil(1_000_000).min(i32::MAX as u128) as i32
}

/// What becomes of datagrams stands in no contract, nor how long a wait takes. `wait` counts whole milliseconds, a started one as one more. It asks
/// `poll`, whose time the kernel does not round up to its tick, as it does that of reads. No time is no wait, and a signal ends a wait early.
impl Socket for UdpSocket {
    fn send_to(&mut self, bytes: &[u8], to: SocketAddr) -> Result<(), ErrorKind> {
        match UdpSocket::send_to(self, bytes, to) {
            Ok(_) => Ok(()),
            Err(error) => Err(error.kind()),
        }
    }

    fn receive(&mut self, buffer: &mut [u8]) -> Result<(usize, SocketAddr), ErrorKind> {
        match self.recv_from(buffer) {
            Ok(got) => Ok(got),
            Err(error) => Err(error.kind()),
        }
    }

    fn wait(&self, most: Duration) {
        let mut asked = [pollfd {
            fd: self.as_raw_fd(),
            events: POLLIN,
            revents: 0,
        }];
        let _ = poll(&mut asked, millis(most));
    }
}
