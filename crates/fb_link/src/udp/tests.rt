//! What a link asks of a socket, and what becomes of it at std's.

ghost use Rattle.std.specs.Prelude.{◌≡◌, ◌+◌, ◌<◌, ◌≤◌, ◌++◌, length};

use crate::fake::MemorySocket;
use crate::tests::{FIRST, SECOND, held, memory};
use crate::{Link, MemoryLink, Received, UdpLink};
use std::alloc::{AllocError, Global};
use std::io::ErrorKind;
use std::net::{IpAddr, Ipv4Addr, Ipv6Addr, SocketAddr};
use std::test::Fail;
use std::time::{Duration, Instant};

// Port 7 of an address.
fn at(ip: IpAddr) -> SocketAddr {
    SocketAddr::new(ip, 7)
}

// 10.0.0.x
fn ten(last: u8) -> IpAddr {
    IpAddr::V4(Ipv4Addr::new(10, 0, 0, last))
}

// A link over a socket in memory that hands out these datagrams, each of one of these addresses, and takes those of the senders.
fn link_of(
    alloc: Global,
    link: MemoryLink,
    from: &[SocketAddr],
    senders: &[IpAddr],
) -> Result<UdpLink<MemorySocket>, AllocError>
    requires { length senders.now ≤ 64 }
{
    let socket = MemorySocket::new(alloc, link, from.to_vec(alloc)?, ErrorKind::ConnectionReset)?;
    Ok(UdpLink::over(socket, &[], senders))
}

// A send over a socket in memory: each peer is sent to once, in order.
fn send_in_memory(link: &mut UdpLink<MemorySocket>, bytes: &[u8]) -> bool
    ensures { link.old.failures < 18446744073709551615 → length link.old.socket.sent + length link.old.peers ≤ 256
        → link.new.socket.sent ≡ link.old.socket.sent ++ link.old.peers }
{
    link.send(bytes)
}

#[test]
fn each_peer_once(rt: HostRuntime) -> Result<(), Fail> {
    let alloc = rt.alloc();
    let peers = [at(ten(2)), at(ten(1)), at(ten(3))];
    let link = memory(alloc, &[], &[1])?;
    let socket = MemorySocket::new(alloc, link, Vec::new(alloc), ErrorKind::WouldBlock)?;
    let mut link = UdpLink::over(socket, &peers, &[]);
    assert!(rt;
        !send_in_memory(&mut link, &FIRST),
        "the send to the first peer fails"
    );
    assert!(rt; !send_in_memory(&mut link, &SECOND), "no room is left");
    assert_eq!(rt; link.failures(), 2);
    assert_eq!(rt; link.socket.link.taken_len(), 2);
    assert_eq!(rt; link.socket.sent.len(), 6);
    assert!(rt;
        &link.socket.sent[..3] == peers.as_slice(),
        "each peer, in order"
    );
    assert!(rt;
        &link.socket.sent[3..] == peers.as_slice(),
        "each peer, in order, again"
    );
    Ok(())
}

#[test]
fn interrupted(rt: HostRuntime) -> Result<(), Fail> {
    let alloc = rt.alloc();
    let link = memory(alloc, &[1], &[])?;
    let socket = MemorySocket::new(alloc, link, Vec::new(alloc), ErrorKind::Interrupted)?;
    let mut link = UdpLink::over(socket, &[], &[]);
    let mut buffer = [0u8; 160];
    assert!(rt;
        matches!(link.receive(&mut buffer), Received::Nothing),
        "it is interrupted"
    );
    assert!(rt; arrives(&mut link, &FIRST), "nothing was lost");
    assert_eq!(rt; link.failures(), 0);
    Ok(())
}

#[test]
fn failed(rt: HostRuntime) -> Result<(), Fail> {
    let alloc = rt.alloc();
    let mut link = link_of(alloc, memory(alloc, &[1], &[])?, &[], &[])?;
    let mut buffer = [0u8; 160];
    assert!(rt;
        matches!(link.receive(&mut buffer), Received::Failed),
        "it fails"
    );
    assert!(rt; arrives(&mut link, &FIRST), "nothing was lost");
    assert_eq!(rt; link.failures(), 1);
    Ok(())
}

#[test]
fn a_stranger_is_dropped(rt: HostRuntime) -> Result<(), Fail> {
    let alloc = rt.alloc();
    let from = [at(ten(9)), SocketAddr::new(ten(1), 8)];
    let mut link = link_of(alloc, memory(alloc, &[], &[])?, &from, &[ten(2), ten(1)])?;
    assert!(rt;
        arrives(&mut link, &SECOND),
        "the first came from a stranger, the second from a friend's other port"
    );
    assert_eq!(rt; link.strangers(), 1);
    assert_eq!(rt; link.failures(), 0);
    Ok(())
}

#[test]
fn a_friend_behind_three_strangers(rt: HostRuntime) -> Result<(), Fail> {
    let alloc = rt.alloc();
    let strange = IpAddr::V6(Ipv6Addr::new(0, 0, 0, 0, 0, 0, 0x0a00, 1));
    let mapped = IpAddr::V6(Ipv4Addr::new(10, 0, 0, 1).to_ipv6_mapped());
    let from = [at(ten(2)), at(strange), at(ten(0)), at(mapped)];
    let datagrams = held(alloc, &[&FIRST, &FIRST, &FIRST, &SECOND])?;
    let mut link = link_of(alloc, datagrams, &from, &[ten(1)])?;
    let mut buffer = [0u8; 160];
    assert!(rt;
        matches!(link.receive(&mut buffer), Received::Got(7)),
        "the friend's is taken in the same call"
    );
    assert_eq!(rt; &buffer[..7], SECOND.as_slice());
    assert_eq!(rt; link.strangers(), 3);
    Ok(())
}

#[test]
fn sixteen_strangers(rt: HostRuntime) -> Result<(), Fail> {
    let alloc = rt.alloc();
    let from = [at(ten(9)); 17];
    let mut datagrams = [FIRST.as_slice(); 18];
    datagrams[17] = &SECOND;
    let mut link = link_of(
        alloc,
        held(alloc, &datagrams)?,
        &from,
        &[IpAddr::V4(Ipv4Addr::LOCALHOST)],
    )?;
    let mut buffer = [0u8; 160];
    assert!(rt;
        matches!(link.receive(&mut buffer), Received::Nothing),
        "the seventeenth is left"
    );
    assert_eq!(rt; link.strangers(), 16);
    assert!(rt;
        matches!(link.receive(&mut buffer), Received::Got(7)),
        "it is dropped by the next call"
    );
    assert_eq!(rt; link.strangers(), 17);
    assert_eq!(rt; link.failures(), 0);
    Ok(())
}

// Whether the next datagram is this one, into 160 bytes; it is waited for.
fn arrives<L: Link>(link: &mut L, wanted: &[u8]) -> bool {
    let mut buffer = [0u8; 160];
    for _ in 0..1000u32 {
        if let Received::Got(count) = link.receive(&mut buffer) {
            return &buffer[..count] == wanted;
        }
    }
    false
}

#[test]
fn bound_on_this_machine(rt: HostRuntime) -> Result<(), Fail> {
    let link = UdpLink::open(&rt, 24601, &[]).map_err(|_| "24601 is taken")?;
    let address = link.socket.local_addr().map_err(|_| "no address")?;
    assert!(rt;
        address.ip() == IpAddr::V4(Ipv4Addr::LOCALHOST),
        "it is bound on this machine alone"
    );
    assert_eq!(rt; address.port(), 24601);
    let fault = UdpLink::open(&rt, 24601, &[]).err().ok_or("bound twice")?;
    assert_eq!(rt; fault.0, 24601);
    let elsewhere = SocketAddr::new(IpAddr::V4(Ipv4Addr::new(192, 0, 2, 1)), 24601);
    let fault = UdpLink::open_at(&rt, elsewhere, &[], &[])
        .err()
        .ok_or("an address of no machine was bound")?;
    assert_eq!(rt; fault.0, 24601);
    Ok(())
}

#[test]
fn from_socket_to_socket(rt: HostRuntime) -> Result<(), Fail> {
    let mut one = UdpLink::open(&rt, 24602, &[24603]).map_err(|_| "24602 is taken")?;
    let mut other = UdpLink::open(&rt, 24603, &[24602]).map_err(|_| "24603 is taken")?;
    let mut buffer = [0u8; 160];
    assert!(rt;
        matches!(other.receive(&mut buffer), Received::Nothing),
        "nothing was sent"
    );
    assert!(rt; one.send(&FIRST), "it is sent");
    assert!(rt; arrives(&mut other, &FIRST), "it arrives");
    assert!(rt; one.send(&[5; 200]), "a long one is sent");
    assert!(rt; arrives(&mut other, &[5; 160]), "what fits arrives");
    assert!(rt;
        matches!(other.receive(&mut buffer), Received::Nothing),
        "the rest is lost"
    );
    assert_eq!(rt; one.failures() + other.failures(), 0);
    Ok(())
}

#[test]
fn to_itself_over_ipv6(rt: HostRuntime) -> Result<(), Fail> {
    let here = IpAddr::V6(Ipv6Addr::LOCALHOST);
    let address = SocketAddr::new(here, 24608);
    let mut link = UdpLink::open_at(&rt, address, &[address], &[here]).map_err(
        |_| "no [::1]:24608",
    )?;
    assert!(rt; link.send(&FIRST), "it is sent");
    assert!(rt; arrives(&mut link, &FIRST), "it arrives");
    assert_eq!(rt; link.strangers(), 0);
    assert_eq!(rt; link.failures(), 0);
    Ok(())
}

#[test]
fn a_stranger_at_a_socket(rt: HostRuntime) -> Result<(), Fail> {
    // A socket of both families sees this machine's 127.0.0.1 as ::ffff:127.0.0.1.
    let any = SocketAddr::new(IpAddr::V6(Ipv6Addr::UNSPECIFIED), 24609);
    let friend = [IpAddr::V4(Ipv4Addr::LOCALHOST)];
    let mut link = UdpLink::open_at(&rt, any, &[], &friend).map_err(|_| "no [::]:24609")?;
    let here = SocketAddr::new(IpAddr::V6(Ipv6Addr::LOCALHOST), 24610);
    let to = SocketAddr::new(IpAddr::V6(Ipv6Addr::LOCALHOST), 24609);
    let mut stranger = UdpLink::open_at(&rt, here, &[to], &[]).map_err(|_| "no [::1]:24610")?;
    let mut known = UdpLink::open(&rt, 24610, &[24609]).map_err(|_| "24610 is taken")?;
    assert!(rt; stranger.send(&FIRST), "a stranger sends");
    assert!(rt; known.send(&SECOND), "a friend sends");
    assert!(rt; arrives(&mut link, &SECOND), "the friend's is taken");
    assert_eq!(rt; link.strangers(), 1);
    Ok(())
}

// The milliseconds of a wait.
fn waited(rt: &HostRuntime, link: &UdpLink, most: u64) -> Result<u128, Fail> {
    let start = Instant::now(rt)?;
    link.wait(Duration::from_millis(most));
    Ok(start.elapsed(rt)?.as_millis())
}

#[test]
fn an_idle_wait_ends(rt: HostRuntime) -> Result<(), Fail> {
    let mut one = UdpLink::open(&rt, 24606, &[24607]).map_err(|_| "24606 is taken")?;
    let mut other = UdpLink::open(&rt, 24607, &[]).map_err(|_| "24607 is taken")?;
    let mut buffer = [0u8; 160];
    let idle = waited(&rt, &other, 30)?;
    assert!(rt;
        (30..2_000).contains(&idle),
        "nothing comes, and it waits as long as it may"
    );
    assert!(rt; waited(&rt, &other, 0)? < 2_000, "no time is no wait");
    assert!(rt; one.send(&FIRST), "it is sent");
    assert!(rt;
        waited(&rt, &other, 60_000)? < 30_000,
        "it ends where a datagram is there"
    );
    assert!(rt; arrives(&mut other, &FIRST), "a wait takes nothing");
    assert!(rt;
        matches!(other.receive(&mut buffer), Received::Nothing),
        "nothing is left, and the socket does not wait"
    );
    Ok(())
}

#[test]
fn one_peer_of_two(rt: HostRuntime) -> Result<(), Fail> {
    // Nothing can be sent to port 0.
    let mut one = UdpLink::open(&rt, 24604, &[0, 24605]).map_err(|_| "24604 is taken")?;
    let mut other = UdpLink::open(&rt, 24605, &[]).map_err(|_| "24605 is taken")?;
    assert!(rt; !one.send(&FIRST), "the send to the first peer fails");
    assert!(rt; arrives(&mut other, &FIRST), "the second gets it");
    assert_eq!(rt; one.failures(), 1);
    Ok(())
}
