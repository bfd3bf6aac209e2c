//! Runs a device over sealed datagrams.

ghost use Rattle.std.specs.Prelude.{◌≡◌, ◌≤◌, IfOk};
ghost use Rattle.fbr_words.specs.Requests.{service_of};
ghost use Rattle.fbr_serve.specs.Serving.{TellsSealed, seals_of};

use crate::notes::Notes;
use crate::serve::{print_served, tell_end, tell_ready, tell_strangers};
use crate::timer::SystemTimer;
use crate::turns::serve_on;
use fb_device::Device;
use fb_link::UdpLink;
use fb_seal::SealedLink;
use fbr_files::{Fault, Keep, print_outcome};
use fbr_notices::{Counts, tell_unsealed};
use fbr_seals::{Pace, Seals};
use fbr_words::Serve;
use std::io;
use std::io::Write;
use std::net::Net;
use std::rt::Clock;

// Tells people that datagrams are sealed.
fn tell_sealed<E: Write>(number: u16, keys: usize, errors: &mut E) {
    let _ = writeln!(
        errors,
        "fbr: it seals what it sends as {number}, and takes only what is sealed under one of {keys} keys of others"
    );
}

/// Takes the turns of a device that has started, over a link that seals; or tells that nothing can be bound to its port.
pub(crate) fn serve_sealed<R: Clock + Net, K: Keep + Drop, W: Write, E: Write, F: Write>(
    rt: &R,
    device: &mut Device,
    repeats: Option<u8>,
    serve: &Serve<'_>,
    seals: Seals<K>,
    output: &mut W,
    notes: &mut Notes<E, F>,
) -> io::Result<u8>
    ensures told { IfOk result (λ status. TellsSealed (service_of serve.now) (seals_of K.held seals) device.old (W.contents output.old) (W.contents output.new) status) }
    ensures status { IfOk result (λ status. status ≤ 4) }
{
    let network = &serve.network;
    let Seals {
        number,
        key,
        next,
        reserved,
        peers,
        buckets,
        file,
        to,
    } = seals;
    match UdpLink::open_at(rt, network.bind, to.as_slice(), network.senders.as_slice()) {
        Ok(link) => {
            tell_ready(device, repeats, serve, to.as_slice(), &mut notes.errors);
            tell_sealed(number, peers.len(), &mut notes.errors);
            let pace = Pace::new(rt, buckets);
            let mut link = SealedLink::over(link, file, pace, number, key, next, peers);
            link.reserve(reserved);
            let mut timer = SystemTimer::of(rt);
            let ran = serve_on(&mut timer, device, &mut link, serve, output, notes);
            let drops = link.drops();
            tell_strangers(drops.strangers, &mut notes.errors);
            tell_unsealed(drops.unsealed, &mut notes.errors);
            tell_end(&ran.end, &mut notes.errors);
            print_served(ran, output)
        }
        Err(_) => print_outcome(Err(Fault::Socket(network.bind.port())), output),
    }
}
