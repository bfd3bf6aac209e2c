//! The keys of a device and of its peers, out of files.

use fb_keys::{Key, Keys, KeysFault, PeerLine, read_keys};
use fb_link::Peers;
use fb_pace::{Bucket, Paced};
use fbr_files::{Sources, read_file};
use std::alloc::{AllocError, Global};
use std::io::Write;

/// A device and a key of it.
#[derive(Clone, Copy)]
pub(crate) struct Secret {
    pub number: u16,
    pub key: [u8; 32],
}

/// The number and the key of this device, those of its peers, two where they have two, a bucket for each peer that has a rate, and where it sends.
#[derive(Drop)]
pub(crate) struct Secrets {
    pub own: Secret,
    pub others: Vec<Secret>,
    pub paced: Vec<Paced>,
    pub to: Peers,
}

/// Why there are no keys.
#[derive(Clone, Copy)]
pub(crate) enum Unsaid {
    /// Memory ran out.
    Memory,
    /// It is something else, which people were told.
    Told,
}

impl From<AllocError> for Unsaid {
    fn from(_: AllocError) -> Self {
        Unsaid::Memory
    }
}

// Tells people why a text is no file of keys.
fn tell_fault<E: Write>(name: &str, fault: KeysFault, errors: &mut E) {
    let _ = match fault {
        KeysFault::Memory => Ok(()),
        KeysFault::BadLine(line) => writeln!(
            errors,
            "fbr: {name}, line {line}: a line is `own NUMBER`, or `NUMBER ADDRESS KEY`, perhaps with a second key and a rate behind it. A number is 0 to 65535, an address ADDRESS:PORT or `-`, a key 64 hexadecimal digits or the name of a file with them, and a rate N/s or N/s burst M, N up to 1000000 and M up to 65535"
        ),
        KeysFault::Again(line) => writeln!(
            errors,
            "fbr: {name}, line {line}: this number, or `own`, stands in a line before"
        ),
        KeysFault::TooMany(line) => writeln!(
            errors,
            "fbr: {name}, line {line}: at most 64 devices have a line"
        ),
        KeysFault::NoOwn => writeln!(
            errors,
            "fbr: {name}: a line `own NUMBER` says which of the devices this one is"
        ),
    };
}

// Tells people that others may read a file of keys, or that it is not there.
fn tell_open<E: Write>(name: &str, errors: &mut E) {
    let _ = writeln!(
        errors,
        "fbr: {name} holds keys: it has to be there, and nobody but its owner may read or write it (chmod 600)"
    );
}

// The key that a file holds, which only its owner may read.
fn key_in<S: Sources>(alloc: Global, files: &S, name: &str) -> Option<[u8; 32]> {
    if !files.is_private(name) {
        return None;
    }
    let file = read_file(alloc, files, name);
    let mut bytes = [0u8; 32];
    match file.text() {
        Ok(text) => match hex::decode_to_slice(text.trim(), &mut bytes) {
            Ok(()) => Some(bytes),
            Err(_) => None,
        },
        Err(_) => None,
    }
}

// The bytes of a key of the device with this number. What stands in its place is not told, since it may be a key with a slip.
fn bytes_of<S: Sources, E: Write>(
    alloc: Global,
    files: &S,
    number: u16,
    key: Key<'_>,
    errors: &mut E,
) -> Result<[u8; 32], Unsaid> {
    let bytes = match key {
        Key::Digits(bytes) => Some(bytes),
        Key::File(name) => key_in(alloc, files, name),
    };
    match bytes {
        Some(bytes) => Ok(bytes),
        None => {
            let _ = writeln!(
                errors,
                "fbr: a key of device {number} is neither 64 hexadecimal digits nor the name of a file that holds them and that nobody but its owner may read or write (chmod 600)"
            );
            Err(Unsaid::Told)
        }
    }
}

// Adds the keys of a peer, its bucket where it has a rate, and its address where it has one and there is room.
fn add_peer<S: Sources, E: Write>(
    alloc: Global,
    files: &S,
    peer: &PeerLine<'_>,
    secrets: &mut Secrets,
    errors: &mut E,
) -> Result<(), Unsaid> {
    let number = peer.number;
    let key = bytes_of(alloc, files, peer.number, peer.key, errors)?;
    secrets
        .others
        .push(Secret { number, key })
        .map_err(AllocError::from)?;
    if let Some(second) = peer.second {
        let key = bytes_of(alloc, files, number, second, errors)?;
        secrets
            .others
            .push(Secret { number, key })
            .map_err(AllocError::from)?;
    }
    if let Some(rate) = peer.rate {
        let bucket = Bucket::new(rate);
        secrets
            .paced
            .push(Paced { number, bucket })
            .map_err(AllocError::from)?;
    }
    if let Some(address) = peer.address {
        if secrets.to.as_slice().len() >= 64 {
            let _ = writeln!(
                errors,
                "fbr: a device sends to 64 addresses at most, those of its words and of its keys together"
            );
            return Err(Unsaid::Told);
        }
        secrets.to.push(address);
    }
    Ok(())
}

// The key under which this device seals: the first one of its line.
fn own_key<S: Sources, E: Write>(
    alloc: Global,
    files: &S,
    keys: &Keys<'_>,
    errors: &mut E,
) -> Result<[u8; 32], Unsaid> {
    for peer in keys.peers.as_slice() {
        if peer.number == keys.own {
            return bytes_of(alloc, files, peer.number, peer.key, errors);
        }
    }
    Err(Unsaid::Told)
}

// All keys of a file that was read.
fn all_keys<S: Sources, E: Write>(
    alloc: Global,
    files: &S,
    keys: &Keys<'_>,
    peers: &Peers,
    errors: &mut E,
) -> Result<Secrets, Unsaid> {
    let key = own_key(alloc, files, keys, errors)?;
    let mut secrets = Secrets {
        own: Secret {
            number: keys.own,
            key,
        },
        others: Vec::new(alloc),
        paced: Vec::new(alloc),
        to: Peers::new(peers.as_slice()),
    };
    for peer in keys.peers.as_slice() {
        if peer.number != keys.own {
            add_peer(alloc, files, peer, &mut secrets, errors)?;
        }
    }
    Ok(secrets)
}

/// The keys that a file says, which only its owner may read, and to whom the device sends: the peers of its words, and those of the file that have an address.
pub(crate) fn secrets_in<S: Sources, E: Write>(
    alloc: Global,
    files: &S,
    name: &str,
    peers: &Peers,
    errors: &mut E,
) -> Result<Secrets, Unsaid> {
    if !files.is_private(name) {
        tell_open(name, errors);
        return Err(Unsaid::Told);
    }
    let file = read_file(alloc, files, name);
    let text = match file.text() {
        Ok(text) => text,
        Err(_) => {
            tell_open(name, errors);
            return Err(Unsaid::Told);
        }
    };
    match read_keys(alloc, text) {
        Ok(keys) => all_keys(alloc, files, &keys, peers, errors),
        Err(KeysFault::Memory) => Err(Unsaid::Memory),
        Err(fault) => {
            tell_fault(name, fault, errors);
            Err(Unsaid::Told)
        }
    }
}
