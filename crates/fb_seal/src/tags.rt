//! Tags of bytes under a key.

ghost use Rattle.std.specs.Prelude.{◌≡◌, bytes_eq, map, bit_xor, take};
ghost use Rattle.sha2.specs.Hashers.{Holds256};
ghost use Rattle.fb_seal.specs.Seal.{padded, tag};

use sha2::{Digest, Sha256};

// Each byte of a key xor a pad.
fn with_pad(key: &[u8; 32], pad: u8) -> [u8; 32]
    ensures { result ≡ map (λ b. bit_xor b pad) key.now }
{
    let mut bytes = *key;
    for i in 0..32 {
        bytes[i] ^= pad;
    }
    bytes
}

// A hash that has begun with a padded key.
fn begun(key: &[u8; 32], pad: u8) -> Sha256
    ensures { Holds256 result (padded key.now pad) }
{
    let mut hash = Sha256::new();
    hash.update(with_pad(key, pad));
    hash.update([pad; 32]);
    hash
}

/// The tag of bytes under a key: the first 16 bytes of their HMAC-SHA-256.
#[tactic(auto, unfolding(crate::specs::Seal::tag))]
pub fn tag(key: &[u8; 32], bytes: &[u8]) -> [u8; 16]
    ensures { result ≡ tag key.now bytes.now }
{
    let mut inner = begun(key, 0x36);
    inner.update(bytes);
    let mut outer = begun(key, 0x5c);
    outer.update(inner.finalize());
    first_half(&outer.finalize())
}

// The first 16 of 32 bytes.
fn first_half(bytes: &[u8; 32]) -> [u8; 16]
    ensures { result ≡ take 16 bytes.now }
{
    match bytes.first_chunk::<16>() {
        Some(first) => *first,
        None => unreachable!(),
    }
}

/// Whether two tags are the same. All bytes are compared, wherever the first difference is, so that the time tells nothing of it.
pub fn is_same(one: &[u8; 16], other: &[u8; 16]) -> bool
    ensures { result ≡ bytes_eq one.now other.now }
{
    let mut difference = 0;
    for i in 0..16 {
        difference |= one[i] ^ other[i];
    }
    difference == 0
}
