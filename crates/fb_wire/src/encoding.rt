//! Messages as bytes.

ghost use Rattle.std.specs.Prelude.{◌≡◌, ◌+◌, ◌≤◌, ◌<◌, ◌++◌, length};
ghost use Rattle.fb_model.specs.Messages.{Spells, IsStamped, version, stamp_bytes};
ghost use Rattle.fb_wire.specs.Views.{stamp_of, code_of, purpose_code, value_bytes, head_bytes};

use crate::message::{Message, Purpose, Stamp, Typed};
use arrayvec::ArrayVec;
use fb_words::ElemType;

/// The bytes of a message: at most 159.
pub type Datagram = ArrayVec<u8, 160>;

// Adds bytes behind others.
fn put(bytes: &mut Datagram, more: &[u8])
    requires { length bytes.old.items + length more.now ≤ 160 }
    ensures { bytes.new.items ≡ bytes.old.items ++ more.now }
{
    match bytes.try_extend_from_slice(more) {
        Ok(()) => {}
        Err(_) => unreachable!(),
    }
}

// The code of a type.
fn code(elem: ElemType) -> u8
    ensures { result ≡ code_of elem }
{
    match elem {
        ElemType::Bool => 0,
        ElemType::Sint => 1,
        ElemType::Int => 2,
        ElemType::Dint => 3,
        ElemType::Lint => 4,
        ElemType::Usint => 5,
        ElemType::Uint => 6,
        ElemType::Udint => 7,
        ElemType::Time => 8,
    }
}

// The code of what a message is for.
fn kind(purpose: Purpose) -> u8
    ensures { result ≡ purpose_code purpose }
{
    match purpose {
        Purpose::ToChannel => 1,
        Purpose::ToInput => 2,
    }
}

// The version of a message, by its stamp.
fn version(stamp: Option<Stamp>) -> u8
    ensures { result ≡ version (stamp_of stamp) }
{
    match stamp {
        None => 1,
        Some(_) => 2,
    }
}

// Adds a stamp, if there is one, behind other bytes.
fn put_stamp(bytes: &mut Datagram, stamp: Option<Stamp>)
    requires { length bytes.old.items + 8 ≤ 160 }
    ensures added { bytes.new.items ≡ bytes.old.items ++ stamp_bytes (stamp_of stamp) }
    ensures few { length bytes.new.items ≤ length bytes.old.items + 8 }
{
    match stamp {
        None => {}
        Some(stamp) => {
            put(bytes, &stamp.boot.to_be_bytes());
            put(bytes, &stamp.sequence.to_be_bytes());
        }
    }
}

// The bytes before the values.
fn start(message: &Message) -> Datagram
    ensures number { message.now.number < 65536 }
    ensures stamped { IsStamped message.now.purpose message.now.stamp }
    ensures bytes { result.items ≡ head_bytes message.now (length message.now.values) }
    ensures few { length result.items ≤ 15 }
{
    let mut bytes = ArrayVec::new();
    let stamp = message.stamp();
    put(
        &mut bytes,
        &[b'F', b'B', version(stamp), kind(message.purpose())],
    );
    put(&mut bytes, &message.number().to_be_bytes());
    put_stamp(&mut bytes, stamp);
    put(&mut bytes, &[message.values().len() as u8]);
    bytes
}

// Adds a value behind other bytes.
fn put_value(bytes: &mut Datagram, typed: Typed)
    requires { length bytes.old.items + 9 ≤ 160 }
    ensures { bytes.new.items ≡ bytes.old.items ++ value_bytes typed }
{
    put(bytes, &[code(typed.elem)]);
    put(bytes, &typed.value.to_be_bytes());
}

/// The bytes of a message: `FB`, the version, which is 2 where it has a stamp and 1 where it has none, 1 for a channel or 2 for an INPUT, its number in two
/// bytes, the boot and the sequence of its stamp in four each, how many values it has, and of each value the code of its type and eight bytes in two's
/// complement; high bytes come first.
pub fn encode(message: &Message) -> Datagram
    ensures { Spells message.now result.items }
{
    let mut bytes = start(message);
    let values = message.values();
    for typed in values {
        put_value(&mut bytes, *typed);
    }
    bytes
}
