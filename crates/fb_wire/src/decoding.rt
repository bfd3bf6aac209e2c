//! Bytes as messages.

ghost use Rattle.std.specs.Prelude.{ℕ, suc, ◌≡◌, ◌≤◌, ◌<◌, true, List, ◌∷◌, ◌++◌, length, IfOk, IfErr, IfSome, None, Some};
ghost use Rattle.std.specs.Int.{w64, cast_unsigned, to_be_bytes};
ghost use Rattle.fb_words.specs.Numbers.{in_type};
ghost use Rattle.fb_model.specs.Messages.{Spells, IsStamp, version, big_endian, stamp_bytes};
ghost use Rattle.fb_wire.specs.declared.fault.WireFault.TheVariants.{Short};
ghost use Rattle.fb_wire.specs.Views.{fault_of, code_of, stamped_of, value_bytes, aim_bytes, head_bytes, IsBegun};
ghost use Rattle.fb_model.specs.Fields as field;
ghost use Rattle.fb_model.specs.Fields.{Field, first_fault, byte, type_of, kind, number, stamping, stamp, head, values_in, fault_in};

use crate::fault::WireFault;
use crate::message::{Message, Purpose, Stamp, Typed};
use fb_words::ElemType;

// The most values of a message.
const MOST_VALUES: u8 = 16;

// A field of so many bytes, and what follows it.
fn field(bytes: &[u8], width: usize) -> Result<(&[u8], &[u8]), WireFault>
    ensures whole { IfOk result (λ r. (length r.0.now ≡ width) × (bytes.now ≡ r.0.now ++ r.1.now)) }
    ensures short { IfErr result (λ fault. (fault ≡ Short) × (length bytes.now < width)) }
{
    bytes.split_at_checked(width).ok_or(WireFault::Short)
}

// The type of a code.
fn elem(code: u8) -> Option<ElemType>
    ensures elem { result ≡ type_of code }
    ensures code { IfSome result (λ elem. code_of elem ≡ code) }
{
    match code {
        0 => Some(ElemType::Bool),
        1 => Some(ElemType::Sint),
        2 => Some(ElemType::Int),
        3 => Some(ElemType::Dint),
        4 => Some(ElemType::Lint),
        5 => Some(ElemType::Usint),
        6 => Some(ElemType::Uint),
        7 => Some(ElemType::Udint),
        8 => Some(ElemType::Time),
        _ => None,
    }
}

// Eight bytes as a number, in two's complement, high byte first.
fn number(bytes: &[u8; 8]) -> i64
    ensures { to_be_bytes w64 (cast_unsigned w64 result) ≡ bytes.now }
{
    i64::from_be_bytes(*bytes)
}

// Four bytes as a number, high byte first.
fn part(bytes: &[u8]) -> u32
    requires { length bytes.now ≡ 4 }
    ensures { big_endian 4 result ≡ bytes.now }
{
    u32::from_be_bytes([bytes[0], bytes[1], bytes[2], bytes[3]])
}

// Behind version 1: what the message is for, and its number.
fn plain(bytes: &[u8]) -> Result<(Message, &[u8]), WireFault>
    ensures spelled { IfOk result (λ r. bytes.now ≡ aim_bytes r.0 ++ r.1.now) }
    ensures begun { IfOk result (λ r. IsBegun r.0 × (r.0.stamp ≡ None)) }
    ensures fault { IfErr result (λ fault. (fs : List Field) → first_fault (kind 1 ∷ number ∷ fs) bytes.now ≡ Some (fault_of fault)) }
{
    let (kind, rest) = field(bytes, 1)?;
    let purpose = match kind[0] {
        1 => Purpose::ToChannel,
        2 => Purpose::ToInput,
        _ => return Err(WireFault::Kind),
    };
    let (number, rest) = field(rest, 2)?;
    let number = u16::from_be_bytes([number[0], number[1]]);
    Ok((Message::new(purpose, number), rest))
}

// A stamp, and what follows it.
fn stamp(bytes: &[u8]) -> Result<(Stamp, &[u8]), WireFault>
    ensures spelled { IfOk result (λ r. bytes.now ≡ stamp_bytes (Some (stamped_of r.0)) ++ r.1.now) }
    ensures stamp { IfOk result (λ r. IsStamp (stamped_of r.0)) }
    ensures fault { IfErr result (λ fault. (fs : List Field) → first_fault (stamping ∷ stamping ∷ fs) bytes.now ≡ Some (fault_of fault)) }
{
    let (boot, rest) = field(bytes, 4)?;
    let (sequence, rest) = field(rest, 4)?;
    let stamp = Stamp {
        boot: part(boot),
        sequence: part(sequence),
    };
    Ok((stamp, rest))
}

// Behind version 2: that the message is for a channel, its number and its stamp.
fn stamped(bytes: &[u8]) -> Result<(Message, &[u8]), WireFault>
    ensures spelled { IfOk result (λ r. bytes.now ≡ aim_bytes r.0 ++ r.1.now) }
    ensures begun { IfOk result (λ r. IsBegun r.0 × (version r.0.stamp ≡ 2)) }
    ensures fault { IfErr result (λ fault. (fs : List Field) → first_fault (kind 2 ∷ number ∷ stamping ∷ stamping ∷ fs) bytes.now ≡ Some (fault_of fault)) }
{
    let (kind, rest) = field(bytes, 1)?;
    if kind[0] != 1 {
        return Err(WireFault::Kind);
    }
    let (number, rest) = field(rest, 2)?;
    let number = u16::from_be_bytes([number[0], number[1]]);
    let (stamp, rest) = stamp(rest)?;
    Ok((Message::stamped(number, stamp), rest))
}

// The version, and what stands behind it.
fn versioned(bytes: &[u8]) -> Result<(Message, &[u8]), WireFault>
    ensures spelled { IfOk result (λ r. bytes.now ≡ version r.0.stamp ∷ aim_bytes r.0 ++ r.1.now) }
    ensures begun { IfOk result (λ r. IsBegun r.0) }
    ensures fault { IfErr result (λ fault. (fs : List Field) → first_fault (field.version ∷ kind (byte bytes.now 0) ∷ number ∷ stamp (byte bytes.now 0) ++ fs) bytes.now ≡ Some (fault_of fault)) }
{
    let (version, rest) = field(bytes, 1)?;
    match version[0] {
        1 => plain(rest),
        2 => stamped(rest),
        _ => Err(WireFault::Version),
    }
}

// A message without values, how many follow, and what stands behind the count.
fn opening(bytes: &[u8]) -> Result<(Message, u8, &[u8]), WireFault>
    ensures spelled { IfOk result (λ r. bytes.now ≡ head_bytes r.0 r.1 ++ r.2.now) }
    ensures begun { IfOk result (λ r. IsBegun r.0) }
    ensures few { IfOk result (λ r. r.1 ≤ 16) }
    ensures fault { IfErr result (λ fault. (fs : List Field) → first_fault (head (byte bytes.now 2) ++ fs) bytes.now ≡ Some (fault_of fault)) }
{
    let (mark, rest) = field(bytes, 2)?;
    if mark[0] != b'F' || mark[1] != b'B' {
        return Err(WireFault::Magic);
    }
    let (message, rest) = versioned(rest)?;
    let (count, rest) = field(rest, 1)?;
    let count = count[0];
    if count > MOST_VALUES {
        return Err(WireFault::Count);
    }
    Ok((message, count, rest))
}

// A value with its type, and what follows it.
fn value(bytes: &[u8]) -> Result<(Typed, &[u8]), WireFault>
    ensures spelled { IfOk result (λ r. bytes.now ≡ value_bytes r.0 ++ r.1.now) }
    ensures fits { IfOk result (λ r. in_type r.0.elem r.0.value ≡ true) }
    ensures fault { IfErr result (λ fault. (n : ℕ) → first_fault (values_in (suc n) bytes.now) bytes.now ≡ Some (fault_of fault)) }
{
    let (code, rest) = field(bytes, 1)?;
    let Some(elem) = elem(code[0]) else {
        return Err(WireFault::TypeCode);
    };
    let Some((value, rest)) = rest.split_first_chunk::<8>() else {
        return Err(WireFault::Short);
    };
    let value = number(value);
    if !elem.fits(i128::from(value)) {
        return Err(WireFault::Value);
    }
    Ok((Typed { elem, value }, rest))
}

/// The message that bytes spell, or what is at fault with the first field that is not whole or not right: `FB`, the version 1 or 2, 1 for a channel or, in
/// version 1, 2 for an INPUT, its number, in version 2 the boot and the sequence of its stamp, how many values follow, and of each value the code of its type
/// and itself. Nothing may follow.
pub fn decode(bytes: &[u8]) -> Result<Message, WireFault>
    ensures spelled { IfOk result (λ message. Spells message bytes.now) }
    ensures fault { IfErr result (λ fault. fault_in bytes.now ≡ Some (fault_of fault)) }
{
    let (mut message, count, behind) = opening(bytes)?;
    let mut rest = behind;
    for _ in 0..count {
        let (typed, behind) = value(rest)?;
        let _ = message.add(typed);
        rest = behind;
    }
    if rest.is_empty() {
        Ok(message)
    } else {
        Err(WireFault::Trailing)
    }
}
