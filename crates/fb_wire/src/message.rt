//! Messages.

ghost use Rattle.std.specs.Prelude.{◌≡◌, ◌≤◌, pos, true, nat_lt, ◌&&◌, None, Some, [], ◌∷◌, ◌++◌, length, map, if◌then◌else◌};
ghost use Rattle.std.specs.List.{AllByRecursion};
ghost use Rattle.fb_words.specs.declared.elem_type.ElemType.TheVariants.{Bool};
ghost use Rattle.fb_words.specs.Numbers.{in_type};
ghost use Rattle.fb_model.specs.Messages.{To_channel, IsStamped};
ghost use Rattle.fb_wire.specs.Views.{purpose_of, stamped_of, stamp_of, typed_of};

use arrayvec::ArrayVec;
use fb_words::ElemType;
use std::marker::Model;

/// Where a message goes.
#[derive(Clone, Copy)]
pub enum Purpose {
    /// To the SUBSCRIBEs of a channel.
    ToChannel,
    /// To an INPUT.
    ToInput,
}

/// When a message was sent.
#[derive(Clone, Copy)]
pub struct Stamp {
    /// The boot of the device that sent it.
    pub boot: u32,
    /// Where it stands in the sequence of its sender.
    pub sequence: u32,
}

/// A value with its type.
#[derive(Clone, Copy)]
pub struct Typed {
    pub elem: ElemType,
    pub value: i64,
}

/// BOOL 0.
impl Default for Typed {
    fn default() -> Typed
        ensures { result ≡ record { elem = Bool; value = pos 0 } }
    {
        Typed {
            elem: ElemType::Bool,
            value: 0,
        }
    }
}

/// A message to a channel or to an INPUT of a number, with at most 16 values, each in its type. One to a channel may have a stamp, one to an INPUT has none.
#[derive(Drop)]
pub struct Message {
    purpose: Purpose,
    number: u16,
    stamp: Option<Stamp>,
    values: ArrayVec<Typed, 16>,
}

impl Model for Message {
    ghost use Rattle.std.specs.Prelude.{◌≡◌, ◌≤◌, ◌<◌, ◌^◌, true, length, map};
    ghost use Rattle.std.specs.List.{AllByRecursion};
    ghost use Rattle.fb_words.specs.Numbers.{in_type};
    ghost use Rattle.fb_model.specs.Messages as book;
    ghost use Rattle.fb_wire.specs.Views.{purpose_of, stamp_of, typed_of};

    ghost Value = { book.Message };

    ghost view = { λ m. record { purpose = purpose_of m.purpose; number = m.number; stamp = stamp_of m.stamp; values = map typed_of m.values.items } };

    ghost invariant = { λ m. (length m.values.items ≤ 16) × (m.number < 2 ^ 16) × book.IsStamped (purpose_of m.purpose) (stamp_of m.stamp) × AllByRecursion (λ v. in_type v.elem v.value ≡ true) m.values.items };
}

impl Message {
    /// A message without a stamp and without values.
    pub fn new(purpose: Purpose, number: u16) -> Message
        ensures { result ≡ record { purpose = purpose_of purpose; number = number; stamp = None; values = [] } }
    {
        Message {
            purpose,
            number,
            stamp: None,
            values: ArrayVec::new(),
        }
    }

    /// A message to a channel, with a stamp and without values.
    pub fn stamped(number: u16, stamp: Stamp) -> Message
        ensures { result ≡ record { purpose = To_channel; number = number; stamp = Some (stamped_of stamp); values = [] } }
    {
        Message {
            purpose: Purpose::ToChannel,
            number,
            stamp: Some(stamp),
            values: ArrayVec::new(),
        }
    }

    /// Adds a value behind the others. None is added, and false answered, where 16 stand there or it is not in its type.
    pub fn add(&mut self, typed: Typed) -> bool
        ensures added { result ≡ (nat_lt (length self.old.values) 16 && in_type typed.elem typed.value) }
        ensures is { self.new ≡ (if result then record { purpose = self.old.purpose; number = self.old.number; stamp = self.old.stamp; values = self.old.values ++ typed_of typed ∷ [] } else self.old) }
    {
        typed.elem.fits(i128::from(typed.value)) && self.values.try_push(typed).is_ok()
    }

    /// Where it goes.
    pub fn purpose(&self) -> Purpose
        ensures { purpose_of result ≡ self.now.purpose }
    {
        self.purpose
    }

    /// The number of its channel or INPUT.
    pub fn number(&self) -> u16
        ensures { result ≡ self.now.number }
    {
        self.number
    }

    /// Its stamp, if it has one.
    pub fn stamp(&self) -> Option<Stamp>
        ensures stamp { stamp_of result ≡ self.now.stamp }
        ensures stamped { IsStamped self.now.purpose self.now.stamp }
    {
        self.stamp
    }

    /// Its values, in order.
    pub fn values(&self) -> &[Typed]
        ensures values { map typed_of result.now ≡ self.now.values }
        ensures few { length result.now ≤ 16 }
        ensures fitting { AllByRecursion (λ v. in_type v.elem v.value ≡ true) result.now }
    {
        self.values.as_slice()
    }
}
