//! Stories as they are read: sequences of steps, in which each name stands for what it names.

use fb_types_blocks::Block;
use fb_words::ElemType;
use fbr_names::NumberedLeaf;

/// What becomes of a datagram in place of being delivered once, in its turn.
#[derive(Clone, Copy)]
pub enum Fate {
    /// It comes to no device.
    Lost,
    /// It comes twice to each.
    Doubled,
    /// It comes after the one that is sent next.
    Held,
}

/// The bytes of a story from one to before another.
#[derive(Clone, Copy)]
pub struct Span {
    pub from: usize,
    pub to: usize,
}

/// A sequence: its first line, its name, which names are its own (0 those of the system, and then those of block types), and its steps in order.
#[derive(Drop)]
pub struct Sequence<'a> {
    pub said: Span,
    pub name: Span,
    pub scope: usize,
    pub steps: Vec<Step<'a>>,
}

/// A step: its text without what it wants, and what it does.
#[derive(Drop)]
pub struct Step<'a> {
    pub said: Span,
    pub action: Action<'a>,
}

/// What a step does.
#[derive(Drop)]
pub enum Action<'a> {
    /// Something comes from outside, and the system answers.
    Stimulus(Stimulus),
    /// Something is looked at.
    Expect(Expected<'a>),
    /// The next datagram has this fate.
    Next(Fate),
    /// All datagrams of the device of a number are lost.
    Silence(u16),
    /// No more of them are.
    Heal,
}

/// A stimulus, and what it is to make the outside see. Without that nothing is compared.
#[derive(Drop)]
pub struct Stimulus {
    /// Its text.
    pub said: Span,
    pub cause: Cause,
    /// How many steps its values take before it comes, which are not counted: each that has an INPUT of its own.
    pub carrying: u64,
    pub wanted: Option<Wanted>,
    /// The most steps that it may take, on all devices.
    pub most: Option<u64>,
}

/// What comes from outside.
#[derive(Drop)]
pub enum Cause {
    /// Arrivals, of which all are offered before the first is served.
    Arrivals(Vec<Arrival>),
    /// So many milliseconds.
    Time(u64),
}

/// Values at the INPUT of a number.
#[derive(Drop)]
pub struct Arrival {
    pub device: u16,
    pub input: u16,
    pub values: Vec<i64>,
}

/// What the outside is to see.
#[derive(Drop)]
pub struct Wanted {
    pub said: Span,
    pub writes: Vec<WantedWrite>,
    /// The numbers of denials; without a number any is meant.
    pub denials: Vec<Option<u8>>,
    /// Whether any number of writes may follow.
    pub is_open: bool,
}

/// What the OUTPUT of a number is to write; without a value any is meant.
#[derive(Drop)]
pub struct WantedWrite {
    pub device: u16,
    pub output: u16,
    pub values: Vec<Option<i64>>,
}

/// What is looked at, and the text of what it is to be.
#[derive(Drop)]
pub struct Expected<'a> {
    pub wanted: Span,
    pub looked: Looked<'a>,
}

/// What is looked at.
#[derive(Drop)]
pub enum Looked<'a> {
    /// Whether a variable has a value.
    Value(Variable<'a>, i64),
    /// Whether a block is in the state of a number.
    State(NumberedLeaf<'a>, &'a Block, u16),
    /// Whether so many entries are pending at the resource of a number, at the device of a number.
    Queue(u16, u16, u64),
}

/// A variable of a block, or the element of an array at an index.
#[derive(Drop)]
pub struct Variable<'a> {
    pub place: NumberedLeaf<'a>,
    pub name: String,
    pub of_type: ElemType,
    /// How many elements stand before it.
    pub before: u64,
}
