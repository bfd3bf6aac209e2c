//! What a device does, one thing at a time.

ghost use Rattle.std.specs.Prelude.{◌≡◌};

/// One of the things that a dispatch is made of. What each of them stands for in charts, algorithms and services is defined with the work of a dispatch.
#[derive(Clone, Copy)]
pub enum Primitive {
    /// A dispatch of a basic block, from the queue to rest.
    Dispatch,
    /// A data input that is sampled.
    Sample,
    /// The transitions of a state are looked through.
    Scan,
    /// A transition whose event is not there is passed by.
    Skip,
    /// A transition without a guard is tried.
    Open,
    /// A transition with a guard is tried, besides its expression.
    Guard,
    /// A transition is crossed.
    Cross,
    /// An action is done.
    Act,
    /// An algorithm is called.
    Call,
    /// An event output is issued.
    Issue,
    /// A data output that it is WITH is issued.
    Give,
    /// An event input that it reaches is put into the queue.
    Put,
    Constant,
    Variable,
    /// An element of an array is read.
    Element,
    /// `+` and `-`.
    Add,
    /// `*`.
    Multiply,
    /// `/`.
    Divide,
    /// `MOD`.
    Modulo,
    /// `=`, `<>`, `<`, `>`, `<=` and `>=`.
    Compare,
    /// `AND`, `OR` and `XOR`.
    Logic,
    /// `MIN`, `MAX` and `LIMIT`.
    Extreme,
    /// Unary minus.
    Negate,
    /// `NOT`.
    Not,
    /// `ABS`.
    Absolute,
    /// A value is brought to another type.
    Convert,
    /// A variable gets a value.
    Assign,
    /// An element of an array gets a value.
    AssignElement,
    /// An IF is begun.
    If,
    /// A condition of an IF is tried.
    Branch,
    /// A CASE is begun.
    Case,
    /// An arm of a CASE is tried.
    Arm,
    /// A label of an arm that is tried.
    Label,
    /// A FOR is begun.
    For,
    /// An iteration of a FOR.
    Iteration,
    /// ARRIVE of an INPUT.
    Receive,
    /// REQ of an OUTPUT.
    Write,
    /// REQ of a PUBLISH.
    Send,
    /// ARRIVE of a SUBSCRIBE.
    Take,
    /// INIT of a PUBLISH or SUBSCRIBE.
    Initialize,
    /// RSP of a SUBSCRIBE.
    Respond,
    /// BEGIN of an E_RESTART.
    Begin,
    /// START of an E_DELAY or E_CYCLE.
    Start,
    /// STOP of an E_DELAY or E_CYCLE.
    Stop,
    /// EXPIRE of an E_DELAY or E_CYCLE.
    Expire,
    /// A value that a service receives, writes or sends.
    Value,
}

/// All primitives, in the order of their numbers.
pub const PRIMITIVES: [Primitive; 46] = [
    Primitive::Dispatch,
    Primitive::Sample,
    Primitive::Scan,
    Primitive::Skip,
    Primitive::Open,
    Primitive::Guard,
    Primitive::Cross,
    Primitive::Act,
    Primitive::Call,
    Primitive::Issue,
    Primitive::Give,
    Primitive::Put,
    Primitive::Constant,
    Primitive::Variable,
    Primitive::Element,
    Primitive::Add,
    Primitive::Multiply,
    Primitive::Divide,
    Primitive::Modulo,
    Primitive::Compare,
    Primitive::Logic,
    Primitive::Extreme,
    Primitive::Negate,
    Primitive::Not,
    Primitive::Absolute,
    Primitive::Convert,
    Primitive::Assign,
    Primitive::AssignElement,
    Primitive::If,
    Primitive::Branch,
    Primitive::Case,
    Primitive::Arm,
    Primitive::Label,
    Primitive::For,
    Primitive::Iteration,
    Primitive::Receive,
    Primitive::Write,
    Primitive::Send,
    Primitive::Take,
    Primitive::Initialize,
    Primitive::Respond,
    Primitive::Begin,
    Primitive::Start,
    Primitive::Stop,
    Primitive::Expire,
    Primitive::Value,
];

impl Primitive {
    ghost use Rattle.fb_prices.specs.Words.{number_of, word_of};

    /// Its number, from 0 on.
    pub fn number(self) -> usize
        ensures { result ≡ number_of self }
    {
        match self {
            Primitive::Dispatch => 0,
            Primitive::Sample => 1,
            Primitive::Scan => 2,
            Primitive::Skip => 3,
            Primitive::Open => 4,
            Primitive::Guard => 5,
            Primitive::Cross => 6,
            Primitive::Act => 7,
            Primitive::Call => 8,
            Primitive::Issue => 9,
            Primitive::Give => 10,
            Primitive::Put => 11,
            Primitive::Constant => 12,
            Primitive::Variable => 13,
            Primitive::Element => 14,
            Primitive::Add => 15,
            Primitive::Multiply => 16,
            Primitive::Divide => 17,
            Primitive::Modulo => 18,
            Primitive::Compare => 19,
            Primitive::Logic => 20,
            Primitive::Extreme => 21,
            Primitive::Negate => 22,
            Primitive::Not => 23,
            Primitive::Absolute => 24,
            Primitive::Convert => 25,
            Primitive::Assign => 26,
            Primitive::AssignElement => 27,
            Primitive::If => 28,
            Primitive::Branch => 29,
            Primitive::Case => 30,
            Primitive::Arm => 31,
            Primitive::Label => 32,
            Primitive::For => 33,
            Primitive::Iteration => 34,
            Primitive::Receive => 35,
            Primitive::Write => 36,
            Primitive::Send => 37,
            Primitive::Take => 38,
            Primitive::Initialize => 39,
            Primitive::Respond => 40,
            Primitive::Begin => 41,
            Primitive::Start => 42,
            Primitive::Stop => 43,
            Primitive::Expire => 44,
            Primitive::Value => 45,
        }
    }

    /// Its word, as lists of prices write it.
    pub fn word(self) -> &'static str
        ensures { result.now ≡ word_of self }
    {
        match self {
            Primitive::Dispatch => "DISPATCH",
            Primitive::Sample => "SAMPLE",
            Primitive::Scan => "SCAN",
            Primitive::Skip => "SKIP",
            Primitive::Open => "OPEN",
            Primitive::Guard => "GUARD",
            Primitive::Cross => "CROSS",
            Primitive::Act => "ACT",
            Primitive::Call => "CALL",
            Primitive::Issue => "ISSUE",
            Primitive::Give => "GIVE",
            Primitive::Put => "PUT",
            Primitive::Constant => "CONSTANT",
            Primitive::Variable => "VARIABLE",
            Primitive::Element => "ELEMENT",
            Primitive::Add => "ADD",
            Primitive::Multiply => "MULTIPLY",
            Primitive::Divide => "DIVIDE",
            Primitive::Modulo => "MODULO",
            Primitive::Compare => "COMPARE",
            Primitive::Logic => "LOGIC",
            Primitive::Extreme => "EXTREME",
            Primitive::Negate => "NEGATE",
            Primitive::Not => "NOT",
            Primitive::Absolute => "ABSOLUTE",
            Primitive::Convert => "CONVERT",
            Primitive::Assign => "ASSIGN",
            Primitive::AssignElement => "ASSIGN_ELEMENT",
            Primitive::If => "IF",
            Primitive::Branch => "BRANCH",
            Primitive::Case => "CASE",
            Primitive::Arm => "ARM",
            Primitive::Label => "LABEL",
            Primitive::For => "FOR",
            Primitive::Iteration => "ITERATION",
            Primitive::Receive => "RECEIVE",
            Primitive::Write => "WRITE",
            Primitive::Send => "SEND",
            Primitive::Take => "TAKE",
            Primitive::Initialize => "INITIALIZE",
            Primitive::Respond => "RESPOND",
            Primitive::Begin => "BEGIN",
            Primitive::Start => "START",
            Primitive::Stop => "STOP",
            Primitive::Expire => "EXPIRE",
            Primitive::Value => "VALUE",
        }
    }
}
