//! Expressions by slots.

use fb_words::{ElemType, Operation};

/// A typed expression with the slots of its variables: IEC 61131-3 edition 3, 7.3.2. Names are there for who reads it; what runs looks at slots alone.
#[derive(Drop)]
#[cycle(code)]
pub enum Code {
    /// A number, or a truth value as 0 or 1.
    Constant(i64),
    /// The variable of a name, and its slot.
    Read(String, usize),
    /// An element of the array of a name: the slot of the array's first element, its lowest and its highest index, and the index.
    Element(String, usize, i64, i64, Box<Code>),
    /// An operation on one operand, which has the type.
    Unary(Operation, ElemType, Box<Code>),
    /// A first operand, and operations that group to the left.
    Chain(Box<Code>, Vec<CodeLink>),
}

/// An operation on what stands before it and on one more operand, which both are brought to the type.
#[derive(Drop)]
#[cycle(code)]
pub struct CodeLink {
    pub operation: Operation,
    pub of_type: ElemType,
    pub operand: Code,
}
