//! Typed expressions.

ghost use Rattle.std.specs.Prelude.{◌≡◌, string_bytes};

use fb_words::{ElemType, Operation};

/// A variable that an expression or a statement names.
#[derive(Drop)]
pub struct VariableName {
    pub name: String,
    /// Where it stands among the variables of its block, from 0. A hint where to look for it first: no view shows it.
    pub number: usize,
}

impl VariableName {
    /// The name.
    pub fn as_str(&self) -> &str
        ensures { result.now ≡ string_bytes self.now.name }
    {
        self.name.as_str()
    }
}

/// An expression whose operations have types: IEC 61131-3 edition 3, 7.3.2.
#[derive(Drop)]
#[cycle(term)]
pub enum TypedExpr {
    /// A number, or a truth value as 0 or 1.
    Constant(i64),
    /// The variable of a name.
    Read(VariableName),
    /// An element of the array of a name, with the lowest and the highest index, and the index.
    Element(VariableName, i64, i64, Box<TypedExpr>),
    /// An operation on one operand, which has the type.
    Unary(Operation, ElemType, Box<TypedExpr>),
    /// A first operand, and operations that group to the left.
    Chain(Box<TypedExpr>, Vec<TypedLink>),
}

/// An operation on what stands before it and on one more operand, which both are brought to the type.
#[derive(Drop)]
#[cycle(term)]
pub struct TypedLink {
    pub operation: Operation,
    pub of_type: ElemType,
    pub operand: TypedExpr,
}

/// An expression of numbers alone, whose type is still free. A place is the offset of a token's first byte.
#[derive(Drop)]
#[cycle(loose)]
pub enum Loose {
    Number(i128, usize),
    Unary(Operation, usize, Box<Loose>),
    Chain(Box<Loose>, Vec<LooseLink>),
}

/// An operation with its place, on what stands before it and on one more operand.
#[derive(Drop)]
#[cycle(loose)]
pub struct LooseLink {
    pub operation: Operation,
    pub at: usize,
    pub operand: Loose,
}
