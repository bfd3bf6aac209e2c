//! Operators of Structured Text.

use crate::elem_type::ElemType;

/// An operator between two operands: IEC 61131-3 edition 3, 7.3.2 (expressions of Structured Text), the part that this profile has.
#[derive(Clone, Copy)]
pub enum Operator {
    Or,
    Xor,
    /// `AND` and `&`.
    And,
    Equal,
    NotEqual,
    Less,
    Greater,
    LessEqual,
    GreaterEqual,
    Plus,
    Minus,
    Times,
    Over,
    /// `MOD`.
    Modulo,
}

/// What is done with operands that are brought to one type: IEC 61131-3 edition 3, 7.3.2 and 6.6.2 (standard functions), the part
/// that this profile has.
#[derive(Clone, Copy)]
pub enum Operation {
    /// An operator between two operands.
    Infix(Operator),
    /// Unary minus.
    Negate,
    Not,
    /// `ABS(x)`.
    Abs,
    /// `MIN(a, b)`.
    Min,
    /// `MAX(a, b)`.
    Max,
    /// `LIMIT(MN, IN, MX)`.
    Limit,
    /// `A_TO_B(x)`, from the first type to the second.
    Convert(ElemType, ElemType),
}
