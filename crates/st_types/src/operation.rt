//! Operations, and the types that they ask for and give.

ghost use Rattle.std.specs.Prelude.{◌≡◌, List};
ghost use Rattle.std.specs.Str.{bytes_eq};
ghost use Rattle.fb_words.specs.declared.elem_type.TheConstants as constants;
ghost use Rattle.fb_model.specs.TextTyping.{allows, gives, stays_free, asks, converts, arity, conversion_name, conversion_to, conversion_from, called};

use crate::types::{is_integer, is_number};
use fb_words::{ElemType, Operation, Operator, TYPES};

/// Whether an operation may have operands of that type.
pub fn allows(operation: Operation, of: ElemType) -> bool
    ensures { result ≡ allows operation of }
{
    match operation {
        Operation::Infix(operator) => operator_allows(operator, of),
        Operation::Not => of == ElemType::Bool,
        Operation::Abs => is_integer(of),
        Operation::Convert(_, _) => true,
        Operation::Negate | Operation::Min | Operation::Max | Operation::Limit => is_number(of),
    }
}

fn operator_allows(operator: Operator, of: ElemType) -> bool
    ensures { result ≡ allows (Operation.Infix operator) of }
{
    match operator {
        Operator::Times | Operator::Over | Operator::Modulo => is_integer(of),
        Operator::And | Operator::Xor | Operator::Or => of == ElemType::Bool,
        Operator::Equal | Operator::NotEqual => true,
        Operator::Less
        | Operator::Greater
        | Operator::LessEqual
        | Operator::GreaterEqual
        | Operator::Plus
        | Operator::Minus => is_number(of),
    }
}

/// The type of what an operation gives on operands of a type.
pub fn gives(operation: Operation, of: ElemType) -> ElemType
    ensures { result ≡ gives operation of }
{
    match operation {
        Operation::Infix(operator) => {
            if is_arithmetic(operator) {
                of
            } else {
                ElemType::Bool
            }
        }
        Operation::Not => ElemType::Bool,
        Operation::Convert(_, to) => to,
        Operation::Negate | Operation::Abs | Operation::Min | Operation::Max | Operation::Limit =>
            of,
    }
}

fn is_arithmetic(operator: Operator) -> bool
    ensures { result ≡ stays_free (Operation.Infix operator) }
{
    matches!(
        operator,
        Operator::Plus | Operator::Minus | Operator::Times | Operator::Over | Operator::Modulo
    )
}

/// Whether an operation stays free on free operands alone.
pub fn stays_free(operation: Operation) -> bool
    ensures { result ≡ stays_free operation }
{
    match operation {
        Operation::Infix(operator) => is_arithmetic(operator),
        Operation::Not | Operation::Convert(_, _) => false,
        Operation::Negate | Operation::Abs | Operation::Min | Operation::Max | Operation::Limit =>
            true,
    }
}

/// The type that an operation asks for.
pub fn asks(operation: Operation) -> Option<ElemType>
    ensures { result ≡ asks operation }
{
    match operation {
        Operation::Convert(from, _) => Some(from),
        _ => None,
    }
}

/// How many arguments a function has.
pub fn arity(function: Operation) -> usize
    ensures { result ≡ arity function }
{
    match function {
        Operation::Limit => 3,
        Operation::Min | Operation::Max => 2,
        _ => 1,
    }
}

fn converts(from: ElemType, to: ElemType) -> bool
    ensures { result ≡ converts from to }
{
    match from {
        ElemType::Bool => is_integer(to),
        _ => is_number(to),
    }
}

// Whether a name is that of the conversion between two types.
fn is_conversion(name: &str, from: ElemType, to: ElemType) -> bool
    ensures { result ≡ bytes_eq name.now (conversion_name from to) }
{
    let Some(rest) = name.as_bytes().strip_prefix(from.name().as_bytes()) else {
        return false;
    };
    let Some(rest) = rest.strip_prefix(b"_TO_") else {
        return false;
    };
    rest == to.name().as_bytes()
}

fn conversion_to(name: &str, from: ElemType, types: &[ElemType]) -> Option<Operation>
    ensures { result ≡ conversion_to name.now from types.now }
{
    for to in types {
        if converts(from, *to) && is_conversion(name, from, *to) {
            return Some(Operation::Convert(from, *to));
        }
    }
    None
}

fn conversion_from(name: &str, types: &[ElemType]) -> Option<Operation>
    ensures { result ≡ conversion_from name.now types.now }
{
    for from in types {
        if let Some(function) = conversion_to(name, *from, &TYPES) {
            return Some(function);
        }
    }
    None
}

/// The function of a name, which is in upper case.
pub fn called(name: &str) -> Option<Operation>
    ensures { result ≡ called name.now }
{
    if name == "ABS" {
        return Some(Operation::Abs);
    }
    if name == "MIN" {
        return Some(Operation::Min);
    }
    if name == "MAX" {
        return Some(Operation::Max);
    }
    if name == "LIMIT" {
        return Some(Operation::Limit);
    }
    conversion_from(name, &TYPES)
}
