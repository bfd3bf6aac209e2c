//! Operations on numbers of a type: IEC 61131-3 edition 3, 7.3.2 and 6.6.2.5.

ghost use Rattle.std.specs.Prelude.{◌≡◌, ℤ, pos, neg_ℤ, Some, IsSome};
ghost use Rattle.fb_words.specs.declared.operator.Operation.TheVariants.{Infix};
ghost use Rattle.fb_model.specs.Language.{bit, is_zero, quotient, remainder, on_one, on_two};

use fb_words::{ElemType, Operation, Operator};

/// Whether a number is the truth value FALSE.
pub fn is_zero(number: i64) -> bool
    ensures { result ≡ is_zero number }
{
    number == 0
}

fn truth_number(is_true: bool) -> i64
    ensures { result ≡ bit is_true }
{
    if is_true { 1 } else { 0 }
}

fn remainder(x: i64, y: i64) -> i128
    ensures { result ≡ remainder x y }
{
    if y == 0 {
        return 0;
    }
    i128::from(x) % i128::from(y)
}

fn quotient(x: i64, y: i64) -> i128
    requires { IsSome (quotient x y) }
    ensures { quotient x y ≡ Some result }
{
    i128::from(x) / i128::from(y)
}

fn computed(operator: Operator, of: ElemType, x: i64, y: i64) -> i64
    requires { IsSome (on_two (Infix operator) of x y) }
    ensures { on_two (Infix operator) of x y ≡ Some result }
{
    match operator {
        Operator::Plus => of.wrap(i128::from(x) + i128::from(y)),
        Operator::Minus => of.wrap(i128::from(x) - i128::from(y)),
        Operator::Times => of.wrap(i128::from(x) * i128::from(y)),
        Operator::Over => of.wrap(quotient(x, y)),
        Operator::Modulo => of.wrap(remainder(x, y)),
        Operator::Less => truth_number(x < y),
        Operator::Greater => truth_number(x > y),
        Operator::LessEqual => truth_number(x <= y),
        Operator::GreaterEqual => truth_number(x >= y),
        Operator::Equal => truth_number(x == y),
        Operator::NotEqual | Operator::Xor => truth_number(x != y),
        Operator::And => truth_number(x != 0 && y != 0),
        Operator::Or => truth_number(x != 0 || y != 0),
    }
}

/// An operation on two operands of a type, which does not trap.
pub fn apply_two(operation: Operation, of: ElemType, x: i64, y: i64) -> i64
    requires { IsSome (on_two operation of x y) }
    ensures { on_two operation of x y ≡ Some result }
{
    match operation {
        Operation::Infix(operator) => computed(operator, of, x, y),
        Operation::Min => { if x <= y { x } else { y } }
        Operation::Max => { if x <= y { y } else { x } }
        _ => unreachable!(),
    }
}

/// An operation on one operand of a type, which does not trap.
pub fn apply_one(operation: Operation, of: ElemType, x: i64) -> i64
    requires { IsSome (on_one operation of x) }
    ensures { on_one operation of x ≡ Some result }
{
    match operation {
        Operation::Negate => of.wrap(-i128::from(x)),
        Operation::Not => truth_number(x == 0),
        Operation::Abs => of.wrap(i128::from(x.unsigned_abs())),
        Operation::Convert(_, to) => to.wrap(i128::from(x)),
        _ => unreachable!(),
    }
}
