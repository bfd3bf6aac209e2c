//! What marks do behind an operand.

ghost use Rattle.std.specs.Prelude.{◌≡◌};
ghost use Rattle.fb_lex.specs.Views.{tokens_of};
ghost use Rattle.st_parse.specs.ExpressionReading.{role, operator_at, begins_link, continues};

use fb_lex::{Kind, Token};
use fb_words::{Mark, Operator};

/// What a mark does behind an operand.
#[derive(Clone, Copy)]
pub enum Role {
    /// An operator, and its level.
    Infix(u8, Operator),
    /// It opens an index or arguments.
    Opener,
    /// It ends the expression.
    Other,
}

fn role_of(mark: Mark) -> Role
    ensures { result ≡ role mark }
{
    match mark {
        Mark::Or => Role::Infix(6, Operator::Or),
        Mark::Xor => Role::Infix(5, Operator::Xor),
        Mark::And | Mark::Ampersand => Role::Infix(4, Operator::And),
        Mark::Equal => Role::Infix(3, Operator::Equal),
        Mark::NotEqual => Role::Infix(3, Operator::NotEqual),
        Mark::Less => Role::Infix(2, Operator::Less),
        Mark::Greater => Role::Infix(2, Operator::Greater),
        Mark::LessEqual => Role::Infix(2, Operator::LessEqual),
        Mark::GreaterEqual => Role::Infix(2, Operator::GreaterEqual),
        Mark::Plus => Role::Infix(1, Operator::Plus),
        Mark::Minus => Role::Infix(1, Operator::Minus),
        Mark::Star => Role::Infix(0, Operator::Times),
        Mark::Slash => Role::Infix(0, Operator::Over),
        Mark::Mod => Role::Infix(0, Operator::Modulo),
        Mark::LParen | Mark::LBracket => Role::Opener,
        _ => Role::Other,
    }
}

/// The operator of a level that stands next, and its place.
pub fn operator_at(tokens: &[Token], level: u8) -> Option<(Operator, usize)>
    ensures { result ≡ operator_at level (tokens_of tokens.now) }
{
    match tokens {
        [] => None,
        [token, ..] => match &token.kind {
            Kind::Mark(mark) => match role_of(*mark) {
                Role::Infix(found, operator) => {
                    if found == level {
                        Some((operator, token.start))
                    } else {
                        None
                    }
                }
                _ => None,
            },
            _ => None,
        },
    }
}

/// Whether an operator of a level stands next.
pub fn begins_link(tokens: &[Token], level: u8) -> bool
    ensures { result ≡ begins_link level (tokens_of tokens.now) }
{
    operator_at(tokens, level).is_some()
}

/// Whether an expression that ends before these tokens may go on with the next one: an operator, or a mark that opens an index or arguments.
pub fn continues(tokens: &[Token]) -> bool
    ensures { result ≡ continues (tokens_of tokens.now) }
{
    match tokens {
        [] => false,
        [token, ..] => match &token.kind {
            Kind::Mark(mark) => match role_of(*mark) {
                Role::Infix(_, _) | Role::Opener => true,
                Role::Other => false,
            },
            _ => false,
        },
    }
}
