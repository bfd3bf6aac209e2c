//! Tokens that are one expression.

ghost use Rattle.std.specs.Prelude.{◌≡◌, ℕ, List, [], IfOk};
ghost use Rattle.fb_lex.specs.Views.{tokens_of};
ghost use Rattle.fb_model.specs.Tokens as book;
ghost use Rattle.fb_model.specs.StructuredText.{Expression};
ghost use Rattle.fb_model.specs.StructuredTextGrammar.{IsExpression, most_nested};
ghost use Rattle.fb_read.specs.Answers.{Gives};
ghost use Rattle.fb_read.specs.Whole.{IfSyntax};
ghost use Rattle.fb_tree.specs.Algorithms.{expr_of};
ghost use Rattle.st_parse.specs.ExpressionReading.{whole_at};
ghost use Rattle.st_parse.specs.ExpressionAnswers.{Reads, FindsExpression, SyntaxAt, DeepAt};

use crate::reading::expression;
use fb_faults::TextFault;
use fb_lex::Token;
use fb_read::{Stop, end_of};
use fb_tree::Expr;
use std::alloc::Global;

// All of the tokens.
#[tactic(auto, unfolding(crate::specs::ExpressionReading::whole_at))]
fn whole(alloc: Global, tokens: &[Token]) -> Result<Expr, Stop>
    ensures { Gives expr_of result (whole_at (tokens_of tokens.now)) }
{
    let (expr, rest) = expression(alloc, tokens)?;
    if !rest.is_empty() {
        return Err(Stop::Syntax(rest.len()));
    }
    Ok(expr)
}

/// The expression that the tokens are, all of them: IEC 61131-3 edition 3, 7.3.2.
///
/// Errors: `OutOfMemory`; `Syntax` at the first token that cannot stand there, or where the last token ends (0 without one) if
/// they end too soon; `TooDeep` at the token that opens one nesting too many, where 64 brackets, calls and signs may nest.
pub fn parse_expr(alloc: Global, tokens: &[Token]) -> Result<Expr, TextFault>
    ensures reads { Reads (tokens_of tokens.now) result }
    ensures found { IfOk result (λ expr. IsExpression most_nested (tokens_of tokens.now) (expr_of expr) []) }
    ensures only { (x : Expression) → IsExpression most_nested (tokens_of tokens.now) x [] → FindsExpression result x }
    ensures syntax { IfSyntax result ((depth : ℕ) (x : Expression) → IsExpression depth (tokens_of tokens.now) x [] → ⊥) }
    ensures offset { SyntaxAt (tokens_of tokens.now) result }
    ensures deep { DeepAt (tokens_of tokens.now) result }
{
    match whole(alloc, tokens) {
        Ok(expr) => Ok(expr),
        Err(stop) => Err(stop.fault(tokens, end_of(tokens))),
    }
}

/// No tokens are two expressions.
pub fn one_expression()
    ensures { (n k : ℕ) (ts : List book.Token) (x y : Expression) → IsExpression n ts x [] → IsExpression k ts y [] → x ≡ y }
{}
