//! Algorithms.

ghost use Rattle.std.specs.Prelude.{◌≡◌, ℕ, List, [], IfOk};
ghost use Rattle.fb_lex.specs.Views.{tokens_of};
ghost use Rattle.fb_read.specs.Answers.{Gives};
ghost use Rattle.fb_read.specs.Whole.{IfSyntax};
ghost use Rattle.fb_model.specs.Tokens as book;
ghost use Rattle.fb_model.specs.StructuredText.{Statements};
ghost use Rattle.fb_model.specs.StructuredTextGrammar.{IsAlgorithm, most_nested, most_nested_statements};
ghost use Rattle.fb_tree.specs.Algorithms.{body_of};
ghost use Rattle.st_parse.specs.Reading.{algorithm_at, whole_at};
ghost use Rattle.st_parse.specs.Answers.{Reads, FindsAlgorithm, SyntaxAt, TooDeepAt};

use crate::statement::list;
use fb_faults::TextFault;
use fb_lex::Token;
use fb_read::{Stop, end_of};
use fb_tree::Stmt;
use std::alloc::Global;

/// How deep IF, CASE and FOR may nest.
const DEEPEST: u32 = 32;

/// The statements that stand first, and what is left behind them: what an ALGORITHM holds (IEC 61131-3 edition 3, 7.3.3).
///
/// They go on as long as a statement or a lone `;` begins. A stop is `Memory` where memory ran out, `Syntax` before the first
/// token that cannot stand there, and `TooDeep` before the IF, CASE or FOR, or in the expression, that opens one nesting too many.
pub fn body(alloc: Global, tokens: &[Token]) -> Result<(Vec<Stmt>, &[Token]), Stop>
    ensures { Gives (λ x. (body_of x.0.items, tokens_of x.1.now)) result (algorithm_at most_nested most_nested_statements (tokens_of tokens.now)) }
{
    list(alloc, tokens, DEEPEST)
}

// All of the tokens.
#[tactic(auto, unfolding(crate::specs::Reading::whole_at))]
fn whole(alloc: Global, tokens: &[Token]) -> Result<Vec<Stmt>, Stop>
    ensures { Gives (λ v. body_of v.items) result (whole_at (tokens_of tokens.now)) }
{
    let (statements, rest) = body(alloc, tokens)?;
    if !rest.is_empty() {
        return Err(Stop::Syntax(rest.len()));
    }
    Ok(statements)
}

/// The statements that the tokens are, all of them (IEC 61131-3 edition 3, 7.3.3).
///
/// Refused with `OutOfMemory` where memory ran out; with `Syntax` at the first token that cannot stand there, or where the last
/// token ends (0 without one) if more is wanted there; with `TooDeep` at the token that opens one nesting too many.
pub fn parse_algorithm(alloc: Global, tokens: &[Token]) -> Result<Vec<Stmt>, TextFault>
    ensures reads { Reads (tokens_of tokens.now) result }
    ensures found { IfOk result (λ v. IsAlgorithm most_nested most_nested_statements (tokens_of tokens.now) (body_of v.items) []) }
    ensures only { (x : Statements) → IsAlgorithm most_nested most_nested_statements (tokens_of tokens.now) x [] → FindsAlgorithm result x }
    ensures syntax { IfSyntax result ((n k : ℕ) (x : Statements) → IsAlgorithm n k (tokens_of tokens.now) x [] → ⊥) }
    ensures offset { SyntaxAt (tokens_of tokens.now) result }
    ensures deep { TooDeepAt (tokens_of tokens.now) result }
{
    match whole(alloc, tokens) {
        Ok(statements) => Ok(statements),
        Err(stop) => Err(stop.fault(tokens, end_of(tokens))),
    }
}

/// No tokens are two algorithms, however deep each nests.
pub fn one_algorithm()
    ensures { (n k n' k' : ℕ) (ts : List book.Token) (x y : Statements) → IsAlgorithm n k ts x [] → IsAlgorithm n' k' ts y [] → x ≡ y }
{}
