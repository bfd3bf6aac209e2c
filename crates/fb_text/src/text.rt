//! Whole texts.

ghost use Rattle.std.specs.Prelude.{◌≡◌, ◌≤◌, ◌<◌, ℕ, List, length, map, IfOk, Err};
ghost use Rattle.fb_lex.specs.Views.{tokens_of};
ghost use Rattle.fb_faults.specs.declared.text.TextFault.TheVariants.{TooLong};
ghost use Rattle.fb_read.specs.Answers.{Gives};
ghost use Rattle.fb_read.specs.Whole.{IfSyntax};
ghost use Rattle.st_parse.specs.ExpressionReading.{expression_at};
ghost use Rattle.st_parse.specs.Reading.{algorithm_at};
ghost use Rattle.fb_tree.specs.Files.{source_of};
ghost use Rattle.fb_text.specs.Reading.{file_at, whole_at};
ghost use Rattle.fb_text.specs.Answers.{Reads, ReadsText, IsNoSource, FindsTree, SyntaxAt, TooDeepAt, SyntaxIn, TooDeepIn};
ghost use Rattle.fb_model.specs.Sources.{IsNested, IsTree, IsNestedSource, IsSource};
ghost use Rattle.fb_model.specs.Tokens as book;
ghost use Rattle.fb_model.specs.Spelling.{text_limit};
ghost use Rattle.fb_model.specs.StructuredTextGrammar.{most_nested, most_nested_statements};
ghost use Rattle.fb_model.specs.Declarations.{SourceTree};

use crate::many;
use crate::source::Source;
use crate::system::system;
use fb_faults::TextFault;
use fb_lex::{Token, lex};
use fb_read::Stop;
use fb_tree::{BlockTree, FileTree};
use fb_words::Mark;
use std::alloc::Global;

// Block types and the system, and what is left behind them.
#[tactic(auto, unfolding(crate::specs::Reading::file_at))]
fn file(alloc: Global, tokens: &[Token]) -> Result<(FileTree, &[Token]), Stop>
    ensures { Gives (λ x. (source_of x.0, tokens_of x.1.now)) result (file_at (expression_at most_nested) (algorithm_at most_nested most_nested_statements) (tokens_of tokens.now)) }
{
    let (blocks, rest) = many::<BlockTree>(alloc, tokens, Mark::System)?;
    let (system, rest) = system(alloc, rest)?;
    Ok((FileTree { blocks, system }, rest))
}

// All of the tokens.
#[tactic(auto, unfolding(crate::specs::Reading::whole_at))]
fn whole(alloc: Global, tokens: &[Token]) -> Result<FileTree, Stop>
    ensures { Gives source_of result (whole_at (tokens_of tokens.now)) }
{
    let (tree, rest) = file(alloc, tokens)?;
    if !rest.is_empty() {
        return Err(Stop::Syntax(rest.len()));
    }
    Ok(tree)
}

/// The source tree of tokens, which are those of a text of so many bytes.
///
/// `Syntax` names the first token that cannot stand there, or the text's length where the tokens end too soon; `TooDeep` the
/// token that opens one nesting too many, where 64 brackets, calls and signs may nest in an expression, and 32 statements in an
/// algorithm; `OutOfMemory` comes where memory ran out.
pub fn parse_tokens(alloc: Global, tokens: &[Token], length: usize) -> Result<FileTree, TextFault>
    ensures reads { Reads length (tokens_of tokens.now) result }
    ensures found { IfOk result (λ tree. IsTree (tokens_of tokens.now) (source_of tree)) }
    ensures only { (x : SourceTree) → IsTree (tokens_of tokens.now) x → FindsTree result x }
    ensures syntax { IfSyntax result ((n k : ℕ) (x : SourceTree) → IsNested n k (tokens_of tokens.now) x → ⊥) }
    ensures offset { SyntaxAt length (tokens_of tokens.now) result }
    ensures deep { TooDeepAt (tokens_of tokens.now) result }
{
    match whole(alloc, tokens) {
        Ok(source) => Ok(source),
        Err(stop) => Err(stop.fault(tokens, length)),
    }
}

/// The source tree of a text.
///
/// The lexer's refusals come first: `TooLong`, `BadCharacter`, `BigNumber`. Then those of `parse_tokens`: `Syntax` at the first
/// token that cannot stand where it does, or at the text's length where the tokens end too soon, and `TooDeep` at the token that
/// opens one nesting too many.
pub fn parse(alloc: Global, text: &str) -> Result<Source, TextFault>
    ensures reads { ReadsText text.now result }
    ensures found { IfOk result (λ source. IsSource text.now (source_of source)) }
    ensures within { IfOk result (λ source. length text.now ≤ text_limit) }
    ensures long { text_limit < length text.now → result ≡ Err TooLong }
    ensures only { (x : SourceTree) → IsSource text.now x → length text.now ≤ text_limit → FindsTree result x }
    ensures syntax { IfSyntax result (IsNoSource text.now) }
    ensures offset { SyntaxIn text.now result }
    ensures deep { TooDeepIn text.now result }
{
    let tokens = lex(alloc, text)?;
    let tree = parse_tokens(alloc, &tokens, text.len())?;
    Ok(Source { tree })
}

/// No tokens are two trees, however deep each nests.
pub fn one_tree()
    ensures { (n k n' k' : ℕ) (ts : List book.Token) (x y : SourceTree) → IsNested n k ts x → IsNested n' k' ts y → x ≡ y }
{}

/// No text is two trees, however deep each nests.
pub fn one_source()
    ensures { (n k n' k' : ℕ) (text : List ℕ) (x y : SourceTree) → IsNestedSource n k text x → IsNestedSource n' k' text y → x ≡ y }
{}
