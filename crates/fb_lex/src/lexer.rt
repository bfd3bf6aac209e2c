//! Whole texts.

ghost use Rattle.std.specs.Prelude.{◌≡◌, ℕ, ◌≤◌, ◌<◌, List, length, false, IfOk, IfErr, Err};
ghost use Rattle.fb_model.specs.Tokens as book;
ghost use Rattle.fb_model.specs.Spelling.{Spells, FirstAt, IsBad, IsBig, text_limit};
ghost use Rattle.fb_faults.specs.declared.text.TextFault.TheVariants.{TooLong};
ghost use Rattle.fb_lex.specs.Scanning.{begins_layout};
ghost use Rattle.fb_lex.specs.Lexing.{Steps, Finds, Refuses};
ghost use Rattle.fb_lex.specs.Views.{tokens_of};

use crate::gap::{behind_layout, comment_at};
use crate::scan::scan;
use crate::token::Token;
use fb_faults::TextFault;
use std::alloc::Global;

/// The most bytes of a text.
const LONGEST_TEXT: usize = 1_048_576;

/// Steps over a comment or a token, which is added to the tokens. What is left.
fn step<'a>(
    alloc: Global,
    total: usize,
    rest: &'a [u8],
    tokens: &mut Vec<Token>,
) -> Result<&'a [u8], TextFault>
    requires within { length rest.now ≤ total }
    requires bare { begins_layout rest.now ≡ false }
    ensures { Steps total rest.now (tokens_of tokens.old.items) (tokens_of tokens.new.items) result }
{
    let start = total - rest.len();
    if let Some(behind) = comment_at(start, rest)? {
        return Ok(behind);
    }
    let (kind, behind) = scan(alloc, start, rest)?;
    let end = total - behind.len();
    tokens.push(Token { kind, start, end })?;
    Ok(behind)
}

/// The tokens of a text, each the longest that fits, with the places of its bytes: IEC 61131-3 edition 3, 6.1 and 6.3, in this project's profile.
///
/// Refused are a text of more than 1,048,576 bytes, and else the first place where no token and no layout stands, or a number beyond its limit.
pub fn lex(alloc: Global, text: &str) -> Result<Vec<Token>, TextFault>
    ensures found { IfOk result (λ v. Spells 0 text.now (tokens_of v.items)) }
    ensures within { IfOk result (λ v. length text.now ≤ text_limit) }
    ensures only { (ts : List book.Token) → Spells 0 text.now ts → length text.now ≤ text_limit → Finds result ts }
    ensures refused { IfErr result (λ f. Refuses f text.now) }
    ensures long { text_limit < length text.now → result ≡ Err TooLong }
{
    let bytes = text.as_bytes();
    if bytes.len() > LONGEST_TEXT {
        return Err(TextFault::TooLong);
    }
    let mut tokens = Vec::new(alloc);
    let mut rest = behind_layout(bytes);
    while !rest.is_empty() {
        rest = behind_layout(step(alloc, bytes.len(), rest, &mut tokens)?);
    }
    Ok(tokens)
}

/// The characters of a text spell one list of tokens at most.
pub fn one_spelling()
    ensures { (text : List ℕ) (ts us : List book.Token) → Spells 0 text ts → Spells 0 text us → ts ≡ us }
{}

/// A text has one first fault at most, at one place, and one that has a fault spells no tokens.
pub fn one_fault()
    ensures character { (text : List ℕ) (at other : ℕ) → FirstAt IsBad text at → FirstAt IsBad text other → at ≡ other }
    ensures number { (text : List ℕ) (at other : ℕ) → FirstAt IsBig text at → FirstAt IsBig text other → at ≡ other }
    ensures either { (text : List ℕ) (at other : ℕ) → FirstAt IsBad text at → FirstAt IsBig text other → ⊥ }
    ensures no_character { (text : List ℕ) (at : ℕ) (ts : List book.Token) → FirstAt IsBad text at → Spells 0 text ts → ⊥ }
    ensures no_number { (text : List ℕ) (at : ℕ) (ts : List book.Token) → FirstAt IsBig text at → Spells 0 text ts → ⊥ }
{}
