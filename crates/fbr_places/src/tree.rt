//! Tokens and source trees of texts. Want of memory is no refusal of a text: it is told apart.

use fb_faults::TextFault;
use fb_lex::{Token, lex};
use fb_text::parse_tokens;
use fb_tree::FileTree;
use std::alloc::{AllocError, Global};

/// The tokens of a text; nothing where it has none.
pub fn tokens_of(alloc: Global, text: &str) -> Result<Option<Vec<Token>>, AllocError> {
    match lex(alloc, text) {
        Ok(tokens) => Ok(Some(tokens)),
        Err(TextFault::OutOfMemory) => Err(AllocError),
        Err(_) => Ok(None),
    }
}

/// The source tree of the tokens of a text of so many bytes; nothing where it has none.
pub fn tree_in(
    alloc: Global,
    tokens: &[Token],
    length: usize,
) -> Result<Option<FileTree>, AllocError> {
    match parse_tokens(alloc, tokens, length) {
        Ok(tree) => Ok(Some(tree)),
        Err(TextFault::OutOfMemory) => Err(AllocError),
        Err(_) => Ok(None),
    }
}

/// The source tree of a text; nothing where it has none.
pub fn tree_of(alloc: Global, text: &str) -> Result<Option<FileTree>, AllocError> {
    match tokens_of(alloc, text)? {
        Some(tokens) => tree_in(alloc, &tokens, text.len()),
        None => Ok(None),
    }
}
