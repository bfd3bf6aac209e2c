//! What is read from texts and certificates.

use crate::case::Case;
use crate::text::{ended, refused, text_of, written};
use crate::{declared, trees};
use fb_cert::{parse_cert, print_cert};
use fb_lex::lex;
use fb_text::parse;
use fbr_places::Writing;
use std::alloc::{AllocError, Global};

/// The tokens of a text.
pub fn tokens(alloc: Global, case: &Case<'_>) -> Result<String, AllocError> {
    let text = text_of(alloc, case)?;
    match lex(alloc, text.as_str()) {
        Ok(tokens) => {
            let mut out = Writing::new(alloc);
            for token in &tokens {
                trees::token(&mut out, token);
            }
            written(alloc, out)
        }
        Err(fault) => refused(alloc, &fault),
    }
}

/// The tree of a whole text.
pub fn texts(alloc: Global, case: &Case<'_>) -> Result<String, AllocError> {
    let text = text_of(alloc, case)?;
    match parse(alloc, text.as_str()) {
        Ok(source) => {
            let mut out = Writing::new(alloc);
            declared::source(&mut out, source.tree());
            source.let_go();
            written(alloc, out)
        }
        Err(fault) => refused(alloc, &fault),
    }
}

/// The rows of a certificate as they are printed.
pub fn certificates(alloc: Global, case: &Case<'_>) -> Result<String, AllocError> {
    let text = text_of(alloc, case)?;
    match parse_cert(alloc, text.as_str()) {
        Ok(certificate) => {
            let printed = print_cert(alloc, &certificate);
            certificate.let_go();
            match printed {
                Ok(text) => Ok(ended(text)),
                Err(_) => Err(AllocError),
            }
        }
        Err(fault) => refused(alloc, &fault),
    }
}
