//! What is read again of texts that were refused, each part once.

use fb_cert::{Certificate, parse_cert};
use fb_faults::{CertFault, Refusal};
use fb_lex::Token;
use fb_tree::FileTree;
use fbr_leaves::{System, system_again};
use fbr_places::{tokens_of, tree_in};
use std::alloc::{AllocError, Global};

/// What a diagnosis is made of.
pub enum Reading {
    /// The texts alone.
    Texts,
    /// The tokens of an application's text, and its tree where it has one.
    Tokens(Vec<Token>, Option<FileTree>),
    /// The system of an application, and a certificate where there is one.
    System(System, Option<Certificate>),
}

impl Reading {
    /// The system.
    pub fn system(&self) -> Option<&System> {
        match self {
            Reading::System(system, _) => Some(system),
            _ => None,
        }
    }

    /// The certificate.
    pub fn certificate(&self) -> Option<&Certificate> {
        match self {
            Reading::System(_, Some(certificate)) => Some(certificate),
            _ => None,
        }
    }

    /// Lets it go.
    pub fn let_go(self) {
        match self {
            Reading::Texts => {}
            Reading::Tokens(_, file) => {
                if let Some(file) = file {
                    file.let_go();
                }
            }
            Reading::System(system, certificate) => {
                system.let_go();
                if let Some(certificate) = certificate {
                    certificate.let_go();
                }
            }
        }
    }

    /// What is read for a refusal of two texts.
    pub fn of(
        alloc: Global,
        refusal: &Refusal,
        app: &str,
        cert: &str,
    ) -> Result<Reading, AllocError> {
        match refusal {
            Refusal::Typing(_) => tokens_again(alloc, app),
            Refusal::Text(_) | Refusal::Certificate(_) | Refusal::OutOfMemory => Ok(Reading::Texts),
            _ => both_again(alloc, app, cert),
        }
    }
}

// The tokens of a text, and its tree.
fn tokens_again(alloc: Global, app: &str) -> Result<Reading, AllocError> {
    match tokens_of(alloc, app)? {
        Some(tokens) => {
            let file = tree_in(alloc, &tokens, app.len())?;
            Ok(Reading::Tokens(tokens, file))
        }
        None => Ok(Reading::Texts),
    }
}

// The certificate of a text.
fn certificate_again(alloc: Global, cert: &str) -> Result<Option<Certificate>, AllocError> {
    match parse_cert(alloc, cert) {
        Ok(certificate) => Ok(Some(certificate)),
        Err(CertFault::OutOfMemory) => Err(AllocError),
        Err(_) => Ok(None),
    }
}

// A system and its certificate.
fn both_again(alloc: Global, app: &str, cert: &str) -> Result<Reading, AllocError> {
    match system_again(alloc, app)? {
        Some(system) => match certificate_again(alloc, cert) {
            Ok(certificate) => Ok(Reading::System(system, certificate)),
            Err(_) => {
                system.let_go();
                Err(AllocError)
            }
        },
        None => Ok(Reading::Texts),
    }
}
