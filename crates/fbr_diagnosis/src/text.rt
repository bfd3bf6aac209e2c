//! Texts of applications that are refused: where, what was found, and what could stand there.

use crate::diagnosis::{Advised, Asked, Finding};
use crate::reading::Reading;
use fb_faults::{Refusal, TextFault, TypeFault};
use fb_lex::Token;
use fb_tree::FileTree;
use fbr_advice::advice::Advice;
use fbr_advice::tokens::{index_at, name_of};
use fbr_advice::wanted::Cursor;
use fbr_advice_syntax::character::tell_character;
use fbr_advice_syntax::syntax::tell_syntax;
use fbr_advice_types::assigned::tell_assigned;
use fbr_advice_types::circle::tell_circle;
use fbr_advice_types::ends::{tell_ends, tell_second};
use fbr_advice_types::literals::tell_literal;
use fbr_advice_types::numbers::tell_service;
use fbr_advice_types::twice::tell_twice;
use fbr_advice_types::typing::tell_types;
use fbr_advice_types::unknown::tell_unknown;
use fbr_places::{FACES, Located, Types, tree_of};
use std::alloc::AllocError;

// Writes what there is to say of a text that is not well typed.
fn tell_typing(
    asked: Asked<'_>,
    fault: &TypeFault,
    types: Types<'_>,
    place: Cursor<'_>,
    at: usize,
    advice: &mut Advice,
) -> Result<(), AllocError> {
    let (app, text) = (asked.app, asked.app.text);
    match fault {
        TypeFault::UnknownName(_) => return tell_unknown(asked.alloc, types, place, at, advice),
        TypeFault::RecursiveComposite(_) => {
            return tell_circle(asked.alloc, types.file, app, at, advice);
        }
        TypeFault::DuplicateName(_) => {
            let name = name_of(place.before(0)).unwrap_or("");
            tell_twice(types, app, name, at, advice);
        }
        TypeFault::TypeMismatch(_) => tell_types(types, text, place, at, advice),
        TypeFault::BadLiteral(_) => tell_literal(types, text, place, at, advice),
        TypeFault::NotWritable(_) => tell_assigned(types.file, app, place, at, advice),
        TypeFault::BadConnection(_) => tell_ends(types, at, advice),
        TypeFault::TwoSources(_) => tell_second(types, app, at, advice),
        TypeFault::BadService(_) | TypeFault::ChannelShape(_) => {
            tell_service(types.file, app, at, advice);
        }
        _ => {}
    }
    Ok(())
}

// The same beside the types that are there beforehand.
fn tell_file(
    asked: Asked<'_>,
    fault: &TypeFault,
    tokens: &[Token],
    file: &FileTree,
    at: usize,
    advice: &mut Advice,
) -> Result<(), AllocError> {
    match tree_of(asked.alloc, FACES)? {
        Some(library) => {
            let types = Types {
                file,
                library: &library,
            };
            let place = Cursor {
                tokens,
                index: index_at(tokens, at),
            };
            let told = tell_typing(asked, fault, types, place, at, advice);
            library.let_go();
            told
        }
        None => Ok(()),
    }
}

// Writes what there is to say of a text, and tells at which byte it stands.
fn tell_text(
    asked: Asked<'_>,
    refusal: &Refusal,
    reading: &Reading,
    byte: usize,
    advice: &mut Advice,
) -> Result<Option<usize>, AllocError> {
    match (refusal, reading) {
        (Refusal::Text(TextFault::Syntax(_)), _) => {
            tell_syntax(asked.alloc, asked.app, byte, advice)
        }
        (Refusal::Text(TextFault::BadCharacter(_)), _) => {
            tell_character(asked.app.text, byte, advice);
            Ok(Some(byte))
        }
        (Refusal::Typing(fault), Reading::Tokens(tokens, Some(file))) => {
            tell_file(asked, fault, tokens, file, byte, advice)?;
            Ok(Some(byte))
        }
        _ => Ok(Some(byte)),
    }
}

// What was said, if something was.
fn ending<'a>(advice: Advice) -> Result<Finding<'a>, AllocError> {
    let Advice {
        said,
        remedy,
        is_plain,
    } = advice;
    let said = said.text()?;
    let remedy = remedy.text()?;
    Ok(if said.is_empty() {
        Finding::Nothing
    } else {
        Finding::Advice(Advised {
            said,
            remedy,
            is_plain,
        })
    })
}

/// Where the text of an application is refused, what was found there, and what could stand there.
pub fn text_finding<'a>(
    asked: Asked<'a>,
    refusal: &Refusal,
    reading: &Reading,
    byte: usize,
) -> Result<(Option<Located<'a>>, Finding<'a>), AllocError> {
    let mut advice = Advice::new(asked.alloc);
    let place = match tell_text(asked, refusal, reading, byte, &mut advice)? {
        Some(at) => asked.app.at_byte(at),
        None => None,
    };
    Ok((place, ending(advice)?))
}

/// Whether the text of a certificate is that of an application, by how it begins.
pub fn is_application(text: &str) -> bool {
    let begins = text.trim_start();
    begins.starts_with("FUNCTION_BLOCK") || begins.starts_with("SYSTEM")
}
