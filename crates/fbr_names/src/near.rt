//! Names that stand for nothing, and the nearest that there is.

use crate::fault::Fault;
use fbr_places::{Writing, distance, nearness};
use std::alloc::{AllocError, Global};

// So many names are told where none is near.
const MOST_NAMES: usize = 8;

// Whether a name is the end of a longer one, behind a dot.
fn is_end(name: &str, wanted: &str) -> bool {
    match name.strip_suffix(wanted) {
        Some(front) => front.ends_with('.'),
        None => false,
    }
}

// The name that is nearest to another one, if one is near.
fn nearest<'n>(
    alloc: Global,
    names: &'n [String],
    wanted: &str,
) -> Result<Option<&'n str>, AllocError> {
    let mut found = None;
    let mut limit = nearness(wanted);
    for name in names {
        let near = if is_end(name.as_str(), wanted) {
            Some(0)
        } else {
            distance(alloc, name.as_str(), wanted, limit)?
        };
        match near {
            Some(distance) if distance < limit => {
                limit = distance;
                found = Some(name.as_str());
            }
            _ => {}
        }
    }
    Ok(found)
}

// Writes some of the names that there are.
fn tell_names(names: &[String], writing: &mut Writing) {
    let mut told: usize = 0;
    for name in names {
        if told < MOST_NAMES {
            writing.put(if told > 0 {
                ", "
            } else if names.len() == 1 {
                "; there is "
            } else {
                "; there are "
            });
            writing.put(name.as_str());
        }
        told = told.saturating_add(1);
    }
    if told > MOST_NAMES {
        writing.put(" and more");
    }
}

/// The fault of a name that stands for nothing: what is written of it, and the nearest name that there is, or else some of them.
pub(crate) fn unknown_behind(
    alloc: Global,
    at: usize,
    begun: Writing,
    names: &[String],
    wanted: &str,
) -> Fault {
    let mut writing = begun;
    match nearest(alloc, names, wanted) {
        Ok(Some(near)) => {
            writing.put("; did you mean ");
            writing.put(near);
            writing.put("?");
            Fault::written(at, writing)
        }
        Ok(None) => {
            tell_names(names, &mut writing);
            Fault::written(at, writing)
        }
        Err(_) => Fault::Memory,
    }
}

/// The fault of a name that stands for nothing, behind these words, with the nearest name that there is, or else some of them.
pub fn unknown(alloc: Global, at: usize, words: &[&str], names: &[String], wanted: &str) -> Fault {
    let mut writing = Writing::new(alloc);
    for word in words {
        writing.put(*word);
    }
    unknown_behind(alloc, at, writing, names, wanted)
}
