//! Diagnoses, told to people.

use crate::finding::tell_finding;
use fbr_diagnosis::{Diagnosis, Finding, Meaning};
use fbr_places::Writing;

// What a number says and what to do, a line each, in parts.
fn parts_of<'m>(says: &'m str, remedy: &'m str) -> [&'m str; 5] {
    let todo = if remedy.is_empty() {
        ""
    } else {
        "\nWhat to do: "
    };
    ["What it says: ", says, todo, remedy, "\n"]
}

/// What a refusal says and what to do, a line each, in parts.
pub fn meaning_parts(meaning: Meaning) -> [&'static str; 5] {
    parts_of(meaning.says, meaning.remedy)
}

// Writes what a refusal says, and what to do about it.
fn tell_meaning(diagnosis: &Diagnosis<'_>, writing: &mut Writing) {
    if let Some(meaning) = diagnosis.meaning {
        for part in parts_of(meaning.says, diagnosis.remedy()) {
            writing.put(part);
        }
    }
}

/// Whether narrower ranges help, in one sentence, if it is known.
pub fn narrower_said(is_narrower: Option<bool>) -> &'static str {
    match is_narrower {
        Some(true) => {
            "There is a certificate with narrower ranges: `fbr bound APP --search` finds it."
        }
        Some(false) => {
            "Narrower ranges were tried, and it is clear under none of them: put a test of the plain variable against a number right before it (LANGUAGE.md has a table of spellings)."
        }
        None => "",
    }
}

// Writes whether narrower ranges help.
fn tell_narrower(is_narrower: Option<bool>, writing: &mut Writing) {
    let said = narrower_said(is_narrower);
    if !said.is_empty() {
        writing.put(said);
        writing.put("\n");
    }
}

/// Writes where a refusal stands, what was found there and what to do; where nothing was found, what it says.
pub fn tell_short(diagnosis: &Diagnosis<'_>, writing: &mut Writing) {
    if let Some(place) = &diagnosis.place {
        place.show(writing);
    }
    tell_finding(&diagnosis.finding, diagnosis.counts, writing);
    if matches!(&diagnosis.finding, Finding::Nothing) {
        tell_meaning(diagnosis, writing);
    } else if !diagnosis.remedy().is_empty() {
        writing.put("What to do: ");
        writing.put(diagnosis.remedy());
        writing.put("\n");
    }
}

/// Writes where a refusal stands, what was found there, what it says and what to do.
pub fn tell_diagnosis(diagnosis: &Diagnosis<'_>, writing: &mut Writing) {
    if let Some(place) = &diagnosis.place {
        place.show(writing);
    }
    tell_finding(&diagnosis.finding, diagnosis.counts, writing);
    tell_meaning(diagnosis, writing);
    tell_narrower(diagnosis.is_narrower, writing);
}
