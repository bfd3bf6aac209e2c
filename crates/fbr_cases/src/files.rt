//! Folders of files of cases.

use crate::programs::commands;
use crate::tally::Tally;
use fbr_cases_device::{datagrams, devices, links, turns, worlds};
use fbr_cases_language::{Case, answer};
use std::alloc::AllocError;
use std::{fs, io};

// The names of the files of cases of a folder, in order.
fn names(rt: &HostRuntime, folder: &str) -> io::Result<Vec<String>> {
    let mut names = Vec::new(rt.alloc());
    for entry in fs::read_dir(rt, folder)? {
        let entry = entry?;
        let name = entry.file_name();
        if name.ends_with(".case") {
            names
                .push(String::from_str(rt.alloc(), name)?)
                .map_err(AllocError::from)?;
        }
    }
    names.sort()?;
    Ok(names)
}

// The kind of the cases of a folder: the last part of its path.
fn kind_of(folder: &str) -> &str {
    let path = folder.strip_suffix("/").unwrap_or(folder);
    match path.rsplit_once('/') {
        Some((_, last)) => last,
        None => path,
    }
}

// Whether a case answers as stored, and otherwise what it answered.
fn run_case(
    rt: &HostRuntime,
    kind: &str,
    file: &str,
    case: &Case<'_>,
    stored: &str,
) -> io::Result<bool> {
    let answered = match kind {
        "commands" => commands(rt, case)?,
        "datagrams" => datagrams(rt.alloc(), case)?,
        "devices" => devices(rt.alloc(), case)?,
        "links" => links(rt, rt.alloc(), case)?,
        "turns" => turns(rt.alloc(), case)?,
        "worlds" => worlds(rt.alloc(), case)?,
        _ => answer(rt.alloc(), kind, case)?,
    };
    let same = answered.as_str() == stored;
    if !same {
        println!(rt; "{kind}/{file} {}: answered\n{answered}", case.label)?;
    }
    Ok(same)
}

// Tells why a file is not in order.
fn malformed(rt: &HostRuntime, kind: &str, file: &str, label: &str, why: &str) -> io::Result<bool> {
    println!(rt; "{kind}/{file} {label}: {why}")?;
    Ok(false)
}

// Runs the cases of a text: its parts each begin with a line of their name, and have their text below it.
fn run_text(rt: &HostRuntime, kind: &str, file: &str, text: &str) -> io::Result<Tally> {
    let mut tally = Tally::new();
    let mut case = Case {
        label: "",
        sections: Vec::new(rt.alloc()),
    };
    let mut is_open = false;
    let whole = text.strip_suffix("\n").unwrap_or(text);
    for part in whole.split("\n==== ").skip(1) {
        let (name, content) = part.split_once('\n').unwrap_or((part, ""));
        if let Some(label) = name.strip_prefix("case ") {
            if is_open {
                tally.count(malformed(rt, kind, file, case.label, "has no answer")?);
            }
            case.label = label;
            is_open = true;
        } else if !is_open {
            tally.count(malformed(rt, kind, file, name, "stands in no case")?);
        } else if name == "answer" {
            tally.count(run_case(rt, kind, file, &case, content)?);
            is_open = false;
        } else {
            case.give(name, content)?;
        }
    }
    if is_open || tally.passed == 0 && tally.failed == 0 {
        tally.count(malformed(rt, kind, file, case.label, "has no answer")?);
    }
    Ok(tally)
}

/// Runs the cases of a folder, and tells which do not answer as stored.
pub fn run_folder(rt: &HostRuntime, folder: &str) -> io::Result<Tally> {
    let kind = kind_of(folder);
    let mut tally = Tally::new();
    let names = match names(rt, folder) {
        Ok(names) => names,
        Err(_) => Vec::new(rt.alloc()),
    };
    if names.is_empty() {
        tally.count(malformed(rt, kind, "*.case", "", "there are none")?);
    }
    for name in &names {
        let path = format!(in rt.alloc(); "{folder}/{name}")?;
        match fs::read_to_string(rt, path.as_str()) {
            Ok(text) => tally.add(run_text(rt, kind, name.as_str(), text.as_str())?),
            Err(_) => tally.count(malformed(rt, kind, name.as_str(), "", "cannot be read")?),
        }
    }
    if tally.failed == 0 {
        println!(rt; "{kind}: all cases answer as stored")?;
    } else {
        println!(rt; "{kind}: {} cases do not answer as stored", tally.failed)?;
    }
    Ok(tally)
}
