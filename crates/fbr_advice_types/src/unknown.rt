//! Names that stand for nothing: what was looked for, and the nearest name that there is.

use crate::absent::{tell_absent_port, tell_values};
use fb_tree::{BlockTree, FileTree, InstanceTree};
use fb_words::Mark;
use fbr_advice::advice::Advice;
use fbr_advice::candidates::{add_name, add_of_block, add_values};
use fbr_advice::foreign::foreign_word;
use fbr_advice::kinds::{Known, known_in};
use fbr_advice::tokens::{mark_of, name_of};
use fbr_advice::wanted::{Cursor, Wanted};
use fbr_places::{
    Types, block_around, distance, instance_around, instance_named, nearness, network_around,
    resource_around,
};
use std::alloc::{AllocError, Global};

// Functions of Structured Text.
const FUNCTIONS: [&str; 5] = ["MIN", "MAX", "LIMIT", "ABS", "conversions as INT_TO_DINT"];

// So many names are told where none is near.
const MOST_NAMES: usize = 8;

/// Whose names are looked through.
#[derive(Clone, Copy)]
struct Owner<'a> {
    name: &'a str,
    block: Option<&'a BlockTree>,
    instance: Option<&'a InstanceTree>,
}

// The instance whose port or parameter a name is.
fn instance_of<'a>(file: &'a FileTree, place: Cursor<'a>, at: usize) -> Option<&'a InstanceTree> {
    let network = network_around(file, at)?;
    match place.section() {
        (Some(Mark::Fbs), _) => instance_around(network, at),
        _ => match mark_of(place.before(1)) {
            Some(Mark::Dot) => instance_named(network, name_of(place.before(2))?),
            _ => None,
        },
    }
}

// Whose names are looked through.
fn owner_of<'a>(types: Types<'a>, place: Cursor<'a>, wanted: Wanted, at: usize) -> Owner<'a> {
    let around = block_around(types.file, at);
    let name = match (around, resource_around(types.file, at)) {
        (Some(block), _) => block.name.text.as_str(),
        (None, Some(resource)) => resource.name.text.as_str(),
        _ => "the text",
    };
    let found = match wanted {
        Wanted::Instance => None,
        _ => instance_of(types.file, place, at),
    };
    match (wanted, found) {
        (Wanted::Type, _) => Owner {
            name: "the text",
            block: None,
            instance: None,
        },
        (_, Some(instance)) => Owner {
            name: instance.name.text.as_str(),
            block: types.block(instance.of_type.text.as_str()),
            instance: Some(instance),
        },
        (_, None) => Owner {
            name,
            block: around,
            instance: None,
        },
    }
}

// The names that there are.
fn names_of(
    alloc: Global,
    types: Types<'_>,
    owner: Owner<'_>,
    wanted: Wanted,
    at: usize,
) -> Result<Vec<String>, AllocError> {
    let mut names = Vec::new(alloc);
    match wanted {
        Wanted::Type => {
            for file in [types.file, types.library] {
                for block in &file.blocks {
                    add_name(&block.name, &mut names)?;
                }
            }
        }
        Wanted::Instance => {
            if let Some(network) = network_around(types.file, at) {
                for instance in &network.instances {
                    add_name(&instance.name, &mut names)?;
                }
            }
        }
        Wanted::Function => {
            for function in FUNCTIONS {
                names.push(String::from_str(alloc, function)?)?;
            }
        }
        _ => {
            if let Some(block) = owner.block {
                add_of_block(block, wanted, &mut names)?;
            }
        }
    }
    if let Some(instance) = owner.instance {
        add_values(alloc, instance, wanted, &mut names)?;
    }
    Ok(names)
}

// The name that is nearest to another one, where one is near.
fn nearest<'n>(
    alloc: Global,
    names: &'n [String],
    wanted: &str,
) -> Result<Option<&'n str>, AllocError> {
    let mut found = None;
    let mut limit = nearness(wanted);
    for name in names {
        if let Some(distance) = distance(alloc, name.as_str(), wanted, limit)? {
            limit = distance;
            found = Some(name.as_str());
        }
    }
    Ok(found)
}

// Writes the nearest name, or else some that there are.
fn tell_names(
    alloc: Global,
    names: &[String],
    wanted: &str,
    advice: &mut Advice,
) -> Result<(), AllocError> {
    if let Some(near) = nearest(alloc, names, wanted)? {
        advice.said.put("; did you mean ");
        advice.said.put(near);
        advice.said.put("?");
        advice.end("write ", near);
        advice.is_plain = true;
        return Ok(());
    }
    let mut told: usize = 0;
    for name in names {
        if told < MOST_NAMES {
            advice
                .said
                .put(if told == 0 { "; there are " } else { ", " });
            advice.said.put(name.as_str());
        }
        told = told.saturating_add(1);
    }
    if told > MOST_NAMES {
        advice.said.put(" and more");
    }
    advice.said.put("\n");
    Ok(())
}

// What there is to say of a conversion that there is not.
fn said_of_conversion(name: &str) -> Option<&'static str> {
    let (from, to) = name.split_once("_TO_")?;
    if to == "BOOL" {
        return Some("there is no conversion to BOOL: compare, as `X <> 0`");
    }
    foreign_word(from).or(foreign_word(to))
}

// Writes what to do with a name that stands for something else in its block type.
fn tell_remedy(known: Known, wanted: Wanted, name: &str, advice: &mut Advice) {
    let (before, behind) = match (wanted, known) {
        (Wanted::Algorithm, Known::EventOutput) => ("write `-> ", "`"),
        (Wanted::EventOutput, Known::Algorithm) => ("write `", "` before the `->`"),
        (Wanted::Function, Known::Array) => (
            "write ",
            "[..]: an index is written in square brackets",
        ),
        (Wanted::Function, Known::Input | Known::Output | Known::Internal) => {
            ("write ", " without parentheses")
        }
        (Wanted::EventInput, Known::Input | Known::Output | Known::Internal) => {
            ("write a guard, as `[", "]`, or `EVENT [..]`")
        }
        (Wanted::Variable, Known::EventInput | Known::EventOutput) => (
            "ask variables alone: ",
            " is an event, for which a transition waits or which a state emits",
        ),
        _ => return,
    };
    advice.remedy.put(before);
    advice.remedy.put(name);
    advice.remedy.put(behind);
}

// Writes what a name stands for in its block type, where that is something else than it has to; and whether it is so.
fn tell_other(owner: Owner<'_>, wanted: Wanted, name: &str, advice: &mut Advice) -> bool {
    let Some(block) = owner.block else {
        return false;
    };
    match (wanted, owner.instance) {
        (Wanted::Type | Wanted::Instance, _) | (_, Some(_)) => return false,
        _ => {}
    }
    let Some(known) = known_in(block, name) else {
        return false;
    };
    advice.said.put(name);
    advice.said.put(" is ");
    advice.said.put(known.says());
    advice.said.put(" of ");
    advice.said.put(owner.name);
    advice.said.put(wanted.denied());
    advice.said.put(wanted.says());
    advice.said.put("\n");
    tell_remedy(known, wanted, name, advice);
    true
}

// Writes that there is nothing of a name of this kind, and the nearest name that there is.
fn tell_nothing(
    alloc: Global,
    names: &[String],
    owner: Owner<'_>,
    wanted: Wanted,
    name: &str,
    advice: &mut Advice,
) -> Result<(), AllocError> {
    match wanted {
        Wanted::Function => advice.said.put("there is no "),
        _ => {
            advice.said.put(owner.name);
            advice.said.put(" has no ");
        }
    }
    advice.said.put(wanted.says());
    advice.said.put(" ");
    advice.said.put(name);
    tell_names(alloc, names, name, advice)
}

/// Writes what the name at a place and a byte does not stand for, and the nearest that there is.
pub fn tell_unknown(
    alloc: Global,
    types: Types<'_>,
    place: Cursor<'_>,
    at: usize,
    advice: &mut Advice,
) -> Result<(), AllocError> {
    let (Some(name), Some(wanted)) = (name_of(place.before(0)), place.wanted()) else {
        return Ok(());
    };
    let says = match wanted {
        Wanted::Function => said_of_conversion(name).or(foreign_word(name)),
        _ => foreign_word(name),
    };
    if let Some(says) = says {
        advice.put(says);
        return Ok(());
    }
    let owner = owner_of(types, place, wanted, at);
    let is_told = match owner.instance {
        Some(instance) => tell_values(types, instance, wanted, name, at, advice),
        None => tell_absent_port(alloc, types, place, wanted, at, advice)?,
    };
    if is_told || tell_other(owner, wanted, name, advice) {
        return Ok(());
    }
    let names = names_of(alloc, types, owner, wanted, at)?;
    tell_nothing(alloc, &names, owner, wanted, name, advice)?;
    let is_listed = matches!(mark_of(place.before(1)), Some(Mark::Comma));
    if let ((Some(Mark::EventInput | Mark::EventOutput), _), false) = (
        place.section(),
        advice.is_plain || !is_listed,
    ) {
        advice.remedy.put(
            "declare that variable; if it is an event, write `;` before it instead of `,`",
        );
    }
    Ok(())
}
