//! All faults of an application's text.

use crate::given::NamedFile;
use fb_faults::{Refusal, TextFault};
use fb_lex::Token;
use fbr_diagnosis::{Asked, Diagnosis, Reading, byte_in, diagnose};
use fbr_files::Fault;
use fbr_places::Named;
use fbr_recovery::{Mistake, Recovered, part_around, recover};
use std::alloc::{AllocError, Global};

/// What is said where there are more faults.
pub const MORE: &str = "there are more faults than these 100\n";

/// Who is told of all faults of a text, one after another.
pub trait Listener {
    /// Takes a fault, and its diagnosis.
    fn fault(
        &mut self,
        asked: Asked<'_>,
        fault: &Fault<'_>,
        diagnosis: &Diagnosis<'_>,
    ) -> Result<(), AllocError>;

    /// Takes that there are more than were told.
    fn more(&mut self);
}

// A text that is told of: as it is, and without faults of characters.
#[derive(Clone, Copy)]
struct Told<'a> {
    alloc: Global,
    app: Named<'a>,
    mended: &'a str,
    first: (u8, usize),
}

impl Told<'_> {
    // Whether a fault is the one that a command tells.
    fn is_first(self, fault: &Fault<'_>) -> bool {
        match place_of(fault) {
            Some((code, at)) => code == self.first.0 && at == self.first.1,
            None => false,
        }
    }
}

// The number and the place of a fault of an application's text.
fn place_of(fault: &Fault<'_>) -> Option<(u8, usize)> {
    match fault {
        Fault::Refused(refusal) => Some((refusal.code(), byte_in(refusal)?)),
        _ => None,
    }
}

// A fault as it is told.
fn fault_of<'a>(mistake: Mistake) -> Fault<'a> {
    match mistake {
        Mistake::Text(fault) => Fault::Refused(Refusal::from(fault)),
        Mistake::Typing(fault) => Fault::Refused(Refusal::from(fault)),
    }
}

// Tells of a fault, by the text in which it is looked at.
fn tell_in<L: Listener>(
    told: Told<'_>,
    text: &str,
    fault: &Fault<'_>,
    refusal: &Refusal,
    reading: &Reading,
    listener: &mut L,
) -> Result<(), AllocError> {
    let asked = Asked {
        alloc: told.alloc,
        app: Named {
            name: told.app.name,
            text,
            meant: told.app.meant,
        },
        cert: told.app,
        is_searched: false,
    };
    let mut diagnosis = diagnose(asked, refusal, reading)?;
    // Of a text of several files the place is in its own file already.
    if told.app.meant.is_none() {
        diagnosis.place = match &diagnosis.place {
            Some(place) => told.app.at_byte(place.spot.byte),
            None => None,
        };
    }
    listener.fault(asked, fault, &diagnosis)
}

// The tokens of what was read.
fn tokens_in(reading: &Reading) -> &[Token] {
    match reading {
        Reading::Tokens(tokens, _) => tokens,
        _ => &[],
    }
}

// Tells of a fault. What can stand at a place depends on the declaration around it alone.
fn tell_one<L: Listener>(
    told: Told<'_>,
    fault: &Fault<'_>,
    reading: &Reading,
    listener: &mut L,
) -> Result<(), AllocError> {
    let Fault::Refused(refusal) = fault else {
        return Ok(());
    };
    match refusal {
        Refusal::Text(TextFault::Syntax(at)) if !told.is_first(fault) => {
            let tokens = tokens_in(reading);
            let part = part_around(told.alloc, told.mended, tokens, *at)?;
            tell_in(told, part.as_str(), fault, refusal, reading, listener)
        }
        _ => tell_in(told, told.app.text, fault, refusal, reading, listener),
    }
}

// Tells of faults, of the first one that a command tells only if that is wanted.
fn tell_each<L: Listener>(
    told: Told<'_>,
    mistakes: Vec<Mistake>,
    wants_first: bool,
    reading: &Reading,
    listener: &mut L,
) -> Result<(), AllocError> {
    for mistake in mistakes {
        let fault = fault_of(mistake);
        if wants_first || !told.is_first(&fault) {
            tell_one(told, &fault, reading, listener)?;
        }
    }
    Ok(())
}

/// Tells of all faults of an application's text in its order, where this one that a command tells is one of them; of this one too, if that is wanted.
pub fn tell_all<L: Listener>(
    alloc: Global,
    fault: &Fault<'_>,
    app: NamedFile<'_>,
    wants_first: bool,
    listener: &mut L,
) -> Result<(), AllocError> {
    let (Some(first), Some(app)) = (place_of(fault), app.named()) else {
        return Ok(());
    };
    let Some(recovered) = recover(alloc, app.text, first)? else {
        return Ok(());
    };
    let Recovered {
        tokens,
        file,
        mended,
        mistakes,
        has_more,
    } = recovered;
    let mended = match &mended {
        Some(text) => text.as_str(),
        None => app.text,
    };
    let told = Told {
        alloc,
        app,
        mended,
        first,
    };
    let reading = Reading::Tokens(tokens, Some(file));
    let all = tell_each(told, mistakes, wants_first, &reading, listener);
    reading.let_go();
    all?;
    if has_more {
        listener.more();
    }
    Ok(())
}
