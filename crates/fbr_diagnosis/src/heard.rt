//! Notes on channels that nobody hears, on which nobody sends, or whose datagrams come back.

use crate::paths::Paths;
use crate::returning::note_return;
use fb_flat::{Flat, Leaf};
use fb_verified::Verified;
use fbr_leaves::{channel_of, received_from, sent_on};
use fbr_notes::noted::{NoteKind, Noting, Page};
use indexmap::{IndexMap, IndexSet};
use std::alloc::{AllocError, Global};

// Who has a channel.
#[derive(Clone, Copy)]
struct Ends {
    is_sent: bool,
    is_heard: bool,
}

// The leaves that send or receive, in text order.
fn talkers<'a>(alloc: Global, flat: &'a Flat) -> Result<Vec<&'a Leaf>, AllocError> {
    let mut found = Vec::new(alloc);
    for device in &flat.devices {
        for resource in &device.resources {
            for leaf in &resource.leaves {
                if channel_of(leaf).is_some() {
                    found.push(leaf)?;
                }
            }
        }
    }
    Ok(found)
}

// Who has each channel.
fn ends_of(alloc: Global, leaves: &[&Leaf]) -> Result<IndexMap<u16, Ends>, AllocError> {
    let mut found = IndexMap::new(alloc);
    for each in leaves {
        let leaf = *each;
        if let Some(channel) = channel_of(leaf) {
            let before = match found.get(&channel.number) {
                Some(ends) => *ends,
                None => Ends {
                    is_sent: false,
                    is_heard: false,
                },
            };
            let ends = Ends {
                is_sent: before.is_sent || sent_on(leaf).is_some(),
                is_heard: before.is_heard || received_from(leaf).is_some(),
            };
            found.insert(channel.number, ends)?;
        }
    }
    Ok(found)
}

// Writes the note on a channel, where one end is missing.
fn note_ends(number: u16, ends: Ends, at: usize, notes: &mut Noting) {
    if !ends.is_heard {
        notes.begin(NoteKind::ChannelNeverHeard, at);
        notes.said().put("no SUBSCRIBE of this text hears channel ");
        notes.said().show(&number);
        notes.put(": what it causes elsewhere is not counted", "", "", "");
    } else if !ends.is_sent {
        notes.begin(NoteKind::ChannelNeverSent, at);
        notes
            .said()
            .put("no PUBLISH of this text sends on channel ");
        notes.said().show(&number);
        notes.put("", "", "", "");
    }
}

/// Writes the notes on channels, each instance once.
pub fn note_channels(
    page: Page<'_>,
    paths: &Paths<'_>,
    verified: &Verified,
    notes: &mut Noting,
) -> Result<(), AllocError> {
    let leaves = talkers(page.alloc, verified.flat())?;
    let ends = ends_of(page.alloc, &leaves)?;
    let mut told = IndexSet::new(page.alloc);
    for each in &leaves {
        let leaf = *each;
        let (Some(channel), Some(instance)) = (
            channel_of(leaf),
            paths.instance(page.alloc, leaf.path.as_str())?,
        ) else {
            continue;
        };
        let at = instance.name.at;
        if let (false, Some(found)) = (told.contains(&at), ends.get(&channel.number)) {
            note_ends(channel.number, *found, at, notes);
            told.insert(at)?;
        }
    }
    note_return(page, paths, verified, &leaves, notes)
}
