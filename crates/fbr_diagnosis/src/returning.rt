//! The note on datagrams that come back without end, where a certificate does not follow them: the finder is asked for one that does.

use crate::paths::Paths;
use fb_faults::{NoBound, Place};
use fb_find::find;
use fb_flat::Leaf;
use fb_verified::Verified;
use fbr_leaves::{channel_of, received_from, system_in};
use fbr_notes::noted::{NoteKind, Noting, Page};
use std::alloc::AllocError;

// Whether a leaf receives from one of the channels of a walk.
fn is_on(leaf: &Leaf, walk: &[Place]) -> bool {
    let Some(channel) = received_from(leaf) else {
        return false;
    };
    for place in walk {
        if let Place::Channel(number) = place {
            if *number == channel.number {
                return true;
            }
        }
    }
    false
}

// The walk over the network on which datagrams come back, if the finder finds one.
fn walk_of(page: Page<'_>) -> Result<Option<Vec<Place>>, AllocError> {
    let Ok(resolved) = system_in(page.alloc, page.app.text) else {
        return Ok(None);
    };
    let found = find(page.alloc, &resolved.typed, Some(1));
    resolved.let_go();
    match found {
        Ok(certificate) => {
            certificate.let_go();
            Ok(None)
        }
        Err(NoBound::Cycle(walk)) => Ok(Some(walk)),
        Err(NoBound::OutOfMemory) => Err(AllocError),
        Err(_) => Ok(None),
    }
}

// Whether ends of channels stand on several devices.
fn is_spread(verified: &Verified) -> bool {
    let mut devices: usize = 0;
    for device in &verified.flat().devices {
        let mut is_found = false;
        for resource in &device.resources {
            for leaf in &resource.leaves {
                is_found = is_found || channel_of(leaf).is_some();
            }
        }
        if is_found {
            devices = devices.saturating_add(1);
        }
    }
    devices > 1
}

/// Writes that datagrams come back without end, at the first of these leaves that receives them, where the certificate has no row REPEATS and the finder finds such a
/// walk.
pub fn note_return(
    page: Page<'_>,
    paths: &Paths<'_>,
    verified: &Verified,
    leaves: &[&Leaf],
    notes: &mut Noting,
) -> Result<(), AllocError> {
    if verified.certificate().repeats().is_some() || !is_spread(verified) {
        return Ok(());
    }
    let Some(walk) = walk_of(page)? else {
        return Ok(());
    };
    for each in leaves {
        let leaf = *each;
        let instance = paths.instance(page.alloc, leaf.path.as_str())?;
        if let (true, Some(channel), Some(instance)) = (
            is_on(leaf, &walk),
            channel_of(leaf),
            instance,
        ) {
            notes.begin(NoteKind::ChannelsComeBack, instance.name.at);
            notes.said().put("datagrams of channel ");
            notes.said().show(&channel.number);
            notes.put(
                " may come back without end: 'fbr explain ",
                page.app.name,
                " --repeats 1' shows how",
                "",
            );
            return Ok(());
        }
    }
    Ok(())
}
