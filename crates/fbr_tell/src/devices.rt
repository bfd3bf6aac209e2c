//! What people are told where a device is asked for that the system has not. It is tested, and no contract says it.

use fb_tree::FileTree;
use fbr_places::{Writing, tree_of};
use std::alloc::Global;

// What stands before a name that is one of so many.
fn before(index: usize, count: usize) -> &'static str {
    if index == 0 {
        ""
    } else if index.saturating_add(1) == count {
        " and "
    } else {
        ", "
    }
}

// Writes the names of the devices of a text.
fn put_names(file: &FileTree, writing: &mut Writing) {
    let count = file.system.devices.len();
    writing.put(if count == 0 {
        "; it has no devices"
    } else if count == 1 {
        "; its device is "
    } else {
        "; its devices are "
    });
    for (index, device) in file.system.devices.iter().enumerate() {
        writing.put(before(index, count));
        writing.put(device.name.text.as_str());
    }
}

/// Writes that the system has no such device, and which devices it has.
pub fn put_devices(alloc: Global, text: &str, writing: &mut Writing) {
    writing.put("the system has no device of this name");
    if let Ok(Some(file)) = tree_of(alloc, text) {
        put_names(&file, writing);
        file.let_go();
    }
}
