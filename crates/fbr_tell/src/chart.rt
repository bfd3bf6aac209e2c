//! What people are told where a chart is asked for that is none of the text. It is tested, and no contract says it.

use fb_tree::{BodyTree, FileTree};
use fbr_places::Writing;

// The most names that are told.
const MOST_TOLD: usize = 8;

// Writes the names of the basic block types of a text, the first of them where they are many.
fn write_types(file: &FileTree, writing: &mut Writing) {
    let mut count: usize = 0;
    for block in &file.blocks {
        if let BodyTree::Chart(_) = &block.body {
            if count == MOST_TOLD {
                writing.put(" ..");
                return;
            }
            writing.put(if count == 0 { ": " } else { ", " });
            writing.put(block.name.text.as_str());
            count = count.saturating_add(1);
        }
    }
    if count == 0 {
        writing.put(", and there is none");
    }
}

/// Writes that a name is no basic block type of a file, and which there are.
pub fn tell_charts(app: &str, file: &FileTree, writing: &mut Writing) {
    writing.put("fbr: `--chart` takes the name of a basic block type of ");
    writing.put(app);
    write_types(file, writing);
    writing.put("\n");
}
