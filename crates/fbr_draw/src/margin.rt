//! Margins of lines.

use fbr_places::Writing;

/// Begins a line that stands in so many others.
pub fn indent(depth: usize, writing: &mut Writing) {
    for _ in 0..depth {
        writing.put("  ");
    }
}

/// Writes a line that stands in so many others.
pub fn line(depth: usize, text: &str, writing: &mut Writing) {
    indent(depth, writing);
    writing.put(text);
    writing.put("\n");
}

/// How many names a path has.
pub fn depth_of(path: &str) -> usize {
    path.split('.').count()
}
