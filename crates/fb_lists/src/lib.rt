//! Room: book. Laws of lists: what is so of all or of one, of images, and of the element at an index.
//! They speak of nothing of this repository, and no code runs.
#![tactic(auto)]
