//! What is drawn, and what it is drawn with.

use crate::joined::Joined;
use fb_cert::Certificate;
use fb_tree::FileTree;
use fbr_leaves::Numbers;
use fbr_needs::Step;
use fbr_places::Named;
use std::alloc::Global;

/// What is drawn beside the blocks and their connections.
#[derive(Clone, Copy)]
pub struct Picture<'a> {
    /// The text, and what its file is called.
    pub app: Named<'a>,
    /// The source, which has the names of types.
    pub file: &'a FileTree,
    /// The certificate whose weights stand at event inputs and arrivals.
    pub certificate: Option<&'a Certificate>,
    /// For which refusal the certificate's weights are no bounds, or for which one there is no certificate, as its line says it.
    pub refused: Option<&'a str>,
    /// The places of a walk, drawn in red.
    pub walk: &'a [Step<'a>],
    /// Whether composites are drawn as boxes around what they are made of.
    pub boxes: bool,
}

/// What each part of a picture is drawn with.
#[derive(Clone, Copy)]
pub struct Sheet<'a> {
    pub alloc: Global,
    pub picture: &'a Picture<'a>,
    pub numbers: &'a Numbers,
    /// Ports that are not drawn in grey.
    pub joined: &'a Joined,
}
