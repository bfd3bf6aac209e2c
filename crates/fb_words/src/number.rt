//! The numbers of services.

/// What has a number of its own: in a device INPUTs, OUTPUTs, and the channels of SUBSCRIBEs; in a system the channels of format 2 of
/// PUBLISHs.
#[derive(Clone, Copy)]
pub enum NumberKind {
    Input,
    Output,
    Subscriber,
    Sender,
}
