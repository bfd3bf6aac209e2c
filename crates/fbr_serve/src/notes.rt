//! What is told beside the output of a device: to people, and to its record.

use fb_record::Recorder;
use fbr_notices::Teller;

/// Where people are told what happens, what they were told so far, and the record.
#[derive(Drop)]
pub(crate) struct Notes<E, F> {
    pub errors: E,
    pub people: Teller,
    pub recorder: Recorder<F>,
}
