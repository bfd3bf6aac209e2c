//! Whether standard input has ended.

use libc::net::{POLLIN, poll};
use libc::read;
use libc::types::pollfd;

/// Reads what stands in standard input, at most 4,096 bytes, without waiting, and answers whether it has ended. It has also ended where it is closed or
/// cannot be read.
pub(crate) fn has_ended() -> bool {
    let mut asked = [pollfd {
        fd: 0,
        events: POLLIN,
        revents: 0,
    }];
    let mut buffer = [0u8; 4096];
    poll(&mut asked, 0) > 0 && read(0, &mut buffer) <= 0
}
