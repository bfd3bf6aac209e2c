//! Whether the stack of the process is large enough.

use libc::getrlimit;
use libc::types::rlimit;

/// The stack that the deepest texts within the limits need, in bytes, with room to spare: they end by themselves with 768 KiB.
const NEEDED: u64 = 1_048_576;

/// The number of this limit on Linux.
const STACK: i32 = 3;

/// Whether the limit of the stack, where it is known, is not below what is needed.
pub(crate) fn is_enough() -> bool {
    let mut limit = rlimit {
        rlim_cur: 0,
        rlim_max: 0,
    };
    getrlimit(STACK, &mut limit) != 0 || limit.rlim_cur >= NEEDED
}
