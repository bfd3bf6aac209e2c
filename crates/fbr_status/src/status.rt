//! What becomes of the status of a command.

ghost use Rattle.std.specs.Prelude.{◌≡◌, ◌≤◌, MatchResult};
ghost use Rattle.std.specs.Process.{exit_status};

use std::io;
use std::process::ExitCode;

/// The status of a command whose output has gone out, and 3 if it has not.
pub fn outcome(status: u8, flushed: io::Result<()>) -> u8
    requires { status ≤ 4 }
    ensures said { MatchResult flushed (λ _. result ≡ status) (λ _. result ≡ 3) }
    ensures most { result ≤ 4 }
{
    match flushed {
        Ok(()) => status,
        Err(_) => 3,
    }
}

/// The status of the process: the command's, and 4 if there was no memory for its words.
pub fn exit_code(status: io::Result<u8>) -> ExitCode
    ensures { MatchResult status (λ said. exit_status result ≡ said) (λ _. exit_status result ≡ 4) }
{
    match status {
        Ok(status) => ExitCode::from(status),
        Err(_) => ExitCode::from(4),
    }
}
