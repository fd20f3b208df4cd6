//! Why the system did not do something, in words and as a line.
ghost use Rattle.std.specs.Prelude.{◌≡◌, IsFalse};
ghost use Rattle.programs.specs.Devices.{output, Writes};
ghost use Rattle.programs.specs.Reasons.{reason_text, is_closed_pipe, device_report};
ghost use Rattle.programs.specs.Reasons.{device_line, device_status};

use crate::{Fault, Sink, Word, write_word_line};
use std::io::ErrorKind;

/// The status that a shell gives a program which SIGPIPE ended.
pub const CLOSED_PIPE: u8 = 141;

/// Writes what could not be done with the file or the device of a name, and why, as one line after
/// the program's name, without an allocation, and returns the status 1. The line is
/// `PROGRAM: cannot WHAT NAME: REASON`. Where no reason is known, it is "input or output error". A
/// name with a control character is quoted as a shell reads it.
///
/// Of a pipe that nobody reads from any more it writes nothing, and the status is 141.
pub fn report_device<E: Sink>(
    errors: &mut E,
    program: &str,
    what: &str,
    name: &str,
    reason: Option<ErrorKind>,
) -> u8
    requires sound { IsFalse (E.state errors.old).failed }
    ensures status { result ≡ device_status reason }
    ensures reported { Writes (output (E.state errors.old) (E.state errors.new))
        (device_report program.now what.now name.now reason) }
{
    if is_closed_pipe(reason) {
        return CLOSED_PIPE;
    }
    let why = reason_text(reason.unwrap_or(ErrorKind::Other));
    let _ = write_device(errors, program, what, name, why);
    1
}

/// Writes what could not be done with the file or the device of a name, and why.
fn write_device<E: Sink>(
    errors: &mut E,
    program: &str,
    what: &str,
    name: &str,
    why: &str,
) -> Result<(), Fault>
    requires { IsFalse (E.state errors.old).failed }
    ensures { Writes (output (E.state errors.old) (E.state errors.new))
        (device_line program.now what.now name.now why.now) }
{
    let word = Word {
        text: name,
        in_quotes: false,
    };
    write_word_line(errors, program, &["cannot ", what, " "], word, &[": ", why])
}

/// Whether a pipe was written to that nobody reads from any more.
pub fn is_closed_pipe(reason: Option<ErrorKind>) -> bool
    ensures { result ≡ is_closed_pipe reason }
{
    matches!(reason, Some(ErrorKind::BrokenPipe))
}

/// Returns the words of the system for a kind of error, in small letters. Where they are not known,
/// these are "input or output error".
pub fn reason_text(kind: ErrorKind) -> &'static str
    ensures { result.now ≡ reason_text kind }
{
    match kind {
        ErrorKind::NotFound => "no such file or directory",
        ErrorKind::PermissionDenied => "permission denied",
        ErrorKind::BrokenPipe => "broken pipe",
        ErrorKind::AlreadyExists => "file exists",
        ErrorKind::WouldBlock => "resource temporarily unavailable",
        ErrorKind::NotADirectory => "not a directory",
        ErrorKind::IsADirectory => "is a directory",
        ErrorKind::DirectoryNotEmpty => "directory not empty",
        ErrorKind::ReadOnlyFilesystem => "read-only file system",
        ErrorKind::FilesystemLoop => "too many levels of symbolic links",
        ErrorKind::StaleNetworkFileHandle => "stale file handle",
        ErrorKind::InvalidInput => "invalid argument",
        ErrorKind::StorageFull => "no space left on device",
        ErrorKind::QuotaExceeded => "disk quota exceeded",
        ErrorKind::FileTooLarge => "file too large",
        ErrorKind::ResourceBusy => "device or resource busy",
        ErrorKind::ExecutableFileBusy => "text file busy",
        ErrorKind::CrossesDevices => "invalid cross-device link",
        ErrorKind::TooManyLinks => "too many links",
        ErrorKind::InvalidFilename => "file name too long",
        ErrorKind::Interrupted => "interrupted system call",
        ErrorKind::Unsupported => "operation not supported",
        ErrorKind::OutOfMemory => "out of memory",
        _ => "input or output error",
    }
}
