//! The descriptors 0 to 2 of a process.
use std::fs::File;

/// Opens the null device to be read, three times: if one of the descriptors 0 to 2 is closed, it is
/// that device from now on, and no file that is opened later gets its number, so that no message
/// is written into a label. What writes to such a descriptor fails, as it does on a closed one. The
/// caller keeps what is returned until it ends.
pub fn held_descriptors(rt: &HostRuntime) -> [Option<File>; 3] {
    [null_device(rt), null_device(rt), null_device(rt)]
}

/// Opens the null device, if there is one.
fn null_device(rt: &HostRuntime) -> Option<File> {
    File::open(rt, "/dev/null").ok()
}
