//! The files of the process.
ghost use Rattle.std.specs.Prelude.{◌≡◌, None, is_some, refl};

use labels::Files;
use programs::put_file;
use std::io::ErrorKind;

/// The files of the process, by their names.
#[derive(Drop)]
pub struct Folder<'a> {
    rt: &'a HostRuntime,
    reason: Option<ErrorKind>,
}

impl<'a> Folder<'a> {
    /// Returns the files of the process.
    pub fn new(rt: &'a HostRuntime) -> Folder<'a>
        ensures { result.reason ≡ None }
    {
        Folder { rt, reason: None }
    }
}

impl<'a> Files for Folder<'a> {
    // No contract can say what a file has.
    ghost state = { λ s. record { files = None; failed = is_some s.reason; reason = s.reason } };

    ghost reason_of_failure = { λ s. refl };

    fn put(&mut self, name: &str, content: &[u8]) -> bool {
        self.reason = put_file(self.rt, name, "qrlabel", content).err();
        self.reason.is_none()
    }

    fn reason(&self) -> Option<ErrorKind> {
        self.reason
    }
}
