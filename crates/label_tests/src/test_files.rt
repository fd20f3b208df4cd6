//! Files that tests look at.
ghost use Rattle.std.specs.Prelude.{◌≡◌, None, is_some, refl};

use labels::Files;
use std::alloc::Global;
use std::io::ErrorKind;

/// A place for files, which keeps the names and the contents, one after the other.
#[derive(Drop)]
pub struct Kept {
    /// Each name, and a newline after it.
    pub names: String,
    pub contents: Vec<u8>,
    /// How many more files there is room for.
    pub room: usize,
    reason: Option<ErrorKind>,
}

impl Kept {
    /// Returns no files yet, and room for three.
    pub fn new(alloc: Global) -> Kept
        ensures { result.reason ≡ None }
    {
        Kept {
            names: String::new(alloc),
            contents: Vec::new(alloc),
            room: 3,
            reason: None,
        }
    }
}

impl Files for Kept {
    ghost state = { λ s. record { files = None; failed = is_some s.reason; reason = s.reason } };

    ghost reason_of_failure = { λ s. refl };

    fn put(&mut self, name: &str, content: &[u8]) -> bool {
        let is_put = self.room > 0
            && self.names.push_str(name).is_ok()
            && self.names.push_str("\n").is_ok()
            && self.contents.extend_from_slice(content).is_ok();
        if is_put {
            self.room -= 1;
        }
        self.reason = if is_put {
            None
        } else {
            Some(ErrorKind::StorageFull)
        };
        is_put
    }

    fn reason(&self) -> Option<ErrorKind> {
        self.reason
    }
}
