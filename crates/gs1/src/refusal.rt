//! Why elements are not those that the table of identifiers allows, `CheckError`.
ghost use Rattle.std.specs.Prelude.{◌≡◌};

use crate::reason::Reason;
use std::alloc::{AllocError, AllocFailed};
use thiserror::Error;

/// Why elements are not those that the table of identifiers allows. Elements and the characters of
/// a value are counted from 0; `identifier` is the number that the digits of the identifier write.
#[derive(Clone, Copy, Debug, PartialEq, Eq, Error)]
pub enum CheckError {
    /// The text does not begin with `(`, or there are no bytes.
    #[error("there are no elements")]
    NoElements,
    /// The identifier is not two to four digits.
    #[error("element {element}: the identifier is not two to four digits")]
    InvalidIdentifier {
        element: usize,
    },
    /// The table does not have the identifier.
    #[error("element {element}: the identifier {identifier:02} is not assigned")]
    UnknownIdentifier {
        element: usize,
        identifier: usize,
    },
    /// The value is not one of this identifier.
    #[error("element {element} ({identifier:02}), character {place}: {reason}")]
    WrongValue {
        element: usize,
        identifier: usize,
        place: usize,
        reason: Reason,
    },
    /// An allocation failed.
    #[error("out of memory")]
    OutOfMemory,
}

impl From<AllocError> for CheckError {
    ghost use Rattle.gs1.specs.declared.refusal.CheckError.TheVariants.{OutOfMemory};

    ghost from_gives = { λ _ e. e ≡ OutOfMemory };

    fn from(_error: AllocError) -> CheckError {
        CheckError::OutOfMemory
    }
}

impl<T: Drop> From<AllocFailed<T>> for CheckError {
    ghost use Rattle.gs1.specs.declared.refusal.CheckError.TheVariants.{OutOfMemory};

    ghost from_gives = { λ _ e. e ≡ OutOfMemory };

    fn from(_error: AllocFailed<T>) -> CheckError {
        CheckError::OutOfMemory
    }
}
