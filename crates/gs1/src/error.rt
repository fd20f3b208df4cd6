//! Why a text writes no GS1 elements, `Gs1Error`.
ghost use Rattle.std.specs.Prelude.{◌≡◌};

use std::alloc::{AllocError, AllocFailed};
use thiserror::Error;

/// Why a text gives no element string. Elements are counted from 0.
#[derive(Clone, Copy, Debug, PartialEq, Eq, Error)]
pub enum Gs1Error {
    /// The text does not begin with `(`.
    #[error("the text does not begin with a bracketed identifier")]
    NoElements,
    /// What stands between the brackets is not two to four digits.
    #[error("element {element}: the identifier is not two to four digits")]
    InvalidIdentifier {
        element: usize,
    },
    /// No identifier with these first two digits is assigned, or those have another number
    /// of digits.
    #[error("element {element}: unknown identifier")]
    UnknownIdentifier {
        element: usize,
    },
    /// There is no value.
    #[error("element {element}: the value is empty")]
    EmptyValue {
        element: usize,
    },
    /// The value has more than 90 characters.
    #[error("element {element}: the value has more than 90 characters")]
    ValueTooLong {
        element: usize,
    },
    /// The byte at this position of the value, counted from 0, is none of GS1's 82 characters and
    /// no `#`, or no digit where the length is predefined.
    #[error("element {element}: invalid character byte {byte:#04x} at position {position}")]
    InvalidCharacter {
        element: usize,
        position: usize,
        byte: u8,
    },
    /// The length of the element is predefined, and it has another.
    #[error("element {element}: the length of the value is wrong")]
    WrongLength {
        element: usize,
    },
    /// The value ends with another digit than its check digit.
    #[error("element {element}: wrong check digit")]
    WrongCheckDigit {
        element: usize,
    },
    /// An allocation failed.
    #[error("out of memory")]
    OutOfMemory,
}

impl From<AllocError> for Gs1Error {
    ghost use Rattle.gs1.specs.declared.error.Gs1Error.TheVariants.{OutOfMemory};

    ghost from_gives = { λ _ e. e ≡ OutOfMemory };

    fn from(_error: AllocError) -> Gs1Error {
        Gs1Error::OutOfMemory
    }
}

impl<T: Drop> From<AllocFailed<T>> for Gs1Error {
    ghost use Rattle.gs1.specs.declared.error.Gs1Error.TheVariants.{OutOfMemory};

    ghost from_gives = { λ _ e. e ≡ OutOfMemory };

    fn from(_error: AllocFailed<T>) -> Gs1Error {
        Gs1Error::OutOfMemory
    }
}
