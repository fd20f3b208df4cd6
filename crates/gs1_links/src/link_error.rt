//! Why there is no link of elements, `LinkError`.
ghost use Rattle.std.specs.Prelude.{◌≡◌};

use gs1::{CheckError, TogetherError};
use std::alloc::{AllocError, AllocFailed};
use thiserror::Error;

/// Why there is no link of elements. Elements are counted from 0; `identifier` is the number that
/// the digits of the identifier write.
#[derive(Clone, Copy, Debug, PartialEq, Eq, Error)]
pub enum LinkError {
    /// The text has more than 11815 bytes, which no symbol holds.
    #[error("the text has more than 11815 bytes")]
    TextTooLong,
    /// The text has no elements that the table of identifiers allows.
    #[error("{0}")]
    Elements(CheckError),
    /// The domain is no host name with or without a port and a path.
    #[error("the domain is no host name with or without a port")]
    WrongDomain,
    /// No element is a primary key.
    #[error("no element is a primary key")]
    NoKey,
    /// This element is a primary key, and there is another after it.
    #[error("element {element} is a primary key, and there is another after it")]
    SecondKey { element: usize },
    /// This element qualifies the key, and may not stand beside another of its qualifiers.
    #[error("element {element} ({identifier:02}) may not stand beside another qualifier")]
    WrongQualifier { element: usize, identifier: usize },
    /// The identifier of this element stands once more after it.
    #[error("element {element} ({identifier:02}): the identifier stands once more after it")]
    RepeatedElement { element: usize, identifier: usize },
    /// The elements may not stand together.
    #[error("{0}")]
    Together(TogetherError),
    /// An allocation failed.
    #[error("out of memory")]
    OutOfMemory,
}

impl From<AllocError> for LinkError {
    ghost use Rattle.gs1_links.specs.declared.link_error.LinkError.TheVariants.{OutOfMemory};

    ghost from_gives = { λ _ e. e ≡ OutOfMemory };

    fn from(_error: AllocError) -> LinkError {
        LinkError::OutOfMemory
    }
}

impl<T: Drop> From<AllocFailed<T>> for LinkError {
    ghost use Rattle.gs1_links.specs.declared.link_error.LinkError.TheVariants.{OutOfMemory};

    ghost from_gives = { λ _ e. e ≡ OutOfMemory };

    fn from(_error: AllocFailed<T>) -> LinkError {
        LinkError::OutOfMemory
    }
}

/// Why a link is not read as elements. Elements are counted from 0, from the primary key on;
/// `identifier` is the number that the digits of the identifier write.
#[derive(Clone, Copy, Debug, PartialEq, Eq, Error)]
pub enum LinkReadError {
    /// The link begins with neither `https://` nor `http://`.
    #[error("the link begins with neither https:// nor http://")]
    WrongScheme,
    /// The byte at this place is no character of a link without a fragment.
    #[error("character {place} is none of a link without a fragment")]
    WrongCharacter { place: usize },
    /// The domain is no host name with or without a port.
    #[error("the domain is no host name with or without a port")]
    WrongDomain,
    /// No segment is the identifier of a primary key with an odd number of segments after it.
    #[error("no segment is the identifier of a primary key, with pairs of segments from it on")]
    NoKey,
    /// A part of the query has no equals sign.
    #[error("element {element}: a part of the query has no equals sign")]
    NoEqualsSign { element: usize },
    /// The value has a percent sign without two hexadecimal digits.
    #[error("element {element}: a percent sign without two hexadecimal digits")]
    WrongEscape { element: usize },
    /// The value has more than 90 characters, which no element has.
    #[error("element {element}: the value has more than 90 characters")]
    ValueTooLong { element: usize },
    /// The table of identifiers does not allow the element.
    #[error("{0}")]
    Elements(CheckError),
    /// The element stands in the path, but is no qualifier of the key, or not in this order.
    #[error("element {element} ({identifier:02}) is no qualifier of the key at this place")]
    WrongQualifier { element: usize, identifier: usize },
    /// The element stands in the query, but is a primary key or qualifies the key of the link.
    #[error("element {element} ({identifier:02}) is a key or a qualifier, and stands in the query")]
    WrongAttribute { element: usize, identifier: usize },
    /// The identifier of this element stands once more after it.
    #[error("element {element} ({identifier:02}): the identifier stands once more after it")]
    RepeatedElement { element: usize, identifier: usize },
    /// The elements may not stand together.
    #[error("{0}")]
    Together(TogetherError),
    /// An allocation failed.
    #[error("out of memory")]
    OutOfMemory,
}

impl From<AllocError> for LinkReadError {
    ghost use Rattle.gs1_links.specs.declared.link_error.LinkReadError.TheVariants.{OutOfMemory};

    ghost from_gives = { λ _ e. e ≡ OutOfMemory };

    fn from(_error: AllocError) -> LinkReadError {
        LinkReadError::OutOfMemory
    }
}

impl<T: Drop> From<AllocFailed<T>> for LinkReadError {
    ghost use Rattle.gs1_links.specs.declared.link_error.LinkReadError.TheVariants.{OutOfMemory};

    ghost from_gives = { λ _ e. e ≡ OutOfMemory };

    fn from(_error: AllocFailed<T>) -> LinkReadError {
        LinkReadError::OutOfMemory
    }
}
