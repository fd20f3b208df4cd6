//! Why there is no label.
ghost use Rattle.std.specs.Prelude.{◌≡◌};
ghost use Rattle.single_label.specs.declared.stop.Stop.TheVariants.{Fault as FaultStop, Elements};
ghost use Rattle.programs.specs.declared.Fault.TheVariants.{Symbol};
ghost use Rattle.qrcode_core.specs.declared.types.errors.QrError.TheVariants.{OutOfMemory};

use gs1::{CheckError, Gs1Error};
use gs1_links::LinkError;
use programs::Fault;
use qrcode_core::types::{EcLevel, QrError, Version};
use std::alloc::AllocError;

/// Why there is no label.
#[derive(Clone, Copy, Debug, PartialEq, Eq)]
pub enum Stop {
    /// An error of the symbol's call, or of a device.
    Fault(Fault),
    /// The text gives no GS1 elements.
    Elements(ElementStop),
    /// The table of identifiers does not allow the GS1 elements.
    NotAllowed(CheckError),
    /// There is no link of the GS1 elements, or they may not stand together.
    NoLink(LinkError),
    /// The input has no bytes.
    Empty,
    /// No Micro QR symbol is read as the text: it has no ECI designators.
    NoMicroText,
    /// The content is too long for a symbol.
    TooLong(TooLong),
    /// The message is too long for the 16 symbols of a sequence.
    TooManyParts,
    /// There is no room in the document for the page of the label.
    TooManyPages,
}

/// What is wrong with GS1 elements, and which of them it is.
#[derive(Clone, Copy, Debug, PartialEq, Eq)]
pub struct ElementStop {
    pub error: Gs1Error,
    /// The digits of the identifier in ASCII, and zeros after them. There are only zeros if it is
    /// not two to four digits, or the error is not one element's.
    pub identifier: [u8; 4],
    /// The check digit that the value should end with in ASCII, if it ends with a wrong one; else
    /// 0.
    pub digit: u8,
}

/// A content that is too long for a symbol.
#[derive(Clone, Copy, Debug, PartialEq, Eq)]
pub struct TooLong {
    /// The number of its bytes; if it is more than `most_bytes`, there may be more of them.
    pub length: usize,
    /// The greatest version that the symbol could have.
    pub version: Version,
    /// Its level.
    pub level: EcLevel,
    /// How many bytes, and how many digits, one segment has room for.
    pub bytes: usize,
    pub digits: usize,
    /// The greatest lower level at which there is a symbol, if it was found.
    pub fits: Option<EcLevel>,
    /// Whether the labels of several symbols may stand for its label.
    pub can_be_split: bool,
    /// The length of a text beyond ASCII, if it was found.
    pub text: Option<TextLength>,
}

/// The length of a text, which is written in the fewest bits.
#[derive(Clone, Copy, Debug, PartialEq, Eq)]
pub struct TextLength {
    /// The bits that it takes in the greatest version that the symbol could have.
    pub bits: usize,
    /// The bits that this version has room for at the level.
    pub room: usize,
}

impl From<Fault> for Stop {
    ghost from_gives = { λ fault stop. stop ≡ FaultStop fault };

    fn from(fault: Fault) -> Stop {
        Stop::Fault(fault)
    }
}

impl From<QrError> for Stop {
    ghost from_gives = { λ error stop. stop ≡ FaultStop (Symbol error) };

    fn from(error: QrError) -> Stop {
        Stop::Fault(Fault::Symbol(error))
    }
}

impl From<AllocError> for Stop {
    ghost from_gives = { λ _ stop. stop ≡ FaultStop (Symbol OutOfMemory) };

    fn from(_error: AllocError) -> Stop {
        Stop::Fault(Fault::Symbol(QrError::OutOfMemory))
    }
}
