//! The errors of a call.
ghost use Rattle.std.specs.Prelude.{◌≡◌, Some, IsSome};
ghost use Rattle.qrcode_c.specs.Statuses.{micro_text_status, status_error, status_of};

use qrcode_core::types::QrError;
use smallest_symbols::MicroTextError;

/// The errors of a call, with the numbers that the header has.
#[derive(Clone, Copy, Debug, PartialEq, Eq)]
pub enum Refusal {
    /// The bytes do not fit any symbol of the call.
    DataTooLong = 1,
    /// An allocation failed.
    OutOfMemory = 2,
    /// The level is not 0 to 3, or it is 3 for a Micro symbol.
    InvalidLevel = 3,
    /// The greatest version of a sequence is not 1 to 40.
    InvalidMaxVersion = 4,
    /// The number of parts of a sequence is not 2 to 16.
    InvalidPartCount = 5,
    /// A cut is less than the one before it, or greater than the length of the message.
    InvalidCuts = 6,
    /// The index is not less than the number of parts.
    InvalidIndex = 7,
    /// A buffer is too short for what is to be written.
    ShortBuffer = 8,
    // 9 is that of a pointer, in `sicklespan.c`.
    /// The text is not UTF-8.
    InvalidText = 10,
    /// The least and the greatest version are not 1 to 40, or not in this order.
    InvalidVersions = 11,
    /// A character is none of GS1's, or a separator does not stand between two elements.
    InvalidCharacter = 12,
    /// The text does not begin with a bracketed identifier.
    NoElements = 13,
    /// An identifier is not two to four digits.
    InvalidIdentifier = 14,
    /// An identifier is none that GS1 assigns.
    UnknownIdentifier = 15,
    /// An element has no value.
    EmptyValue = 16,
    /// A value has more characters than its identifier allows, or unchecked more than 90.
    ValueTooLong = 17,
    /// A value ends too early, or unchecked it has another length than the predefined one.
    WrongLength = 18,
    /// A check digit, or a pair of check characters, is another.
    WrongCheckDigit = 19,
    /// No symbol has the width, or its modules are another number.
    InvalidWidth = 20,
    /// No format of pictures has the number.
    InvalidFormat = 21,
    /// A setting is out of its bounds, or the format does not have it.
    InvalidSetting = 22,
    // 23 is that of a content, in `sicklespan.c`.
    /// A value is none that its identifier allows for another reason: a date, a country, ..
    WrongValue = 24,
    /// The domain of a link is no host name, with or without a port and a path.
    WrongDomain = 25,
    /// No element is the key of a link.
    NoKey = 26,
    /// An element is the key of a link, and there is another after it.
    SecondKey = 27,
    /// A qualifier of the key may not stand beside another one.
    WrongQualifier = 28,
    /// The identifier of an element of a link stands once more after it.
    RepeatedElement = 29,
    /// An element that has to stand beside another one is missing.
    MissingElement = 30,
    /// An element may not stand beside another one.
    ConflictingElement = 31,
    /// No Micro symbol is read as the text.
    UnwritableText = 32,
}

impl Refusal {
    /// Returns the number of the error.
    pub fn status(self) -> i32
        ensures { result ≡ status_of self }
    {
        self as i32
    }
}

/// Returns the error of a call for an error of `qrcode_core`.
pub fn core_refusal(error: QrError) -> Refusal
    requires { IsSome (status_error error) }
    ensures { status_error error ≡ Some result }
{
    match error {
        QrError::DataTooLong => Refusal::DataTooLong,
        QrError::InvalidVersion { .. } => Refusal::InvalidLevel,
        QrError::InvalidCharacter { .. } => Refusal::InvalidCharacter,
        QrError::InvalidStructuredAppend { .. } => Refusal::InvalidPartCount,
        QrError::OutOfMemory => Refusal::OutOfMemory,
        QrError::UnsupportedCharacterSet
        | QrError::InvalidEciDesignator { .. }
        | QrError::InvalidResourceLimits
        | QrError::RenderSizeExceeded { .. }
        | QrError::EncodingTimeout
        | QrError::InvalidDataLength { .. } => unreachable!(),
    }
}

/// Returns the error of a call for an error of the Micro symbol of a text.
pub fn micro_text_refusal(error: MicroTextError) -> Refusal
    requires { IsSome (micro_text_status error) }
    ensures { micro_text_status error ≡ Some result }
{
    match error {
        MicroTextError::Unwritable => Refusal::UnwritableText,
        MicroTextError::Symbol(error) => core_refusal(error),
    }
}
