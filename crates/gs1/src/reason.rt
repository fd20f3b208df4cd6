//! What a value has that its identifier does not allow, `Reason`.
ghost use Rattle.std.specs.Prelude.{◌≡◌};
ghost use Rattle.std.specs.Result.{result_err};
ghost use Rattle.gs1.specs.Checks.{fault_if};

use thiserror::Error;

/// Why a value is not one that its identifier allows.
#[derive(Clone, Copy, Debug, PartialEq, Eq, Error)]
pub enum Reason {
    /// The value ends before its last component, or within one.
    #[error("the value is too short")]
    TooShort,
    /// The value goes on after its last component.
    #[error("the value is too long")]
    TooLong,
    /// The component has no such character.
    #[error("invalid character byte {byte:#04x}")]
    WrongCharacter { byte: u8 },
    /// The check digit is another, this one from 0 to 9.
    #[error("wrong check digit, {right} is right")]
    WrongCheckDigit { right: u8 },
    /// The pair of check characters is another, these two in ASCII.
    #[error("wrong pair of check characters, bytes {first:#04x} and {second:#04x} are right")]
    WrongCheckPair { first: u8, second: u8 },
    /// The key does not begin with four digits, as each GS1 Company Prefix does.
    #[error("the key begins with no GS1 Company Prefix")]
    NoCompanyPrefix,
    /// No month from 01 to 12.
    #[error("no such month")]
    WrongMonth,
    /// No day of this month.
    #[error("no such day")]
    WrongDay,
    /// No hour from 00 to 23.
    #[error("no such hour")]
    WrongHour,
    /// No minute from 00 to 59.
    #[error("no such minute")]
    WrongMinute,
    /// No second from 00 to 59.
    #[error("no such second")]
    WrongSecond,
    /// No country of ISO 3166-1.
    #[error("no such country")]
    WrongCountry,
    /// No currency of ISO 4217.
    #[error("no such currency")]
    WrongCurrency,
    /// Neither 0 nor 1.
    #[error("neither 0 nor 1")]
    WrongFlag,
    /// A piece or a total of 00, or a piece beyond the total.
    #[error("no piece of this total")]
    WrongPiece,
    /// A direction of winding other than 0, 1 and 9.
    #[error("no direction of winding")]
    WrongWinding,
    /// Not the zero that has to stand here.
    #[error("not zero")]
    NoZero,
    /// Only zeros, where there has to be another digit.
    #[error("only zeros")]
    OnlyZeros,
    /// A zero before other digits.
    #[error("a zero before other digits")]
    LeadingZero,
    /// A percent sign without two hexadecimal digits after it.
    #[error("a percent sign without two hexadecimal digits")]
    WrongEscape,
    /// A latitude above 1800000000.
    #[error("no such latitude")]
    WrongLatitude,
    /// A longitude above 3600000000.
    #[error("no such longitude")]
    WrongLongitude,
    /// Not the minus sign that alone may stand here.
    #[error("not a minus sign")]
    NoMinus,
    /// A media type that is neither 01 to 10 nor 80 to 99.
    #[error("no such media type")]
    WrongMedia,
    /// A sex other than 0, 1, 2 and 9 of ISO 5218.
    #[error("no such sex")]
    WrongSex,
    /// Not two digits from 1 with a slash between them, of which the first is not the greater.
    #[error("no place in a sequence")]
    WrongSequence,
    /// No International Bank Account Number: two letters, two digits, and letters and digits with
    /// which its check digits are right.
    #[error("wrong bank account number")]
    WrongIban,
    /// No importer index: a letter, a digit, a hyphen or an underscore.
    #[error("no importer index")]
    WrongImporter,
}

/// The first fault of a value: its place, counted from 0, and what is wrong there.
#[derive(Clone, Copy, Debug, PartialEq, Eq)]
pub(crate) struct Fault {
    pub(crate) place: usize,
    pub(crate) reason: Reason,
}

/// Refuses what is wrong.
pub(crate) fn fault_if(wrong: bool, place: usize, reason: Reason) -> Result<(), Fault>
    ensures { result_err result ≡ fault_if wrong place reason }
{
    if wrong {
        return Err(Fault { place, reason });
    }
    Ok(())
}
