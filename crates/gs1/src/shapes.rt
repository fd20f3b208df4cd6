//! Components and ranges of identifiers that several rows of the table have. The names of
//! components are as in the GS1 General Specifications: N for digits, X for the 82 characters.

use crate::table::Characters::{Digits, Set82};
use crate::table::Check::{
    CheckDigit, Country, CountryLetters, Currency, Date, Day, Escapes, Flag, HourMinute, Hyphen,
    Key, Model, Nothing, Piece,
};
use crate::table::Component::{Needed, Optional};
use crate::table::{Parts, Ranges};

/// The components of a row.
macro_rules! parts {
    ($a:expr) => { $crate::table::Parts::OnePart($a) };
    ($a:expr, $b:expr) => { $crate::table::Parts::TwoParts($a, $b) };
    ($a:expr, $b:expr, $c:expr) => { $crate::table::Parts::ThreeParts($a, $b, $c) };
    ($a:expr, $b:expr, $c:expr, $d:expr) => { $crate::table::Parts::FourParts($a, $b, $c, $d) };
    ($a:expr, $b:expr, $c:expr, $d:expr, $e:expr) => {
        $crate::table::Parts::FiveParts($a, $b, $c, $d, $e)
    };
}

/// The ranges of identifiers of a row.
macro_rules! ranges {
    ($a:expr) => { $crate::table::Ranges::OneRange($a) };
    ($a:expr, $b:expr) => { $crate::table::Ranges::TwoRanges($a, $b) };
    ($a:expr, $b:expr, $c:expr) => { $crate::table::Ranges::ThreeRanges($a, $b, $c) };
    ($a:expr, $b:expr, $c:expr, $d:expr) => { $crate::table::Ranges::FourRanges($a, $b, $c, $d) };
    ($a:expr, $b:expr, $c:expr, $d:expr, $e:expr) => {
        $crate::table::Ranges::FiveRanges($a, $b, $c, $d, $e)
    };
    ($a:expr, $b:expr, $c:expr, $d:expr, $e:expr, $f:expr, $g:expr) => {
        $crate::table::Ranges::SevenRanges($a, $b, $c, $d, $e, $f, $g)
    };
}

/// The qualifiers of a row.
macro_rules! numbers {
    ($a:expr) => { $crate::table::Numbers::OneNumber([$a]) };
    ($a:expr, $b:expr, $c:expr) => { $crate::table::Numbers::ThreeNumbers([$a, $b, $c]) };
}

pub(crate) use numbers;
pub(crate) use parts;
pub(crate) use ranges;

pub(crate) const N18_CHECKED: Parts = parts![Needed(Digits, 18, 18, CheckDigit)];

pub(crate) const N14_CHECKED: Parts = parts![Needed(Digits, 14, 14, CheckDigit)];

pub(crate) const N13_CHECKED: Parts = parts![Needed(Digits, 13, 13, CheckDigit)];

pub(crate) const ITIP: Parts = parts![
    Needed(Digits, 14, 14, CheckDigit),
    Needed(Digits, 4, 4, Piece)
];

pub(crate) const N6: Parts = parts![Needed(Digits, 6, 6, Nothing)];

pub(crate) const N1_8: Parts = parts![Needed(Digits, 1, 8, Nothing)];

pub(crate) const N1_15: Parts = parts![Needed(Digits, 1, 15, Nothing)];

pub(crate) const DATE: Parts = parts![Needed(Digits, 6, 6, Date)];

pub(crate) const DAY: Parts = parts![Needed(Digits, 6, 6, Day)];

pub(crate) const DATE_TIME: Parts = parts![
    Needed(Digits, 6, 6, Date),
    Needed(Digits, 4, 4, HourMinute)
];

pub(crate) const AMOUNT: Parts = parts![
    Needed(Digits, 3, 3, Currency),
    Needed(Digits, 1, 15, Nothing)
];

pub(crate) const COUNTRY: Parts = parts![Needed(Digits, 3, 3, Country)];

pub(crate) const COUNTRIES: Parts = parts![
    Needed(Digits, 3, 3, Country),
    Optional(Digits, 3, 3, Country),
    Optional(Digits, 3, 3, Country),
    Optional(Digits, 3, 3, Country),
    Optional(Digits, 3, 3, Country)
];

pub(crate) const LETTERS: Parts = parts![Needed(Set82, 2, 2, CountryLetters)];

pub(crate) const FLAG: Parts = parts![Needed(Digits, 1, 1, Flag)];

pub(crate) const X3: Parts = parts![Needed(Set82, 1, 3, Nothing)];

pub(crate) const X20: Parts = parts![Needed(Set82, 1, 20, Nothing)];

pub(crate) const X30: Parts = parts![Needed(Set82, 1, 30, Nothing)];

pub(crate) const X30_KEY: Parts = parts![Needed(Set82, 1, 30, Key)];

pub(crate) const MODEL: Parts = parts![Needed(Set82, 1, 25, Model)];

pub(crate) const TEXT35: Parts = parts![Needed(Set82, 1, 35, Escapes)];

pub(crate) const TEXT40: Parts = parts![Needed(Set82, 1, 40, Escapes)];

pub(crate) const TEXT70: Parts = parts![Needed(Set82, 1, 70, Escapes)];

pub(crate) const TEMPERATURE: Parts = parts![
    Needed(Digits, 6, 6, Nothing),
    Optional(Set82, 1, 1, Hyphen)
];

pub(crate) const GTIN: Ranges = ranges![(1, 1)];

pub(crate) const UNIT: Ranges = ranges![(0, 0)];

pub(crate) const TRADE: Ranges = ranges![(1, 2)];

pub(crate) const ITEM: Ranges = ranges![(1, 3), (8006, 8006), (8026, 8026)];

pub(crate) const GTIN_OR_ITIP: Ranges = ranges![(1, 1), (8006, 8006)];

pub(crate) const LOGISTIC: Ranges = ranges![(0, 3), (8006, 8006), (8026, 8026)];

pub(crate) const MEASURED: Ranges = ranges![(30, 30), (3100, 3299), (3500, 3699)];

pub(crate) const SLIP: Ranges = ranges![(8020, 8020)];

pub(crate) const COUPON: Ranges = ranges![(255, 255)];

pub(crate) const GSRN: Ranges = ranges![(8017, 8018)];

pub(crate) const RECIPIENT: Ranges = ranges![(8018, 8018)];
