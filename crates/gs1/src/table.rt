//! The table of GS1 Application Identifiers: what its rows have, and how it is read.
ghost use Rattle.std.specs.Prelude.{◌≡◌, ◌<◌, ◌≤◌, Some, None, IfSome, IfNone, position, take};
ghost use Rattle.std.specs.List.{find};
ghost use Rattle.gs1.specs.Table.{characters_of, least_of, greatest_of, check_of, is_optional};
ghost use Rattle.gs1.specs.Table.{listed_parts, listed_ranges, listed_numbers, is_row_of, row_of};
ghost use Rattle.gs1.specs.Table.{primary_keys, qualifiers_of};
ghost use Rattle.gs1.specs.Table.{components, needed, also_needed, barred};

use crate::rows::{KEYS, TABLE};
use Component::{Needed, Optional};

/// Which characters a component has.
#[derive(Clone, Copy, Debug, PartialEq, Eq)]
pub(crate) enum Characters {
    /// Digits.
    Digits,
    /// GS1 AI encodable character set 82.
    Set82,
    /// GS1 AI encodable character set 39.
    Set39,
    /// GS1 AI encodable character set 64 (base64url).
    Base64,
    /// Digits and capital letters.
    Capitals,
}

/// What a component has to satisfy beside its characters and its length.
#[derive(Clone, Copy, Debug, PartialEq, Eq)]
pub(crate) enum Check {
    /// Nothing more.
    Nothing,
    /// It ends with its check digit.
    CheckDigit,
    /// It begins with a GS1 Company Prefix.
    Key,
    /// It begins with a GS1 Company Prefix and ends with its pair of check characters.
    Model,
    /// A date YYMMDD, whose day may be 00.
    Date,
    /// A date YYMMDD.
    Day,
    /// A date YYYYMMDD.
    LongDay,
    /// An hour.
    Hour,
    /// An hour and a minute.
    HourMinute,
    /// A minute.
    Minute,
    /// A second.
    Second,
    /// A number of ISO 3166-1.
    Country,
    /// A number of ISO 3166-1, or 999.
    CountryOrAny,
    /// Two letters of ISO 3166-1.
    CountryLetters,
    /// A number of ISO 4217.
    Currency,
    /// 0 or 1.
    Flag,
    /// The number of a piece and how many pieces there are.
    Piece,
    /// A direction of winding.
    Winding,
    /// A zero.
    Zero,
    /// No zero.
    Nonzero,
    /// No zero before other digits.
    NoLeadingZero,
    /// Each percent sign begins an escape.
    Escapes,
    /// Equals signs stand at the end alone, at most two.
    Padding,
    /// A latitude.
    Latitude,
    /// A longitude.
    Longitude,
    /// A minus sign.
    Hyphen,
    /// A kind of carrier.
    Media,
    /// A sex of ISO 5218.
    Sex,
    /// A place in a sequence of births.
    Sequence,
    /// An International Bank Account Number.
    Iban,
    /// An importer index.
    Importer,
    /// The fields of a coupon code, or of an offer.
    Coupon(bool),
}

/// A component of a value: its characters, least and greatest length, and check.
#[derive(Clone, Copy, Debug, PartialEq, Eq)]
pub(crate) enum Component {
    /// It is always there.
    Needed(Characters, u8, u8, Check),
    /// It may be left out.
    Optional(Characters, u8, u8, Check),
}

impl Component {
    /// Which characters it has.
    pub(crate) fn characters(self) -> Characters
        ensures { result ≡ characters_of self }
    {
        match self {
            Needed(characters, _, _, _) | Optional(characters, _, _, _) => characters,
        }
    }

    /// Its least length.
    pub(crate) fn least(self) -> usize
        ensures { result ≡ least_of self }
    {
        match self {
            Needed(_, least, _, _) | Optional(_, least, _, _) => usize::from(least),
        }
    }

    /// Its greatest length.
    pub(crate) fn greatest(self) -> usize
        ensures value { result ≡ greatest_of self }
        ensures few { result < 256 }
    {
        match self {
            Needed(_, _, greatest, _) | Optional(_, _, greatest, _) => usize::from(greatest),
        }
    }

    /// What it has to satisfy.
    pub(crate) fn check(self) -> Check
        ensures { result ≡ check_of self }
    {
        match self {
            Needed(_, _, _, check) | Optional(_, _, _, check) => check,
        }
    }

    /// Whether it may be left out.
    pub(crate) fn is_optional(self) -> bool
        ensures { result ≡ is_optional self }
    {
        matches!(self, Optional(..))
    }
}

/// A component that stands for none.
const NO_PART: Component = Needed(Characters::Digits, 0, 0, Check::Nothing);

/// A range without identifiers.
const NO_RANGE: (usize, usize) = (1, 0);

/// The components of the values of a row, in their order.
#[derive(Clone, Copy, Debug, PartialEq, Eq)]
pub(crate) enum Parts {
    OnePart(Component),
    TwoParts(Component, Component),
    ThreeParts(Component, Component, Component),
    FourParts(Component, Component, Component, Component),
    FiveParts(Component, Component, Component, Component, Component),
}

impl Parts {
    /// Returns the components, which stand first in the array, and how many there are.
    fn list(self) -> ([Component; 5], usize)
        ensures parts { take result.1 result.0 ≡ listed_parts self }
        ensures few { result.1 ≤ 5 }
    {
        match self {
            Parts::OnePart(a) => ([a, NO_PART, NO_PART, NO_PART, NO_PART], 1),
            Parts::TwoParts(a, b) => ([a, b, NO_PART, NO_PART, NO_PART], 2),
            Parts::ThreeParts(a, b, c) => ([a, b, c, NO_PART, NO_PART], 3),
            Parts::FourParts(a, b, c, d) => ([a, b, c, d, NO_PART], 4),
            Parts::FiveParts(a, b, c, d, e) => ([a, b, c, d, e], 5),
        }
    }
}

/// A range of identifiers, the first and the last.
type Range = (usize, usize);

/// Ranges of identifiers.
#[derive(Clone, Copy, Debug, PartialEq, Eq)]
pub(crate) enum Ranges {
    NoRange,
    OneRange(Range),
    TwoRanges(Range, Range),
    ThreeRanges(Range, Range, Range),
    FourRanges(Range, Range, Range, Range),
    FiveRanges(Range, Range, Range, Range, Range),
    SevenRanges(Range, Range, Range, Range, Range, Range, Range),
}

impl Ranges {
    /// Returns the ranges, which stand first in the array, and how many there are.
    fn list(self) -> ([(usize, usize); 7], usize)
        ensures ranges { take result.1 result.0 ≡ listed_ranges self }
        ensures few { result.1 ≤ 7 }
    {
        let none = NO_RANGE;
        match self {
            Ranges::NoRange => ([none, none, none, none, none, none, none], 0),
            Ranges::OneRange(a) => ([a, none, none, none, none, none, none], 1),
            Ranges::TwoRanges(a, b) => ([a, b, none, none, none, none, none], 2),
            Ranges::ThreeRanges(a, b, c) => ([a, b, c, none, none, none, none], 3),
            Ranges::FourRanges(a, b, c, d) => ([a, b, c, d, none, none, none], 4),
            Ranges::FiveRanges(a, b, c, d, e) => ([a, b, c, d, e, none, none], 5),
            Ranges::SevenRanges(a, b, c, d, e, f, g) => ([a, b, c, d, e, f, g], 7),
        }
    }
}

/// Identifiers in an order.
#[derive(Clone, Copy, Debug, PartialEq, Eq)]
pub(crate) enum Numbers {
    NoNumber,
    OneNumber([usize; 1]),
    ThreeNumbers([usize; 3]),
}

impl Numbers {
    /// Returns the identifiers.
    fn list(&self) -> &[usize]
        ensures { result.now ≡ listed_numbers self.now }
    {
        match self {
            Numbers::NoNumber => &[],
            Numbers::OneNumber(list) => list,
            Numbers::ThreeNumbers(list) => list,
        }
    }
}

/// A row of the table: an identifier, or several that have one row in the GS1 General
/// Specifications, as those of a measure, whose last digit is the place of the decimal point.
#[derive(Clone, Copy, Debug, PartialEq, Eq)]
pub(crate) struct Row {
    /// The first identifier, as a number.
    pub(crate) first: usize,
    /// The last identifier.
    pub(crate) last: usize,
    /// The components of the values.
    pub(crate) parts: Parts,
    /// Whether FNC1 follows an element that is not the last: its length is not predefined.
    pub(crate) fnc1: bool,
    /// Whether it is a primary key of links.
    pub(crate) key: bool,
    /// The qualifiers of the key in the order of the path.
    pub(crate) qualifiers: Numbers,
    /// Those that may stand there in their place.
    pub(crate) other_qualifiers: Numbers,
    /// One of these has to stand beside an element, if there are any.
    pub(crate) needs: Ranges,
    /// And one of these, if there are any.
    pub(crate) also_needs: Ranges,
    /// None of these may.
    pub(crate) excludes: Ranges,
}

/// Returns whether a row is that of an identifier.
fn is_row_of(number: usize, row: &Row) -> bool
    ensures { result ≡ is_row_of number row.now }
{
    row.first <= number && number <= row.last
}

/// Returns the place of the first of these rows that is that of an identifier.
fn place_in(rows: &[Row], number: usize) -> Option<usize>
    ensures { result ≡ position (is_row_of number) rows.now }
{
    rows.iter().position(|row| is_row_of(number, row))
}

/// Returns the first of these rows that is that of an identifier.
#[tactic(auto, using(crate::proofs::RowLemmas::found_at, crate::proofs::RowLemmas::found_nowhere))]
fn row_in<'a>(rows: &'a [Row], number: usize) -> Option<&'a Row>
    ensures some { IfSome result (λ row. find (is_row_of number) rows.now ≡ Some row.now) }
    ensures none { IfNone result (find (is_row_of number) rows.now ≡ None) }
{
    match place_in(rows, number) {
        Some(place) => Some(&rows[place]),
        None => None,
    }
}

/// Returns the row of an identifier, if it is assigned.
#[tactic(auto, unfolding(crate::specs::Table::row_of))]
fn row_of(number: usize) -> Option<&'static Row>
    ensures some { IfSome result (λ row. row_of number ≡ Some row.now) }
    ensures none { IfNone result (row_of number ≡ None) }
{
    row_in(&TABLE, number)
}

/// Returns the components of the values of an identifier, which stand first in the array, and how
/// many there are: none if it is not assigned.
#[tactic(auto, unfolding(crate::specs::Table::components))]
pub(crate) fn components(number: usize) -> ([Component; 5], usize)
    ensures parts { take result.1 result.0 ≡ components number }
    ensures few { result.1 ≤ 5 }
{
    match row_of(number) {
        Some(row) => row.parts.list(),
        None => ([NO_PART; 5], 0),
    }
}

/// Returns the ranges of identifiers of which one has to stand beside this one, if any, first in
/// the array, and how many there are.
#[tactic(auto, unfolding(crate::specs::Table::needed))]
pub(crate) fn needed(number: usize) -> ([(usize, usize); 7], usize)
    ensures ranges { take result.1 result.0 ≡ needed number }
    ensures few { result.1 ≤ 7 }
{
    match row_of(number) {
        Some(row) => row.needs.list(),
        None => ([NO_RANGE; 7], 0),
    }
}

/// Returns further ranges of identifiers of which one has to stand beside this one, if any.
#[tactic(auto, unfolding(crate::specs::Table::also_needed))]
pub(crate) fn also_needed(number: usize) -> ([(usize, usize); 7], usize)
    ensures ranges { take result.1 result.0 ≡ also_needed number }
    ensures few { result.1 ≤ 7 }
{
    match row_of(number) {
        Some(row) => row.also_needs.list(),
        None => ([NO_RANGE; 7], 0),
    }
}

/// Returns the ranges of identifiers that may not stand beside this one.
#[tactic(auto, unfolding(crate::specs::Table::barred))]
pub(crate) fn barred(number: usize) -> ([(usize, usize); 7], usize)
    ensures ranges { take result.1 result.0 ≡ barred number }
    ensures few { result.1 ≤ 7 }
{
    match row_of(number) {
        Some(row) => row.excludes.list(),
        None => ([NO_RANGE; 7], 0),
    }
}

/// Returns the ranges of the primary keys of links.
pub fn keys() -> &'static [(usize, usize)]
    ensures { result.now ≡ primary_keys }
{
    &KEYS
}

/// Returns the qualifiers of a key in the order of the path of a link, of the first set or of the
/// second one, which some keys have.
#[tactic(auto, unfolding(crate::specs::Table::qualifiers_of))]
pub fn qualifiers(number: usize, second: bool) -> &'static [usize]
    ensures { result.now ≡ qualifiers_of number second }
{
    match row_of(number) {
        Some(row) if second => row.other_qualifiers.list(),
        Some(row) => row.qualifiers.list(),
        None => &[],
    }
}
