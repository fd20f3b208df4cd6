//! Elements by the table of identifiers.
ghost use Rattle.std.specs.Prelude.{◌≡◌, ◌==◌, ◌<◌, ◌^◌, length, position, not};
ghost use Rattle.std.specs.Option.{option_or};
ghost use Rattle.gs1.specs.Checks.{fault_if};
ghost use Rattle.gs1.specs.Table.{components};
ghost use Rattle.std.specs.Result.{result_err};
ghost use Rattle.gs1.specs.Values.{is_allowed, wrong_character, check_fault, piece_fault};
ghost use Rattle.gs1.specs.Values.{value_fault, number_of_identifier, is_assigned, identifier_error};
ghost use Rattle.gs1.specs.Values.{value_error, element_error, first_error, text_error};
ghost use Rattle.gs1.specs.Elements.{element_of, elements_behind};

use crate::check::is_identifier;
use crate::checks::{
    check_coordinate, check_country, check_country_or_any, check_currency, check_escapes,
    check_flag, check_importer, check_key, check_leading_zero, check_letters, check_media,
    check_minus, check_nonzero, check_padding, check_piece_count, check_sequence, check_sex,
    check_winding, check_zero,
};
use crate::coupons::check_coupon;
use crate::dates::{
    check_date, check_hour, check_hour_minute, check_long_date, check_minute, check_second,
    decimal_at, two_digits,
};
use crate::identifiers::{identifier_length, is_of_82};
use crate::keys::{check_digit, check_iban, check_model};
use crate::reason::{Fault, Reason, fault_if};
use crate::refusal::CheckError;
use crate::table::{Characters, Check, Component, components};
use gs1_base::cuts::{behind, first_of};

/// Returns whether a component may have a character.
fn is_allowed(characters: Characters, c: u8) -> bool
    ensures { result ≡ is_allowed characters c }
{
    match characters {
        Characters::Digits => matches!(c, b'0'..=b'9'),
        Characters::Set82 => is_of_82(c),
        Characters::Set39 => matches!(c, b'#' | b'0'..=b'9' | b'A'..=b'Z' | b'-' | b'/'),
        Characters::Base64 => {
            matches!(c, b'0'..=b'9' | b'A'..=b'Z' | b'a'..=b'z' | b'-' | b'=' | b'_')
        }
        Characters::Capitals => matches!(c, b'0'..=b'9' | b'A'..=b'Z'),
    }
}

/// Returns the position of the first character that a component may not have.
fn first_wrong(characters: Characters, piece: &[u8]) -> Option<usize>
    ensures { result ≡ position (λ c. not (is_allowed characters c)) piece.now }
{
    piece.iter().position(|c| !is_allowed(characters, *c))
}

/// Checks the characters of a piece.
fn check_characters(characters: Characters, place: usize, piece: &[u8]) -> Result<(), Fault>
    requires { place < 2 ^ 63 }
    ensures { result_err result ≡ wrong_character characters place piece.now }
{
    match first_wrong(characters, piece) {
        Some(at) => Err(Fault {
            place: place + at,
            reason: Reason::WrongCharacter { byte: piece[at] },
        }),
        None => Ok(()),
    }
}

/// Checks what a piece has to satisfy.
fn check(check: Check, place: usize, piece: &[u8]) -> Result<(), Fault>
    requires place { place < 2 ^ 63 }
    requires few { length piece.now < 2 ^ 16 }
    ensures { result_err result ≡ check_fault check place piece.now }
{
    match check {
        Check::Nothing => Ok(()),
        Check::CheckDigit => check_digit(place, piece),
        Check::Key => check_key(place, piece),
        Check::Model => check_model(place, piece),
        Check::Date => check_date(0, place, piece),
        Check::Day => check_date(1, place, piece),
        Check::LongDay => check_long_date(place, piece),
        Check::Hour => check_hour(place, piece),
        Check::HourMinute => check_hour_minute(place, piece),
        Check::Minute => check_minute(place, piece),
        Check::Second => check_second(place, piece),
        Check::Country => check_country(place, piece),
        Check::CountryOrAny => check_country_or_any(place, piece),
        Check::CountryLetters => check_letters(place, piece),
        Check::Currency => check_currency(place, piece),
        Check::Flag => check_flag(place, piece),
        Check::Piece => check_piece_count(place, piece),
        Check::Winding => check_winding(place, piece),
        Check::Zero => check_zero(place, piece),
        Check::Nonzero => check_nonzero(place, piece),
        Check::NoLeadingZero => check_leading_zero(place, piece),
        Check::Escapes => check_escapes(place, piece),
        Check::Padding => check_padding(place, piece),
        Check::Latitude => check_coordinate(18, Reason::WrongLatitude, place, piece),
        Check::Longitude => check_coordinate(36, Reason::WrongLongitude, place, piece),
        Check::Hyphen => check_minus(place, piece),
        Check::Media => check_media(place, piece),
        Check::Sex => check_sex(place, piece),
        Check::Sequence => check_sequence(place, piece),
        Check::Iban => check_iban(place, piece),
        Check::Importer => check_importer(place, piece),
        Check::Coupon(is_coupon) => check_coupon(is_coupon, place, piece),
    }
}

/// Checks the piece of a value that a component takes.
#[tactic(auto, unfolding(crate::specs::Values::piece_fault))]
fn check_piece(component: Component, place: usize, piece: &[u8]) -> Result<(), Fault>
    requires place { place < 2 ^ 63 }
    requires few { length piece.now < 2 ^ 16 }
    ensures { result_err result ≡ piece_fault component place piece.now }
{
    if component.is_optional() && piece.is_empty() {
        return Ok(());
    }
    let is_short = piece.len() < component.least();
    fault_if(is_short, place + piece.len(), Reason::TooShort)?;
    check_characters(component.characters(), place, piece)?;
    check(component.check(), place, piece)
}

/// Checks a value by its components.
fn check_value(components: &[Component], value: &[u8]) -> Result<(), Fault>
    ensures { result_err result ≡ value_fault components.now 0 value.now }
{
    let mut rest = value;
    let mut place = 0;
    for component in components {
        let end = component.greatest().min(rest.len());
        check_piece(*component, place, &rest[..end])?;
        rest = &rest[end..];
        place += end;
    }
    fault_if(!rest.is_empty(), place, Reason::TooLong)
}

/// Returns the number that the digits of an identifier write.
pub fn number_of(identifier: &[u8]) -> usize
    ensures { result ≡ number_of_identifier identifier.now }
{
    match identifier.len() {
        2 => two_digits(identifier, 0),
        3 => 10 * two_digits(identifier, 0) + decimal_at(identifier, 2),
        _ => 100 * two_digits(identifier, 0) + two_digits(identifier, 2),
    }
}

/// Checks an identifier, and returns the components of its values.
#[tactic(auto, unfolding(crate::specs::Values::identifier_error))]
fn check_identifier(element: usize, identifier: &[u8]) -> Result<(), CheckError>
    ensures { result_err result ≡ identifier_error element identifier.now }
{
    if !is_identifier(identifier) {
        return Err(CheckError::InvalidIdentifier { element });
    }
    if is_assigned(identifier) {
        return Ok(());
    }
    let identifier = number_of(identifier);
    Err(CheckError::UnknownIdentifier {
        element,
        identifier,
    })
}

/// Returns whether an identifier of digits is assigned.
fn is_assigned(identifier: &[u8]) -> bool
    ensures { result ≡ is_assigned identifier.now }
{
    let (components, count) = components(number_of(identifier));
    identifier_length(identifier).unwrap_or(0) == identifier.len()
        && !components[..count].is_empty()
}

/// Checks a value, of at least one character, of the identifier of this number.
fn check_some_value(identifier: usize, value: &[u8]) -> Result<(), Fault>
    ensures { result_err result ≡ option_or (fault_if (length value.now == 0) 0 Reason.TooShort)
        (value_fault (components identifier) 0 value.now) }
{
    fault_if(value.is_empty(), 0, Reason::TooShort)?;
    let (components, count) = components(identifier);
    check_value(&components[..count], value)
}

/// Checks the value of an identifier.
#[tactic(auto, unfolding(crate::specs::Values::value_error))]
fn check_value_of(element: usize, identifier: &[u8], value: &[u8]) -> Result<(), CheckError>
    ensures { result_err result ≡ value_error element identifier.now value.now }
{
    let identifier = number_of(identifier);
    match check_some_value(identifier, value) {
        Ok(()) => Ok(()),
        Err(fault) => Err(CheckError::WrongValue {
            element,
            identifier,
            place: fault.place,
            reason: fault.reason,
        }),
    }
}

/// Checks an element of this identifier and value.
#[tactic(auto, unfolding(crate::specs::Values::element_error))]
pub fn check_element(element: usize, identifier: &[u8], value: &[u8]) -> Result<(), CheckError>
    ensures { result_err result
        ≡ element_error element (record { identifier = identifier.now; value = value.now }) }
{
    check_identifier(element, identifier)?;
    check_value_of(element, identifier, value)
}

/// Checks the element that is written between two opening brackets.
fn check_part(element: usize, part: &[u8]) -> Result<(), CheckError>
    ensures { result_err result ≡ element_error element (element_of part.now) }
{
    let close = first_of(part, b')');
    check_element(element, &part[..close], behind(part, close))
}

/// Checks the elements that are written behind a first opening bracket.
#[tactic(auto, using(crate::proofs::Errors::error_last))]
fn check_elements(text: &[u8]) -> Result<(), CheckError>
    ensures { result_err result ≡ first_error 0 (elements_behind text.now) }
{
    let mut rest = text;
    let mut element = 0;
    loop {
        let end = first_of(rest, b'(');
        let part = &rest[..end];
        check_part(element, part)?;
        if end == rest.len() {
            return Ok(());
        }
        rest = behind(rest, end);
        element += 1;
    }
}

/// Checks a text.
pub fn check_text(text: &[u8]) -> Result<(), CheckError>
    ensures { result_err result ≡ text_error text.now }
{
    if first_of(text, b'(') != 0 || text.is_empty() {
        return Err(CheckError::NoElements);
    }
    check_elements(behind(text, 0))
}
