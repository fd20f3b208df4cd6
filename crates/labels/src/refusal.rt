//! Why the table of identifiers does not allow GS1 elements, or why there is no link of them, as a
//! line on standard error.
ghost use Rattle.std.specs.Prelude.{◌≡◌, IsFalse};
ghost use Rattle.gs1_links.specs.declared.link_error.LinkError.TheVariants.{SecondKey};
ghost use Rattle.gs1.specs.declared.refusal.CheckError.TheVariants.{InvalidIdentifier, WrongValue};
ghost use Rattle.gs1.specs.declared.together.TogetherError.TheVariants.{ConflictingElement};
ghost use Rattle.programs.specs.Devices.{output, Writes};
ghost use Rattle.labels.specs.Refusals.{refusal_line, opening_text, value_reason_text};
ghost use Rattle.labels.specs.Refusals.{right_bytes, would_be_text};
ghost use Rattle.labels.specs.Refusals.{element_fault_line, no_link_line, apart_line};

use crate::pieces::{NO_ELEMENTS, PAIR_WOULD_BE, WOULD_BE, letter_text};
use gs1::{CheckError, Reason, TogetherError};
use gs1_links::LinkError;
use itoa::Buffer;
use programs::{Fault, Sink, write_line};

/// What is wrong with an element, after its number.
const UNKNOWN: &str = ": unknown identifier";

const NO_QUALIFIER: &str = ": may not stand beside another qualifier of the link's key";

const REPEATED: &str = ": the identifier stands once more after it";

const MISSING: &str = ": an element that has to stand beside it is missing";

/// What is wrong with a text of elements.
const LONG_TEXT: &str = "more than 11815 bytes of elements";

/// What is wrong with a domain, or with all elements.
const WRONG_DOMAIN: &str = "the domain of a link is a host name, or with a port or a path";

const NO_KEY: &str = "no element is the key of a link, as (01), (00) or (414) are";

/// Writes the line of elements that the table does not allow: the element by its identifier and its
/// number, the character of its value, both counted from 1, what is wrong, and what would be right.
#[tactic(auto, unfolding(crate::specs::Refusals::refusal_line))]
pub fn write_refusal<E: Sink>(errors: &mut E, name: &str, error: CheckError) -> Result<(), Fault>
    requires { IsFalse (E.state errors.old).failed }
    ensures { Writes (output (E.state errors.old) (E.state errors.new))
        (refusal_line name.now error) }
{
    match error {
        CheckError::NoElements => write_line(errors, name, &[NO_ELEMENTS]),
        CheckError::InvalidIdentifier { element } => write_invalid(errors, name, element),
        CheckError::UnknownIdentifier {
            element,
            identifier,
        } => write_element_line(errors, name, (element, identifier), UNKNOWN),
        CheckError::WrongValue {
            element,
            identifier,
            place,
            reason,
        } => write_value(errors, name, (element, identifier, place), reason),
        CheckError::OutOfMemory => write_line(errors, name, &["out of memory"]),
    }
}

/// Writes the line of an element whose identifier is none.
#[tactic(auto, unfolding(crate::specs::Refusals::refusal_line))]
fn write_invalid<E: Sink>(errors: &mut E, name: &str, element: usize) -> Result<(), Fault>
    requires { IsFalse (E.state errors.old).failed }
    ensures { Writes (output (E.state errors.old) (E.state errors.new))
        (refusal_line name.now (InvalidIdentifier element)) }
{
    let mut buffer = Buffer::new();
    let number = buffer.format(element.saturating_add(1));
    let text = ": the identifier is cut short, or not two to four digits";
    write_line(errors, name, &["element ", number, text])
}

/// Writes the line of an element by its identifier and its number, and what is wrong with it.
fn write_element_line<E: Sink>(
    errors: &mut E,
    name: &str,
    at: (usize, usize),
    text: &'static str,
) -> Result<(), Fault>
    requires { IsFalse (E.state errors.old).failed }
    ensures { Writes (output (E.state errors.old) (E.state errors.new))
        (element_fault_line name.now at.0 at.1 text.now) }
{
    let (element, identifier) = at;
    let (mut digits, mut number) = (Buffer::new(), Buffer::new());
    write_line(
        errors,
        name,
        &[
            opening_text(identifier),
            digits.format(identifier),
            "), element ",
            number.format(element.saturating_add(1)),
            text,
        ],
    )
}

/// Writes the line of elements of which there is no link.
#[tactic(auto, unfolding(crate::specs::Refusals::no_link_line))]
pub fn write_no_link<E: Sink>(errors: &mut E, name: &str, error: LinkError) -> Result<(), Fault>
    requires { IsFalse (E.state errors.old).failed }
    ensures { Writes (output (E.state errors.old) (E.state errors.new))
        (no_link_line name.now error) }
{
    match error {
        LinkError::TextTooLong => write_line(errors, name, &[LONG_TEXT]),
        LinkError::Elements(error) => write_refusal(errors, name, error),
        LinkError::WrongDomain => write_line(errors, name, &[WRONG_DOMAIN]),
        LinkError::NoKey => write_line(errors, name, &[NO_KEY]),
        LinkError::SecondKey { element } => write_second_key(errors, name, element),
        LinkError::WrongQualifier {
            element,
            identifier,
        } => write_element_line(errors, name, (element, identifier), NO_QUALIFIER),
        LinkError::RepeatedElement {
            element,
            identifier,
        } => write_element_line(errors, name, (element, identifier), REPEATED),
        LinkError::Together(error) => write_apart(errors, name, error),
        LinkError::OutOfMemory => write_line(errors, name, &["out of memory"]),
    }
}

/// Writes the line of elements that may not stand together.
fn write_apart<E: Sink>(errors: &mut E, name: &str, error: TogetherError) -> Result<(), Fault>
    requires { IsFalse (E.state errors.old).failed }
    ensures { Writes (output (E.state errors.old) (E.state errors.new))
        (apart_line name.now error) }
{
    match error {
        TogetherError::TextTooLong => write_line(errors, name, &[LONG_TEXT]),
        TogetherError::MissingElement {
            element,
            identifier,
        } => write_element_line(errors, name, (element, identifier), MISSING),
        TogetherError::ConflictingElement {
            element,
            identifier,
            other,
        } => write_conflict(errors, name, (element, identifier), other),
    }
}

/// Writes the line of an element beside which another one may not stand.
fn write_conflict<E: Sink>(
    errors: &mut E,
    name: &str,
    at: (usize, usize),
    other: usize,
) -> Result<(), Fault>
    requires { IsFalse (E.state errors.old).failed }
    ensures { Writes (output (E.state errors.old) (E.state errors.new))
        (apart_line name.now (ConflictingElement at.0 at.1 other)) }
{
    let (element, identifier) = at;
    let (mut digits, mut number, mut last) = (Buffer::new(), Buffer::new(), Buffer::new());
    write_line(
        errors,
        name,
        &[
            opening_text(identifier),
            digits.format(identifier),
            "), element ",
            number.format(element.saturating_add(1)),
            ": element ",
            last.format(other.saturating_add(1)),
            " may not stand beside it",
        ],
    )
}

/// Writes the line of a key after which there is another.
#[tactic(auto, unfolding(crate::specs::Refusals::no_link_line))]
fn write_second_key<E: Sink>(errors: &mut E, name: &str, element: usize) -> Result<(), Fault>
    requires { IsFalse (E.state errors.old).failed }
    ensures { Writes (output (E.state errors.old) (E.state errors.new))
        (no_link_line name.now (SecondKey element)) }
{
    let mut buffer = Buffer::new();
    let number = buffer.format(element.saturating_add(1));
    let text = ": a link has one key, and there is another after this one";
    write_line(errors, name, &["element ", number, text])
}

/// Writes the line of the element of a number and an identifier that has a fault at a place of
/// its value.
fn write_value<E: Sink>(
    errors: &mut E,
    name: &str,
    at: (usize, usize, usize),
    reason: Reason,
) -> Result<(), Fault>
    requires { IsFalse (E.state errors.old).failed }
    ensures { Writes (output (E.state errors.old) (E.state errors.new))
        (refusal_line name.now (WrongValue at.0 at.1 at.2 reason)) }
{
    let (element, identifier, place) = at;
    let (mut digits, mut number, mut character) = (Buffer::new(), Buffer::new(), Buffer::new());
    let (first, second) = right_bytes(reason);
    write_line(
        errors,
        name,
        &[
            opening_text(identifier),
            digits.format(identifier),
            "), element ",
            number.format(element.saturating_add(1)),
            ", character ",
            character.format(place.saturating_add(1)),
            ": ",
            reason_text(reason),
            would_be_text(reason),
            letter_text(first),
            letter_text(second),
        ],
    )
}

/// Returns what stands before the number of an identifier, which has two digits at least.
fn opening_text(identifier: usize) -> &'static str
    ensures { result.now ≡ opening_text identifier }
{
    if identifier < 10 { "(0" } else { "(" }
}

/// Returns what stands before the check digit or the pair of check characters that would be right.
fn would_be_text(reason: Reason) -> &'static str
    ensures { result.now ≡ would_be_text reason }
{
    match reason {
        Reason::WrongCheckDigit { .. } => WOULD_BE,
        Reason::WrongCheckPair { .. } => PAIR_WOULD_BE,
        _ => "",
    }
}

/// Returns the check digit or the pair of check characters in ASCII, and 0 for what it has not.
fn right_bytes(reason: Reason) -> (u8, u8)
    ensures { result ≡ right_bytes reason }
{
    match reason {
        Reason::WrongCheckDigit { right } if right < 10 => (b'0' + right, 0),
        Reason::WrongCheckPair { first, second } => (first, second),
        _ => (0, 0),
    }
}

/// Returns what is wrong with a value.
fn reason_text(reason: Reason) -> &'static str
    ensures { result.now ≡ value_reason_text reason }
{
    match reason {
        Reason::TooShort => "the value is too short",
        Reason::TooLong => "the value is too long",
        Reason::WrongCharacter { .. } => "a character that is not allowed there",
        Reason::WrongCheckDigit { .. } => "wrong check digit",
        Reason::WrongCheckPair { .. } => "wrong pair of check characters",
        Reason::NoCompanyPrefix => "the key begins with no GS1 Company Prefix",
        Reason::WrongMonth => "no such month",
        Reason::WrongDay => "no such day",
        Reason::WrongHour => "no such hour",
        Reason::WrongMinute => "no such minute",
        Reason::WrongSecond => "no such second",
        Reason::WrongCountry => "no such country",
        Reason::WrongCurrency => "no such currency",
        Reason::WrongFlag => "neither 0 nor 1",
        Reason::WrongPiece => "no piece of this total",
        Reason::WrongWinding => "no direction of winding",
        Reason::NoZero => "not zero",
        Reason::OnlyZeros => "only zeros",
        Reason::LeadingZero => "a zero before other digits",
        Reason::WrongEscape => "a percent sign without two hexadecimal digits",
        Reason::WrongLatitude => "no such latitude",
        Reason::WrongLongitude => "no such longitude",
        Reason::NoMinus => "not a minus sign",
        Reason::WrongMedia => "no such media type",
        Reason::WrongSex => "no such sex",
        Reason::WrongSequence => "no place in a sequence",
        Reason::WrongIban => "wrong bank account number",
        Reason::WrongImporter => "no importer index",
    }
}
