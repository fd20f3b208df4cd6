//! Which elements have to stand together, and which may not.
ghost use Rattle.std.specs.Prelude.{◌≡◌, ◌+◌};
ghost use Rattle.std.specs.Result.{result_err};
ghost use Rattle.gs1.specs.Elements.{element_of, elements_behind};
ghost use Rattle.gs1.specs.Values.{number_of_identifier};
ghost use Rattle.gs1.specs.Together.{is_among, first_among, point_fault};
ghost use Rattle.gs1.specs.Together.{missing_fault, barred_fault, element_conflict};
ghost use Rattle.gs1.specs.Together.{first_conflict, text_conflict};

use crate::changes::check_changes;
use crate::table::{also_needed, barred, needed};
use crate::values::number_of;
use gs1_base::cuts::{behind, first_of};
use thiserror::Error;

/// The most bytes that write elements which a symbol holds: 7089 digits, in elements of three,
/// each with two brackets.
pub const LONGEST_TEXT: usize = 11815;

/// Why elements may not stand together. Elements are counted from 0; `identifier` is the number
/// that the digits of the identifier write.
#[derive(Clone, Copy, Debug, PartialEq, Eq, Error)]
pub enum TogetherError {
    /// The text has more than 11815 bytes, which no symbol holds.
    #[error("the text has more than 11815 bytes")]
    TextTooLong,
    /// An element that has to stand beside this one is missing.
    #[error("element {element} ({identifier:02}): an element that it needs is missing")]
    MissingElement {
        element: usize,
        identifier: usize,
    },
    /// Another element may not stand beside this one.
    #[error("element {element} ({identifier:02}): element {other} may not stand beside it")]
    ConflictingElement {
        element: usize,
        identifier: usize,
        other: usize,
    },
}

/// Returns whether a number is in one of the ranges.
pub fn is_among(ranges: &[(usize, usize)], number: usize) -> bool
    ensures { result ≡ is_among ranges.now number }
{
    ranges
        .iter()
        .any(|range| range.0 <= number && number <= range.1)
}

/// Returns the first of the elements, written behind a first opening bracket, whose identifier is
/// in one of the ranges.
pub fn first_among(ranges: &[(usize, usize)], text: &[u8]) -> Option<usize>
    ensures { result ≡ first_among ranges.now 0 (elements_behind text.now) }
{
    let mut rest = text;
    let mut element = 0;
    loop {
        let end = first_of(rest, b'(');
        let part = &rest[..end];
        if has_among(ranges, part) {
            return Some(element);
        }
        if end == rest.len() {
            return None;
        }
        rest = behind(rest, end);
        element += 1;
    }
}

/// Elements, the first of which in ranges of identifiers can be found.
pub trait ElementList {
    ghost use Rattle.std.specs.Prelude.{List};
    ghost use Rattle.gs1.specs.Elements.{Element as SpecElement};

    ghost elements: { Self → List SpecElement };

    /// Returns the number of the first element whose identifier is in one of the ranges.
    fn first_among(&self, ranges: &[(usize, usize)]) -> Option<usize>
        ensures { result ≡ first_among ranges.now 0 (elements self.now) };
}

/// The elements that are written behind a first opening bracket.
#[derive(Clone, Copy)]
struct WrittenBehind<'a>(&'a [u8]);

impl<'a> ElementList for WrittenBehind<'a> {
    ghost elements = { λ text. elements_behind text.0.now };

    fn first_among(&self, ranges: &[(usize, usize)]) -> Option<usize> {
        first_among(ranges, self.0)
    }
}

/// Returns the number of the identifier of an element that is written between opening brackets.
pub fn number_at(part: &[u8]) -> usize
    ensures { result ≡ number_of_identifier (element_of part.now).identifier }
{
    number_of(&part[..first_of(part, b')')])
}

/// Returns whether the identifier of such an element is in one of the ranges.
fn has_among(ranges: &[(usize, usize)], part: &[u8]) -> bool
    ensures { result ≡ is_among ranges.now (number_of_identifier (element_of part.now).identifier) }
{
    is_among(ranges, number_at(part))
}

/// Checks that an element of these ranges, if there are any, is among all.
fn check_needed<E: ElementList>(
    ranges: &[(usize, usize)],
    all: &E,
    element: usize,
    identifier: usize,
) -> Result<(), TogetherError>
    ensures { result_err result
        ≡ missing_fault ranges.now (E.elements all.now) element identifier }
{
    if ranges.is_empty() || all.first_among(ranges).is_some() {
        return Ok(());
    }
    Err(TogetherError::MissingElement {
        element,
        identifier,
    })
}

/// Checks that no element of these ranges is among all.
fn check_barred<E: ElementList>(
    ranges: &[(usize, usize)],
    all: &E,
    element: usize,
    identifier: usize,
) -> Result<(), TogetherError>
    ensures { result_err result
        ≡ barred_fault ranges.now (E.elements all.now) element identifier }
{
    match all.first_among(ranges) {
        Some(other) => Err(TogetherError::ConflictingElement {
            element,
            identifier,
            other,
        }),
        None => Ok(()),
    }
}

/// Checks that the same measure, amount or price is not there with its decimal point elsewhere.
#[tactic(auto, unfolding(crate::specs::Together::point_fault))]
fn check_point<E: ElementList>(
    all: &E,
    element: usize,
    identifier: usize,
) -> Result<(), TogetherError>
    ensures { result_err result ≡ point_fault (E.elements all.now) element identifier }
{
    if !matches!(identifier, 3100..=3699 | 3900..=3959) {
        return Ok(());
    }
    let first = 10 * (identifier / 10);
    let elsewhere = [(first, identifier - 1), (identifier + 1, first + 9)];
    check_barred(&elsewhere, all, element, identifier)
}

/// Checks what has to stand, and what may not stand, beside an element of this identifier.
pub fn check_beside<E: ElementList>(
    all: &E,
    element: usize,
    identifier: usize,
) -> Result<(), TogetherError>
    ensures { result_err result ≡ element_conflict (E.elements all.now) element identifier }
{
    let (needs, count) = needed(identifier);
    check_needed(&needs[..count], all, element, identifier)?;
    let (needs, count) = also_needed(identifier);
    check_needed(&needs[..count], all, element, identifier)?;
    let (excludes, count) = barred(identifier);
    check_barred(&excludes[..count], all, element, identifier)?;
    check_point(all, element, identifier)
}

/// Checks what has to stand, and what may not stand, beside an element of a text.
fn check_part(text: &[u8], element: usize, part: &[u8]) -> Result<(), TogetherError>
    ensures { result_err result ≡ element_conflict (elements_behind text.now) element
        (number_of_identifier (element_of part.now).identifier) }
{
    check_beside(&WrittenBehind(text), element, number_at(part))
}

/// Checks the elements that are written behind a first opening bracket.
#[tactic(auto, using(crate::proofs::Conflicts::conflict_last))]
pub fn check_all(text: &[u8]) -> Result<(), TogetherError>
    ensures { result_err result
        ≡ first_conflict (elements_behind text.now) 0 (elements_behind text.now) }
{
    let mut rest = text;
    let mut element = 0;
    loop {
        let end = first_of(rest, b'(');
        let part = &rest[..end];
        check_part(text, element, part)?;
        if end == rest.len() {
            return Ok(());
        }
        rest = behind(rest, end);
        element += 1;
    }
}

/// Checks which elements of a text such as `(02)09506000134352(37)20(00)106141412345678908` stand
/// together: beside each stand those that it needs, and none that it excludes (GS1 General
/// Specifications, release 25 of 2025, "Mandatory associations" and "Invalid pairs"). The text is
/// cut as `written_element` does; identifiers that are not assigned need and exclude none. An
/// identifier that stands more than once has one value.
///
/// # Errors
///
/// `TextTooLong` if the text has more than 11815 bytes. Else the first fault of the first element
/// that has one: `MissingElement` if none of those that it needs is there, and
/// `ConflictingElement`, with the number of the first that it excludes. Else `ConflictingElement`
/// for the first element whose identifier stands once more after it with another value, with the
/// number of the first such element.
pub fn check_together(text: &str) -> Result<(), TogetherError>
    ensures { result_err result ≡ text_conflict text.now }
{
    let text = text.as_bytes();
    if LONGEST_TEXT < text.len() {
        return Err(TogetherError::TextTooLong);
    }
    check_all(behind(text, 0))?;
    check_changes(behind(text, 0))
}
