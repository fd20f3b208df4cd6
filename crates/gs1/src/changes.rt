//! Whether an identifier that stands more than once has one value.
ghost use Rattle.std.specs.Prelude.{◌≡◌, ◌≤◌, ◌<◌, ◌^◌, length, IfSome};
ghost use Rattle.std.specs.Result.{result_err};
ghost use Rattle.gs1.specs.Elements.{element_of, elements_behind};
ghost use Rattle.gs1.specs.Together.{is_change, change_among, change_fault, first_change};

use crate::strings::element_of;
use crate::together::{TogetherError, number_at};
use gs1_base::cuts::{behind, first_of};

/// Returns whether a second element has the identifier of the first and another value, both as
/// they are written between two opening brackets.
fn is_change(first: &[u8], second: &[u8]) -> bool
    ensures { result ≡ is_change (element_of first.now) (element_of second.now) }
{
    let first = element_of(first);
    let second = element_of(second);
    second.identifier == first.identifier && second.value != first.value
}

/// Returns the number of the first element of a text that has the identifier of this one and
/// another value.
fn change_among(part: &[u8], text: &[u8]) -> Option<usize>
    ensures first { result ≡ change_among (element_of part.now) 0 (elements_behind text.now) }
    ensures within { IfSome result (λ place. place ≤ length text.now) }
{
    let mut rest = text;
    let mut element = 0;
    loop {
        let end = first_of(rest, b'(');
        if is_change(part, &rest[..end]) {
            return Some(element);
        }
        if end == rest.len() {
            return None;
        }
        rest = behind(rest, end);
        element += 1;
    }
}

/// Checks that the identifier of an element doesn't stand later with another value.
#[tactic(auto, unfolding(crate::specs::Together::change_fault))]
fn check_change(element: usize, part: &[u8], later: &[u8]) -> Result<(), TogetherError>
    requires { element < 2 ^ 63 }
    ensures { result_err result
        ≡ change_fault element (element_of part.now) (elements_behind later.now) }
{
    match change_among(part, later) {
        Some(place) => Err(TogetherError::ConflictingElement {
            element,
            identifier: number_at(part),
            other: element + 1 + place,
        }),
        None => Ok(()),
    }
}

/// Checks that no identifier of the elements that are written behind a first opening bracket stands
/// there with two values.
#[tactic(auto, using(crate::proofs::ValueChanges::change_last))]
pub(crate) fn check_changes(text: &[u8]) -> Result<(), TogetherError>
    ensures { result_err result ≡ first_change 0 (elements_behind text.now) }
{
    let mut rest = text;
    let mut element = 0;
    loop {
        let end = first_of(rest, b'(');
        if end == rest.len() {
            return Ok(());
        }
        let later = behind(rest, end);
        check_change(element, &rest[..end], later)?;
        rest = later;
        element += 1;
    }
}
