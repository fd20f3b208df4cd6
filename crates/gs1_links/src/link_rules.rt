//! Which elements a link may have, and where they stand in it.
ghost use Rattle.std.specs.Prelude.{◌≡◌, ◌&&◌, not, None, Some, IfNone, IfSome, is_some};
ghost use Rattle.std.specs.Result.{result_err};
ghost use Rattle.gs1.specs.Elements.{element_of, elements_behind, written_elements};
ghost use Rattle.gs1_links.specs.Links.{keys, order_of, place_with, element_with};
ghost use Rattle.gs1_links.specs.Links.{primary_key, key_number, has_second, qualifier_order};
ghost use Rattle.gs1_links.specs.Links.{excluded_qualifiers, qualifies, qualifier_fault, second_key_fault, repeated_fault};
ghost use Rattle.gs1_links.specs.Links.{later_fault, first_rule_fault, no_key_fault, elements_fault};
ghost use Rattle.gs1_links.specs.Links.{is_attribute};
ghost use Rattle.gs1.specs.Together.{is_among};

use crate::link_error::LinkError;
use gs1::strings::{Element, written_element};
use gs1::table::{keys, qualifiers};
use gs1::together::{first_among, is_among, number_at};
use gs1::values::number_of;
use gs1_base::cuts::{behind, first_of};

/// Returns whether an identifier is a primary key.
pub(crate) fn is_key(number: usize) -> bool
    ensures { result ≡ is_among keys number }
{
    is_among(keys(), number)
}

/// Returns whether an identifier qualifies a key.
fn qualifies(key: usize, number: usize) -> bool
    ensures { result ≡ qualifies key number }
{
    order_of(key, false).contains(&number) || order_of(key, true).contains(&number)
}

/// Returns whether an identifier is no primary key and does not qualify this one.
pub(crate) fn is_attribute_number(key: usize, number: usize) -> bool
    ensures { result ≡ (not (is_among keys number) && not (qualifies key number)) }
{
    !is_key(number) && !qualifies(key, number)
}

/// Returns whether an element that is written between opening brackets stands in the query.
pub(crate) fn is_attribute(key: usize, part: &[u8]) -> bool
    ensures { result ≡ is_attribute key (element_of part.now) }
{
    is_attribute_number(key, number_at(part))
}

/// Returns the qualifiers of a key in the order of the path, of the first or of the second set.
pub(crate) fn order_of(key: usize, second: bool) -> &'static [usize]
    ensures { result.now ≡ order_of key second }
{
    qualifiers(key, second)
}

/// Returns the first element of a text with this identifier.
pub(crate) fn element_with<'a>(number: usize, text: &'a [u8]) -> Option<Element<'a>>
    ensures some { IfSome result (λ e. element_with number (written_elements text.now)
        ≡ Some (record { identifier = e.identifier.now; value = e.value.now })) }
    ensures none { IfNone result (element_with number (written_elements text.now) ≡ None) }
{
    let place = first_among(&[(number, number)], behind(text, 0))?;
    written_element(text, place)
}

/// Returns the first primary key of a text.
pub(crate) fn primary_key<'a>(text: &'a [u8]) -> Option<Element<'a>>
    ensures some { IfSome result (λ e. primary_key (written_elements text.now)
        ≡ Some (record { identifier = e.identifier.now; value = e.value.now })) }
    ensures none { IfNone result (primary_key (written_elements text.now) ≡ None) }
{
    let place = first_among(keys(), behind(text, 0))?;
    written_element(text, place)
}

/// Returns the number of the identifier of the first primary key, or 0.
pub(crate) fn key_number(text: &[u8]) -> usize
    ensures { result ≡ key_number (written_elements text.now) }
{
    match primary_key(text) {
        Some(key) => number_of(key.identifier),
        None => 0,
    }
}

/// Returns whether a text has an element with this identifier.
fn has_number(number: usize, text: &[u8]) -> bool
    ensures { result ≡ is_some (place_with number (written_elements text.now)) }
{
    first_among(&[(number, number)], behind(text, 0)).is_some()
}

/// Returns whether a text has a qualifier of the second set of a key.
fn has_second(key: usize, text: &[u8]) -> bool
    ensures { result ≡ has_second (written_elements text.now) key }
{
    order_of(key, true)
        .iter()
        .any(|number| has_number(*number, text))
}

/// Returns the qualifiers that may stand in the link of a text, in their order.
pub(crate) fn qualifier_order(text: &[u8]) -> &'static [usize]
    ensures { result.now ≡ qualifier_order (written_elements text.now) }
{
    let key = key_number(text);
    order_of(key, has_second(key, text))
}

/// Returns the qualifiers of the key of a text that may not stand in its link.
fn excluded_qualifiers(text: &[u8]) -> &'static [usize]
    ensures { result.now ≡ excluded_qualifiers (written_elements text.now) }
{
    let key = key_number(text);
    order_of(key, !has_second(key, text))
}

/// Checks that an element is none of the qualifiers that a link has not.
#[tactic(auto, unfolding(crate::specs::Links::qualifier_fault))]
fn check_qualifier(excluded: &[usize], element: usize, identifier: usize) -> Result<(), LinkError>
    ensures { result_err result ≡ qualifier_fault excluded.now element identifier }
{
    if excluded.contains(&identifier) {
        return Err(LinkError::WrongQualifier {
            element,
            identifier,
        });
    }
    Ok(())
}

/// Checks that no second key, and no element with the same identifier, is among those later.
#[tactic(auto, unfolding(crate::specs::Links::second_key_fault, crate::specs::Links::repeated_fault))]
fn check_later(element: usize, identifier: usize, later: &[u8]) -> Result<(), LinkError>
    ensures { result_err result ≡ later_fault element identifier (elements_behind later.now) }
{
    if is_among(keys(), identifier) && first_among(keys(), later).is_some() {
        return Err(LinkError::SecondKey { element });
    }
    if first_among(&[(identifier, identifier)], later).is_some() {
        return Err(LinkError::RepeatedElement {
            element,
            identifier,
        });
    }
    Ok(())
}

/// Checks the elements that are written behind a first opening bracket.
fn check_rules(excluded: &[usize], text: &[u8]) -> Result<(), LinkError>
    ensures { result_err result ≡ first_rule_fault excluded.now 0 (elements_behind text.now) }
{
    let mut rest = text;
    let mut element = 0;
    loop {
        let end = first_of(rest, b'(');
        let identifier = number_at(&rest[..end]);
        check_qualifier(excluded, element, identifier)?;
        if end == rest.len() {
            return Ok(());
        }
        rest = behind(rest, end);
        check_later(element, identifier, rest)?;
        element += 1;
    }
}

/// Checks that an element is a primary key.
#[tactic(auto, unfolding(crate::specs::Links::no_key_fault))]
fn check_key(text: &[u8]) -> Result<(), LinkError>
    ensures { result_err result ≡ no_key_fault (elements_behind text.now) }
{
    if first_among(keys(), text).is_none() {
        return Err(LinkError::NoKey);
    }
    Ok(())
}

/// Checks that the elements of a text make a link.
pub(crate) fn check_elements(text: &[u8]) -> Result<(), LinkError>
    ensures { result_err result ≡ elements_fault (written_elements text.now) }
{
    check_key(behind(text, 0))?;
    check_rules(excluded_qualifiers(text), behind(text, 0))
}
