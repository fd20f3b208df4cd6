//! The elements of GS1 Digital Links.
ghost use Rattle.std.specs.Prelude.{◌≡◌, ◌++◌, ◌∷◌, ◌+◌, ◌<◌, ◌≤◌, ◌^◌, ◌==◌, [], true, false};
ghost use Rattle.std.specs.Prelude.{None, Some, length, map};
ghost use Rattle.std.specs.Prelude.{IfOk, OnOk, IfErr, position};
ghost use Rattle.std.specs.List.{slice_split, list_any, after_first};
ghost use Rattle.std.specs.Option.{option_map, option_map_or};
ghost use Rattle.std.specs.Result.{result_err};
ghost use Rattle.gs1_links.specs.Links.{number, order_of};
ghost use Rattle.gs1_base.specs.Domains.{is_slash};
ghost use Rattle.gs1_links.specs.LinkReader.{is_ampersand, ReadsLink};
ghost use Rattle.gs1_links.specs.LinkFaults.{cut_parts, pairs, order_fault, path_fault, part_element, path_key};
ghost use Rattle.gs1_links.specs.LinkFaults.{qualifiers_fault};
ghost use Rattle.gs1_links.specs.LinkFaults.{part_fault, equals_fault, attribute_fault, query_fault};
ghost use Rattle.gs1_links.specs.LinkFaults.{is_part_of, twin_fault, twins_fault, decoded_element};
ghost use Rattle.gs1_links.specs.LinkFaults.{reading_fault, IsRefusedReading};

use crate::link_error::LinkReadError;
use crate::link_parts::{cut_at, cut_link, next_pair};
use crate::link_rules::{is_attribute_number, order_of};
use crate::link_together::{check_together, part_element, query_left};
use crate::link_values::{check_written, decoded};
use gs1::strings::Element;
use gs1::values::number_of;
use gs1_base::cuts::first_of;
use std::alloc::{AllocError, Global};

/// An element of a link: its identifier as it stands there, and its value without escapes.
#[derive(Debug, Drop)]
pub struct LinkElement<'a> {
    /// The digits of the identifier.
    pub identifier: &'a [u8],
    /// The bytes of the value.
    pub value: Vec<u8>,
}

/// Returns the elements of a GS1 Digital Link, such as
/// `https://id.gs1.org/01/09506000134352/10/ABC?17=261231` (GS1 Digital Link Standard: URI Syntax,
/// release 1.4, uncompressed form): the primary key, its qualifiers and those of the query, in the
/// order of the link. Of a link that `digital_link` returned these are the elements of its text in
/// the order of the link, and no link is read as two lists of elements.
///
/// The domain may be any host name, with a port or without, and segments may stand before the key.
/// Convenience alphas, such as `gtin`, are no identifiers.
///
/// # Errors
///
/// The first of these: `WrongScheme` (neither `https://` nor `http://`, in small letters);
/// `WrongCharacter` (the first byte that no path and no query has, such as the `#` of a fragment);
/// `WrongDomain`; `NoKey` if no segment is the identifier of a primary key with an odd number of
/// segments after it; the fault of the first element that has one; `RepeatedElement` for the first
/// element of the query whose identifier stands there once more; `Together` with the error of
/// `check_together` if the elements may not stand together. An element is checked in this order:
/// `NoEqualsSign` (in the query), `WrongEscape`, `ValueTooLong` (over 90 characters), `Elements`
/// with the error of `checked_element_string`, `WrongQualifier` (in the path) and `WrongAttribute`
/// (in the query). `OutOfMemory` if there is no fault and an allocation failed.
pub fn elements_of_link<'a>(
    alloc: Global,
    link: &'a [u8],
) -> Result<Vec<LinkElement<'a>>, LinkReadError>
    ensures read { IfOk result (λ elements. ReadsLink link.now (map
        (λ e. record { identifier = e.identifier.now; value = e.value.items }) elements.items)) }
    ensures faultless { OnOk result (reading_fault link.now ≡ None) }
    ensures refusal { IfErr result (IsRefusedReading link.now) }
{
    let parts = cut_link(link)?;
    let count = check_path(parts.path)?;
    let query = query_left(parts.query);
    let key = path_key(parts.path);
    check_query(key, count, query)?;
    check_twins(count, query)?;
    check_together(parts)?;
    let mut elements = Vec::new(alloc);
    push_path(alloc, &mut elements, parts.path)?;
    push_query(alloc, &mut elements, query)?;
    Ok(elements)
}

/// Checks that an identifier stands in one of two orders.
#[tactic(auto, unfolding(crate::specs::LinkFaults::order_fault))]
fn check_order(
    first: &[usize],
    second: &[usize],
    element: usize,
    identifier: usize,
) -> Result<(), LinkReadError>
    ensures { result_err result ≡ order_fault first.now second.now element identifier }
{
    if first.contains(&identifier) || second.contains(&identifier) {
        return Ok(());
    }
    Err(LinkReadError::WrongQualifier {
        element,
        identifier,
    })
}

/// Returns the place of a number in an order.
fn place_of(order: &[usize], number: usize) -> Option<usize>
    ensures { result ≡ position (λ m. m == number) order.now }
{
    order.iter().position(|other| *other == number)
}

/// Returns what stands in an order after a number, or nothing.
#[tactic(auto, using(crate::proofs::LinkLoops::after_place))]
fn after_number(order: &'static [usize], number: usize) -> &'static [usize]
    ensures { result.now ≡ after_first (λ m. m == number) order.now }
{
    match place_of(order, number) {
        Some(place) => &order[place + 1..],
        None => &[],
    }
}

/// Checks the qualifiers of a key, and returns how many elements there are with the key.
fn check_qualifiers(key: usize, path: Option<&[u8]>) -> Result<usize, LinkReadError>
    requires { option_map_or (λ t. length t.now + 1) path 0 < 2 ^ 63 }
    ensures fault { result_err result ≡ qualifiers_fault (order_of key false) (order_of key true) 1
        (pairs (cut_parts is_slash (option_map (λ t. t.now) path.entry))) }
    ensures count { IfOk result (λ n. n
        ≡ 1 + length (pairs (cut_parts is_slash (option_map (λ t. t.now) path.entry)))) }
    ensures size { IfOk result (λ n. n ≤ 1 + option_map_or (λ t. length t.now + 1) path.entry 0) }
{
    let mut first = order_of(key, false);
    let mut second = order_of(key, true);
    let mut rest = path;
    let mut element = 1;
    while let Some(pair) = next_pair(rest) {
        let identifier = number_of(pair.identifier);
        check_written(element, pair.identifier, pair.text)?;
        check_order(first, second, element, identifier)?;
        first = after_number(first, identifier);
        second = after_number(second, identifier);
        rest = pair.rest;
        element += 1;
    }
    Ok(element)
}

/// Checks the elements of a path from the key on, and returns how many there are.
fn check_path(path: &[u8]) -> Result<usize, LinkReadError>
    ensures fault { result_err result ≡ path_fault (pairs (slice_split is_slash path.now)) }
    ensures count { IfOk result (λ n. n ≡ length (pairs (slice_split is_slash path.now))) }
    ensures size { IfOk result (λ n. n ≤ length path.now) }
{
    let Some(key) = next_pair(Some(path)) else {
        return Err(LinkReadError::NoKey);
    };
    check_written(0, key.identifier, key.text)?;
    check_qualifiers(number_of(key.identifier), key.rest)
}

/// Returns the number of the key of a path.
fn path_key(path: &[u8]) -> usize
    ensures { result ≡ path_key (pairs (slice_split is_slash path.now)) }
{
    match next_pair(Some(path)) {
        Some(key) => number_of(key.identifier),
        None => 0,
    }
}

/// Checks that a part of a query has an equals sign.
#[tactic(auto, unfolding(crate::specs::LinkFaults::equals_fault))]
fn check_equals(element: usize, part: &[u8]) -> Result<(), LinkReadError>
    ensures { result_err result ≡ equals_fault element part.now }
{
    if first_of(part, b'=') == part.len() {
        return Err(LinkReadError::NoEqualsSign { element });
    }
    Ok(())
}

/// Checks that an element is no key and does not qualify this one.
#[tactic(auto, unfolding(crate::specs::LinkFaults::attribute_fault))]
fn check_attribute(key: usize, element: usize, part: Element<'_>) -> Result<(), LinkReadError>
    ensures { result_err result ≡ attribute_fault key element
        (record { identifier = part.entry.identifier.now; value = part.entry.value.now }) }
{
    let identifier = number_of(part.identifier);
    if is_attribute_number(key, identifier) {
        return Ok(());
    }
    Err(LinkReadError::WrongAttribute {
        element,
        identifier,
    })
}

/// Checks a part of a query beside this key.
fn check_part(key: usize, element: usize, part: &[u8]) -> Result<(), LinkReadError>
    ensures { result_err result ≡ part_fault key element part.now }
{
    check_equals(element, part)?;
    let written = part_element(part);
    check_written(element, written.identifier, written.value)?;
    check_attribute(key, element, written)
}

/// Checks the parts of a query beside this key, which are counted from `first`.
fn check_query(key: usize, first: usize, query: Option<&[u8]>) -> Result<(), LinkReadError>
    requires first { first < 2 ^ 63 }
    requires size { option_map_or (λ t. length t.now + 1) query 0 ≤ 2 ^ 63 }
    ensures { result_err result
        ≡ query_fault key first (cut_parts is_ampersand (option_map (λ t. t.now) query.entry)) }
{
    let mut rest = query;
    let mut element = first;
    while let Some(text) = rest {
        let part = cut_at(text, b'&');
        check_part(key, element, part.front)?;
        rest = part.rest;
        element += 1;
    }
    Ok(())
}

/// Returns whether an identifier stands in a query.
fn stands_in(identifier: usize, query: Option<&[u8]>) -> bool
    ensures { result ≡ list_any (is_part_of identifier)
        (cut_parts is_ampersand (option_map (λ t. t.now) query.entry)) }
{
    let mut rest = query;
    while let Some(text) = rest {
        let part = cut_at(text, b'&');
        if number_of(part_element(part.front).identifier) == identifier {
            return true;
        }
        rest = part.rest;
    }
    false
}

/// Checks that an identifier doesn't stand in the rest of a query.
#[tactic(auto, unfolding(crate::specs::LinkFaults::twin_fault))]
fn check_twin(element: usize, identifier: usize, rest: Option<&[u8]>) -> Result<(), LinkReadError>
    ensures { result_err result ≡ twin_fault element identifier
        (cut_parts is_ampersand (option_map (λ t. t.now) rest.entry)) }
{
    if stands_in(identifier, rest) {
        return Err(LinkReadError::RepeatedElement {
            element,
            identifier,
        });
    }
    Ok(())
}

/// Checks that no identifier stands twice in a query, whose parts are counted from `first`.
fn check_twins(first: usize, query: Option<&[u8]>) -> Result<(), LinkReadError>
    requires first { first < 2 ^ 63 }
    requires size { option_map_or (λ t. length t.now + 1) query 0 ≤ 2 ^ 63 }
    ensures { result_err result
        ≡ twins_fault first (cut_parts is_ampersand (option_map (λ t. t.now) query.entry)) }
{
    let mut rest = query;
    let mut element = first;
    while let Some(text) = rest {
        let part = cut_at(text, b'&');
        let identifier = number_of(part_element(part.front).identifier);
        check_twin(element, identifier, part.rest)?;
        rest = part.rest;
        element += 1;
    }
    Ok(())
}

/// Appends an element whose value is escaped.
fn push_element<'a>(
    alloc: Global,
    elements: &mut Vec<LinkElement<'a>>,
    written: Element<'a>,
) -> Result<(), AllocError>
    ensures { OnOk result (
        map (λ e. record { identifier = e.identifier.now; value = e.value.items })
        elements.new.items
        ≡ map (λ e. record { identifier = e.identifier.now; value = e.value.items })
        elements.old.items
        ++ decoded_element (record {
          identifier = written.entry.identifier.now;
          value = written.entry.value.now;
        }) ∷ []) }
{
    let value = decoded(alloc, written.value)?;
    elements.push(LinkElement {
        identifier: written.identifier,
        value,
    })?;
    Ok(())
}

/// Appends the elements of a path.
fn push_path<'a>(
    alloc: Global,
    elements: &mut Vec<LinkElement<'a>>,
    path: &'a [u8],
) -> Result<(), AllocError>
    ensures { OnOk result (
        map (λ e. record { identifier = e.identifier.now; value = e.value.items })
        elements.new.items
        ≡ map (λ e. record { identifier = e.identifier.now; value = e.value.items })
        elements.old.items
        ++ map decoded_element (pairs (slice_split is_slash path.now))) }
{
    let mut rest = Some(path);
    while let Some(pair) = next_pair(rest) {
        let written = Element {
            identifier: pair.identifier,
            value: pair.text,
        };
        push_element(alloc, elements, written)?;
        rest = pair.rest;
    }
    Ok(())
}

/// Appends the elements of a query.
fn push_query<'a>(
    alloc: Global,
    elements: &mut Vec<LinkElement<'a>>,
    query: Option<&'a [u8]>,
) -> Result<(), AllocError>
    ensures { OnOk result (
        map (λ e. record { identifier = e.identifier.now; value = e.value.items })
        elements.new.items
        ≡ map (λ e. record { identifier = e.identifier.now; value = e.value.items })
        elements.old.items
        ++ map (λ part. decoded_element (part_element part))
        (cut_parts is_ampersand (option_map (λ t. t.now) query.entry))) }
{
    let mut rest = query;
    while let Some(text) = rest {
        let part = cut_at(text, b'&');
        push_element(alloc, elements, part_element(part.front))?;
        rest = part.rest;
    }
    Ok(())
}
