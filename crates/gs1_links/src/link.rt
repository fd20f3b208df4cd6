//! GS1 Digital Link: links of elements.
ghost use Rattle.std.specs.Prelude.{◌≡◌, ◌∷◌, ◌++◌, List, None, All, Contains, IfOk, OnOk, IfErr};
ghost use Rattle.std.specs.List.{flat_map, filter};
ghost use Rattle.std.specs.Option.{option_to_list, option_map};
ghost use Rattle.std.specs.Result.{result_err};
ghost use Rattle.gs1.specs.Elements.{Element as SpecElement, element_of, elements_behind};
ghost use Rattle.gs1.specs.Elements.{written_elements};
ghost use Rattle.gs1.specs.Values.{text_error};
ghost use Rattle.gs1_base.specs.Domains.{is_domain};
ghost use Rattle.gs1_links.specs.Links.{domain_fault, text_length_fault, together_fault};
ghost use Rattle.gs1_links.specs.Links.{link_error, IsRefusedLink, link_of, linked, path_text, query_text};
ghost use Rattle.gs1_links.specs.Links.{link_behind, capital_link_of};
ghost use Rattle.gs1_links.specs.Links.{path_elements, primary_key, element_with, is_attribute};
ghost use Rattle.gs1_links.specs.LinkReader.{ReadsLink};

use crate::capitals::capital_domain;
use crate::link_error::LinkError;
use crate::link_rules::{
    check_elements, element_with, is_attribute, key_number, primary_key, qualifier_order,
};
use gs1::strings::element_of;
use gs1::together::{LONGEST_TEXT, check_all};
use gs1::values::check_text;
use gs1_base::cuts::{behind, first_of};
use gs1_base::domain::is_domain;
use gs1_base::percent::push_escaped;
use std::alloc::{AllocError, Global};

/// Returns the link of the elements of a text such as `(01)09506000134352(10)ABC(17)261231`, here
/// `https://DOMAIN/01/09506000134352/10/ABC?17=261231` (GS1 Digital Link Standard: URI Syntax,
/// release 1.4, uncompressed form): the primary key, then its qualifiers in the order of the
/// standard, and the other elements as a query, in the order in which they are given, also those
/// that qualify another key. Of values,
/// letters, digits and `-._~` stand as they are, and each other character as a percent sign and two
/// capital hexadecimal digits.
///
/// The domain is a host name of letters, digits, `-` and `.`, as `is_domain` says, with a colon and
/// the digits of a port after it or without, and with a path or without: `example.com/shop`. A
/// reader of links finds in the link these elements in this order, and no others.
///
/// # Errors
///
/// `TextTooLong` if the text has more than 11815 bytes. `Elements` with the error of
/// `checked_element_string` if the table of identifiers does not allow the elements. `WrongDomain`
/// if the domain is none. `NoKey` if no element is a primary key. Else the fault of the first
/// element that has one: `WrongQualifier` if it qualifies the key of this link, but not beside
/// another of its qualifiers; `SecondKey` if it is a primary key with another one after it;
/// `RepeatedElement` if its identifier stands once more after it. Else `Together` with the error of
/// `check_together` if the elements may not stand together. `OutOfMemory` if there is no fault and
/// an allocation failed.
pub fn digital_link(alloc: Global, text: &str, domain: &str) -> Result<Vec<u8>, LinkError>
    ensures written { IfOk result (λ link. link.items
        ≡ link_of domain.now (written_elements text.now)) }
    ensures read { IfOk result (λ link. ReadsLink link.items (linked (written_elements text.now))) }
    // None of the elements is lost.
    ensures none_lost { OnOk result (All (Contains (linked (written_elements text.now)))
        (written_elements text.now)) }

    ensures faultless { OnOk result (link_error text.now domain.now ≡ None) }
    ensures refusal { IfErr result (IsRefusedLink text.now domain.now) }
{
    let text = text.as_bytes();
    let domain = domain.as_bytes();
    check_link(text, domain)?;
    let link = link_behind(alloc, b"https://", text, domain)?;
    Ok(link)
}

/// Returns the link of `digital_link` with its scheme and its host in capitals,
/// `HTTPS://ID.GS1.ORG/01/09506000134352`, which every reader takes for the same in small letters
/// (RFC 3986, sections 3.1 and 3.2.2). The Alphanumeric mode has such a link up to the first small
/// letter of a path or a value, or to the query, so that its symbol is often smaller and never
/// larger. What follows the first slash of the domain is a path, in which small letters and
/// capitals differ: it stands as it is given.
///
/// # Errors
///
/// As `digital_link`.
pub fn capital_link(alloc: Global, text: &str, domain: &str) -> Result<Vec<u8>, LinkError>
    ensures written { IfOk result (λ link. link.items
        ≡ capital_link_of domain.now (written_elements text.now)) }
    ensures read { IfOk result (λ link. ReadsLink link.items (linked (written_elements text.now))) }
    // None of the elements is lost.
    ensures none_lost { OnOk result (All (Contains (linked (written_elements text.now)))
        (written_elements text.now)) }

    ensures faultless { OnOk result (link_error text.now domain.now ≡ None) }
    ensures refusal { IfErr result (IsRefusedLink text.now domain.now) }
{
    let text = text.as_bytes();
    let domain = domain.as_bytes();
    check_link(text, domain)?;
    let capitals = capital_domain(alloc, domain)?;
    let link = link_behind(alloc, b"HTTPS://", text, &capitals)?;
    Ok(link)
}

/// Checks a text and a domain.
fn check_link(text: &[u8], domain: &[u8]) -> Result<(), LinkError>
    ensures { result_err result ≡ link_error text.now domain.now }
{
    check_length(text)?;
    check_values(text)?;
    check_domain(domain)?;
    check_elements(text)?;
    check_together(text)
}

/// Checks the length of a text.
#[tactic(auto, unfolding(crate::specs::Links::text_length_fault))]
fn check_length(text: &[u8]) -> Result<(), LinkError>
    ensures { result_err result ≡ text_length_fault text.now }
{
    if LONGEST_TEXT < text.len() {
        return Err(LinkError::TextTooLong);
    }
    Ok(())
}

/// Checks the elements of a text by the table.
fn check_values(text: &[u8]) -> Result<(), LinkError>
    ensures { result_err result
        ≡ option_map (λ error. LinkError.Elements error) (text_error text.now) }
{
    match check_text(text) {
        Ok(()) => Ok(()),
        Err(error) => Err(LinkError::Elements(error)),
    }
}

/// Checks a domain.
#[tactic(auto, unfolding(crate::specs::Links::domain_fault))]
fn check_domain(domain: &[u8]) -> Result<(), LinkError>
    ensures { result_err result ≡ domain_fault domain.now }
{
    if !is_domain(domain) {
        return Err(LinkError::WrongDomain);
    }
    Ok(())
}

/// Checks that the elements of a text may stand together.
#[tactic(auto, unfolding(crate::specs::Links::together_fault))]
fn check_together(text: &[u8]) -> Result<(), LinkError>
    ensures { result_err result ≡ together_fault (written_elements text.now) }
{
    match check_all(behind(text, 0)) {
        Ok(()) => Ok(()),
        Err(error) => Err(LinkError::Together(error)),
    }
}

/// Returns the link of the elements of a text after a scheme.
fn link_behind(
    alloc: Global,
    scheme: &[u8],
    text: &[u8],
    domain: &[u8],
) -> Result<Vec<u8>, AllocError>
    ensures { IfOk result (λ link. link.items
        ≡ link_behind scheme.now domain.now (written_elements text.now)) }
{
    let mut link = Vec::new(alloc);
    link.extend_from_slice(scheme)?;
    link.extend_from_slice(domain)?;
    push_path(&mut link, text)?;
    push_query(&mut link, key_number(text), behind(text, 0))?;
    Ok(link)
}

/// Appends the key and its qualifiers.
fn push_path(link: &mut Vec<u8>, text: &[u8]) -> Result<(), AllocError>
    ensures { OnOk result (link.new.items
        ≡ link.old.items ++ flat_map path_text (path_elements (written_elements text.now))) }
{
    push_key(link, text)?;
    let order = qualifier_order(text);
    for number in order {
        push_qualifier(link, *number, text)?;
    }
    Ok(())
}

/// Appends the key.
fn push_key(link: &mut Vec<u8>, text: &[u8]) -> Result<(), AllocError>
    ensures { OnOk result (link.new.items ≡ link.old.items
        ++ flat_map path_text (option_to_list (primary_key (written_elements text.now)))) }
{
    match primary_key(text) {
        Some(key) => push_segments(link, key.identifier, key.value),
        None => Ok(()),
    }
}

/// Appends the element with this identifier, if there is one.
fn push_qualifier(link: &mut Vec<u8>, number: usize, text: &[u8]) -> Result<(), AllocError>
    ensures { OnOk result (link.new.items ≡ link.old.items
        ++ flat_map path_text (option_to_list (element_with number (written_elements text.now)))) }
{
    match element_with(number, text) {
        Some(element) => push_segments(link, element.identifier, element.value),
        None => Ok(()),
    }
}

/// Appends the two segments of an element.
fn push_segments(link: &mut Vec<u8>, identifier: &[u8], value: &[u8]) -> Result<(), AllocError>
    ensures { OnOk result (link.new.items ≡ link.old.items
        ++ path_text (record { identifier = identifier.now; value = value.now })) }
{
    link.push(b'/')?;
    link.extend_from_slice(identifier)?;
    link.push(b'/')?;
    push_escaped(link, value)
}

/// Appends the query of the elements, beside this key, that are written behind a first opening
/// bracket.
fn push_query(link: &mut Vec<u8>, key: usize, text: &[u8]) -> Result<(), AllocError>
    ensures { OnOk result (link.new.items ≡ link.old.items
        ++ query_text 0x3f (filter (is_attribute key) (elements_behind text.now))) }
{
    let mut rest = text;
    let mut separator = b'?';
    loop {
        let end = first_of(rest, b'(');
        separator = push_attribute(link, separator, key, &rest[..end])?;
        if end == rest.len() {
            return Ok(());
        }
        rest = behind(rest, end);
    }
}

/// Appends the element that is written between two opening brackets, if it stands in the query, and
/// returns the separator before the next one.
fn push_attribute(
    link: &mut Vec<u8>,
    separator: u8,
    key: usize,
    part: &[u8],
) -> Result<u8, AllocError>
    ensures { IfOk result (λ next. (later : List SpecElement) →
        link.new.items ++ query_text next (filter (is_attribute key) later) ≡ link.old.items
        ++ query_text separator (filter (is_attribute key) (element_of part.now ∷ later))) }
{
    if !is_attribute(key, part) {
        return Ok(separator);
    }
    let element = element_of(part);
    link.push(separator)?;
    link.extend_from_slice(element.identifier)?;
    link.push(b'=')?;
    push_escaped(link, element.value)?;
    Ok(b'&')
}
