//! How a link is cut: its domain, its path from the key on, and its query.
ghost use Rattle.std.specs.Prelude.{◌≡◌, ◌∷◌, ◌+◌, ◌≤◌, ◌%◌, ◌==◌, ◌<◌, [], None, Some, length};
ghost use Rattle.std.specs.Prelude.{IfOk, IfNone, IfSome, position, not};
ghost use Rattle.std.specs.Prelude.{if◌then◌else◌};
ghost use Rattle.std.specs.List.{slice_split};
ghost use Rattle.std.specs.Option.{option_map, option_map_or};
ghost use Rattle.std.specs.Result.{result_err};
ghost use Rattle.gs1_base.specs.Domains.{is_slash};
ghost use Rattle.gs1_links.specs.LinkReader.{is_link_character, is_letter, after_scheme};
ghost use Rattle.gs1_links.specs.LinkFaults.{cut_parts, is_key_text, path_in, pairs};
ghost use Rattle.gs1_links.specs.LinkFaults.{link_character_fault, front_fault, path_of, query_of};

use crate::link_error::LinkReadError;
use crate::link_rules::is_key;
use gs1::check::is_identifier;
use gs1::values::number_of;
use gs1_base::cuts::{behind, byte, first_of};
use gs1_base::domain::is_host;
use gs1_base::percent::stands_for_itself;

/// A text up to a separator, and what stands after the separator, if there is one.
#[derive(Clone, Copy)]
pub(crate) struct Cut<'a> {
    pub(crate) front: &'a [u8],
    pub(crate) rest: Option<&'a [u8]>,
}

/// Cuts a text at the first byte of this value.
pub(crate) fn cut_at<'a>(text: &'a [u8], separator: u8) -> Cut<'a>
    ensures parts { slice_split (λ c. c == separator) text.now ≡ result.front.now
        ∷ cut_parts (λ c. c == separator) (option_map (λ t. t.now) result.rest) }
    ensures size { option_map_or (λ t. length t.now + 1) result.rest 0 ≤ length text.now }
{
    let end = first_of(text, separator);
    let front = &text[..end];
    if end == text.len() {
        return Cut { front, rest: None };
    }
    Cut {
        front,
        rest: Some(behind(text, end)),
    }
}

/// Two segments of a path, an identifier and a value, and what stands after them.
#[derive(Clone, Copy)]
pub(crate) struct Pair<'a> {
    pub(crate) identifier: &'a [u8],
    pub(crate) text: &'a [u8],
    pub(crate) rest: Option<&'a [u8]>,
}

/// Returns the next two segments.
pub(crate) fn next_pair<'a>(path: Option<&'a [u8]>) -> Option<Pair<'a>>
    ensures some { IfSome result (λ pair.
        pairs (cut_parts is_slash (option_map (λ t. t.now) path.entry))
        ≡ record { identifier = pair.identifier.now; value = pair.text.now }
        ∷ pairs (cut_parts is_slash (option_map (λ t. t.now) pair.rest))) }
    ensures size { IfSome result (λ pair. option_map_or (λ t. length t.now + 1) pair.rest 0 + 2
        ≤ option_map_or (λ t. length t.now + 1) path.entry 0) }
    ensures none { IfNone result
        (pairs (cut_parts is_slash (option_map (λ t. t.now) path.entry)) ≡ []) }
{
    let first = cut_at(path?, b'/');
    let second = cut_at(first.rest?, b'/');
    Some(Pair {
        identifier: first.front,
        text: second.front,
        rest: second.rest,
    })
}

/// Returns whether a segment is the identifier of a primary key.
fn is_key_text(segment: &[u8]) -> bool
    ensures { result ≡ is_key_text segment.now }
{
    is_identifier(segment) && is_key(number_of(segment))
}

/// Returns whether an even number of segments is left.
fn is_even(path: Option<&[u8]>) -> bool
    ensures { result
        ≡ (length (cut_parts is_slash (option_map (λ t. t.now) path.entry)) % 2 == 0) }
{
    let mut even = true;
    let mut rest = path;
    while let Some(text) = rest {
        let cut = cut_at(text, b'/');
        even = !even;
        rest = cut.rest;
    }
    even
}

/// Returns the path that begins here, or the one that was found before.
fn found_or<'a>(is_found: bool, here: &'a [u8], before: Option<&'a [u8]>) -> Option<&'a [u8]>
    ensures { option_map (λ t. slice_split is_slash t.now) result
        ≡ if is_found then Some (slice_split is_slash here.now)
        else option_map (λ t. slice_split is_slash t.now) before.entry }
{
    if is_found { Some(here) } else { before }
}

/// Returns the path from the key on.
fn path_in<'a>(path: Option<&'a [u8]>) -> Option<&'a [u8]>
    ensures { option_map (λ t. slice_split is_slash t.now) result
        ≡ path_in (cut_parts is_slash (option_map (λ t. t.now) path.entry)) }
{
    let mut found = None;
    let mut even = is_even(path);
    let mut rest = path;
    while let Some(text) = rest {
        let cut = cut_at(text, b'/');
        let is_key = is_key_text(cut.front);
        found = found_or(even & is_key, text, found);
        even = !even;
        rest = cut.rest;
    }
    found
}

/// Returns whether a byte is a small letter or its capital.
fn is_letter(small: u8, byte: u8) -> bool
    ensures { result ≡ is_letter small byte }
{
    byte == small || usize::from(byte) + 0x20 == usize::from(small)
}

/// Returns what stands after the scheme, whose letters may be capital.
#[tactic(auto, unfolding(crate::specs::LinkReader::after_scheme))]
fn after_scheme(link: &[u8]) -> Option<&[u8]>
    ensures { option_map (λ t. t.now) result ≡ after_scheme link.now }
{
    let http = is_letter(b'h', byte(link, 0))
        && is_letter(b't', byte(link, 1))
        && is_letter(b't', byte(link, 2))
        && is_letter(b'p', byte(link, 3));
    let secure = is_letter(b's', byte(link, 4))
        && byte(link, 5) == b':'
        && byte(link, 6) == b'/'
        && byte(link, 7) == b'/';
    let plain = byte(link, 4) == b':' && byte(link, 5) == b'/' && byte(link, 6) == b'/';
    if http && secure {
        return Some(behind(link, 7));
    }
    if http && plain {
        return Some(behind(link, 6));
    }
    None
}

/// Returns whether a byte is a character of links without a fragment.
fn is_link_character(byte: u8) -> bool
    ensures { result ≡ is_link_character byte }
{
    byte == b'%' || stands_for_itself(byte)
}

/// Returns the place of the first byte that no link has.
fn wrong_character(link: &[u8]) -> Option<usize>
    ensures { result ≡ position (λ c. not (is_link_character c)) link.now }
{
    link.iter().position(|byte| !is_link_character(*byte))
}

/// Checks the characters of a link.
#[tactic(auto, unfolding(crate::specs::LinkFaults::link_character_fault))]
fn check_characters(link: &[u8]) -> Result<(), LinkReadError>
    ensures { result_err result ≡ link_character_fault link.now }
{
    match wrong_character(link) {
        Some(place) => Err(LinkReadError::WrongCharacter { place }),
        None => Ok(()),
    }
}

/// The parts of a link that have its elements.
#[derive(Clone, Copy)]
pub(crate) struct LinkParts<'a> {
    pub(crate) path: &'a [u8],
    pub(crate) query: &'a [u8],
}

/// Cuts a link into its path, from the key on, and its query.
#[tactic(auto, unfolding(crate::specs::LinkFaults::scheme_fault))]
pub(crate) fn cut_link<'a>(link: &'a [u8]) -> Result<LinkParts<'a>, LinkReadError>
    ensures fault { result_err result ≡ front_fault link.now }
    ensures path { IfOk result (λ parts.
        path_of link.now ≡ Some (slice_split is_slash parts.path.now)) }
    ensures query { IfOk result (λ parts. parts.query.now ≡ query_of link.now) }
{
    let Some(rest) = after_scheme(link) else {
        return Err(LinkReadError::WrongScheme);
    };
    check_characters(link)?;
    let end = first_of(rest, b'?');
    let front = cut_at(&rest[..end], b'/');
    if !is_host(front.front) {
        return Err(LinkReadError::WrongDomain);
    }
    let Some(path) = path_in(front.rest) else {
        return Err(LinkReadError::NoKey);
    };
    Ok(LinkParts {
        path,
        query: behind(rest, end),
    })
}
