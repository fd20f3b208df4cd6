//! Which elements of a link stand together.
ghost use Rattle.std.specs.Prelude.{◌≡◌, ◌∷◌, ◌+◌, ◌*◌, ◌≤◌, [], length};
ghost use Rattle.std.specs.Prelude.{IfNone, IfSome};
ghost use Rattle.std.specs.Option.{option_map, option_map_or};
ghost use Rattle.std.specs.Result.{result_err};
ghost use Rattle.gs1.specs.Together.{first_among, first_conflict};
ghost use Rattle.gs1_links.specs.LinkReader.{is_ampersand, query_parts};
ghost use Rattle.gs1_links.specs.LinkFaults.{cut_parts, part_element, link_together_fault};
ghost use Rattle.gs1_links.specs.LinkFaults.{decoded_element, elements_left, elements_in};

use crate::link_error::LinkReadError;
use crate::link_parts::{LinkParts, cut_at, next_pair};
use gs1::TogetherError;
use gs1::strings::Element;
use gs1::together::{ElementList, check_beside, is_among};
use gs1::values::number_of;
use gs1_base::cuts::{behind, first_of};

/// Returns the query, if it is not empty.
pub(crate) fn query_left<'a>(query: &'a [u8]) -> Option<&'a [u8]>
    ensures parts { cut_parts is_ampersand (option_map (λ t. t.now) result)
        ≡ query_parts query.now }
    ensures size { option_map_or (λ t. length t.now + 1) result 0 ≤ length query.now + 1 }
{
    if query.is_empty() {
        return None;
    }
    Some(query)
}

/// Returns the element of a part of a query, its value escaped.
pub(crate) fn part_element<'a>(part: &'a [u8]) -> Element<'a>
    ensures { part_element part.now
        ≡ record { identifier = result.identifier.now; value = result.value.now } }
{
    let end = first_of(part, b'=');
    Element {
        identifier: &part[..end],
        value: behind(part, end),
    }
}

/// What is left of a link: of its path, from an identifier on, and of its query.
#[derive(Clone, Copy)]
struct Left<'a> {
    path: Option<&'a [u8]>,
    query: Option<&'a [u8]>,
}

/// An element of a link, its value escaped, and what is left after it.
#[derive(Clone, Copy)]
struct Next<'a> {
    element: Element<'a>,
    left: Left<'a>,
}

/// Returns all of a link.
fn all_of<'a>(link: LinkParts<'a>) -> Left<'a>
    ensures elements { elements_left (option_map (λ t. t.now) result.path)
        (option_map (λ t. t.now) result.query)
        ≡ elements_in link.entry.path.now link.entry.query.now }
    ensures path { option_map_or (λ t. length t.now + 1) result.path 0
        ≤ length link.entry.path.now + 1 }
    ensures query { option_map_or (λ t. length t.now + 1) result.query 0
        ≤ length link.entry.query.now + 1 }
{
    Left {
        path: Some(link.path),
        query: query_left(link.query),
    }
}

/// Returns the next element: two segments of the path, or else a part of the query.
fn next_element<'a>(left: Left<'a>) -> Option<Next<'a>>
    ensures some { IfSome result (λ next. elements_left (option_map (λ t. t.now) left.entry.path)
        (option_map (λ t. t.now) left.entry.query) ≡ decoded_element (record {
          identifier = next.element.identifier.now;
          value = next.element.value.now;
        }) ∷ elements_left (option_map (λ t. t.now) next.left.path)
        (option_map (λ t. t.now) next.left.query)) }
    ensures size { IfSome result (λ next. option_map_or (λ t. length t.now + 1) next.left.path 0
        + 2 * option_map_or (λ t. length t.now + 1) next.left.query 0 + 2
        ≤ option_map_or (λ t. length t.now + 1) left.entry.path 0
        + 2 * option_map_or (λ t. length t.now + 1) left.entry.query 0) }
    ensures none { IfNone result (elements_left (option_map (λ t. t.now) left.entry.path)
        (option_map (λ t. t.now) left.entry.query) ≡ []) }
{
    if let Some(pair) = next_pair(left.path) {
        return Some(Next {
            element: Element {
                identifier: pair.identifier,
                value: pair.text,
            },
            left: Left {
                path: pair.rest,
                query: left.query,
            },
        });
    }
    let part = cut_at(left.query?, b'&');
    Some(Next {
        element: part_element(part.front),
        left: Left {
            path: None,
            query: part.rest,
        },
    })
}

impl<'a> ElementList for LinkParts<'a> {
    ghost elements = { λ link. elements_in link.path.now link.query.now };

    fn first_among(&self, ranges: &[(usize, usize)]) -> Option<usize> {
        let mut left = all_of(*self);
        let mut element = 0;
        while let Some(next) = next_element(left) {
            if is_among(ranges, number_of(next.element.identifier)) {
                return Some(element);
            }
            left = next.left;
            element += 1;
        }
        None
    }
}

/// Checks which elements of a link stand together.
fn check_all(link: LinkParts<'_>) -> Result<(), TogetherError>
    ensures { let elements = elements_in link.entry.path.now link.entry.query.now in
        result_err result ≡ first_conflict elements 0 elements }
{
    let mut left = all_of(link);
    let mut element = 0;
    while let Some(next) = next_element(left) {
        check_beside(&link, element, number_of(next.element.identifier))?;
        left = next.left;
        element += 1;
    }
    Ok(())
}

/// Checks that the elements of a link may stand together.
#[tactic(auto, unfolding(crate::specs::LinkFaults::link_together_fault))]
pub(crate) fn check_together(link: LinkParts<'_>) -> Result<(), LinkReadError>
    ensures { result_err result
        ≡ link_together_fault (elements_in link.entry.path.now link.entry.query.now) }
{
    match check_all(link) {
        Ok(()) => Ok(()),
        Err(error) => Err(LinkReadError::Together(error)),
    }
}
