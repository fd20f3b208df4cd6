//! Domains of links: host names, with a port or without, and the path at which links begin.
ghost use Rattle.std.specs.Prelude.{◌≡◌, drop};
ghost use Rattle.std.specs.List.{list_all, slice_split};
ghost use Rattle.gs1_base.specs.Characters.{is_within};
ghost use Rattle.gs1_base.specs.Domains.{is_port_character, is_host, are_labels, is_port};
ghost use Rattle.gs1_base.specs.Domains.{number_after, is_slash, is_domain_character, is_segment};
ghost use Rattle.gs1_base.specs.Domains.{is_domain, is_dot};

use crate::characters::are_digits;
use crate::cuts::{behind, first_of};
use crate::percent::is_unreserved;

/// Returns whether a text can be the domain of a link: a host as `is_host` says, and after it the
/// path at which the link begins, or none, such as `example.com/shop`. After each slash stand
/// letters, digits and `-._~:`, of which at least one is no dot.
#[tactic(auto, unfolding(crate::specs::Domains::is_domain))]
pub fn is_domain(domain: &[u8]) -> bool
    ensures { result ≡ is_domain domain.now }
{
    let slash = first_of(domain, b'/');
    are_domain_characters(domain) && is_host(&domain[..slash]) && has_segments(domain)
}

/// Returns whether all characters are those of domains.
fn are_domain_characters(domain: &[u8]) -> bool
    ensures { result ≡ list_all is_domain_character domain.now }
{
    domain
        .iter()
        .all(|c| is_unreserved(*c) || *c == b':' || *c == b'/')
}

/// Returns whether a segment follows each slash.
#[tactic(auto, using(crate::proofs::Hosts::segments_none, crate::proofs::Hosts::segments_more))]
fn has_segments(domain: &[u8]) -> bool
    ensures { result ≡ list_all is_segment (drop 1 (slice_split is_slash domain.now)) }
{
    let slash = first_of(domain, b'/');
    slash == domain.len() || are_segments(behind(domain, slash))
}

/// Returns whether a text is one or more segments, with a slash between any two.
fn are_segments(path: &[u8]) -> bool
    ensures { result ≡ list_all is_segment (slice_split is_slash path.now) }
{
    let mut rest = path;
    loop {
        let end = first_of(rest, b'/');
        if !is_segment(&rest[..end]) {
            return false;
        }
        if end == rest.len() {
            return true;
        }
        rest = behind(rest, end);
    }
}

/// Returns whether all characters are dots.
fn are_dots(segment: &[u8]) -> bool
    ensures { result ≡ list_all is_dot segment.now }
{
    segment.iter().all(|c| *c == b'.')
}

/// Returns whether a segment has a character that is no dot.
fn is_segment(segment: &[u8]) -> bool
    ensures { result ≡ is_segment segment.now }
{
    !are_dots(segment)
}

/// Returns whether a text can be the host of a link: a name of letters, digits, `-` and `.`, with 1
/// to 63 characters before, between and after its dots, and with a port from 1 to 65535 or without.
#[tactic(auto, unfolding(crate::specs::Domains::is_host))]
pub fn is_host(host: &[u8]) -> bool
    ensures { result ≡ is_host host.now }
{
    let colon = first_of(host, b':');
    are_host_characters(host)
        && are_labels(&host[..colon])
        && (colon == host.len() || is_port(behind(host, colon)))
}

/// Returns whether all characters are those of a host name, or colons.
fn are_host_characters(host: &[u8]) -> bool
    ensures { result ≡ list_all is_port_character host.now }
{
    host.iter().all(|c| matches!(c, b'-' | b'.' | b'0'..=b'9' | b':' | b'A'..=b'Z' | b'a'..=b'z'))
}

/// Returns whether a label of a host name may have this number of characters.
fn is_length(length: usize) -> bool
    ensures { result ≡ is_within 1 63 length }
{
    matches!(length, 1..=63)
}

/// Returns whether the labels of a host name have 1 to 63 characters.
fn are_labels(host: &[u8]) -> bool
    ensures { result ≡ are_labels host.now }
{
    let mut rest = host;
    loop {
        let end = first_of(rest, b'.');
        if !is_length(end) {
            return false;
        }
        if end == rest.len() {
            return true;
        }
        rest = behind(rest, end);
    }
}

/// Returns whether bytes are the digits of a port.
fn is_port(port: &[u8]) -> bool
    ensures { result ≡ is_port port.now }
{
    are_digits(port) && is_port_number(port)
}

/// Returns whether digits write a number from 1 to 65535.
fn is_port_number(port: &[u8]) -> bool
    ensures { result ≡ is_within 1 65535 (number_after 0 port.now) }
{
    let mut number = 0;
    for digit in port {
        number = 10 * number + usize::from(digit.saturating_sub(b'0'));
        if 65535 < number {
            return false;
        }
    }
    0 < number
}
