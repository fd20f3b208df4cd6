//! The places at which data may be cut into the parts of a sequence (ISO/IEC 18004:2006,
//! "Structured Append").

ghost use Rattle.std.specs.Prelude.{◌<◌, length, IfOk, IsTrue, ◌↔◌};
ghost use Rattle.std.specs.String.Boundary.{IsSplitPoint};
ghost use Rattle.qrcode_bits.specs.Places.{AreCutPlaces};
ghost use Rattle.qrcode_bits.specs.declared.bits.front.Content.TheVariants.{Bytes, Text};

use super::front::Content;
use crate::optimize::is_pair_at;
use std::alloc::{AllocError, Global};

/// Returns the places, in order, at which data of a content may be cut. Bytes may be cut where no
/// pair of the Kanji mode is cut, read from left to right, and a text between two characters; both
/// also at the start and at the end. Elements have no such place. It fails for lack of memory.
pub fn cut_places(alloc: Global, content: Content, bytes: &[u8]) -> Result<Vec<usize>, AllocError>
    ensures { IfOk result (λ places. AreCutPlaces content bytes.now places.items) }
{
    match content {
        Content::Bytes => unit_ends(alloc, bytes),
        Content::Text => character_ends(alloc, bytes),
        Content::Elements => Ok(Vec::new(alloc)),
    }
}

/// Returns the places before, between and after the units of bytes.
fn unit_ends(alloc: Global, bytes: &[u8]) -> Result<Vec<usize>, AllocError>
    ensures { IfOk result (λ places. AreCutPlaces Bytes bytes.now places.items) }
{
    let mut places = Vec::new(alloc);
    let mut at = 0;
    while at < bytes.len() {
        places.push(at)?;
        at += if is_pair_at(bytes, at) { 2 } else { 1 };
    }
    places.push(at)?;
    Ok(places)
}

/// Returns the places before, between and after the characters of a text in UTF-8.
fn character_ends(alloc: Global, text: &[u8]) -> Result<Vec<usize>, AllocError>
    ensures { IfOk result (λ places. AreCutPlaces Text text.now places.items) }
{
    let mut places = Vec::new(alloc);
    for at in 0..text.len() {
        if is_character_start(text, at) {
            places.push(at)?;
        }
    }
    places.push(text.len())?;
    Ok(places)
}

/// Returns whether a place within a text in UTF-8 is its start, or a character begins there: all
/// later bytes of a character are 80 to BF (hex).
fn is_character_start(text: &[u8], at: usize) -> bool
    requires { at < length text.now }
    ensures { IsTrue result ↔ IsSplitPoint text.now at }
{
    at == 0 || text[at] < 0x80 || text[at] >= 0xc0
}
