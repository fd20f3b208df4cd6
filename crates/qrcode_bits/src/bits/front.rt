//! The headers before the data: Structured Append, and ECI or FNC1 by what the data are (ISO/IEC
//! 18004:2006, "Structured Append", "Extended Channel Interpretation (ECI) mode" and "FNC1 mode").
//!
//! ```text
//! let front = Front::new(Content::Text);
//! let bits = encode_front(alloc, &front, text.as_bytes(), EcLevel::M, 40)?;
//! ```
//!
//! Data are parsed as `parsed_bytes` returns them, so that the parser, which knows the four modes
//! alone, finds the segments that the content allows.

ghost use Rattle.std.specs.Prelude.{◌≡◌, ◌<◌, ◌≤◌, length, map, Some, None, OnOk, IfOk, IfErr, MatchOption};
ghost use Rattle.qrcode_bits.specs.Frame.{front_of, front_bits, HasFront, HasHeader, header_bits};
ghost use Rattle.qrcode_bits.specs.Frame.{header_of};
ghost use Rattle.qrcode_bits.specs.Contents.{HasContent, content_bits, parsed_byte};
ghost use Rattle.qrcode_bits.specs.Contents.{is_element_character, AreElements, IsFirstNoElement};
ghost use Rattle.qrcode_bits.specs.Contents.{IsElementByte};
ghost use Rattle.std.specs.Prelude.{IsTrue, ◌↔◌};
ghost use Rattle.qrcode_bits.specs.Stream.{Appends};

use super::Bits;
use qrcode_base::types::{QrError, QrResult};
use std::alloc::Global;
use std::marker::Model;

/// What the data of a symbol are.
#[derive(Clone, Copy, Debug, PartialEq, Eq)]
pub enum Content {
    /// Bytes of any kind, with nothing before them.
    Bytes,
    /// A text in UTF-8, after the ECI designator 26.
    Text,
    /// GS1 elements, after FNC1 in the first position.
    Elements,
}

/// The Structured Append header of a symbol of a sequence.
#[derive(Drop)]
pub struct SequenceHeader {
    position: u8,
    total: u8,
    parity: u8,
}

// Clauses see the header.
impl Model for SequenceHeader {
    ghost use Rattle.qrcode_bits.specs.Frame.{Header};

    ghost Value = { Header };

    ghost view = { λ h. record { place = h.position; total = h.total; parity = h.parity } };
}

impl SequenceHeader {
    /// Returns the header of the symbol at a position, counted from 1, of `total` symbols. The
    /// parity is the exclusive or of all bytes of the message.
    pub fn new(position: u8, total: u8, parity: u8) -> Self
        ensures { result ≡ header_of position total parity }
    {
        SequenceHeader {
            position,
            total,
            parity,
        }
    }
}

/// The headers before the data: Structured Append if it is a symbol of a sequence, and ECI or FNC1
/// by the content.
#[derive(Drop)]
pub struct Front {
    header: Option<SequenceHeader>,
    content: Content,
}

// Clauses see the header and the content.
impl Model for Front {
    ghost Value = { Rattle.qrcode_bits.specs.Frame.Front };

    ghost view = { λ f. record { header = f.header; content = f.content } };
}

impl Front {
    /// Returns the front of a symbol that is not one of a sequence.
    pub fn new(content: Content) -> Self
        ensures { result ≡ front_of None content }
    {
        Front {
            header: None,
            content,
        }
    }

    /// Returns the front of a symbol of a sequence.
    pub fn with_header(header: SequenceHeader, content: Content) -> Self
        ensures { result ≡ front_of (Some header) content }
    {
        Front {
            header: Some(header),
            content,
        }
    }

    /// Returns what the data are.
    pub fn content(&self) -> Content
        ensures { result ≡ self.now.content }
    {
        self.content
    }

    /// Returns the number of bits of the front: 20 of a header, 12 of a designator, 4 of FNC1.
    pub fn size(&self) -> usize
        ensures size { result ≡ length (front_bits self.now) }
        ensures few { result ≤ 32 }
    {
        20 * usize::from(self.header.is_some()) + content_size(self.content)
    }
}

impl Bits {
    /// Pushes the front of a version that may have it. Fails with `OutOfMemory`.
    pub(super) fn push_front(&mut self, front: &Front) -> QrResult<()>
        requires { HasFront self.old.version front.now }
        ensures ok { OnOk result (Appends self.old self.new (front_bits front.now)) }
        ensures memory { IfErr result (λ e. e ≡ QrError.OutOfMemory) }
    {
        self.push_header(&front.header)?;
        self.push_content(front.content)
    }

    /// Pushes the header of a symbol of a sequence, if there is one.
    fn push_header(&mut self, header: &Option<SequenceHeader>) -> QrResult<()>
        requires { HasHeader self.old.version header.now }
        ensures ok { OnOk result (Appends self.old self.new (header_bits header.now)) }
        ensures memory { IfErr result (λ e. e ≡ QrError.OutOfMemory) }
    {
        match header {
            Some(header) => {
                self.push_structured_append_header(header.position, header.total, header.parity)
            }
            None => Ok(()),
        }
    }

    /// Pushes what says that the data are of this content.
    fn push_content(&mut self, content: Content) -> QrResult<()>
        requires { HasContent self.old.version content }
        ensures ok { OnOk result (Appends self.old self.new (content_bits content)) }
        ensures memory { IfErr result (λ e. e ≡ QrError.OutOfMemory) }
    {
        match content {
            Content::Bytes => Ok(()),
            Content::Text => self.push_eci_designator(26),
            Content::Elements => self.push_fnc1_first_position(),
        }
    }
}

/// Returns the number of bits that say what the data are.
#[tactic(auto, unfolding(qrcode_base::specs::Numbers::number_bits))]
fn content_size(content: Content) -> usize
    ensures size { result ≡ length (content_bits content) }
    ensures few { result ≤ 12 }
{
    match content {
        Content::Bytes => 0,
        Content::Text => 12,
        Content::Elements => 4,
    }
}

/// Returns the byte as which a byte of this content is parsed.
fn parsed_byte(content: Content, byte: u8) -> u8
    ensures { result ≡ parsed_byte content byte }
{
    match content {
        Content::Bytes => byte,
        Content::Text => { if byte < 0x80 { byte } else { 0 } }
        Content::Elements => {
            if byte == 0x1d {
                0x25
            } else if byte == 0x25 {
                0
            } else if byte < 0x80 {
                byte
            } else {
                0
            }
        }
    }
}

/// Returns the bytes as which data of this content are parsed. It fails with `OutOfMemory`.
pub(super) fn parsed_bytes(alloc: Global, content: Content, bytes: &[u8]) -> QrResult<Vec<u8>>
    ensures ok { IfOk result (λ parsed. parsed.items ≡ map (parsed_byte content) bytes.now) }
    ensures memory { IfErr result (λ e. e ≡ QrError.OutOfMemory) }
{
    let mut parsed = Vec::with_capacity(alloc, bytes.len())?;
    for byte in bytes {
        parsed.push(parsed_byte(content, *byte))?;
    }
    Ok(parsed)
}

/// Returns whether a byte is one of the 82 characters of element strings, or a number sign.
#[tactic(auto, unfolding(crate::specs::Contents::is_element_character))]
fn is_element_character(byte: u8) -> bool
    ensures { result ≡ is_element_character byte }
{
    matches!(byte, 0x21..=0x23 | 0x25..=0x3f | b'A'..=b'Z' | b'_' | b'a'..=b'z')
}

/// Returns whether the byte at a place is a character of elements, or a separator with an element
/// on either side.
fn is_element_byte(bytes: &[u8], place: usize) -> bool
    requires { place < length bytes.now }
    ensures { IsTrue result ↔ IsElementByte bytes.now place }
{
    let byte = bytes[place];
    if byte != 0x1d {
        return is_element_character(byte);
    }
    place > 0 && place + 1 < bytes.len() && bytes[place - 1] != 0x1d
}

/// Returns the place of the first byte because of which the bytes are no GS1 elements, and that
/// byte; `None` if they are elements. Elements are of the 82 characters of GS1 and the number sign,
/// with the separator 1D (hex) between two of them: not at either end, and not after another.
pub fn first_no_element(bytes: &[u8]) -> Option<(usize, u8)>
    ensures { MatchOption result (AreElements bytes.now)
        (λ first. IsFirstNoElement bytes.now first.0 first.1) }
{
    for place in 0..bytes.len() {
        if !is_element_byte(bytes, place) {
            return Some((place, bytes[place]));
        }
    }
    None
}
