//! Compares the chosen plan with the least number of bits over all ways to cut some bytes into
//! pieces of any modes.

ghost use Rattle.std.specs.Prelude.{◌<◌, length};
ghost use Rattle.qrcode_base.specs.Symbols.{HasMicroNumber};

use crate::optimize_tests::{bits_of, segment};
use crate::search_tests::{next_below, version_of};
use qrcode_base::types::{Mode, QrResult, Version};
use qrcode_bits::optimize::{Parser, Segment, optimize_segments, supports_linear_costs};

/// A digit, a letter, a byte of no other class, and the two bytes of a pair of the Kanji mode.
static LETTERS: [u8; 5] = [b'7', b'A', b'\n', 0x93, 0xFA];

/// Returns whether two bytes are a pair of the Kanji mode (Shift JIS 8140 to 9FFC and E040
/// to EBBF).
fn is_pair(first: u8, second: u8) -> bool {
    let is_trail = 0x40 <= second && second <= 0xFC && second != 0x7F;
    match first {
        0x81..=0x9F | 0xE0..=0xEA => is_trail,
        0xEB => is_trail && second <= 0xBF,
        _ => false,
    }
}

/// Returns whether a byte is a character of the Alphanumeric mode.
fn is_alphanumeric(byte: u8) -> bool {
    byte.is_ascii_digit() || byte.is_ascii_uppercase() || b" $%*+-./:".contains(&byte)
}

/// Returns at which positions a piece may end without cutting a pair; pairs are taken from left
/// to right.
fn ends_of_units(rt: &HostRuntime, bytes: &[u8]) -> QrResult<Vec<bool>> {
    let mut ends = Vec::new(rt.alloc());
    ends.push(true)?;
    let mut is_second = false;
    for (at, byte) in bytes.iter().enumerate() {
        let next = bytes.get(at.saturating_add(1)).copied().unwrap_or(0);
        is_second = !is_second && is_pair(*byte, next);
        ends.push(!is_second)?;
    }
    Ok(ends)
}

/// Returns whether a version has a mode: M1 has Numeric alone, M2 also Alphanumeric, the others
/// have all four.
fn has_mode(version: Version, mode: Mode) -> bool {
    match version {
        Version::Micro(1) => mode == Mode::Numeric,
        Version::Micro(2) => mode == Mode::Numeric || mode == Mode::Alphanumeric,
        _ => true,
    }
}

/// In which modes some bytes can be encoded, updated byte by byte.
#[derive(Clone, Copy)]
struct Kinds {
    is_numeric: bool,
    is_alphanumeric: bool,
    are_pairs: bool,
    lead: Option<u8>,
}

impl Kinds {
    /// Adds one more byte.
    fn add(&mut self, byte: u8) {
        self.is_numeric = self.is_numeric && byte.is_ascii_digit();
        self.is_alphanumeric = self.is_alphanumeric && is_alphanumeric(byte);
        if let Some(lead) = self.lead {
            self.are_pairs = self.are_pairs && is_pair(lead, byte);
            self.lead = None;
        } else {
            self.lead = Some(byte);
        }
    }

    /// Returns the bits of a piece of these bytes in a mode, or `None` if the mode cannot
    /// encode them.
    fn bits_in(&self, mode: Mode, size: usize, version: Version) -> Option<usize>
        requires { HasMicroNumber version }
    {
        let can_write = match mode {
            Mode::Numeric => self.is_numeric,
            Mode::Alphanumeric => self.is_alphanumeric,
            Mode::Byte => true,
            Mode::Kanji => self.are_pairs && self.lead.is_none(),
        };
        (can_write && has_mode(version, mode)).then(|| bits_of(&[segment(mode, 0, size)], version))
    }
}

/// Returns the least bits of all pieces that begin at a position, each with the least bits of what
/// follows it.
fn least_from(
    bytes: &[u8],
    begin: usize,
    version: Version,
    ends: &[bool],
    least: &[Option<usize>],
) -> Option<usize>
    requires { HasMicroNumber version }
{
    let mut kinds = Kinds {
        is_numeric: true,
        is_alphanumeric: true,
        are_pairs: true,
        lead: None,
    };
    let mut best = None;
    for (at, byte) in bytes.iter().enumerate().skip(begin) {
        kinds.add(*byte);
        let end = at.saturating_add(1);
        let rest = least.get(end).copied().flatten();
        if ends.get(end) == Some(&true)
            && let Some(rest) = rest
        {
            for mode in [Mode::Numeric, Mode::Alphanumeric, Mode::Byte, Mode::Kanji] {
                if let Some(bits) = kinds.bits_in(mode, end - begin, version) {
                    let offer = bits.saturating_add(rest);
                    best = Some(best.map_or(offer, |b: usize| b.min(offer)));
                }
            }
        }
    }
    best
}

/// Returns the least bits of all ways to cut some bytes at some of the given positions, each piece
/// in any mode that can encode it.
fn least_bits(
    rt: &HostRuntime,
    bytes: &[u8],
    version: Version,
    ends: &[bool],
) -> QrResult<Option<usize>>
    requires { HasMicroNumber version }
{
    let mut least = Vec::new(rt.alloc());
    for _place in 0..bytes.len() {
        least.push(None)?;
    }
    least.push(Some(0))?;
    for begin in (0..bytes.len()).rev() {
        let best = least_from(bytes, begin, version, ends, &least);
        if let Some(place) = least.get_mut(begin) {
            *place = best;
        }
    }
    Ok(least.first().copied().flatten())
}

/// Returns the bits of the chosen plan.
fn planned_bits(rt: &HostRuntime, bytes: &[u8], version: Version) -> QrResult<Option<usize>>
    requires { HasMicroNumber version }
{
    let segments: Vec<Segment> = Parser::new(bytes).collect(rt.alloc())?;
    if !supports_linear_costs(&segments, version) {
        return Ok(None);
    }
    let plan = optimize_segments(rt.alloc(), &segments, version)?;
    Ok(Some(bits_of(&plan, version)))
}

/// Returns whether any two neighbouring bytes are a pair.
fn has_pair(bytes: &[u8]) -> bool {
    let mut before = 0;
    for byte in bytes {
        if is_pair(before, *byte) {
            return true;
        }
        before = *byte;
    }
    false
}

/// Returns whether nothing is shorter than the chosen plan, in the three classes of Normal versions
/// and in M1 to M4: no way that keeps the pairs whole, which is every way if there are no pairs. If
/// a version lacks a mode for these bytes, it has no way.
fn nothing_is_shorter(rt: &HostRuntime, bytes: &[u8]) -> QrResult<bool> {
    let ends = ends_of_units(rt, bytes)?;
    if !has_pair(bytes) && ends.contains(&false) {
        return Ok(false);
    }
    for case in 0..7usize {
        let version = version_of(case);
        let least = least_bits(rt, bytes, version, &ends)?;
        let planned = planned_bits(rt, bytes, version)?;
        if least.is_some() && least != planned {
            return Ok(false);
        }
    }
    Ok(true)
}

/// Returns the text of a number in base five.
fn text_of(rt: &HostRuntime, length: usize, number: usize) -> QrResult<Vec<u8>> {
    let mut text = Vec::new(rt.alloc());
    let mut digits = number;
    for _place in 0..length {
        text.push(LETTERS[digits % 5])?;
        digits /= 5;
    }
    Ok(text)
}

/// All strings of up to five of the letters.
#[test]
fn short_strings(rt: HostRuntime) -> QrResult<()> {
    let mut count = 1usize;
    for length in 0..6usize {
        for number in 0..count {
            assert!(rt; nothing_is_shorter(&rt, &text_of(&rt, length, number)?)?);
        }
        count = count.saturating_mul(5);
    }
    assert_eq!(rt; count, 15_625);
    Ok(())
}

/// Strings of 6 to 17 of the first letters, from a fixed seed.
fn longer_strings(rt: &HostRuntime, count: usize, letters: u64, seed: u64) -> QrResult<bool>
    requires { 0 < letters }
{
    let mut state = seed;
    for _case in 0..count {
        let mut text = Vec::new(rt.alloc());
        for _place in 0..6 + next_below(&mut state, 12) {
            text.push(LETTERS[next_below(&mut state, letters) % 5])?;
        }
        if !nothing_is_shorter(rt, &text)? {
            return Ok(false);
        }
    }
    Ok(true)
}

#[test]
fn longer_strings_without_pairs(rt: HostRuntime) -> QrResult<()> {
    assert!(rt; longer_strings(&rt, 2000, 3, 11)?);
    Ok(())
}

#[test]
fn longer_strings_with_pairs(rt: HostRuntime) -> QrResult<()> {
    assert!(rt; longer_strings(&rt, 2000, 5, 12)?);
    Ok(())
}

/// Four letters, twenty first bytes of pairs, `A`, and nine pairs.
const ALTERNATING: &[u8] =
    b"aaaa\x81\x81\x81\x81\x81\x81\x81\x81\x81\x81\x81\x81\x81\x81\x81\x81\x81\x81\x81\x81A\
    \x82B\x82B\x82B\x82B\x82B\x82B\x82B\x82B\x82B";

/// Texts for which a way that cuts a pair is shorter, the version, the least bits of all ways, and
/// the bits of the plan.
///
/// The first one by hand: Byte 81 and Kanji (81 41)^6 take 20 and 90 bits; the first pair of a plan
/// is 81 81, so that it has Byte 81 81 41 and Kanji (81 41)^5, of 36 and 77 bits. The others come
/// from a search by a program in another language.
static SHORTER: [(&[u8], Version, usize, usize); 3] = [
    (
        b"\x81\x81A\x81A\x81A\x81A\x81A\x81A",
        Version::Normal(1),
        110,
        113,
    ),
    (ALTERNATING, Version::Normal(9), 311, 334),
    (ALTERNATING, Version::Normal(27), 323, 353),
];

#[test]
fn a_way_that_cuts_a_pair_may_be_shorter(rt: HostRuntime) -> QrResult<()> {
    for (text, version, least, planned) in &SHORTER {
        let ends = ends_of_units(&rt, text)?;
        let mut everywhere = Vec::new(rt.alloc());
        for _end in 0..ends.len() {
            everywhere.push(true)?;
        }
        assert_eq!(rt; least_bits(&rt, text, *version, &everywhere)?, Some(*least));
        assert_eq!(rt; planned_bits(&rt, text, *version)?, Some(*planned));
        assert_eq!(rt; least_bits(&rt, text, *version, &ends)?, Some(*planned));
    }
    Ok(())
}
