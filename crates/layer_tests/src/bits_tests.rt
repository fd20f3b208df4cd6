//! Tests of pushes, each with a row of expected values.

mod case_tests;
mod encoding_tests;
mod micro_tests;
mod order_tests;
mod part_tests;

use qrcode_base::mode::{AlphanumericMode, EncodingMode};
use qrcode_base::types::{EcLevel, Mode, QrError, QrResult, Version};
use qrcode_bits::bits::{Bits, EncodingModes, ExtendedMode};
use std::alloc::Global;
use std::process::Abort;

/// A push.
#[derive(Clone, Copy)]
pub enum Push {
    Number(usize, usize),
    Eci(u32),
    Fnc1First,
    Fnc1Second(u8),
    Indicator(ExtendedMode),
    Header(u8, u8, u8),
    Numeric(&'static [u8]),
    Alphanumeric(&'static [u8]),
    Byte(&'static [u8]),
    Kanji(&'static [u8]),
    AlphanumericType(&'static [u8]),
    CarelessType(&'static [u8]),
    StubbornType(&'static [u8]),
    Terminator(EcLevel),
    Reserve(usize),
}

/// A mode type that accepts every byte as a digit.
struct Careless;

impl EncodingMode for Careless {
    ghost use Rattle.qrcode_base.specs.declared.types.Mode.TheVariants.{Numeric};
    ghost use Rattle.std.specs.Prelude.{None};

    ghost MODE = { Numeric };

    const MODE: Mode = Mode::Numeric;

    ghost finding = { λ _. None };

    fn invalid_character(_bytes: &[u8]) -> Option<(usize, u8)> {
        None
    }
}

/// A mode type that always reports the same byte as invalid, even if it is not in the text.
struct Stubborn;

impl EncodingMode for Stubborn {
    ghost use Rattle.qrcode_base.specs.declared.types.Mode.TheVariants.{Byte};
    ghost use Rattle.std.specs.Prelude.{Some};

    ghost MODE = { Byte };

    const MODE: Mode = Mode::Byte;

    ghost finding = { λ _. Some (9, 122) };

    fn invalid_character(_bytes: &[u8]) -> Option<(usize, u8)> {
        Some((9, 0x7a))
    }
}

impl Push {
    /// Performs the push.
    pub fn apply(self, bits: &mut Bits) -> QrResult<()> {
        match self {
            Push::Number(width, number) => bits.push_number_checked(width, number),
            Push::Eci(designator) => bits.push_eci_designator(designator),
            Push::Fnc1First => bits.push_fnc1_first_position(),
            Push::Fnc1Second(application) => bits.push_fnc1_second_position(application),
            Push::Indicator(mode) => bits.push_mode_indicator(mode),
            Push::Header(position, total, parity) => {
                bits.push_structured_append_header(position, total, parity)
            }
            Push::Numeric(text) => bits.push_numeric_data(text),
            Push::Alphanumeric(text) => bits.push_alphanumeric_data(text),
            Push::Byte(text) => bits.push_byte_data(text),
            Push::Kanji(text) => bits.push_kanji_data(text),
            Push::AlphanumericType(text) => bits.push_mode_data::<AlphanumericMode>(text),
            Push::CarelessType(text) => bits.push_mode_data::<Careless>(text),
            Push::StubbornType(text) => bits.push_mode_data::<Stubborn>(text),
            Push::Terminator(level) => bits.push_terminator(level),
            Push::Reserve(room) => bits.reserve(room),
        }
    }
}

/// Pushes that succeed, one more push that succeeds, and the expected result: bits, payload, modes
/// and bytes.
pub type Accepted = (
    Version,
    &'static [Push],
    Push,
    usize,
    usize,
    &'static [Mode],
    &'static [u8],
);

/// Pushes that succeed, and one more push with its error.
pub type Refused = (Version, &'static [Push], Push, QrError);

/// Returns an empty stream of a version.
fn started(alloc: Global, version: Version) -> Bits {
    match version {
        Version::Micro(1) => Bits::new(alloc, Version::Micro(1)),
        Version::Micro(2) => Bits::new(alloc, Version::Micro(2)),
        Version::Micro(3) => Bits::new(alloc, Version::Micro(3)),
        Version::Micro(_) => Bits::new(alloc, Version::Micro(4)),
        Version::Normal(number) => Bits::new(alloc, Version::Normal(number)),
    }
}

/// Returns whether a set has exactly these modes.
pub fn has_modes(set: EncodingModes, modes: &[Mode]) -> bool {
    set.len() == modes.len() && modes.iter().all(|mode| set.contains(*mode))
}

/// Returns the stream after some pushes, which succeed.
pub fn pushed(alloc: Global, version: Version, pushes: &[Push]) -> QrResult<Bits> {
    let mut bits = started(alloc, version);
    for push in pushes {
        push.apply(&mut bits)?;
    }
    Ok(bits)
}

/// Returns whether the result of a row is as expected.
fn holds(alloc: Global, row: &Accepted) -> QrResult<bool> {
    let (version, first, last, len, payload, modes, bytes) = *row;
    let mut bits = pushed(alloc, version, first)?;
    last.apply(&mut bits)?;
    let told = bits.len() == len && bits.payload_bits_len() == payload;
    let noted = has_modes(bits.encoding_modes(), modes) && bits.version() == version;
    Ok(told && noted && bits.into_bytes().as_slice() == bytes)
}

/// Checks each row.
pub fn all_hold(rt: &impl Abort, alloc: Global, rows: &[Accepted]) -> QrResult<()> {
    for (place, row) in rows.iter().enumerate() {
        assert!(rt; holds(alloc, row)?, "row {place}");
    }
    Ok(())
}

/// Returns whether the push fails with the expected error and leaves length, payload, modes,
/// version and bits unchanged.
fn leaves_all(alloc: Global, row: &Refused) -> QrResult<bool> {
    let (version, first, last, error) = *row;
    let before = pushed(alloc, version, first)?;
    let mut after = pushed(alloc, version, first)?;
    let answer = last.apply(&mut after);
    let told = before.len() == after.len()
        && before.payload_bits_len() == after.payload_bits_len()
        && before.encoding_modes() == after.encoding_modes()
        && before.version() == after.version();
    Ok(
        answer == Err(error)
            && told
            && before.into_bytes().as_slice() == after.into_bytes().as_slice(),
    )
}

/// Checks each row of failing pushes.
pub fn all_leave(rt: &impl Abort, alloc: Global, rows: &[Refused]) -> QrResult<()> {
    for (place, row) in rows.iter().enumerate() {
        assert!(rt; leaves_all(alloc, row)?, "row {place}");
    }
    Ok(())
}

pub const ONE: Version = Version::Normal(1);

pub const M1: Version = Version::Micro(1);

pub const M3: Version = Version::Micro(3);

pub const M4: Version = Version::Micro(4);

pub const DIGITS: &[Mode] = &[Mode::Numeric];

pub const BYTES: &[Mode] = &[Mode::Byte];

static ENDINGS: [Accepted; 9] = [
    (
        ONE,
        &[],
        Push::Numeric(b"01234567"),
        41,
        41,
        DIGITS,
        &[0x10, 0x20, 0x0c, 0x56, 0x61, 0x80],
    ),
    (
        ONE,
        &[],
        Push::Kanji(&[0x93, 0x5f, 0xe4, 0xaa]),
        38,
        38,
        &[Mode::Kanji],
        &[0x80, 0x26, 0xcf, 0xea, 0xa8],
    ),
    (ONE, &[], Push::Byte(&[]), 12, 12, BYTES, &[0x40, 0]),
    (
        ONE,
        &[Push::Number(3, 5)],
        Push::Byte(&[0xff, 0]),
        31,
        31,
        BYTES,
        &[0xa8, 0x05, 0xfe, 0],
    ),
    (
        ONE,
        &[Push::Numeric(b"01234567")],
        Push::Terminator(EcLevel::M),
        128,
        41,
        DIGITS,
        &[
            0x10, 0x20, 0x0c, 0x56, 0x61, 0x80, 0xec, 0x11, 0xec, 0x11, 0xec, 0x11, 0xec, 0x11,
            0xec, 0x11,
        ],
    ),
    (
        M3,
        &[],
        Push::Terminator(EcLevel::L),
        88,
        0,
        &[],
        &[0, 0xec, 0x11, 0xec, 0x11, 0xec, 0x11, 0xec, 0x11, 0xec, 0],
    ),
    (
        M3,
        &[],
        Push::Terminator(EcLevel::M),
        72,
        0,
        &[],
        &[0, 0xec, 0x11, 0xec, 0x11, 0xec, 0x11, 0xec, 0],
    ),
    (
        M1,
        &[Push::Numeric(b"123")],
        Push::Terminator(EcLevel::L),
        24,
        13,
        DIGITS,
        &[0x63, 0xd8, 0],
    ),
    (
        M3,
        &[Push::Numeric(b"00000000000000000000")],
        Push::Terminator(EcLevel::L),
        88,
        74,
        DIGITS,
        &[0x28, 0, 0, 0, 0, 0, 0, 0, 0, 0, 0],
    ),
];

#[test]
fn data_and_terminators(rt: HostRuntime) -> QrResult<()> {
    all_hold(&rt, rt.alloc(), &ENDINGS)
}
