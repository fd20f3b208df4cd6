//! Tests of incomplete groups of digits and letters, headers, unusual orders of pushes, and errors.

use super::{Accepted, BYTES, DIGITS, M1, M3, M4, ONE, Push, Refused, all_hold, all_leave};
use qrcode_base::types::{EcLevel, Mode, QrError, QrResult, Version};
use qrcode_bits::bits::ExtendedMode;

const M2: Version = Version::Micro(2);

const SIGNS: &[Mode] = &[Mode::Alphanumeric];

const FIRST: Push = Push::Header(1, 3, 0x5a);

const END: Push = Push::Terminator(EcLevel::L);

static RESTS: [Accepted; 15] = [
    (
        ONE,
        &[],
        Push::Numeric(b"9"),
        18,
        18,
        DIGITS,
        &[0x10, 0x06, 0x40],
    ),
    (
        ONE,
        &[],
        Push::Numeric(b"98"),
        21,
        21,
        DIGITS,
        &[0x10, 0x0b, 0x10],
    ),
    (
        ONE,
        &[],
        Push::Numeric(b"987"),
        24,
        24,
        DIGITS,
        &[0x10, 0x0f, 0xdb],
    ),
    (
        ONE,
        &[],
        Push::Numeric(b"9876"),
        28,
        28,
        DIGITS,
        &[0x10, 0x13, 0xdb, 0x60],
    ),
    (
        Version::Normal(27),
        &[],
        Push::Numeric(b"98765"),
        35,
        35,
        DIGITS,
        &[0x10, 0x01, 0x7d, 0xb8, 0x20],
    ),
    (M1, &[], Push::Numeric(b"9"), 7, 7, DIGITS, &[0x32]),
    (M1, &[], Push::Numeric(b"98"), 10, 10, DIGITS, &[0x58, 0x80]),
    (
        M4,
        &[],
        Push::Numeric(b"9876"),
        23,
        23,
        DIGITS,
        &[0x02, 0x7b, 0x6c],
    ),
    (
        M4,
        &[],
        Push::Numeric(b"98765"),
        26,
        26,
        DIGITS,
        &[0x02, 0xfb, 0x70, 0x40],
    ),
    (
        ONE,
        &[],
        Push::Alphanumeric(b"Z"),
        19,
        19,
        SIGNS,
        &[0x20, 0x0c, 0x60],
    ),
    (
        ONE,
        &[],
        Push::Alphanumeric(b"Z:"),
        24,
        24,
        SIGNS,
        &[0x20, 0x16, 0x53],
    ),
    (
        Version::Normal(10),
        &[],
        Push::Alphanumeric(b"Z:7"),
        32,
        32,
        SIGNS,
        &[0x20, 0x07, 0x94, 0xc7],
    ),
    (
        M2,
        &[],
        Push::Alphanumeric(b"Z"),
        10,
        10,
        SIGNS,
        &[0x98, 0xc0],
    ),
    (
        M3,
        &[],
        Push::Alphanumeric(b"Z:"),
        17,
        17,
        SIGNS,
        &[0x4b, 0x29, 0x80],
    ),
    (
        M4,
        &[],
        Push::Alphanumeric(b"Z:7"),
        25,
        25,
        SIGNS,
        &[0x23, 0xca, 0x63, 0x80],
    ),
];

/// Digits and letters that end in a whole group, or with one or two left. The original crate
/// returns the same.
#[test]
fn rests_of_one_and_two(rt: HostRuntime) -> QrResult<()> {
    all_hold(&rt, rt.alloc(), &RESTS)
}

static HEADERS: [Accepted; 9] = [
    (ONE, &[], Push::Eci(899), 20, 20, &[], &[0x78, 0x38, 0x30]),
    (
        ONE,
        &[],
        Push::Eci(999999),
        28,
        28,
        &[],
        &[0x7c, 0xf4, 0x23, 0xf0],
    ),
    (ONE, &[], Push::Fnc1First, 4, 4, &[], &[0x50]),
    (
        ONE,
        &[],
        Push::Indicator(ExtendedMode::Eci),
        4,
        4,
        &[],
        &[0x70],
    ),
    (ONE, &[], Push::Fnc1Second(37), 12, 12, &[], &[0x92, 0x50]),
    (ONE, &[], FIRST, 20, 20, &[], &[0x30, 0x25, 0xa0]),
    (
        ONE,
        &[FIRST],
        Push::Header(2, 3, 0x5a),
        40,
        40,
        &[],
        &[0x30, 0x25, 0xa3, 0x12, 0x5a],
    ),
    (
        ONE,
        &[],
        Push::Number(16, 65535),
        16,
        16,
        &[],
        &[0xff, 0xff],
    ),
    (ONE, &[], Push::Number(0, 0), 0, 0, &[], &[]),
];

#[test]
fn headers(rt: HostRuntime) -> QrResult<()> {
    all_hold(&rt, rt.alloc(), &HEADERS)
}

static REFUSED_HEADERS: [Refused; 8] = [
    (
        M4,
        &[],
        Push::Header(1, 3, 0x5a),
        QrError::UnsupportedCharacterSet,
    ),
    (
        ONE,
        &[],
        Push::Eci(1000000),
        QrError::InvalidEciDesignator { value: 1000000 },
    ),
    (
        M4,
        &[],
        Push::Eci(1000000),
        QrError::UnsupportedCharacterSet,
    ),
    (
        ONE,
        &[],
        Push::Header(1, 17, 0x5a),
        QrError::InvalidStructuredAppend { value: 17 },
    ),
    (
        ONE,
        &[],
        Push::Header(0, 3, 0x5a),
        QrError::InvalidStructuredAppend { value: 0 },
    ),
    (ONE, &[], Push::Number(0, 1), QrError::DataTooLong),
    (ONE, &[], Push::Number(17, 0), QrError::DataTooLong),
    (ONE, &[FIRST], Push::Number(99, 0), QrError::DataTooLong),
];

#[test]
fn refused_headers(rt: HostRuntime) -> QrResult<()> {
    all_leave(&rt, rt.alloc(), &REFUSED_HEADERS)
}

/// 164 bits: version 1, ended at level L, and the indicator and designator of an ECI after it.
const ENDED: [u8; 21] = [
    0, 0xec, 0x11, 0xec, 0x11, 0xec, 0x11, 0xec, 0x11, 0xec, 0x11, 0xec, 0x11, 0xec, 0x11, 0xec,
    0x11, 0xec, 0x11, 0x70, 0x90,
];

/// The same, with the letter a as a Byte segment after it.
const ENDED_AND_MORE: [u8; 23] = [
    0, 0xec, 0x11, 0xec, 0x11, 0xec, 0x11, 0xec, 0x11, 0xec, 0x11, 0xec, 0x11, 0xec, 0x11, 0xec,
    0x11, 0xec, 0x11, 0x70, 0x94, 0x01, 0x61,
];

static ORDERS: [Accepted; 4] = [
    (ONE, &[END], Push::Eci(9), 164, 0, &[], &ENDED),
    (
        ONE,
        &[END, Push::Eci(9)],
        Push::Byte(b"a"),
        184,
        184,
        BYTES,
        &ENDED_AND_MORE,
    ),
    (
        M1,
        &[Push::Numeric(b"1234"), END],
        END,
        20,
        20,
        DIGITS,
        &[0x83, 0xda, 0],
    ),
    (
        Version::Normal(0),
        &[],
        Push::Numeric(b"1"),
        22,
        22,
        DIGITS,
        &[0x10, 0, 0x44],
    ),
];

#[test]
fn unusual_orders(rt: HostRuntime) -> QrResult<()> {
    all_hold(&rt, rt.alloc(), &ORDERS)
}

const FILLED: &[Push] = &[END, Push::Eci(9), Push::Byte(b"a")];

const BEGUN: &[Push] = &[Push::Number(3, 5), Push::Numeric(b"12")];

const LACKS: QrError = QrError::UnsupportedCharacterSet;

static REFUSALS: [Refused; 11] = [
    (
        ONE,
        BEGUN,
        Push::Kanji(&[0x82, 0]),
        QrError::InvalidCharacter {
            position: 0,
            byte: 0x82,
        },
    ),
    (M2, &[], Push::Kanji(&[0x82, 0]), LACKS),
    (M1, &[], Push::Alphanumeric(b"a"), LACKS),
    (
        M1,
        &[],
        Push::AlphanumericType(b"a"),
        QrError::InvalidCharacter {
            position: 0,
            byte: 0x61,
        },
    ),
    (M1, &[], Push::AlphanumericType(b"A"), LACKS),
    (
        ONE,
        BEGUN,
        Push::CarelessType(b"1a"),
        QrError::InvalidCharacter {
            position: 1,
            byte: 0x61,
        },
    ),
    (
        ONE,
        BEGUN,
        Push::StubbornType(b"a"),
        QrError::InvalidCharacter {
            position: 9,
            byte: 0x7a,
        },
    ),
    (
        ONE,
        &[Push::Number(3, 5)],
        Push::Reserve(usize::MAX),
        QrError::OutOfMemory,
    ),
    (ONE, FILLED, END, QrError::DataTooLong),
    (
        M3,
        &[Push::Terminator(EcLevel::M)],
        Push::Terminator(EcLevel::M),
        QrError::DataTooLong,
    ),
    (
        M1,
        &[Push::Numeric(b"1")],
        Push::Terminator(EcLevel::M),
        QrError::InvalidVersion {
            version: M1,
            ec_level: EcLevel::M,
        },
    ),
];

#[test]
fn refusals(rt: HostRuntime) -> QrResult<()> {
    all_leave(&rt, rt.alloc(), &REFUSALS)
}
