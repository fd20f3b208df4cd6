//! Tests of error correction, with worked values.

mod plain;

ghost use Rattle.std.specs.Prelude.{◌<◌};

use qrcode_base::types::{EcLevel, QrError, Version};
use qrcode_grid::ec::{construct_codewords, create_error_correction_code, max_allowed_errors};
use std::alloc::Global;

/// The codewords of the text HELLO WORLD at 1-M.
static HELLO_WORLD: [u8; 16] = [
    0x20, 0x5B, 0x0B, 0x78, 0xD1, 0x72, 0xDC, 0x4D, 0x43, 0x40, 0xEC, 0x11, 0xEC, 0x11, 0xEC, 0x11,
];

/// Its correction codewords.
static HELLO_WORLD_CODE: [u8; 10] = [0xC4, 0x23, 0x27, 0x77, 0xEB, 0xD7, 0xE7, 0xE2, 0x5D, 0x17];

/// Returns whether the correction of some data is this one.
fn has_code(alloc: Global, data: &[u8], want: &[u8]) -> bool {
    if want.len() > 69 {
        return false;
    }
    match create_error_correction_code(alloc, data, want.len()) {
        Ok(code) => code.as_slice() == want,
        Err(_) => false,
    }
}

#[test]
fn corrects(rt: HostRuntime) {
    assert!(rt; has_code(rt.alloc(), &HELLO_WORLD, &HELLO_WORLD_CODE));
    assert!(rt; has_code(rt.alloc(), &[0xA3, 0xDA, 0xD0], &[0x6E, 0xC7]));
    assert!(rt; has_code(rt.alloc(), &[], &[0; 69]));
}

/// Returns whether a change of one bit changes each of the ten correction codewords.
fn is_far(alloc: Global, byte: usize, bit: u8) -> bool
    requires { byte < 16 }
{
    let mut data = HELLO_WORLD;
    data[byte] ^= bit;
    let Ok(code) = create_error_correction_code(alloc, &data, 10) else {
        return false;
    };
    let pairs = code.iter().zip(HELLO_WORLD_CODE.iter());
    pairs.filter(|pair| pair.0 != pair.1).count() >= 10
}

/// Two codewords of one block differ in more places than they have correction bytes.
#[test]
fn changes_of_one_bit_are_far(rt: HostRuntime) {
    for byte in 0..16 {
        for bit in [1, 2, 4, 8, 16, 32, 64, 128] {
            assert!(rt; is_far(rt.alloc(), byte, bit), "bit {bit} of byte {byte}");
        }
    }
}

/// The data of four blocks.
static FOUR_BLOCKS: [u8; 62] = [
    0x43, 0x55, 0x46, 0x86, 0x57, 0x26, 0x55, 0xC2, 0x77, 0x32, 0x06, 0x12, 0x06, 0x67, 0x26, 0xF6,
    0xF6, 0x42, 0x07, 0x76, 0x86, 0xF2, 0x07, 0x26, 0x56, 0x16, 0xC6, 0xC7, 0x92, 0x06, 0xB6, 0xE6,
    0xF7, 0x77, 0x32, 0x07, 0x76, 0x86, 0x57, 0x26, 0x52, 0x06, 0x86, 0x97, 0x32, 0x07, 0x46, 0xF7,
    0x76, 0x56, 0xC2, 0x06, 0x97, 0x32, 0x10, 0xEC, 0x11, 0xEC, 0x11, 0xEC, 0x11, 0xEC,
];

/// The data, block by block in turn.
static FOUR_STREAM: [u8; 62] = [
    0x43, 0xF6, 0xB6, 0x46, 0x55, 0xF6, 0xE6, 0xF7, 0x46, 0x42, 0xF7, 0x76, 0x86, 0x07, 0x77, 0x56,
    0x57, 0x76, 0x32, 0xC2, 0x26, 0x86, 0x07, 0x06, 0x55, 0xF2, 0x76, 0x97, 0xC2, 0x07, 0x86, 0x32,
    0x77, 0x26, 0x57, 0x10, 0x32, 0x56, 0x26, 0xEC, 0x06, 0x16, 0x52, 0x11, 0x12, 0xC6, 0x06, 0xEC,
    0x06, 0xC7, 0x86, 0x11, 0x67, 0x92, 0x97, 0xEC, 0x26, 0x06, 0x32, 0x11, 0x07, 0xEC,
];

/// Their correction codewords, in the same order.
static FOUR_CODES: [u8; 72] = [
    0xD5, 0x57, 0x94, 0xEB, 0xC7, 0xCC, 0x74, 0x9F, 0x0B, 0x60, 0xB1, 0x05, 0x2D, 0x3C, 0xD4, 0xAD,
    0x73, 0xCA, 0x4C, 0x18, 0xF7, 0xB6, 0x85, 0x93, 0xF1, 0x7C, 0x4B, 0x3B, 0xDF, 0x9D, 0xF2, 0x21,
    0xE5, 0xC8, 0xEE, 0x6A, 0xF8, 0x86, 0x4C, 0x28, 0x9A, 0x1B, 0xC3, 0xFF, 0x75, 0x81, 0xE6, 0xAC,
    0x9A, 0xD1, 0xBD, 0x52, 0x6F, 0x11, 0x0A, 0x02, 0x56, 0xA3, 0x6C, 0x83, 0xA1, 0xA3, 0xF0, 0x20,
    0x6F, 0x78, 0xC0, 0xB2, 0x27, 0x85, 0x8D, 0xEC,
];

#[test]
fn interleaves_four_blocks(rt: HostRuntime) {
    let (version, level) = (Version::Normal(5), EcLevel::Q);
    let codewords = construct_codewords(rt.alloc(), &FOUR_BLOCKS, version, level);
    let (stream, correction) = codewords.expect(&rt, "codewords");
    assert!(rt; stream.as_slice() == &FOUR_STREAM[..]);
    assert!(rt; correction.as_slice() == &FOUR_CODES[..]);
}

/// The first 15 of these data.
static BLOCK: [u8; 15] = [
    0x43, 0x55, 0x46, 0x86, 0x57, 0x26, 0x55, 0xC2, 0x77, 0x32, 0x06, 0x12, 0x06, 0x67, 0x26,
];

/// The remainders of the block by generators of several degrees.
static REMAINDERS: [&[u8]; 7] = [
    &[0x26],
    &[0x1E, 0x38],
    &[0x68, 0x04, 0xEC, 0x16, 0x9C, 0x65, 0x49],
    &[0x5D, 0x75, 0xA8, 0xA9, 0x8D, 0x46, 0xDD, 0x4C, 0x55],
    &[
        0xD5, 0xC7, 0x0B, 0x2D, 0x73, 0xF7, 0xF1, 0xDF, 0xE5, 0xF8, 0x9A, 0x75, 0x9A, 0x6F, 0x56,
        0xA1, 0x6F, 0x27,
    ],
    &[
        0x7F, 0xF2, 0x0B, 0x9D, 0x19, 0xAE, 0x3F, 0x23, 0x5A, 0x3B, 0xF9, 0x4F, 0xC4, 0x03, 0xF1,
        0x46, 0x29, 0x4B, 0x74, 0xBC, 0xAE, 0x4A, 0xCB, 0x0B, 0x23, 0x3F, 0xDF, 0x85, 0xC6, 0xAD,
        0x6E, 0xFC,
    ],
    &[
        0x97, 0x87, 0x93, 0x70, 0x21, 0x8E, 0x94, 0x05, 0x22, 0x97, 0x5D, 0xEB, 0xB3, 0x44, 0x2B,
        0x57, 0xBD, 0x17, 0xBC, 0x1F, 0xD0, 0xC6, 0x36, 0x69, 0x9F, 0x0A, 0x2C, 0x26, 0x67, 0xD9,
        0xA6, 0x09, 0xAD,
    ],
];

/// The first 13 codewords of HELLO WORLD, at 1-Q, and their correction.
static QUARTILE: [u8; 13] = [
    0x20, 0x5B, 0x0B, 0x78, 0xD1, 0x72, 0xDC, 0x4D, 0x43, 0x40, 0xEC, 0x11, 0xEC,
];

static QUARTILE_CODE: [u8; 13] = [
    0xA8, 0x48, 0x16, 0x52, 0xD9, 0x36, 0x9C, 0x00, 0x2E, 0x0F, 0xB4, 0x7A, 0x10,
];

/// The remainders of a block of 15 data bytes, and of the text HELLO WORLD at 1-Q, by generators of
/// several degrees.
#[test]
fn divides(rt: HostRuntime) {
    for want in REMAINDERS {
        assert!(rt; has_code(rt.alloc(), &BLOCK, want));
    }
    assert!(rt; has_code(rt.alloc(), &QUARTILE, &QUARTILE_CODE));
}

/// Returns twice an element of the field, whose polynomial is x^8 + x^4 + x^3 + x^2 + 1.
fn double(element: u8) -> u8 {
    let over = if element >= 0x80 { 0x1D } else { 0 };
    element << 1 ^ over
}

/// Exponents, powers of two in the field by them, and remainders by the generator of degree 2.
static POWERS: [(usize, u8, [u8; 2]); 3] = [
    (2, 4, [0x03, 0x02]),
    (8, 0x1D, [0xFF, 0xFE]),
    (255, 1, [0x00, 0x01]),
];

/// Returns whether the remainder of a power of x is this one.
fn has_remainder(alloc: Global, exponent: usize, want: &[u8; 2]) -> bool {
    let mut power = [0; 254];
    power[0] = 1;
    exponent > 1 && exponent <= 255 && has_code(alloc, &power[..exponent - 1], want)
}

/// Powers of two in the field, by their exponents: the remainder a·x + b of x^m has the value of
/// x^m at each root of the generator, which are 1 and 2 at degree 2, and 1 alone at degree 1.
#[test]
fn raises_two(rt: HostRuntime) {
    assert!(rt; has_code(rt.alloc(), &[1], &[1]));
    for (exponent, power, want) in POWERS {
        assert!(rt;
            has_remainder(rt.alloc(), exponent, &want),
            "exponent {exponent}"
        );
        assert!(rt; double(want[0]) ^ want[1] == power && want[0] ^ want[1] == 1);
    }
}

/// The generators of 9 and of 11 correction bytes without their first coefficients, by the rule of
/// ISO/IEC 18004:2006 (error correction codeword generation): no block of a symbol has as many. The
/// last root of the first is 2^8, and in the products of the second powers add up to 2^255.
static MULTIPLIED_OUT: [&[u8]; 2] = [
    &[0xE2, 0xCF, 0x9E, 0xF5, 0xEB, 0xA4, 0xE8, 0xC5, 0x25],
    &[
        0xAC, 0x82, 0xA3, 0x32, 0x7B, 0xDB, 0xA2, 0xF8, 0x90, 0x74, 0xA0,
    ],
];

/// Returns the value of x^9 and a remainder of it at 2^8 in the field, by doubling.
fn value_at_last_root(remainder: &[u8]) -> u8 {
    let mut value = 1u8;
    for coefficient in remainder {
        for _ in 0..8 {
            value = double(value);
        }
        value ^= coefficient;
    }
    value
}

#[test]
fn multiplies_generators_out(rt: HostRuntime) {
    for want in MULTIPLIED_OUT {
        assert!(rt; has_code(rt.alloc(), &[1], want));
    }
    assert_eq!(rt; value_at_last_root(MULTIPLIED_OUT[0]), 0);
}

/// Returns the error of some data, if there is one.
fn refusal(alloc: Global, data: &[u8], version: Version, level: EcLevel) -> Option<QrError> {
    construct_codewords(alloc, data, version, level).err()
}

#[test]
fn refuses(rt: HostRuntime) {
    let (version, ec_level) = (Version::Micro(2), EcLevel::Q);
    let none = refusal(rt.alloc(), &[], version, ec_level);
    assert!(rt; none == Some(QrError::InvalidVersion { version, ec_level }));
    let short = refusal(rt.alloc(), &[0; 15], Version::Normal(1), EcLevel::M);
    let (expected, actual) = (16, 15);
    assert!(rt; short == Some(QrError::InvalidDataLength { expected, actual }));
    let (version, ec_level) = (Version::Normal(41), EcLevel::L);
    let beyond = max_allowed_errors(version, ec_level).err();
    assert!(rt; beyond == Some(QrError::InvalidVersion { version, ec_level }));
}

/// Versions, and how many errors each allows at the levels L, M, Q and H.
static ALLOWED: [(Version, [Option<usize>; 4]); 10] = [
    (Version::Normal(1), [Some(2), Some(4), Some(6), Some(8)]),
    (Version::Normal(2), [Some(4), Some(8), Some(11), Some(14)]),
    (Version::Normal(3), [Some(7), Some(13), Some(18), Some(22)]),
    (Version::Normal(4), [Some(10), Some(18), Some(26), Some(32)]),
    (Version::Normal(5), [Some(13), Some(24), Some(36), Some(44)]),
    (
        Version::Normal(40),
        [Some(375), Some(686), Some(1020), Some(1215)],
    ),
    (Version::Micro(1), [Some(0), None, None, None]),
    (Version::Micro(2), [Some(1), Some(2), None, None]),
    (Version::Micro(3), [Some(2), Some(4), None, None]),
    (Version::Micro(4), [Some(3), Some(5), Some(7), None]),
];

/// Returns how many errors a version allows at each level.
fn allowed(version: Version) -> [Option<usize>; 4] {
    [EcLevel::L, EcLevel::M, EcLevel::Q, EcLevel::H].map(|level| max_allowed_errors(
        version, level,
    ).ok())
}

#[test]
fn allows_errors(rt: HostRuntime) {
    for (version, want) in ALLOWED {
        assert!(rt; allowed(version) == want, "{version:?}");
    }
}
