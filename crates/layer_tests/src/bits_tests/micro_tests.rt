//! Tests of Micro symbols: encoded data and the versions that it takes.

use super::encoding_tests::{is_encoded, more_than, taken, text_of};
use qrcode_base::types::{EcLevel, Mode, QrError, QrResult, Version};
use qrcode_bits::bits::{EncodingModes, encode_auto_micro};
use std::alloc::Global;
use std::process::Abort;

#[test]
fn encoded_micro_bytes(rt: HostRuntime) {
    let mut bits = encode_auto_micro(rt.alloc(), b"1", EcLevel::L).expect(&rt, "no bits");
    assert!(rt; bits.len() == 24);
    assert!(rt; bits.push_terminator(EcLevel::L) == Err(QrError::DataTooLong));
    assert!(rt; is_encoded(bits, &(Version::Micro(1), 7, &[0x22, 0, 0])));
}

#[test]
fn encoded_empty_micro_bytes(rt: HostRuntime) {
    let bits = encode_auto_micro(rt.alloc(), b"", EcLevel::L).expect(&rt, "no bits");
    assert!(rt; bits.len() == 24);
    assert!(rt; is_encoded(bits, &(Version::Micro(1), 0, &[0, 0xec, 0])));
}

/// Levels, with what empty data takes in a Micro symbol.
static MICRO_LEVELS: [(EcLevel, QrResult<(Version, usize)>); 3] = [
    (EcLevel::M, Ok((Version::Micro(2), 0))),
    (EcLevel::Q, Ok((Version::Micro(4), 0))),
    (
        EcLevel::H,
        Err(QrError::InvalidVersion {
            version: Version::Micro(4),
            ec_level: EcLevel::H,
        }),
    ),
];

/// Digits, with what they take in a Micro symbol.
static MICRO_DIGITS: [(&[u8], QrResult<(Version, usize)>); 2] = [
    (&[b'7'; 35], Ok((Version::Micro(4), 126))),
    (&[b'7'; 36], Err(QrError::DataTooLong)),
];

#[test]
fn micro_versions_by_level_and_count(rt: HostRuntime) {
    for (level, wanted) in &MICRO_LEVELS {
        assert!(rt; taken(encode_auto_micro(rt.alloc(), b"", *level)) == *wanted);
    }
    for (digits, wanted) in &MICRO_DIGITS {
        assert!(rt; taken(encode_auto_micro(rt.alloc(), digits, EcLevel::L)) == *wanted);
    }
}

/// The greatest counts of each mode in each Micro version (ISO/IEC 18004:2006, table 7), as pairs
/// of the version number and the count.
static LIMITS: [(EcLevel, Mode, &[(i16, usize)]); 12] = [
    (
        EcLevel::L,
        Mode::Numeric,
        &[(1, 5), (2, 10), (3, 23), (4, 35)],
    ),
    (EcLevel::L, Mode::Alphanumeric, &[(2, 6), (3, 14), (4, 21)]),
    (EcLevel::L, Mode::Byte, &[(3, 9), (4, 15)]),
    (EcLevel::L, Mode::Kanji, &[(3, 6), (4, 9)]),
    (EcLevel::M, Mode::Numeric, &[(2, 8), (3, 18), (4, 30)]),
    (EcLevel::M, Mode::Alphanumeric, &[(2, 5), (3, 11), (4, 18)]),
    (EcLevel::M, Mode::Byte, &[(3, 7), (4, 13)]),
    (EcLevel::M, Mode::Kanji, &[(3, 4), (4, 8)]),
    (EcLevel::Q, Mode::Numeric, &[(4, 21)]),
    (EcLevel::Q, Mode::Alphanumeric, &[(4, 13)]),
    (EcLevel::Q, Mode::Byte, &[(4, 9)]),
    (EcLevel::Q, Mode::Kanji, &[(4, 5)]),
];

/// Each count takes its version, and one character more takes the next version or is too long.
#[test]
fn micro_versions_at_their_limits(rt: HostRuntime) {
    for (level, mode, limits) in &LIMITS {
        let mut before = 0;
        for (number, most) in *limits {
            takes_version(&rt, rt.alloc(), (*level, *mode, more_than(before)), *number);
            takes_version(&rt, rt.alloc(), (*level, *mode, *most), *number);
            before = *most;
        }
        let text = text_of(rt.alloc(), *mode, more_than(before)).expect(&rt, "memory");
        let refused = encode_auto_micro(rt.alloc(), &text, *level);
        assert!(rt; refused.err() == Some(QrError::DataTooLong));
    }
}

/// Checks that `count` characters of a mode take a Micro version at a level.
fn takes_version(
    rt: &impl Abort,
    alloc: Global,
    (level, mode, count): (EcLevel, Mode, usize),
    number: i16,
) {
    let text = text_of(alloc, mode, count).expect(rt, "memory");
    let bits = encode_auto_micro(alloc, &text, level).expect(rt, "no bits");
    assert_eq!(rt; bits.version(), Version::Micro(number));
    assert!(rt; bits.encoding_modes() == EncodingModes::from_mode(mode));
}
