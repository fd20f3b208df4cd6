//! Tests of examples of the standard, of what is left of an iterator, of what is free after a
//! terminator, and of all sets of modes.

use super::{DIGITS, M1, M3, ONE, Push, pushed};
use qrcode_base::types::{EcLevel, Mode, QrError, QrResult, Version};
use qrcode_bits::bits::Bits;
use qrcode_bits::optimize::Segment;

const M2: Version = Version::Micro(2);

/// The digits of an example in ISO/IEC 18004:2006, section "Numeric mode".
const SIXTEEN: &[u8] = b"0123456789012345";

/// The standard prints the bits for M3: 00, 10000, five groups of ten and one of four. In a Normal
/// version the indicator is 0001 and the count has ten bits.
#[test]
fn sixteen_digits(rt: HostRuntime) -> QrResult<()> {
    let micro = pushed(rt.alloc(), M3, &[Push::Numeric(SIXTEEN)])?;
    assert_eq!(rt; micro.len(), 61);
    let bytes = [0x20, 0x06, 0x2b, 0x35, 0x37, 0x0a, 0x75, 0x28];
    assert!(rt; micro.into_bytes().as_slice() == bytes.as_slice());
    let normal = pushed(rt.alloc(), ONE, &[Push::Numeric(SIXTEEN)])?;
    assert_eq!(rt; normal.len(), 68);
    let bytes = [0x10, 0x40, 0x0c, 0x56, 0x6a, 0x6e, 0x14, 0xea, 0x50];
    assert!(rt; normal.into_bytes().as_slice() == bytes.as_slice());
    Ok(())
}

/// Three digits and a letter in M2: 0, 0011, 0001111011, then 1, 001, 001010. As one segment they
/// take one bit more.
#[test]
fn digits_and_a_letter_in_m2(rt: HostRuntime) -> QrResult<()> {
    let mut bits = Bits::new(rt.alloc(), M2);
    bits.push_optimal_data(b"123A")?;
    assert_eq!(rt; bits.len(), 25);
    let bytes = [0x18, 0xf7, 0x25, 0];
    assert!(rt; bits.into_bytes().as_slice() == bytes.as_slice());
    Ok(())
}

/// Two digits, a letter in a segment of the Numeric mode, and a byte.
static THREE: [Segment; 3] = [
    Segment {
        mode: Mode::Numeric,
        begin: 0,
        end: 2,
    },
    Segment {
        mode: Mode::Numeric,
        begin: 2,
        end: 3,
    },
    Segment {
        mode: Mode::Byte,
        begin: 3,
        end: 4,
    },
];

/// The segments after one that fails are still in the caller's iterator.
#[test]
fn what_is_left_of_an_iterator(rt: HostRuntime) {
    let mut bits = Bits::new(rt.alloc(), ONE);
    let mut segments = THREE.iter().copied();
    let result = bits.push_segments(b"12ab", &mut segments);
    let error = QrError::InvalidCharacter {
        position: 0,
        byte: b'a',
    };
    assert!(rt; result == Err(error));
    assert_eq!(rt; bits.len(), 21);
    assert!(rt; segments.next() == Some(THREE[2]));
    assert!(rt; segments.next().is_none());
}

/// 164 bits after a terminator and an ECI designator, then 184: the payload is that of the first
/// terminator, then all bits.
#[test]
fn what_is_free_after_a_terminator(rt: HostRuntime) -> QrResult<()> {
    let level = EcLevel::L;
    let end = Push::Terminator(level);
    let designated = pushed(rt.alloc(), ONE, &[end, Push::Eci(9)])?;
    assert_eq!(rt; designated.len(), 164);
    assert_eq!(rt; designated.payload_bits_len(), 0);
    assert!(rt; designated.remaining_capacity_bits(level) == Ok(152));
    let full = pushed(rt.alloc(), ONE, &[end, Push::Eci(9), Push::Byte(b"a")])?;
    assert_eq!(rt; full.len(), 184);
    assert_eq!(rt; full.payload_bits_len(), 184);
    assert!(rt; full.remaining_capacity_bits(level) == Ok(0));
    let digits = pushed(rt.alloc(), M1, &[Push::Numeric(b"1234"), end])?;
    assert_eq!(rt; digits.len(), 20);
    assert_eq!(rt; digits.payload_bits_len(), 17);
    Ok(())
}

/// A push in each mode, in the order in which a set iterates over them.
static PUSHES: [(Mode, Push); 4] = [
    (Mode::Numeric, Push::Numeric(b"1")),
    (Mode::Alphanumeric, Push::Alphanumeric(b"A")),
    (Mode::Byte, Push::Byte(b"a")),
    (Mode::Kanji, Push::Kanji(&[0x93, 0x5f])),
];

/// Returns whether the modes of a set, given by number and pushed from the last to the first, are
/// returned in their order.
fn comes_in_order(rt: &HostRuntime, number: usize) -> QrResult<bool> {
    let mut bits = Bits::new(rt.alloc(), ONE);
    let mut wanted = Vec::new(rt.alloc());
    for (place, (_mode, push)) in PUSHES.iter().enumerate().rev() {
        if number >> place & 1 == 1 {
            push.apply(&mut bits)?;
        }
    }
    for (place, (mode, _push)) in PUSHES.iter().enumerate() {
        if number >> place & 1 == 1 {
            wanted.push(*mode)?;
        }
    }
    let set = bits.encoding_modes();
    let modes: Vec<Mode> = set.iter().collect(rt.alloc())?;
    let has_all = modes.as_slice() == wanted.as_slice() && set.len() == wanted.len();
    let lacks_none = PUSHES.iter().all(|(mode, _push)| set.contains(*mode)
        == wanted.contains(mode));
    Ok(has_all && lacks_none && set.is_empty() == wanted.is_empty())
}

#[test]
fn all_sets_of_modes(rt: HostRuntime) -> QrResult<()> {
    for number in 0..16usize {
        assert!(rt; comes_in_order(&rt, number)?);
    }
    assert!(rt; pushed(rt.alloc(), ONE, &[])?.encoding_modes().is_empty());
    assert!(rt;
        super::has_modes(
            pushed(rt.alloc(), M1, &[Push::Numeric(b"1")])?.encoding_modes(),
            DIGITS
        )
    );
    Ok(())
}
