//! Pushes whose allocations fail.

use qrcode_core::bits::{Bits, EncodingModes, ExtendedMode};
use qrcode_core::mode::ByteMode;
use qrcode_core::optimize::Segment;
use qrcode_core::types::{EcLevel, Mode, QrError, QrResult, Version};
use std::alloc::Global;
use std::process::Abort;

/// A push.
#[derive(Clone, Copy)]
enum Push {
    Number(usize, usize),
    Indicator(ExtendedMode),
    Eci(u32),
    Fnc1First,
    Fnc1Second(u8),
    Header(u8, u8, u8),
    Numeric(&'static [u8]),
    Alphanumeric(&'static [u8]),
    Byte(&'static [u8]),
    Kanji(&'static [u8]),
    Typed(&'static [u8]),
    Terminator(EcLevel),
    Reserve(usize),
}

impl Push {
    /// Performs the push.
    fn apply(self, bits: &mut Bits) -> QrResult<()> {
        match self {
            Push::Number(width, number) => bits.push_number_checked(width, number),
            Push::Indicator(mode) => bits.push_mode_indicator(mode),
            Push::Eci(designator) => bits.push_eci_designator(designator),
            Push::Fnc1First => bits.push_fnc1_first_position(),
            Push::Fnc1Second(application) => bits.push_fnc1_second_position(application),
            Push::Header(position, total, parity) => {
                bits.push_structured_append_header(position, total, parity)
            }
            Push::Numeric(text) => bits.push_numeric_data(text),
            Push::Alphanumeric(text) => bits.push_alphanumeric_data(text),
            Push::Byte(text) => bits.push_byte_data(text),
            Push::Kanji(text) => bits.push_kanji_data(text),
            Push::Typed(text) => bits.push_mode_data::<ByteMode>(text),
            Push::Terminator(level) => bits.push_terminator(level),
            Push::Reserve(room) => bits.reserve(room),
        }
    }
}

/// What each push appends to an empty stream of version 1: the number of bits, and their bytes.
static ROWS: [(Push, usize, &[u8]); 13] = [
    (Push::Number(16, 65535), 16, &[0xff, 0xff]),
    (Push::Indicator(ExtendedMode::Eci), 4, &[0x70]),
    (Push::Eci(899), 20, &[0x78, 0x38, 0x30]),
    (Push::Fnc1First, 4, &[0x50]),
    (Push::Fnc1Second(37), 12, &[0x92, 0x50]),
    (Push::Header(1, 3, 0x5a), 20, &[0x30, 0x25, 0xa0]),
    (
        Push::Numeric(b"01234567"),
        41,
        &[0x10, 0x20, 0x0c, 0x56, 0x61, 0x80],
    ),
    (
        Push::Alphanumeric(b"AC-42"),
        41,
        &[0x20, 0x29, 0xce, 0xe7, 0x21, 0x00],
    ),
    (Push::Byte(b"a"), 20, &[0x40, 0x16, 0x10]),
    (
        Push::Kanji(&[0x93, 0x5f, 0xe4, 0xaa]),
        38,
        &[0x80, 0x26, 0xcf, 0xea, 0xa8],
    ),
    (Push::Typed(b"a"), 20, &[0x40, 0x16, 0x10]),
    (
        Push::Terminator(EcLevel::H),
        72,
        &[0, 0xec, 0x11, 0xec, 0x11, 0xec, 0x11, 0xec, 0x11],
    ),
    (Push::Reserve(1000), 0, &[]),
];

/// A push that fails leaves an empty stream empty.
#[test]
fn single_pushes(rt: HostRuntime) -> QrResult<()> {
    for (push, len, bytes) in &ROWS {
        let mut bits = Bits::new(rt.alloc(), Version::Normal(1));
        let answer = push.apply(&mut bits);
        if answer == Err(QrError::OutOfMemory) {
            is_as_new(&rt, bits);
            return answer;
        }
        assert_eq!(rt; answer, Ok(()));
        assert_eq!(rt; bits.len(), *len);
        assert!(rt; bits.into_bytes().as_slice() == *bytes);
    }
    Ok(())
}

/// Checks that a stream is empty.
fn is_as_new(rt: &impl Abort, bits: Bits) {
    assert!(rt; bits.is_empty() && bits.payload_bits_len() == 0);
    assert!(rt; bits.encoding_modes().is_empty());
    assert!(rt; bits.into_bytes().is_empty());
}

/// The letter a in version 1, ended at level L.
static ENDED: [u8; 19] = [
    0x40, 0x16, 0x10, 0xec, 0x11, 0xec, 0x11, 0xec, 0x11, 0xec, 0x11, 0xec, 0x11, 0xec, 0x11, 0xec,
    0x11, 0xec, 0x11,
];

/// Pushes for which there is no room left, and how many bits they append.
static LONG: [(Push, usize); 4] = [
    (Push::Numeric(&[b'7'; 999]), 4 + 10 + 3330),
    (Push::Alphanumeric(&[b'A'; 400]), 4 + 9 + 2200),
    (Push::Byte(&[b'b'; 200]), 4 + 8 + 1600),
    (Push::Reserve(5000), 0),
];

/// Returns a stream of the letter a, not ended.
fn letter(alloc: Global) -> QrResult<Bits> {
    let mut bits = Bits::new(alloc, Version::Normal(1));
    bits.push_byte_data(b"a")?;
    Ok(bits)
}

/// Returns a stream of the letter a, ended. It has no room left.
fn ended(alloc: Global) -> QrResult<Bits> {
    let mut bits = letter(alloc)?;
    bits.push_terminator(EcLevel::L)?;
    Ok(bits)
}

/// A push that fails leaves an ended stream with its bits, its modes and its payload.
#[test]
fn pushes_behind_an_end(rt: HostRuntime) -> QrResult<()> {
    for (push, added) in &LONG {
        let mut bits = ended(rt.alloc())?;
        let answer = push.apply(&mut bits);
        if answer == Err(QrError::OutOfMemory) {
            is_ended(&rt, bits);
            return answer;
        }
        assert_eq!(rt; answer, Ok(()));
        assert_eq!(rt; bits.len(), 152 + *added);
        assert!(rt; bits.into_bytes().as_slice().starts_with(&ENDED));
    }
    Ok(())
}

/// Every other push that fails leaves an ended stream as it was too. The stream is full, so each
/// push but the terminator, which has nothing to append, allocates.
#[test]
fn pushes_on_a_full_stream(rt: HostRuntime) -> QrResult<()> {
    for (push, added, bytes) in &ROWS {
        if let Push::Terminator(_) = push {
            continue;
        }
        let mut bits = ended(rt.alloc())?;
        let answer = push.apply(&mut bits);
        if answer == Err(QrError::OutOfMemory) {
            is_ended(&rt, bits);
            return answer;
        }
        assert_eq!(rt; answer, Ok(()));
        assert_eq!(rt; bits.len(), 152 + *added);
        assert!(rt; bits.into_bytes().as_slice().strip_prefix(&ENDED) == Some(*bytes));
    }
    Ok(())
}

/// A terminator that fails leaves the letter a.
#[test]
fn terminator_of_a_letter(rt: HostRuntime) -> QrResult<()> {
    let mut bits = letter(rt.alloc())?;
    let answer = Push::Terminator(EcLevel::L).apply(&mut bits);
    if answer == Err(QrError::OutOfMemory) {
        is_letter(&rt, bits, 20, &[0x40, 0x16, 0x10]);
        return answer;
    }
    assert_eq!(rt; answer, Ok(()));
    is_ended(&rt, bits);
    Ok(())
}

/// Checks that the stream is as it was when it was ended.
fn is_ended(rt: &impl Abort, bits: Bits) {
    is_letter(rt, bits, 152, &ENDED);
}

/// Checks that a stream of version 1 has the letter a as its payload, this length, and these bytes.
fn is_letter(rt: &impl Abort, bits: Bits, len: usize, bytes: &[u8]) {
    assert_eq!(rt; (bits.len(), bits.payload_bits_len()), (len, 20));
    assert!(rt; bits.version() == Version::Normal(1));
    assert!(rt; bits.encoding_modes() == EncodingModes::from_mode(Mode::Byte));
    assert!(rt; bits.into_bytes().as_slice() == bytes);
}

/// After `reserve` pushes of as many bits do not allocate, so that the only allocation is that
/// of `reserve`.
#[test]
fn pushes_after_reserve(rt: HostRuntime) -> QrResult<()> {
    let mut bits = Bits::new(rt.alloc(), Version::Normal(1));
    bits.reserve(20 + 4 + 20 + 41 + 67)?;
    for push in [
        Push::Header(1, 3, 0x5a),
        Push::Fnc1First,
        Push::Eci(899),
        Push::Numeric(b"01234567"),
        Push::Terminator(EcLevel::L),
    ] {
        assert_eq!(rt; push.apply(&mut bits), Ok(()));
    }
    assert_eq!(rt; (bits.len(), bits.payload_bits_len()), (152, 85));
    Ok(())
}

/// The number of bits after none, one, two and all of three segments: forty digits, forty letters
/// a, forty letters A.
static LENGTHS: [usize; 4] = [0, 148, 480, 713];

/// Returns forty digits, forty small letters and forty capitals.
fn forty_of_each() -> [u8; 120] {
    let mut bytes = [b'7'; 120];
    bytes[40..80].fill(b'a');
    bytes[80..].fill(b'A');
    bytes
}

/// Returns whether exactly the first segments are present, but not all, with their modes.
fn has_first_segments(bits: &Bits) -> bool {
    let modes = bits.encoding_modes();
    let kept = modes.len();
    kept < 3
        && bits.len() == LENGTHS[kept]
        && (kept < 1 || modes.contains(Mode::Numeric))
        && (kept < 2 || modes.contains(Mode::Byte))
}

/// Pushes the three segments.
fn push_three(bits: &mut Bits) -> QrResult<()> {
    let segments = [
        Segment {
            mode: Mode::Numeric,
            begin: 0,
            end: 40,
        },
        Segment {
            mode: Mode::Byte,
            begin: 40,
            end: 80,
        },
        Segment {
            mode: Mode::Alphanumeric,
            begin: 80,
            end: 120,
        },
    ];
    bits.push_segments(&forty_of_each(), segments.iter().copied())
}

#[test]
fn push_segments_of_three(rt: HostRuntime) -> QrResult<()> {
    let mut bits = Bits::new(rt.alloc(), Version::Normal(1));
    let answer = push_three(&mut bits);
    assert!(rt; answer == Ok(()) || has_first_segments(&bits));
    assert!(rt; answer.is_err() || bits.len() == LENGTHS[3]);
    answer
}

#[test]
fn push_optimal_data_of_three(rt: HostRuntime) -> QrResult<()> {
    let mut bits = Bits::new(rt.alloc(), Version::Normal(1));
    let answer = bits.push_optimal_data(&forty_of_each());
    assert!(rt; answer == Ok(()) || has_first_segments(&bits));
    assert!(rt; answer.is_err() || bits.len() == LENGTHS[3]);
    answer
}

/// Segments that fail leave an ended stream as it was, if none of them was kept.
#[test]
fn push_segments_on_a_full_stream(rt: HostRuntime) -> QrResult<()> {
    let mut bits = ended(rt.alloc())?;
    let answer = push_three(&mut bits);
    follows_an_end(&rt, bits, &answer);
    answer
}

/// Data that fail leave an ended stream as it was, if no segment of them was kept.
#[test]
fn push_optimal_data_on_a_full_stream(rt: HostRuntime) -> QrResult<()> {
    let mut bits = ended(rt.alloc())?;
    let answer = bits.push_optimal_data(&forty_of_each());
    follows_an_end(&rt, bits, &answer);
    answer
}

/// Checks that a stream is as it was when it was ended, if no segment was kept, and that it
/// otherwise begins so. It has all three segments if their push returned `Ok`.
fn follows_an_end(rt: &impl Abort, bits: Bits, answer: &QrResult<()>) {
    if bits.encoding_modes().len() == 1 {
        assert!(rt; answer.is_err());
        return is_ended(rt, bits);
    }
    assert!(rt; answer.is_err() || bits.len() == 152 + LENGTHS[3]);
    assert!(rt; bits.payload_bits_len() == bits.len());
    assert!(rt; bits.into_bytes().as_slice().starts_with(&ENDED));
}
