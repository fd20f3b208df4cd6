//! Tests of plans, with rows of expected values.

ghost use Rattle.std.specs.Prelude.{◌≡◌, ◌<◌, ◌≤◌, length};
ghost use Rattle.qrcode_base.specs.Symbols.{HasMicroNumber};
ghost use Rattle.qrcode_bits.specs.Plans.{HasLinearCosts};

use qrcode_base::types::{Mode, QrError, QrResult, Version};
use qrcode_bits::optimize::{
    Comparisons, Optimizer, Parser, Segment, optimize_counted, optimize_segments,
    supports_linear_costs, total_encoded_len,
};
use std::alloc::Global;
use std::marker::Brand;
use std::sync::ledger::{Blank, Ledger};

const ONE: Version = Version::Normal(1);

/// Returns a segment.
pub(crate) const fn segment(mode: Mode, begin: usize, end: usize) -> Segment {
    Segment { mode, begin, end }
}

/// Returns the plan of segments with linear costs, by the iterator.
fn given(alloc: Global, segments: &[Segment], version: Version) -> QrResult<Vec<Segment>>
    requires micro { HasMicroNumber version }
    requires linear { 2 ≤ length segments.now → HasLinearCosts segments.now version }
{
    let plan = Optimizer::new(alloc, segments.iter().copied(), version)?;
    let count = plan.len();
    let parts: Vec<Segment> = plan.collect(alloc)?;
    if parts.len() == count {
        Ok(parts)
    } else {
        Err(QrError::DataTooLong)
    }
}

/// Returns the plan of segments with linear costs, by the call and by the iterator.
fn planned(alloc: Global, segments: &[Segment], version: Version) -> QrResult<Vec<Segment>>
    requires { HasMicroNumber version }
{
    if segments.len() >= 2 && !supports_linear_costs(segments, version) {
        return Err(QrError::DataTooLong);
    }
    let plan = optimize_segments(alloc, segments, version)?;
    let again = given(alloc, segments, version)?;
    if again.as_slice() == plan.as_slice() {
        Ok(plan)
    } else {
        Err(QrError::DataTooLong)
    }
}

/// Returns the bits of segments together, without those that end before they begin or have 100,000
/// bytes or more.
pub(crate) fn bits_of(segments: &[Segment], version: Version) -> usize
    requires { HasMicroNumber version }
{
    let mut bits = 0usize;
    for segment in segments {
        if segment.begin <= segment.end && segment.end - segment.begin < 100_000 {
            bits = bits.saturating_add(segment.encoded_len(version));
        }
    }
    bits
}

/// A segment in a row of a table: mode, begin and end.
type Part = (Mode, usize, usize);

/// Returns the segments of a row.
fn segments_of(alloc: Global, parts: &[Part]) -> QrResult<Vec<Segment>> {
    let mut segments = Vec::with_capacity(alloc, parts.len())?;
    for (mode, begin, end) in parts {
        segments.push(segment(*mode, *begin, *end))?;
    }
    Ok(segments)
}

const SHORT_DIGITS: &[Part] = &[(Mode::Numeric, 0, 3), (Mode::Alphanumeric, 3, 4)];

const TIE: &[Part] = &[
    (Mode::Numeric, 0, 7),
    (Mode::Alphanumeric, 7, 8),
    (Mode::Numeric, 8, 15),
];

const PLAN_OF_TIE: &[Part] = &[(Mode::Alphanumeric, 0, 8), (Mode::Numeric, 8, 15)];

const BACKWARDS: &[Part] = &[(Mode::Byte, 2, 1)];

/// Segments, the version, their plan and its bits.
static PLANS: [(&[Part], Version, &[Part], usize); 5] = [
    (TIE, ONE, PLAN_OF_TIE, 95),
    (
        &[
            (Mode::Numeric, 0, 7),
            (Mode::Alphanumeric, 7, 8),
            (Mode::Numeric, 8, 9),
        ],
        ONE,
        &[(Mode::Numeric, 0, 7), (Mode::Alphanumeric, 7, 9)],
        62,
    ),
    (SHORT_DIGITS, Version::Micro(2), SHORT_DIGITS, 25),
    (
        SHORT_DIGITS,
        Version::Micro(3),
        &[(Mode::Alphanumeric, 0, 4)],
        28,
    ),
    (BACKWARDS, ONE, BACKWARDS, 0),
];

/// Returns the bits of the plan of a row, after checking that it is the expected plan.
fn bits_of_plan(
    alloc: Global,
    parts: &[Part],
    version: Version,
    wanted: &[Part],
) -> QrResult<Option<usize>>
    requires { HasMicroNumber version }
{
    let plan = planned(alloc, &segments_of(alloc, parts)?, version)?;
    let is_wanted = plan.as_slice() == segments_of(alloc, wanted)?.as_slice();
    Ok(is_wanted.then(|| bits_of(&plan, version)))
}

#[test]
fn chosen_plans(rt: HostRuntime) -> QrResult<()> {
    for (parts, version, wanted, bits) in &PLANS {
        assert_eq!(rt;
            bits_of_plan(rt.alloc(), parts, *version, wanted)?,
            Some(*bits)
        );
    }
    Ok(())
}

/// Returns `count` segments of letters and digits in turn.
fn in_turn(alloc: Global, count: usize) -> QrResult<Vec<Segment>> {
    let mut segments = Vec::new(alloc);
    for place in 0..count {
        let mode = if place % 2 == 0 {
            Mode::Alphanumeric
        } else {
            Mode::Numeric
        };
        segments.push(segment(mode, place, place + 1))?;
    }
    Ok(segments)
}

#[test]
fn letters_and_digits_in_turn(rt: HostRuntime) {
    for (count, bits) in [(32usize, 189usize), (33, 195), (1024, 5645)] {
        let segments = in_turn(rt.alloc(), count).expect(&rt, "memory");
        let plan = planned(rt.alloc(), &segments, ONE).expect(&rt, "no plan");
        assert!(rt; plan.as_slice() == [segment(Mode::Alphanumeric, 0, count)].as_slice());
        assert_eq!(rt; bits_of(&plan, ONE), bits);
    }
}

static FAR: [Segment; 2] = [
    Segment {
        mode: Mode::Byte,
        begin: 0,
        end: 0,
    },
    Segment {
        mode: Mode::Byte,
        begin: usize::MAX / 4,
        end: usize::MAX / 4,
    },
];

#[test]
fn linear_costs(rt: HostRuntime) {
    let backwards = [segment(Mode::Byte, 2, 1), segment(Mode::Byte, 2, 1)];
    assert!(rt; !supports_linear_costs(&backwards, ONE) && !supports_linear_costs(&FAR, ONE));
    assert!(rt; supports_linear_costs(&[], ONE));
    let parts = [
        Segment {
            mode: Mode::Alphanumeric,
            begin: 0,
            end: 8,
        },
        Segment {
            mode: Mode::Numeric,
            begin: 8,
            end: 15,
        },
    ];
    assert_eq!(rt; total_encoded_len(&parts, ONE), 95);
}

/// Bytes and their segments.
static PARSED: [(&[u8], &[Part]); 6] = [
    (
        &[0x82, 0xa0, 0x81, 0x41, 0x41, 0xb1, 0x81, 0xf0],
        &[
            (Mode::Kanji, 0, 4),
            (Mode::Alphanumeric, 4, 5),
            (Mode::Byte, 5, 6),
            (Mode::Kanji, 6, 8),
        ],
    ),
    (
        &[0xeb, 0xe0, 0x40],
        &[(Mode::Byte, 0, 1), (Mode::Kanji, 1, 3)],
    ),
    (&[0xeb, 0xc0], &[(Mode::Byte, 0, 1), (Mode::Byte, 1, 2)]),
    (&[0x81, 0x30], &[(Mode::Byte, 0, 1), (Mode::Numeric, 1, 2)]),
    (&[0x81, 0x7f], &[(Mode::Byte, 0, 1), (Mode::Byte, 1, 2)]),
    (
        &[0x81, 0x40, 0x81],
        &[(Mode::Kanji, 0, 2), (Mode::Byte, 2, 3)],
    ),
];

/// Returns whether the parser cuts bytes into these segments.
fn is_parsed(alloc: Global, bytes: &[u8], parts: &[Part]) -> QrResult<bool> {
    let all: Vec<Segment> = Parser::new(bytes).collect(alloc)?;
    Ok(all.as_slice() == segments_of(alloc, parts)?.as_slice())
}

#[test]
fn parsed_segments(rt: HostRuntime) -> QrResult<()> {
    for (bytes, parts) in &PARSED {
        assert!(rt; is_parsed(rt.alloc(), bytes, parts)?);
    }
    Ok(())
}

/// Returns the plan of a text.
fn plan_of(alloc: Global, text: &[u8]) -> QrResult<Vec<Segment>> {
    Ok(Parser::new(text).optimize(alloc, ONE)?.collect(alloc)?)
}

#[test]
fn plan_of_a_text(rt: HostRuntime) {
    let plan = plan_of(rt.alloc(), b"ABC123abcd").expect(&rt, "no plan");
    let wanted = [
        segment(Mode::Alphanumeric, 0, 6),
        segment(Mode::Byte, 6, 10),
    ];
    assert!(rt; plan.as_slice() == wanted.as_slice());
    assert_eq!(rt; bits_of(&plan, ONE), 90);
}

/// Texts in UTF-8, with the segments into which the original crate cuts them: bytes of one
/// character can be pairs of the Kanji mode.
static PARSED_UTF_8: [(&str, &[Part]); 2] = [
    (
        "\u{20ac}50 Z\u{fc}rich 2024",
        &[
            (Mode::Kanji, 0, 2),
            (Mode::Byte, 2, 3),
            (Mode::Numeric, 3, 5),
            (Mode::Alphanumeric, 5, 7),
            (Mode::Byte, 7, 13),
            (Mode::Alphanumeric, 13, 14),
            (Mode::Numeric, 14, 18),
        ],
    ),
    (
        "\u{1f600}A1",
        &[
            (Mode::Byte, 0, 1),
            (Mode::Kanji, 1, 3),
            (Mode::Byte, 3, 4),
            (Mode::Alphanumeric, 4, 5),
            (Mode::Numeric, 5, 6),
        ],
    ),
];

#[test]
fn parsed_utf_8(rt: HostRuntime) -> QrResult<()> {
    for (text, parts) in &PARSED_UTF_8 {
        assert!(rt; is_parsed(rt.alloc(), text.as_bytes(), parts)?, "at {text}");
    }
    Ok(())
}

/// Returns the chosen plan, with a count from the caller.
fn counted<L: Ledger>(
    alloc: Global,
    segments: &[Segment],
    version: Version,
    blank: Blank,
) -> QrResult<Vec<Segment>>
    requires micro { HasMicroNumber version }
    requires linear { 2 ≤ length segments.now → HasLinearCosts segments.now version }
    requires name { blank.name ≡ L.name }
    requires parts { blank.parts ≡ L.parts }
    requires part { 0 < L.parts }
{
    let mut comparisons: Comparisons<L> = Comparisons::new(blank);
    optimize_counted(alloc, segments, version, &mut comparisons)
}

/// Returns the same, with a count that is dropped.
fn plan_by_count(alloc: Global, segments: &[Segment], version: Version) -> QrResult<Vec<Segment>>
    requires micro { HasMicroNumber version }
    requires linear { 2 ≤ length segments.now → HasLinearCosts segments.now version }
{
    counted::<Brand>(alloc, segments, version, Blank::new(1))
}

#[test]
fn counted_plans(rt: HostRuntime) {
    let segments = segments_of(rt.alloc(), TIE).expect(&rt, "memory");
    assert!(rt; supports_linear_costs(&segments, ONE));
    let plan = plan_by_count(rt.alloc(), &segments, ONE).expect(&rt, "no plan");
    let wanted = segments_of(rt.alloc(), PLAN_OF_TIE).expect(&rt, "memory");
    assert!(rt; plan.as_slice() == wanted.as_slice());
    assert_eq!(rt; bits_of(&plan, ONE), 95);
}
