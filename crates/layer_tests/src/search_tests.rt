//! Compares plans with those of a plain search.

ghost use Rattle.std.specs.Prelude.{◌<◌, length};
ghost use Rattle.qrcode_base.specs.Symbols.{HasMicroNumber};

use crate::optimize_tests::{bits_of, segment};
use qrcode_base::types::{Mode, QrError, QrResult, Version};
use qrcode_bits::optimize::{Segment, optimize_segments, supports_linear_costs};

/// Returns a version in which plans are compared, by number.
pub(crate) fn version_of(case: usize) -> Version
    ensures { HasMicroNumber result }
{
    match case {
        0 => Version::Normal(1),
        1 => Version::Normal(10),
        2 => Version::Normal(27),
        3 => Version::Micro(1),
        4 => Version::Micro(2),
        5 => Version::Micro(3),
        _ => Version::Micro(4),
    }
}

/// Returns the parts of a plan; `starts` has the first segment of the last part for each end.
fn parts_of(rt: &HostRuntime, segments: &[Segment], starts: &[usize]) -> QrResult<Vec<Segment>> {
    let mut backwards = Vec::new(rt.alloc());
    let mut end = segments.len();
    for _part in 0..segments.len() {
        if end == 0 || end > segments.len() || end > starts.len() {
            break;
        }
        let start = starts[end - 1];
        if start >= end {
            return Err(QrError::DataTooLong);
        }
        backwards.push(joined(&segments[start..end]))?;
        end = start;
    }
    let mut parts = Vec::new(rt.alloc());
    for part in backwards.iter().rev() {
        parts.push(*part)?;
    }
    Ok(parts)
}

/// Returns some segments as one, in the least mode that has the characters of each.
fn joined(segments: &[Segment]) -> Segment
    requires { 0 < length segments.now }
{
    let mut mode = segments[0].mode;
    for segment in segments {
        mode = mode.max(segment.mode);
    }
    segment(mode, segments[0].begin, segments[segments.len() - 1].end)
}

/// Returns the plan of fewest bits, among these that of fewest parts, and among these that whose
/// last part begins latest, and so on backwards, by trying each start for each end.
fn plain_plan(rt: &HostRuntime, segments: &[Segment], version: Version) -> QrResult<Vec<Segment>>
    requires { HasMicroNumber version }
{
    let mut best = Vec::new(rt.alloc());
    let mut starts = Vec::new(rt.alloc());
    best.push((0usize, 0usize))?;
    for end in 0..segments.len() {
        let mut least = (usize::MAX, usize::MAX);
        let mut first = 0;
        let mut mode = segments[end].mode;
        for k in 0..end + 1 {
            let start = end - k;
            mode = mode.max(segments[start].mode);
            let part = [segment(mode, segments[start].begin, segments[end].end)];
            let (bits, parts) = best.get(start).copied().unwrap_or(least);
            let offer = (
                bits.saturating_add(bits_of(&part, version)),
                parts.saturating_add(1),
            );
            if offer.0 < least.0 || offer.0 == least.0 && offer.1 < least.1 {
                least = offer;
                first = start;
            }
        }
        best.push(least)?;
        starts.push(first)?;
    }
    parts_of(rt, segments, &starts)
}

/// Returns whether the chosen plan of these segments, which have linear costs, is that of the
/// plain search.
fn agrees_in(rt: &HostRuntime, segments: &[Segment], version: Version) -> QrResult<bool>
    requires { HasMicroNumber version }
{
    if segments.is_empty() || !supports_linear_costs(segments, version) {
        return Ok(false);
    }
    let plan = optimize_segments(rt.alloc(), segments, version)?;
    Ok(plan.as_slice() == plain_plan(rt, segments, version)?.as_slice())
}

/// Returns the same for seven versions.
fn agrees(rt: &HostRuntime, segments: &[Segment]) -> QrResult<bool> {
    for case in 0..7usize {
        if !agrees_in(rt, segments, version_of(case))? {
            return Ok(false);
        }
    }
    Ok(true)
}

/// Returns a mode by number.
fn mode_of(number: usize) -> Mode {
    match number % 4 {
        0 => Mode::Numeric,
        1 => Mode::Alphanumeric,
        2 => Mode::Byte,
        _ => Mode::Kanji,
    }
}

/// Returns the segments whose modes are the digits of a number in base four, each of one length, or
/// of the lengths 1, 2, .. in turn for the length 9.
fn mode_list(
    rt: &HostRuntime,
    count: usize,
    number: usize,
    size: usize,
    from: usize,
) -> QrResult<Vec<Segment>> {
    let mut segments = Vec::new(rt.alloc());
    let mut digits = number;
    let mut begin = from;
    for place in 0..count {
        let end = begin.saturating_add(if size == 9 { place + 1 } else { size });
        segments.push(segment(mode_of(digits), begin, end))?;
        digits /= 4;
        begin = end;
    }
    Ok(segments)
}

/// Returns whether the plans of all lists of `count` modes agree, in segments of one size, from a
/// first byte on.
fn all_agree(rt: &HostRuntime, count: usize, size: usize, from: usize) -> QrResult<bool>
    requires { count < 8 }
{
    let lists = 1usize << (2 * count);
    for number in 0..lists {
        let segments = mode_list(rt, count, number, size, from)?;
        if !agrees(rt, &segments)? {
            return Ok(false);
        }
    }
    Ok(lists > 1)
}

/// All lists of up to five modes, in segments of each size, near the first byte and near the
/// greatest index.
#[test]
fn lists_of_up_to_five(rt: HostRuntime) -> QrResult<()> {
    for count in 1..6usize {
        for size in [0, 1, 2, 3, 7, 9] {
            assert!(rt; all_agree(&rt, count, size, 0)?);
        }
    }
    Ok(())
}

#[test]
fn lists_of_up_to_five_far_away(rt: HostRuntime) -> QrResult<()> {
    for count in 1..6usize {
        for size in [0, 1, 2, 3, 7, 9] {
            assert!(rt; all_agree(&rt, count, size, usize::MAX - 4096)?);
        }
    }
    Ok(())
}

/// All lists of six modes, two sizes in each test.
#[test]
fn lists_of_six_of_0_or_1(rt: HostRuntime) -> QrResult<()> {
    assert!(rt; all_agree(&rt, 6, 0, 0)?);
    assert!(rt; all_agree(&rt, 6, 1, 0)?);
    Ok(())
}

#[test]
fn lists_of_six_of_2_or_3(rt: HostRuntime) -> QrResult<()> {
    assert!(rt; all_agree(&rt, 6, 2, 0)?);
    assert!(rt; all_agree(&rt, 6, 3, 0)?);
    Ok(())
}

#[test]
fn lists_of_six_of_7_or_in_turn(rt: HostRuntime) -> QrResult<()> {
    assert!(rt; all_agree(&rt, 6, 7, 0)?);
    assert!(rt; all_agree(&rt, 6, 9, 0)?);
    Ok(())
}

/// Returns the next number of a fixed pseudorandom sequence, below a bound.
pub(crate) fn next_below(state: &mut u64, bound: u64) -> usize
    requires { 0 < bound }
    ensures { result < bound }
{
    *state = state
        .wrapping_mul(6364136223846793005)
        .wrapping_add(1442695040888963407);
    ((*state >> 33) % bound) as usize
}

/// Returns 33 to 256 segments from a fixed seed, some with gaps between them.
fn long_list(rt: &HostRuntime, state: &mut u64, from: usize) -> QrResult<Vec<Segment>> {
    let mut segments = Vec::new(rt.alloc());
    let mut begin = from;
    for _place in 0..33 + next_below(state, 224) {
        let end = begin.saturating_add(next_below(state, 12));
        segments.push(segment(mode_of(next_below(state, 4)), begin, end))?;
        begin = end.saturating_add(next_below(state, 3));
    }
    Ok(segments)
}

/// 512 lists of more segments than a search of all cuts can handle, each in one of the versions,
/// every fourth one near the greatest index.
#[test]
fn long_lists(rt: HostRuntime) -> QrResult<()> {
    let mut state = 7u64;
    for case in 0..512usize {
        let from = if case % 4 == 3 {
            usize::MAX - 4096
        } else {
            case
        };
        let segments = long_list(&rt, &mut state, from)?;
        assert!(rt; segments.len() > 32 && agrees_in(&rt, &segments, version_of(case % 7))?);
    }
    Ok(())
}
