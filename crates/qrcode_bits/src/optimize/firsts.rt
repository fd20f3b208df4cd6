//! How many first segments, and how many units of the one after them, some plan of few bits has,
//! found in one pass that keeps no plan.

ghost use Rattle.std.specs.Prelude.{◌≡◌, ◌+◌, ◌*◌, ◌-◌, ◌^◌, ◌<◌, ◌≤◌, length, MatchOption};
ghost use Rattle.std.specs.Mem.{type_size};
ghost use Rattle.qrcode_base.specs.Symbols.{HasMicroNumber};
ghost use Rattle.qrcode_bits.specs.Plans.{HasLinearCosts, segment_at};
ghost use Rattle.qrcode_bits.specs.Optimizer.{AreCuttable, AreGroups, AreLastUnits, IsBelow};
ghost use Rattle.qrcode_bits.specs.Optimizer.{bits_before, groups_of, unit_size};

use super::any_start::AnyStart;
use super::linear::{SLOTS, add_start, advance, header_widths, last_step};
use super::{Comparisons, Segment};
use qrcode_base::types::{Mode, Version};
use std::sync::ledger::Ledger;

/// Returns the greatest number of first segments whose chosen plan takes at most `limit` bits, by
/// the steps of `optimize_linear`, up to the first that takes more. The groups are those with it.
#[inline(always)]
pub(super) fn first_segments<S: AnyStart, L: Ledger>(
    segments: &[Segment],
    version: Version,
    limit: usize,
    groups: &mut [S],
    comparisons: &mut Comparisons<L>,
) -> usize
    requires micro { HasMicroNumber version }
    requires below { IsBelow S.FAR segments.now }
    requires linear { HasLinearCosts segments.now version }
    requires long { length groups.old ≡ SLOTS }
    requires none { AreGroups S.FAR segments.now version 0 0 (groups_of S.read S.FAR groups.old) }
    ensures within { result ≤ length segments.now }
    ensures fits { bits_before segments.now version result ≤ limit }
    ensures over { result < length segments.now →
        limit < bits_before segments.now version (result + 1) }
    ensures long { length groups.new ≡ SLOTS }
    ensures groups { result < length segments.now → AreGroups S.FAR segments.now version
        (result + 1) (result + 1) (groups_of S.read S.FAR groups.new) }
    ensures ticked { comparisons.new ≤ comparisons.old + 36 * length segments.now }
{
    let headers = header_widths(version);
    let mut before = S::first();
    for start in 0..segments.len() {
        let segment = segments[start];
        advance(groups, segment.mode, comparisons);
        let next = before.next(start);
        add_start(groups, segment.mode, segment.begin, &next, comparisons);
        before = last_step(segments, &headers, version, start + 1, groups, comparisons);
        if before.exceeds(limit as u128) {
            return start;
        }
    }
    segments.len()
}

/// Returns the bytes of a unit of a mode: a pair in the Kanji mode, else one byte.
fn unit_size(mode: Mode) -> usize
    ensures { result ≡ unit_size mode }
{
    match mode {
        Mode::Kanji => 2,
        Mode::Numeric | Mode::Alphanumeric | Mode::Byte => 1,
    }
}

/// Returns two places a unit apart in the segment at an index, which takes the chosen plan past
/// `limit` bits: cut at the first it does not, and cut at the second it does. The end of the
/// segment is moved to try a place, and moved back. The groups are those with the segment.
#[inline(never)]
fn last_of_segment<S: AnyStart, L: Ledger>(
    segments: &mut [Segment],
    index: usize,
    version: Version,
    limit: usize,
    groups: &[S],
    comparisons: &mut Comparisons<L>,
) -> (usize, usize)
    requires micro { HasMicroNumber version }
    requires cuts { AreCuttable S.FAR segments.old version }
    requires inside { index < length segments.old }
    requires before { bits_before segments.old version index ≤ limit }
    requires over { limit < bits_before segments.old version (index + 1) }
    requires long { length groups.now ≡ SLOTS }
    requires groups { AreGroups S.FAR segments.old version (index + 1) (index + 1)
        (groups_of S.read S.FAR groups.now) }
    ensures units { AreLastUnits segments.old version limit result.0 result.1 }
    ensures unchanged { segments.new ≡ segments.old }
    ensures ticked { comparisons.new ≤ comparisons.old
        + 8 * ((segment_at segments.old index).end - (segment_at segments.old index).begin) }
{
    let headers = header_widths(version);
    let whole = segments[index];
    let unit = unit_size(whole.mode);
    let mut low = 0;
    let mut high = (whole.end - whole.begin) / unit;
    while high - low > 1 {
        let middle = low + (high - low) / 2;
        segments[index].end = whole.begin + unit * middle;
        let first = &segments[..index + 1];
        let last = last_step(first, &headers, version, index + 1, groups, comparisons);
        if last.exceeds(limit as u128) {
            high = middle;
        } else {
            low = middle;
        }
    }
    segments[index].end = whole.end;
    let sure = whole.begin + unit * low;
    (sure, sure + unit)
}

/// Returns two places a unit apart in one segment: cut at the first, the chosen plan takes at most
/// `limit` bits, and cut at the second it takes more. Returns `None` where the plan of all segments
/// takes at most `limit` bits. The segments are as they were in the end.
pub(super) fn last_units<S: AnyStart, L: Ledger>(
    segments: &mut [Segment],
    version: Version,
    limit: usize,
    comparisons: &mut Comparisons<L>,
) -> Option<(usize, usize)>
    requires size { SLOTS * type_size S.row < 2 ^ 63 }
    requires micro { HasMicroNumber version }
    requires below { IsBelow S.FAR segments.old }
    requires linear { HasLinearCosts segments.old version }
    requires cuts { AreCuttable S.FAR segments.old version }
    ensures units { MatchOption result
        (bits_before segments.old version (length segments.old) ≤ limit)
        (λ places. AreLastUnits segments.old version limit places.0 places.1) }
    ensures unchanged { segments.new ≡ segments.old }
    ensures ticked { comparisons.new ≤ comparisons.old + 36 * length segments.old + 8 * S.FAR }
{
    let mut groups = [S::none(); SLOTS];
    let count = first_segments(segments, version, limit, &mut groups, comparisons);
    if count == segments.len() {
        return None;
    }
    let places = last_of_segment(segments, count, version, limit, &groups, comparisons);
    Some(places)
}
