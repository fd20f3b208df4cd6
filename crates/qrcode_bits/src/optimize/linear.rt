//! The chosen plan, found in one pass over the segments.
//!
//! For each segment `optimize_linear` moves the starts of each group to the group of their new
//! joined mode (`advance`), adds the segment's own start (`add_start`), and takes the best start of
//! all buckets (`last_step`). At the end `read_back` returns the parts of the plan.

ghost use Rattle.std.specs.Prelude.{◌≡◌, ℕ, ◌+◌, ◌*◌, ◌-◌, ◌^◌, ◌<◌, ◌≤◌, ◌≢◌, [], ◌∷◌, length};
ghost use Rattle.std.specs.Prelude.{map, get_or, IfOk, IfErr};
ghost use Rattle.std.specs.Mem.{type_size};
ghost use Rattle.qrcode_base.specs.Symbols.{HasMicroNumber};
ghost use Rattle.qrcode_base.specs.Modes.{data_bits, characters, join};
ghost use Rattle.qrcode_bits.specs.Plans.{HasLinearCosts, IsChosenPlan, part};
ghost use Rattle.qrcode_bits.specs.Optimizer.{bucket_mode, bucket_first, period, period_bits, mode_number};
ghost use Rattle.qrcode_bits.specs.Optimizer.{slot_of, groups_of, found, KeepsBetter, Moves, Advances};
ghost use Rattle.qrcode_bits.specs.Optimizer.{AddsTo, Adds, IsBelow, AreHeaders, AreGroups, IsStep, AreSteps};
ghost use Rattle.qrcode_bits.specs.Optimizer.{HasBucket, IsBetterOf};

use super::any_start::AnyStart;
use super::{Comparisons, Segment, bucket_mode, data_len};
use qrcode_base::types::{Mode, QrError, QrResult, Version};
use std::alloc::Global;
use std::sync::ledger::Ledger;

/// The number of buckets of all groups.
pub(super) const SLOTS: usize = 32;

/// The offset of the first byte modulo the period, for each bucket.
const RESTS: [usize; 8] = [0, 1, 2, 0, 1, 0, 0, 1];

/// Returns the index of a bucket of a mode's group in the list of all buckets.
fn slot_of(group: Mode, bucket: usize) -> usize
    requires { bucket < 8 }
    ensures slot { result ≡ slot_of group bucket }
    ensures inside { result < SLOTS }
{
    8 * group as usize + bucket
}

/// Returns the bytes of a period: three digits, two characters, one byte, or a pair of bytes.
fn period(mode: Mode) -> usize
    ensures { result ≡ period mode }
{
    match mode {
        Mode::Numeric => 3,
        Mode::Alphanumeric | Mode::Kanji => 2,
        Mode::Byte => 1,
    }
}

/// Returns the bits of a period.
fn period_bits(mode: Mode) -> u128
    ensures { result ≡ period_bits mode }
{
    match mode {
        Mode::Numeric => 10,
        Mode::Alphanumeric => 11,
        Mode::Byte => 8,
        Mode::Kanji => 13,
    }
}

/// Returns the first bucket of a mode.
fn bucket_first(mode: Mode) -> usize
    ensures { result ≡ bucket_first mode }
{
    match mode {
        Mode::Numeric => 0,
        Mode::Alphanumeric => 3,
        Mode::Byte => 5,
        Mode::Kanji => 6,
    }
}

/// Replaces the start in a bucket of a group if the new one is better.
fn keep_better<S: AnyStart, L: Ledger>(
    groups: &mut [S],
    group: Mode,
    bucket: usize,
    start: S,
    comparisons: &mut Comparisons<L>,
)
    requires long { length groups.old ≡ SLOTS }
    requires inside { bucket < 8 }
    ensures better { KeepsBetter group bucket (found S.FAR (S.read start))
        (groups_of S.read S.FAR groups.old) (groups_of S.read S.FAR groups.new) }
    ensures long { length groups.new ≡ SLOTS }
    ensures ticked { comparisons.new ≡ comparisons.old + 1 }
{
    let slot = slot_of(group, bucket);
    if start.is_better(&groups[slot], comparisons) {
        groups[slot] = start;
    }
}

/// Replaces the start in a bucket of a group by that of another group if the latter is better.
fn merge_bucket<S: AnyStart, L: Ledger>(
    groups: &mut [S],
    into: Mode,
    from: Mode,
    bucket: usize,
    comparisons: &mut Comparisons<L>,
)
    requires long { length groups.old ≡ SLOTS }
    requires inside { bucket < 8 }
    ensures better { KeepsBetter into bucket (groups_of S.read S.FAR groups.old from bucket)
        (groups_of S.read S.FAR groups.old) (groups_of S.read S.FAR groups.new) }
    ensures long { length groups.new ≡ SLOTS }
    ensures ticked { comparisons.new ≡ comparisons.old + 1 }
{
    let start = groups[slot_of(from, bucket)];
    keep_better(groups, into, bucket, start, comparisons);
}

/// Replaces the start in each bucket that a group needs by that of another group if the latter is
/// better. The group is that of Alphanumeric or Byte.
fn merge_better<S: AnyStart, L: Ledger>(
    groups: &mut [S],
    into: Mode,
    from: Mode,
    comparisons: &mut Comparisons<L>,
)
    requires long { length groups.old ≡ SLOTS }
    requires apart { into ≢ from }
    requires into { join from into ≡ into }
    ensures better { (j : ℕ) → HasBucket into j →
        IsBetterOf (groups_of S.read S.FAR groups.old into j)
        (groups_of S.read S.FAR groups.old from j) (groups_of S.read S.FAR groups.new into j) }
    ensures others { (mode : Mode) → (j : ℕ) → j < 8 → mode ≢ into →
        groups_of S.read S.FAR groups.new mode j ≡ groups_of S.read S.FAR groups.old mode j }
    ensures long { length groups.new ≡ SLOTS }
    ensures ticked { comparisons.new ≤ comparisons.old + 3 }
{
    if into == Mode::Alphanumeric {
        merge_bucket(groups, into, from, 3, comparisons);
        merge_bucket(groups, into, from, 4, comparisons);
    }
    merge_bucket(groups, into, from, 5, comparisons);
}

/// Moves the starts of a group to the group of its mode joined with the next segment's mode. A
/// group has a start in the bucket of Byte if it has any.
fn move_group<S: AnyStart, L: Ledger>(
    groups: &mut [S],
    from: Mode,
    incoming: Mode,
    comparisons: &mut Comparisons<L>,
)
    requires long { length groups.old ≡ SLOTS }
    ensures moved { Moves from incoming
        (groups_of S.read S.FAR groups.old) (groups_of S.read S.FAR groups.new) }
    ensures long { length groups.new ≡ SLOTS }
    ensures ticked { comparisons.new ≤ comparisons.old + 3 }
{
    let into = from.max(incoming);
    if into != from && groups[slot_of(from, 5)].is_some() {
        merge_better(groups, into, from, comparisons);
        for bucket in 0..8 {
            groups[slot_of(from, bucket)] = S::none();
        }
    }
}

/// Moves the starts of all groups. Those of Byte stay.
#[inline(always)]
pub(super) fn advance<S: AnyStart, L: Ledger>(
    groups: &mut [S],
    incoming: Mode,
    comparisons: &mut Comparisons<L>,
)
    requires long { length groups.old ≡ SLOTS }
    ensures advances { Advances incoming
        (groups_of S.read S.FAR groups.old) (groups_of S.read S.FAR groups.new) }
    ensures long { length groups.new ≡ SLOTS }
    ensures ticked { comparisons.new ≤ comparisons.old + 9 }
{
    move_group(groups, Mode::Numeric, incoming, comparisons);
    move_group(groups, Mode::Alphanumeric, incoming, comparisons);
    move_group(groups, Mode::Kanji, incoming, comparisons);
}

/// Adds a start to the bucket of its group for parts that end in a mode, if the group needs it.
fn add_to_bucket<S: AnyStart, L: Ledger>(
    groups: &mut [S],
    group: Mode,
    last: Mode,
    begin: usize,
    start: &S,
    comparisons: &mut Comparisons<L>,
)
    requires long { length groups.old ≡ SLOTS }
    requires begin { begin < S.FAR }
    requires bits { (S.read start.now).bits < 32 * S.FAR }
    ensures added { AddsTo S.FAR group last begin (S.read start.now)
        (groups_of S.read S.FAR groups.old) (groups_of S.read S.FAR groups.new) }
    ensures long { length groups.new ≡ SLOTS }
    ensures ticked { comparisons.new ≤ comparisons.old + 1 }
{
    if group.max(last) == last {
        let periods = S::FAR - (begin / period(last)) as u128;
        let bucket = bucket_first(last) + begin % period(last);
        keep_better(
            groups,
            group,
            bucket,
            start.moved(period_bits(last) * periods, 0),
            comparisons,
        );
    }
}

/// Adds a start to the buckets of its segment's group, one per final mode.
#[inline(always)]
pub(super) fn add_start<S: AnyStart, L: Ledger>(
    groups: &mut [S],
    group: Mode,
    begin: usize,
    start: &S,
    comparisons: &mut Comparisons<L>,
)
    requires long { length groups.old ≡ SLOTS }
    requires begin { begin < S.FAR }
    requires bits { (S.read start.now).bits < 32 * S.FAR }
    ensures added { Adds S.FAR group begin (S.read start.now)
        (groups_of S.read S.FAR groups.old) (groups_of S.read S.FAR groups.new) }
    ensures long { length groups.new ≡ SLOTS }
    ensures ticked { comparisons.new ≤ comparisons.old + 4 }
{
    add_to_bucket(groups, group, Mode::Numeric, begin, start, comparisons);
    add_to_bucket(groups, group, Mode::Alphanumeric, begin, start, comparisons);
    add_to_bucket(groups, group, Mode::Byte, begin, start, comparisons);
    add_to_bucket(groups, group, Mode::Kanji, begin, start, comparisons);
}

/// Returns how many bits precede the characters of a segment in each mode.
pub(super) fn header_widths(version: Version) -> [usize; 4]
    requires { HasMicroNumber version }
    ensures { AreHeaders version result }
{
    let indicator = version.mode_bits_count();
    [
        indicator + Mode::Numeric.length_bits_count(version),
        indicator + Mode::Alphanumeric.length_bits_count(version),
        indicator + Mode::Byte.length_bits_count(version),
        indicator + Mode::Kanji.length_bits_count(version),
    ]
}

/// Returns how many bits a part of `size` bytes takes in a mode.
fn part_len(headers: &[usize], mode: Mode, size: usize) -> u128
    requires { length headers.now ≡ 4 }
    ensures { result ≡
        get_or headers.now (mode_number mode) 0 + data_bits mode (characters mode size) }
{
    headers[mode as usize] as u128 + data_len(mode, size)
}

/// Returns the best start of the last part of the first `end` segments, by comparing the best
/// starts of all buckets.
#[inline(always)]
pub(super) fn last_step<S: AnyStart, L: Ledger>(
    segments: &[Segment],
    headers: &[usize],
    version: Version,
    end: usize,
    groups: &[S],
    comparisons: &mut Comparisons<L>,
) -> S
    requires headers { AreHeaders version headers.now }
    requires below { IsBelow S.FAR segments.now }
    requires some { 0 < end }
    requires within { end ≤ length segments.now }
    requires linear { HasLinearCosts segments.now version }
    requires long { length groups.now ≡ SLOTS }
    requires groups { AreGroups S.FAR segments.now version end end
        (groups_of S.read S.FAR groups.now) }
    ensures step { IsStep segments.now version end (S.read result) }
    ensures ticked { comparisons.new ≤ comparisons.old + 8 }
{
    let last_end = segments[end - 1].end;
    let mut best = S::none();
    for bucket in 0..8 {
        let mode = bucket_mode(bucket);
        let found = groups[slot_of(mode, bucket)];
        if found.is_some() {
            let bits = part_len(headers, mode, last_end - RESTS[bucket]);
            let start = found.moved(bits, S::FAR * period_bits(mode));
            if start.is_better(&best, comparisons) {
                best = start;
            }
        }
    }
    best
}

/// Returns the segments from `start` up to, not including, `end` as one.
fn joined(segments: &[Segment], start: usize, end: usize) -> Segment
    requires some { start < end }
    requires within { end ≤ length segments.now }
    ensures { part segments.now start end ≡ result ∷ [] }
{
    let mut mode = segments[start].mode;
    for i in start + 1..end {
        mode = mode.max(segments[i].mode);
    }
    Segment {
        mode,
        begin: segments[start].begin,
        end: segments[end - 1].end,
    }
}

/// Returns the parts of the chosen plan of all segments, from the starts of the last parts of the
/// chosen plans of first segments. Fails with `OutOfMemory` if an allocation fails.
#[tactic(auto, using(crate::proofs::ReadBack::reads_back))]
fn read_back<S: AnyStart>(
    alloc: Global,
    segments: &[Segment],
    version: Version,
    steps: &[S],
) -> QrResult<Vec<Segment>>
    requires all { length steps.now ≡ length segments.now + 1 }
    requires right { AreSteps segments.now version (map S.read steps.now) }
    ensures plan { IfOk result (λ plan. IsChosenPlan segments.now version plan.items) }
    ensures memory { IfErr result (λ e. e ≡ QrError.OutOfMemory) }
{
    let mut plan = Vec::new(alloc);
    let mut end = segments.len();
    while end > 0 {
        let start = steps[end].index();
        plan.push(joined(segments, start, end))?;
        end = start;
    }
    plan.reverse();
    Ok(plan)
}

/// Returns the chosen plan. Fails with `OutOfMemory` if an allocation fails.
pub fn optimize_linear<S: AnyStart, L: Ledger>(
    alloc: Global,
    segments: &[Segment],
    version: Version,
    comparisons: &mut Comparisons<L>,
) -> QrResult<Vec<Segment>>
    requires size { SLOTS * type_size S.row < 2 ^ 63 }
    requires micro { HasMicroNumber version }
    requires below { IsBelow S.FAR segments.now }
    requires linear { HasLinearCosts segments.now version }
    ensures plan { IfOk result (λ plan. IsChosenPlan segments.now version plan.items) }
    ensures memory { IfErr result (λ e. e ≡ QrError.OutOfMemory) }
    ensures ticked { comparisons.new ≤ comparisons.old + 36 * length segments.now }
{
    let headers = header_widths(version);
    let mut steps = Vec::with_capacity(alloc, segments.len() + 1)?;
    let mut groups = [S::none(); SLOTS];
    let mut before = S::first();
    steps.push(before)?;
    for start in 0..segments.len() {
        let segment = segments[start];
        advance(&mut groups, segment.mode, comparisons);
        let next = before.next(start);
        add_start(&mut groups, segment.mode, segment.begin, &next, comparisons);
        before = last_step(segments, &headers, version, start + 1, &groups, comparisons);
        steps.push(before)?;
    }
    read_back(alloc, segments, version, &steps)
}
