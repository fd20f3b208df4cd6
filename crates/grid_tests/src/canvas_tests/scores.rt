//! Compares scores with plain sums of the penalties. For small versions the tests compute these
//! sums themselves. For all versions the sums are in `tables`, printed by a program that implements
//! only the rules.
ghost use Rattle.std.specs.Prelude.{◌≡◌, IfOk};
ghost use Rattle.qrcode_base.specs.Symbols.{width_of};
ghost use Rattle.qrcode_grid.specs.Canvas.{IsCoordinate};

use super::plain::{MICRO_MASKS, NORMAL_MASKS, plain_penalties};
use super::tables::{ALL_DARK, DIGITS, MICRO_PRINTED, NEW, PAINTED, PRINTED, SYMBOLS, WRITTEN};
use super::{LEVELS, digits, drawn, new_canvas, next_random, side, versions};
use qrcode_base::types::{Color, EcLevel, QrResult, Version};
use qrcode_grid::canvas::{Canvas, MaskPattern, Module};
use std::alloc::Global;

/// Returns the masks of a version.
fn masks_of(version: Version) -> &'static [MaskPattern] {
    match version {
        Version::Normal(_) => &NORMAL_MASKS,
        Version::Micro(_) => &MICRO_MASKS,
    }
}

/// Returns the index of the first least of some sums.
fn first_of_least(sums: &[usize]) -> usize {
    let mut best = (0usize, usize::MAX);
    for (i, sum) in sums.iter().enumerate() {
        if *sum < best.1 {
            best = (i, *sum);
        }
    }
    best.0
}

/// Returns the score that is reported for a plain sum.
fn told(version: Version, sum: usize) -> usize {
    let less = match version {
        Version::Normal(_) => 720,
        Version::Micro(_) => 0,
    };
    sum.saturating_sub(less).min(65535)
}

/// Returns whether the best mask of a canvas is that of the first least sum, with the score of
/// that sum.
fn is_chosen(alloc: Global, canvas: &Canvas, version: Version, sums: &[usize]) -> QrResult<bool> {
    let (_best, pattern, score) = canvas.apply_best_mask_with_score(alloc)?;
    let first = first_of_least(sums);
    let chosen = masks_of(version).get(first).copied() == Some(pattern);
    let least = sums.get(first).copied().unwrap_or(0);
    Ok(chosen && usize::from(score) == told(version, least))
}

/// Returns whether the penalties of a canvas under all masks are the plain sums, and the best mask
/// and its score are those of the first least sum.
fn is_scored(alloc: Global, canvas: &Canvas, version: Version) -> QrResult<bool>
    requires { canvas.now.version ≡ version }
{
    let sums = plain_penalties(alloc, canvas, version, masks_of(version))?;
    let counted = canvas.penalties(alloc)?;
    Ok(counted.as_slice() == sums.as_slice() && is_chosen(alloc, canvas, version, &sums)?)
}

/// Writes a module in one of the seven ways.
fn write(canvas: &mut Canvas, x: i16, y: i16, way: u32)
    requires column { IsCoordinate (width_of canvas.old.version) x }
    requires row { IsCoordinate (width_of canvas.old.version) y }
    ensures { canvas.new.version ≡ canvas.old.version }
{
    match way % 7 {
        0 => canvas.put(x, y, Color::Dark),
        1 => canvas.put(x, y, Color::Light),
        2 => *canvas.get_mut(x, y) = Module::Unmasked(Color::Dark),
        3 => *canvas.get_mut(x, y) = Module::Unmasked(Color::Light),
        4 => *canvas.get_mut(x, y) = Module::Masked(Color::Dark),
        5 => *canvas.get_mut(x, y) = Module::Masked(Color::Light),
        _ => *canvas.get_mut(x, y) = Module::Empty,
    }
}

/// How many modules in a row are written in the same way, by three bits of a number.
static RUNS: [u32; 8] = [1, 1, 2, 3, 4, 5, 7, 40];

/// Writes every module, row by row or column by column, in runs of one kind from a fixed sequence.
fn fill(canvas: &mut Canvas, version: Version, seed: u32)
    requires { canvas.old.version ≡ version }
    ensures { canvas.new.version ≡ version }
{
    let width = side(version);
    let by_rows = seed % 2 == 0;
    let mut state = seed;
    let mut left = 0;
    for i in 0..width {
        for j in 0..width {
            if left == 0 {
                state = next_random(state);
                left = RUNS[(state >> 21) as usize % 8];
            }
            left = left.wrapping_sub(1);
            if by_rows {
                write(canvas, j as i16, i as i16, state >> 24);
            } else {
                write(canvas, i as i16, j as i16, state >> 24);
            }
        }
    }
}

/// Writes a checkerboard of squares of one size; the corner is dark if `first` is 0 and light if it
/// is 1.
fn paint(canvas: &mut Canvas, version: Version, size: usize, first: usize)
    requires { canvas.old.version ≡ version }
    ensures { canvas.new.version ≡ version }
{
    let width = side(version);
    let size = size.max(1);
    for y in 0..width {
        let row = (y / size).wrapping_add(first);
        for x in 0..width {
            let is_dark = (x / size).wrapping_add(row) % 2 == 0;
            let color = if is_dark { Color::Dark } else { Color::Light };
            canvas.put(x as i16, y as i16, color);
        }
    }
}

/// Returns a canvas that `fill` has written.
fn filled(alloc: Global, version: Version, seed: u32) -> QrResult<Canvas>
    ensures { IfOk result (λ canvas. canvas.version ≡ version) }
{
    let mut canvas = new_canvas(alloc, version, EcLevel::L)?;
    fill(&mut canvas, version, seed);
    Ok(canvas)
}

/// Returns a canvas that `paint` has written.
fn painted(alloc: Global, version: Version, size: usize, first: usize) -> QrResult<Canvas>
    ensures { IfOk result (λ canvas. canvas.version ≡ version) }
{
    let mut canvas = new_canvas(alloc, version, EcLevel::L)?;
    paint(&mut canvas, version, size, first);
    Ok(canvas)
}

/// Returns whether each penalty is the printed one plus `more`.
fn are_printed(counted: &[usize], printed: &[usize], more: usize) -> bool {
    counted.len() == printed.len()
        && counted
            .iter()
            .zip(printed.iter())
            .all(|pair| *pair.0 == more.wrapping_add(*pair.1))
}

/// Returns whether the penalties of a symbol are the printed ones plus `more`.
fn has_printed(alloc: Global, version: Version, printed: &[usize], more: usize) -> QrResult<bool> {
    let counted = drawn(alloc, version, 1)?.penalties(alloc)?;
    Ok(are_printed(&counted, printed, more))
}

#[test]
fn has_the_printed_penalties(rt: HostRuntime) {
    for (n, printed) in &PRINTED {
        let has = has_printed(rt.alloc(), Version::Normal(*n), printed, 720);
        assert!(rt; has == Ok(true), "version {n}");
    }
    for (n, printed) in &MICRO_PRINTED {
        let has = has_printed(rt.alloc(), Version::Micro(*n), printed, 0);
        assert!(rt; has == Ok(true), "version M{n}");
    }
}

/// Returns a hash of some numbers, in order.
fn mixed(start: u32, values: &[usize]) -> u32 {
    let mut mix = start;
    for value in values {
        mix = (mix ^ (*value % 0x1_0000_0000) as u32).wrapping_mul(16777619);
    }
    mix
}

/// The initial value of such a hash.
const START: u32 = 2166136261;

/// Returns whether the penalties of a canvas have this hash, and the best mask and its score are
/// those of the first least one.
fn has_mix(alloc: Global, canvas: &Canvas, version: Version, want: u32) -> QrResult<bool> {
    let counted = canvas.penalties(alloc)?;
    Ok(mixed(START, &counted) == want && is_chosen(alloc, canvas, version, &counted)?)
}

#[test]
fn scores_symbols(rt: HostRuntime) {
    let all = versions(rt.alloc()).expect(&rt, "no versions");
    for (version, want) in all.iter().zip(SYMBOLS.iter()) {
        let canvas = drawn(rt.alloc(), *version, 1).expect(&rt, "no canvas");
        assert!(rt;
            has_mix(rt.alloc(), &canvas, *version, *want) == Ok(true),
            "{version:?}"
        );
    }
}

/// How painted canvases begin: the sizes of the squares, and whether the corner is dark or light.
static PAINTS: [(usize, usize); 5] = [(200, 0), (200, 1), (1, 0), (2, 1), (5, 1)];

/// Returns the hash of a version's painted canvases, and of a new one.
fn painted_mix(alloc: Global, version: Version) -> QrResult<u32> {
    let mut mix = START;
    for (size, first) in PAINTS {
        mix = mixed(
            mix,
            &painted(alloc, version, size, first)?.penalties(alloc)?,
        );
    }
    let new = new_canvas(alloc, version, EcLevel::L)?;
    Ok(mixed(mix, &new.penalties(alloc)?))
}

#[test]
fn scores_painted_canvases(rt: HostRuntime) {
    let all = versions(rt.alloc()).expect(&rt, "no versions");
    for (version, want) in all.iter().zip(PAINTED.iter()) {
        assert!(rt;
            painted_mix(rt.alloc(), *version) == Ok(*want),
            "{version:?}"
        );
    }
}

/// Returns the hash of a version's written canvases, of every 44th seed from the first one on, and
/// how many there are.
fn written_mix(alloc: Global, version: Version, first: u32) -> QrResult<(u32, usize)> {
    let (mut mix, mut canvases) = (START, 0usize);
    for seed in (first..200).step_by(44) {
        mix = mixed(mix, &filled(alloc, version, seed)?.penalties(alloc)?);
        canvases = canvases.wrapping_add(1);
    }
    Ok((mix, canvases))
}

#[test]
fn scores_written_canvases(rt: HostRuntime) {
    let mut canvases = 0usize;
    let all = versions(rt.alloc()).expect(&rt, "no versions");
    for ((i, version), want) in all.iter().enumerate().zip(WRITTEN.iter()) {
        let (mix, count) = written_mix(rt.alloc(), *version, i as u32).expect(&rt, "no canvas");
        assert!(rt; mix == *want, "{version:?}");
        canvases = canvases.wrapping_add(count);
    }
    assert!(rt; canvases == 200);
}

/// Versions whose plain sums are soon computed.
static SMALL: [Version; 6] = [
    Version::Normal(1),
    Version::Normal(2),
    Version::Micro(1),
    Version::Micro(2),
    Version::Micro(3),
    Version::Micro(4),
];

/// Returns whether the penalties of a symbol, and of four written canvases, are plain sums.
fn are_scored(alloc: Global, version: Version) -> QrResult<bool> {
    for seed in 0..4u32 {
        if !is_scored(alloc, &filled(alloc, version, seed)?, version)? {
            return Ok(false);
        }
    }
    is_scored(alloc, &drawn(alloc, version, 1)?, version)
}

/// The penalties, the best mask and its score agree with plain sums, in small versions.
#[test]
fn scores_by_plain_sums(rt: HostRuntime) {
    for version in SMALL {
        assert!(rt; are_scored(rt.alloc(), version) == Ok(true), "{version:?}");
    }
}

/// In these Normal symbols the sums are below 720, so that the score is 0.
#[test]
fn scores_new_canvases(rt: HostRuntime) {
    let mut wanted = NEW.iter();
    for version in &versions(rt.alloc()).expect(&rt, "no versions") {
        for level in LEVELS {
            if let Ok(canvas) = new_canvas(rt.alloc(), *version, level) {
                let want = wanted.next().copied().expect(&rt, "a row");
                let has = has_mix(rt.alloc(), &canvas, *version, want);
                assert!(rt; has == Ok(true), "{version:?}, {level:?}");
            }
        }
    }
    assert!(rt; wanted.next().is_none());
}

/// Returns the mask and the score of a canvas with every cell in one colour: dark for 0, light
/// for 1.
fn score_of_color(alloc: Global, version: Version, first: usize) -> QrResult<(MaskPattern, u16)> {
    let canvas = painted(alloc, version, 200, first)?;
    let (_best, pattern, score) = canvas.apply_best_mask_with_score(alloc)?;
    Ok((pattern, score))
}

/// Versions whose cells are all in one colour, the mask and the score.
static ONE_COLOR: [(Version, usize, MaskPattern, u16); 3] = [
    (Version::Micro(1), 0, MaskPattern::HorizontalLines, 0),
    (Version::Micro(1), 1, MaskPattern::HorizontalLines, 170),
    (Version::Normal(40), 0, MaskPattern::Diamonds, 65535),
];

/// In M1 all masks have the same penalty, so that the first is chosen. In version 40 the least sum
/// is that of Diamonds, and the score of every mask is 65535.
#[test]
fn scores_dark_and_light(rt: HostRuntime) {
    for (version, first, mask, want) in ONE_COLOR {
        let score = score_of_color(rt.alloc(), version, first);
        assert!(rt; score == Ok((mask, want)), "{version:?}");
    }
}

/// Returns whether the penalties of a canvas are these.
fn has_penalties(alloc: Global, canvas: &Canvas, want: &[usize]) -> bool {
    match canvas.penalties(alloc) {
        Ok(counted) => counted.as_slice() == want,
        Err(_) => false,
    }
}

#[test]
fn scores_all_dark(rt: HostRuntime) {
    let canvas = painted(rt.alloc(), Version::Normal(40), 200, 0).expect(&rt, "no canvas");
    assert!(rt; has_penalties(rt.alloc(), &canvas, &ALL_DARK));
    assert!(rt; first_of_least(&ALL_DARK) == MaskPattern::Diamonds as usize);
}

/// The four masks of the symbol of the digits 12345.
#[test]
fn scores_digits(rt: HostRuntime) {
    let canvas = digits(rt.alloc()).expect(&rt, "no canvas");
    assert!(rt; has_penalties(rt.alloc(), &canvas, &DIGITS));
    assert!(rt; is_chosen(rt.alloc(), &canvas, Version::Micro(1), &DIGITS) == Ok(true));
}
