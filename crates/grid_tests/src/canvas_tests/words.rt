//! Tests of format words, version words and alignment patterns, as they are on canvases.
ghost use Rattle.std.specs.Prelude.{◌≡◌, IfOk};

use super::plain::{MICRO_MASKS, NORMAL_MASKS, apply};
use super::{LEVELS, module_at, new_canvas, side};
use qrcode_base::symbols::block_layout;
use qrcode_base::types::{Color, EcLevel, QrResult, Version};
use qrcode_grid::canvas::{Canvas, MaskPattern, Module};
use std::alloc::Global;

/// Returns a canvas with the functional patterns of its version.
fn patterned(alloc: Global, version: Version, level: EcLevel) -> QrResult<Canvas>
    ensures { IfOk result (λ canvas. canvas.version ≡ version) }
{
    let mut canvas = new_canvas(alloc, version, level)?;
    canvas.draw_all_functional_patterns();
    Ok(canvas)
}

/// Returns the word whose bits are at some places, the highest bit first.
fn word_at(canvas: &Canvas, version: Version, places: &[(usize, usize)]) -> u32
    requires { canvas.now.version ≡ version }
{
    let mut word = 0;
    for (x, y) in places {
        word = word << 1 | u32::from(module_at(canvas, version, *x, *y).is_dark());
    }
    word
}

/// Returns how many pairs of words differ in fewer than `digits` bits.
fn close_pairs(words: &[u32], digits: u32) -> usize {
    let mut close = 0usize;
    for i in 0..words.len() {
        for j in 0..i {
            if (words[i] ^ words[j]).count_ones() < digits {
                close = close.wrapping_add(1);
            }
        }
    }
    close
}

/// The cells of the format word beside the first finder pattern (ISO/IEC 18004:2006,
/// "Format information").
static NORMAL_PLACES: [(usize, usize); 15] = [
    (0, 8),
    (1, 8),
    (2, 8),
    (3, 8),
    (4, 8),
    (5, 8),
    (7, 8),
    (8, 8),
    (8, 7),
    (8, 5),
    (8, 4),
    (8, 3),
    (8, 2),
    (8, 1),
    (8, 0),
];

/// Its cells in a Micro symbol.
static MICRO_PLACES: [(usize, usize); 15] = [
    (1, 8),
    (2, 8),
    (3, 8),
    (4, 8),
    (5, 8),
    (6, 8),
    (7, 8),
    (8, 8),
    (8, 7),
    (8, 6),
    (8, 5),
    (8, 4),
    (8, 3),
    (8, 2),
    (8, 1),
];

/// Appends the format words of a version at a level, under each of some masks.
fn push_words(
    alloc: Global,
    words: &mut Vec<u32>,
    version: Version,
    level: EcLevel,
    masks: &[MaskPattern],
    places: &[(usize, usize)],
) -> QrResult<()> {
    for pattern in masks {
        let mut canvas = patterned(alloc, version, level)?;
        apply(&mut canvas, version, *pattern);
        words.push(word_at(&canvas, version, places))?;
    }
    Ok(())
}

/// Returns the format words of the Normal symbols, by level and mask.
fn normal_words(alloc: Global) -> QrResult<Vec<u32>> {
    let mut words = Vec::new(alloc);
    for level in LEVELS {
        let version = Version::Normal(1);
        push_words(
            alloc,
            &mut words,
            version,
            level,
            &NORMAL_MASKS,
            &NORMAL_PLACES,
        )?;
    }
    Ok(words)
}

/// Returns the format words of the Micro symbols, by level, version and mask.
fn micro_words(alloc: Global) -> QrResult<Vec<u32>> {
    let mut words = Vec::new(alloc);
    for level in LEVELS {
        for n in 1..5i16 {
            let version = Version::Micro(n);
            if block_layout(version, level).is_some() {
                push_words(
                    alloc,
                    &mut words,
                    version,
                    level,
                    &MICRO_MASKS,
                    &MICRO_PLACES,
                )?;
            }
        }
    }
    Ok(words)
}

#[test]
fn format_words_are_far(rt: HostRuntime) {
    let normal = normal_words(rt.alloc()).expect(&rt, "no words");
    assert!(rt; normal.len() == 32 && close_pairs(&normal, 7) == 0);
    // Level M under mask number 5.
    assert!(rt; normal.get(13) == Some(&0x40CE));
    let micro = micro_words(rt.alloc()).expect(&rt, "no words");
    assert!(rt; micro.len() == 32 && close_pairs(&micro, 7) == 0);
}

/// Returns the version word of a canvas, from its lower left copy.
fn version_word(canvas: &Canvas, version: Version) -> u32
    requires { canvas.now.version ≡ version }
{
    let first = side(version).saturating_sub(11);
    let mut word = 0;
    for k in 0..18 {
        let module = module_at(canvas, version, (17 - k) / 3, first + (17 - k) % 3);
        word = word << 1 | u32::from(module.is_dark());
    }
    word
}

/// Returns the version words, from that of version 7 on.
fn version_words(alloc: Global) -> QrResult<Vec<u32>> {
    let mut words = Vec::new(alloc);
    for n in 7..41i16 {
        let version = Version::Normal(n);
        words.push(version_word(&patterned(alloc, version, EcLevel::L)?, version))?;
    }
    Ok(words)
}

#[test]
fn version_words_are_far(rt: HostRuntime) {
    let words = version_words(rt.alloc()).expect(&rt, "no words");
    assert!(rt; words.first() == Some(&0x07C94));
    assert!(rt; words.len() == 34 && close_pairs(&words, 8) == 0);
}

/// Returns whether an alignment pattern has its centre two columns and two rows after a cell.
fn is_alignment(canvas: &Canvas, version: Version, x: usize, y: usize) -> bool
    requires { canvas.now.version ≡ version }
{
    for i in 0..5 {
        for j in 0..5 {
            let is_ring = usize::abs_diff(i, 2).max(usize::abs_diff(j, 2)) == 1;
            let want = if is_ring { Color::Light } else { Color::Dark };
            let module = module_at(canvas, version, x.wrapping_add(i), y.wrapping_add(j));
            if module != Module::Masked(want) {
                return false;
            }
        }
    }
    true
}

/// Returns the centres of the alignment patterns on a canvas, row by row.
fn alignment_centers(alloc: Global, version: Version) -> QrResult<Vec<(usize, usize)>> {
    let canvas = patterned(alloc, version, EcLevel::L)?;
    let mut centers = Vec::new(alloc);
    for y in 0..side(version) {
        for x in 0..side(version) {
            if is_alignment(&canvas, version, x, y) {
                centers.push((x.wrapping_add(2), y.wrapping_add(2)))?;
            }
        }
    }
    Ok(centers)
}

/// Returns whether the centres are all pairs of some coordinates except the three at the
/// finder patterns.
fn are_pairs(centers: &[(usize, usize)], coordinates: &[usize]) -> bool {
    let mut rest = centers.iter();
    let last = coordinates.last();
    for y in coordinates {
        for x in coordinates {
            let is_finder = (*x == 6 && *y == 6)
                || (*x == 6 && Some(y) == last)
                || (Some(x) == last && *y == 6);
            if !is_finder && rest.next() != Some(&(*x, *y)) {
                return false;
            }
        }
    }
    rest.next().is_none()
}

/// Returns whether the centres of a version are the pairs of some coordinates.
fn has_pairs(alloc: Global, version: Version, coordinates: &[usize]) -> QrResult<bool> {
    let centers = alignment_centers(alloc, version)?;
    Ok(are_pairs(&centers, coordinates))
}

/// Versions, and how many alignment patterns they have.
static PATTERNS: [(i16, usize); 13] = [
    (1, 0),
    (2, 1),
    (6, 1),
    (7, 6),
    (13, 6),
    (14, 13),
    (20, 13),
    (21, 22),
    (27, 22),
    (28, 33),
    (34, 33),
    (35, 46),
    (40, 46),
];

#[test]
fn has_the_alignment_centers(rt: HostRuntime) {
    let seven = has_pairs(rt.alloc(), Version::Normal(7), &[6, 22, 38]);
    let coordinates = [6, 34, 60, 86, 112, 138];
    let thirty_two = has_pairs(rt.alloc(), Version::Normal(32), &coordinates);
    assert!(rt; seven == Ok(true) && thirty_two == Ok(true));
    for (n, want) in PATTERNS {
        let centers = alignment_centers(rt.alloc(), Version::Normal(n)).expect(&rt, "no canvas");
        assert!(rt; centers.len() == want, "of {n}");
    }
}
