//! Symbols as full as their version allows, in all versions at all levels.
use plain_reader::{Level, Seen, Shape, blank_shape, data_cells, data_count};
use qrcode_core::symbol::{symbol, symbol_micro};
use qrcode_core::types::{Color, EcLevel};
use std::alloc::Global;
use std::ops::Range;

/// The levels, each with its type in the plain reader.
const LEVELS: [(EcLevel, Level); 4] = [
    (EcLevel::L, Level::L),
    (EcLevel::M, Level::M),
    (EcLevel::Q, Level::Q),
    (EcLevel::H, Level::H),
];

/// Returns the modules of the symbol of some bytes, or of their Micro symbol: `true` for a
/// dark one.
pub(crate) fn modules(
    alloc: Global,
    bytes: &[u8],
    level: EcLevel,
    micro: bool,
) -> Option<Vec<bool>> {
    let answer = if micro {
        symbol_micro(alloc, bytes, level)
    } else {
        symbol(alloc, bytes, level)
    };
    let grid = answer.ok()?;
    let mut modules = Vec::with_capacity(alloc, grid.len()).ok()?;
    for color in &grid {
        modules.push(matches!(color, Color::Dark)).ok()?;
    }
    Some(modules)
}

/// Returns what the plain reader reads from the symbol of some bytes, or from their Micro symbol.
pub(crate) fn seen(alloc: Global, bytes: &[u8], level: EcLevel, micro: bool) -> Option<Seen> {
    plain_reader::read(alloc, &modules(alloc, bytes, level, micro)?)
}

/// Returns whether the symbol of as many bytes as fit a version with `cells` data cells is read
/// back as these bytes, in this version and level (which is given in both types).
fn is_read_back(alloc: Global, shape: Shape, cells: usize, level: EcLevel, wanted: Level) -> bool {
    let Some(room) = data_count(shape, wanted, cells) else {
        return shape.micro;
    };
    let bits = room.saturating_mul(8);
    let header = match (shape.micro, shape.number) {
        (true, number) => number.saturating_mul(2),
        (false, 0..10) => 12,
        (false, _) => 20,
    };
    if shape.micro && shape.number < 3 {
        return true;
    }
    let missing = if shape.micro && shape.number == 3 {
        4
    } else {
        0
    };
    let count = bits.saturating_sub(header).saturating_sub(missing) / 8;
    let Ok(bytes) = vec![in alloc; 0xf1; count] else {
        return false;
    };
    seen(alloc, &bytes, level, shape.micro).is_some_and(|seen| {
        seen.shape == shape && seen.level == wanted && seen.bytes.as_slice() == bytes.as_slice()
    })
}

/// Returns the first of some versions that is not read back at some level.
fn first_not_read_back(alloc: Global, versions: Range<usize>, micro: bool) -> Option<usize> {
    for number in versions {
        let shape = blank_shape(number, micro);
        let Some(cells) = data_cells(alloc, shape) else {
            return Some(number);
        };
        for (level, wanted) in LEVELS {
            if !is_read_back(alloc, shape, cells, level, wanted) {
                return Some(number);
            }
        }
    }
    None
}

// All versions at all levels, in parts that each finish within the time limit of `rt try --test`.

#[test]
fn reads_versions_1_to_20_back(rt: HostRuntime) {
    assert_eq!(rt; first_not_read_back(rt.alloc(), 1..21, false), None);
}

#[test]
fn reads_versions_21_to_26_back(rt: HostRuntime) {
    assert_eq!(rt; first_not_read_back(rt.alloc(), 21..27, false), None);
}

#[test]
fn reads_versions_27_to_31_back(rt: HostRuntime) {
    assert_eq!(rt; first_not_read_back(rt.alloc(), 27..32, false), None);
}

#[test]
fn reads_versions_32_to_35_back(rt: HostRuntime) {
    assert_eq!(rt; first_not_read_back(rt.alloc(), 32..36, false), None);
}

#[test]
fn reads_versions_36_to_38_back(rt: HostRuntime) {
    assert_eq!(rt; first_not_read_back(rt.alloc(), 36..39, false), None);
}

#[test]
fn reads_versions_39_and_40_back(rt: HostRuntime) {
    assert_eq!(rt; first_not_read_back(rt.alloc(), 39..41, false), None);
}

#[test]
fn reads_micro_versions_back(rt: HostRuntime) {
    assert_eq!(rt; first_not_read_back(rt.alloc(), 1..5, true), None);
}
