//! Calls that allocate, each with its expected value. A test passes if all allocations succeed. If
//! one fails, the test returns `OutOfMemory`, after it has checked what the call promises to leave
//! unchanged; every other result is a failed assertion.
//!
//! `tools/refuse-growth` lets the allocations of each test fail in turn.

mod pushes;
mod registry;
mod text_symbols;

use crate::grids::hash;
use crate::sequence_tests::SIXTEEN;
use qrcode_core::bits::{
    encode_auto, encode_auto_micro, encode_auto_with_max_version, encode_part,
};
use qrcode_core::canvas::{Canvas, MaskPattern};
use qrcode_core::ec::{construct_codewords, create_error_correction_code};
use qrcode_core::optimize::{Parser, Segment, optimize_segments, supports_linear_costs};
use qrcode_core::symbol::{are_cuts, symbol, symbol_micro, symbol_sequence};
use qrcode_core::types::{EcLevel, Mode, QrError, QrResult, Version};
use std::alloc::Global;

const ONE: Version = Version::Normal(1);

/// The data codewords of `HELLO WORLD` in version 1 at level M; their correction is below.
static HELLO_WORLD: [u8; 16] = [
    0x20, 0x5b, 0x0b, 0x78, 0xd1, 0x72, 0xdc, 0x4d, 0x43, 0x40, 0xec, 0x11, 0xec, 0x11, 0xec, 0x11,
];

static HELLO_WORLD_CORRECTION: [u8; 10] = [
    0xc4, 0x23, 0x27, 0x77, 0xeb, 0xd7, 0xe7, 0xe2, 0x5d, 0x17,
];

// The hashes of these symbols are those of the original crate's symbols.

#[test]
fn symbol_of_hello(rt: HostRuntime) -> QrResult<()> {
    let grid = symbol(rt.alloc(), b"hello", EcLevel::L)?;
    assert_eq!(rt; hash(&grid), 0xe729ee61);
    Ok(())
}

#[test]
fn symbol_of_hello_world(rt: HostRuntime) -> QrResult<()> {
    let grid = symbol(rt.alloc(), b"HELLO WORLD", EcLevel::M)?;
    assert_eq!(rt; hash(&grid), 0xa216eb75);
    Ok(())
}

#[test]
fn symbol_of_230_bytes(rt: HostRuntime) -> QrResult<()> {
    let grid = symbol(rt.alloc(), &[b'a'; 230], EcLevel::L)?;
    assert_eq!(rt; hash(&grid), 0xd45171ee);
    Ok(())
}

#[test]
fn symbol_of_231_bytes(rt: HostRuntime) -> QrResult<()> {
    let grid = symbol(rt.alloc(), &[b'a'; 231], EcLevel::L)?;
    assert_eq!(rt; hash(&grid), 0x031b148c);
    Ok(())
}

#[test]
fn symbol_micro_of_five_digits(rt: HostRuntime) -> QrResult<()> {
    let grid = symbol_micro(rt.alloc(), b"12345", EcLevel::L)?;
    assert_eq!(rt; hash(&grid), 0x31f2a162);
    Ok(())
}

static HASHES: [u32; 3] = [0xc43428a1, 0xf64cb6af, 0xd9083bff];

#[test]
fn symbol_sequence_of_three(rt: HostRuntime) -> QrResult<()> {
    let grids = symbol_sequence(rt.alloc(), b"AB12cd", &[2, 4], EcLevel::L, 40)?;
    assert_eq!(rt; grids.len(), HASHES.len());
    for (grid, sum) in grids.iter().zip(HASHES.iter()) {
        assert_eq!(rt; hash(grid), *sum);
    }
    Ok(())
}

static CUTS: [usize; 15] = [1, 2, 3, 4, 5, 6, 7, 8, 9, 10, 11, 12, 13, 14, 15];

#[test]
fn symbol_sequence_of_sixteen(rt: HostRuntime) -> QrResult<()> {
    assert!(rt; are_cuts(&CUTS, 16));
    let grids = symbol_sequence(rt.alloc(), b"abcdefghijklmnop", &CUTS, EcLevel::L, 40)?;
    assert_eq!(rt; grids.len(), SIXTEEN.len());
    for (grid, sum) in grids.iter().zip(SIXTEEN.iter()) {
        assert_eq!(rt; hash(grid), *sum);
    }
    Ok(())
}

/// More digits than any symbol holds are rejected without an allocation.
#[test]
fn symbols_of_too_many_digits(rt: HostRuntime) {
    let digits = [b'7'; 7090];
    let refused = symbol(rt.alloc(), &digits, EcLevel::L);
    assert!(rt; matches!(refused, Err(QrError::DataTooLong)));
    let refused = symbol_micro(rt.alloc(), &digits, EcLevel::L);
    assert!(rt; matches!(refused, Err(QrError::DataTooLong)));
}

#[test]
fn encode_auto_of_hello_world(rt: HostRuntime) -> QrResult<()> {
    let bits = encode_auto(rt.alloc(), b"HELLO WORLD", EcLevel::M)?;
    assert_eq!(rt; bits.payload_bits_len(), 74);
    assert_eq!(rt; bits.into_bytes().as_slice(), &HELLO_WORLD[..]);
    Ok(())
}

#[test]
fn encode_auto_with_max_version_of_digits(rt: HostRuntime) -> QrResult<()> {
    let bits = encode_auto_with_max_version(rt.alloc(), b"01234567", EcLevel::M, 1)?;
    assert_eq!(rt; bits.payload_bits_len(), 41);
    assert_eq!(rt;
        bits.into_bytes().as_slice(),
        &[
            0x10, 0x20, 0x0c, 0x56, 0x61, 0x80, 0xec, 0x11, 0xec, 0x11, 0xec, 0x11, 0xec, 0x11,
            0xec, 0x11,
        ][..]
    );
    Ok(())
}

#[test]
fn encode_auto_micro_of_digits(rt: HostRuntime) -> QrResult<()> {
    let bits = encode_auto_micro(rt.alloc(), b"12345", EcLevel::L)?;
    assert_eq!(rt; bits.payload_bits_len(), 20);
    assert_eq!(rt; bits.into_bytes().as_slice(), &[0xa3, 0xda, 0xd0][..]);
    Ok(())
}

#[test]
fn encode_part_of_two_letters(rt: HostRuntime) -> QrResult<()> {
    let bits = encode_part(rt.alloc(), b"AB", 1, 3, 7, EcLevel::L, 40)?;
    assert_eq!(rt; bits.payload_bits_len(), 44);
    let bytes = bits.into_bytes();
    assert!(rt;
        bytes
            .as_slice()
            .starts_with(&[0x30, 0x20, 0x72, 0x01, 0x1c, 0xd0, 0xec])
    );
    Ok(())
}

static PARTS: [Segment; 2] = [
    Segment {
        mode: Mode::Alphanumeric,
        begin: 0,
        end: 6,
    },
    Segment {
        mode: Mode::Byte,
        begin: 6,
        end: 10,
    },
];

/// Letters and digits, and then bytes: the least plan joins the first two.
#[test]
fn plans_of_three_segments(rt: HostRuntime) -> QrResult<()> {
    let mut segments = Vec::new(rt.alloc());
    for segment in Parser::new(b"ABC123abcd") {
        segments.push(segment)?;
    }
    assert!(rt; supports_linear_costs(&segments, ONE));
    let plan = optimize_segments(rt.alloc(), &segments, ONE)?;
    assert!(rt; plan.as_slice() == PARTS.as_slice());
    let parsed = Parser::new(b"ABC123abcd").optimize(rt.alloc(), ONE)?;
    assert!(rt; parsed.eq(plan.iter().copied()));
    Ok(())
}

#[test]
fn create_error_correction_code_of_hello_world(rt: HostRuntime) -> QrResult<()> {
    let code = create_error_correction_code(rt.alloc(), &HELLO_WORLD, 10)?;
    assert_eq!(rt; code.as_slice(), &HELLO_WORLD_CORRECTION[..]);
    Ok(())
}

#[test]
fn construct_codewords_of_hello_world(rt: HostRuntime) -> QrResult<()> {
    let (data, correction) = construct_codewords(rt.alloc(), &HELLO_WORLD, ONE, EcLevel::M)?;
    assert!(rt; data.as_slice() == HELLO_WORLD.as_slice());
    assert!(rt; correction.as_slice() == HELLO_WORLD_CORRECTION.as_slice());
    Ok(())
}

/// Returns a canvas of `12345`, whose symbol and score are known.
fn five_digits(alloc: Global) -> QrResult<Canvas> {
    let mut canvas = Canvas::new(alloc, Version::Micro(1), EcLevel::L)?;
    canvas.draw_all_functional_patterns();
    canvas.draw_data(&[0xa3, 0xda, 0xd0], &[0x6e, 0xc7]);
    canvas.clone(alloc)
}

// The three functions that choose a mask agree.

#[test]
fn best_masks_of_five_digits(rt: HostRuntime) -> QrResult<()> {
    let best = five_digits(rt.alloc())?.apply_best_mask(rt.alloc())?;
    assert_eq!(rt; hash(&best.into_colors(rt.alloc())?), 0x31f2a162);
    Ok(())
}

#[test]
fn best_mask_with_pattern_of_five_digits(rt: HostRuntime) -> QrResult<()> {
    let canvas = five_digits(rt.alloc())?;
    let (best, pattern) = canvas.apply_best_mask_with_pattern(rt.alloc())?;
    assert!(rt; pattern == MaskPattern::Diamonds);
    assert_eq!(rt; hash(&best.into_colors(rt.alloc())?), 0x31f2a162);
    Ok(())
}

#[test]
fn best_mask_with_score_of_five_digits(rt: HostRuntime) -> QrResult<()> {
    let canvas = five_digits(rt.alloc())?;
    let (best, pattern, score) = canvas.apply_best_mask_with_score(rt.alloc())?;
    assert!(rt; pattern == MaskPattern::Diamonds);
    assert_eq!(rt; score, 85);
    assert_eq!(rt; hash(&best.into_colors(rt.alloc())?), 0x31f2a162);
    Ok(())
}

/// The least of the penalties is the score of the best mask.
#[test]
fn penalties_of_five_digits(rt: HostRuntime) -> QrResult<()> {
    let canvas = five_digits(rt.alloc())?;
    let penalties = canvas.penalties(rt.alloc())?;
    assert_eq!(rt; penalties.len(), 4);
    assert_eq!(rt; penalties.iter().copied().min(), Some(85));
    Ok(())
}
