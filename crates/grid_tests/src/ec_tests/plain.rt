//! Compares error correction and codewords with a second computation from the rules of the
//! standard: products by shifts, division by a generator that is multiplied out, and blocks written
//! row by row.

ghost use Rattle.std.specs.Prelude.{◌≤◌};

use qrcode_base::symbols::{BlockLayout, block_layout};
use qrcode_base::types::{EcLevel, QrError, QrResult, Version};
use qrcode_grid::ec::{construct_codewords, create_error_correction_code};
use std::alloc::Global;

/// Returns the product of two elements of the field: a sum of shifted elements, reduced by
/// 11D (hex).
fn times(a: u8, b: u8) -> u8 {
    let mut product = 0;
    let mut shifted = a;
    let mut rest = b;
    for _ in 0..8 {
        if rest % 2 == 1 {
            product ^= shifted;
        }
        let reduced = if shifted >= 128 { 0x1D } else { 0 };
        shifted = shifted.wrapping_mul(2) ^ reduced;
        rest /= 2;
    }
    product
}

/// Returns the generator for `n` correction bytes: the product of x plus each of the first n powers
/// of 2.
fn plain_generator(alloc: Global, n: usize) -> QrResult<Vec<u8>> {
    let mut generator = Vec::new(alloc);
    generator.push(1)?;
    let mut root = 1;
    for _ in 0..n {
        let mut before = 0;
        for term in &mut generator {
            let now = *term;
            *term = now ^ times(before, root);
            before = now;
        }
        generator.push(times(before, root))?;
        root = times(root, 2);
    }
    Ok(generator)
}

/// Takes a generator away from the data that begin at a place, as often as they begin with it.
fn subtract(work: &mut [u8], at: usize, generator: &[u8]) {
    let lead = work.get(at).copied().unwrap_or(0);
    for (term, place) in generator.iter().zip(work.iter_mut().skip(at)) {
        *place ^= times(lead, *term);
    }
}

/// Returns the remainder of the data followed by n zeros, divided by a generator of degree n.
fn plain_code(alloc: Global, data: &[u8], generator: &[u8]) -> QrResult<Vec<u8>> {
    let mut work = Vec::from_slice(alloc, data)?;
    for _ in 1..generator.len() {
        work.push(0)?;
    }
    for at in 0..data.len() {
        subtract(&mut work, at, generator);
    }
    let code = work.get(data.len()..).unwrap_or(&[]);
    Ok(Vec::from_slice(alloc, code)?)
}

/// Returns bytes of a fixed sequence.
fn bytes_of(alloc: Global, len: usize, seed: u32) -> QrResult<Vec<u8>> {
    let mut bytes = Vec::with_capacity(alloc, len)?;
    let mut state = seed;
    for _ in 0..len {
        state = state.wrapping_mul(1664525).wrapping_add(1013904223);
        bytes.push((state >> 24) as u8)?;
    }
    Ok(bytes)
}

/// Returns whether the correction of data of nine lengths is the plain remainder.
fn divides_by(alloc: Global, n: usize) -> QrResult<bool>
    requires { n ≤ 69 }
{
    let generator = plain_generator(alloc, n)?;
    for len in [0, 1, 2, 15, 31, 32, 33, 123, 255] {
        let data = bytes_of(alloc, len, 7)?;
        let code = create_error_correction_code(alloc, &data, n)?;
        if code.as_slice() != plain_code(alloc, &data, &generator)?.as_slice() {
            return Ok(false);
        }
    }
    Ok(true)
}

#[test]
fn divides_by_each_generator(rt: HostRuntime) {
    for n in 0..70 {
        assert!(rt; divides_by(rt.alloc(), n) == Ok(true), "degree {n}");
    }
}

/// Returns the sizes of the blocks, in order.
fn plain_sizes(alloc: Global, layout: &BlockLayout) -> QrResult<Vec<usize>> {
    let mut sizes = Vec::new(alloc);
    for _ in 0..layout.first_count {
        sizes.push(usize::from(layout.first_size))?;
    }
    for _ in 0..layout.second_count {
        sizes.push(usize::from(layout.second_size))?;
    }
    Ok(sizes)
}

/// Returns the first bytes of all blocks, then the second bytes, and so on.
fn plain_stream(alloc: Global, blocks: &[Vec<u8>]) -> QrResult<Vec<u8>> {
    let mut stream = Vec::new(alloc);
    let longest = blocks.iter().map(|block| block.len()).max().unwrap_or(0);
    for row in 0..longest {
        for block in blocks {
            if let Some(byte) = block.get(row) {
                stream.push(*byte)?;
            }
        }
    }
    Ok(stream)
}

/// Returns the data of each block.
fn plain_blocks(alloc: Global, data: &[u8], layout: &BlockLayout) -> QrResult<Vec<Vec<u8>>> {
    let mut rest = data;
    let mut blocks = Vec::new(alloc);
    for size in &plain_sizes(alloc, layout)? {
        let (block, behind) = rest.split_at((*size).min(rest.len()));
        blocks.push(Vec::from_slice(alloc, block)?)?;
        rest = behind;
    }
    Ok(blocks)
}

/// Returns the correction of each block.
fn plain_codes(alloc: Global, blocks: &[Vec<u8>], count: usize) -> QrResult<Vec<Vec<u8>>> {
    let generator = plain_generator(alloc, count)?;
    let mut codes = Vec::new(alloc);
    for block in blocks {
        codes.push(plain_code(alloc, block, &generator)?)?;
    }
    Ok(codes)
}

/// Returns the two streams of some data: data and correction, interleaved.
fn plain_streams(alloc: Global, data: &[u8], layout: &BlockLayout) -> QrResult<(Vec<u8>, Vec<u8>)> {
    let blocks = plain_blocks(alloc, data, layout)?;
    let codes = plain_codes(alloc, &blocks, usize::from(layout.correction))?;
    Ok((plain_stream(alloc, &blocks)?, plain_stream(alloc, &codes)?))
}

/// A version and a level.
type Pair = (Version, EcLevel);

/// Returns the pairs that have a symbol, or those that have none.
fn pairs(alloc: Global, with_symbol: bool) -> QrResult<Vec<Pair>> {
    let mut pairs = Vec::new(alloc);
    for place in 0..44i16 {
        let version = if place < 40 {
            Version::Normal(place + 1)
        } else {
            Version::Micro(place - 39)
        };
        for level in [EcLevel::L, EcLevel::M, EcLevel::Q, EcLevel::H] {
            if block_layout(version, level).is_some() == with_symbol {
                pairs.push((version, level))?;
            }
        }
    }
    Ok(pairs)
}

/// Returns whether the codewords of a symbol, with data of a fixed sequence, are the plain streams.
fn is_interleaved(alloc: Global, pair: Pair, layout: &BlockLayout) -> QrResult<bool> {
    let data = bytes_of(alloc, layout.data_bytes(), 1)?;
    let counted = construct_codewords(alloc, &data, pair.0, pair.1)?;
    let plain = plain_streams(alloc, &data, layout)?;
    Ok(counted.0.as_slice() == plain.0.as_slice() && counted.1.as_slice() == plain.1.as_slice())
}

#[test]
fn interleaves_each_symbol(rt: HostRuntime) {
    let mut symbols = 0usize;
    for pair in &pairs(rt.alloc(), true).expect(&rt, "no pairs") {
        if let Some(layout) = block_layout(pair.0, pair.1) {
            symbols = symbols.wrapping_add(1);
            assert!(rt;
                is_interleaved(rt.alloc(), *pair, &layout) == Ok(true),
                "{pair:?}"
            );
        }
    }
    assert!(rt; symbols == 168);
}

/// Returns whether data of a length that is not the symbol's fail with the expected error.
fn refuses_length(alloc: Global, pair: Pair, expected: usize, actual: usize) -> bool {
    match bytes_of(alloc, actual, 1) {
        Ok(data) => {
            let refusal = construct_codewords(alloc, &data, pair.0, pair.1).err();
            refusal == Some(QrError::InvalidDataLength { expected, actual })
        }
        Err(_) => false,
    }
}

#[test]
fn refuses_short_and_long_data(rt: HostRuntime) {
    for pair in &pairs(rt.alloc(), true).expect(&rt, "no pairs") {
        if let Some(layout) = block_layout(pair.0, pair.1) {
            let len = layout.data_bytes();
            for actual in [0, len.saturating_sub(1), len.saturating_add(1)] {
                assert!(rt; refuses_length(rt.alloc(), *pair, len, actual), "{pair:?}");
            }
        }
    }
}

/// Returns whether a version and a level that have no symbol are refused.
fn refuses_pair(alloc: Global, pair: Pair) -> bool {
    let refusal = construct_codewords(alloc, &[], pair.0, pair.1).err();
    let (version, ec_level) = pair;
    refusal == Some(QrError::InvalidVersion { version, ec_level })
}

#[test]
fn refuses_pairs_without_symbol(rt: HostRuntime) {
    let lacking = pairs(rt.alloc(), false).expect(&rt, "no pairs");
    assert!(rt; lacking.len() == 8);
    for pair in &lacking {
        assert!(rt; refuses_pair(rt.alloc(), *pair), "{pair:?}");
    }
}
