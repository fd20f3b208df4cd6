//! Symbols by the layers below `Symbol`, one after the other, as a facade of one's own calls them.
ghost use Rattle.qrcode_base.specs.Symbols.{IsSymbol};

use crate::digest::Digest;
use crate::random::Random;
use crate::{dense, words};
use qrcode_core::bits::Bits;
use qrcode_core::canvas::Canvas;
use qrcode_core::ec::construct_codewords;
use qrcode_core::types::{EcLevel, QrResult, Version};
use std::alloc::{AllocError, Global};

/// Draws this many symbols, each of another input.
pub fn run(alloc: Global, count: u64, mut random: Random) -> Result<Digest, AllocError> {
    let mut digest = Digest::new();
    for n in 0..count {
        let bytes = content(alloc, &mut random, n % 8)?;
        let outcome = match n % 8 {
            0 => drawn(alloc, &mut digest, &bytes, Version::Normal(2), EcLevel::M),
            1 => drawn(alloc, &mut digest, &bytes, Version::Normal(4), EcLevel::M),
            2 | 3 => drawn(alloc, &mut digest, &bytes, Version::Normal(7), EcLevel::M),
            4 => drawn(alloc, &mut digest, &bytes, Version::Normal(10), EcLevel::M),
            5 => drawn(alloc, &mut digest, &bytes, Version::Normal(15), EcLevel::M),
            6 => drawn(alloc, &mut digest, &bytes, Version::Normal(25), EcLevel::M),
            _ => drawn(alloc, &mut digest, &bytes, Version::Normal(40), EcLevel::M),
        };
        if let Err(error) = outcome {
            digest.error(&error);
        }
    }
    Ok(digest)
}

/// Returns an input of one of eight kinds.
fn content(alloc: Global, random: &mut Random, kind: u64) -> Result<Vec<u8>, AllocError> {
    let some = random.below(20);
    match kind {
        0 => words::sentence(alloc, random, 15 + some / 4),
        1 => words::link(alloc, random, 25 + some),
        2 => dense::mixed(alloc, random, 70 + some),
        3 => words::sentence(alloc, random, 90 + some),
        4 => words::link(alloc, random, 120 + some),
        5 => dense::json(alloc, random, 250 + some),
        6 => dense::mixed(alloc, random, 700 + some),
        _ => words::sentence(alloc, random, 1900 + some),
    }
}

/// Draws bytes in a version, layer by layer, and digests what comes of it.
fn drawn(
    alloc: Global,
    digest: &mut Digest,
    bytes: &[u8],
    version: Version,
    level: EcLevel,
) -> QrResult<()>
    requires { IsSymbol version level }
{
    let mut bits = Bits::new(alloc, version);
    bits.push_optimal_data(bytes)?;
    bits.push_terminator(level)?;
    let codewords = bits.into_bytes();
    let (interleaved, correction) = construct_codewords(alloc, &codewords, version, level)?;
    let mut canvas = Canvas::new(alloc, version, level)?;
    canvas.draw_all_functional_patterns();
    canvas.draw_data(&interleaved, &correction);
    let (masked, mask, score) = canvas.apply_best_mask_with_score(alloc)?;
    digest.version(version);
    digest.number(mask as u64);
    digest.number(u64::from(score));
    digest.colors(&masked.into_colors(alloc)?);
    Ok(())
}
