//! Symbols by a call, as a server makes them: some with options or within limits, and some refused.
use crate::digest::Digest;
use crate::random::Random;
use crate::words;
use qrcode_core::limits::ResourceLimits;
use qrcode_core::options::SymbolOptions;
use qrcode_core::symbol::Symbol;
use qrcode_core::types::{EcLevel, QrResult, Version};
use std::alloc::{AllocError, Global};

/// Draws this many symbols, each of another input.
pub fn run(alloc: Global, count: u64, mut random: Random) -> Result<Digest, AllocError> {
    let mut digest = Digest::new();
    for n in 0..count {
        let length = 5 + random.below(196);
        let result = if n % 2 == 0 {
            plain(alloc, &mut random, n / 2 % 4, length)?
        } else {
            limited(alloc, &mut random, n / 2 % 4, length)?
        };
        digest.symbol(&result);
    }
    Ok(digest)
}

/// Returns the symbol of a usual call.
fn plain(
    alloc: Global,
    random: &mut Random,
    kind: u64,
    length: usize,
) -> Result<QrResult<Symbol>, AllocError> {
    Ok(match kind {
        0 => Symbol::new(alloc, &words::sentence(alloc, random, length)?, EcLevel::L),
        1 => Symbol::text(
            alloc,
            words::german(alloc, random, length)?.as_str(),
            EcLevel::M,
        ),
        2 => {
            let elements = words::characters(alloc, random, &words::SERIAL, length)?;
            Symbol::elements(alloc, &elements, EcLevel::Q)
        }
        _ => {
            let bytes = words::characters(alloc, random, &words::DIGITS, 5 + length % 30)?;
            Symbol::micro(alloc, &bytes, EcLevel::L)
        }
    })
}

/// Returns the symbol of a call with options or limits. The last one is too long by one byte.
fn limited(
    alloc: Global,
    random: &mut Random,
    kind: u64,
    length: usize,
) -> Result<QrResult<Symbol>, AllocError> {
    let strongest = SymbolOptions::new(EcLevel::L).with_strongest();
    Ok(match kind {
        0 => Symbol::bytes_with(alloc, &words::link(alloc, random, length / 3)?, &strongest),
        1 => {
            let options = strongest.with_min_version(5);
            let text = words::japanese(alloc, random, length / 3)?;
            Symbol::text_with(alloc, text.as_str(), &options)
        }
        2 => {
            let limits = ResourceLimits::new(300, Version::Normal(20), (1000, 1000));
            let bytes = words::sentence(alloc, random, length)?;
            Symbol::with_limits(alloc, &bytes, EcLevel::H, &limits)
        }
        _ => {
            let limits = ResourceLimits::new(300, Version::Normal(10), (1000, 1000));
            let bytes = words::sentence(alloc, random, 214)?;
            Symbol::with_limits(alloc, &bytes, EcLevel::M, &limits)
        }
    })
}
