//! Documents over several symbols, with as few cuts as can be.
use crate::digest::Digest;
use crate::random::Random;
use crate::{dense, words};
use qrcode_core::symbol::{Symbol, best_cuts, best_text_cuts};
use qrcode_core::types::EcLevel;
use std::alloc::{AllocError, Global};

/// Cuts and draws this many documents, each another one.
pub fn run(alloc: Global, count: u64, mut random: Random) -> Result<Digest, AllocError> {
    let mut digest = Digest::new();
    for n in 0..count {
        let some = random.below(1000);
        match n % 12 {
            0 => {
                let text = words::japanese(alloc, &mut random, 4000 + some)?;
                of_text(alloc, &mut digest, text.as_str(), 40)?;
            }
            1 => {
                let text = words::german(alloc, &mut random, 1800 + some / 2)?;
                of_text(alloc, &mut digest, text.as_str(), 10)?;
            }
            kind => {
                let (bytes, max_version) = document(alloc, &mut random, kind)?;
                of_bytes(alloc, &mut digest, &bytes, max_version)?;
            }
        }
    }
    Ok(digest)
}

/// Returns a document of one of ten kinds, with the greatest version of its symbols.
fn document(alloc: Global, random: &mut Random, kind: u64) -> Result<(Vec<u8>, i16), AllocError> {
    let some = random.below(1000);
    Ok(match kind {
        2 => (words::sentence(alloc, random, 29_000 + some)?, 40),
        3 => (words::sentence(alloc, random, 8_000 + some)?, 20),
        4 => (words::sentence(alloc, random, 2_500 + some / 8)?, 10),
        5 => (dense::json(alloc, random, 20_000 + some)?, 40),
        6 => (dense::json(alloc, random, 6_000 + some)?, 20),
        7 => (
            words::characters(alloc, random, &words::DIGITS, 58_000 + some)?,
            40,
        ),
        8 => (
            words::characters(alloc, random, &words::BASE45, 20_000 + some)?,
            40,
        ),
        9 => (dense::mixed(alloc, random, 9_000 + some)?, 20),
        10 => (dense::turns(alloc, random, 19_000 + some)?, 40),
        _ => (long(alloc, random)?, 40),
    })
}

/// Returns a text of two million bytes, which no sequence holds.
fn long(alloc: Global, random: &mut Random) -> Result<Vec<u8>, AllocError> {
    let page = words::sentence(alloc, random, 4_000)?;
    let mut bytes = Vec::with_capacity(alloc, 2_000_000)?;
    for n in 0..500 {
        bytes.extend_from_slice(&page)?;
    }
    Ok(bytes)
}

/// Cuts bytes and draws their symbols, and digests both.
fn of_bytes(
    alloc: Global,
    digest: &mut Digest,
    bytes: &[u8],
    max_version: i16,
) -> Result<(), AllocError> {
    let level = EcLevel::M;
    match best_cuts(alloc, bytes, level, max_version) {
        Ok(cuts) => {
            push_cuts(digest, &cuts);
            match Symbol::sequence(alloc, bytes, &cuts, level, max_version) {
                Ok(symbols) => push_symbols(digest, symbols),
                Err(error) => digest.error(&error),
            }
        }
        Err(error) => digest.error(&error),
    }
    Ok(())
}

/// Cuts a text and draws its symbols, and digests both.
fn of_text(
    alloc: Global,
    digest: &mut Digest,
    text: &str,
    max_version: i16,
) -> Result<(), AllocError> {
    let level = EcLevel::M;
    match best_text_cuts(alloc, text, level, max_version) {
        Ok(cuts) => {
            push_cuts(digest, &cuts);
            match Symbol::text_sequence(alloc, text, &cuts, level, max_version) {
                Ok(symbols) => push_symbols(digest, symbols),
                Err(error) => digest.error(&error),
            }
        }
        Err(error) => digest.error(&error),
    }
    Ok(())
}

/// Digests cuts.
fn push_cuts(digest: &mut Digest, cuts: &[usize]) {
    for cut in cuts {
        digest.number(*cut as u64);
    }
}

/// Digests symbols.
fn push_symbols(digest: &mut Digest, symbols: Vec<Symbol>) {
    for symbol in symbols {
        digest.symbol(&Ok(symbol));
    }
}
