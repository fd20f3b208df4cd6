//! Dense symbols: passes, certificates, vouchers, and inputs of many short runs.
use crate::digest::Digest;
use crate::random::Random;
use crate::words;
use qrcode_core::symbol::Symbol;
use qrcode_core::types::EcLevel;
use std::alloc::{AllocError, Global};

/// Draws this many symbols, each of another input.
pub fn run(alloc: Global, count: u64, mut random: Random) -> Result<Digest, AllocError> {
    let mut digest = Digest::new();
    for n in 0..count {
        let level = if n / 9 % 2 == 0 {
            EcLevel::L
        } else {
            EcLevel::M
        };
        let bytes = content(alloc, &mut random, n % 9)?;
        let result = Symbol::new(alloc, &bytes, level);
        digest.symbol(&result);
    }
    Ok(digest)
}

/// Returns an input of one of nine kinds.
pub fn content(alloc: Global, random: &mut Random, kind: u64) -> Result<Vec<u8>, AllocError> {
    let length = 500 + random.below(1800);
    match kind {
        0 => words::characters(alloc, random, &words::BASE45, length * 3 / 2),
        1 => json(alloc, random, length),
        2 => bytes(alloc, random, length),
        3 => words::characters(alloc, random, &words::DIGITS, 7089 - length / 2),
        4 => kanji(alloc, random, length / 2),
        5 => mixed(alloc, random, length),
        6 => turns(alloc, random, length * 3 / 4),
        7 => words::sentence(alloc, random, length),
        _ => leads(alloc, random, length / 2),
    }
}

/// Returns a list of records with words and numbers.
pub fn json(alloc: Global, random: &mut Random, length: usize) -> Result<Vec<u8>, AllocError> {
    let mut text = Vec::new(alloc);
    text.push(b'[')?;
    for n in 0..length / 36 + 1 {
        text.extend_from_slice(b"{\"id\":")?;
        random.push(&mut text, &words::DIGITS, 7)?;
        text.extend_from_slice(b",\"n\":\"")?;
        random.push(&mut text, &words::LETTERS, 9)?;
        text.extend_from_slice(b"\",\"p\":")?;
        random.push(&mut text, &words::DIGITS, 3)?;
        text.extend_from_slice(b"},")?;
    }
    text.push(b']')?;
    Ok(text)
}

/// Returns random bytes, as of compressed data.
fn bytes(alloc: Global, random: &mut Random, length: usize) -> Result<Vec<u8>, AllocError> {
    let mut bytes = Vec::new(alloc);
    for n in 0..length {
        bytes.push(random.below(256) as u8)?;
    }
    Ok(bytes)
}

/// Returns pairs of Shift JIS.
fn kanji(alloc: Global, random: &mut Random, count: usize) -> Result<Vec<u8>, AllocError> {
    let mut bytes = Vec::new(alloc);
    for n in 0..count {
        bytes.push(0x88 + random.below(16) as u8)?;
        bytes.push(0x9f + random.below(94) as u8)?;
    }
    Ok(bytes)
}

/// Returns runs of 1 to 12 digits, capitals or small letters.
pub fn mixed(alloc: Global, random: &mut Random, length: usize) -> Result<Vec<u8>, AllocError> {
    let mut bytes = Vec::new(alloc);
    for n in 0..length / 6 {
        let count = 1 + random.below(12);
        match random.below(3) {
            0 => random.push(&mut bytes, &words::DIGITS, count)?,
            1 => random.push(&mut bytes, &words::CODE, count)?,
            _ => random.push(&mut bytes, &words::LETTERS, count)?,
        }
    }
    Ok(bytes)
}

/// Returns capitals and digits by turns, and a small letter at times.
pub fn turns(alloc: Global, random: &mut Random, length: usize) -> Result<Vec<u8>, AllocError> {
    let mut bytes = Vec::new(alloc);
    for n in 0..length / 2 {
        if random.below(64) == 0 {
            random.push(&mut bytes, &words::LETTERS, 1)?;
        }
        bytes.push(b'A' + random.below(26) as u8)?;
        random.push(&mut bytes, &words::DIGITS, 1)?;
    }
    Ok(bytes)
}

/// Returns first bytes of Kanji pairs, each before a byte that makes no pair with it.
fn leads(alloc: Global, random: &mut Random, count: usize) -> Result<Vec<u8>, AllocError> {
    let mut bytes = Vec::new(alloc);
    for n in 0..count {
        bytes.push(0x81 + random.below(24) as u8)?;
        random.push(&mut bytes, &words::DIGITS, 1)?;
    }
    Ok(bytes)
}
