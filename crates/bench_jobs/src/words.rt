//! Inputs of real shape, in which nothing but the characters is random.
ghost use Rattle.std.specs.Prelude.{◌<◌, ◌^◌, length};

use crate::random::Random;
use std::alloc::{AllocError, Global};

/// The digits.
pub static DIGITS: [u8; 10] = *b"0123456789";
/// Capital letters and digits, as in a code.
pub static CODE: [u8; 36] = *b"0123456789ABCDEFGHIJKLMNOPQRSTUVWXYZ";
/// The characters of base45.
pub static BASE45: [u8; 45] = *b"0123456789ABCDEFGHIJKLMNOPQRSTUVWXYZ $%*+-./:";
/// Small letters with spaces, as often as in a text.
pub static LETTERS: [u8; 40] = *b"eeeeetttaaaooiinnsshhrrddluwmfcygpbvk   ";
/// The characters of GS1 values that lots and serial numbers have.
pub static SERIAL: [u8; 38] = *b"0123456789ABCDEFGHIJKLMNOPQRSTUVWXYZ-/";
/// Hiragana, Katakana and Kanji.
pub static JAPANESE: [char; 48] = [
    'あ', 'い', 'う', 'え', 'お', 'か', 'き', 'く', 'け', 'こ', 'さ', 'し', 'す', 'せ', 'そ', 'た', 'ア', 'イ', 'ウ',
    'エ', 'オ', 'カ', 'キ', 'ク', 'ケ', 'コ', 'サ', 'シ', 'ス', 'セ', 'ソ', 'タ', '東', '京', '都', '大', '阪', '市',
    '北', '区', '中', '央', '山', '田', '川', '村', '町', '丁',
];
/// Letters as in German names and streets.
pub static GERMAN: [char; 40] = [
    'e', 'e', 'e', 'n', 'n', 'i', 'i', 's', 'r', 'r', 'a', 't', 't', 'd', 'h', 'u', 'l', 'c', 'g',
    'm', 'o', 'b', 'w', 'f', 'k', 'z', 'ä', 'ö', 'ü', 'ß', ' ', ' ', 'S', 'B', 'M', 'K', 'H', 'G',
    'e', 'a',
];

/// Returns a link with a code in capitals, of 23 bytes and the code.
pub fn link(alloc: Global, random: &mut Random, code: usize) -> Result<Vec<u8>, AllocError> {
    let mut bytes = Vec::with_capacity(alloc, 64)?;
    bytes.extend_from_slice(b"https://example.com/qr/")?;
    random.push(&mut bytes, &CODE, code)?;
    Ok(bytes)
}

/// Returns a text of small letters.
pub fn sentence(alloc: Global, random: &mut Random, length: usize) -> Result<Vec<u8>, AllocError> {
    let mut bytes = Vec::new(alloc);
    random.push(&mut bytes, &LETTERS, length)?;
    Ok(bytes)
}

/// Returns bytes of a table.
pub fn characters(
    alloc: Global,
    random: &mut Random,
    table: &[u8],
    count: usize,
) -> Result<Vec<u8>, AllocError>
    requires some { 0 < length table.now }
    requires few { length table.now < 2 ^ 31 }
{
    let mut bytes = Vec::new(alloc);
    random.push(&mut bytes, table, count)?;
    Ok(bytes)
}

/// Returns an address in Japan: characters of three bytes, and a number.
pub fn japanese(alloc: Global, random: &mut Random, length: usize) -> Result<String, AllocError> {
    let mut text = String::new(alloc);
    random.write(&mut text, &JAPANESE, length)?;
    push_number(&mut text, random, 7)?;
    Ok(text)
}

/// Returns an address in Germany.
pub fn german(alloc: Global, random: &mut Random, length: usize) -> Result<String, AllocError> {
    let mut text = String::new(alloc);
    random.write(&mut text, &GERMAN, length)?;
    text.push(' ')?;
    push_number(&mut text, random, 5)?;
    Ok(text)
}

/// Returns what people write of GS1 elements: an article, a date, a lot and a serial number.
pub fn elements(alloc: Global, random: &mut Random, lot: usize) -> Result<String, AllocError> {
    let mut text = String::new(alloc);
    text.push_str("(01)0")?;
    let mut sum = 0;
    for n in 0..12 {
        let digit = random.below(10);
        sum = sum % 10 + digit * if n % 2 == 0 { 1 } else { 3 };
        text.push(digit_of(digit))?;
    }
    text.push(digit_of((10 - sum % 10) % 10))?;
    text.push_str("(17)2812")?;
    text.push(digit_of(random.below(3)))?;
    text.push(digit_of(1 + random.below(9)))?;
    text.push_str("(10)")?;
    for n in 0..lot {
        text.push(char::from(SERIAL[random.below(38)]))?;
    }
    text.push_str("(21)")?;
    push_number(&mut text, random, 9)?;
    Ok(text)
}

/// Appends this many digits.
fn push_number(text: &mut String, random: &mut Random, count: usize) -> Result<(), AllocError> {
    for n in 0..count {
        text.push(digit_of(random.below(10)))?;
    }
    Ok(())
}

/// Returns a digit as a character.
fn digit_of(digit: usize) -> char
    requires { digit < 10 }
{
    char::from(DIGITS[digit])
}
