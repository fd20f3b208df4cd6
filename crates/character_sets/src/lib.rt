//! What bytes mean as characters by the ECI designators of a QR code, and what texts its data are
//! read as (ISO/IEC 18004:2006, "Extended Channel Interpretation (ECI) mode").
//!
//! The characters of JIS X 0208, which the Kanji mode writes as numbers, are in `kanji`.
#![tactic(auto)]

ghost use Rattle.std.specs.Prelude.{◌≡◌, ◌<◌, ◌≤◌, ◌+◌, ℕ, IfSome, Some, get_or, true};
ghost use Rattle.character_sets.specs.Kanji.{character_in};
ghost use Rattle.character_sets.specs.Bytes.{ascii_character, character_of_byte, is_part};
ghost use Rattle.character_sets.specs.Bytes.{part_character, shift_jis_character};
ghost use Rattle.character_sets.specs.Bytes.{HaveOneByte, IsPartByte};
ghost use Rattle.character_sets.specs.Reading.{pair_character, EachTextIsRead, DataHaveOneText};
ghost use Rattle.character_sets.specs.Reading.{ReadsExamples};
ghost use Rattle.character_sets.specs.ByteSearch.{byte_in, byte_candidate_of};

mod byte_codes;
mod byte_places;
mod iso8859;
pub mod kanji;
mod kanji_numbers;
mod kanji_places;
mod kanji_table;

use byte_codes::CODES;
use byte_places::PLACES;
use iso8859::PARTS;
pub use kanji::{char_of, kanji_of, shift_jis_of};

/// Returns whether a designator names a part of ISO/IEC 8859 that every reader knows: 3 to 11, 13,
/// 15, 17 and 18.
pub fn is_part(designator: u32) -> bool
    ensures { result ≡ is_part designator }
{
    matches!(designator, 3..=11 | 13 | 15 | 17..=18)
}

/// Returns the character of a single byte by the designator in force, if the byte has one.
#[tactic(auto, unfolding(crate::specs::Bytes::character_of_byte))]
pub fn char_of_byte(byte: u8, designator: Option<u32>) -> Option<char>
    ensures { result ≡ character_of_byte designator byte }
{
    match designator {
        None => ascii_char(byte),
        Some(number) if is_part(number) => part_char(byte, number),
        Some(20) => shift_jis_char(byte),
        Some(26) => ascii_char(byte),
        Some(_) => None,
    }
}

/// Returns the single byte of a character by the designator in force, if it has one.
#[tactic(auto, using(crate::proofs::ByteTable::is_candidate))]
pub fn byte_of(c: char, designator: Option<u32>) -> Option<u8>
    ensures right { IfSome result (λ byte. character_of_byte designator byte ≡ Some c) }
    ensures found { (byte : ℕ) → character_of_byte designator byte ≡ Some c
        → result ≡ Some byte }
{
    let byte = candidate(c as u32, designator);
    if char_of_byte(byte, designator) == Some(c) {
        Some(byte)
    } else {
        None
    }
}

/// Returns the bytes of a character by the designators from 3 to 18, that of designator 3 first:
/// its byte in a part of ISO/IEC 8859, or 0 if it has none there; the character is not ASCII.
pub fn part_bytes(c: char) -> [u8; 16]
    requires { 0x80 ≤ c }
    ensures { (column : ℕ) → column < 16 →
        IsPartByte (column + 3) c (get_or result column 0) }
{
    if c >= '\u{2400}' {
        return [0; 16];
    }
    let mut bytes = [0; 16];
    for column in 0..16 {
        bytes[column] = part_byte(c, column as u32 + 3);
    }
    bytes
}

/// Returns the byte of a character in a part of ISO/IEC 8859, or 0 if it has none there.
fn part_byte(c: char, designator: u32) -> u8
    requires beyond { 0x80 ≤ c }
    requires from { 3 ≤ designator }
    requires to { designator ≤ 18 }
    ensures { IsPartByte designator c result }
{
    let byte = byte_in(&PLACES, &CODES, c as u32, designator);
    if byte < 0xa0 {
        return 0;
    }
    let column = (designator - 3) as usize;
    if char_in(&PARTS, 96 * column + usize::from(byte - 0xa0)) == Some(c) {
        byte
    } else {
        0
    }
}

/// Returns the two bytes in Shift JIS that are a character in the Kanji mode, if there are any.
pub fn pair_of(c: char) -> Option<(u8, u8)>
    ensures right { IfSome result (λ pair. pair_character pair.0 pair.1 ≡ Some c) }
    ensures found { (lead trail : ℕ) → pair_character lead trail ≡ Some c
        → result ≡ Some (lead, trail) }
{
    let kanji = kanji_of(c)?;
    Some(shift_jis_of(kanji))
}

/// No character has two bytes by one designator.
#[tactic(auto, using(crate::proofs::ByteTable::one_byte))]
pub fn have_one_byte()
    ensures { HaveOneByte }
{}

/// No data of a symbol are read as two texts.
#[tactic(auto, using(crate::proofs::Reading::one_text))]
pub fn have_one_text()
    ensures { DataHaveOneText }
{}

/// Each text can be written: in UTF-8 after its designator.
#[tactic(auto, using(crate::proofs::Reading::each_text))]
pub fn each_text_is_read()
    ensures { EachTextIsRead }
{}

/// The texts of some data: each mode and kind of designator, and what no reader takes for a text.
#[tactic(auto, using(crate::proofs::Reading::examples))]
pub fn reads_examples()
    ensures { ReadsExamples }
{}

/// Returns the ASCII character of a byte.
fn ascii_char(byte: u8) -> Option<char>
    ensures { result ≡ ascii_character byte }
{
    if byte < 0x80 {
        Some(char::from(byte))
    } else {
        None
    }
}

/// Returns the character of a byte in a part of ISO/IEC 8859.
#[tactic(auto, unfolding(crate::specs::Bytes::part_character))]
fn part_char(byte: u8, designator: u32) -> Option<char>
    requires { is_part designator ≡ true }
    ensures { result ≡ part_character designator byte }
{
    if byte < 0xa0 {
        ascii_char(byte)
    } else {
        let at = 96 * (designator - 3) as usize + usize::from(byte - 0xa0);
        char_in(&PARTS, at)
    }
}

/// Returns the character at a place of a table, in which a space stands where there is none.
#[tactic(auto, unfolding(crate::specs::Kanji::character_in))]
fn char_in(table: &[char], at: usize) -> Option<char>
    ensures { result ≡ character_in table.now at }
{
    let c = *table.get(at)?;
    if c == ' ' { None } else { Some(c) }
}

/// Returns the character of a single byte in Shift JIS.
fn shift_jis_char(byte: u8) -> Option<char>
    ensures { result ≡ shift_jis_character byte }
{
    if 0xa1 <= byte && byte <= 0xdf {
        char::from_u32(0xff61 + u32::from(byte - 0xa1))
    } else if byte == 0x5c || byte == 0x7e {
        None
    } else {
        ascii_char(byte)
    }
}

/// Returns the only byte that a code point may have by the designator in force.
#[tactic(auto, unfolding(crate::specs::ByteSearch::byte_candidate_of))]
fn candidate(c: u32, designator: Option<u32>) -> u8
    ensures { result ≡ byte_candidate_of designator c }
{
    match designator {
        None => (c % 256) as u8,
        Some(_) if c < 0x80 => c as u8,
        Some(20) => (c.saturating_sub(0xfec0) % 256) as u8,
        Some(number) => byte_in(&PLACES, &CODES, c, number),
    }
}

/// Returns the byte of a code point in a part, or 0 if there is none.
fn byte_in(places: &[u16], codes: &[u8], c: u32, designator: u32) -> u8
    ensures { result ≡ byte_in places.now codes.now designator c }
{
    let place = places.get((c / 16) as usize).copied().unwrap_or(0);
    let at = usize::from(place) + (c % 16) as usize;
    let column = designator.saturating_sub(3) as usize;
    codes.get(16 * at + column).copied().unwrap_or(0)
}
