//! What is so of a character, wherever it stands.

ghost use Rattle.std.specs.Prelude.{◌≡◌, ◌≢◌, ◌<◌, ◌≤◌, ℕ, All, get_or, IfSome, Some, true, false};
ghost use Rattle.qrcode_base.specs.Characters.{is_alphanumeric};
ghost use Rattle.character_sets.specs.Bytes.{common_character};
ghost use Rattle.character_sets.specs.Reading.{pair_character};
ghost use Rattle.text_plans.specs.Lanes.{IsSize, AreFacts, column_of, single_character};

use crate::lanes::designator_of;
use character_sets::{byte_of, pair_of, part_bytes};
use qrcode_base::characters::is_alphanumeric;

/// Whether a character is a digit, an Alphanumeric character, or a pair of the Kanji mode, and its
/// number of bytes in each lane, 0 if it has none there.
#[derive(Clone, Copy)]
pub struct Facts {
    pub digit: bool,
    pub alphanumeric: bool,
    pub pair: bool,
    pub sizes: [u8; 17],
}

/// Returns the single byte of a character in a lane, if there is one. A character of the lane of
/// UTF-8 has none.
#[tactic(auto, unfolding(crate::specs::Lanes::single_character))]
pub fn single_in(c: char, lane: usize) -> Option<u8>
    requires inside { lane < 17 }
    requires single { lane ≢ 15 }
    ensures right { IfSome result (λ byte. single_character lane byte ≡ Some c) }
    ensures found { (byte : ℕ) → single_character lane byte ≡ Some c → result ≡ Some byte }
{
    if lane == 16 {
        common_byte(c)
    } else {
        byte_of(c, designator_of(lane))
    }
}

/// Returns the byte of a character in ASCII that is the same in JIS X 0201.
fn common_byte(c: char) -> Option<u8>
    ensures right { IfSome result (λ byte. common_character byte ≡ Some c) }
    ensures found { (byte : ℕ) → common_character byte ≡ Some c → result ≡ Some byte }
{
    if c < '\u{80}' && c != '\\' && c != '~' {
        Some(c as u8)
    } else {
        None
    }
}

/// Returns the number of bytes of a character in a lane, 0 if it has none.
fn size_in(c: char, lane: usize) -> u8
    requires { lane < 17 }
    ensures { IsSize lane c result }
{
    if lane == 14 {
        return size_in_shift_jis(c);
    }
    if lane == 15 {
        return c.len_utf8() as u8;
    }
    match single_in(c, lane) {
        Some(_) => 1,
        None => 0,
    }
}

/// Returns the number of bytes of a character in Shift JIS, 0 if it has none.
fn size_in_shift_jis(c: char) -> u8
    ensures { IsSize 14 c result }
{
    match byte_of(c, Some(20)) {
        Some(_) => 1,
        None => match pair_of(c) {
            Some(_) => 2,
            None => 0,
        },
    }
}

/// Returns how far the designator of a part of ISO/IEC 8859 is from 3, by the number of the part's
/// lane less 1.
fn column_of(part: usize) -> usize
    requires { part < 13 }
    ensures { result ≡ column_of part }
{
    match part {
        0..=8 => part,
        9 => 10,
        10 => 12,
        _ => part + 3,
    }
}

/// Returns the number of bytes in each lane of a character that is not ASCII.
fn sizes_beyond_ascii(c: char) -> [u8; 17]
    requires { 128 ≤ c }
    ensures { (lane : ℕ) → lane < 17 → IsSize lane c (get_or result lane 0) }
{
    let bytes = part_bytes(c);
    let mut sizes = [0; 17];
    sizes[14] = size_in_shift_jis(c);
    sizes[15] = c.len_utf8() as u8;
    for part in 0..13 {
        sizes[part + 1] = bytes[column_of(part)].min(1);
    }
    sizes
}

/// Returns the number of bytes of a character in each lane: 1 in all of them if it is ASCII that is
/// the same in JIS X 0201.
fn sizes_of(c: char) -> [u8; 17]
    ensures { (lane : ℕ) → lane < 17 → IsSize lane c (get_or result lane 0) }
{
    if let Some(_) = common_byte(c) {
        return [1; 17];
    }
    if c >= '\u{80}' {
        return sizes_beyond_ascii(c);
    }
    let mut sizes = [0; 17];
    for lane in 0..17 {
        sizes[lane] = size_in(c, lane);
    }
    sizes
}

/// Returns what is so of a character.
pub fn facts_of(c: char) -> Facts
    ensures { AreFacts c result }
{
    Facts {
        digit: '0' <= c && c <= '9',
        alphanumeric: is_sign(c),
        pair: is_pair(c),
        sizes: sizes_of(c),
    }
}

/// Returns whether a character is one of the Alphanumeric mode.
fn is_sign(c: char) -> bool
    ensures { result ≡ is_alphanumeric c }
{
    if c < '\u{80}' {
        is_alphanumeric(c as u8)
    } else {
        false
    }
}

/// Returns whether a character is a pair of the Kanji mode.
fn is_pair(c: char) -> bool
    ensures pair { (lead trail : ℕ) → pair_character lead trail ≡ Some c → result ≡ true }
    ensures paired { result ≡ true → (pair : ℕ × ℕ) × (pair_character pair.0 pair.1 ≡ Some c) }
{
    match pair_of(c) {
        Some(_) => true,
        None => false,
    }
}

/// Returns whether a character of a text is a pair of the Kanji mode.
pub fn has_pair(all: &[Facts]) -> bool
    ensures { result ≡ false → All (λ facts. facts.pair ≡ false) all.now }
{
    for facts in all {
        if facts.pair {
            return true;
        }
    }
    false
}
