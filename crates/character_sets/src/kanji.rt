//! The characters of JIS X 0208, as the Kanji mode of a QR code writes them
//! (ISO/IEC 18004:2006, "Kanji mode").
//!
//! A character is a number of 13 bits there, which comes from its two bytes in Shift JIS. The
//! characters are those on which the tables of all vendors agree.
ghost use Rattle.std.specs.Prelude.{◌≡◌, ℕ, IfSome, IsSome, Some, true};
ghost use Rattle.character_sets.specs.Kanji.{character_in, character_of, is_shift_jis_pair};
ghost use Rattle.character_sets.specs.Kanji.{pair_number, HaveOneNumber};
ghost use Rattle.character_sets.specs.KanjiSearch.{candidate_of, number_in};

use crate::kanji_numbers::NUMBERS;
use crate::kanji_places::PLACES;
use crate::kanji_table::CHARACTERS;

/// Returns the character with a number of the Kanji mode, or `None` if there is none.
#[tactic(auto, unfolding(crate::specs::Kanji::character_of))]
pub fn char_of(kanji: u16) -> Option<char>
    ensures { result ≡ character_of kanji }
{
    character_in(&CHARACTERS, kanji)
}

/// Returns the number of a character in the Kanji mode, or `None` if it has none.
#[tactic(auto, using(crate::proofs::KanjiTable::is_candidate))]
pub fn kanji_of(c: char) -> Option<u16>
    ensures right { IfSome result (λ kanji. character_of kanji ≡ Some c) }
    ensures found { (kanji : ℕ) → character_of kanji ≡ Some c → result ≡ Some kanji }
{
    let kanji = candidate(c);
    if char_of(kanji) == Some(c) {
        Some(kanji)
    } else {
        None
    }
}

/// Returns the two bytes in Shift JIS of the character with a number of the Kanji mode.
pub fn shift_jis_of(kanji: u16) -> (u8, u8)
    requires { IsSome (character_of kanji) }
    ensures pair { is_shift_jis_pair result.0 result.1 ≡ true }
    ensures number { pair_number result.0 result.1 ≡ kanji }
{
    let row = kanji / 0xc0;
    let lead = if row < 31 { 0x81 + row } else { 0xc1 + row };
    (lead as u8, 0x40 + (kanji % 0xc0) as u8)
}

/// No character has two numbers.
#[tactic(auto, using(crate::proofs::KanjiTable::one_number))]
pub fn have_one_number()
    ensures { HaveOneNumber }
{}

/// Returns the only number that a code point may have.
#[tactic(auto, unfolding(crate::specs::KanjiSearch::candidate_of))]
fn candidate(c: char) -> u16
    ensures { result ≡ candidate_of c }
{
    number_in(&PLACES, &NUMBERS, c as u32)
}

/// Returns the character at a place of a table, in which a space stands where there is none.
#[tactic(auto, unfolding(crate::specs::Kanji::character_in))]
fn character_in(table: &[char], number: u16) -> Option<char>
    ensures { result ≡ character_in table.now number }
{
    let c = *table.get(usize::from(number))?;
    if c == ' ' { None } else { Some(c) }
}

/// Returns the number at the place of a code point, or 0 if there is none.
fn number_in(places: &[u16], numbers: &[u16], c: u32) -> u16
    ensures { result ≡ number_in places.now numbers.now c }
{
    let place = places.get((c / 16) as usize).copied().unwrap_or(0);
    let at = usize::from(place) + (c % 16) as usize;
    numbers.get(at).copied().unwrap_or(0)
}
