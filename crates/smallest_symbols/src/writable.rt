//! Which texts a Micro symbol can be read as.
ghost use Rattle.std.specs.Prelude.{◌≡◌, ◌↔◌, IsTrue, Some, chars};
ghost use Rattle.character_sets.specs.Bytes.{common_character};
ghost use Rattle.smallest_symbols.specs.MicroTexts.{IsAsciiCharacter, HasMicroParts};
ghost use Rattle.smallest_symbols.specs.MicroTexts.{IsMixedCharacter};

use character_sets::pair_of;

/// Returns whether a character is one of ASCII.
fn is_ascii_character(c: char) -> bool
    ensures { IsTrue result ↔ IsAsciiCharacter c }
{
    c < '\u{80}'
}

/// Returns whether a character is one of ASCII but `\` and `~`, for which some readers show a yen
/// sign and an overline beside Kanji segments.
#[tactic(auto, using(crate::proofs::MicroTexts::common_from_test))]
fn is_common(c: char) -> bool
    ensures { IsTrue result ↔ (common_character c ≡ Some c) }
{
    c < '\u{80}' && c != '\\' && c != '~'
}

/// Returns whether a character is read beside Kanji segments.
fn is_mixed_character(c: char) -> bool
    ensures { IsTrue result ↔ IsMixedCharacter c }
{
    is_common(c) || pair_of(c).is_some()
}

/// Returns whether a Micro symbol can be read as a text: whether all its characters are ASCII, or
/// all are read beside Kanji segments.
pub fn is_micro_text(text: &str) -> bool
    ensures { IsTrue result ↔ HasMicroParts (chars text.now) }
{
    let mut ascii = true;
    let mut mixed = true;
    for c in text.chars() {
        ascii &= is_ascii_character(c);
        mixed &= is_mixed_character(c);
    }
    ascii | mixed
}
