//! The bits of characters: ISO/IEC 18004:2006, "Numeric mode", "Alphanumeric mode", "Byte mode" and
//! "Kanji mode".
//!
//! `push_text` calls `push_digits`, `push_letters`, `push_bytes` or `push_kanji` after it has
//! pushed the header of a segment and made room for all of its characters.

ghost use Rattle.std.specs.Prelude.{◌≡◌, ◌^◌, ◌<◌, ◌≤◌, length, All, Contains};
ghost use Rattle.std.specs.Prelude.{true};
ghost use Rattle.qrcode_base.specs.Characters.{IsDigit, digit as digit_of, alphabet};
ghost use Rattle.qrcode_base.specs.Characters.{alphanumeric_value as alphanumeric_value_of, is_kanji_pair};
ghost use Rattle.qrcode_base.specs.Characters.{IsKanjiText, kanji_number as kanji_number_of};
ghost use Rattle.qrcode_base.specs.Numbers.{number_bits, byte_bits};
ghost use Rattle.qrcode_base.specs.declared.types.Mode.TheVariants.{Numeric, Alphanumeric, Kanji};
ghost use Rattle.qrcode_bits.specs.Spelling.{character_bits};
ghost use Rattle.qrcode_bits.specs.Stream.{Appends};

use super::Bits;
use qrcode_base::characters::alphanumeric_place;

impl Bits {
    /// Appends digits, for which there is room, twelve at a time: these are five bytes.
    #[tactic(auto, using(crate::proofs::Segments::bit_lengths))]
    pub(super) fn push_digits(&mut self, digits: &[u8])
        requires digits { All IsDigit digits.now }
        requires room { length (character_bits Numeric digits.now) ≤ self.old.room }
        ensures { Appends self.old self.new (character_bits Numeric digits.now) }
    {
        let mut rest = digits;
        while rest.len() >= 12 {
            let (twelve, later) = rest.split_at(12);
            self.push_number(40, twelve_digits(twelve));
            rest = later;
        }
        self.push_last_digits(rest);
    }

    /// Appends digits in threes, and then the one or two that are left.
    #[tactic(auto, using(crate::proofs::Segments::bit_lengths, crate::proofs::Digits::last_digits))]
    fn push_last_digits(&mut self, digits: &[u8])
        requires digits { All IsDigit digits.now }
        requires room { length (character_bits Numeric digits.now) ≤ self.old.room }
        ensures { Appends self.old self.new (character_bits Numeric digits.now) }
    {
        let mut rest = digits;
        while rest.len() >= 3 {
            let (three, later) = rest.split_at(3);
            self.push_number(10, three_digits(three));
            rest = later;
        }
        if rest.len() == 2 {
            self.push_number(7, 10 * digit(rest[0]) + digit(rest[1]));
        } else if rest.len() == 1 {
            self.push_number(4, digit(rest[0]));
        }
    }

    /// Appends characters of the Alphanumeric mode in pairs, and then the one that is left.
    #[tactic(auto, using(crate::proofs::Segments::bit_lengths, crate::proofs::Pairs::last_letters))]
    pub(super) fn push_letters(&mut self, text: &[u8])
        requires characters { All (λ c. Contains alphabet c) text.now }
        requires room { length (character_bits Alphanumeric text.now) ≤ self.old.room }
        ensures { Appends self.old self.new (character_bits Alphanumeric text.now) }
    {
        let mut rest = text;
        while let [first, second, tail @ ..] = rest {
            let number = 45 * alphanumeric_value(*first) + alphanumeric_value(*second);
            self.push_number(11, number);
            rest = tail;
        }
        if rest.len() == 1 {
            self.push_number(6, alphanumeric_value(rest[0]));
        }
    }

    /// Appends bytes, for which there is room, each shifted by the number of bits in the incomplete
    /// last byte.
    pub(super) fn push_bytes(&mut self, text: &[u8])
        requires { length (byte_bits text.now) ≤ self.old.room }
        ensures { Appends self.old self.new (byte_bits text.now) }
    {
        let Some(last) = text.last() else {
            return;
        };
        let start = self.bytes.len();
        let _ = self.bytes.extend_from_slice(text);
        let (used, before) = (self.used, self.partial);
        let into = &mut self.bytes[start..];
        let first = u16::from(before) * 256 + u16::from(text[0]);
        into[0] = ((first >> used) & 0xff) as u8;
        for i in 1..text.len() {
            let wide = u16::from(text[i - 1]) * 256 + u16::from(text[i]);
            into[i] = ((wide >> used) & 0xff) as u8;
        }
        self.partial = *last & ((1 << used) - 1);
    }

    /// Appends double-byte Shift JIS characters, for which there is room.
    #[tactic(auto, using(crate::proofs::Segments::bit_lengths, crate::proofs::Pairs::last_kanji))]
    pub(super) fn push_kanji(&mut self, text: &[u8])
        requires characters { IsKanjiText text.now }
        requires room { length (character_bits Kanji text.now) ≤ self.old.room }
        ensures { Appends self.old self.new (character_bits Kanji text.now) }
    {
        let mut rest = text;
        while let [lead, trail, tail @ ..] = rest {
            self.push_number(13, kanji_number(*lead, *trail));
            rest = tail;
        }
    }
}

/// Returns the value of an ASCII digit; the code of 0 is 48.
fn digit(c: u8) -> u64
    requires { IsDigit c }
    ensures value { result ≡ digit_of c }
    ensures small { result < 10 }
{
    u64::from(c) - 48
}

/// Returns the number that three digits form.
#[tactic(auto, using(crate::proofs::Digits::numeric_three))]
fn three_digits(digits: &[u8]) -> u64
    requires three { length digits.now ≡ 3 }
    requires digits { All IsDigit digits.now }
    ensures bits { number_bits 10 result ≡ character_bits Numeric digits.now }
    ensures small { result < 2 ^ 10 }
{
    100 * digit(digits[0]) + 10 * digit(digits[1]) + digit(digits[2])
}

/// Returns the 10-bit numbers of four groups of three digits, concatenated.
fn twelve_digits(digits: &[u8]) -> u64
    requires twelve { length digits.now ≡ 12 }
    requires digits { All IsDigit digits.now }
    ensures bits { number_bits 40 result ≡ character_bits Numeric digits.now }
    ensures small { result < 2 ^ 40 }
{
    let (first, later) = digits.split_at(3);
    let (second, rest) = later.split_at(3);
    let (third, fourth) = rest.split_at(3);
    let high = three_digits(first) * 1024 + three_digits(second);
    let low = three_digits(third) * 1024 + three_digits(fourth);
    high * 0x10_0000 + low
}

/// Returns the value of a character of the Alphanumeric mode.
fn alphanumeric_value(c: u8) -> u64
    requires { Contains alphabet c }
    ensures value { result ≡ alphanumeric_value_of c }
    ensures small { result < 45 }
{
    match alphanumeric_place(c) {
        Some(value) => value as u64,
        None => 0,
    }
}

/// Returns the 13-bit number of a double-byte character of the Kanji mode.
fn kanji_number(lead: u8, trail: u8) -> u64
    requires { is_kanji_pair lead trail ≡ true }
    ensures value { result ≡ kanji_number_of lead trail }
    ensures small { result < 8192 }
{
    let code = u64::from(lead) * 256 + u64::from(trail);
    let offset = if code < 0xe040 {
        code - 0x8140
    } else {
        code - 0xc140
    };
    offset / 256 * 0xc0 + offset % 256
}
