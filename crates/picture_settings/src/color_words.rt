//! Colours as words: `#rrggbb`, or a name of CSS.
ghost use Rattle.std.specs.Prelude.{◌≡◌, ◌<◌, IfSome, Some};
ghost use Rattle.picture_settings.specs.ColorWords.{digits_color, ground_word, byte_of_digits};
ghost use Rattle.picture_settings.specs.ColorWords.{hex_value, named_color, word_color};

use crate::colors::{Ground, Rgb};

impl Rgb {
    /// Returns the colour of a word: `#rrggbb` with two hexadecimal digits for each of red, green
    /// and blue, or one of the sixteen names of CSS, in small letters (W3C, "CSS Color Module Level
    /// 3", 4.1 and 4.2.1). Returns `None` for another word.
    pub fn of_word(word: &str) -> Option<Rgb>
        ensures { result ≡ word_color word.now }
    {
        match named_color(word) {
            Some(color) => Some(color),
            None => digits_color(word.as_bytes()),
        }
    }
}

impl Ground {
    /// Returns the ground of a word: `transparent`, or a colour as `Rgb::of_word` has it. Returns
    /// `None` for another word.
    pub fn of_word(word: &str) -> Option<Ground>
        ensures { result ≡ ground_word word.now }
    {
        if word == "transparent" {
            return Some(Ground::Transparent);
        }
        match Rgb::of_word(word) {
            Some(color) => Some(Ground::Color(color)),
            None => None,
        }
    }
}

/// Returns a colour by its parts.
fn rgb(red: u8, green: u8, blue: u8) -> Option<Rgb>
    ensures { result ≡ Some (record { red = red; green = green; blue = blue }) }
{
    Some(Rgb { red, green, blue })
}

/// Returns the colour of a name.
fn named_color(word: &str) -> Option<Rgb>
    ensures { result ≡ named_color word.now }
{
    match word {
        "black" => rgb(0, 0, 0),
        "silver" => rgb(192, 192, 192),
        "gray" => rgb(128, 128, 128),
        "white" => rgb(255, 255, 255),
        "maroon" => rgb(128, 0, 0),
        "red" => rgb(255, 0, 0),
        "purple" => rgb(128, 0, 128),
        "fuchsia" => rgb(255, 0, 255),
        "green" => rgb(0, 128, 0),
        "lime" => rgb(0, 255, 0),
        "olive" => rgb(128, 128, 0),
        "yellow" => rgb(255, 255, 0),
        "navy" => rgb(0, 0, 128),
        "blue" => rgb(0, 0, 255),
        "teal" => rgb(0, 128, 128),
        "aqua" => rgb(0, 255, 255),
        _ => None,
    }
}

/// Returns the colour of a number sign and six digits.
fn digits_color(word: &[u8]) -> Option<Rgb>
    ensures { result ≡ digits_color word.now }
{
    if word.len() != 7 || word[0] != b'#' {
        return None;
    }
    let red = hex_byte(word[1], word[2])?;
    let green = hex_byte(word[3], word[4])?;
    let blue = hex_byte(word[5], word[6])?;
    Some(Rgb { red, green, blue })
}

/// Returns the byte of two hexadecimal digits.
fn hex_byte(high: u8, low: u8) -> Option<u8>
    ensures { result ≡ byte_of_digits high low }
{
    let high = hex_value(high)?;
    let low = hex_value(low)?;
    Some(16 * high + low)
}

/// Returns the value of a hexadecimal digit.
fn hex_value(digit: u8) -> Option<u8>
    ensures exact { result ≡ hex_value digit }
    ensures small { IfSome result (λ n. n < 16) }
{
    match digit {
        b'0'..=b'9' => Some(digit - b'0'),
        b'A'..=b'F' => Some(digit - b'A' + 10),
        b'a'..=b'f' => Some(digit - b'a' + 10),
        _ => None,
    }
}
