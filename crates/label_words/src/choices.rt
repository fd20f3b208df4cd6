//! Levels, contents and formats by their names.
ghost use Rattle.std.specs.Prelude.{◌≡◌};
ghost use Rattle.label_words.specs.Choices.{level_named, content_named, format_named, has_ending};
ghost use Rattle.label_words.specs.Choices.{format_of_ending, turn_named};

use crate::command::{Content, Turn};
use picture_settings::format::Format;
use qrcode_core::types::EcLevel;

/// Returns the level of a name.
pub fn level_named(word: &str) -> Option<EcLevel>
    ensures { result ≡ level_named word.now }
{
    match word {
        "L" | "l" => Some(EcLevel::L),
        "M" | "m" => Some(EcLevel::M),
        "Q" | "q" => Some(EcLevel::Q),
        "H" | "h" => Some(EcLevel::H),
        _ => None,
    }
}

/// Returns the content of a name.
pub fn content_named(word: &str) -> Option<Content>
    ensures { result ≡ content_named word.now }
{
    match word {
        "auto" => Some(Content::Auto),
        "text" => Some(Content::Text),
        "bytes" => Some(Content::Bytes),
        "gs1" => Some(Content::Gs1),
        "gs1-unchecked" => Some(Content::UncheckedGs1),
        "link" => Some(Content::Link),
        "micro" => Some(Content::Micro),
        "micro-bytes" => Some(Content::MicroBytes),
        _ => None,
    }
}

/// Returns the turn by a number of degrees.
pub fn turn_named(word: &str) -> Option<Turn>
    ensures { result ≡ turn_named word.now }
{
    match word {
        "0" => Some(Turn::Upright),
        "90" => Some(Turn::Right),
        "180" => Some(Turn::Over),
        "270" => Some(Turn::Left),
        _ => None,
    }
}

/// Returns the format of a name.
pub fn format_named(word: &str) -> Option<Format>
    ensures { result ≡ format_named word.now }
{
    match word {
        "terminal" => Some(Format::Terminal),
        "svg" => Some(Format::Svg),
        "png" => Some(Format::Png),
        "pbm" => Some(Format::Pbm),
        "eps" => Some(Format::Eps),
        "escpos" => Some(Format::EscPos),
        "zpl" => Some(Format::Zpl),
        "pdf" => Some(Format::Pdf),
        _ => None,
    }
}

/// Whether a name has this ending, in capital or small letters.
fn has_ending(name: &str, ending: &str) -> bool
    ensures { result ≡ has_ending name.now ending.now }
{
    let (name, ending) = (name.as_bytes(), ending.as_bytes());
    name[name.len().saturating_sub(ending.len())..].eq_ignore_ascii_case(ending)
}

/// Returns the format of a file's name, by its ending.
pub fn format_of_ending(name: &str) -> Option<Format>
    ensures { result ≡ format_of_ending name.now }
{
    if has_ending(name, ".txt") {
        Some(Format::Terminal)
    } else if has_ending(name, ".svg") {
        Some(Format::Svg)
    } else if has_ending(name, ".png") {
        Some(Format::Png)
    } else if has_ending(name, ".pbm") {
        Some(Format::Pbm)
    } else if has_ending(name, ".eps") {
        Some(Format::Eps)
    } else if has_ending(name, ".escpos") {
        Some(Format::EscPos)
    } else if has_ending(name, ".zpl") {
        Some(Format::Zpl)
    } else if has_ending(name, ".pdf") {
        Some(Format::Pdf)
    } else {
        None
    }
}
