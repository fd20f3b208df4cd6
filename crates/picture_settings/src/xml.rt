//! Text in XML.
ghost use Rattle.std.specs.Prelude.{◌≡◌, ◌++◌, OnOk, encode_utf8_all};
ghost use Rattle.std.specs.String.{string_bytes};
ghost use Rattle.picture_settings.specs.Xml.{escape, is_xml_character, is_xml_text, xml_text};

use std::alloc::AllocError;

/// Whether XML 1.0 allows the character.
fn is_xml_character(c: char) -> bool
    ensures { result ≡ is_xml_character c }
{
    matches!(c, '\t' | '\n' | '\r' | ' '..='\u{D7FF}' | '\u{E000}'..='\u{FFFD}' | '\u{10000}'..)
}

/// Whether XML 1.0 allows all characters of the text.
pub fn is_xml_text(text: &str) -> bool
    ensures { result ≡ is_xml_text text.now }
{
    text.chars().all(is_xml_character)
}

/// Appends the characters of a text as XML has them in an element. It fails only for lack
/// of memory.
#[tactic(auto, using(crate::proofs::XmlLemmas::characters), unfolding(crate::specs::Xml::xml_text))]
pub fn push_escaped(out: &mut String, text: &str) -> Result<(), AllocError>
    ensures { OnOk result (string_bytes out.new ≡ string_bytes out.old ++ xml_text text.now) }
{
    for c in text.chars() {
        push_character(out, c)?;
    }
    Ok(())
}

/// Appends a character, as a reference where XML wants one.
fn push_character(out: &mut String, c: char) -> Result<(), AllocError>
    ensures { OnOk result
        (string_bytes out.new ≡ string_bytes out.old ++ encode_utf8_all (escape c)) }
{
    match c {
        '&' => out.push_str("&amp;"),
        '<' => out.push_str("&lt;"),
        '>' => out.push_str("&gt;"),
        '"' => out.push_str("&quot;"),
        '\r' => out.push_str("&#13;"),
        c => out.push(c),
    }
}
