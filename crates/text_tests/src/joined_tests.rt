//! Texts in several symbols, read by a reader that takes each symbol by itself, and by one that
//! joins them as zbar does: there a designator stays in force from one symbol to the next, and
//! plain bytes are JIS X 0201 if any of the symbols has a Kanji segment.
use crate::grids::read;
use character_sets::{byte_of, pair_of};
use plain_reader::Seen;
use qrcode_core::symbol::are_text_cuts;
use qrcode_core::types::EcLevel;
use smallest_symbols::{smallest_text_cuts, smallest_text_sequence};
use std::alloc::Global;

/// Texts that such a reader may misread, and in how many symbols of version 1 at level L they are: a
/// text in Cyrillic and Kanji, `\` and `~` in front of Kanji, ASCII alone with both, and Kanji
/// beside ASCII.
static ROWS: [(&str, usize); 5] = [
    ("ПриветприветприД東京都千代田区霞が", 3),
    ("C:\\Users\\me\\abc 日本語の文日本語の文", 3),
    ("see ~/x for help 日本語の文日本語の文", 3),
    ("C:\\Users\\me ~/x for help", 2),
    ("see x for help 日本語の文日本語の文", 3),
];

/// A part of a longer text: a piece of text, and how often it stands there.
static LONG: [[(&str, usize); 3]; 2] = [
    [
        ("Résumé of the manual in English follows. ", 3),
        ("Keep the lid closed while the motor runs. ", 12),
        ("この機械の説明書を読んでください。", 17),
    ],
    [
        ("Install it to C:\\Program Files\\Tool and start it. ", 3),
        ("Keep the lid closed while the motor runs. ", 9),
        ("この機械の説明書を読んでください。", 17),
    ],
];

/// What is in force for bytes: a designator, and whether plain bytes are JIS X 0201.
#[derive(Clone, Copy)]
struct Force {
    designator: Option<u8>,
    mixed: bool,
}

/// Returns how many bytes of those that are left stand for a character, if the first do.
fn taken(bytes: &[u8], c: char, force: Force) -> Option<usize> {
    let designator = force.designator.map(u32::from);
    if designator == Some(26) {
        let mut buffer = [0; 4];
        let wanted = c.encode_utf8(&mut buffer).as_bytes();
        return if bytes.starts_with(wanted) {
            Some(wanted.len())
        } else {
            None
        };
    }
    if force.mixed && designator.is_none() && (c == '\\' || c == '~') {
        return None;
    }
    if let Some(byte) = byte_of(c, designator) {
        return if bytes.first() == Some(&byte) {
            Some(1)
        } else {
            None
        };
    }
    let (lead, trail) = pair_of(c)?;
    let has_pairs = designator.is_none() || designator == Some(20);
    if has_pairs && bytes.starts_with(&[lead, trail]) {
        Some(2)
    } else {
        None
    }
}

/// Returns what is left of a text after the characters that a symbol has.
fn rest_after<'a>(text: &'a str, bytes: &[u8], force: Force) -> Option<&'a str> {
    let mut left = text;
    let mut rest = bytes;
    for _ in 0..bytes.len() {
        if rest.is_empty() {
            break;
        }
        let c = left.chars().next()?;
        rest = rest.get(taken(rest, c, force)?..)?;
        left = left.get(c.len_utf8()..)?;
    }
    Some(left)
}

/// Returns whether a symbol has pairs of the Kanji mode: it has no designator, and beyond ASCII.
fn has_kanji(seen: &Seen) -> bool {
    seen.designator.is_none() && seen.bytes.iter().any(|byte| *byte > 127)
}

/// Returns whether symbols are read as a text by a reader that joins them, or by one that does not.
fn is_read(all: &[Seen], text: &str, joins: bool) -> bool {
    let any = all.iter().any(has_kanji);
    let mut left = text;
    let mut designator = None;
    for seen in all {
        designator = if joins {
            seen.designator.or(designator)
        } else {
            seen.designator
        };
        let mixed = if joins { any } else { has_kanji(seen) };
        match rest_after(left, &seen.bytes, Force { designator, mixed }) {
            Some(rest) => left = rest,
            None => return false,
        }
    }
    left.is_empty()
}

/// Returns what the plain reader reads from the symbols of a text, in as few parts as can be.
fn seen_of(alloc: Global, text: &str, level: EcLevel, limit: i16) -> Option<Vec<Seen>> {
    let cuts = smallest_text_cuts(alloc, text, level, limit).ok()?;
    if !are_text_cuts(&cuts, text) {
        return None;
    }
    let mut all = Vec::new(alloc);
    for symbol in smallest_text_sequence(alloc, text, &cuts, level, limit).ok()? {
        all.push(read(alloc, symbol)?).ok()?;
    }
    Some(all)
}

#[test]
fn reads_alike_alone_and_joined(rt: HostRuntime) {
    for (text, count) in ROWS {
        let all = seen_of(rt.alloc(), text, EcLevel::L, 1).expect(&rt, "not read");
        assert_eq!(rt; all.len(), count);
        assert!(rt; is_read(&all, text, false));
        assert!(rt; is_read(&all, text, true));
    }
}

/// Returns a text of pieces.
fn text_of(alloc: Global, pieces: &[(&str, usize)]) -> Option<String> {
    let mut text = String::new(alloc);
    for (piece, count) in pieces {
        for _ in 0..*count {
            text.push_str(piece).ok()?;
        }
    }
    Some(text)
}

#[test]
fn reads_long_texts_alike(rt: HostRuntime) {
    for pieces in LONG {
        let text = text_of(rt.alloc(), &pieces).expect(&rt, "no text");
        let text = text.as_str();
        let all = seen_of(rt.alloc(), text, EcLevel::M, 8).expect(&rt, "not read");
        assert!(rt; is_read(&all, text, false));
        assert!(rt; is_read(&all, text, true));
    }
}
