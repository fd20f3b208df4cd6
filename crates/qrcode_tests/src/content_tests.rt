//! Symbols of texts and of GS1 elements, read back.
use crate::grids::read;
use plain_reader::{Level, Seen};
use qrcode_core::limits::ResourceLimits;
use qrcode_core::options::SymbolOptions;
use qrcode_core::symbol::Symbol;
use qrcode_core::types::{EcLevel, QrError, QrResult, Version};
use std::alloc::Global;
use std::process::Abort;

/// Returns what the plain reader reads from a symbol.
fn seen(rt: &impl Abort, alloc: Global, symbol: QrResult<Symbol>) -> Seen {
    let symbol = symbol.ok().expect(rt, "no symbol");
    read(alloc, &symbol.into_colors()).expect(rt, "not read")
}

/// Greetings in twelve scripts. In the first the bytes C3 89 63 look like a pair of Shift JIS; the
/// last but one is ASCII, and the last is empty.
static TEXTS: [&str; 14] = [
    "Éc",
    "ありがとう",
    "안녕하세요",
    "你好",
    "Привет",
    "Γειά σου",
    "שלום",
    "مرحبا",
    "नमस्ते",
    "สวัสดี",
    "გამარჯობა",
    "Բարև 12345678 ABC",
    "HELLO 0123456789",
    "",
];

#[test]
fn reads_texts_back(rt: HostRuntime) {
    for text in TEXTS {
        let seen = seen(&rt, rt.alloc(), Symbol::text(rt.alloc(), text, EcLevel::M));
        assert_eq!(rt; seen.designator, Some(26));
        assert!(rt; !seen.has_elements && seen.header.is_none());
        assert_eq!(rt; seen.bytes.as_slice(), text.as_bytes());
    }
}

/// Elements, with the number of the version that zint 2.11.1 takes for them at level Q.
static ELEMENTS: [(&[u8], usize); 5] = [
    (b"10ABCD\x1d21DEFG", 1),
    (b"0109506000134352", 1),
    (b"01095060001343521726093010ABC123\x1d21XYZ", 3),
    (b"10AB%12", 1),
    (b"80100614141#A\x1d80111", 2),
];

#[test]
fn reads_elements_back(rt: HostRuntime) {
    for (elements, version) in ELEMENTS {
        let symbol = Symbol::elements(rt.alloc(), elements, EcLevel::Q);
        let seen = seen(&rt, rt.alloc(), symbol);
        assert!(rt; seen.has_elements && seen.designator.is_none() && seen.header.is_none());
        assert_eq!(rt; seen.bytes.as_slice(), elements);
        assert!(rt; seen.shape.number <= version);
    }
}

/// Bytes that are no elements, with the place of the first byte that is none: a character that GS1
/// does not have, and a separator at either end or after another.
static NO_ELEMENTS: [(&[u8], usize); 7] = [
    (b"10AB 12", 4),
    (b"10AB$12", 4),
    (b"10\xc3\x89", 2),
    (b"\x1d10AB", 0),
    (b"10AB\x1d", 4),
    (b"10AB\x1d\x1d2112", 5),
    (b"$", 0),
];

#[test]
fn bytes_that_are_no_elements_are_invalid(rt: HostRuntime) {
    for (elements, position) in NO_ELEMENTS {
        let refused = Symbol::elements(rt.alloc(), elements, EcLevel::Q).err();
        let byte = elements[position];
        assert!(rt; refused == Some(QrError::InvalidCharacter { position, byte }));
    }
    // The bytes are looked at before their number.
    let mut many = [b'7'; 7090];
    many[7089] = b' ';
    let refused = Symbol::elements(rt.alloc(), &many, EcLevel::L).err();
    let (position, byte) = (7089, b' ');
    assert!(rt; refused == Some(QrError::InvalidCharacter { position, byte }));
}

/// Each part has the designator after its header, and the parts are the text.
#[test]
fn reads_a_text_in_three_symbols_back(rt: HostRuntime) {
    let text = "Привет, мир! Γειά σου, κόσμε! 12345678";
    let cuts = [12, 38];
    let symbols = Symbol::text_sequence(rt.alloc(), text, &cuts, EcLevel::M, 40);
    let symbols = symbols.ok().expect(&rt, "no symbols");
    assert_eq!(rt; symbols.len(), 3);
    let mut bytes = Vec::new(rt.alloc());
    for (index, symbol) in symbols.into_iter().enumerate() {
        let seen = seen(&rt, rt.alloc(), Ok(symbol));
        assert_eq!(rt; seen.designator, Some(26));
        let (position, total, _parity) = seen.header.expect(&rt, "no header");
        assert_eq!(rt; (usize::from(position), total), (index + 1, 3));
        assert!(rt; bytes.extend_from_slice(&seen.bytes).is_ok());
    }
    assert_eq!(rt; bytes.as_slice(), text.as_bytes());
}

/// `hello` takes 52 bits in version 1, and `HELLO WORLD` 74, of which the levels L to H hold 152,
/// 128, 104 and 72 (ISO/IEC 18004:2006, table of data capacities). In version 5 at level H are 368.
static OPTIONS: [(&[u8], i16, bool, usize, Level); 4] = [
    (b"hello", 1, false, 1, Level::L),
    (b"hello", 1, true, 1, Level::H),
    (b"HELLO WORLD", 1, true, 1, Level::Q),
    (b"HELLO WORLD", 5, true, 5, Level::H),
];

#[test]
fn options_choose_version_and_level(rt: HostRuntime) {
    for (bytes, least, strongest, number, level) in OPTIONS {
        let mut options = SymbolOptions::new(EcLevel::L).with_min_version(least);
        if strongest {
            options = options.with_strongest();
        }
        let symbol = Symbol::bytes_with(rt.alloc(), bytes, &options);
        let seen = seen(&rt, rt.alloc(), symbol);
        assert!(rt; seen.shape.number == number && seen.level == level);
        assert_eq!(rt; seen.bytes.as_slice(), bytes);
    }
}

#[test]
fn options_for_texts_and_elements(rt: HostRuntime) {
    let options = SymbolOptions::new(EcLevel::M).with_min_version(3);
    let text = Symbol::text_with(rt.alloc(), "Привет", &options);
    let seen_text = seen(&rt, rt.alloc(), text);
    assert!(rt; seen_text.shape.number == 3 && seen_text.designator == Some(26));
    let elements = Symbol::elements_with(rt.alloc(), b"10ABC\x1d2112", &options);
    let seen_elements = seen(&rt, rt.alloc(), elements);
    assert!(rt; seen_elements.shape.number == 3 && seen_elements.has_elements);
}

/// Versions that are no range are rejected before the bytes are looked at.
#[test]
fn options_are_checked_first(rt: HostRuntime) {
    for (least, greatest) in [(0, 40), (1, 41), (3, 2)] {
        let options = SymbolOptions::new(EcLevel::M).with_min_version(least);
        let options = options.with_max_version(greatest);
        assert!(rt; options.validate().is_err());
        let refused = Symbol::elements_with(rt.alloc(), b" ", &options).err();
        assert!(rt; refused == Some(QrError::InvalidResourceLimits));
    }
    let options = SymbolOptions::new(EcLevel::H).with_max_version(1);
    let refused = Symbol::text_with(rt.alloc(), "12345678901234567890", &options).err();
    assert!(rt; refused == Some(QrError::DataTooLong));
}

/// Limits give the greatest version, and those that no encoding can keep to give no options.
#[test]
fn options_within_limits(rt: HostRuntime) {
    let limits = ResourceLimits::new(100, Version::Normal(2), (400, 400));
    let options = SymbolOptions::within(EcLevel::Q, &limits).expect(&rt, "no options");
    assert!(rt; options.level == EcLevel::Q && !options.strongest);
    assert!(rt; options.min_version == 1 && options.max_version == 2);
    let micro = ResourceLimits::new(100, Version::Micro(2), (400, 400));
    let refused = SymbolOptions::within(EcLevel::Q, &micro).err();
    assert!(rt; refused == Some(QrError::InvalidResourceLimits));
    let flat = ResourceLimits::new(100, Version::Normal(2), (0, 400));
    let refused = SymbolOptions::within(EcLevel::Q, &flat).err();
    assert!(rt; refused == Some(QrError::InvalidResourceLimits));
}
