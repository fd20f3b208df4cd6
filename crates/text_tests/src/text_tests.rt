//! Texts and their symbols.
use crate::grids::read;
use crate::rows::{CHANGES, PARTS, ROWS};
use plain_reader::Level;
use qrcode_core::SymbolOptions;
use qrcode_core::symbol::Symbol;
use qrcode_core::traits::QrSymbol;
use qrcode_core::types::{EcLevel, QrError, Version};
use smallest_symbols::{MicroTextError, micro_text, smallest_text};

#[test]
fn reads_rows_back(rt: HostRuntime) {
    let options = SymbolOptions::new(EcLevel::M);
    for (text, number, payload, designator, bytes) in ROWS {
        let symbol = smallest_text(rt.alloc(), text, &options);
        let symbol = symbol.ok().expect(&rt, "no symbol");
        let seen = read(rt.alloc(), symbol).expect(&rt, "not read");
        assert_eq!(rt; (seen.shape.number, seen.payload), (number, payload));
        assert_eq!(rt; seen.designator, designator);
        assert_eq!(rt; seen.bytes.as_slice(), bytes);
    }
}

#[test]
fn takes_any_part(rt: HostRuntime) {
    let options = SymbolOptions::new(EcLevel::M);
    for (text, number, payload) in PARTS {
        let symbol = smallest_text(rt.alloc(), text, &options);
        let symbol = symbol.ok().expect(&rt, "no symbol");
        let seen = read(rt.alloc(), symbol).expect(&rt, "not read");
        assert_eq!(rt; (seen.shape.number, seen.payload), (number, payload));
        assert!(rt; seen.designator.is_some() || payload == 0);
    }
}

#[test]
fn changes_designators(rt: HostRuntime) {
    let options = SymbolOptions::new(EcLevel::M);
    for (text, number) in CHANGES {
        let symbol = smallest_text(rt.alloc(), text, &options);
        let symbol = symbol.ok().expect(&rt, "no symbol");
        assert!(rt; symbol.version() == Version::Normal(number as i16));
    }
}

/// `A` takes 19 bits, and `Hello, world!` 116, of which 1-L to 1-H hold 152, 128, 104 and 72.
#[test]
fn keeps_to_options(rt: HostRuntime) {
    let strongest = SymbolOptions::new(EcLevel::L).with_strongest();
    let symbol = smallest_text(rt.alloc(), "A", &strongest);
    let seen = read(rt.alloc(), symbol.ok().expect(&rt, "no symbol")).expect(&rt, "not read");
    assert!(rt; seen.shape.number == 1 && seen.level == Level::H);
    let symbol = smallest_text(rt.alloc(), "Hello, world!", &strongest);
    let seen = read(rt.alloc(), symbol.ok().expect(&rt, "no symbol")).expect(&rt, "not read");
    assert!(rt; seen.shape.number == 1 && seen.level == Level::M);
    let least = SymbolOptions::new(EcLevel::M).with_min_version(12);
    let symbol = smallest_text(rt.alloc(), "A", &least);
    let symbol = symbol.ok().expect(&rt, "no symbol");
    assert!(rt; symbol.version() == Version::Normal(12));
    let refused = smallest_text(rt.alloc(), "A", &least.with_max_version(11)).err();
    assert!(rt; refused == Some(QrError::InvalidResourceLimits));
    let one = SymbolOptions::new(EcLevel::Q).with_max_version(1);
    let refused = smallest_text(rt.alloc(), "Hello, world!", &one).err();
    assert!(rt; refused == Some(QrError::DataTooLong));
}

/// M3 and M4 hold 84 and 128 bits at level L, 68 and 112 at M. The Kanji take 2 + 3 + 5 * 13 bits
/// in M3, and 3 + 4 + 5 * 13 in M4; Cyrillic letters are in JIS X 0208, too. 35 digits take
/// 3 + 6 + 11 * 10 + 7 bits in M4.
#[test]
fn makes_micro_symbols(rt: HostRuntime) {
    let rows: [(&str, EcLevel, i16); 8] = [
        ("", EcLevel::L, 1),
        ("12345", EcLevel::L, 1),
        ("ABC", EcLevel::L, 2),
        ("a~", EcLevel::L, 3),
        ("市北前倉東", EcLevel::L, 3),
        ("Привет", EcLevel::L, 3),
        ("市北前倉東", EcLevel::M, 4),
        ("12345678901234567890123456789012345", EcLevel::L, 4),
    ];
    for (text, level, number) in rows {
        let symbol = micro_text(rt.alloc(), text, level)
            .ok()
            .expect(&rt, "no symbol");
        assert!(rt; symbol.version() == Version::Micro(number));
    }
}

#[test]
fn refuses_micro_texts(rt: HostRuntime) {
    for text in ["é", "東~", "東\\", "東é", "שלום"] {
        let refused = micro_text(rt.alloc(), text, EcLevel::L).err();
        assert!(rt; refused == Some(MicroTextError::Unwritable));
    }
    let digits = "123456789012345678901234567890123456";
    let refused = micro_text(rt.alloc(), digits, EcLevel::L).err();
    assert!(rt; refused == Some(MicroTextError::Symbol(QrError::DataTooLong)));
    let refused = micro_text(rt.alloc(), "1", EcLevel::H).err();
    let named = QrError::InvalidVersion {
        version: Version::Micro(4),
        ec_level: EcLevel::H,
    };
    assert!(rt; refused == Some(MicroTextError::Symbol(named)));
}

/// No symbol of these has room for 7090 characters, and the call needs no memory to say so.
#[test]
fn refuses_long_texts(rt: HostRuntime) {
    let bytes = Vec::from_elem(rt.alloc(), b'1', 7090);
    let text = String::from_utf8(bytes.ok().expect(&rt, "no memory"));
    let text = text.ok().expect(&rt, "no text");
    let options = SymbolOptions::new(EcLevel::L);
    let refused = smallest_text(rt.alloc(), text.as_str(), &options).err();
    assert!(rt; refused == Some(QrError::DataTooLong));
}
