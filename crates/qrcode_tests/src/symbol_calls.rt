//! Tests that call each function of `symbol` once, on known symbols.
use crate::grids::read;
use qrcode_core::bits::Bits;
use qrcode_core::canvas::MaskPattern;
use qrcode_core::limits::ResourceLimits;
use qrcode_core::symbol::{Symbol, are_cuts, symbol, symbol_micro, symbol_sequence};
use qrcode_core::traits::{ModuleSource, QrSymbol};
use qrcode_core::types::{Color, EcLevel, QrError, QrResult, Version};
use std::alloc::Global;
use std::process::Abort;

/// The rows of the symbol of `12345` in M1, dark as one. ISO/IEC 18004:2006 has no such example;
/// the original crate draws this symbol.
static ROWS: [u16; 11] = [
    0b11111110101,
    0b10000010110,
    0b10111010100,
    0b10111010000,
    0b10111010111,
    0b10000010011,
    0b11111110100,
    0b00000000011,
    0b11001110011,
    0b01010001100,
    0b11110000011,
];

#[test]
fn draws_micro_symbol(rt: HostRuntime) {
    let grid = symbol_micro(rt.alloc(), b"12345", EcLevel::L).expect(&rt, "no symbol");
    assert_eq!(rt; grid.len(), 121);
    for (y, row) in ROWS.iter().enumerate() {
        for x in 0..11 {
            let color = if *row >> (10 - x) & 1 == 1 {
                Color::Dark
            } else {
                Color::Light
            };
            assert!(rt;
                grid.get(y * 11 + x) == Some(&color),
                "column {x} of row {y}"
            );
        }
    }
}

#[test]
fn tells_micro_symbol(rt: HostRuntime) {
    let symbol = Symbol::micro(rt.alloc(), b"12345", EcLevel::L).expect(&rt, "no symbol");
    assert!(rt; symbol.version() == Version::Micro(1));
    assert!(rt; symbol.error_correction_level() == EcLevel::L);
    assert!(rt; symbol.mask() == MaskPattern::Diamonds && symbol.quiet_zone() == 2);
    assert!(rt; symbol.width() == 11 && symbol.height() == 11);
    assert!(rt; symbol.get(9, 0) == Color::Light && symbol.get(10, 0) == Color::Dark);
    assert!(rt; symbol.get(0, 9) == Color::Light);
}

/// The example of ISO/IEC 18004:2006, annex I: version 1, level M, data mask pattern 010.
#[test]
fn tells_symbol(rt: HostRuntime) {
    let alloc = rt.alloc();
    let symbol = Symbol::new(alloc, b"01234567", EcLevel::M).expect(&rt, "no symbol");
    is_the_example(&rt, &symbol);
    let again = symbol.clone(alloc).expect(&rt, "memory");
    is_the_example(&rt, &again);
    assert!(rt; again.modules() == symbol.modules());
    let colors = symbol.into_colors();
    assert!(rt; again.modules() == colors.as_slice());
}

/// Checks the fields of the example, and that its view has its rows.
fn is_the_example(rt: &impl Abort, symbol: &Symbol) {
    assert!(rt; symbol.version() == Version::Normal(1));
    assert!(rt; symbol.error_correction_level() == EcLevel::M);
    assert!(rt; symbol.mask() == MaskPattern::VerticalLines && symbol.quiet_zone() == 4);
    assert!(rt; symbol.module_view().row(20) == symbol.row(20));
}

#[test]
fn tells_sequence(rt: HostRuntime) {
    let cuts = [2, 4];
    assert!(rt; are_cuts(&cuts, 6));
    let symbols = Symbol::sequence(rt.alloc(), b"AB12cd", &cuts, EcLevel::Q, 40);
    let symbols = symbols.expect(&rt, "no symbols");
    assert_eq!(rt; symbols.len(), 3);
    for symbol in &symbols {
        assert!(rt; symbol.version() == Version::Normal(1));
        assert!(rt; symbol.error_correction_level() == EcLevel::Q);
    }
}

/// Each part of a sequence by itself is the symbol at its place in the sequence.
#[test]
fn draws_each_part_alone(rt: HostRuntime) {
    let cuts = [2, 4];
    assert!(rt; are_cuts(&cuts, 6));
    let symbols = Symbol::sequence(rt.alloc(), b"AB12cd", &cuts, EcLevel::L, 40);
    let symbols = symbols.expect(&rt, "no symbols");
    for (i, symbol) in symbols.iter().enumerate() {
        let part = Symbol::sequence_part(rt.alloc(), b"AB12cd", &cuts, EcLevel::L, 40, i.min(2));
        let part = part.expect(&rt, "no symbol");
        assert!(rt; part.modules() == symbol.modules());
        assert!(rt; part.version() == symbol.version() && part.mask() == symbol.mask());
    }
}

/// Seventeen letters and a header do not fit version 1 at level L, so that no part is drawn.
#[test]
fn refuses_a_part_beside_a_long_one(rt: HostRuntime) {
    let cuts = [17];
    assert!(rt; are_cuts(&cuts, 18));
    for index in 0..2 {
        let letters = b"abcdefghijklmnopqr";
        let part = Symbol::sequence_part(rt.alloc(), letters, &cuts, EcLevel::L, 1, index);
        assert!(rt; part.err() == Some(QrError::DataTooLong));
    }
}

#[test]
fn refuses_a_part_without_sequence(rt: HostRuntime) {
    let one = Symbol::sequence_part(rt.alloc(), b"a", &[], EcLevel::L, 40, 0);
    assert!(rt; one.err() == Some(QrError::InvalidStructuredAppend { value: 1 }));
    let limits = Symbol::sequence_part(rt.alloc(), b"a", &[], EcLevel::L, 41, 0);
    assert!(rt; limits.err() == Some(QrError::InvalidResourceLimits));
}

#[test]
fn holds_bits(rt: HostRuntime) {
    let mut bits = Bits::new(rt.alloc(), Version::Micro(1));
    assert!(rt; bits.push_numeric_data(b"12345").is_ok());
    let symbol = Symbol::with_bits(rt.alloc(), bits, EcLevel::L).expect(&rt, "no symbol");
    assert!(rt; symbol.mask() == MaskPattern::Diamonds);
    let same = symbol_micro(rt.alloc(), b"12345", EcLevel::L).expect(&rt, "no symbol");
    assert!(rt; symbol.modules() == same.as_slice());
}

#[test]
fn refuses_bits(rt: HostRuntime) {
    let none = Bits::new(rt.alloc(), Version::Normal(41));
    let refused = Symbol::with_bits(rt.alloc(), none, EcLevel::L).err();
    let lacking = QrError::InvalidVersion {
        version: Version::Normal(41),
        ec_level: EcLevel::L,
    };
    assert!(rt; refused == Some(lacking));
    let mut long = Bits::new(rt.alloc(), Version::Normal(1));
    assert!(rt; long.push_byte_data(b"eighteen character").is_ok());
    let refused = Symbol::with_bits(rt.alloc(), long, EcLevel::L).err();
    assert!(rt; refused == Some(QrError::DataTooLong));
}

/// Digits and a letter in two segments, as ISO/IEC 18004:2006 encodes them in M2: 0 and a count of
/// 4 bits, 123 in 10 bits; 1 and a count of 3 bits, A in 6 bits. Then a terminator of 5 bits, zeros
/// to the end of the byte, and a pad codeword.
static DIGITS_AND_LETTER: [u8; 5] = [
    0b0_0011_000,
    0b1111011_1,
    0b001_00101,
    0b0_00000_00,
    0b11101100,
];

#[test]
fn holds_digits_and_letter_in_m2(rt: HostRuntime) {
    let mut bits = Bits::new(rt.alloc(), Version::Micro(2));
    assert!(rt; bits.push_optimal_data(b"123A").is_ok());
    assert_eq!(rt; bits.len(), 25);
    assert!(rt; bits.push_terminator(EcLevel::L).is_ok());
    assert!(rt; bits.into_bytes().as_slice() == DIGITS_AND_LETTER.as_slice());
}

#[test]
fn draws_digits_and_letter_in_m2(rt: HostRuntime) {
    let grid = symbol_micro(rt.alloc(), b"123A", EcLevel::L).expect(&rt, "no symbol");
    let seen = read(rt.alloc(), &grid).expect(&rt, "no reading");
    assert!(rt; seen.shape.micro && seen.shape.number == 2 && seen.payload == 25);
    assert!(rt; seen.codewords.as_slice() == DIGITS_AND_LETTER.as_slice());
    assert!(rt; seen.bytes.as_slice() == b"123A".as_slice());
}

#[test]
fn refuses_headers_in_micro_symbols(rt: HostRuntime) {
    refuses_headers(&rt, &mut Bits::new(rt.alloc(), Version::Micro(1)));
    refuses_headers(&rt, &mut Bits::new(rt.alloc(), Version::Micro(4)));
}

/// A Micro symbol has no Structured Append header: pushing one fails with
/// `UnsupportedCharacterSet`, also if its numbers are invalid.
fn refuses_headers(rt: &impl Abort, bits: &mut Bits) {
    for (position, total) in [(1, 2), (3, 2), (1, 17)] {
        let refused = bits.push_structured_append_header(position, total, 0);
        assert!(rt; refused == Err(QrError::UnsupportedCharacterSet) && bits.is_empty());
    }
}

/// Returns the version of a symbol under limits, or the error.
fn under(alloc: Global, bytes: &[u8], version: Version) -> QrResult<Version> {
    let limits = ResourceLimits::new(18, version, (100, 100));
    Ok(Symbol::with_limits(alloc, bytes, EcLevel::L, &limits)?.version())
}

/// Bytes and the greatest version, with the result at level L for a limit of 18 bytes.
static LIMITED: [(&[u8], Version, QrResult<Version>); 4] = [
    (
        b"seventeen letters",
        Version::Normal(1),
        Ok(Version::Normal(1)),
    ),
    (
        b"eighteen character",
        Version::Normal(1),
        Err(QrError::DataTooLong),
    ),
    (
        b"0123456789012345678",
        Version::Normal(1),
        Err(QrError::DataTooLong),
    ),
    (b"", Version::Micro(4), Err(QrError::InvalidResourceLimits)),
];

#[test]
fn keeps_limits(rt: HostRuntime) {
    for (bytes, version, wanted) in &LIMITED {
        assert_eq!(rt; under(rt.alloc(), bytes, *version), *wanted);
    }
}

#[test]
fn draws_symbols(rt: HostRuntime) {
    let grid = symbol(rt.alloc(), b"hello", EcLevel::L).expect(&rt, "no symbol");
    assert_eq!(rt; grid.len(), 21 * 21);
    let cuts = [2, 4];
    assert!(rt; are_cuts(&cuts, 6));
    let grids = symbol_sequence(rt.alloc(), b"AB12cd", &cuts, EcLevel::L, 40);
    assert_eq!(rt; grids.expect(&rt, "no symbols").len(), 3);
}

#[test]
fn tests_cuts(rt: HostRuntime) {
    assert!(rt; are_cuts(&[], 0));
    assert!(rt; are_cuts(&[0, 0, 3], 3));
    assert!(rt; !are_cuts(&[0, 4], 3));
    assert!(rt; !are_cuts(&[2, 1], 3));
}

#[test]
fn refuses(rt: HostRuntime) {
    let answer = symbol(rt.alloc(), &[b'a'; 2954], EcLevel::L);
    assert!(rt; answer.err() == Some(QrError::DataTooLong));
    let digits = b"123451234512345123451234512345123456";
    let answer = symbol_micro(rt.alloc(), digits, EcLevel::L);
    assert!(rt; answer.err() == Some(QrError::DataTooLong));
    let answer = symbol_micro(rt.alloc(), b"1", EcLevel::H);
    let lacking = QrError::InvalidVersion {
        version: Version::Micro(4),
        ec_level: EcLevel::H,
    };
    assert!(rt; answer.err() == Some(lacking));
}
