//! Worked symbols: their codewords, their payloads, and the lengths at which the next
//! version begins.
use crate::read_back::seen;
use plain_reader::Level;
use qrcode_core::types::EcLevel;
use std::test::Fail;

/// Returns whether codewords are the padding: EC and 11 (hex) in turn.
fn is_padding(codewords: &[u8]) -> bool {
    codewords
        .iter()
        .enumerate()
        .all(|(i, byte)| *byte == if i % 2 == 0 { 0xec } else { 0x11 })
}

#[test]
fn reads_its_bytes(rt: HostRuntime) -> Result<(), Fail> {
    let rows: [(&[u8], usize, &[u8]); 3] = [
        (b"hello", 52, &[0x40, 0x56, 0x86, 0x56, 0xc6, 0xc6, 0xf0]),
        (
            b"aaaaaaaaaaaaaaaaa",
            148,
            &[
                0x41, 0x16, 0x16, 0x16, 0x16, 0x16, 0x16, 0x16, 0x16, 0x16, 0x16, 0x16, 0x16, 0x16,
                0x16, 0x16, 0x16, 0x16, 0x10,
            ],
        ),
        (b"", 0, &[0x00]),
    ];
    for (bytes, payload, codewords) in rows {
        let seen = seen(rt.alloc(), bytes, EcLevel::L, false).ok_or("no symbol")?;
        assert_eq!(rt; seen.bytes.as_slice(), bytes);
        assert_eq!(rt; seen.payload, payload);
        assert_eq!(rt; seen.codewords.len(), 19);
        assert!(rt; seen.codewords.as_slice().starts_with(codewords));
        assert!(rt;
            seen.codewords
                .get(codewords.len()..)
                .is_some_and(is_padding)
        );
    }
    Ok(())
}

#[test]
fn takes_version_2(rt: HostRuntime) -> Result<(), Fail> {
    let seen = seen(rt.alloc(), b"aaaaaaaaaaaaaaaaaa", EcLevel::L, false).ok_or("no symbol")?;
    assert_eq!(rt; seen.shape.number, 2);
    assert_eq!(rt; seen.payload, 156);
    assert_eq!(rt; seen.level, Level::L);
    assert!(rt; seen.header.is_none());
    Ok(())
}

#[test]
fn draws_micro_symbols(rt: HostRuntime) -> Result<(), Fail> {
    let digits = b"123451234512345123451234512345123456";
    for (count, number, payload) in [(5, 1, 20), (6, 2, 25), (35, 4, 126)] {
        let bytes = digits.get(..count).ok_or("no digits")?;
        let seen = seen(rt.alloc(), bytes, EcLevel::L, true).ok_or("no symbol")?;
        assert!(rt; seen.shape.micro);
        assert_eq!(rt; seen.shape.number, number);
        assert_eq!(rt; seen.payload, payload);
        assert_eq!(rt; seen.bytes.as_slice(), bytes);
    }
    let seen = seen(rt.alloc(), b"12345", EcLevel::L, true).ok_or("no symbol")?;
    assert_eq!(rt; seen.mask, 2);
    assert_eq!(rt; seen.format, 0x4e2b);
    assert_eq!(rt; seen.codewords.as_slice(), [0xa3, 0xda, 0xd0].as_slice());
    Ok(())
}
