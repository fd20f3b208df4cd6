//! Symbols of texts and of elements. The hash is that of the symbol that the original crate draws
//! for the same pushes in the smallest version: the designator and one Byte segment.
use crate::grids::hash;
use qrcode_core::symbol::{Symbol, best_cuts, best_text_cuts};
use qrcode_core::types::{EcLevel, QrError, QrResult};
use std::str;

#[test]
fn text_of_thanks(rt: HostRuntime) -> QrResult<()> {
    let symbol = Symbol::text(rt.alloc(), "ありがとう", EcLevel::L)?;
    assert_eq!(rt; hash(&symbol.into_colors()), 0x32c11c7d);
    Ok(())
}

/// Version 40 has 23648 bits at level L. FNC1, the header of digits and 7089 of them take 4, 18 and
/// 23630: if the allocations succeed, the call returns `DataTooLong`.
#[test]
fn elements_of_too_many_digits(rt: HostRuntime) -> QrResult<()> {
    let refused = Symbol::elements(rt.alloc(), &[b'7'; 7089], EcLevel::L).err();
    if refused == Some(QrError::OutOfMemory) {
        return Err(QrError::OutOfMemory);
    }
    assert!(rt; refused == Some(QrError::DataTooLong));
    Ok(())
}

/// More bytes than any symbol holds are rejected without an allocation.
#[test]
fn contents_of_too_many_bytes(rt: HostRuntime) {
    let digits = [b'7'; 7090];
    let refused = Symbol::elements(rt.alloc(), &digits, EcLevel::L);
    assert!(rt; matches!(refused, Err(QrError::DataTooLong)));
    let text = str::from_utf8(&digits);
    let refused = text.map(|text| Symbol::text(rt.alloc(), text, EcLevel::L));
    assert!(rt; matches!(refused, Ok(Err(QrError::DataTooLong))));
}

/// 16 times 7089 digits, and one more.
static DIGITS: [u8; 113_425] = [b'7'; 113_425];

/// More bytes than 16 symbols hold are rejected without an allocation.
#[test]
fn cuts_of_too_many_digits(rt: HostRuntime) {
    let refused = best_cuts(rt.alloc(), &DIGITS, EcLevel::L, 40);
    assert!(rt; matches!(refused, Err(QrError::DataTooLong)));
    let text = str::from_utf8(&DIGITS);
    let refused = text.map(|text| best_text_cuts(rt.alloc(), text, EcLevel::L, 40));
    assert!(rt; matches!(refused, Ok(Err(QrError::DataTooLong))));
}

/// In version 1 at level L a part has 152 bits, of which 32 are no data, so 15 bytes.
#[test]
fn cuts_of_a_message(rt: HostRuntime) -> QrResult<()> {
    let cuts = best_cuts(rt.alloc(), &[b'a'; 16], EcLevel::L, 1)?;
    assert_eq!(rt; cuts.as_slice(), [15].as_slice());
    Ok(())
}
