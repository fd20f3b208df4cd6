//! Calls that allocate, each with its expected value. `tools/refuse-growth` lets the allocations of
//! each test fail in turn.
use crate::grids::read;
use qrcode_core::SymbolOptions;
use qrcode_core::symbol::are_text_cuts;
use qrcode_core::types::{EcLevel, QrError, QrResult};
use smallest_symbols::{
    MicroTextError, bytes_without_kanji, micro_text, smallest_text, smallest_text_cuts,
    smallest_text_sequence,
};

#[test]
fn smallest_text_of_five_kanji(rt: HostRuntime) -> QrResult<()> {
    let options = SymbolOptions::new(EcLevel::M);
    let symbol = smallest_text(rt.alloc(), "市北前倉東", &options)?;
    let seen = read(rt.alloc(), symbol).ok_or(QrError::OutOfMemory)?;
    assert_eq!(rt; (seen.shape.number, seen.payload), (1, 77));
    Ok(())
}

#[test]
fn smallest_text_of_two_designators(rt: HostRuntime) -> QrResult<()> {
    let options = SymbolOptions::new(EcLevel::M);
    let symbol = smallest_text(rt.alloc(), "Türkçe şığ ГОСТ", &options)?;
    assert_eq!(rt; symbol.into_colors().len(), 625);
    Ok(())
}

#[test]
fn micro_text_of_five_kanji(rt: HostRuntime) -> QrResult<()> {
    match micro_text(rt.alloc(), "市北前倉東", EcLevel::L) {
        Ok(symbol) => assert_eq!(rt; symbol.into_colors().len(), 225),
        Err(MicroTextError::Symbol(error)) => return Err(error),
        Err(MicroTextError::Unwritable) => return Err(QrError::UnsupportedCharacterSet),
    }
    Ok(())
}

#[test]
fn bytes_without_kanji_of_a_pair(rt: HostRuntime) -> QrResult<()> {
    let options = SymbolOptions::new(EcLevel::L);
    let symbol = bytes_without_kanji(rt.alloc(), b"\x93_0123456789", &options)?;
    let seen = read(rt.alloc(), symbol).ok_or(QrError::OutOfMemory)?;
    assert_eq!(rt; (seen.shape.number, seen.payload), (1, 76));
    Ok(())
}

/// Ten Kanji, of which version 1 holds nine after a header at level L.
const TEN: &str = "市北前倉東市北前倉東";

#[test]
fn cuts_of_ten_kanji(rt: HostRuntime) -> QrResult<()> {
    let cuts = smallest_text_cuts(rt.alloc(), TEN, EcLevel::L, 1)?;
    assert_eq!(rt; cuts.as_slice(), [27].as_slice());
    Ok(())
}

#[test]
fn sequence_of_ten_kanji(rt: HostRuntime) -> QrResult<()> {
    let cuts = [27];
    if !are_text_cuts(&cuts, TEN) {
        return Err(QrError::InvalidResourceLimits);
    }
    let symbols = smallest_text_sequence(rt.alloc(), TEN, &cuts, EcLevel::L, 1)?;
    assert_eq!(rt; symbols.len(), 2);
    for symbol in symbols {
        assert_eq!(rt; symbol.into_colors().len(), 441);
    }
    Ok(())
}
