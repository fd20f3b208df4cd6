//! The plain reader rejects a symbol in which any single module has the other colour, so it checks
//! each module.
use crate::read_back::modules;
use qrcode_core::types::EcLevel;
use std::alloc::Global;
use std::test::Fail;

/// Returns how many of the symbols that differ from one in a single module are read.
fn read_when_turned(alloc: Global, symbol: &[bool]) -> Option<usize> {
    let mut grid = Vec::new(alloc);
    grid.extend_from_slice(symbol).ok()?;
    let mut read = 0usize;
    for place in 0..symbol.len() {
        if let Some(module) = grid.get_mut(place) {
            *module = !*module;
        }
        if plain_reader::read(alloc, &grid).is_some() {
            read = read.wrapping_add(1);
        }
        if let Some(module) = grid.get_mut(place) {
            *module = !*module;
        }
    }
    // The unchanged symbol is read.
    plain_reader::read(alloc, &grid)?;
    Some(read)
}

#[test]
fn refuses_turned_modules(rt: HostRuntime) -> Result<(), Fail> {
    // Version 2 has an alignment pattern, version 7 has version information and six
    // alignment patterns.
    for (count, width) in [(18, 25), (150, 45)] {
        let bytes = vec![in rt.alloc(); b'a'; count]?;
        let symbol = modules(rt.alloc(), &bytes, EcLevel::L, false).ok_or("no symbol")?;
        assert_eq!(rt; symbol.len(), width * width);
        assert_eq!(rt; read_when_turned(rt.alloc(), &symbol), Some(0));
    }
    Ok(())
}

#[test]
fn refuses_turned_modules_of_micro_symbols(rt: HostRuntime) -> Result<(), Fail> {
    for (digits, width) in [(b"12345".as_slice(), 11), (b"123456789012345678901234", 17)] {
        let symbol = modules(rt.alloc(), digits, EcLevel::L, true).ok_or("no symbol")?;
        assert_eq!(rt; symbol.len(), width * width);
        assert_eq!(rt; read_when_turned(rt.alloc(), &symbol), Some(0));
    }
    Ok(())
}
