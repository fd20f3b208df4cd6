//! Reading of a message that is spread over several symbols.
use crate::{Seen, read};
use std::alloc::Global;

/// Returns the symbol whose header has a position.
fn at_position(symbols: &[Seen], position: usize) -> Option<&Seen> {
    symbols.iter().find(|seen| {
        seen.header
            .is_some_and(|header| usize::from(header.0) == position)
    })
}

/// Returns the message of some symbols, read in the given order, or `None` if they are not one
/// whole sequence or an allocation fails.
pub fn read_sequence(alloc: Global, grids: &[Vec<bool>], order: &[usize]) -> Option<Vec<u8>> {
    let mut symbols = Vec::new(alloc);
    for index in order {
        symbols.push(read(alloc, grids.get(*index)?)?).ok()?;
    }
    let total = symbols.len();
    if !(2..17).contains(&total) {
        return None;
    }
    let mut message = Vec::new(alloc);
    for index in 0..total {
        let piece = at_position(&symbols, index + 1)?;
        for byte in &piece.bytes {
            message.push(*byte).ok()?;
        }
    }
    let parity = message.iter().fold(0, |sum, byte| sum ^ *byte);
    let agree = symbols.iter().all(|seen| {
        seen.header.is_some_and(|header| usize::from(header.1) == total && header.2 == parity)
    });
    if agree { Some(message) } else { None }
}
