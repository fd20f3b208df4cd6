//! Lists of many copies of one value, for the modules of a canvas and for the scratch list.
ghost use Rattle.std.specs.Prelude.{◌≡◌, replicate, IfOk};

use std::alloc::{AllocError, Global};

/// The number of elements that are written at once. The C library fills more than 2 KB with
/// `rep stos`, which is slow to start.
const PART: usize = 1000;

/// Returns a list of `length` copies of a value, with a capacity of at least `room` elements.
pub fn repeated<T: Copy>(
    alloc: Global,
    value: T,
    length: usize,
    room: usize,
) -> Result<Vec<T>, AllocError>
    ensures { IfOk result (λ list. list.items ≡ replicate length value) }
{
    let mut list = Vec::with_capacity(alloc, length.max(room))?;
    for part in 0..length / PART {
        list.resize(PART * (part + 1), value)?;
    }
    list.resize(length, value)?;
    Ok(list)
}
