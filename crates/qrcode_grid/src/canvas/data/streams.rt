//! The codewords of a symbol. The type is not in `data`, since the contracts there use definitions
//! of the type: one file would be an import cycle.
ghost use Rattle.std.specs.Prelude.{◌≤◌};

/// The interleaved data codewords and error correction codewords of a symbol, and the number of low
/// bits of the last data codeword that are left out (4 in M1 and M3).
#[derive(Clone, Copy)]
pub struct Streams<'a> {
    pub interleaved: &'a [u8],
    pub correction: &'a [u8],
    pub left_out: usize,
    ghost few: { left_out ≤ 4 },
}
