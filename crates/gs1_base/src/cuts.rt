//! Where bytes are cut: at the first byte of a value, or after a position.
ghost use Rattle.std.specs.Prelude.{◌≡◌, ◌+◌, ◌≤◌, ◌==◌, length, drop, position, slice_index};
ghost use Rattle.std.specs.List.{position_or_len};

/// Returns the position of the first byte of this value, if there is one.
fn position_of(bytes: &[u8], value: u8) -> Option<usize>
    ensures { result ≡ position (λ c. c == value) bytes.now }
{
    bytes.iter().position(|byte| *byte == value)
}

/// Returns the position of the first byte of this value, or the length.
#[tactic(auto, using(crate::proofs::Places::place_or_length))]
pub fn first_of(bytes: &[u8], value: u8) -> usize
    ensures place { result ≡ position_or_len (λ c. c == value) bytes.now }
    ensures within { result ≤ length bytes.now }
{
    position_of(bytes, value).unwrap_or(bytes.len())
}

/// Returns what stands after a position, or nothing.
pub fn behind(bytes: &[u8], position: usize) -> &[u8]
    ensures { result.now ≡ drop (position + 1) bytes.now }
{
    if position < bytes.len() {
        &bytes[position + 1..]
    } else {
        &[]
    }
}

/// Returns the byte at a place, or 0.
pub fn byte(piece: &[u8], place: usize) -> u8
    ensures { result ≡ slice_index piece.now place }
{
    piece.get(place).copied().unwrap_or(0)
}
