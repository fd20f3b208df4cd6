//! Text for a terminal in colors of its own.
ghost use Rattle.std.specs.Prelude.{◌≡◌, ◌++◌, IfOk, OnOk};
ghost use Rattle.single_label.specs.Colors.{in_colors, colored_byte};

use std::alloc::{AllocError, Global};

/// Black on white, in colors 16 and 231 of 256.
const BLACK_ON_WHITE: &[u8] = b"\x1B[38;5;16;48;5;231m";

/// The end of a line, without colors beyond it.
const NEWLINE: &[u8] = b"\x1B[0m\n\x1B[38;5;16;48;5;231m";

/// The colors of the terminal.
const PLAIN: &[u8] = b"\x1B[0m";

/// Returns a text in black on white, so that it is read on a dark and on a light ground. It fails
/// only for lack of memory.
pub fn in_colors(alloc: Global, text: &[u8]) -> Result<Vec<u8>, AllocError>
    ensures { IfOk result (λ bytes. bytes.items ≡ in_colors text.now) }
{
    let mut bytes = Vec::new(alloc);
    bytes.extend_from_slice(BLACK_ON_WHITE)?;
    for byte in text {
        push_colored(&mut bytes, *byte)?;
    }
    bytes.extend_from_slice(PLAIN)?;
    Ok(bytes)
}

/// Appends a byte of a text in black on white.
fn push_colored(bytes: &mut Vec<u8>, byte: u8) -> Result<(), AllocError>
    ensures { OnOk result (bytes.new.items ≡ bytes.old.items ++ colored_byte byte) }
{
    if byte == b'\n' {
        bytes.extend_from_slice(NEWLINE)
    } else {
        Ok(bytes.push(byte)?)
    }
}
