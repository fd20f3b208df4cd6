//! Pictures as text for a terminal.
ghost use Rattle.std.specs.Prelude.{◌≡◌, ◌/◌, ◌≤◌, ◌++◌, IfOk, OnOk, encode_utf8, not};
ghost use Rattle.std.specs.Prelude.{if◌then◌else◌};
ghost use Rattle.std.specs.String.{string_bytes};
ghost use Rattle.picture_settings.specs.declared.bounds.TheConstants.{MAX_PIXELS};
ghost use Rattle.grid_pictures.specs.Picture.{shown};
ghost use Rattle.grid_pictures.specs.Terminals.{half_blocks, terminal_line, terminal_text};

use crate::picture::{Picture, ROOM};
use std::alloc::{AllocError, Global};

/// Returns the picture as text: one line for every two rows of pixels, in half blocks. `inverted`
/// fills the light pixels, for a dark screen. It fails only for lack of memory.
#[tactic(auto, using(crate::proofs::TerminalLemmas::lines_none, crate::proofs::TerminalLemmas::lines_more))]
pub fn terminal(alloc: Global, picture: &Picture, inverted: bool) -> Result<String, AllocError>
    ensures { IfOk result (λ text. string_bytes text ≡ terminal_text inverted (shown picture.now)) }
{
    let lines = picture.height().div_ceil(2);
    let mut text = String::with_capacity(alloc, 2 * lines * (picture.width() + 1))?;
    for line in 0..lines {
        push_line(&mut text, picture, inverted, line)?;
    }
    Ok(text)
}

/// Appends a line.
fn push_line(
    text: &mut String,
    picture: &Picture,
    inverted: bool,
    line: usize,
) -> Result<(), AllocError>
    requires { line ≤ MAX_PIXELS / 2 }
    ensures { OnOk result
        (string_bytes text.new ≡ string_bytes text.old
        ++ terminal_line inverted (shown picture.now) line) }
{
    let scale = picture.scale();
    let mut upper_row = [0u8; ROOM];
    let mut lower_row = [0u8; ROOM];
    let row = picture.row(2 * line / scale);
    row.write_bytes(&mut upper_row);
    let next = picture.row((2 * line + 1) / scale);
    next.write_bytes(&mut lower_row);
    for column in 0..picture.columns() {
        let upper = is_filled(upper_row[column] > 0, inverted);
        let lower = is_filled(lower_row[column] > 0, inverted);
        for copy in 0..scale {
            push_block(text, upper, lower)?;
        }
    }
    text.push('\n')?;
    Ok(())
}

/// Whether a module is filled.
fn is_filled(dark: bool, inverted: bool) -> bool
    ensures { result ≡ (if inverted then not dark else dark) }
{
    dark != inverted
}

/// Appends the character that fills its upper half, its lower half, both or none.
fn push_block(text: &mut String, upper: bool, lower: bool) -> Result<(), AllocError>
    ensures { OnOk result
        (string_bytes text.new ≡ string_bytes text.old ++ encode_utf8 (half_blocks upper lower)) }
{
    match (upper, lower) {
        (true, true) => text.push_str("█"),
        (true, false) => text.push_str("▀"),
        (false, true) => text.push_str("▄"),
        (false, false) => text.push_str(" "),
    }
}
