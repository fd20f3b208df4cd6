//! What the arguments ask for, and its text.
ghost use Rattle.std.specs.Prelude.{◌≡◌, ◌≢◌, ◌≤◌, length, map, IfOk, IfErr, OnOk, MatchOption};
ghost use Rattle.qrcode_base.specs.declared.symbols.TheConstants.{LONGEST_DATA};
ghost use Rattle.qrcode_base.specs.declared.types.errors.QrError.TheVariants.{OutOfMemory};
ghost use Rattle.qrcode_core.specs.Symbol.{drawn_grid};
ghost use Rattle.qrtext.specs.Drawing.{ShowsText, grid_text};
ghost use Rattle.qrtext.specs.Outcome.{AskForNone};
ghost use Rattle.qrtext.specs.Words.{text_request, AskForText, RefusesText};

use qrcode_core::symbol::Symbol;
use qrcode_core::traits::ModuleSource;
use qrcode_core::types::{EcLevel, QrResult};
use std::alloc::{AllocError, Global};

/// A request for the text of a symbol.
#[derive(Clone, Copy, Debug, PartialEq, Eq)]
pub struct Request {
    /// The level of the symbol.
    pub level: EcLevel,
    /// Whether it is a Micro symbol.
    pub micro: bool,
}

/// Returns what the arguments ask for, or `None` if they are invalid.
pub fn request_of(words: &[&str]) -> Option<Request>
    ensures { MatchOption result
        (AskForNone AskForText (map (λ word. word.now) words.now))
        (AskForText (map (λ word. word.now) words.now)) }
{
    match words {
        [word] => {
            let level = word.parse().ok()?;
            Some(Request {
                level,
                micro: false,
            })
        }
        [word, second] if *second == "micro" => {
            let level = word.parse().ok()?;
            Some(Request { level, micro: true })
        }
        _ => None,
    }
}

/// Returns the text of the symbol of the bytes, or with `micro` of their Micro symbol. There is none
/// of more than 7089 bytes.
pub fn drawing(alloc: Global, bytes: &[u8], level: EcLevel, micro: bool) -> QrResult<Vec<u8>>
    ensures shown { IfOk result (λ text. ShowsText (text_request micro level) bytes.now text.items) }
    ensures limit { OnOk result (length bytes.now ≤ LONGEST_DATA) }
    ensures refusal { IfErr result (λ error.
        error ≢ OutOfMemory → RefusesText (text_request micro level) bytes.now error) }
{
    let symbol = if micro {
        Symbol::micro(alloc, bytes, level)?
    } else {
        Symbol::new(alloc, bytes, level)?
    };
    Ok(text_of(alloc, &symbol)?)
}

/// Returns the text of a symbol: one line for each row.
#[tactic(auto, using(crate::proofs::TextLemmas::lines_none, crate::proofs::TextLemmas::lines_more))]
fn text_of(alloc: Global, symbol: &Symbol) -> Result<Vec<u8>, AllocError>
    ensures { IfOk result (λ text. text.items ≡ grid_text (drawn_grid symbol.now)) }
{
    let mut text = Vec::new(alloc);
    for y in 0..symbol.height() {
        let row = symbol.row(y);
        for color in row {
            text.push(color.select(b'#', b'.'))?;
        }
        text.push(b'\n')?;
    }
    Ok(text)
}
