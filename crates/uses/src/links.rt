//! Symbols of links of GS1 elements, by `gs1_links` and `qrcode_core`.
ghost use Rattle.std.specs.Prelude.{ℕ, List, IfOk};
ghost use Rattle.gs1.specs.Elements.{written_elements};
ghost use Rattle.gs1_links.specs.Links.{linked};
ghost use Rattle.gs1_links.specs.LinkReader.{ReadsLink};
ghost use Rattle.qrcode_core.specs.Headline.{IsBestSymbol};

use gs1_links::{LinkError, digital_link};
use qrcode_core::symbol::Symbol;
use qrcode_core::types::{EcLevel, QrError};
use std::alloc::Global;

/// Why there is no symbol: the elements make no link, or no symbol holds it.
#[derive(Clone, Copy, Debug, PartialEq, Eq)]
pub enum LinkLabelError {
    Link(LinkError),
    Symbol(QrError),
}

/// Returns the symbol at level M of the link of a text such as `(01)09506000134352(10)ABC123`, at
/// `id.gs1.org`. A reader finds in its bytes a link, and in this the elements of the text.
pub fn link_label(alloc: Global, text: &str) -> Result<Symbol, LinkLabelError>
    ensures { IfOk result (λ symbol. (link : List ℕ)
        × ReadsLink link (linked (written_elements text.now))
        × IsBestSymbol link EcLevel.M symbol.modules) }
{
    let link = match digital_link(alloc, text, "id.gs1.org") {
        Ok(link) => link,
        Err(error) => return Err(LinkLabelError::Link(error)),
    };
    match Symbol::new(alloc, link.as_slice(), EcLevel::M) {
        Ok(symbol) => Ok(symbol),
        Err(error) => Err(LinkLabelError::Symbol(error)),
    }
}
