//! Links of GS1 elements as people write them.
//!
//! 1. Check the options, and that the text is UTF-8.
//! 2. Make the link, if the text and the domain have no fault.
//! 3. Make the symbol of its bytes, write its modules to the buffer, and return its shape; or write
//!    the link itself.
ghost use Rattle.std.specs.Prelude.{◌≡◌, ◌≢◌, None, length, OnErr, OnOk, IfOk, IfErr};
ghost use Rattle.gs1.specs.Elements.{written_elements};
ghost use Rattle.gs1_links.specs.LinkReader.{ReadsLink};
ghost use Rattle.gs1_links.specs.Links.{link_error, link_of, linked, IsRefusedLink};
ghost use Rattle.qrcode_bits.specs.Frame.{no_front};
ghost use Rattle.qrcode_c.specs.Buffers.{HoldsAsked};
ghost use Rattle.qrcode_c.specs.Linked.{link_fault, HasLink, IsLinkedRefusal, HoldsLink};
ghost use Rattle.qrcode_c.specs.Linked.{IsLinkTextRefusal, IsNoLinkRefusal, TellsLinkPlace};

use crate::drawing::write;
use crate::faults::{ElementFault, link_place_of, link_refusal};
use crate::options::{Options, options_of};
use crate::picture::write_bytes;
use crate::refusal::{Refusal, core_refusal};
use crate::shape::Shape;
use gs1_links::{LinkError, digital_link};
use qrcode_core::symbol::Symbol;
use std::alloc::Global;

/// Writes the symbol of the link of GS1 elements that the options ask for, and returns its shape.
pub fn linked_symbol(
    alloc: Global,
    text: &[u8],
    domain: &[u8],
    options: &Options,
    modules: &mut [u8],
) -> Result<Shape, Refusal>
    ensures held { IfOk result (λ shape. HasLink text.now domain.now (λ link.
        HoldsAsked no_front link options.now modules.old modules.new shape)) }
    ensures refusal { IfErr result
        (IsLinkedRefusal text.now domain.now options.now (length modules.old)) }
    ensures unchanged { OnErr result (modules.new ≡ modules.old) }
{
    let checked = options_of(options)?;
    let Ok(text) = str::from_utf8(text) else {
        return Err(Refusal::InvalidText);
    };
    let link = match link_of(alloc, text, domain) {
        Ok(link) => link,
        Err(error) => return Err(link_refusal(error)),
    };
    match Symbol::bytes_with(alloc, &link, &checked) {
        Ok(symbol) => write(&symbol, modules),
        Err(error) => Err(core_refusal(error)),
    }
}

/// Returns the link of a text, if the domain is a domain.
fn link_of(alloc: Global, text: &str, domain: &[u8]) -> Result<Vec<u8>, LinkError>
    ensures written { IfOk result (λ link. link.items
        ≡ link_of domain.now (written_elements text.now)) }
    ensures read { IfOk result (λ link. ReadsLink link.items (linked (written_elements text.now))) }
    ensures faultless { OnOk result (link_error text.now domain.now ≡ None) }
    ensures refusal { IfErr result (IsRefusedLink text.now domain.now) }
{
    // Neither bytes that are not UTF-8 nor an empty text are a domain.
    match str::from_utf8(domain) {
        Ok(domain) => digital_link(alloc, text, domain),
        Err(_) => digital_link(alloc, text, ""),
    }
}

/// Writes the link to the start of a buffer, and its length to `size`. If the buffer is too short
/// for it, the length is all that is written.
pub fn write_link(
    alloc: Global,
    text: &[u8],
    domain: &[u8],
    buffer: &mut [u8],
    size: &mut usize,
) -> Result<(), Refusal>
    ensures held { OnOk result (HoldsLink text.now domain.now buffer.old buffer.new size.new) }
    ensures refusal { IfErr result
        (IsLinkTextRefusal text.now domain.now (length buffer.old) size.new) }
    ensures unchanged { OnErr result (buffer.new ≡ buffer.old) }
    ensures sized { IfErr result (λ refusal.
        refusal ≢ Refusal.ShortBuffer → size.new ≡ size.old) }
{
    let Ok(text) = str::from_utf8(text) else {
        return Err(Refusal::InvalidText);
    };
    let link = match link_of(alloc, text, domain) {
        Ok(link) => link,
        Err(error) => return Err(link_refusal(error)),
    };
    *size = link.len();
    write_bytes(&link, buffer)
}

/// Checks a text and a domain, and writes where the first fault is.
pub fn check_link(
    alloc: Global,
    text: &[u8],
    domain: &[u8],
    fault: &mut ElementFault,
) -> Result<(), Refusal>
    ensures faultless { OnOk result (link_fault text.now domain.now ≡ None) }
    ensures refusal { IfErr result (IsNoLinkRefusal text.now domain.now) }
    ensures told { TellsLinkPlace text.now domain.now fault.new }
{
    let Ok(text) = str::from_utf8(text) else {
        return Err(Refusal::InvalidText);
    };
    let error = match link_of(alloc, text, domain) {
        Ok(_) => return Ok(()),
        Err(error) => error,
    };
    *fault = link_place_of(error);
    Err(link_refusal(error))
}
