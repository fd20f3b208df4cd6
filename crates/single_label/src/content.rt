//! From the bytes of the input to the symbol of a label.
ghost use Rattle.std.specs.Prelude.{◌≡◌, ◌≢◌, ◌≤◌, [], length, IfOk, IfErr, OnOk, IfSome, IfNone};
ghost use Rattle.std.specs.Str.{IsUtf8};
ghost use Rattle.qrcode_base.specs.declared.symbols.TheConstants.{LONGEST_DATA};
ghost use Rattle.single_label.specs.Contents.{is_all_ascii, is_bracketed, IsText, IsAutoSymbol};
ghost use Rattle.single_label.specs.Contents.{IsGs1Symbol, IsNoUtf8, IsUtf8Refusal, IsAutoRefusal};
ghost use Rattle.single_label.specs.Contents.{IsGs1Stop, IsBracketedSymbol, IsBracketedStop};
ghost use Rattle.single_label.specs.Contents.{IsSymbolAs, IsStopAs, AreWritten, AreNotWritten};
ghost use Rattle.single_label.specs.Contents.{AreSound, AreNotSound, IsLink, IsLinkStop};
ghost use Rattle.single_label.specs.Contents.{without_mark, without_newline, IsContent};
ghost use Rattle.single_label.specs.Contents.{IsMicroText, IsMicroTextStop, HasText};
ghost use Rattle.single_label.specs.Contents.{IsStringSymbol, IsStringStop};
ghost use Rattle.single_label.specs.Contents.{IsCheckedSymbol, IsCheckedStop, most_bytes};
ghost use Rattle.std.specs.Io.BufRead.{strip_last};

use crate::apart::check_apart;
use crate::element::{read_stop, written_stop};
use crate::stop::Stop;
use gs1::{check_element_string, check_element_values, checked_element_string, element_string};
use gs1_links::{capital_link, digital_link};
use label_words::Content;
use qrcode_base::symbols::LONGEST_DATA;
use qrcode_core::options::SymbolOptions;
use qrcode_core::symbol::Symbol;
use qrcode_core::types::{EcLevel, QrError, QrResult};
use smallest_symbols::{MicroTextError, bytes_without_kanji, micro_text, smallest_text};
use std::alloc::Global;

/// No symbol holds a text of more bytes: it has at most 7089 characters, each of at most four bytes.
pub const LONGEST_TEXT: usize = 4 * LONGEST_DATA;

/// Returns how many bytes the content of a symbol has at most: 7089, or where the symbol may be the
/// smallest of a text, four for each of 7089 characters.
pub fn most_bytes(content: Content) -> usize
    ensures is { result ≡ most_bytes content }
    ensures least { LONGEST_DATA ≤ result }
    ensures most { result ≤ LONGEST_TEXT }
{
    match content {
        Content::Auto => LONGEST_TEXT,
        _ => LONGEST_DATA,
    }
}

/// Returns the symbol of the bytes, at the level and in the versions of the options. There is none
/// of more than 7089 bytes, or of more than 7089 characters of a text for `Auto`. For `Link` the
/// bytes are the link.
pub fn content_symbol(
    alloc: Global,
    content: Content,
    options: &SymbolOptions,
    bytes: &[u8],
) -> Result<Symbol, Stop>
    ensures symbol { IfOk result (λ symbol.
        IsSymbolAs content options.now bytes.now symbol.modules) }
    ensures limit { OnOk result (length bytes.now ≤ most_bytes content) }
    ensures refusal { IfErr result (IsStopAs content options.now bytes.now) }
{
    match content {
        Content::Auto => Ok(auto_symbol(alloc, options, bytes)?),
        _ if bytes.len() > LONGEST_DATA => Err(Stop::from(QrError::DataTooLong)),
        Content::Text => Ok(text_symbol(alloc, options, bytes)?),
        Content::Bytes | Content::Link => Ok(Symbol::bytes_with(alloc, bytes, options)?),
        Content::BytesWithoutKanji => Ok(bytes_without_kanji(alloc, bytes, options)?),
        Content::Gs1 => checked_symbol(alloc, options, bytes),
        Content::UncheckedGs1 => gs1_symbol(alloc, false, options, bytes),
        Content::Micro => micro_symbol(alloc, options.level, bytes),
        Content::MicroBytes => Ok(Symbol::micro(alloc, bytes, options.level)?),
    }
}

/// Whether all bytes are ASCII.
pub fn is_ascii(bytes: &[u8]) -> bool
    ensures { result ≡ is_all_ascii bytes.now }
{
    bytes.iter().all(|byte| *byte < 128)
}

/// Returns the bytes as a text. It fails with `InvalidCharacter` at the first byte that is not
/// UTF-8.
pub fn utf8_of(bytes: &[u8]) -> QrResult<&str>
    ensures text { IfOk result (λ text. text.now ≡ bytes.now) }
    ensures utf8 { OnOk result (IsUtf8 bytes.now) }
    ensures refusal { IfErr result (IsNoUtf8 bytes.now) }
{
    match str::from_utf8(bytes) {
        Ok(text) => Ok(text),
        Err(error) => {
            let position = error.valid_up_to();
            let byte = bytes[position];
            Err(QrError::InvalidCharacter { position, byte })
        }
    }
}

/// Returns the text of a content whose symbol is the smallest of its text, if it is one.
pub fn text_of(content: Content, bytes: &[u8]) -> Option<&str>
    ensures text { IfSome result (λ text. text.now ≡ bytes.now) }
    ensures some { IfSome result (λ text. HasText content bytes.now) }
    ensures none { IfNone result (HasText content bytes.now → ⊥) }
{
    let is_text = match content {
        Content::Auto => !is_ascii(bytes),
        Content::Micro => true,
        _ => false,
    };
    match utf8_of(bytes) {
        Ok(text) if is_text => Some(text),
        _ => None,
    }
}

/// Returns the smallest symbol of the text if the bytes are UTF-8 and not ASCII, else that of bytes
/// as they are.
fn auto_symbol(alloc: Global, options: &SymbolOptions, bytes: &[u8]) -> QrResult<Symbol>
    ensures symbol { IfOk result (λ symbol. IsAutoSymbol options.now bytes.now symbol.modules) }
    ensures limit { OnOk result (length bytes.now ≤ LONGEST_TEXT) }
    ensures refusal { IfErr result (IsAutoRefusal options.now bytes.now) }
{
    if is_ascii(bytes) {
        return Symbol::bytes_with(alloc, bytes, options);
    }
    match utf8_of(bytes) {
        Ok(text) => smallest_text(alloc, text, options),
        Err(_) => Symbol::bytes_with(alloc, bytes, options),
    }
}

/// Returns the symbol of a text in UTF-8, with its ECI designator. It fails as `utf8_of` does, and
/// then as `Symbol::text_with`.
fn text_symbol(alloc: Global, options: &SymbolOptions, bytes: &[u8]) -> QrResult<Symbol>
    ensures symbol { IfOk result (λ symbol. IsText options.now bytes.now symbol.modules) }
    ensures refusal { IfErr result (IsUtf8Refusal options.now bytes.now) }
{
    let text = utf8_of(bytes)?;
    Symbol::text_with(alloc, text, options)
}

/// Returns the bytes without the byte order mark of UTF-8 with which they begin, if they do.
fn without_mark(bytes: &[u8]) -> &[u8]
    ensures { result.now ≡ without_mark bytes.now }
{
    match bytes {
        [0xEF, 0xBB, 0xBF, rest @ ..] => rest,
        _ => bytes,
    }
}

/// Returns the bytes without the last, if this is it.
fn without_last(bytes: &[u8], last: u8) -> &[u8]
    ensures { result.now ≡ strip_last last bytes.now }
{
    if bytes.is_empty() || bytes[bytes.len() - 1] != last {
        return bytes;
    }
    &bytes[..bytes.len() - 1]
}

/// Returns the bytes without one newline at the end, and a carriage return before this.
fn without_newline(bytes: &[u8]) -> &[u8]
    ensures { result.now ≡ without_newline bytes.now }
{
    let line = without_last(bytes, b'\n');
    if line.len() == bytes.len() {
        return bytes;
    }
    without_last(line, b'\r')
}

/// Returns what of the bytes is content: of a text that is trimmed, not its byte order mark and
/// its newline.
pub fn content_of(trims: bool, bytes: &[u8]) -> &[u8]
    ensures content { IsContent trims bytes.now result.now }
    ensures shorter { length result.now ≤ length bytes.now }
{
    if trims && utf8_of(bytes).is_ok() {
        return without_newline(without_mark(bytes));
    }
    bytes
}

/// Returns the smallest Micro QR symbol that is read as a text. It fails with `NoMicroText` where
/// there is none, and for bytes that are no UTF-8, and else as `micro_text` does.
fn micro_symbol(alloc: Global, level: EcLevel, bytes: &[u8]) -> Result<Symbol, Stop>
    ensures symbol { IfOk result (λ symbol. IsMicroText level bytes.now symbol.modules) }
    ensures refusal { IfErr result (IsMicroTextStop level bytes.now) }
{
    let Ok(text) = utf8_of(bytes) else {
        return Err(Stop::NoMicroText);
    };
    match micro_text(alloc, text, level) {
        Ok(symbol) => Ok(symbol),
        Err(MicroTextError::Unwritable) => Err(Stop::NoMicroText),
        Err(MicroTextError::Symbol(error)) => Err(Stop::from(error)),
    }
}

/// Whether the bytes begin with an opening bracket.
pub fn is_bracketed(bytes: &[u8]) -> bool
    ensures { result ≡ is_bracketed bytes.now }
{
    !bytes.is_empty() && bytes[0] == b'('
}

/// Returns the symbol of GS1 elements: bracketed, or an element string. They are checked by the
/// table of identifiers, or else only for what a reader needs.
fn gs1_symbol(
    alloc: Global,
    checks: bool,
    options: &SymbolOptions,
    bytes: &[u8],
) -> Result<Symbol, Stop>
    ensures symbol { IfOk result (λ symbol.
        IsGs1Symbol checks options.now bytes.now symbol.modules) }
    ensures refusal { IfErr result (IsGs1Stop checks options.now bytes.now) }
{
    if is_bracketed(bytes) {
        bracketed_symbol(alloc, checks, options, bytes)
    } else {
        string_symbol(alloc, checks, options, bytes)
    }
}

/// Returns the symbol of GS1 elements that the table allows, and that may stand together. It fails
/// as `gs1_symbol`, and then as `check_apart`.
fn checked_symbol(alloc: Global, options: &SymbolOptions, bytes: &[u8]) -> Result<Symbol, Stop>
    ensures symbol { IfOk result (λ symbol.
        IsCheckedSymbol options.now bytes.now symbol.modules) }
    ensures refusal { IfErr result (IsCheckedStop options.now bytes.now) }
{
    let symbol = gs1_symbol(alloc, true, options, bytes)?;
    check_apart(alloc, bytes)?;
    Ok(symbol)
}

/// Checks an element string, by the table or as `check_element_string` does.
fn check_string(checks: bool, bytes: &[u8]) -> Result<(), Stop>
    ensures sound { OnOk result (AreSound checks bytes.now) }
    ensures refusal { IfErr result (AreNotSound checks bytes.now) }
{
    if checks {
        return match check_element_values(bytes) {
            Ok(()) => Ok(()),
            Err(error) => Err(Stop::NotAllowed(error)),
        };
    }
    match check_element_string(bytes) {
        Ok(()) => Ok(()),
        Err(error) => Err(Stop::Elements(read_stop(error, bytes))),
    }
}

/// Returns the symbol of an element string. It fails as `check_string` does, and then as
/// `Symbol::elements_with`.
fn string_symbol(
    alloc: Global,
    checks: bool,
    options: &SymbolOptions,
    bytes: &[u8],
) -> Result<Symbol, Stop>
    ensures symbol { IfOk result (λ symbol.
        IsStringSymbol checks options.now bytes.now symbol.modules) }
    ensures refusal { IfErr result (IsStringStop checks options.now bytes.now) }
{
    check_string(checks, bytes)?;
    Ok(Symbol::elements_with(alloc, bytes, options)?)
}

/// Returns the element string of bracketed elements, which are checked by the table or as
/// `element_string` does. It fails as `utf8_of` does, and then as this check.
pub fn written_string(alloc: Global, checks: bool, bytes: &[u8]) -> Result<Vec<u8>, Stop>
    ensures written { IfOk result (λ elements. AreWritten checks bytes.now elements.items) }
    ensures refusal { IfErr result (AreNotWritten checks bytes.now) }
{
    let text = utf8_of(bytes)?;
    if checks {
        return match checked_element_string(alloc, text) {
            Ok(elements) => Ok(elements),
            Err(error) => Err(Stop::NotAllowed(error)),
        };
    }
    match element_string(alloc, text) {
        Ok(elements) => Ok(elements),
        Err(error) => Err(Stop::Elements(written_stop(error, bytes))),
    }
}

/// Returns the symbol of bracketed elements. It fails as `written_string` does, and then as
/// `Symbol::elements_with`.
fn bracketed_symbol(
    alloc: Global,
    checks: bool,
    options: &SymbolOptions,
    bytes: &[u8],
) -> Result<Symbol, Stop>
    ensures symbol { IfOk result (λ symbol.
        IsBracketedSymbol checks options.now bytes.now symbol.modules) }
    ensures refusal { IfErr result (IsBracketedStop checks options.now bytes.now) }
{
    let elements = written_string(alloc, checks, bytes)?;
    Ok(Symbol::elements_with(alloc, &elements, options)?)
}

/// Returns the link of bracketed elements, with its scheme and its host in capitals if `upper` says
/// so. It fails as `utf8_of` does, and then as `digital_link`.
pub fn link_of(alloc: Global, upper: bool, domain: &str, bytes: &[u8]) -> Result<Vec<u8>, Stop>
    ensures link { IfOk result (λ link. IsLink upper domain.now bytes.now link.items) }
    ensures some { IfOk result (λ link. link.items ≢ []) }
    ensures refusal { IfErr result (IsLinkStop domain.now bytes.now) }
{
    let text = utf8_of(bytes)?;
    let link = if upper {
        capital_link(alloc, text, domain)
    } else {
        digital_link(alloc, text, domain)
    };
    match link {
        Ok(link) => Ok(link),
        Err(error) => Err(Stop::NoLink(error)),
    }
}
