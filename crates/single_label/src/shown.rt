//! What a label shows of a symbol: its picture or its details, or its page in a document.
ghost use Rattle.std.specs.Prelude.{◌≡◌, ◌<◌, ℕ, ⊤, List, Option, None, Some, true};
ghost use Rattle.std.specs.Prelude.{IfOk, IfErr, IfSome, OnOk, Err};
ghost use Rattle.std.specs.Option.{option_copied, option_map};
ghost use Rattle.std.specs.String.{string_bytes};
ghost use Rattle.picture_settings.specs.declared.draw_options.DrawOptions.{DrawOptions};
ghost use Rattle.single_label.specs.Details.{IsDetailsStop};
ghost use Rattle.single_label.specs.Labels.{AreBeside, IsCaptioned, ShowsSymbol};
ghost use Rattle.qrcode_render.specs.PdfPagesWritten.{after_page, next_page};
ghost use Rattle.picture_settings.specs.declared.bounds.TheConstants.{MAX_PDF};
ghost use Rattle.single_label.specs.Pages.{are_pages, page_alone, page_of_symbol};
ghost use Rattle.single_label.specs.PageSymbols.{page_shown};
ghost use Rattle.label_words.specs.declared.command.Label.{Label};

use crate::caption::text_in;
use crate::label::{captioned, details_beside, symbol_label};
use crate::stop::Stop;
use crate::turned::page_turned;
use label_words::{Details, Label};
use qrcode_core::symbol::Symbol;
use qrcode_render::{DrawOptions, Format, PdfError, PdfPages};
use std::alloc::{AllocError, Global};

/// What a symbol says, and what is written below it.
#[derive(Clone, Copy, Debug, PartialEq, Eq)]
pub struct Said<'a> {
    /// The content, if the symbol has all of it.
    pub content: Option<&'a [u8]>,
    /// The text below the picture of the symbol, if there is one.
    pub caption: Option<&'a str>,
}

/// What stands for a label until it is written. `drawing` is the label, `beside` the details beside it
/// where it has them, and `allowed` says of which labels there is such a thing.
pub trait Shown {
    ghost allowed: { Label → DrawOptions → Type 0 };

    ghost drawing: { Label → DrawOptions → Self → List ℕ };

    ghost beside: { Self → Option (List ℕ) };

    /// Returns what the label shows of a symbol. It fails as `symbol_label` does.
    fn of_symbol(
        alloc: Global,
        label: &Label,
        options: &DrawOptions,
        said: Said<'_>,
        symbol: Symbol,
    ) -> Result<Self, Stop>
        requires { allowed label.now options.now }
        ensures shown { IfOk result (λ shown. ShowsSymbol label.now options.now
            (option_copied said.entry.content) (option_copied said.entry.caption) symbol
            (drawing label.now options.now shown)) }
        ensures beside { IfOk result (λ shown. IfSome (beside shown)
            (AreBeside label.now options.now (option_copied said.entry.content) symbol)) }
        ensures refusal { IfErr result
            (IsDetailsStop label.now (option_copied said.entry.content)) };
}

/// The bytes of the label.
impl Shown for Vec<u8> {
    ghost allowed = { λ label options. ⊤ };

    ghost drawing = { λ label options bytes. bytes.items };

    ghost beside = { λ bytes. None };

    fn of_symbol(
        alloc: Global,
        label: &Label,
        options: &DrawOptions,
        said: Said<'_>,
        symbol: Symbol,
    ) -> Result<Vec<u8>, Stop> {
        symbol_label(alloc, label, options, said, &symbol)
    }
}

/// The bytes of a label, and the details of its symbol beside it: none, unless they are asked for.
#[derive(Drop)]
pub struct WithDetails {
    pub drawing: Vec<u8>,
    pub details: Vec<u8>,
}

/// The bytes of the label, and the details of the symbol that they show.
impl Shown for WithDetails {
    ghost allowed = { λ label options. ⊤ };

    ghost drawing = { λ label options both. both.drawing.items };

    ghost beside = { λ both. Some both.details.items };

    fn of_symbol(
        alloc: Global,
        label: &Label,
        options: &DrawOptions,
        said: Said<'_>,
        symbol: Symbol,
    ) -> Result<WithDetails, Stop> {
        let drawing = symbol_label(alloc, label, options, said, &symbol)?;
        let details = details_beside(alloc, label, options, said.content, &symbol)?;
        Ok(WithDetails { drawing, details })
    }
}

/// The symbol of a label that is a page, and the text below it, if there is one.
#[derive(Drop)]
pub struct PageSymbol {
    pub symbol: Symbol,
    pub caption: Option<String>,
}

/// The label is the document of its page alone.
impl Shown for PageSymbol {
    ghost allowed = { λ label options. are_pages label options ≡ true };

    ghost drawing = { λ label options page.
        page_alone (option_copied options.title) (page_of_symbol label options
        (option_map string_bytes page.caption) page.symbol) };

    ghost beside = { λ page. None };

    fn of_symbol(
        alloc: Global,
        _label: &Label,
        _options: &DrawOptions,
        said: Said<'_>,
        symbol: Symbol,
    ) -> Result<PageSymbol, Stop> {
        let caption = text_copied(alloc, said.caption)?;
        Ok(PageSymbol { symbol, caption })
    }
}

/// Whether labels are pages.
pub fn are_pages(label: &Label, options: &DrawOptions) -> bool
    ensures { result ≡ are_pages label.now options.now }
{
    options.format == Format::Pdf && label.details != Details::Alone && !label.colored
}

/// Returns a copy of a text, if there is one. It fails only for lack of memory.
fn text_copied(alloc: Global, text: Option<&str>) -> Result<Option<String>, AllocError>
    ensures { IfOk result (λ copy. option_map string_bytes copy ≡ option_copied text.entry) }
{
    match text {
        Some(text) => Ok(Some(String::from_str(alloc, text)?)),
        None => Ok(None),
    }
}

/// Returns the next page of a document, which shows a symbol as the label says, with the text below
/// it. It fails as `PdfPages::page` does.
pub fn page_drawn(
    alloc: Global,
    label: &Label,
    options: &DrawOptions,
    page: &PageSymbol,
    pages: &mut PdfPages,
) -> Result<Vec<u8>, PdfError>
    ensures page { IfOk result (λ bytes. bytes.items
        ≡ next_page pages.old (page_shown label.now options.now page.now)) }
    ensures after { OnOk result
        (pages.new ≡ after_page pages.old (page_shown label.now options.now page.now)) }
    ensures no_room { result ≡ Err PdfError.TooLong →
        MAX_PDF < (after_page pages.old (page_shown label.now options.now page.now)).size }
{
    let options = page_options(options, page);
    page_turned(alloc, &page.symbol, label.turn, &options, pages)
}

/// Returns the options of a page, with the text below its symbol, if there is one.
fn page_options<'a>(options: &DrawOptions<'a>, page: &'a PageSymbol) -> DrawOptions<'a>
    ensures { IsCaptioned options.now (option_map string_bytes page.now.caption) result }
{
    captioned(options, text_in(&page.caption))
}
