//! PDF documents that are written page by page.
//!
//! ```text
//! let (mut pages, start) = PdfPages::start(alloc, options.title)?;
//! out.write_all(&start)?;
//! for symbol in symbols {
//!     out.write_all(&pages.page(alloc, symbol, &options)?)?;
//! }
//! out.write_all(&pages.end(alloc)?)?;
//! ```
//!
//! The start, each page and the end, one after the other, are the document of these pages
//! (`laws::pages_make_document`). Two numbers a page are kept, and nothing else.
ghost use Rattle.std.specs.Prelude.{◌≡◌, ◌<◌, ◌≤◌, ◌^◌, IfOk, OnErr, OnOk, Err};
ghost use Rattle.std.specs.Option.{ForSome, option_copied};
ghost use Rattle.qrcode_core.specs.Symbol.{drawn_grid};
ghost use Rattle.picture_settings.specs.declared.bounds.TheConstants.{MAX_MODULE_UM, MAX_PDF};
ghost use Rattle.grid_pictures.specs.Picture.{shown};
ghost use Rattle.qrcode_render.specs.declared.pdf_pages.PdfError.TheVariants.{OutOfMemory};
ghost use Rattle.qrcode_render.specs.Drawings.{options_page, page_as};
ghost use Rattle.qrcode_render.specs.Pdf.{pdf_page};
ghost use Rattle.qrcode_render.specs.PdfPages.{page_of};
ghost use Rattle.qrcode_render.specs.PdfPagesWritten.{PdfWritten, after_page, next_page, pdf_end};
ghost use Rattle.qrcode_render.specs.PdfPagesWritten.{pdf_start, started};

use crate::drawing::shape;
use crate::pdf_page::{Page, draw_page};
use crate::pdf_text::{push_end, push_page, start_text};
use grid_pictures::picture::Picture;
use picture_settings::bounds::MAX_PDF;
use picture_settings::colors::Colors;
use picture_settings::draw_options::DrawOptions;
use qrcode_core::symbol::Symbol;
use std::alloc::{AllocError, Global};
use std::marker::Model;

/// Why a page is not added to a document.
#[derive(Clone, Copy, Debug, PartialEq, Eq)]
pub enum PdfError {
    /// The document would have more than `bounds::MAX_PDF` bytes up to the end of this page.
    TooLong,
    /// An allocation failed.
    OutOfMemory,
}

impl From<AllocError> for PdfError {
    ghost from_gives = { λ _ e. e ≡ OutOfMemory };

    fn from(_error: AllocError) -> PdfError {
        PdfError::OutOfMemory
    }
}

/// What is written of a document: how many bytes, and where each page and each content
/// stream begins.
#[derive(Drop)]
pub struct PdfPages {
    size: usize,
    offsets: Vec<usize>,
}

impl Model for PdfPages {
    ghost Value = { PdfWritten };

    ghost view = { λ p. record { size = p.size; offsets = p.offsets.items } };

    ghost invariant = { λ p. p.size < 2 ^ 63 };
}

impl PdfPages {
    /// Returns a document without a page yet, with a title if it is given, and what comes before
    /// its first page. It fails only for lack of memory.
    pub fn start(alloc: Global, title: Option<&str>) -> Result<(PdfPages, Vec<u8>), AllocError>
        ensures empty { IfOk result (λ made. made.0 ≡ started (option_copied title.entry)) }
        ensures start { IfOk result (λ made.
            made.1.items ≡ pdf_start (option_copied title.entry)) }
    {
        let bytes = start_text(alloc, title)?;
        let pages = PdfPages {
            size: bytes.len(),
            offsets: Vec::new(alloc),
        };
        Ok((pages, bytes))
    }

    /// Returns the page of a symbol, which is the next one, as the options of `Format::Pdf` say.
    /// The title of the options is not looked at: it is that of `start`.
    ///
    /// # Errors
    ///
    /// It fails with `TooLong` if the document would then have more than `bounds::MAX_PDF` bytes up
    /// to its last page, which is known once the page is drawn; or with `OutOfMemory`. The document
    /// is then as it was.
    pub fn page(
        &mut self,
        alloc: Global,
        symbol: &Symbol,
        options: &DrawOptions,
    ) -> Result<Vec<u8>, PdfError>
        ensures page { IfOk result (λ bytes.
            bytes.items ≡ next_page self.old (page_as options.now (drawn_grid symbol.now))) }
        ensures after { OnOk result
            (self.new ≡ after_page self.old (page_as options.now (drawn_grid symbol.now))) }
        ensures fits { OnOk result (self.new.size ≤ MAX_PDF) }
        ensures no_room { result ≡ Err PdfError.TooLong → MAX_PDF
            < (after_page self.old (page_as options.now (drawn_grid symbol.now))).size }
        ensures unchanged { OnErr result (self.new ≡ self.old) }
    {
        let picture = Picture::of_symbol(symbol, shape(options));
        self.drawn(alloc, &picture, options)
    }

    /// Returns the page of a picture, as `page` does, with the scale and the quiet zone that
    /// it has.
    pub fn drawn(
        &mut self,
        alloc: Global,
        picture: &Picture,
        options: &DrawOptions,
    ) -> Result<Vec<u8>, PdfError>
        ensures page { IfOk result (λ bytes. bytes.items
            ≡ next_page self.old (options_page options.now (shown picture.now))) }
        ensures after { OnOk result (self.new
            ≡ after_page self.old (options_page options.now (shown picture.now))) }
        ensures fits { OnOk result (self.new.size ≤ MAX_PDF) }
        ensures no_room { result ≡ Err PdfError.TooLong → MAX_PDF
            < (after_page self.old (options_page options.now (shown picture.now))).size }
        ensures unchanged { OnErr result (self.new ≡ self.old) }
    {
        let (module_um, caption) = (options.module_um, options.caption);
        let page = draw_page(alloc, picture, module_um, caption, options.colors)?;
        self.add(alloc, &page)
    }

    /// Returns the page of a picture, as `page` does, with the width of a module in micrometres and
    /// with colours, if they are given, and with no text below it.
    pub fn picture(
        &mut self,
        alloc: Global,
        picture: &Picture,
        module_um: Option<usize>,
        colors: Colors,
    ) -> Result<Vec<u8>, PdfError>
        requires { ForSome module_um (λ n. n ≤ MAX_MODULE_UM) }
        ensures page { IfOk result (λ bytes. bytes.items
            ≡ next_page self.old (pdf_page module_um colors (shown picture.now))) }
        ensures after { OnOk result (self.new
            ≡ after_page self.old (pdf_page module_um colors (shown picture.now))) }
        ensures fits { OnOk result (self.new.size ≤ MAX_PDF) }
        ensures no_room { result ≡ Err PdfError.TooLong → MAX_PDF
            < (after_page self.old (pdf_page module_um colors (shown picture.now))).size }
        ensures unchanged { OnErr result (self.new ≡ self.old) }
    {
        let page = draw_page(alloc, picture, module_um, None, colors)?;
        self.add(alloc, &page)
    }

    /// Returns a page that is drawn, which is the next one, as `page` does.
    fn add(&mut self, alloc: Global, page: &Page) -> Result<Vec<u8>, PdfError>
        ensures page { IfOk result (λ bytes.
            bytes.items ≡ next_page self.old (page_of page.now)) }
        ensures after { OnOk result (self.new ≡ after_page self.old (page_of page.now)) }
        ensures fits { OnOk result (self.new.size ≤ MAX_PDF) }
        ensures no_room { result ≡ Err PdfError.TooLong →
            MAX_PDF < (after_page self.old (page_of page.now)).size }
        ensures unchanged { OnErr result (self.new ≡ self.old) }
    {
        let mut bytes = Vec::new(alloc);
        let first = push_page(alloc, &mut bytes, self.offsets.len() + 4, page)?;
        let size = self.size + bytes.len();
        if size > MAX_PDF {
            return Err(PdfError::TooLong);
        }
        self.offsets
            .extend_from_slice(&[self.size, self.size + first])?;
        self.size = size;
        Ok(bytes)
    }

    /// Returns what comes after the last page. It fails only for lack of memory.
    pub fn end(&self, alloc: Global) -> Result<Vec<u8>, AllocError>
        ensures { IfOk result (λ bytes. bytes.items ≡ pdf_end self.now) }
    {
        let mut bytes = Vec::new(alloc);
        push_end(alloc, &mut bytes, self.size, &self.offsets)?;
        Ok(bytes)
    }
}
