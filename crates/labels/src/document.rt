//! From the lines of an input to the pages of a document.
//!
//! 1. Begin a document (`start_document`), of which nothing is written before there is a page.
//! 2. Write the page of each label (`put_page`).
//! 3. Write what comes after the last (`write_end`).
ghost use Rattle.std.specs.Prelude.{◌≡◌, ◌≢◌, ◌⊎◌, ◌<◌, ◌++◌, [], true, IsTrue, IsFalse};
ghost use Rattle.std.specs.Prelude.{IfOk, IfErr, IsOk, OnOk, is_ok};
ghost use Rattle.std.specs.Option.{option_copied};
ghost use Rattle.programs.specs.Devices.{input, output, Writes};
ghost use Rattle.programs.specs.declared.Fault.TheVariants.{Symbol as SymbolFault, Write};
ghost use Rattle.qrcode_core.specs.declared.types.errors.QrError.TheVariants.{OutOfMemory};
ghost use Rattle.qrcode_render.specs.PdfPagesWritten.{after_page, next_page, pdf_end};
ghost use Rattle.picture_settings.specs.declared.bounds.TheConstants.{MAX_PDF};
ghost use Rattle.labels.specs.Documents.{IsNextPage, IsNoPage, IsWrittenSoFar, document};
ghost use Rattle.labels.specs.Lines.{IsLinesOutcome};
ghost use Rattle.single_label.specs.Pages.{are_pages};
ghost use Rattle.single_label.specs.PageSymbols.{page_shown};
ghost use Rattle.labels.specs.Reports.{Reports};
ghost use Rattle.labels.specs.Stops.{numbered_line};
ghost use Rattle.single_label.specs.declared.stop.Stop.TheVariants.{Fault as FaultStop};
ghost use Rattle.single_label.specs.declared.stop.Stop.TheVariants.{TooManyPages};

use crate::lines::next_made;
use crate::report::report_left_out;
use crate::stop::LineStop;
use label_words::Label;
use programs::{Fault, Sink, Source, write_all};
use qrcode_core::types::QrError;
use qrcode_render::{DrawOptions, PdfError, PdfPages};
use single_label::{PageSymbol, Stop, page_drawn};
use std::alloc::{AllocError, Global};

/// A document that is written page by page.
#[derive(Drop)]
pub struct Document {
    pub pages: PdfPages,
    /// What is to be written before the next page.
    pub waiting: Vec<u8>,
}

/// Returns a document without a page. It fails only for lack of memory.
#[tactic(auto, using(crate::proofs::PageLemmas::so_far_start))]
fn start_document(alloc: Global, options: &DrawOptions) -> Result<Document, AllocError>
    ensures { IfOk result (λ begun. IsWrittenSoFar (option_copied options.now.title) []
        begun.pages begun.waiting.items) }
{
    let (pages, waiting) = PdfPages::start(alloc, options.title)?;
    Ok(Document { pages, waiting })
}

/// Adds the page of a symbol to what is to be written. It fails with `TooManyPages` where the
/// document has no room for it, and with `OutOfMemory`.
fn add_page(
    alloc: Global,
    label: &Label,
    options: &DrawOptions,
    page: &PageSymbol,
    begun: &mut Document,
) -> Result<(), Stop>
    ensures page { OnOk result (begun.new.waiting.items ≡ begun.old.waiting.items
        ++ next_page begun.old.pages (page_shown label.now options.now page.now)) }
    ensures after { OnOk result (begun.new.pages
        ≡ after_page begun.old.pages (page_shown label.now options.now page.now)) }
    ensures refusal { IfErr result (λ stop. (stop ≡ FaultStop (SymbolFault OutOfMemory))
        ⊎ ((stop ≡ TooManyPages) × (MAX_PDF < (after_page begun.old.pages
        (page_shown label.now options.now page.now)).size))) }
{
    match page_drawn(alloc, label, options, page, &mut begun.pages) {
        Ok(bytes) => Ok(begun.waiting.extend_from_slice(&bytes)?),
        Err(PdfError::TooLong) => Err(Stop::TooManyPages),
        Err(PdfError::OutOfMemory) => Err(Stop::Fault(Fault::Symbol(QrError::OutOfMemory))),
    }
}

/// Writes the page of a symbol, and what is to be written before it, and flushes. It fails as
/// `add_page` does, with nothing written, and with `Write`.
fn put_page<W: Sink>(
    alloc: Global,
    label: &Label,
    options: &DrawOptions,
    page: &PageSymbol,
    begun: &mut Document,
    writer: &mut W,
) -> Result<(), Stop>
    requires { IsFalse (W.state writer.old).failed }
    ensures sound { OnOk result (IsFalse (W.state writer.new).failed) }
    ensures page { OnOk result (IsNextPage (W.state writer.old) (W.state writer.new)
        (page_shown label.now options.now page.now)
        begun.old.pages begun.old.waiting.items begun.new.pages begun.new.waiting.items) }
    ensures broken { IfErr result (IsNoPage (W.state writer.old) (W.state writer.new)
        (page_shown label.now options.now page.now) begun.old.pages
        begun.old.waiting.items) }
{
    match add_page(alloc, label, options, page, begun) {
        Ok(()) => {}
        Err(stop) => return Err(stop),
    }
    if write_all(writer, &begun.waiting).is_err() {
        return Err(Stop::Fault(Fault::Write));
    }
    begun.waiting.clear();
    Ok(())
}

/// Writes what comes after the last page, if there is a page, and flushes. It fails with `Write`,
/// and for lack of memory, with nothing written.
fn write_end<W: Sink>(alloc: Global, begun: &Document, writer: &mut W) -> Result<(), Stop>
    requires { IsFalse (W.state writer.old).failed }
    ensures sound { OnOk result (IsFalse (W.state writer.new).failed) }
    ensures none { begun.now.waiting.items ≢ [] →
        OnOk result (W.state writer.new ≡ W.state writer.old) }
    ensures written { begun.now.waiting.items ≡ [] → OnOk result
        (Writes (output (W.state writer.old) (W.state writer.new)) (pdf_end begun.now.pages)) }
    ensures flushed { begun.now.waiting.items ≡ [] → OnOk result
        ((W.state writer.new).flushed ≡ (W.state writer.new).written) }
    ensures broken { IfErr result (λ stop.
        ((stop ≡ FaultStop Write) × IsTrue (W.state writer.new).failed
        × (begun.now.waiting.items ≡ [])
        × Writes (output (W.state writer.old) (W.state writer.new)) (pdf_end begun.now.pages))
        ⊎ ((stop ≡ FaultStop (SymbolFault OutOfMemory))
        × (W.state writer.new ≡ W.state writer.old))) }
{
    if !begun.waiting.is_empty() {
        return Ok(());
    }
    let end = begun.pages.end(alloc)?;
    if write_all(writer, &end).is_err() {
        return Err(Stop::Fault(Fault::Write));
    }
    Ok(())
}

/// Writes the page of the label of the line of this number, as `put_page` does, or reports why the
/// line is left out. It returns whether there is a label.
fn write_page<W: Sink, E: Sink>(
    alloc: Global,
    label: &Label,
    options: &DrawOptions,
    made: Result<PageSymbol, Stop>,
    number: usize,
    begun: &mut Document,
    writer: &mut W,
    errors: &mut E,
) -> Result<bool, LineStop>
    requires { IsFalse (W.state writer.old).failed }
    ensures drawn { IfOk result (λ is_drawn. is_drawn ≡ is_ok made) }
    ensures sound { OnOk result (IsFalse (W.state writer.new).failed) }
    ensures page { OnOk result (IfOk made (λ page. IsNextPage (W.state writer.old)
        (W.state writer.new) (page_shown label.now options.now page) begun.old.pages
        begun.old.waiting.items begun.new.pages begun.new.waiting.items)) }
    ensures same { IfOk made (λ page. E.state errors.new ≡ E.state errors.old) }
    ensures left_out { IfErr made (λ stop. (W.state writer.new ≡ W.state writer.old)
        × ((begun.new.pages ≡ begun.old.pages)
        × (begun.new.waiting.items ≡ begun.old.waiting.items))
        × Reports (E.state errors.old) (E.state errors.new)
        (numbered_line (record { number = number; stop = stop }))) }
    ensures broken { IfErr result (λ at. (at.number ≡ number) × IsOk made
        × IfOk made (λ page. IsNoPage (W.state writer.old) (W.state writer.new)
        (page_shown label.now options.now page) begun.old.pages begun.old.waiting.items
        at.stop)) }
{
    match made {
        Ok(page) => match put_page(alloc, label, options, &page, begun, writer) {
            Ok(()) => Ok(true),
            Err(stop) => Err(LineStop { number, stop }),
        },
        Err(stop) => {
            report_left_out(errors, LineStop { number, stop });
            Ok(false)
        }
    }
}

/// Writes the pages of the labels of all lines in their order, and flushes after each, and what
/// comes after the last. Nothing is written where there is no page. It returns and fails as
/// `draw_lines` does, with the number of a line after the last where writing failed at the end, and
/// with `TooManyPages`.
pub fn draw_pages<R: Source, W: Sink, E: Sink>(
    alloc: Global,
    label: &Label,
    options: &DrawOptions,
    reader: &mut R,
    writer: &mut W,
    errors: &mut E,
) -> Result<bool, LineStop>
    requires pages { are_pages label.now options.now ≡ true }
    requires reader_sound { IsFalse (R.state reader.old).failed }
    requires writer_sound { IsFalse (W.state writer.old).failed }
    ensures { IsLinesOutcome label.now options.now
        (input (R.state reader.old) (R.state reader.new))
        (document (option_copied options.now.title)
        (output (W.state writer.old) (W.state writer.new)) label.now.first
        (output (E.state errors.old) (E.state errors.new))) result }
{
    let memory = Stop::Fault(Fault::Symbol(QrError::OutOfMemory));
    let Ok(mut begun) = start_document(alloc, options) else {
        return Err(LineStop {
            number: label.first,
            stop: memory,
        });
    };
    let mut line = Vec::new(alloc);
    let mut every = true;
    'lines: for number in label.first..usize::MAX {
        match next_made::<PageSymbol, R>(alloc, label, options, &mut line, reader) {
            Ok(None) => match write_end(alloc, &begun, writer) {
                Ok(()) => return Ok(every),
                Err(stop) => return Err(LineStop { number, stop }),
            },
            Err(stop) => return Err(LineStop { number, stop }),
            Ok(Some(made)) => {
                match write_page(
                    alloc, label, options, made, number, &mut begun, writer, errors,
                ) {
                    Ok(is_drawn) => every &= is_drawn,
                    Err(at) => return Err(at),
                }
            }
        }
    }
    Err(LineStop {
        number: usize::MAX,
        stop: memory,
    })
}
