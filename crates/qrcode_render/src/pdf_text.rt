//! The objects of a PDF document, and its table and trailer.
ghost use Rattle.std.specs.Prelude.{◌≡◌, ◌<◌, ◌+◌, ◌*◌, ◌/◌, ◌%◌, ◌^◌, ◌++◌, IfOk, OnOk};
ghost use Rattle.std.specs.Prelude.{chars, codes, decimal, flat_map, length};
ghost use Rattle.std.specs.Option.{option_copied};
ghost use Rattle.std.specs.String.{string_bytes};
ghost use Rattle.qrcode_render.specs.Pdf.{hex_unit, information, page_content, page_references};
ghost use Rattle.qrcode_render.specs.Pdf.{page_resources, page_tree};
ghost use Rattle.qrcode_render.specs.Pdf.{stream_content, text_string, utf16_text, utf16_units};
ghost use Rattle.qrcode_render.specs.PdfFile.{object_head, pdf_object, pdf_trailer, table_entry};
ghost use Rattle.qrcode_render.specs.PdfFile.{table_head};
ghost use Rattle.qrcode_render.specs.PdfPages.{page_of};
ghost use Rattle.qrcode_render.specs.PdfPagesWritten.{page_object, page_text, pdf_end, pdf_start};

use crate::pdf_page::Page;
use crate::svg::push_byte;
use std::alloc::{AllocError, Global};

/// The number of bytes before the catalog, which is object 1.
const CATALOG_AT: usize = 15;

/// The number of bytes before the information dictionary, which is object 3.
const INFORMATION_AT: usize = 60;

/// Returns what comes before the first page.
pub(crate) fn start_text(alloc: Global, title: Option<&str>) -> Result<Vec<u8>, AllocError>
    ensures { IfOk result (λ bytes. bytes.items ≡ pdf_start (option_copied title.entry)) }
{
    let mut bytes = Vec::new(alloc);
    bytes.extend_from_slice(b"%PDF-1.4\n%\xE2\xE3\xCF\xD3\n")?;
    push_object(alloc, &mut bytes, 1, "<</Type/Catalog/Pages 2 0 R>>")?;
    let information = information(alloc, title)?;
    push_object(alloc, &mut bytes, 3, &information)?;
    Ok(bytes)
}

/// Returns the information dictionary.
fn information(alloc: Global, title: Option<&str>) -> Result<String, AllocError>
    ensures { IfOk result (λ text.
        string_bytes text ≡ information (option_copied title.entry)) }
{
    match title {
        None => String::from_str(alloc, "<<>>"),
        Some(title) => {
            let text = text_string(alloc, title)?;
            format!(in alloc; "<</Title{text}>>")
        }
    }
}

/// Returns a text as a text string, in UTF-16 by hexadecimal digits.
#[tactic(auto, unfolding(crate::specs::Pdf::text_string))]
fn text_string(alloc: Global, text: &str) -> Result<String, AllocError>
    ensures { IfOk result (λ string. string_bytes string ≡ text_string text.now) }
{
    let mut string = String::from_str(alloc, "<FEFF")?;
    push_characters(&mut string, text)?;
    string.push_str(">")?;
    Ok(string)
}

/// Appends the characters of a text.
#[tactic(auto, using(crate::proofs::PdfTextLemmas::characters))]
fn push_characters(out: &mut String, text: &str) -> Result<(), AllocError>
    ensures { OnOk result
        (string_bytes out.new ≡ string_bytes out.old ++ utf16_text (chars text.now)) }
{
    for c in text.chars() {
        push_character(out, c)?;
    }
    Ok(())
}

/// Appends the units of a character.
fn push_character(out: &mut String, c: char) -> Result<(), AllocError>
    ensures { OnOk result (string_bytes out.new
        ≡ string_bytes out.old ++ flat_map hex_unit (utf16_units c)) }
{
    let code = u32::from(c);
    if code < 0x1_0000 {
        return push_unit(out, code);
    }
    push_unit(out, 0xD800 + (code - 0x1_0000) / 0x400)?;
    push_unit(out, 0xDC00 + (code - 0x1_0000) % 0x400)
}

/// Appends a unit in four hexadecimal digits.
fn push_unit(out: &mut String, unit: u32) -> Result<(), AllocError>
    requires { unit < 65536 }
    ensures { OnOk result (string_bytes out.new ≡ string_bytes out.old ++ hex_unit unit) }
{
    push_byte(out, (unit / 256) as u8)?;
    push_byte(out, (unit % 256) as u8)
}

/// Appends a page and its content stream, which have this number and the next one. It returns the
/// number of bytes of the page's object.
pub(crate) fn push_page(
    alloc: Global,
    bytes: &mut Vec<u8>,
    number: usize,
    page: &Page,
) -> Result<usize, AllocError>
    requires { number < 2 ^ 62 }
    ensures added { OnOk result
        (bytes.new.items ≡ bytes.old.items ++ page_text number (page_of page.now)) }
    ensures first { IfOk result (λ n. n ≡ length (page_object number (page_of page.now))) }
    ensures small { IfOk result (λ n. n < 2 ^ 63) }
{
    let object = page_content(alloc, number, page)?;
    let first = push_object(alloc, bytes, number, &object)?;
    let stream = stream_content(alloc, &page.content)?;
    push_object(alloc, bytes, number + 1, &stream)?;
    Ok(first)
}

/// Appends an object, and returns the number of its bytes.
#[tactic(auto, unfolding(crate::specs::PdfFile::pdf_object))]
fn push_object(
    alloc: Global,
    bytes: &mut Vec<u8>,
    number: usize,
    content: &str,
) -> Result<usize, AllocError>
    ensures added { OnOk result
        (bytes.new.items ≡ bytes.old.items ++ pdf_object number content.now) }
    ensures long { IfOk result (λ n. n ≡ length (pdf_object number content.now)) }
    ensures small { IfOk result (λ n. n < 2 ^ 63) }
{
    let before = bytes.len();
    let head = object_head(alloc, number)?;
    bytes.extend_from_slice(head.as_bytes())?;
    bytes.extend_from_slice(content.as_bytes())?;
    bytes.extend_from_slice(b"\nendobj\n")?;
    Ok(bytes.len() - before)
}

/// Returns the words with which an object begins.
fn object_head(alloc: Global, number: usize) -> Result<String, AllocError>
    ensures { IfOk result (λ text. string_bytes text ≡ object_head number) }
{
    format!(in alloc; "{number} 0 obj\n")
}

/// Returns what the object of a page is.
#[tactic(auto, unfolding(crate::specs::Pdf::page_content))]
fn page_content(alloc: Global, number: usize, page: &Page) -> Result<String, AllocError>
    requires { number < 2 ^ 62 }
    ensures { IfOk result (λ text. string_bytes text ≡ page_content number (page_of page.now)) }
{
    let stream = number + 1;
    let resources = resources(page.has_text);
    let (width, height) = (&page.width, &page.height);
    format!(in alloc;
        "<</Type/Page/Parent 2 0 R{resources}/MediaBox[0 0 {width} {height}]/Contents {stream} 0 R>>"
    )
}

/// Returns the resources of a page of its own.
fn resources(has_text: bool) -> &'static str
    ensures { result.now ≡ page_resources has_text }
{
    if has_text {
        "/Resources<</Font<</F<</Type/Font/Subtype/Type1/BaseFont/Courier\
/Encoding/WinAnsiEncoding>>>>>>"
    } else {
        ""
    }
}

/// Returns what the object of a content stream is.
#[tactic(auto, unfolding(crate::specs::Pdf::stream_content))]
fn stream_content(alloc: Global, content: &str) -> Result<String, AllocError>
    ensures { IfOk result (λ text. string_bytes text ≡ stream_content content.now) }
{
    let length = content.len();
    format!(in alloc; "<</Length {length}>>\nstream\n{content}\nendstream")
}

/// Appends what comes after the last page: the page tree, the table and the trailer. `size` is the
/// number of bytes up to there, and `offsets` has where each object from 4 on begins.
pub(crate) fn push_end(
    alloc: Global,
    bytes: &mut Vec<u8>,
    size: usize,
    offsets: &[usize],
) -> Result<(), AllocError>
    requires { size < 2 ^ 63 }
    ensures { OnOk result (bytes.new.items ≡ bytes.old.items
        ++ pdf_end (record { size = size; offsets = offsets.now })) }
{
    let objects = offsets.len() + 4;
    let tree = page_tree(alloc, offsets.len() / 2)?;
    let length = push_object(alloc, bytes, 2, &tree)?;
    let head = table_head(alloc, objects)?;
    bytes.extend_from_slice(head.as_bytes())?;
    bytes.extend_from_slice(&table_entry(CATALOG_AT))?;
    bytes.extend_from_slice(&table_entry(size))?;
    bytes.extend_from_slice(&table_entry(INFORMATION_AT))?;
    push_entries(bytes, offsets)?;
    let trailer = trailer(alloc, objects, size + length)?;
    bytes.extend_from_slice(trailer.as_bytes())?;
    Ok(())
}

/// Returns the page tree.
#[tactic(auto, unfolding(crate::specs::Pdf::page_tree))]
fn page_tree(alloc: Global, count: usize) -> Result<String, AllocError>
    requires { count < 2 ^ 62 }
    ensures { IfOk result (λ text. string_bytes text ≡ page_tree count) }
{
    let mut text = String::from_str(alloc, "<</Type/Pages/Resources<<>>/Kids[")?;
    push_references(alloc, &mut text, count)?;
    let end = tree_end(alloc, count)?;
    text.push_str(end.as_str())?;
    Ok(text)
}

/// Appends the references to the pages.
fn push_references(alloc: Global, text: &mut String, count: usize) -> Result<(), AllocError>
    requires { count < 2 ^ 62 }
    ensures { OnOk result
        (string_bytes text.new ≡ string_bytes text.old ++ page_references count) }
{
    for n in 0..count {
        let reference = reference(alloc, 4 + 2 * n)?;
        text.push_str(reference.as_str())?;
    }
    Ok(())
}

/// Returns a reference to an object.
fn reference(alloc: Global, number: usize) -> Result<String, AllocError>
    ensures { IfOk result (λ text. string_bytes text ≡ decimal number ++ codes " 0 R ") }
{
    format!(in alloc; "{number} 0 R ")
}

/// Returns the end of the page tree, after the references.
fn tree_end(alloc: Global, count: usize) -> Result<String, AllocError>
    ensures { IfOk result (λ text. string_bytes text
        ≡ codes "]/Count " ++ (decimal count ++ codes ">>")) }
{
    format!(in alloc; "]/Count {count}>>")
}

/// Returns the head of the table.
#[tactic(auto, unfolding(crate::specs::PdfFile::table_head))]
fn table_head(alloc: Global, size: usize) -> Result<String, AllocError>
    ensures { IfOk result (λ text. string_bytes text ≡ table_head size) }
{
    format!(in alloc; "xref\n0 {size}\n0000000000 65535 f \n")
}

/// Appends the entries of objects.
fn push_entries(bytes: &mut Vec<u8>, offsets: &[usize]) -> Result<(), AllocError>
    ensures { OnOk result (bytes.new.items ≡ bytes.old.items
        ++ flat_map table_entry offsets.now) }
{
    for i in 0..offsets.len() {
        bytes.extend_from_slice(&table_entry(offsets[i]))?;
    }
    Ok(())
}

/// Returns the entry of an object, by where it begins.
#[tactic(auto, unfolding(crate::specs::PdfFile::table_entry, crate::specs::PdfFile::ten_digits))]
fn table_entry(offset: usize) -> [u8; 20]
    ensures { result ≡ table_entry offset }
{
    [
        digit(offset, 1_000_000_000),
        digit(offset, 100_000_000),
        digit(offset, 10_000_000),
        digit(offset, 1_000_000),
        digit(offset, 100_000),
        digit(offset, 10_000),
        digit(offset, 1_000),
        digit(offset, 100),
        digit(offset, 10),
        digit(offset, 1),
        b' ',
        b'0',
        b'0',
        b'0',
        b'0',
        b'0',
        b' ',
        b'n',
        b' ',
        b'\n',
    ]
}

/// Returns the digit of a number that counts this unit.
fn digit(n: usize, unit: usize) -> u8
    requires { 0 < unit }
    ensures { result ≡ 48 + n / unit % 10 }
{
    b'0' + (n / unit % 10) as u8
}

/// Returns the trailer.
#[tactic(auto, unfolding(crate::specs::PdfFile::pdf_trailer))]
fn trailer(alloc: Global, size: usize, start: usize) -> Result<String, AllocError>
    ensures { IfOk result (λ text. string_bytes text ≡ pdf_trailer size start) }
{
    format!(in alloc;
        "trailer\n<</Size {size}/Root 1 0 R/Info 3 0 R>>\nstartxref\n{start}\n%%EOF\n"
    )
}
