//! Pictures as documents of PDF (ISO 32000-1, PDF 1.4), of one page that is as large as
//! the picture.
ghost use Rattle.std.specs.Prelude.{◌≡◌, ◌≤◌, [], ◌∷◌, None, IfOk};
ghost use Rattle.std.specs.Option.{ForSome, option_copied};
ghost use Rattle.picture_settings.specs.declared.bounds.TheConstants.{MAX_MODULE_UM};
ghost use Rattle.picture_settings.specs.Colors.{no_colors};
ghost use Rattle.grid_pictures.specs.Picture.{shown};
ghost use Rattle.qrcode_render.specs.Pdf.{captioned_page, pdf_document, pdf_page};

use crate::caption::Texts;
use crate::pdf_page::draw_page;
use crate::pdf_text::{push_end, push_page, start_text};
use grid_pictures::picture::Picture;
use picture_settings::colors::{Colors, NO_COLORS};
use std::alloc::{AllocError, Global};

/// Returns the picture as a PDF document of one page: a light background, and one path with a
/// rectangle for each run of dark modules in a row. A module is `scale` points wide, or has the
/// width in micrometres that is given. It fails only for lack of memory.
pub fn pdf(
    alloc: Global,
    picture: &Picture,
    module_um: Option<usize>,
) -> Result<Vec<u8>, AllocError>
    requires { ForSome module_um (λ n. n ≤ MAX_MODULE_UM) }
    ensures { IfOk result (λ bytes. bytes.items
        ≡ pdf_document None (pdf_page module_um no_colors (shown picture.now) ∷ [])) }
{
    pdf_document(alloc, picture, module_um, None, NO_COLORS)
}

/// Returns the picture as a PDF document of one page, with the width of a module in micrometres,
/// with a title and with colours, if they are given. A transparent ground is no background. It
/// fails only for lack of memory.
pub fn pdf_document(
    alloc: Global,
    picture: &Picture,
    module_um: Option<usize>,
    title: Option<&str>,
    colors: Colors,
) -> Result<Vec<u8>, AllocError>
    requires { ForSome module_um (λ n. n ≤ MAX_MODULE_UM) }
    ensures { IfOk result (λ bytes. bytes.items ≡ pdf_document (option_copied title.entry)
        (pdf_page module_um colors (shown picture.now) ∷ [])) }
{
    let texts = Texts {
        title,
        caption: None,
    };
    pdf_captioned(alloc, picture, module_um, texts, colors)
}

/// Returns the picture as `pdf_document` has it, with a text below it, in rows of its own, if it is
/// given. It fails only for lack of memory.
pub fn pdf_captioned(
    alloc: Global,
    picture: &Picture,
    module_um: Option<usize>,
    texts: Texts,
    colors: Colors,
) -> Result<Vec<u8>, AllocError>
    requires { ForSome module_um (λ n. n ≤ MAX_MODULE_UM) }
    ensures { let caption = option_copied texts.entry.caption in
        IfOk result (λ bytes. bytes.items ≡ pdf_document (option_copied texts.entry.title)
        (captioned_page module_um caption colors (shown picture.now) ∷ [])) }
{
    let page = draw_page(alloc, picture, module_um, texts.caption, colors)?;
    let mut bytes = start_text(alloc, texts.title)?;
    let start = bytes.len();
    let first = push_page(alloc, &mut bytes, 4, &page)?;
    let size = bytes.len();
    push_end(alloc, &mut bytes, size, &[start, start + first])?;
    Ok(bytes)
}
