//! Laws: facts about pictures. The function has no body; its contract is the fact.
ghost use Rattle.qrcode_render.specs.PdfPagesWritten.{EntriesFindObjects, PagesMakeDocument};
ghost use Rattle.qrcode_render.specs.PdfPagesWritten.{WritesDocument};
ghost use Rattle.qrcode_render.specs.Zpl.{FieldsAreRead};

pub use grid_pictures::laws::rectangles_cover_dark_modules;
pub use picture_settings::laws::{light_is_nearest, strings_are_read, texts_are_read};

/// The start of a PDF document, each of its pages and its end, one after the other, are the
/// document of these pages.
pub fn pages_make_document()
    ensures { PagesMakeDocument }
{}

/// A PDF document that is written page by page has no page at its start, each page that is added
/// is the next one, and with the end it is the document of all pages.
pub fn writes_document()
    ensures { WritesDocument }
{}

/// The objects of a PDF document have the numbers from 1 on, two for each page and three more, and
/// each begins where its entry in the table says.
pub fn entries_find_objects()
    ensures { EntriesFindObjects }
{}

/// A printer finds exactly the bytes of a text below a picture of ZPL, whatever the text.
pub fn fields_are_read()
    ensures { FieldsAreRead }
{}
