//! The bounds and the defaults of pictures and their options.

/// The least width of a module in pixels.
pub const MIN_SCALE: usize = 1;

/// The greatest width of a module in pixels.
pub const MAX_SCALE: usize = 64;

/// The greatest width of the quiet zone in modules.
pub const MAX_QUIET: usize = 16;

/// The greatest number of columns and of rows of a grid that is drawn: those of version 40.
pub const MAX_MODULES: usize = 177;

/// The greatest number of columns and of rows with the quiet zone.
pub const MAX_COLUMNS: usize = MAX_MODULES + 2 * MAX_QUIET;

/// The greatest number of lines of the text below a picture: memory holds no more of them.
pub const MAX_LINES: usize = 1 << 30;

/// The greatest size of the characters of that text in hundredths of a module: 2 mm, where a module
/// has the least width.
pub const MAX_LETTERS: usize = 4000;

/// The greatest number of rows with the quiet zone and the text below.
pub const MAX_HIGH: usize = MAX_COLUMNS + (MAX_LINES + 1) * (MAX_LETTERS / 100);

/// The greatest width and height of a picture in pixels.
pub const MAX_PIXELS: usize = MAX_COLUMNS * MAX_SCALE;

/// The greatest number of rows of pixels of a PNG file (ISO/IEC 15948).
pub const MAX_IMAGE_ROWS: usize = (1 << 31) - 1;

/// The greatest number of bytes of a row of pixels.
pub const MAX_ROW: usize = MAX_PIXELS / 8;

/// The greatest number of rows in a raster image of ESC/POS.
pub const BAND_ROWS: usize = 255;

/// The greatest number of bytes in a graphic field of ZPL II.
pub const FIELD_BYTES: usize = 99_999;

/// The default scale of an image.
pub const IMAGE_SCALE: usize = 8;

/// The default scale of text.
pub const TEXT_SCALE: usize = 1;

/// The default width of the quiet zone in modules (ISO/IEC 18004:2006, "Quiet zone").
pub const QUIET: usize = 4;

/// The default width of the quiet zone of a Micro symbol.
pub const MICRO_QUIET: usize = 2;

/// The least width of a module in micrometres.
pub const MIN_MODULE_UM: usize = 50;

/// The greatest width of a module in micrometres.
pub const MAX_MODULE_UM: usize = 10_000;

/// The least number of pixels in ten inches.
pub const MIN_DPI_TENTHS: usize = 500;

/// The greatest number of pixels in ten inches.
pub const MAX_DPI_TENTHS: usize = 24_000;

/// The greatest position of a picture on a label, in dots. The lowest row of the largest picture is
/// then within the 32,000 dots of `^FO`.
pub const MAX_AT: usize = 18_000;

/// The greatest number of bytes of the title of a PNG file. Readers bound the length of a text too:
/// libpng by 8 million bytes.
pub const MAX_PNG_TITLE: usize = 1_000_000;

/// The greatest number of characters that the title takes in the comment `%%Title` of EPS, whose
/// line has at most 255: `laws::strings_are_read` says how they are written.
pub const MAX_PS_TITLE: usize = 244;

/// The greatest number of bytes of the title of a PDF document.
pub const MAX_PDF_TITLE: usize = 1_000_000;

/// The greatest number of bytes of a PDF document up to its last page: the table of its objects has
/// ten digits for where each of them begins.
pub const MAX_PDF: usize = 9_999_999_999;

/// The least number of labels that a printer prints.
pub const MIN_COPIES: usize = 1;

/// The greatest number of labels that a printer prints: that of `^PQ` of ZPL II.
pub const MAX_COPIES: usize = 99_999_999;

/// The greatest number of lines that the paper is moved: that of `ESC d` of ESC/POS.
pub const MAX_FEED: usize = 255;
