//! The options of a picture in a format, made of settings and tested once.
ghost use Rattle.std.specs.Prelude.{◌≡◌, ◌≤◌, ◌&&◌, ◌==◌};
ghost use Rattle.std.specs.Prelude.{true, false, Some, None, OnOk, OnErr, IfErr};
ghost use Rattle.std.specs.List.{list_all};
ghost use Rattle.std.specs.Option.{ForSome, option_copied};
ghost use Rattle.picture_settings.specs.Settings.{allows, allows_title, allows_position};
ghost use Rattle.picture_settings.specs.Settings.{allows_caption, is_caption, is_in_lines, is_newline};
ghost use Rattle.picture_settings.specs.Settings.{first_failed, has_room, printer_tests};
ghost use Rattle.picture_settings.specs.Settings.{allows_colors, color_tests};
ghost use Rattle.picture_settings.specs.Formats.{has_caption, has_copies, has_feed, has_title};
ghost use Rattle.picture_settings.specs.declared.bounds.TheConstants.{MIN_SCALE, MAX_SCALE};
ghost use Rattle.picture_settings.specs.declared.bounds.TheConstants.{MAX_QUIET, MIN_MODULE_UM};
ghost use Rattle.picture_settings.specs.declared.bounds.TheConstants.{MAX_MODULE_UM, MIN_DPI_TENTHS};
ghost use Rattle.picture_settings.specs.declared.bounds.TheConstants.{MAX_DPI_TENTHS, MAX_AT, MIN_COPIES};
ghost use Rattle.picture_settings.specs.declared.bounds.TheConstants.{MAX_COPIES, MAX_FEED};

use crate::bounds::{
    MAX_AT, MAX_COPIES, MAX_DPI_TENTHS, MAX_FEED, MAX_MODULE_UM, MAX_PDF_TITLE, MAX_PNG_TITLE,
    MAX_QUIET, MAX_SCALE, MIN_COPIES, MIN_DPI_TENTHS, MIN_MODULE_UM, MIN_SCALE, QUIET,
};
use crate::colors::Colors;
use crate::format::Format;
use crate::postscript::is_short;
use crate::settings::{Setting, Settings};
use crate::xml::is_xml_text;
use std::alloc::Global;

/// A format, with all options of a picture in it. Those that the format does not have are at
/// their defaults.
#[derive(Clone, Copy, Debug, PartialEq, Eq)]
pub struct DrawOptions<'a> {
    pub format: Format,
    /// The width of a module in pixels.
    pub scale: usize,
    /// The width of the quiet zone in modules.
    pub quiet: usize,
    /// The width of a module in micrometres.
    pub module_um: Option<usize>,
    /// The number of pixels in ten inches.
    pub dpi_tenths: Option<usize>,
    /// Whether the light pixels are filled.
    pub inverted: bool,
    /// The title.
    pub title: Option<&'a str>,
    /// The text below the picture.
    pub caption: Option<&'a str>,
    /// The position of the upper left corner in dots.
    pub at: (usize, usize),
    /// The number of labels that the printer prints.
    pub copies: Option<usize>,
    /// Whether the data are compressed.
    pub compressed: bool,
    /// The number of lines that the paper is moved after the picture.
    pub feed: Option<usize>,
    /// Whether the paper is cut after the picture.
    pub cut: bool,
    /// The colours of the dark modules and of the ground.
    pub colors: Colors,
    ghost scaled: { MIN_SCALE ≤ scale },
    ghost small_scale: { scale ≤ MAX_SCALE },
    ghost small_zone: { quiet ≤ MAX_QUIET },
    ghost some_module: { ForSome module_um (λ n. MIN_MODULE_UM ≤ n) },
    ghost small_module: { ForSome module_um (λ n. n ≤ MAX_MODULE_UM) },
    ghost some_dots: { ForSome dpi_tenths (λ n. MIN_DPI_TENTHS ≤ n) },
    ghost few_dots: { ForSome dpi_tenths (λ n. n ≤ MAX_DPI_TENTHS) },
    ghost far_right: { at.0 ≤ MAX_AT },
    ghost far_down: { at.1 ≤ MAX_AT },
    ghost some_copies: { ForSome copies (λ n. MIN_COPIES ≤ n) },
    ghost few_copies: { ForSome copies (λ n. n ≤ MAX_COPIES) },
    ghost few_lines: { ForSome feed (λ n. n ≤ MAX_FEED) },
}

impl<'a> DrawOptions<'a> {
    ghost use Rattle.std.specs.Prelude.{Some, None, IfOk, IfErr, OnOk};
    ghost use Rattle.picture_settings.specs.DrawOptions.{IsMadeOf};
    ghost use Rattle.picture_settings.specs.Settings.{invalid_setting};

    /// Returns the options of a format that these settings ask for. Nothing is allocated.
    ///
    /// # Errors
    ///
    /// It fails with the first setting, in the order of `Settings`, that is out of its bounds, or
    /// that the format does not have.
    pub fn new(
        _alloc: Global,
        format: Format,
        settings: &Settings<'a>,
    ) -> Result<DrawOptions<'a>, Setting>
        ensures made { IfOk result (λ options. IsMadeOf format settings.now options) }
        ensures valid { OnOk result (invalid_setting format settings.now ≡ None) }
        ensures refusal { IfErr result
            (λ setting. invalid_setting format settings.now ≡ Some setting) }
    {
        let (scale, quiet) = (settings.scale, settings.quiet);
        let (module_um, dpi) = (settings.module_um, settings.dpi_tenths);
        let (inverted, title, at) = (settings.inverted, settings.title, settings.at);
        let lone_dpi = format.has_dots() && module_um.is_none();
        require(allows(true, MIN_SCALE, MAX_SCALE, scale), Setting::Scale)?;
        require(allows(true, 0, MAX_QUIET, quiet), Setting::Quiet)?;
        let millimetres = format.has_millimetres();
        let sized = allows(millimetres, MIN_MODULE_UM, MAX_MODULE_UM, module_um);
        require(sized, Setting::ModuleMm)?;
        let dotted = allows(lone_dpi, MIN_DPI_TENTHS, MAX_DPI_TENTHS, dpi);
        require(dotted, Setting::Dpi)?;
        require(!inverted || format.can_be_inverted(), Setting::Inverted)?;
        require(allows_title(format, title), Setting::Title)?;
        require(allows_caption(format, settings.caption), Setting::Caption)?;
        require(allows_position(format.has_position(), at), Setting::At)?;
        require_printable(format, settings)?;
        require_colored(format, settings)?;
        Ok(DrawOptions {
            format,
            scale: scale.unwrap_or(format.default_scale()),
            quiet: quiet.unwrap_or(QUIET),
            module_um,
            dpi_tenths: dpi,
            inverted,
            title,
            caption: settings.caption,
            at: at.unwrap_or((0, 0)),
            copies: settings.copies,
            compressed: settings.compressed,
            feed: settings.feed,
            cut: settings.cut,
            colors: settings.colors,
        })
    }
}

/// Fails with the first setting for printers that is not valid.
fn require_printable(format: Format, settings: &Settings) -> Result<(), Setting>
    ensures valid { OnOk result (first_failed (printer_tests format settings.now) ≡ None) }
    ensures copies { OnOk result
        (allows (has_copies format) MIN_COPIES MAX_COPIES settings.now.copies ≡ true) }
    ensures feed { OnOk result (allows (has_feed format) 0 MAX_FEED settings.now.feed ≡ true) }
    ensures refusal { IfErr result (λ setting.
        first_failed (printer_tests format settings.now) ≡ Some setting) }
{
    let copies = allows(format.has_copies(), MIN_COPIES, MAX_COPIES, settings.copies);
    require(copies, Setting::Copies)?;
    require(
        !settings.compressed || format.can_be_compressed(),
        Setting::Compressed,
    )?;
    require(
        allows(format.has_feed(), 0, MAX_FEED, settings.feed),
        Setting::Feed,
    )?;
    require(!settings.cut || format.can_be_cut(), Setting::Cut)
}

/// Fails with the first setting for colours that is not valid.
fn require_colored(format: Format, settings: &Settings) -> Result<(), Setting>
    ensures valid { OnOk result (first_failed (color_tests format settings.now) ≡ None) }
    ensures refusal { IfErr result (λ setting.
        first_failed (color_tests format settings.now) ≡ Some setting) }
{
    let colors = settings.colors;
    let allowed = allows_colors(format, settings);
    let dark_allowed = if colors.light.is_some() {
        format.has_colors()
    } else {
        allowed
    };
    require(colors.dark.is_none() || dark_allowed, Setting::Dark)?;
    require(colors.light.is_none() || allowed, Setting::Light)?;
    require(
        !settings.any_colors || format.has_colors(),
        Setting::AnyColors,
    )
}

/// Whether colours may be given, and these.
fn allows_colors(format: Format, settings: &Settings) -> bool
    ensures { result ≡ allows_colors format settings.now }
{
    format.has_colors() && (settings.any_colors || settings.colors.are_readable())
}

/// Fails with a setting that is not valid.
fn require(valid: bool, setting: Setting) -> Result<(), Setting>
    ensures valid { OnOk result (valid ≡ true) }
    ensures invalid { OnErr result (valid ≡ false) }
    ensures setting { IfErr result (λ failed. failed ≡ setting) }
{
    if valid { Ok(()) } else { Err(setting) }
}

/// Whether a number may be given: it is within its bounds, and the format has it.
fn allows(has: bool, least: usize, most: usize, number: Option<usize>) -> bool
    ensures { result ≡ allows has least most number }
{
    match number {
        Some(n) => has && least <= n && n <= most,
        None => true,
    }
}

/// Whether a title may be given: the format has one, XML allows its characters, and there is room
/// for it.
fn allows_title(format: Format, title: Option<&str>) -> bool
    ensures { result ≡ (allows_title (has_title format) (option_copied title.entry)
        && has_room format (option_copied title.entry)) }
{
    match title {
        Some(title) => format.has_title() && is_xml_text(title) && has_room(format, title),
        None => true,
    }
}

/// Whether the format has room for a title.
fn has_room(format: Format, title: &str) -> bool
    ensures { result ≡ has_room format (Some title.now) }
{
    match format {
        Format::Png => title.len() <= MAX_PNG_TITLE,
        Format::Eps => is_short(title),
        Format::Pdf => title.len() <= MAX_PDF_TITLE,
        _ => true,
    }
}

/// Whether a text below the picture may be given: the format has one, and it has a character that
/// is printed, and none but these and newlines.
fn allows_caption(format: Format, caption: Option<&str>) -> bool
    ensures { result ≡ allows_caption (has_caption format) (option_copied caption.entry) }
{
    match caption {
        Some(text) => format.has_caption() && is_caption(text.as_bytes()),
        None => true,
    }
}

/// Whether there is a character that is printed, and none but these and newlines.
fn is_caption(text: &[u8]) -> bool
    ensures { result ≡ is_caption text.now }
{
    !are_newlines(text) && are_in_lines(text)
}

/// Whether all characters are printed, or newlines.
fn are_in_lines(text: &[u8]) -> bool
    ensures { result ≡ list_all is_in_lines text.now }
{
    text.iter()
        .all(|c| matches!(*c, b' '..=b'~') || *c == b'\n')
}

/// Whether all characters are newlines.
fn are_newlines(text: &[u8]) -> bool
    ensures { result ≡ list_all is_newline text.now }
{
    text.iter().all(|c| *c == b'\n')
}

/// Whether a position may be given: it is within its bounds, and the format has one.
fn allows_position(has: bool, at: Option<(usize, usize)>) -> bool
    ensures { result ≡ allows_position has at }
{
    match at {
        Some(at) => has && at.0 <= MAX_AT && at.1 <= MAX_AT,
        None => true,
    }
}
