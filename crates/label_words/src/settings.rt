//! The settings of a picture that the words ask for.
ghost use Rattle.std.specs.Prelude.{◌≡◌};
ghost use Rattle.label_words.specs.Values.{said};
ghost use Rattle.label_words.specs.CommandOutcomes.{outcome, settings_outcome, wishes_of};
ghost use Rattle.label_words.specs.Commands.{number_asked, module_asked, place_asked, settings_asked};
ghost use Rattle.label_words.specs.Commands.{dpmm_in, dpi_asked};
ghost use Rattle.label_words.specs.Commands.{dark_asked, light_asked, title_asked};
ghost use Rattle.label_words.specs.CommandOutcomes.{title_outcome};
ghost use Rattle.label_words.specs.Commands.{some_found, zoned, dots_asked, in_dots, hri_asked};
ghost use Rattle.label_words.specs.Choices.{is_drawn_in_dots, has_elements};

use crate::command::{Content, is_micro};
use crate::words::{Misuse, Name, Values};
use picture_settings::bounds::{
    MAX_DPI_TENTHS, MAX_MODULE_UM, MAX_SCALE, MICRO_QUIET, MIN_DPI_TENTHS, MIN_MODULE_UM, MIN_SCALE,
};
use picture_settings::colors::{Colors, Ground, Rgb};
use picture_settings::format::Format;
use picture_settings::option_words::{
    number_of_word, position_of_word, tenths_of_word, thousandths_of_word,
};
use picture_settings::settings::Settings;
use picture_settings::xml::is_xml_text;
use programs::has_control;

/// The least number of dots of a millimetre.
pub const MIN_DPMM: usize = 2;

/// The greatest number of dots of a millimetre.
pub const MAX_DPMM: usize = 94;

/// Returns what was found for an option that is given, or `Invalid` with its name.
fn some_found<'a, T>(thing: Option<T>, name: Name) -> Result<Option<T>, Misuse<'a>>
    ensures { outcome result ≡ some_found thing name }
{
    match thing {
        Some(_) => Ok(thing),
        None => Err(Misuse::Invalid(name)),
    }
}

/// Returns the number of an option, if it is given.
fn number<'a>(values: &Values<'a>, name: Name) -> Result<Option<usize>, Misuse<'a>>
    ensures { outcome result ≡ number_asked name (said values.now) }
{
    match values.get(name) {
        Some(word) => some_found(number_of_word(word), name),
        None => Ok(None),
    }
}

/// Returns the width of a module in micrometres, if it is given.
fn module_um<'a>(values: &Values<'a>) -> Result<Option<usize>, Misuse<'a>>
    ensures { outcome result ≡ module_asked (said values.now) }
{
    match values.get(Name::ModuleMm) {
        Some(word) => some_found(thousandths_of_word(word), Name::ModuleMm),
        None => Ok(None),
    }
}

/// Returns the dots of ten inches, of which each is 25.4 mm, by those of a millimetre, 2 to 94.
fn dpi_of_dpmm(word: &str) -> Option<usize>
    ensures { result ≡ dpmm_in word.now }
{
    match number_of_word(word) {
        Some(n) if MIN_DPMM <= n && n <= MAX_DPMM => Some(254 * n),
        _ => None,
    }
}

/// Returns the dots of ten inches, if those of an inch or of a millimetre are given.
fn dpi_tenths<'a>(values: &Values<'a>) -> Result<Option<usize>, Misuse<'a>>
    ensures { outcome result ≡ dpi_asked (said values.now) }
{
    match values.get(Name::Dpmm) {
        Some(_) if values.has(Name::Dpi) => Err(Misuse::Invalid(Name::Dpmm)),
        Some(word) => some_found(dpi_of_dpmm(word), Name::Dpmm),
        None => match values.get(Name::Dpi) {
            Some(word) => some_found(tenths_of_word(word), Name::Dpi),
            None => Ok(None),
        },
    }
}

/// Returns the position on the label, if it is given.
fn place<'a>(values: &Values<'a>) -> Result<Option<(usize, usize)>, Misuse<'a>>
    ensures { outcome result ≡ place_asked (said values.now) }
{
    match values.get(Name::At) {
        Some(word) => some_found(position_of_word(word), Name::At),
        None => Ok(None),
    }
}

/// Returns the title, if it is given: a text without control characters.
fn title<'a>(values: &Values<'a>) -> Result<Option<&'a str>, Misuse<'a>>
    ensures { title_outcome result ≡ title_asked (said values.now) }
{
    match values.get(Name::Title) {
        Some(word) if is_xml_text(word) && !has_control(word) => Ok(Some(word)),
        Some(_) => Err(Misuse::Invalid(Name::Title)),
        None => Ok(None),
    }
}

/// Returns the color of the dark modules, if it is given.
fn dark<'a>(values: &Values<'a>) -> Result<Option<Rgb>, Misuse<'a>>
    ensures { outcome result ≡ dark_asked (said values.now) }
{
    match values.get(Name::Dark) {
        Some(word) => some_found(Rgb::of_word(word), Name::Dark),
        None => Ok(None),
    }
}

/// Returns the ground, if it is given.
fn light<'a>(values: &Values<'a>) -> Result<Option<Ground>, Misuse<'a>>
    ensures { outcome result ≡ light_asked (said values.now) }
{
    match values.get(Name::Light) {
        Some(word) => some_found(Ground::of_word(word), Name::Light),
        None => Ok(None),
    }
}

/// Returns the settings of the picture.
pub fn settings_of<'a>(values: &Values<'a>) -> Result<Settings<'a>, Misuse<'a>>
    ensures { settings_outcome result ≡ settings_asked (said values.now) }
{
    Ok(Settings {
        scale: number(values, Name::Scale)?,
        quiet: number(values, Name::Quiet)?,
        module_um: module_um(values)?,
        dpi_tenths: dpi_tenths(values)?,
        inverted: values.has(Name::Inverted),
        title: title(values)?,
        caption: None,
        at: place(values)?,
        copies: number(values, Name::Copies)?,
        compressed: values.has(Name::Compressed),
        feed: number(values, Name::Feed)?,
        cut: values.has(Name::Cut),
        colors: Colors {
            dark: dark(values)?,
            light: light(values)?,
        },
        any_colors: values.has(Name::AnyColors),
    })
}

/// Sets the quiet zone to that of a Micro symbol for Micro contents, unless `-q` is given.
pub fn zoned<'a>(content: Content, mut settings: Settings<'a>) -> Settings<'a>
    ensures { wishes_of result ≡ zoned content (wishes_of settings.entry) }
{
    if is_micro(content) && settings.quiet.is_none() {
        settings.quiet = Some(MICRO_QUIET);
    }
    settings
}

/// Whether a printer or a screen draws the format in dots.
fn has_dots(format: Format) -> bool
    ensures { result ≡ is_drawn_in_dots format }
{
    match format {
        Format::Png | Format::EscPos | Format::Zpl => true,
        Format::Terminal | Format::Svg | Format::Pbm => false,
        Format::Eps | Format::Pdf => false,
    }
}

/// Returns the number of whole dots that is nearest to the width of a module, by its micrometres
/// and the dots of ten inches, of which each is 25.4 mm.
fn dots_of<'a>(module_um: usize, dpi_tenths: usize) -> Result<usize, Misuse<'a>>
    ensures { outcome result ≡ dots_asked module_um dpi_tenths }
{
    if dpi_tenths < MIN_DPI_TENTHS || MAX_DPI_TENTHS < dpi_tenths {
        return Err(Misuse::Invalid(Name::Dpi));
    }
    if module_um < MIN_MODULE_UM || MAX_MODULE_UM < module_um {
        return Err(Misuse::Invalid(Name::ModuleMm));
    }
    let dots = (module_um * dpi_tenths + 127_000) / 254_000;
    if dots < MIN_SCALE || MAX_SCALE < dots {
        return Err(Misuse::Invalid(Name::ModuleMm));
    }
    Ok(dots)
}

/// Returns the settings with the scale that a size of the module and a resolution give, if both are
/// given and the format is one of dots.
pub fn in_dots<'a>(format: Format, mut settings: Settings<'a>) -> Result<Settings<'a>, Misuse<'a>>
    ensures { settings_outcome result ≡ in_dots format (wishes_of settings.entry) }
{
    let (Some(module_um), Some(dpi_tenths)) = (settings.module_um, settings.dpi_tenths) else {
        return Ok(settings);
    };
    if !has_dots(format) {
        return Ok(settings);
    }
    if settings.scale.is_some() {
        return Err(Misuse::Invalid(Name::Scale));
    }
    settings.scale = Some(dots_of(module_um, dpi_tenths)?);
    settings.module_um = None;
    if !format.has_dots() {
        settings.dpi_tenths = None;
    }
    Ok(settings)
}

/// Whether it is of GS1 elements: them, or the link of them.
fn has_elements(content: Content) -> bool
    ensures { result ≡ has_elements content }
{
    match content {
        Content::Gs1 | Content::UncheckedGs1 | Content::Link => true,
        Content::Auto | Content::Text | Content::Bytes => false,
        Content::BytesWithoutKanji | Content::Micro | Content::MicroBytes => false,
    }
}

/// Returns whether the elements are written below the symbol. The content has to be of elements,
/// and the format to have a text there.
pub fn hri_of<'a>(values: &Values<'a>, content: Content, format: Format) -> Result<bool, Misuse<'a>>
    ensures { outcome result ≡ hri_asked content format (said values.now) }
{
    if values.has(Name::Hri) && !(has_elements(content) && format.has_caption()) {
        return Err(Misuse::Invalid(Name::Hri));
    }
    Ok(values.has(Name::Hri))
}
