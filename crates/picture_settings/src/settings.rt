//! The settings of a picture, as a caller gives them.
ghost use Rattle.std.specs.Prelude.{◌≡◌};
ghost use Rattle.picture_settings.specs.Settings.{setting_word};

use crate::colors::Colors;

/// The settings of a picture, of which `DrawOptions::new` makes the options of a format. `None` is
/// the default, and the default of all is `Settings::default()`.
#[derive(Clone, Copy, Debug, Default, PartialEq, Eq)]
pub struct Settings<'a> {
    /// The width of a module in pixels, 1 to 64.
    pub scale: Option<usize>,
    /// The width of the quiet zone in modules, 0 to 16.
    pub quiet: Option<usize>,
    /// The width of a module in micrometres, 50 to 10,000: of SVG, PNG, EPS and PDF.
    pub module_um: Option<usize>,
    /// The number of pixels in ten inches, 500 to 24,000: of PNG, and not beside `module_um`; of
    /// ZPL, for the text below the picture, whose characters are at least 2 mm high then. 2,032 are
    /// 8 in a millimetre.
    pub dpi_tenths: Option<usize>,
    /// Whether the light pixels are filled, for a dark screen: of `Terminal`.
    pub inverted: bool,
    /// The title, a text of the characters that XML 1.0 allows: of SVG; of PNG and PDF, if it has
    /// at most 1,000,000 bytes; and of EPS, if it takes at most 244 characters there, where a
    /// character that is none of ASCII takes 8 to 16.
    pub title: Option<&'a str>,
    /// The text below the picture, of characters of ASCII that are printed, at least one, and of
    /// newlines, which end its lines: of `Terminal`, SVG, EPS and ZPL. If all of it fits, it is
    /// written on one line, else in at least one line for each of its own.
    pub caption: Option<&'a str>,
    /// The position of the upper left corner on the label in dots, each 0 to 18,000: of ZPL.
    pub at: Option<(usize, usize)>,
    /// The number of labels that the printer prints, 1 to 99,999,999: of ZPL.
    pub copies: Option<usize>,
    /// Whether the data are compressed: of ZPL.
    pub compressed: bool,
    /// The number of lines that the paper is moved after the picture, 0 to 255: of ESC/POS.
    pub feed: Option<usize>,
    /// Whether the paper is cut after the picture: of ESC/POS.
    pub cut: bool,
    /// The colours of the dark modules and of the ground, which a reader must be able to
    /// distinguish (`Colors::are_readable`): of SVG, PNG, EPS and PDF.
    pub colors: Colors,
    /// Whether the colours may be any: of the same.
    pub any_colors: bool,
}

/// A field of `Settings`.
#[derive(Clone, Copy, Debug, PartialEq, Eq)]
pub enum Setting {
    /// The field `scale`.
    Scale,
    /// The field `quiet`.
    Quiet,
    /// The field `module_um`.
    ModuleMm,
    /// The field `dpi_tenths`.
    Dpi,
    /// The field `inverted`.
    Inverted,
    /// The field `title`.
    Title,
    /// The field `caption`.
    Caption,
    /// The field `at`.
    At,
    /// The field `copies`.
    Copies,
    /// The field `compressed`.
    Compressed,
    /// The field `feed`.
    Feed,
    /// The field `cut`.
    Cut,
    /// The field `dark` of `colors`.
    Dark,
    /// The field `light` of `colors`.
    Light,
    /// The field `any_colors`.
    AnyColors,
}

impl Setting {
    /// Returns the name of the option in a configuration: that of the field, but `module_mm`, in
    /// millimetres, and `dpi`, in pixels an inch.
    pub fn name(self) -> &'static str
        ensures { result.now ≡ setting_word self }
    {
        match self {
            Setting::Scale => "scale",
            Setting::Quiet => "quiet",
            Setting::ModuleMm => "module_mm",
            Setting::Dpi => "dpi",
            Setting::Inverted => "inverted",
            Setting::Title => "title",
            Setting::Caption => "caption",
            Setting::At => "at",
            Setting::Copies => "copies",
            Setting::Compressed => "compressed",
            Setting::Feed => "feed",
            Setting::Cut => "cut",
            Setting::Dark => "dark",
            Setting::Light => "light",
            Setting::AnyColors => "any_colors",
        }
    }
}
