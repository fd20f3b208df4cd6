//! The formats of pictures, and what each of them can be asked for.
ghost use Rattle.std.specs.Prelude.{◌≡◌};
ghost use Rattle.picture_settings.specs.Formats.{can_be_inverted, default_scale, has_millimetres};
ghost use Rattle.picture_settings.specs.Formats.{has_colors, has_dots, has_position, has_title};
ghost use Rattle.picture_settings.specs.Formats.{has_caption};
ghost use Rattle.picture_settings.specs.Formats.{can_be_compressed, can_be_cut, has_copies};
ghost use Rattle.picture_settings.specs.Formats.{has_feed, can_be_shown, has_setting, is_stream};

use crate::bounds::{IMAGE_SCALE, TEXT_SCALE};
use crate::settings::Setting;

/// A format of pictures.
#[derive(Clone, Copy, Debug, PartialEq, Eq)]
pub enum Format {
    /// Text for a terminal, in half blocks of Unicode.
    Terminal,
    /// Scalable Vector Graphics.
    Svg,
    /// Portable Network Graphics (ISO/IEC 15948), one bit a pixel.
    Png,
    /// A portable bitmap, in its binary form (`P4` of Netpbm).
    Pbm,
    /// Encapsulated PostScript.
    Eps,
    /// Raster images of ESC/POS (`GS v 0`), for ticket printers.
    EscPos,
    /// A label of ZPL II (`^GF`), for label printers.
    Zpl,
    /// Portable Document Format (ISO 32000-1, PDF 1.4), a page as large as the picture.
    Pdf,
}

impl Format {
    /// Returns the default scale: the width of a module in pixels.
    pub fn default_scale(self) -> usize
        ensures { result ≡ default_scale self }
    {
        match self {
            Format::Terminal => TEXT_SCALE,
            _ => IMAGE_SCALE,
        }
    }

    /// Whether the picture can be inverted, for a dark screen.
    pub fn can_be_inverted(self) -> bool
        ensures { result ≡ can_be_inverted self }
    {
        matches!(self, Format::Terminal)
    }

    /// Whether the size of a module can be given in millimetres.
    pub fn has_millimetres(self) -> bool
        ensures { result ≡ has_millimetres self }
    {
        matches!(self, Format::Svg | Format::Png | Format::Eps | Format::Pdf)
    }

    /// Whether the size of a pixel can be given in dots per inch.
    pub fn has_dots(self) -> bool
        ensures { result ≡ has_dots self }
    {
        matches!(self, Format::Png | Format::Zpl)
    }

    /// Whether the picture can have a title.
    pub fn has_title(self) -> bool
        ensures { result ≡ has_title self }
    {
        matches!(self, Format::Svg | Format::Png | Format::Eps | Format::Pdf)
    }

    /// Whether the picture can have a text below it.
    pub fn has_caption(self) -> bool
        ensures { result ≡ has_caption self }
    {
        !matches!(self, Format::Pbm | Format::EscPos)
    }

    /// Whether the picture can have colours.
    pub fn has_colors(self) -> bool
        ensures { result ≡ has_colors self }
    {
        matches!(self, Format::Svg | Format::Png | Format::Eps | Format::Pdf)
    }

    /// Whether the picture has a position on what is printed.
    pub fn has_position(self) -> bool
        ensures { result ≡ has_position self }
    {
        matches!(self, Format::Zpl)
    }

    /// Whether a label of the format has a number of copies.
    pub fn has_copies(self) -> bool
        ensures { result ≡ has_copies self }
    {
        matches!(self, Format::Zpl)
    }

    /// Whether the data can be compressed.
    pub fn can_be_compressed(self) -> bool
        ensures { result ≡ can_be_compressed self }
    {
        matches!(self, Format::Zpl)
    }

    /// Whether the paper can be moved after the picture.
    pub fn has_feed(self) -> bool
        ensures { result ≡ has_feed self }
    {
        matches!(self, Format::EscPos)
    }

    /// Whether the paper can be cut after the picture.
    pub fn can_be_cut(self) -> bool
        ensures { result ≡ can_be_cut self }
    {
        matches!(self, Format::EscPos)
    }

    /// Whether pictures can follow each other in one output, as labels that are printed do.
    pub fn is_stream(self) -> bool
        ensures { result ≡ is_stream self }
    {
        match self {
            Format::Terminal | Format::Pbm | Format::EscPos | Format::Zpl => true,
            Format::Svg | Format::Png | Format::Eps | Format::Pdf => false,
        }
    }

    /// Whether a picture is a text, which a terminal can show.
    pub fn can_be_shown(self) -> bool
        ensures { result ≡ can_be_shown self }
    {
        match self {
            Format::Terminal | Format::Svg | Format::Eps | Format::Zpl => true,
            Format::Png | Format::Pbm | Format::EscPos | Format::Pdf => false,
        }
    }

    /// Whether the format has a setting. It has `scale` and `quiet` always.
    pub fn has(self, setting: Setting) -> bool
        ensures { result ≡ has_setting self setting }
    {
        match setting {
            Setting::Scale | Setting::Quiet => true,
            Setting::ModuleMm => self.has_millimetres(),
            Setting::Dpi => self.has_dots(),
            Setting::Inverted => self.can_be_inverted(),
            Setting::Title => self.has_title(),
            Setting::Caption => self.has_caption(),
            Setting::At => self.has_position(),
            Setting::Copies => self.has_copies(),
            Setting::Compressed => self.can_be_compressed(),
            Setting::Feed => self.has_feed(),
            Setting::Cut => self.can_be_cut(),
            Setting::Dark | Setting::Light | Setting::AnyColors => self.has_colors(),
        }
    }
}
