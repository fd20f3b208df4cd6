//! Lines of text that are drawn as pixels.
ghost use Rattle.std.specs.Prelude.{◌≤◌, ◌*◌, length};
ghost use Rattle.picture_settings.specs.declared.bounds.TheConstants.{MAX_IMAGE_ROWS, MAX_PIXELS};

/// Lines of text that are drawn as pixels, in letters of a font of 5 by 8 pixels.
#[derive(Clone, Copy, Debug)]
pub struct Lettering<'a> {
    /// The lines.
    pub lines: &'a [String],
    /// How many pixels wide the picture is, in whose middle the lines are.
    pub width: usize,
    /// How many pixels wide and high a pixel of the font is.
    pub size: usize,
    ghost narrow: { width ≤ MAX_PIXELS },
    ghost some: { 1 ≤ size },
    ghost small: { size ≤ MAX_PIXELS },
    ghost few: { length lines.now * (10 * size) ≤ MAX_IMAGE_ROWS },
}
