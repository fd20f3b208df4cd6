//! A text below a picture, laid out.
ghost use Rattle.std.specs.Prelude.{◌≡◌, ◌≤◌, ◌<◌, ◌+◌, ◌*◌, ◌/◌, length};
ghost use Rattle.picture_settings.specs.declared.bounds.TheConstants.{MAX_LETTERS, MAX_LINES};

/// A text below a picture, laid out.
#[derive(Debug, Drop)]
pub(crate) struct Caption {
    pub lines: Vec<String>,
    /// The size of the characters in hundredths of a module, or in dots.
    pub size: usize,
    ghost few_lines: { length lines.items ≤ MAX_LINES },
    ghost small_letters: { size ≤ MAX_LETTERS },
}

impl Caption {
    ghost use Rattle.std.specs.Prelude.{map};
    ghost use Rattle.std.specs.String.{string_bytes};
    ghost use Rattle.picture_settings.specs.declared.bounds.TheConstants.{MAX_COLUMNS};
    ghost use Rattle.qrcode_render.specs.Captions.{depth, line_row, pitch};
    ghost use Rattle.qrcode_render.specs.CaptionTypes.{block_of};

    /// Returns the lines.
    pub(crate) fn lines(&self) -> &[String]
        ensures exact { map string_bytes result.now ≡ (block_of self.now).lines }
        ensures bound { length result.now ≤ MAX_LINES }
    {
        &self.lines
    }

    /// Returns the size of the characters.
    pub(crate) fn size(&self) -> usize
        ensures exact { result ≡ (block_of self.now).size }
        ensures bound { result ≤ MAX_LETTERS }
    {
        self.size
    }

    /// Returns the rows of modules from one line to the next.
    fn pitch(&self) -> usize
        ensures exact { result ≡ pitch (block_of self.now) }
        ensures bound { result ≤ MAX_LETTERS / 100 }
    {
        self.size.div_ceil(100).max(3)
    }

    /// Returns the rows of modules of all lines.
    #[tactic(auto, using(crate::proofs::LineLemmas::rows_bound))]
    pub(crate) fn depth(&self) -> usize
        ensures exact { result ≡ depth (block_of self.now) }
        ensures bound { result ≤ (MAX_LINES + 1) * (MAX_LETTERS / 100) }
    {
        let pitch = self.pitch();
        self.lines.len() * pitch + pitch / 3
    }

    /// Returns the row of modules on which the characters of line n stand, below this many rows.
    pub(crate) fn line_row(&self, rows: usize, n: usize) -> usize
        requires few { rows ≤ MAX_COLUMNS }
        requires inside { n < MAX_LINES }
        ensures exact { result ≡ line_row (block_of self.now) rows n }
    {
        rows + (n + 1) * self.pitch()
    }
}
