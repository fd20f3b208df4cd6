//! The choice of the first mask of least penalty, and the grid of a whole symbol.
ghost use Rattle.std.specs.Prelude.{◌≡◌, ◌+◌, ◌*◌, ◌<◌, ◌≤◌, length, IfOk, IfErr};
ghost use Rattle.qrcode_base.specs.Symbols.{IsSymbol, missing_bits};
ghost use Rattle.qrcode_grid.specs.Counts.{codeword_count};
ghost use Rattle.qrcode_grid.specs.Canvas.{CarriesCodewords};
ghost use Rattle.qrcode_grid.specs.Masks.{family, IsOfFamily};
ghost use Rattle.qrcode_grid.specs.Penalty.{score, IsFirstLeastMask};

use crate::canvas::cells::settle;
use crate::canvas::filling::repeated;
use crate::canvas::masks::{family_of, format_words, normal_number};
use crate::canvas::scoring::{penalties_of, write_colors};
use crate::canvas::{Canvas, MaskPattern};
use qrcode_base::symbols::symbol_width;
use qrcode_base::types::{Color, EcLevel, QrError, QrResult, Version};
use std::alloc::Global;

/// Returns the score of a penalty, at most 65535. In a Normal symbol it is the penalty minus 720,
/// or 0 if that is negative.
fn score_of(version: Version, penalty: usize) -> u16
    ensures { result ≡ score version penalty }
{
    let score = match version {
        Version::Normal(_) => penalty.saturating_sub(720),
        Version::Micro(_) => penalty,
    };
    if score < 65535 { score as u16 } else { 65535 }
}

impl Canvas {
    ghost use Rattle.std.specs.Prelude.{◌≡◌, ◌*◌, ◌≤◌, IfOk, IfErr, length, map, take};
    ghost use Rattle.qrcode_base.specs.Symbols.{width_of};
    ghost use Rattle.qrcode_grid.specs.declared.canvas.MaskPattern.{MaskPattern};
    ghost use Rattle.qrcode_grid.specs.Penalty.{byte_of};
    ghost use Rattle.qrcode_grid.specs.Scoring.{plane};
    ghost use Rattle.qrcode_grid.specs.Canvas.{with_mask};
    ghost use Rattle.qrcode_grid.specs.Masks.{IsOfFamily, normal_number};
    ghost use Rattle.qrcode_grid.specs.Canvas.{colors_of, mask_penalties, IsBestMask, IsBestMasked};
    ghost use Rattle.qrcode_grid.specs.Penalty.{penalty, score};

    /// Returns a scratch list that begins with the masked candidates, and the penalties of the
    /// masks that the version has, in order. Bit m of a byte of the candidates is the colour under
    /// the mask with number m in Normal symbols. The module that was lent is first written into its
    /// place, because the penalties are counted over the list of modules.
    ///
    /// The scratch list has four parts: the candidates, twelve rows of mask conditions, the
    /// candidates within light modules, and the twins. The last two have 14 more rows than the grid
    /// and 256 more bytes, because counting reads whole blocks of 256. A long list reserves 400 KB,
    /// of which only the used part is touched. Otherwise glibc would give memory back to the system
    /// after each symbol: it does so where more than 128 KB are free at the end of the heap, and
    /// keeps twice the size of the largest block so far.
    fn candidates(&mut self, alloc: Global) -> QrResult<(Vec<u8>, Vec<usize>)>
        ensures candidates { IfOk result (λ r. (p : MaskPattern) → IsOfFamily self.old.version p →
            plane (normal_number p)
            (take (width_of self.old.version * width_of self.old.version) r.0.items) ≡
            map byte_of (colors_of (with_mask p self.old))) }
        ensures penalties { IfOk result (λ r. r.1.items ≡ mask_penalties self.old) }
        ensures long { IfOk result (λ r. length self.old.modules ≤ length r.0.items) }
        ensures refusal { IfErr result (λ e. e ≡ QrError.OutOfMemory) }
        ensures unchanged { self.new ≡ self.old }
    {
        settle(&mut self.modules, self.lent, self.slot);
        let width = self.width;
        let length = width * width + 12 * width + 6 + 2 * ((width + 14) * (width + 4) + 256);
        let room = if length > 56_000 { 400_000 } else { 0 };
        let mut scratch = repeated(alloc, 0, length, room)?;
        let words = format_words(self.version, self.level);
        let numbered = penalties_of(&self.modules, self.version, width, &words, &mut scratch);
        let mut values = Vec::with_capacity(alloc, 8)?;
        for pattern in family_of(self.version) {
            values.push(numbered[normal_number(*pattern)])?;
        }
        Ok((scratch, values))
    }

    /// Returns the penalty that the canvas would have under each mask of its version, in the order
    /// of the masks' numbers (ISO/IEC 18004:2006, evaluation of data masking results).
    ///
    /// It fails with `OutOfMemory`.
    pub fn penalties(&self, alloc: Global) -> QrResult<Vec<usize>>
        ensures is { IfOk result (λ values. values.items ≡ mask_penalties self.now) }
        ensures refusal { IfErr result (λ e. e ≡ QrError.OutOfMemory) }
    {
        // The module that was lent is put into its place in a copy.
        let mut canvas = self.clone(alloc)?;
        let (_, values) = canvas.candidates(alloc)?;
        Ok(values)
    }

    /// Returns the first mask of least penalty, that penalty, and a scratch list that begins with
    /// the masked candidates.
    fn best(&mut self, alloc: Global) -> QrResult<(MaskPattern, usize, Vec<u8>)>
        ensures best { IfOk result (λ r. IsBestMask self.old r.0) }
        ensures least { IfOk result (λ r.
            r.1 ≡ penalty self.old.version (colors_of (with_mask r.0 self.old))) }
        ensures family { IfOk result (λ r. IsOfFamily self.old.version r.0) }
        ensures candidate { IfOk result (λ r. plane (normal_number r.0)
            (take (width_of self.old.version * width_of self.old.version) r.2.items) ≡
            map byte_of (colors_of (with_mask r.0 self.old))) }
        ensures long { IfOk result (λ r. length self.old.modules ≤ length r.2.items) }
        ensures refusal { IfErr result (λ e. e ≡ QrError.OutOfMemory) }
        ensures unchanged { self.new ≡ self.old }
    {
        let (scratch, values) = self.candidates(alloc)?;
        let mut best = 0;
        for i in 1..values.len() {
            if values[i] < values[best] {
                best = i;
            }
        }
        Ok((family_of(self.version)[best], values[best], scratch))
    }

    /// Returns the canvas under the first mask of least penalty, that mask, and its score
    /// (ISO/IEC 18004:2006, evaluation of data masking results). The score is the penalty, at most
    /// 65535; in a Normal symbol it is the penalty minus 720, or 0 if that is negative.
    ///
    /// It fails with `OutOfMemory`.
    pub fn apply_best_mask_with_score(&self, alloc: Global) -> QrResult<(Canvas, MaskPattern, u16)>
        ensures best { IfOk result (λ r. IsBestMask self.now r.1) }
        ensures canvas { IfOk result (λ r. r.0 ≡ with_mask r.1 self.now) }
        ensures score { IfOk result (λ r.
            r.2 ≡ score self.now.version (penalty self.now.version (colors_of r.0))) }
        ensures refusal { IfErr result (λ e. e ≡ QrError.OutOfMemory) }
    {
        let mut canvas = self.clone(alloc)?;
        let (pattern, penalty, _) = canvas.best(alloc)?;
        canvas.apply_mask(pattern);
        Ok((canvas, pattern, score_of(self.version, penalty)))
    }

    /// Returns the canvas under the first mask of least penalty, and that mask. It fails
    /// with `OutOfMemory`.
    pub fn apply_best_mask_with_pattern(&self, alloc: Global) -> QrResult<(Canvas, MaskPattern)>
        ensures best { IfOk result (λ r. IsBestMask self.now r.1) }
        ensures canvas { IfOk result (λ r. r.0 ≡ with_mask r.1 self.now) }
        ensures refusal { IfErr result (λ e. e ≡ QrError.OutOfMemory) }
    {
        let (canvas, pattern, _) = self.apply_best_mask_with_score(alloc)?;
        Ok((canvas, pattern))
    }

    /// Returns the canvas under the first mask of least penalty. It fails with `OutOfMemory`.
    pub fn apply_best_mask(&self, alloc: Global) -> QrResult<Canvas>
        ensures is { IfOk result (IsBestMasked self.now) }
        ensures refusal { IfErr result (λ e. e ≡ QrError.OutOfMemory) }
    {
        let (canvas, _) = self.apply_best_mask_with_pattern(alloc)?;
        Ok(canvas)
    }
}

/// Returns the colours of the symbol that carries these codewords under the first mask of least
/// penalty, row by row, and that mask. The data codewords are interleaved, and so are those of
/// the error correction.
///
/// It fails with `OutOfMemory`.
pub fn draw_symbol(
    alloc: Global,
    version: Version,
    level: EcLevel,
    interleaved: &[u8],
    correction: &[u8],
) -> QrResult<(Vec<Color>, MaskPattern)>
    requires symbol { IsSymbol version level }
    requires some { missing_bits version ≤ 8 * length interleaved.now }
    requires whole { length interleaved.now + length correction.now ≡ codeword_count version level }
    ensures carries { IfOk result (λ r.
        CarriesCodewords version level r.1 interleaved.now correction.now r.0.items) }
    ensures mask { IfOk result (λ r. IsFirstLeastMask version level r.1 r.0.items) }
    ensures refusal { IfErr result (λ e. e ≡ QrError.OutOfMemory) }
{
    let mut canvas = Canvas::new(alloc, version, level)?;
    canvas.draw_all_functional_patterns();
    canvas.draw_data(interleaved, correction);
    let (pattern, _, scratch) = canvas.best(alloc)?;
    let width = symbol_width(version);
    let mut colors = repeated(alloc, Color::Light, width * width, 0)?;
    write_colors(
        &scratch[..width * width],
        normal_number(pattern),
        &mut colors,
    );
    Ok((colors, pattern))
}
