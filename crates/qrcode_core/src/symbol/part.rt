//! One symbol of a message that is spread over several.
//!
//! 1. Check that every other part of the message fits (`check_others`).
//! 2. Make the best symbol of the part, with its header.
ghost use Rattle.std.specs.Prelude.{◌≢◌, ◌+◌, ◌<◌, ◌≤◌, length, nat_abs};
ghost use Rattle.std.specs.Prelude.{ℕ, All, OnOk, IfOk, IfErr};
ghost use Rattle.std.specs.List.Sorted.{IsNonDecreasing};
ghost use Rattle.qrcode_base.specs.Symbols.{IsNormalNumber};
ghost use Rattle.qrcode_bits.specs.Frame.{IsTotal};
ghost use Rattle.qrcode_bits.specs.declared.bits.front.Content.TheVariants.{Bytes};
ghost use Rattle.qrcode_core.specs.Symbol.{TellsReading};
ghost use Rattle.qrcode_core.specs.Sequence.{IsBestPart, IsPartTooLongAt, IsSomePartTooLong};
ghost use Rattle.qrcode_core.specs.Sequence.{IsSequenceRefusal};

use crate::symbol::cuts::part_fits;
use crate::symbol::owned::Symbol;
use crate::symbol::sequence::{parity_of, part_at, part_symbol, total_of};
use qrcode_base::types::{EcLevel, QrError, QrResult};
use qrcode_bits::bits::{Content, Front, SequenceHeader};
use std::alloc::Global;

impl Symbol {
    /// Returns the symbol at an index, counted from 0, of those that `sequence` returns. The other
    /// parts of the message are only tested, not drawn. It fails as `sequence` does.
    pub fn sequence_part(
        alloc: Global,
        bytes: &[u8],
        cuts: &[usize],
        level: EcLevel,
        max_version: i16,
        index: usize,
    ) -> QrResult<Symbol>
        requires ordered { IsNonDecreasing cuts.now }
        requires within { All (λ cut. cut ≤ length bytes.now) cuts.now }
        requires exists { index ≤ length cuts.now }
        ensures best { IfOk result (λ symbol. IsBestPart Bytes bytes.now cuts.now level
            (nat_abs max_version) index symbol.modules) }
        ensures reading { IfOk result TellsReading }
        ensures fitting { OnOk result (IsSomePartTooLong Bytes bytes.now cuts.now level
            (nat_abs max_version) → ⊥) }
        ensures limit { OnOk result (IsNormalNumber max_version) }
        ensures total { OnOk result (IsTotal (length cuts.now + 1)) }
        ensures refusal { IfErr result
            (IsSequenceRefusal Bytes bytes.now cuts.now level max_version) }
    {
        let total = total_of(cuts, max_version)?;
        check_others(alloc, bytes, cuts, level, max_version, index)?;
        let header = SequenceHeader::new(index as u8 + 1, total, parity_of(bytes));
        let front = Front::with_header(header, Content::Bytes);
        let part = part_at(bytes, cuts, index);
        part_symbol(alloc, &front, part, level, max_version)
    }
}

/// Checks that each part but the one at an index fits some version, after its header. It fails with
/// `DataTooLong` if one does not, and with `OutOfMemory`.
fn check_others(
    alloc: Global,
    bytes: &[u8],
    cuts: &[usize],
    level: EcLevel,
    max_version: i16,
    index: usize,
) -> QrResult<()>
    requires ordered { IsNonDecreasing cuts.now }
    requires within { All (λ cut. cut ≤ length bytes.now) cuts.now }
    requires limit { IsNormalNumber max_version }
    requires total { IsTotal (length cuts.now + 1) }
    ensures fitting { OnOk result ((other : ℕ) → other < length cuts.now + 1 → other ≢ index →
        IsPartTooLongAt Bytes bytes.now cuts.now level (nat_abs max_version) other → ⊥) }
    ensures refusal { IfErr result
        (IsSequenceRefusal Bytes bytes.now cuts.now level max_version) }
{
    for other in 0..cuts.len() + 1 {
        let part = part_at(bytes, cuts, other);
        if other != index && !part_fits(alloc, Content::Bytes, part, level, max_version)? {
            return Err(QrError::DataTooLong);
        }
    }
    Ok(())
}
