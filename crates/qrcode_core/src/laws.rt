//! Laws: facts about grids and about what a reader finds in them. Each function has no body; its
//! contract is the fact.

ghost use Rattle.std.specs.Prelude.{ℕ, ◌≡◌, ◌+◌, ◌<◌, List, [], None, length, slice_index_or};
ghost use Rattle.std.specs.List.Sorted.{IsNonDecreasing};
ghost use Rattle.qrcode_base.specs.declared.types.Color.{Color};
ghost use Rattle.qrcode_base.specs.declared.types.EcLevel.{EcLevel};
ghost use Rattle.qrcode_base.specs.declared.types.Version.{Version};
ghost use Rattle.qrcode_bits.specs.Frame.{Front, front_of, HasSingleUnits, IsTotal};
ghost use Rattle.qrcode_bits.specs.declared.bits.front.Content.{Content};
ghost use Rattle.qrcode_bits.specs.declared.bits.front.Content.TheVariants.{Bytes};
ghost use Rattle.qrcode_bits.specs.Plans.{normal, micro};
ghost use Rattle.qrcode_core.specs.Headline.{printed, printed_reading, HaveDistance};
ghost use Rattle.qrcode_core.specs.Headline.{HaveOneContent, HaveOneReading};
ghost use Rattle.qrcode_core.specs.Headline.{Reads, IsBest, IsTooLongAfter, IsTooLongForMicro};
ghost use Rattle.qrcode_core.specs.Headline.{NoneIsBetter, NoneIsBetterWithHeader, NoneIsRead};
ghost use Rattle.qrcode_core.specs.Sequence.{AreBestSymbols, HaveOneMessage, IsBestPart};

/// No grid can be read in two ways: a reader finds one list of bytes, one version, one level, one
/// mask, one front and one number of payload bits.
pub fn have_one_reading()
    ensures { HaveOneReading }
{}

/// No grid carries two lists of data bits, nor bits in two versions, at two levels or under
/// two masks.
pub fn have_one_content()
    ensures { HaveOneContent }
{}

/// A reader reads a printed symbol, the digits `12345` in M1 at level L under the mask `Diamonds`,
/// with 20 payload bits.
#[tactic(auto, using(crate::proofs::Printed::printed_reads))]
pub fn printed_symbol_is_read()
    ensures { Reads printed printed_reading }
{}

/// Two grids that are read as different bytes, at one version and level, differ in some block in
/// more codewords than the block has correction codewords (ISO/IEC 18004:2006, error correction).
pub fn have_distance()
    ensures { HaveDistance }
{}

/// No set of grids can be read as two messages of a sequence, in whatever order the grids are given
/// (ISO/IEC 18004:2006, "Structured Append").
pub fn have_one_message()
    ensures { HaveOneMessage }
{}

/// The best symbols of all parts of a message are the best symbols of the message: in any order, a
/// reader finds the message in them, and no other.
pub fn parts_are_one_message()
    ensures { (content : Content) (message cuts : List ℕ) (level : EcLevel) (limit : ℕ)
        (grids : List (List Color)) → IsNonDecreasing cuts → IsTotal (length cuts + 1) →
        length grids ≡ length cuts + 1 →
        ((i : ℕ) → i < length grids →
        IsBestPart content message cuts level limit i (slice_index_or grids i [])) →
        AreBestSymbols content message cuts level limit grids }
{}

/// Where the data have single units, no symbol of them is better than the best one, however they
/// are cut into segments: no other symbol of the same content has a smaller version of the same
/// kind, or fewer payload bits in the same version. Bytes have single units where no two neighbours
/// are a pair of the Kanji mode, every text has, and elements have where there is no `%`. A symbol
/// with the header of a sequence before the content takes at least 20 bits more. Where the data are
/// too long, no symbol holds them.
pub fn none_is_better()
    ensures better { (kind : ℕ → Version) (front : Front) (bytes : List ℕ)
        (level : EcLevel) (grid : List Color) (best : IsBest kind front bytes level grid) →
        NoneIsBetter kind front bytes level best.number best.payload }
    ensures better_with_header { (kind : ℕ → Version) (content : Content) (bytes : List ℕ)
        (level : EcLevel) (grid : List Color)
        (best : IsBest kind (front_of None content) bytes level grid) →
        NoneIsBetterWithHeader kind content bytes level best.number best.payload }
    ensures too_long { (content : Content) (bytes : List ℕ) (level : EcLevel) →
        HasSingleUnits content bytes → IsTooLongAfter (front_of None content) bytes level →
        NoneIsRead normal content bytes level }
    ensures too_long_for_micro { (bytes : List ℕ) (level : EcLevel) →
        HasSingleUnits Bytes bytes → IsTooLongForMicro bytes level →
        NoneIsRead micro Bytes bytes level }
{}
