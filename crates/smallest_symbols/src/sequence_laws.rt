//! Laws: facts about grids that are read as pieces of a text, beside those of `text_laws`, which
//! hold of them too. Each function has no body; its contract is the fact.
ghost use Rattle.std.specs.Prelude.{◌≡◌, ◌≤◌, ℕ, List, Some, chars};
ghost use Rattle.std.specs.Str.{IsUtf8};
ghost use Rattle.qrcode_base.specs.declared.types.Color.{Color};
ghost use Rattle.qrcode_base.specs.declared.types.EcLevel.{EcLevel};
ghost use Rattle.qrcode_bits.specs.Frame.{Header, front_of};
ghost use Rattle.qrcode_bits.specs.Plans.{normal};
ghost use Rattle.qrcode_bits.specs.declared.bits.front.Content.TheVariants.{Text};
ghost use Rattle.qrcode_core.specs.Headline.{Reads, reading_of};
ghost use Rattle.qrcode_grid.specs.declared.canvas.MaskPattern.{MaskPattern};
ghost use Rattle.text_plans.specs.declared.rules.Manner.{Manner};
ghost use Rattle.text_plans.specs.declared.rules.Manner.TheVariants.{Designated};
ghost use Rattle.smallest_symbols.specs.TextParts.{IsTextPartTooLong};
ghost use Rattle.smallest_symbols.specs.TextMessages.{HaveOneTextMessage};
ghost use Rattle.smallest_symbols.specs.TextPieces.{IsSmallestTextPart, NoGridReadsPiece};

/// No set of grids can be read as two texts of a sequence, in whatever order the grids are given
/// (ISO/IEC 18004:2006, "Structured Append").
pub fn have_one_text_message()
    ensures { HaveOneTextMessage }
{}

/// Where a text is too long for one symbol of a sequence in a manner, no grid of the versions is read
/// as it after a header, by parts of the manner: so `DataTooLong` says that there is no such symbol.
pub fn too_long_is_not_read()
    ensures { (manner : Manner) (text : List ℕ) (level : EcLevel) (limit : ℕ) →
        IsTextPartTooLong manner text level limit → NoGridReadsPiece manner text level limit }
{}

/// The symbol of a part in UTF-8 after its header and its designator, as `Symbol::text_sequence`
/// makes it, is no smaller than the smallest symbol of the part in the manner in which each symbol
/// begins with a designator, however its bytes are cut into segments: it has the same or a greater
/// version number, and in the same version at least as many payload bits.
pub fn utf8_is_no_smaller()
    ensures { (bytes : List ℕ) (level : EcLevel) (grid other : List Color) (mine theirs : Header)
        (number bits : ℕ) (mask : MaskPattern) → IsUtf8 bytes →
        (best : IsSmallestTextPart Designated mine (chars bytes) level grid) →
        Reads other (reading_of (normal number) level mask (front_of (Some theirs) Text) bytes
        bits) → (best.number ≤ number) × (number ≡ best.number → best.payload ≤ bits) }
{}
