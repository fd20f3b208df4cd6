//! Laws: facts about grids that are read as texts, after the header of a sequence or with none.
//! Each function has no body; its contract is the fact.
ghost use Rattle.std.specs.Prelude.{◌≡◌, ◌≤◌, ℕ, List, None, chars};
ghost use Rattle.std.specs.Str.{IsUtf8};
ghost use Rattle.qrcode_base.specs.declared.types.Color.{Color};
ghost use Rattle.qrcode_base.specs.declared.types.EcLevel.{EcLevel};
ghost use Rattle.qrcode_base.specs.declared.types.Version.{Version};
ghost use Rattle.qrcode_bits.specs.Frame.{front_of};
ghost use Rattle.qrcode_bits.specs.declared.bits.front.Content.TheVariants.{Text};
ghost use Rattle.qrcode_core.specs.Headline.{Reads, reading_of};
ghost use Rattle.qrcode_grid.specs.declared.canvas.MaskPattern.{MaskPattern};
ghost use Rattle.smallest_symbols.specs.TextFrames.{NoVersionFits};
ghost use Rattle.smallest_symbols.specs.TextHeadline.{HaveOneTextReading, IsFarFromOtherTexts};
ghost use Rattle.smallest_symbols.specs.TextHeadline.{IsSmallestText, NoGridReadsText};
ghost use Rattle.smallest_symbols.specs.TextHeadline.{ReadsText, TextReading};

/// No grid is read as a text in two ways: a reader finds one header or none, one text, one version,
/// one level, one mask and one number of payload bits. So no grid is read both as a piece of a
/// text, after a header, and as a text without one.
pub fn have_one_text_reading()
    ensures { HaveOneTextReading }
{}

/// Two grids that are read as different texts, or after different headers, or of which one has a
/// header, at one version and level, differ in some block in more codewords than the block has
/// correction codewords (ISO/IEC 18004:2006, error correction).
pub fn have_text_distance()
    ensures { (grid : List Color) (reading : TextReading) (reads : ReadsText grid reading) →
        IsFarFromOtherTexts grid reading reads }
{}

/// Where no parts that are read as a text fit a version, no grid of the version is read as it: so
/// `DataTooLong` says that there is no such symbol.
pub fn too_long_is_not_read()
    ensures { (kind : ℕ → Version) (text : List ℕ) (level : EcLevel) (limit : ℕ) →
        NoVersionFits kind level text limit → NoGridReadsText kind text level limit }
{}

/// The symbol of a text in UTF-8 after its designator, as `Symbol::text` makes it, is no smaller
/// than the smallest symbol of the text, however its bytes are cut into segments: it has the same
/// or a greater version number of the kind, and in the same version at least as many payload bits.
pub fn utf8_is_no_smaller()
    ensures { (kind : ℕ → Version) (bytes : List ℕ) (level : EcLevel) (grid other : List Color)
        (number bits : ℕ) (mask : MaskPattern) → IsUtf8 bytes →
        (best : IsSmallestText kind (chars bytes) level grid) →
        Reads other (reading_of (kind number) level mask (front_of None Text) bytes bits) →
        (best.number ≤ number) × (number ≡ best.number → best.payload ≤ bits) }
{}
