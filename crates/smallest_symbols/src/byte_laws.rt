//! Laws: facts about grids that are read without the Kanji mode. Each function has no body; its
//! contract is the fact.
ghost use Rattle.std.specs.Prelude.{◌≡◌, ℕ, List};
ghost use Rattle.qrcode_base.specs.declared.types.Color.{Color};
ghost use Rattle.qrcode_base.specs.declared.types.EcLevel.{EcLevel};
ghost use Rattle.qrcode_base.specs.declared.types.Version.{Version};
ghost use Rattle.qrcode_bits.specs.Frame.{HasNoPair, no_front};
ghost use Rattle.qrcode_core.specs.Headline.{IsBest};
ghost use Rattle.smallest_symbols.specs.ByteHeadline.{IsBestWithoutKanji, NoneIsReadWithoutKanji};
ghost use Rattle.smallest_symbols.specs.BytePieces.{NoPiecesFitUpTo};

/// Where no pieces of the bytes fit a version without the Kanji mode, no grid of the version is
/// read as the bytes in such pieces: so `DataTooLong` says that there is no such symbol.
pub fn too_long_is_not_read()
    ensures { (kind : ℕ → Version) (bytes : List ℕ) (level : EcLevel) (limit : ℕ) →
        NoPiecesFitUpTo kind level bytes limit → NoneIsReadWithoutKanji kind bytes level limit }
{}

/// Where no two neighbouring bytes are a pair of the Kanji mode, as in ASCII, nothing is lost
/// without it: the symbol has the same version as that of `Symbol::bytes_with`, and as many payload
/// bits.
pub fn nothing_is_lost_without_pairs()
    ensures { (kind : ℕ → Version) (bytes : List ℕ) (level : EcLevel) (grid other : List Color) →
        HasNoPair bytes → (plain : IsBestWithoutKanji kind bytes level grid) →
        (best : IsBest kind no_front bytes level other) →
        (plain.number ≡ best.number) × (plain.payload ≡ best.payload) }
{}
