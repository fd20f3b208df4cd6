//! Laws: facts about the definitions that other crates and users can cite. Each function has no
//! body; its contract is the fact.

ghost use Rattle.std.specs.Prelude.{◌≡◌, ℕ, ◌*◌, ◌<◌, List, length};
ghost use Rattle.qrcode_base.specs.declared.types.Color.{Color};
ghost use Rattle.qrcode_base.specs.declared.types.EcLevel.{EcLevel};
ghost use Rattle.qrcode_base.specs.declared.types.Version.{Version};
ghost use Rattle.qrcode_base.specs.Symbols.{IsVersion, width_of};
ghost use Rattle.qrcode_grid.specs.declared.canvas.MaskPattern.{MaskPattern};
ghost use Rattle.qrcode_grid.specs.Blocks.{ArePlaces};
ghost use Rattle.qrcode_grid.specs.Regions.{HasOneFormatWord, HasOneVersionWord};
ghost use Rattle.qrcode_grid.specs.Canvas.{HasItsSiblings};
ghost use Rattle.qrcode_grid.specs.Masks.{HasFunctionalColors};

/// For a grid with the functional colours of its symbol, the grid under each other mask (its
/// sibling) has the same raw colours and the functional colours of that mask. Under its own mask
/// the sibling is the grid itself.
pub fn siblings_have_the_same_data()
    ensures { (version : Version) (level : EcLevel) (pattern : MaskPattern) (colors : List Color) →
        IsVersion version → length colors ≡ width_of version * width_of version →
        HasFunctionalColors version level pattern colors →
        HasItsSiblings version level pattern colors }
{}

/// Rows and blocks of any sizes reach each index of an interleaved stream exactly once.
pub fn blocks_fill_a_stream()
    ensures { (sizes : List ℕ) → ArePlaces sizes }
{}

/// Exactly one multiple of the generator begins with given data bits: their code word. So each
/// format word and each version word exists and is unique.
pub fn words_are_the_one_multiple()
    ensures format { (data_bits : ℕ) → data_bits < 32 → HasOneFormatWord data_bits }
    ensures version { (number : ℕ) → number < 64 → HasOneVersionWord number }
{}
