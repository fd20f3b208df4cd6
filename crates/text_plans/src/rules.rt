//! What a search for the least parts may use, and what it costs.

ghost use Rattle.std.specs.Prelude.{◌≡◌, ◌+◌, ◌*◌, ◌<◌, ◌↔◌, ℕ, IsTrue, false};
ghost use Rattle.qrcode_base.specs.Modes.{HasMode, count_width, indicator_width};
ghost use Rattle.qrcode_base.specs.Symbols.{HasMicroNumber};
ghost use Rattle.character_sets.specs.Reading.{designator};
ghost use Rattle.text_plans.specs.Costs.{HasPart};
ghost use Rattle.text_plans.specs.Manners.{mixed_in, plain_in};
ghost use Rattle.text_plans.specs.Ways.{AreLanes, AreRulesOf, mixed_of, plain_of};

use crate::row::{BIT, LIMIT};
use qrcode_base::types::{Mode, Version};

/// The ways in which a symbol may have a text, by what readers take bytes and pairs for: without a
/// designator, with designators but without a Kanji segment, with both, and with neither.
#[derive(Clone, Copy)]
pub enum Way {
    Plain,
    Unmixed,
    Mixed,
    Bare,
}

/// How all symbols of a sequence are written, so that readers that take each symbol by itself and
/// readers that join them find one text.
#[derive(Clone, Copy)]
pub enum Manner {
    /// No symbol has a designator or a Kanji segment.
    Ascii,
    /// No symbol has a designator. Symbols have Kanji segments, and bytes of those characters of
    /// ASCII alone that are the same in JIS X 0201.
    Paired,
    /// Each symbol that is not empty begins with a designator.
    Designated,
}

/// The weights of headers, and the lanes that a text may be written in. A weight counts the bits
/// first and then the parts; one at the limit is never used.
#[derive(Clone, Copy)]
pub struct Rules {
    /// The version and the way that the rules are of.
    pub version: Version,
    pub way: Way,
    /// The weights of the headers of segments.
    pub numeric: u32,
    pub alphanumeric: u32,
    pub byte: u32,
    pub kanji: u32,
    /// The weight of an ECI designator.
    pub designator: u32,
    /// The lane in which a text begins: 0, or 16 if the symbol may have Kanji segments.
    pub start: usize,
    /// The only lane in which a segment may be in the Kanji mode, 17 if there is none.
    pub kanji_lane: usize,
    /// The lanes that are looked at.
    pub kept: [bool; 17],
    /// Those of them that have designators, in their order, and how many they are.
    pub lanes: [u8; 15],
    pub count: usize,
}

/// Returns whether a version has a mode.
fn has_mode(version: Version, mode: Mode) -> bool
    requires { HasMicroNumber version }
    ensures { IsTrue result ↔ HasMode version mode }
{
    match version {
        Version::Normal(_) => true,
        Version::Micro(number) => match mode {
            Mode::Numeric => true,
            Mode::Alphanumeric => number >= 2,
            Mode::Byte | Mode::Kanji => number >= 3,
        },
    }
}

/// Returns the weight of the header of a segment, the limit if the version does not have the mode.
fn header_of(version: Version, mode: Mode) -> u32
    requires { HasMicroNumber version }
    ensures has { HasMode version mode →
        result ≡ BIT * (indicator_width version + count_width version mode) + 1 }
    ensures only { result < LIMIT → HasMode version mode }
{
    if !has_mode(version, mode) {
        return LIMIT;
    }
    let bits = version.mode_bits_count() + mode.length_bits_count(version);
    BIT as u32 * bits as u32 + 1
}

/// Returns the weight of a designator, the limit if there is none in the version or the way.
fn designator_weight(version: Version, way: Way) -> u32
    requires { HasMicroNumber version }
    ensures only { result < LIMIT → (result ≡ BIT * 12 + 1)
        × ((number : ℕ) → HasPart version (designator number)) × (plain_of way ≡ false) }
    ensures is { (number : ℕ) → plain_of way ≡ false → HasPart version (designator number) →
        result ≡ BIT * 12 + 1 }
{
    match version {
        Version::Normal(_) => match way {
            Way::Plain | Way::Bare => LIMIT,
            Way::Unmixed | Way::Mixed => 12 * BIT as u32 + 1,
        },
        Version::Micro(_) => LIMIT,
    }
}

/// Returns the lane in which a text begins, and that of Kanji segments.
#[tactic(auto, unfolding(crate::specs::Lanes::force_of))]
fn lanes_of(way: Way) -> (usize, usize)
    ensures { AreLanes (plain_of way) (mixed_of way) result.0 result.1 }
{
    match way {
        Way::Plain => (16, 16),
        Way::Unmixed => (0, 17),
        Way::Mixed => (16, 14),
        Way::Bare => (0, 17),
    }
}

/// Returns the way in which a manner has each symbol.
pub fn way_of(manner: Manner) -> Way
    ensures plain { plain_of result ≡ plain_in manner }
    ensures mixed { mixed_of result ≡ mixed_in manner }
{
    match manner {
        Manner::Ascii => Way::Bare,
        Manner::Paired => Way::Plain,
        Manner::Designated => Way::Mixed,
    }
}

/// Returns the rules of a version for a way, that keep no lanes yet.
pub fn rules_of(version: Version, way: Way) -> Rules
    requires { HasMicroNumber version }
    ensures version { result.version ≡ version }
    ensures way { result.way ≡ way }
    ensures rules { AreRulesOf result }
{
    let (start, kanji_lane) = lanes_of(way);
    Rules {
        version,
        way,
        numeric: header_of(version, Mode::Numeric),
        alphanumeric: header_of(version, Mode::Alphanumeric),
        byte: header_of(version, Mode::Byte),
        kanji: header_of(version, Mode::Kanji),
        designator: designator_weight(version, way),
        start,
        kanji_lane,
        kept: [false; 17],
        lanes: [0; 15],
        count: 0,
    }
}
