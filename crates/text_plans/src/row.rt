//! The least weights of what follows a place of a text, in each lane and by the segment that is
//! open there.

ghost use Rattle.std.specs.Prelude.{◌≡◌, ◌<◌, ◌≤◌, ◌+◌, ◌*◌, ℕ, length, get_or};
ghost use Rattle.std.specs.Prelude.{nat_le, if◌then◌else◌, true};
ghost use Rattle.text_plans.specs.Search.{weight_if, begin_least, lane_before};
ghost use Rattle.text_plans.specs.Search.{begin_in, no_rest};
ghost use Rattle.text_plans.specs.Keeping.{IsKeptLane, ListsLanes, kept_up_to, switch_kept};
ghost use Rattle.text_plans.specs.Switches.{IsSwitch};

use crate::facts::Facts;
use crate::rules::Rules;
use qrcode_base::types::Mode;

/// The weight of a bit. A part weighs 1.
pub const BIT: u64 = 32768;

/// The greatest weight, of what cannot be written: 32768 bits, more than a symbol has.
pub const LIMIT: u32 = 1073741824;

/// The least weight of what follows a place in a lane, up to the limit: if a new part begins there
/// (`fresh`), and if a segment may go on: Numeric with a number of digits of which 3 leave 0, 1 or
/// 2, Alphanumeric with an even or odd number of characters, Byte, and Kanji.
#[derive(Clone, Copy)]
pub struct Rest {
    pub fresh: u32,
    pub digits0: u32,
    pub digits1: u32,
    pub digits2: u32,
    pub signs0: u32,
    pub signs1: u32,
    pub byte: u32,
    pub kanji: u32,
}

/// What follows the end of a text.
pub const NO_REST: Rest = Rest {
    fresh: 0,
    digits0: 0,
    digits1: 0,
    digits2: 0,
    signs0: 0,
    signs1: 0,
    byte: 0,
    kanji: 0,
};

/// Returns a weight up to the limit, or the limit if it is not allowed.
pub fn weight_if(allowed: bool, weight: u64) -> u32
    ensures is { result ≡ weight_if allowed weight }
{
    if allowed && weight < u64::from(LIMIT) {
        weight as u32
    } else {
        LIMIT
    }
}

/// Returns the weight of a character that goes on with a segment.
pub fn go_on(allowed: bool, bits: u64, rest: u32) -> u32
    requires { bits ≤ 2040 }
    ensures is { result ≡ weight_if allowed (BIT * bits + rest) }
{
    weight_if(allowed, BIT * bits + u64::from(rest))
}

/// Returns the weight of a character that begins a segment.
fn begin_one(allowed: bool, header: u32, bits: u64, rest: u32) -> u32
    requires { bits ≤ 2040 }
    ensures is { result ≡ weight_if allowed (header + (BIT * bits + rest)) }
{
    weight_if(allowed, u64::from(header) + (BIT * bits + u64::from(rest)))
}

/// Returns the least weight of what follows if a character begins a segment in a lane, and a mode
/// of such a segment.
#[tactic(auto, unfolding(crate::specs::Search::begin_least))]
pub fn begin(rules: &Rules, facts: &Facts, lane: usize, rest: &Rest) -> (u32, Mode)
    requires { lane < 17 }
    ensures least { result.0 ≡ begin_least rules.now facts.now lane rest.now }
    ensures mode { result.0 ≡ begin_in rules.now facts.now lane rest.now result.1 }
{
    let size = facts.sizes[lane];
    let pair = facts.pair && rules.kanji_lane == lane;
    let numeric = begin_one(facts.digit, rules.numeric, 4, rest.digits1);
    let signs = begin_one(facts.alphanumeric, rules.alphanumeric, 6, rest.signs1);
    let byte = begin_one(size != 0, rules.byte, 8 * u64::from(size), rest.byte);
    let kanji = begin_one(pair, rules.kanji, 13, rest.kanji);
    lesser(
        lesser((numeric, Mode::Numeric), (signs, Mode::Alphanumeric)),
        lesser((byte, Mode::Byte), (kanji, Mode::Kanji)),
    )
}

/// Returns the pair with the lesser weight, the first if they have one weight.
fn lesser(first: (u32, Mode), second: (u32, Mode)) -> (u32, Mode)
    ensures { result ≡ (if nat_le first.0 second.0 then first else second) }
{
    if first.0 <= second.0 { first } else { second }
}

/// Returns the least weight of what follows if a character begins a segment in a lane.
#[tactic(auto, unfolding(crate::specs::Search::begin_least))]
pub fn begin_weight(rules: &Rules, facts: &Facts, lane: usize, rest: &Rest) -> u32
    requires { lane < 17 }
    ensures { result ≡ begin_least rules.now facts.now lane rest.now }
{
    let size = facts.sizes[lane];
    let pair = facts.pair && rules.kanji_lane == lane;
    if !facts.digit && !facts.alphanumeric && !pair {
        if size == 0 {
            return LIMIT;
        }
        return begin_one(true, rules.byte, 8 * u64::from(size), rest.byte);
    }
    let byte = begin_one(size != 0, rules.byte, 8 * u64::from(size), rest.byte);
    let numeric = begin_one(facts.digit, rules.numeric, 4, rest.digits1);
    let signs = begin_one(facts.alphanumeric, rules.alphanumeric, 6, rest.signs1);
    let kanji = begin_one(pair, rules.kanji, 13, rest.kanji);
    numeric.min(signs).min(byte.min(kanji))
}

/// Returns what follows in a lane from a character on, by what follows that character; `begin` is
/// the least weight if the character begins a segment, and `switched` that after a designator.
#[tactic(auto, unfolding(crate::specs::Search::lane_before), using(crate::proofs::Choosing::begin_small))]
pub fn lane_before(
    rules: &Rules,
    facts: &Facts,
    begin: u32,
    switched: u32,
    lane: usize,
    rest: &Rest,
) -> Rest
    requires lane { lane < 17 }
    requires begin { begin ≡ begin_least rules.now facts.now lane rest.now }
    ensures { result ≡ lane_before rules.now facts.now switched lane rest.now }
{
    let size = facts.sizes[lane];
    let pair = facts.pair && rules.kanji_lane == lane;
    let fresh = begin.min(switched);
    if !facts.digit && !facts.alphanumeric && !pair {
        if size == 0 {
            return going_on_in_bytes(fresh, fresh);
        }
        let byte = fresh.min(go_on(true, 8 * u64::from(size), rest.byte));
        return going_on_in_bytes(fresh, byte);
    }
    let byte = fresh.min(go_on(size != 0, 8 * u64::from(size), rest.byte));
    Rest {
        fresh,
        digits0: fresh.min(go_on(facts.digit, 4, rest.digits1)),
        digits1: fresh.min(go_on(facts.digit, 3, rest.digits2)),
        digits2: fresh.min(go_on(facts.digit, 3, rest.digits0)),
        signs0: fresh.min(go_on(facts.alphanumeric, 6, rest.signs1)),
        signs1: fresh.min(go_on(facts.alphanumeric, 5, rest.signs0)),
        byte,
        kanji: fresh.min(go_on(pair, 13, rest.kanji)),
    }
}

/// Returns what follows before a character that goes on with no segment but one in the Byte mode.
fn going_on_in_bytes(fresh: u32, byte: u32) -> Rest
    ensures { result ≡ record {
      fresh = fresh;
      digits0 = fresh;
      digits1 = fresh;
      digits2 = fresh;
      signs0 = fresh;
      signs1 = fresh;
      byte = byte;
      kanji = fresh;
    } }
{
    Rest {
        fresh,
        digits0: fresh,
        digits1: fresh,
        digits2: fresh,
        signs0: fresh,
        signs1: fresh,
        byte,
        kanji: fresh,
    }
}

/// Returns the weight of a designator before what weighs so much.
fn designated(rules: &Rules, weight: u32) -> u32
    ensures { result ≡ weight_if true (rules.now.designator + weight) }
{
    weight_if(true, u64::from(rules.designator) + u64::from(weight))
}

/// A place in a list of lanes: the lane that a designator changes to, and the mode that begins
/// after it.
#[derive(Clone, Copy)]
pub struct Switch {
    pub weight: u32,
    pub lane: usize,
    pub mode: Mode,
}

/// Returns the least weight of what follows if a character begins a segment after a designator,
/// with the lane of the designator and the mode of the segment.
#[tactic(auto, unfolding(crate::specs::Keeping::switch_kept))]
pub fn least_switch(rules: &Rules, facts: &Facts, row: &[Rest]) -> Switch
    requires { length row.now ≡ 17 }
    ensures least { result.weight ≡ switch_kept rules.now facts.now row.now 15 }
    ensures of { result.weight < LIMIT → IsSwitch rules.now facts.now row.now result }
{
    let mut best = Switch {
        weight: LIMIT,
        lane: 0,
        mode: Mode::Byte,
    };
    for earlier in 0..15 {
        let lane = earlier + 1;
        if rules.kept[lane] {
            let (weight, mode) = begin(rules, facts, lane, &row[lane]);
            let weight = designated(rules, weight);
            if weight < best.weight {
                best = Switch { weight, lane, mode };
            }
        }
    }
    best
}

/// The least weights of what follows if a character begins a segment: in each lane, and after
/// a designator.
#[derive(Clone, Copy)]
struct Begins {
    weights: [u32; 17],
    switched: u32,
}

/// Returns a lane of designators that is kept, by its place among those.
fn lane_at(rules: &Rules, at: usize) -> usize
    requires lists { ListsLanes rules.now }
    requires at { at < rules.now.count }
    ensures is { result ≡ get_or (kept_up_to rules.now.kept 15) at 0 }
    ensures from { 1 ≤ result }
    ensures to { result ≤ 15 }
{
    usize::from(rules.lanes[at])
}

/// Returns the least weights of what follows if a character begins a segment, in the lanes of
/// designators that are kept.
fn listed_begins(rules: &Rules, facts: &Facts, row: &[Rest]) -> Begins
    requires lists { ListsLanes rules.now }
    requires length { length row.now ≡ 17 }
    ensures length { length result.weights ≡ 17 }
    ensures weights { (lane : ℕ) → 1 ≤ lane → lane ≤ 15 → IsKeptLane rules.now.kept lane →
        get_or result.weights lane 0
        ≡ begin_least rules.now facts.now lane (get_or row.now lane no_rest) }
    ensures switched { result.switched ≡ switch_kept rules.now facts.now row.now 15 }
{
    let mut weights = [0; 17];
    let mut switched = LIMIT;
    for at in 0..rules.count {
        let lane = lane_at(rules, at);
        let weight = begin_weight(rules, facts, lane, &row[lane]);
        weights[lane] = weight;
        switched = switched.min(designated(rules, weight));
    }
    Begins { weights, switched }
}

/// Returns the least weights of what follows if a character begins a segment, in the lanes that
/// are kept.
fn begins_of(rules: &Rules, facts: &Facts, row: &[Rest]) -> Begins
    requires lists { ListsLanes rules.now }
    requires length { length row.now ≡ 17 }
    ensures weights { (lane : ℕ) → lane < 17 → IsKeptLane rules.now.kept lane →
        get_or result.weights lane 0
        ≡ begin_least rules.now facts.now lane (get_or row.now lane no_rest) }
    ensures switched { result.switched ≡ switch_kept rules.now facts.now row.now 15 }
{
    let mut begins = listed_begins(rules, facts, row);
    if rules.kept[0] {
        begins.weights[0] = begin_weight(rules, facts, 0, &row[0]);
    }
    if rules.kept[16] {
        begins.weights[16] = begin_weight(rules, facts, 16, &row[16]);
    }
    begins
}

/// Puts what follows in each lane of a designator that is kept, from a character on, in the place
/// of what follows that character.
fn listed_row(rules: &Rules, facts: &Facts, begins: &Begins, row: &mut [Rest])
    requires lists { ListsLanes rules.now }
    requires length { length row.old ≡ 17 }
    requires begins { (lane : ℕ) → lane < 17 → IsKeptLane rules.now.kept lane →
        get_or begins.now.weights lane 0
        ≡ begin_least rules.now facts.now lane (get_or row.old lane no_rest) }
    ensures length { length row.new ≡ 17 }
    ensures lanes { (lane : ℕ) → 1 ≤ lane → lane ≤ 15 → IsKeptLane rules.now.kept lane →
        get_or row.new lane no_rest ≡ lane_before rules.now facts.now begins.now.switched lane
        (get_or row.old lane no_rest) }
    ensures first { get_or row.new 0 no_rest ≡ get_or row.old 0 no_rest }
    ensures last { get_or row.new 16 no_rest ≡ get_or row.old 16 no_rest }
{
    for at in 0..rules.count {
        let lane = lane_at(rules, at);
        let begin = begins.weights[lane];
        row[lane] = lane_before(rules, facts, begin, begins.switched, lane, &row[lane]);
    }
}

/// Puts what follows in each lane that is kept, from a character on, in the place of what follows
/// that character.
pub fn row_before(rules: &Rules, facts: &Facts, row: &mut [Rest])
    requires lists { ListsLanes rules.now }
    requires length { length row.old ≡ 17 }
    ensures length { length row.new ≡ 17 }
    ensures lanes { (lane : ℕ) → lane < 17 → IsKeptLane rules.now.kept lane →
        get_or row.new lane no_rest ≡ lane_before rules.now facts.now
        (switch_kept rules.now facts.now row.old 15) lane (get_or row.old lane no_rest) }
{
    let begins = begins_of(rules, facts, row);
    listed_row(rules, facts, &begins, row);
    if rules.kept[0] {
        row[0] = lane_before(rules, facts, begins.weights[0], begins.switched, 0, &row[0]);
    }
    if rules.kept[16] {
        row[16] = lane_before(
            rules,
            facts,
            begins.weights[16],
            begins.switched,
            16,
            &row[16],
        );
    }
}
