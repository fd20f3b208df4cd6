//! The lanes that a search looks at: those that the least parts of a text may need.

ghost use Rattle.std.specs.Prelude.{◌≡◌, ◌≢◌, ◌≤◌, ◌<◌, ◌⊎◌, ℕ, All, IfOk, replicate, true, false};
ghost use Rattle.std.specs.Prelude.{length, get_or, take};
ghost use Rattle.text_plans.specs.Keeping.{AreEnough, Dominates, IsKeptLane, KeepsEnough};
ghost use Rattle.text_plans.specs.Keeping.{StandFor, TakesNoMore, kept_up_to};
ghost use Rattle.text_plans.specs.Ways.{AreRulesOf};

use crate::facts::Facts;
use crate::row::LIMIT;
use crate::rules::Rules;
use std::alloc::{AllocError, Global};

/// Returns whether a character has no more bytes in a lane than in another, if it has some in this.
fn takes_no_more(facts: &Facts, to: usize, lane: usize) -> bool
    requires to { to < 17 }
    requires lane { lane < 17 }
    ensures { result ≡ true → TakesNoMore to lane facts.now.sizes }
{
    let (size, other) = (facts.sizes[lane], facts.sizes[to]);
    size == 0 || (other != 0 && other <= size)
}

/// Returns whether no character of a text has more bytes in a lane than in another in which it
/// has some.
pub fn dominates(all: &[Facts], to: usize, lane: usize) -> bool
    requires to { to < 17 }
    requires lane { lane < 17 }
    ensures { result ≡ true → All (λ facts. TakesNoMore to lane facts.sizes) all.now }
{
    for facts in all {
        if !takes_no_more(facts, to, lane) {
            return false;
        }
    }
    true
}

/// Returns whether another lane that is kept dominates one that is kept.
fn has_dominator(all: &[Facts], kept: &[bool], lane: usize) -> bool
    requires kept { length kept.now ≡ 17 }
    requires lane { lane < 17 }
    ensures { result ≡ true → (to : ℕ) × (to ≢ lane) × IsKeptLane kept.now to
        × Dominates 17 to lane all.now }
{
    if !kept[lane] {
        return false;
    }
    for back in 0..15 {
        let to = 15 - back;
        if to != lane && kept[to] && dominates(all, to, lane) {
            return true;
        }
    }
    false
}

/// Adds to some lanes those in which a character has bytes.
fn add_lanes(lanes: &mut [bool], facts: &Facts)
    requires { length lanes.old ≡ 17 }
    ensures length { length lanes.new ≡ 17 }
    ensures others { (lane : ℕ) → lane < 17 → get_or lanes.new lane false ≡ false →
        (get_or lanes.old lane false ≡ false) × (get_or facts.now.sizes lane 0 ≡ 0) }
{
    for lane in 0..17 {
        if facts.sizes[lane] != 0 {
            lanes[lane] = true;
        }
    }
}

/// Returns the lanes in which a character of a text has bytes that has more than one in UTF-8; the
/// lane of UTF-8 dominates the others.
fn used_lanes(all: &[Facts]) -> [bool; 17]
    ensures length { length result ≡ 17 }
    ensures others { (lane : ℕ) → lane < 17 → get_or result lane false ≡ false →
        All (λ facts. TakesNoMore 15 lane facts.sizes) all.now }
{
    let mut used = [false; 17];
    for facts in all {
        if facts.sizes[15] != 1 {
            add_lanes(&mut used, facts);
        }
    }
    used
}

/// Returns whether the numbers of bytes of a character are not 1 in each lane, nor those of another.
fn is_new(facts: &Facts, last: &[u8; 17]) -> bool
    ensures { result ≡ false →
        (facts.now.sizes ≡ replicate 17 1) ⊎ (facts.now.sizes ≡ last.now) }
{
    facts.sizes != [1; 17] && facts.sizes != *last
}

/// Returns the characters of a text that say something of its lanes: those that have another number
/// of bytes than 1 in some lane, and than the one before in some. It fails with `AllocError` if an
/// allocation fails.
pub fn telling(alloc: Global, all: &[Facts]) -> Result<Vec<Facts>, AllocError>
    ensures { IfOk result (λ some. StandFor some.items all.now) }
{
    let mut some = Vec::new(alloc);
    let mut last = [1; 17];
    for facts in all {
        if is_new(facts, &last) {
            last = facts.sizes;
            some.push(*facts)?;
        }
    }
    Ok(some)
}

/// Returns the lanes of designators that a text needs if it has no Kanji segment: one that
/// dominates another takes its place, and of those that are all one to the text the first stays.
pub fn needed_lanes(all: &[Facts]) -> [bool; 17]
    ensures { AreEnough result 17 all.now }
{
    let mut kept = used_lanes(all);
    kept[0] = false;
    kept[16] = false;
    kept[15] = true;
    for back in 0..15 {
        let lane = 15 - back;
        if has_dominator(all, &kept, lane) {
            kept[lane] = false;
        }
    }
    kept
}

/// Returns the lanes that are kept by some rules: of those that a text needs without a Kanji
/// segment all, if there are designators, and those in which a text begins and in which Kanji
/// segments are.
fn kept_lanes(rules: &Rules, needed: &[bool; 17]) -> [bool; 17]
    requires { rules.now.start < 17 }
    ensures start { IsKeptLane result rules.now.start }
    ensures enough { rules.now.designator < LIMIT → (lane : ℕ) → lane < 17 →
        IsKeptLane needed.now lane → IsKeptLane result lane }
    ensures kanji { rules.now.designator < LIMIT → rules.now.kanji_lane < 17 →
        IsKeptLane result rules.now.kanji_lane }
{
    let mut kept = [false; 17];
    if rules.designator < LIMIT {
        kept = *needed;
        if rules.kanji_lane < 17 {
            kept[rules.kanji_lane] = true;
        }
    }
    kept[rules.start] = true;
    kept
}

/// Returns the lanes of designators that are kept, in their order, and how many they are.
fn listed(kept: &[bool; 17]) -> ([u8; 15], usize)
    ensures within { result.1 ≤ 15 }
    ensures counted { length (kept_up_to kept.now 15) ≡ result.1 }
    ensures listed { take result.1 result.0 ≡ kept_up_to kept.now 15 }
{
    let mut lanes = [0; 15];
    let mut count = 0;
    for earlier in 0..15 {
        if kept[earlier + 1] {
            lanes[count] = earlier as u8 + 1;
            count += 1;
        }
    }
    (lanes, count)
}

/// Returns rules that look at the lanes that a text needs alone.
pub fn keep(rules: Rules, needed: &[bool; 17], all: &[Facts]) -> Rules
    requires rules { AreRulesOf rules }
    requires needed { AreEnough needed.now 17 all.now }
    ensures version { result.version ≡ rules.version }
    ensures way { result.way ≡ rules.way }
    ensures rules { AreRulesOf result }
    ensures enough { KeepsEnough result all.now }
{
    let mut kept = rules;
    kept.kept = kept_lanes(&rules, needed);
    let (lanes, count) = listed(&kept.kept);
    kept.lanes = lanes;
    kept.count = count;
    kept
}
