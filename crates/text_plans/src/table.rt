//! The least weights of what follows each character of a text.

ghost use Rattle.std.specs.Prelude.{◌≡◌, ◌+◌, ◌-◌, ◌<◌, ◌≤◌, ℕ, [], length, get_or, drop, true, IfOk};
ghost use Rattle.text_plans.specs.Keeping.{IsRowOf, KeepsEnough};
ghost use Rattle.text_plans.specs.Search.{IsUnwritable, no_rest, rests_of};
ghost use Rattle.text_plans.specs.declared.facts.Facts.{Facts};
ghost use Rattle.text_plans.specs.Tables.{AreRowsOf, first_weight};

use crate::facts::Facts;
use crate::row::{LIMIT, NO_REST, Rest, begin_weight, lane_before, row_before};
use crate::rules::Rules;
use std::alloc::{AllocError, Global};

/// Returns whether a character can be written in no mode, in a lane.
fn is_unwritable(rules: &Rules, facts: &Facts, lane: usize) -> bool
    requires { lane < 17 }
    ensures { result ≡ true → IsUnwritable rules.now lane facts.now }
{
    let pair = facts.pair && rules.kanji_lane == lane;
    !facts.digit && !facts.alphanumeric && !pair && facts.sizes[lane] == 0
}

/// Returns whether some character of a text can be written in no mode, in a lane.
fn has_unwritable(rules: &Rules, all: &[Facts], lane: usize) -> bool
    requires { lane < 17 }
    ensures { result ≡ true → (k : ℕ) × (k < length all.now)
        × ((d : Facts) → IsUnwritable rules.now lane (get_or all.now k d)) }
{
    for facts in all {
        if is_unwritable(rules, facts, lane) {
            return true;
        }
    }
    false
}

/// Returns the least weight of a text without designators, up to the limit.
fn weight_in_one_lane(rules: &Rules, all: &[Facts]) -> u32
    requires start { rules.now.start < 17 }
    requires none { LIMIT ≤ rules.now.designator }
    ensures { result ≡ (get_or (rests_of rules.now all.now) rules.now.start no_rest).fresh }
{
    let mut rest = NO_REST;
    for k in 0..all.len() {
        let facts = &all[all.len() - 1 - k];
        let begin = begin_weight(rules, facts, rules.start, &rest);
        rest = lane_before(rules, facts, begin, LIMIT, rules.start, &rest);
    }
    rest.fresh
}

/// Returns the least weight of a text, up to the limit.
pub fn least_weight(rules: &Rules, all: &[Facts]) -> u32
    requires start { rules.now.start < 17 }
    requires enough { KeepsEnough rules.now all.now }
    ensures { result ≡ (get_or (rests_of rules.now all.now) rules.now.start no_rest).fresh }
{
    if rules.designator >= LIMIT {
        if has_unwritable(rules, all, rules.start) {
            return LIMIT;
        }
        return weight_in_one_lane(rules, all);
    }
    let mut row = [NO_REST; 17];
    for k in 0..all.len() {
        row_before(rules, &all[all.len() - 1 - k], &mut row);
    }
    row[rules.start].fresh
}

/// Returns what follows the last characters of a text in the lanes that are kept: first what
/// follows all of it, then what follows before its last character, and so on. It fails with
/// `AllocError` if an allocation fails.
pub fn rows_of(alloc: Global, rules: &Rules, all: &[Facts]) -> Result<Vec<[Rest; 17]>, AllocError>
    requires enough { KeepsEnough rules.now all.now }
    ensures length { IfOk result (λ rows. length rows.items ≡ length all.now + 1) }
    ensures rows { IfOk result (λ rows. (k : ℕ) → k ≤ length all.now →
        IsRowOf rules.now (drop (length all.now - k) all.now) (get_or rows.items k [])) }
{
    let mut rows = Vec::with_capacity(alloc, all.len() + 1)?;
    let mut row = [NO_REST; 17];
    rows.push(row)?;
    for k in 0..all.len() {
        row_before(rules, &all[all.len() - 1 - k], &mut row);
        rows.push(row)?;
    }
    Ok(rows)
}

/// Returns the least weight of a text, up to the limit, by what follows its last characters.
pub fn weight_in(rules: &Rules, all: &[Facts], rows: &[[Rest; 17]]) -> u32
    requires start { rules.now.start < 17 }
    requires enough { KeepsEnough rules.now all.now }
    requires rows { AreRowsOf rules.now all.now rows.now }
    ensures { result ≡ first_weight rules.now all.now }
{
    rows[all.len()][rules.start].fresh
}
