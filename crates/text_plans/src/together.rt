//! The least plan of a text in one of several symbols that are read together.

ghost use Rattle.std.specs.Prelude.{◌≡◌, ◌≤◌, ◌<◌, List, chars, IfOk, IfSome, IfNone};
ghost use Rattle.qrcode_base.specs.Symbols.{HasMicroNumber};
ghost use Rattle.character_sets.specs.Reading.{Part};
ghost use Rattle.text_plans.specs.Costs.{bits_of_parts};
ghost use Rattle.text_plans.specs.Keeping.{KeepsEnough};
ghost use Rattle.text_plans.specs.Lanes.{AreAllFacts};
ghost use Rattle.text_plans.specs.Manners.{AreLeastIn, ArePartsIn, mixed_in, plain_in};
ghost use Rattle.text_plans.specs.Plan.{plan_parts};
ghost use Rattle.text_plans.specs.Starts.{IsStartIn, weight_as_in};
ghost use Rattle.text_plans.specs.Tables.{AreRowsOf};
ghost use Rattle.text_plans.specs.Ways.{AreRulesOf, mixed_of, plain_of};
ghost use Rattle.text_plans.specs.declared.rules.Manner.TheVariants.{Designated};

use crate::facts::Facts;
use crate::keep::{keep, needed_lanes, telling};
use crate::least::{chars_of, facts_of_all};
use crate::plan::TextPlan;
use crate::row::{BIT, LIMIT, Rest, least_switch};
use crate::rules::{Manner, Rules, rules_of, way_of};
use crate::table::{rows_of, weight_in};
use crate::walk::plan_of;
use qrcode_base::types::Version;
use std::alloc::{AllocError, Global};

/// Returns the lane of the designator in front of a plan of the least weight, and that weight, up to
/// the limit; of an empty text the lane in which a plan begins without one.
fn designated_start(rules: &Rules, all: &[Facts], rows: &[[Rest; 17]]) -> (usize, u32)
    requires rules { AreRulesOf rules.now }
    requires enough { KeepsEnough rules.now all.now }
    requires rows { AreRowsOf rules.now all.now rows.now }
    ensures weight { result.1 ≡ weight_as_in Designated rules.now all.now }
    ensures start { result.1 < LIMIT →
        IsStartIn Designated rules.now all.now result.0 result.1 }
{
    if all.is_empty() {
        return (rules.start, weight_in(rules, all, rows));
    }
    let change = least_switch(rules, &all[0], &rows[all.len() - 1]);
    (change.lane, change.weight)
}

/// Returns the lane in which a plan of the least weight in a manner begins, and that weight, up to
/// the limit.
fn start_in(manner: Manner, rules: &Rules, all: &[Facts], rows: &[[Rest; 17]]) -> (usize, u32)
    requires rules { AreRulesOf rules.now }
    requires enough { KeepsEnough rules.now all.now }
    requires rows { AreRowsOf rules.now all.now rows.now }
    ensures weight { result.1 ≡ weight_as_in manner rules.now all.now }
    ensures start { result.1 < LIMIT → IsStartIn manner rules.now all.now result.0 result.1 }
{
    match manner {
        Manner::Ascii | Manner::Paired => (rules.start, weight_in(rules, all, rows)),
        Manner::Designated => designated_start(rules, all, rows),
    }
}

/// Returns what `least_plan_in` does, of some characters and what is so of them, by rules of the way
/// in which the manner has each symbol, with what follows its characters.
fn plan_by_manner(
    alloc: Global,
    manner: Manner,
    rules: &Rules,
    chars: &[char],
    all: &[Facts],
    rows: &[[Rest; 17]],
) -> Result<Option<(TextPlan, usize)>, AllocError>
    requires known { AreAllFacts chars.now all.now }
    requires rules { AreRulesOf rules.now }
    requires plain { plain_of rules.now.way ≡ plain_in manner }
    requires mixed { mixed_of rules.now.way ≡ mixed_in manner }
    requires enough { KeepsEnough rules.now all.now }
    requires rows { AreRowsOf rules.now all.now rows.now }
    ensures least { IfOk result (λ found. IfSome found (λ plan.
        AreLeastIn manner rules.now.version chars.now (plan_parts plan.0))) }
    ensures bits { IfOk result (λ found. IfSome found (λ plan.
        plan.1 ≡ bits_of_parts rules.now.version (plan_parts plan.0))) }
    ensures none { IfOk result (λ found. IfNone found ((others : List Part) →
        ArePartsIn manner rules.now.version chars.now others →
        32768 ≤ bits_of_parts rules.now.version others)) }
{
    let (start, weight) = start_in(manner, rules, all, rows);
    if weight >= LIMIT {
        return Ok(None);
    }
    let plan = plan_of(alloc, rules, start, chars, all, rows)?;
    Ok(Some((plan, weight as usize / BIT as usize)))
}

/// Returns what `least_plan_in` does, of some characters and what is so of them.
fn plan_in_manner(
    alloc: Global,
    version: Version,
    manner: Manner,
    chars: &[char],
    all: &[Facts],
) -> Result<Option<(TextPlan, usize)>, AllocError>
    requires version { HasMicroNumber version }
    requires known { AreAllFacts chars.now all.now }
    ensures least { IfOk result (λ found. IfSome found (λ plan.
        AreLeastIn manner version chars.now (plan_parts plan.0))) }
    ensures bits { IfOk result (λ found. IfSome found (λ plan.
        plan.1 ≡ bits_of_parts version (plan_parts plan.0))) }
    ensures none { IfOk result (λ found. IfNone found ((others : List Part) →
        ArePartsIn manner version chars.now others → 32768 ≤ bits_of_parts version others)) }
{
    let telling = telling(alloc, all)?;
    let needed = needed_lanes(&telling);
    let rules = keep(rules_of(version, way_of(manner)), &needed, all);
    let rows = rows_of(alloc, &rules, all)?;
    plan_by_manner(alloc, manner, &rules, chars, all, &rows)
}

/// Returns a plan of a text in a version, of the fewest bits that any parts take there that are
/// read as the text in a manner, and of the fewest parts of those, with its bits: for a symbol of a
/// sequence, all symbols of which are written in this manner.
///
/// It returns `None` if all parts that are read as the text in the manner take 32768 bits or more,
/// which no symbol holds, or if there are none. It fails with `AllocError` if an allocation fails.
pub fn least_plan_in(
    alloc: Global,
    text: &str,
    version: Version,
    manner: Manner,
) -> Result<Option<(TextPlan, usize)>, AllocError>
    requires { HasMicroNumber version }
    ensures least { IfOk result (λ found. IfSome found (λ plan.
        AreLeastIn manner version (chars text.now) (plan_parts plan.0))) }
    ensures bits { IfOk result (λ found. IfSome found (λ plan.
        plan.1 ≡ bits_of_parts version (plan_parts plan.0))) }
    ensures none { IfOk result (λ found. IfNone found ((others : List Part) →
        ArePartsIn manner version (chars text.now) others →
        32768 ≤ bits_of_parts version others)) }
{
    let chars = chars_of(alloc, text)?;
    let all = facts_of_all(alloc, &chars)?;
    plan_in_manner(alloc, version, manner, &chars, &all)
}
