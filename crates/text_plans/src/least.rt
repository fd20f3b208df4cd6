//! The least plan of a text: the least of those of the three ways.

ghost use Rattle.std.specs.Prelude.{◌≡◌, ◌≤◌, ◌<◌, ◌⊎◌, ℕ, List, chars, true, IfOk, IfSome, IfNone};
ghost use Rattle.qrcode_base.specs.Symbols.{HasMicroNumber};
ghost use Rattle.character_sets.specs.Reading.{Part};
ghost use Rattle.text_plans.specs.Costs.{AreLeast, AreTextParts, bits_of_parts};
ghost use Rattle.text_plans.specs.Keeping.{AreEnough, KeepsEnough};
ghost use Rattle.text_plans.specs.Lanes.{AreAllFacts};
ghost use Rattle.text_plans.specs.Plan.{plan_parts};
ghost use Rattle.text_plans.specs.Tables.{AreLightest, AreRowsOf, first_weight};
ghost use Rattle.text_plans.specs.Ways.{AreRulesOf, weight_of};
ghost use Rattle.text_plans.specs.declared.rules.Way.TheVariants.{Mixed};

use crate::facts::{Facts, facts_of, has_pair};
use crate::keep::{dominates, keep, needed_lanes, telling};
use crate::plan::TextPlan;
use crate::row::{BIT, LIMIT, Rest};
use crate::rules::{Rules, Way, rules_of};
use crate::table::{least_weight, rows_of, weight_in};
use crate::walk::plan_of;
use qrcode_base::symbols::LONGEST_DATA;
use qrcode_base::types::Version;
use std::alloc::{AllocError, Global};

/// Returns the characters of a text.
pub fn chars_of(alloc: Global, text: &str) -> Result<Vec<char>, AllocError>
    ensures { IfOk result (λ all. all.items ≡ chars text.now) }
{
    let mut all = Vec::with_capacity(alloc, text.chars().count())?;
    for c in text.chars() {
        all.push(c)?;
    }
    Ok(all)
}

/// Returns what is so of each character of a text.
pub fn facts_of_all(alloc: Global, chars: &[char]) -> Result<Vec<Facts>, AllocError>
    ensures { IfOk result (λ all. AreAllFacts chars.now all.items) }
{
    let mut all = Vec::with_capacity(alloc, chars.len())?;
    for c in chars {
        all.push(facts_of(*c))?;
    }
    Ok(all)
}

/// Returns the rules with the lesser least weight of a text, and that weight.
fn lighter(first: (Rules, u32), second: (Rules, u32)) -> (Rules, u32)
    ensures less { result.1 ≤ first.1 }
    ensures also { result.1 ≤ second.1 }
    ensures either { (result ≡ first) ⊎ (result ≡ second) }
{
    if first.1 <= second.1 { first } else { second }
}

/// Returns the rules of a version for a way, with the least weight of a text by them; `needed` are
/// the lanes of designators that the text needs without Kanji segments.
fn weighed(version: Version, way: Way, all: &[Facts], needed: &[bool; 17]) -> (Rules, u32)
    requires version { HasMicroNumber version }
    requires needed { AreEnough needed.now 17 all.now }
    ensures version { result.0.version ≡ version }
    ensures way { result.0.way ≡ way }
    ensures rules { AreRulesOf result.0 }
    ensures enough { KeepsEnough result.0 all.now }
    ensures weight { result.1 ≡ first_weight result.0 all.now }
{
    let rules = keep(rules_of(version, way), needed, all);
    let weight = least_weight(&rules, all);
    (rules, weight)
}

/// Returns whether a text weighs as much as the limit in each way; `needed` are the lanes of
/// designators that it needs without Kanji segments.
fn is_too_long(version: Version, all: &[Facts], needed: &[bool; 17]) -> bool
    requires version { HasMicroNumber version }
    requires needed { AreEnough needed.now 17 all.now }
    ensures { result ≡ true → (text : List ℕ) (others : List Part) → AreAllFacts text all.now →
        AreTextParts version text others → LIMIT ≤ weight_of version others }
{
    let plain = weighed(version, Way::Plain, all, needed);
    let unmixed = weighed(version, Way::Unmixed, all, needed);
    let mixed = weighed(version, Way::Mixed, all, needed);
    lighter(lighter(plain, unmixed), mixed).1 >= LIMIT
}

/// Returns rules if a text weighs at most so much by them.
fn up_to(found: (Rules, u32), weight: u32) -> Option<Rules>
    ensures some { IfSome result (λ rules. (rules ≡ found.0) × (found.1 ≤ weight)) }
    ensures none { IfNone result (weight < found.1) }
{
    if found.1 <= weight {
        Some(found.0)
    } else {
        None
    }
}

/// Returns the rules of another way by which a text weighs no more than by those of the mixed way,
/// if there are some; `weight` is what it weighs by these. If what is ASCII is the same in
/// JIS X 0201 in this text, the mixed way has all that the unmixed one has.
fn lighter_rules(mixed: &Rules, weight: u32, all: &[Facts], needed: &[bool; 17]) -> Option<Rules>
    requires version { HasMicroNumber mixed.now.version }
    requires way { mixed.now.way ≡ Mixed }
    requires rules { AreRulesOf mixed.now }
    requires weight { weight ≡ first_weight mixed.now all.now }
    requires needed { AreEnough needed.now 17 all.now }
    ensures version { IfSome result (λ rules. rules.version ≡ mixed.now.version) }
    ensures rules { IfSome result (λ rules. AreRulesOf rules) }
    ensures enough { IfSome result (λ rules. KeepsEnough rules all.now) }
    ensures least { IfSome result (λ rules. AreLightest mixed.now.version rules all.now) }
    ensures none { IfNone result (AreLightest mixed.now.version mixed.now all.now) }
{
    let plain = weighed(mixed.version, Way::Plain, all, needed);
    if dominates(all, 16, 0) {
        return up_to(plain, weight);
    }
    let unmixed = weighed(mixed.version, Way::Unmixed, all, needed);
    up_to(lighter(plain, unmixed), weight)
}

/// Returns what `least_plan` does, of some characters and what is so of them, by rules by which
/// the text weighs the least, with what follows its characters.
fn plan_by(
    alloc: Global,
    version: Version,
    rules: &Rules,
    chars: &[char],
    all: &[Facts],
    rows: &[[Rest; 17]],
) -> Result<Option<(TextPlan, usize)>, AllocError>
    requires version { rules.now.version ≡ version }
    requires known { AreAllFacts chars.now all.now }
    requires rules { AreRulesOf rules.now }
    requires enough { KeepsEnough rules.now all.now }
    requires least { AreLightest version rules.now all.now }
    requires rows { AreRowsOf rules.now all.now rows.now }
    ensures least { IfOk result (λ found. IfSome found (λ plan.
        AreLeast version chars.now (plan_parts plan.0))) }
    ensures bits { IfOk result (λ found. IfSome found (λ plan.
        plan.1 ≡ bits_of_parts version (plan_parts plan.0))) }
    ensures none { IfOk result (λ found. IfNone found ((others : List Part) →
        AreTextParts version chars.now others → 32768 ≤ bits_of_parts version others)) }
{
    let weight = weight_in(rules, all, rows);
    if weight >= LIMIT {
        return Ok(None);
    }
    let plan = plan_of(alloc, rules, rules.start, chars, all, rows)?;
    Ok(Some((plan, weight as usize / BIT as usize)))
}

/// Returns what `least_plan` does, of a text that may have Kanji segments.
fn plan_of_pairs(
    alloc: Global,
    version: Version,
    chars: &[char],
    all: &[Facts],
    needed: &[bool; 17],
) -> Result<Option<(TextPlan, usize)>, AllocError>
    requires version { HasMicroNumber version }
    requires known { AreAllFacts chars.now all.now }
    requires needed { AreEnough needed.now 17 all.now }
    ensures least { IfOk result (λ found. IfSome found (λ plan.
        AreLeast version chars.now (plan_parts plan.0))) }
    ensures bits { IfOk result (λ found. IfSome found (λ plan.
        plan.1 ≡ bits_of_parts version (plan_parts plan.0))) }
    ensures none { IfOk result (λ found. IfNone found ((others : List Part) →
        AreTextParts version chars.now others → 32768 ≤ bits_of_parts version others)) }
{
    let mixed = keep(rules_of(version, Way::Mixed), needed, all);
    let rows = rows_of(alloc, &mixed, all)?;
    let weight = weight_in(&mixed, all, &rows);
    if let Some(rules) = lighter_rules(&mixed, weight, all, needed) {
        drop(rows);
        let rows = rows_of(alloc, &rules, all)?;
        return plan_by(alloc, version, &rules, chars, all, &rows);
    }
    plan_by(alloc, version, &mixed, chars, all, &rows)
}

/// Returns what `least_plan` does, of some characters and what is so of them.
fn plan_in(
    alloc: Global,
    version: Version,
    chars: &[char],
    all: &[Facts],
) -> Result<Option<(TextPlan, usize)>, AllocError>
    requires version { HasMicroNumber version }
    requires known { AreAllFacts chars.now all.now }
    ensures least { IfOk result (λ found. IfSome found (λ plan.
        AreLeast version chars.now (plan_parts plan.0))) }
    ensures bits { IfOk result (λ found. IfSome found (λ plan.
        plan.1 ≡ bits_of_parts version (plan_parts plan.0))) }
    ensures none { IfOk result (λ found. IfNone found ((others : List Part) →
        AreTextParts version chars.now others → 32768 ≤ bits_of_parts version others)) }
{
    let telling = telling(alloc, all)?;
    let needed = needed_lanes(&telling);
    if all.len() > LONGEST_DATA && is_too_long(version, all, &needed) {
        return Ok(None);
    }
    if has_pair(all) {
        return plan_of_pairs(alloc, version, chars, all, &needed);
    }
    let unmixed = keep(rules_of(version, Way::Unmixed), &needed, all);
    let rows = rows_of(alloc, &unmixed, all)?;
    plan_by(alloc, version, &unmixed, chars, all, &rows)
}

/// Returns a plan of a text in a version, of the fewest bits that any parts take there that are
/// read as the text, and of the fewest parts of those, with its bits. What designators and segments
/// cost is the same in the versions 1 to 9, 10 to 26 and 27 to 40.
///
/// It returns `None` if all parts that are read as the text take 32768 bits or more, which no
/// symbol holds, or if there are none, as in a Micro version of a text that is neither ASCII nor of
/// the characters of the Kanji mode. It fails with `AllocError` if an allocation fails.
pub fn least_plan(
    alloc: Global,
    text: &str,
    version: Version,
) -> Result<Option<(TextPlan, usize)>, AllocError>
    requires { HasMicroNumber version }
    ensures least { IfOk result (λ found. IfSome found (λ plan.
        AreLeast version (chars text.now) (plan_parts plan.0))) }
    ensures bits { IfOk result (λ found. IfSome found (λ plan.
        plan.1 ≡ bits_of_parts version (plan_parts plan.0))) }
    ensures none { IfOk result (λ found. IfNone found ((others : List Part) →
        AreTextParts version (chars text.now) others → 32768 ≤ bits_of_parts version others)) }
{
    let chars = chars_of(alloc, text)?;
    let all = facts_of_all(alloc, &chars)?;
    plan_in(alloc, version, &chars, &all)
}
