//! The least plan, written from the first character on by the weights of what follows each.

ghost use Rattle.std.specs.Prelude.{◌≡◌, ◌<◌, length, get_or, Some, None, OnOk, IfOk, []};
ghost use Rattle.text_plans.specs.Lanes.{AreFacts, AreAllFacts};
ghost use Rattle.text_plans.specs.Plan.{plan_parts};
ghost use Rattle.text_plans.specs.Ways.{AreRulesOf};
ghost use Rattle.text_plans.specs.Starts.{BeginWith, IsStart, front_of, weight_from};
ghost use Rattle.text_plans.specs.Tables.{AreRowsOf, IsPlanOf};
ghost use Rattle.text_plans.specs.Keeping.{KeepsEnough, switch_kept};
ghost use Rattle.text_plans.specs.Search.{go_on, lane_before, no_rest};
ghost use Rattle.text_plans.specs.Choices.{choice_weight, open_value, open_weight};
ghost use Rattle.text_plans.specs.Choices.{CanBe, IsCharStep, Makes, lane_after, step_value};

use crate::facts::Facts;
use crate::lanes::designator_of;
use crate::plan::{Draft, TextPlan};
use crate::push::push_char;
use crate::row::{LIMIT, Rest, begin, go_on, least_switch};
use crate::rules::Rules;
use qrcode_base::types::Mode;
use std::alloc::{AllocError, Global};

/// How a character is written: in the open segment, as the first of a segment, or as the first of a
/// segment after the designator of a lane.
#[derive(Clone, Copy)]
pub enum Choice {
    GoOn,
    Begin(Mode),
    Change(usize, Mode),
}

/// Returns the weight of a character that goes on with a segment of a mode and a number of bytes.
fn going_on(rules: &Rules, facts: &Facts, lane: usize, rest: &Rest, mode: Mode, count: usize) -> u32
    requires { lane < 17 }
    ensures { result ≡ go_on rules.now facts.now lane rest.now mode count }
{
    let size = facts.sizes[lane];
    match mode {
        Mode::Numeric => match count % 3 {
            0 => go_on(facts.digit, 4, rest.digits1),
            1 => go_on(facts.digit, 3, rest.digits2),
            _ => go_on(facts.digit, 3, rest.digits0),
        },
        Mode::Alphanumeric => {
            if count % 2 == 0 {
                go_on(facts.alphanumeric, 6, rest.signs1)
            } else {
                go_on(facts.alphanumeric, 5, rest.signs0)
            }
        }
        Mode::Byte => go_on(size != 0, 8 * u64::from(size), rest.byte),
        Mode::Kanji => go_on(facts.pair && rules.kanji_lane == lane, 13, rest.kanji),
    }
}

/// Returns the weight of a character that goes on with the open segment, the limit if there
/// is none.
fn opened_weight(
    rules: &Rules,
    facts: &Facts,
    lane: usize,
    rest: &Rest,
    opened: Option<Mode>,
    count: usize,
) -> u32
    requires { lane < 17 }
    ensures { result ≡ open_weight rules.now facts.now lane rest.now opened count }
{
    match opened {
        Some(mode) => going_on(rules, facts, lane, rest, mode, count),
        None => LIMIT,
    }
}

/// Returns the least weight of what follows, by the segment that is open.
fn open_value(rest: &Rest, opened: Option<Mode>, count: usize) -> u32
    ensures { result ≡ open_value rest.now opened count }
{
    match opened {
        None => rest.fresh,
        Some(Mode::Numeric) => match count % 3 {
            0 => rest.digits0,
            1 => rest.digits1,
            _ => rest.digits2,
        },
        Some(Mode::Alphanumeric) => {
            if count % 2 == 0 {
                rest.signs0
            } else {
                rest.signs1
            }
        }
        Some(Mode::Byte) => rest.byte,
        Some(Mode::Kanji) => rest.kanji,
    }
}

/// Returns how a character is written, by what follows it in each lane, in a lane in which a
/// segment of a mode and a number of bytes may be open; `value` is the least weight of what follows
/// from the character on.
#[tactic(auto, using(crate::proofs::Choosing::value_is, crate::proofs::Choosing::go_possible))]
fn choice_of(
    rules: &Rules,
    facts: &Facts,
    row: &[Rest],
    lane: usize,
    opened: Option<Mode>,
    count: usize,
    value: u32,
) -> Choice
    requires lane { lane < 17 }
    requires row { length row.now ≡ 17 }
    requires value { value ≡ open_value (lane_before rules.now facts.now
        (switch_kept rules.now facts.now row.now 15)
        lane (get_or row.now lane no_rest)) opened count }
    ensures right { value < LIMIT →
        choice_weight rules.now facts.now row.now lane opened count result ≡ value }
    ensures possible { choice_weight rules.now facts.now row.now lane opened count result < LIMIT →
        CanBe rules.now facts.now lane opened result }
{
    let rest = &row[lane];
    if opened_weight(rules, facts, lane, rest, opened, count) <= value {
        return Choice::GoOn;
    }
    let (begin_weight, begin_mode) = begin(rules, facts, lane, rest);
    if begin_weight <= value {
        return Choice::Begin(begin_mode);
    }
    let change = least_switch(rules, facts, row);
    Choice::Change(change.lane, change.mode)
}

/// Writes a character as it was chosen, and returns the lane after it.
fn write_char(
    draft: &mut Draft,
    choice: Choice,
    c: char,
    facts: &Facts,
    lane: usize,
    rules: &Rules,
) -> Result<usize, AllocError>
    requires lane { lane < 17 }
    requires known { AreFacts c facts.now }
    requires possible { CanBe rules.now facts.now lane draft.old.mode choice }
    requires sound { draft.old.mode ≡ None → draft.old.bytes ≡ [] }
    ensures lane { IfOk result (λ after. after ≡ lane_after lane choice) }
    ensures made { OnOk result (Makes facts.now lane c choice draft.old draft.new) }
{
    match choice {
        Choice::GoOn => {
            if let Some(mode) = draft.mode() {
                push_char(draft, c, facts, mode, lane, rules)?;
            }
            Ok(lane)
        }
        Choice::Begin(mode) => {
            draft.close()?;
            draft.begin_segment(mode);
            push_char(draft, c, facts, mode, lane, rules)?;
            Ok(lane)
        }
        Choice::Change(to, mode) => {
            draft.close()?;
            if let Some(number) = designator_of(to) {
                draft.designate(number)?;
            }
            draft.begin_segment(mode);
            push_char(draft, c, facts, mode, to, rules)?;
            Ok(to)
        }
    }
}

/// Writes a character, by what follows it in each lane, and returns the lane after it; `value` is
/// the least weight of what follows from the character on.
fn write_next(
    draft: &mut Draft,
    rules: &Rules,
    facts: &Facts,
    row: &[Rest],
    lane: usize,
    c: char,
    value: u32,
) -> Result<usize, AllocError>
    requires lane { lane < 17 }
    requires row { length row.now ≡ 17 }
    requires known { AreFacts c facts.now }
    requires sound { draft.old.mode ≡ None → draft.old.bytes ≡ [] }
    requires value { value ≡ step_value rules.now facts.now row.now lane draft.old }
    requires small { value < LIMIT }
    ensures { IfOk result (λ after.
        IsCharStep rules.now facts.now row.now lane c draft.old draft.new after) }
{
    let choice = choice_of(rules, facts, row, lane, draft.mode(), draft.count(), value);
    let after = write_char(draft, choice, c, facts, lane, rules)?;
    Ok(after)
}

/// Returns a plan that has no character yet, with the designator of a lane, if the lane has one, and
/// room for a number of bytes.
fn begun(alloc: Global, room: usize, start: usize) -> Result<Draft, AllocError>
    requires { start < 17 }
    ensures parts { IfOk result (λ draft. draft.parts ≡ front_of start) }
    ensures mode { IfOk result (λ draft. draft.mode ≡ None) }
    ensures bytes { IfOk result (λ draft. draft.bytes ≡ []) }
{
    let mut draft = Draft::with_capacity(alloc, room)?;
    if let Some(first) = designator_of(start) {
        draft.designate(first)?;
    }
    Ok(draft)
}

/// Returns a plan of the least weight of a text in a way that begins in a lane, by what follows each
/// of its characters.
pub fn plan_of(
    alloc: Global,
    rules: &Rules,
    start: usize,
    chars: &[char],
    all: &[Facts],
    rows: &[[Rest; 17]],
) -> Result<TextPlan, AllocError>
    requires known { AreAllFacts chars.now all.now }
    requires rules { AreRulesOf rules.now }
    requires enough { KeepsEnough rules.now all.now }
    requires start { IsStart rules.now start }
    requires inside { start < 17 }
    requires rows { AreRowsOf rules.now all.now rows.now }
    requires small { weight_from rules.now.version rules.now all.now start < LIMIT }
    ensures plan { IfOk result (λ plan. IsPlanOf rules.now chars.now
        (weight_from rules.now.version rules.now all.now start) (plan_parts plan)) }
    ensures front { IfOk result (λ plan. BeginWith (front_of start) (plan_parts plan)) }
{
    let mut draft = begun(alloc, chars.len(), start)?;
    let mut lane = start;
    for k in 0..all.len() {
        let value = open_value(&rows[all.len() - k][lane], draft.mode(), draft.count());
        let row = &rows[all.len() - 1 - k];
        lane = write_next(&mut draft, rules, &all[k], row, lane, chars[k], value)?;
    }
    draft.close()?;
    Ok(draft.finish())
}
