//! The bytes of a character, appended to the open segment of a plan.

ghost use Rattle.std.specs.Prelude.{◌≡◌, ◌≢◌, ◌<◌, true, get_or, OnOk};
ghost use Rattle.text_plans.specs.Choices.{AddsBytes, char_size};
ghost use Rattle.text_plans.specs.Lanes.{AreFacts};
ghost use Rattle.text_plans.specs.Search.{can_write};
ghost use Rattle.qrcode_base.specs.declared.types.Mode.TheVariants.{Numeric, Alphanumeric, Byte};
ghost use Rattle.qrcode_base.specs.declared.types.Mode.TheVariants.{Kanji};

use crate::facts::{Facts, single_in};
use crate::plan::Draft;
use crate::rules::Rules;
use character_sets::{byte_of, pair_of};
use qrcode_base::types::Mode;
use std::alloc::AllocError;

/// Appends the bytes of a character in a lane, of which it has some.
fn push_bytes(draft: &mut Draft, c: char, facts: &Facts, lane: usize) -> Result<(), AllocError>
    requires lane { lane < 17 }
    requires known { AreFacts c facts.now }
    requires some { get_or facts.now.sizes lane 0 ≢ 0 }
    ensures { OnOk result
        (AddsBytes lane Byte c (get_or facts.now.sizes lane 0) draft.old draft.new) }
{
    if lane == 14 {
        return push_shift_jis(draft, c, facts);
    }
    if lane == 15 {
        draft.push(c.encode_utf8(&mut [0; 4]).as_bytes())?;
        return Ok(());
    }
    match single_in(c, lane) {
        Some(byte) => {
            draft.push(&[byte])?;
            Ok(())
        }
        None => unreachable!(),
    }
}

/// Appends the bytes of a character in Shift JIS, of which it has some.
fn push_shift_jis(draft: &mut Draft, c: char, facts: &Facts) -> Result<(), AllocError>
    requires known { AreFacts c facts.now }
    requires some { get_or facts.now.sizes 14 0 ≢ 0 }
    ensures { OnOk result (AddsBytes 14 Byte c (get_or facts.now.sizes 14 0) draft.old draft.new) }
{
    match byte_of(c, Some(20)) {
        Some(byte) => {
            draft.push(&[byte])?;
            Ok(())
        }
        None => match pair_of(c) {
            Some((lead, trail)) => {
                draft.push(&[lead, trail])?;
                Ok(())
            }
            None => unreachable!(),
        },
    }
}

/// Appends the two bytes of a pair of the Kanji mode.
fn push_pair(draft: &mut Draft, c: char, facts: &Facts, lane: usize) -> Result<(), AllocError>
    requires lane { lane < 17 }
    requires known { AreFacts c facts.now }
    requires pair { facts.now.pair ≡ true }
    ensures { OnOk result (AddsBytes lane Kanji c 2 draft.old draft.new) }
{
    match pair_of(c) {
        Some((lead, trail)) => {
            draft.push(&[lead, trail])?;
            Ok(())
        }
        None => unreachable!(),
    }
}

/// Appends a digit.
#[tactic(auto, using(crate::proofs::Adding::digit_small))]
fn push_digit(draft: &mut Draft, c: char, facts: &Facts, lane: usize) -> Result<(), AllocError>
    requires known { AreFacts c facts.now }
    requires digit { facts.now.digit ≡ true }
    ensures { OnOk result (AddsBytes lane Numeric c 1 draft.old draft.new) }
{
    draft.push(&[c as u8])?;
    Ok(())
}

/// Appends an Alphanumeric character.
#[tactic(auto, using(crate::proofs::Adding::sign_small))]
fn push_sign(draft: &mut Draft, c: char, facts: &Facts, lane: usize) -> Result<(), AllocError>
    requires known { AreFacts c facts.now }
    requires sign { facts.now.alphanumeric ≡ true }
    ensures { OnOk result (AddsBytes lane Alphanumeric c 1 draft.old draft.new) }
{
    draft.push(&[c as u8])?;
    Ok(())
}

/// Appends a character to the open segment, whose mode has it.
pub fn push_char(
    draft: &mut Draft,
    c: char,
    facts: &Facts,
    mode: Mode,
    lane: usize,
    rules: &Rules,
) -> Result<(), AllocError>
    requires lane { lane < 17 }
    requires known { AreFacts c facts.now }
    requires allowed { can_write rules.now facts.now lane mode ≡ true }
    ensures { OnOk result
        (AddsBytes lane mode c (char_size facts.now lane mode) draft.old draft.new) }
{
    match mode {
        Mode::Numeric => push_digit(draft, c, facts, lane),
        Mode::Alphanumeric => push_sign(draft, c, facts, lane),
        Mode::Byte => push_bytes(draft, c, facts, lane),
        Mode::Kanji => push_pair(draft, c, facts, lane),
    }
}
