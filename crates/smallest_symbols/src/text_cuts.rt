//! Cuts of a text into as few parts as can be, each for one symbol of a sequence, in whichever
//! manner the sequence is written (ISO/IEC 18004:2006, "Structured Append").
//!
//! 1. Refuse what has more characters than 16 symbols hold.
//! 2. List the places between characters, at which the text may be cut (`cut_places`).
//! 3. In each manner in which there may be some (`is_stuck`) make each part the longest one that fits
//!    (`last_fitting`): guess its end by the bits that its characters take, and test it
//!    (`fitting_bits`). A part that lies within one that fits, fits too, so that no other cuts make
//!    fewer parts in the manner.
//! 4. Take the fewest of these (`fewer`).
//!
//! ```text
//! let cuts = smallest_text_cuts(alloc, text, EcLevel::M, 10)?;
//! ```
ghost use Rattle.std.specs.Prelude.{◌≡◌, ◌+◌, ◌<◌, ◌≤◌, ◌⊎◌, ℕ, length, nat_abs, chars};
ghost use Rattle.std.specs.Prelude.{slice_index_or};
ghost use Rattle.std.specs.Prelude.{All, List, Some, true, IfErr, IfNone, IfOk, IfSome, OnOk};
ghost use Rattle.std.specs.List.Sorted.{IsNonDecreasing};
ghost use Rattle.qrcode_base.specs.Symbols.{IsNormalNumber, capacity};
ghost use Rattle.qrcode_base.specs.declared.symbols.TheConstants.{LONGEST_DATA};
ghost use Rattle.qrcode_bits.specs.Places.{AreCutPlaces, IsCutPlace};
ghost use Rattle.qrcode_bits.specs.Plans.{normal};
ghost use Rattle.qrcode_bits.specs.declared.bits.front.Content.TheVariants.{Text};
ghost use Rattle.smallest_symbols.specs.TextParts.{IsSomeTextPartTooLong, IsTextPartTooLong};
ghost use Rattle.text_plans.specs.declared.rules.Manner.{Manner};
ghost use Rattle.smallest_symbols.specs.TextCuts.{AreBestTextCuts, AreFewestIn, HasNoCutsIn};
ghost use Rattle.smallest_symbols.specs.TextCuts.{IsPartFromTooLong, IsTextCutsRefusal};
ghost use Rattle.smallest_symbols.specs.TextCuts.{count_of_cuts};

use crate::normal_texts::char_count;
use crate::part_choice::{HEADER_BITS, chosen_part};
use qrcode_base::symbols::{LONGEST_DATA, is_normal_number};
use qrcode_base::types::{EcLevel, QrError, QrResult, Version};
use qrcode_bits::bits::{Content, cut_places, data_capacity_bits};
use std::alloc::{AllocError, Global};
use text_plans::Manner;

/// The most symbols of a sequence.
const MOST_PARTS: usize = 16;

/// How many ends of a part are guessed by what its characters take, before the places that are left
/// are halved.
const MOST_GUESSES: usize = 8;

/// Returns the places, in bytes of UTF-8, at which to cut a text so that each part fits a version
/// of at most `max_version` after the header of a sequence, where all parts are written in one
/// manner, and no other cuts make fewer parts that do, in whichever manner. Each is between two
/// characters. A text that fits one symbol after a header has no cuts, and needs no sequence.
///
/// The manners are those in which readers that take each symbol by itself and readers that join
/// them find one text: without designators and Kanji segments; without designators, where bytes are
/// those characters of ASCII alone that are the same in JIS X 0201; and with a designator in front of
/// each symbol.
///
/// # Errors
///
/// It fails with `InvalidResourceLimits` if `max_version` is outside 1 to 40. Then it fails with
/// `DataTooLong` only where no cuts make at most 16 parts that fit; more than 16 times 7089
/// characters fail without an allocation. It fails with `OutOfMemory` where an allocation failed.
pub fn smallest_text_cuts(
    alloc: Global,
    text: &str,
    level: EcLevel,
    max_version: i16,
) -> QrResult<Vec<usize>>
    ensures best { IfOk result (λ cuts.
        AreBestTextCuts text.now level (nat_abs max_version) cuts.items) }
    ensures ordered { IfOk result (λ cuts. IsNonDecreasing cuts.items) }
    ensures within { IfOk result (λ cuts. All (λ cut. cut ≤ length text.now) cuts.items) }
    ensures places { IfOk result (λ cuts. All (λ cut. IsCutPlace Text text.now cut) cuts.items) }
    ensures fitting { IfOk result (λ cuts.
        IsSomeTextPartTooLong text.now cuts.items level (nat_abs max_version) → ⊥) }
    ensures limit { OnOk result (IsNormalNumber max_version) }
    ensures refusal { IfErr result (IsTextCutsRefusal text.now level max_version) }
{
    fewest_parts(alloc, text, level, max_version)
}

/// Returns the cuts of the fewest parts that fit in some manner.
fn fewest_parts(alloc: Global, text: &str, level: EcLevel, max_version: i16) -> QrResult<Vec<usize>>
    ensures best { IfOk result (λ cuts.
        AreBestTextCuts text.now level (nat_abs max_version) cuts.items) }
    ensures limit { OnOk result (IsNormalNumber max_version) }
    ensures refusal { IfErr result (IsTextCutsRefusal text.now level max_version) }
{
    if !is_normal_number(max_version) {
        return Err(QrError::InvalidResourceLimits);
    }
    // A part has at most LONGEST_DATA characters in any version.
    if char_count(text) > MOST_PARTS * LONGEST_DATA {
        return Err(QrError::DataTooLong);
    }
    let limit = max_version as usize;
    let places = text_places(alloc, text)?;
    let ascii = longest_parts(alloc, text, &places, Manner::Ascii, level, limit)?;
    let paired = longest_parts(alloc, text, &places, Manner::Paired, level, limit)?;
    let designated = longest_parts(alloc, text, &places, Manner::Designated, level, limit)?;
    let plain = fewer(ascii, paired);
    match fewer(plain, designated) {
        Some(cuts) => Ok(cuts),
        None => Err(QrError::DataTooLong),
    }
}

/// Returns how many cuts there are, the greatest number if there are none.
fn count_of(cuts: &Option<Vec<usize>>) -> usize
    ensures { result ≡ count_of_cuts cuts.now }
{
    match cuts {
        Some(cuts) => cuts.len(),
        None => usize::MAX,
    }
}

/// Returns the fewer of two lists of cuts, the first if they are as many.
fn fewer(first: Option<Vec<usize>>, second: Option<Vec<usize>>) -> Option<Vec<usize>>
    ensures less { count_of_cuts result ≤ count_of_cuts first }
    ensures also { count_of_cuts result ≤ count_of_cuts second }
    ensures either { (result ≡ first) ⊎ (result ≡ second) }
{
    if count_of(&first) <= count_of(&second) {
        first
    } else {
        second
    }
}

/// Returns the cuts by which each part is the longest one that fits in a manner, if they make at
/// most 16 parts. It fails for lack of memory.
fn longest_parts(
    alloc: Global,
    text: &str,
    places: &[usize],
    manner: Manner,
    level: EcLevel,
    limit: usize,
) -> QrResult<Option<Vec<usize>>>
    requires places { AreCutPlaces Text text.now places.now }
    requires some { 1 ≤ limit }
    requires most { limit ≤ 40 }
    ensures fewest { IfOk result (λ found. IfSome found (λ cuts.
        AreFewestIn manner text.now level limit cuts.items)) }
    ensures none { IfOk result (λ found. IfNone found
        (HasNoCutsIn manner text.now level limit)) }
    ensures memory { IfErr result (λ e. e ≡ QrError.OutOfMemory) }
{
    if is_stuck(alloc, text, places, manner, level, limit)? {
        return Ok(None);
    }
    let mut cuts = Vec::new(alloc);
    let mut first = 0;
    for count in 0..MOST_PARTS {
        let last = last_fitting(alloc, text, places, first, manner, level, limit)?;
        if last + 1 == places.len() {
            return Ok(Some(cuts));
        }
        if last == first {
            return Ok(None);
        }
        cuts.push(places[last])?;
        first = last;
    }
    Ok(None)
}

/// Returns whether the first character beyond ASCII fits no version in a manner, as where this has no
/// designators: then no part with it does. It fails for lack of memory.
fn is_stuck(
    alloc: Global,
    text: &str,
    places: &[usize],
    manner: Manner,
    level: EcLevel,
    limit: usize,
) -> QrResult<bool>
    requires places { AreCutPlaces Text text.now places.now }
    requires some { 1 ≤ limit }
    requires most { limit ≤ 40 }
    ensures stuck { IfOk result (λ stuck. stuck ≡ true → HasNoCutsIn manner text.now level limit) }
    ensures memory { IfErr result (λ e. e ≡ QrError.OutOfMemory) }
{
    let index = ascii_places(text, places);
    if index + 1 >= places.len() {
        return Ok(false);
    }
    let part = &text[places[index]..places[index + 1]];
    match fitting_bits(alloc, part, manner, level, limit)? {
        Some(_) => Ok(false),
        None => Ok(true),
    }
}

/// Returns how many places there are before the first character beyond ASCII, or all.
fn ascii_places(text: &str, places: &[usize]) -> usize
    ensures { result ≤ length places.now }
{
    match text.as_bytes().iter().position(|byte| *byte >= 0x80) {
        Some(first) => places.partition_point(|place| *place < first),
        None => places.len(),
    }
}

/// Returns the places between the characters of a text, with its start and its end. It fails for
/// lack of memory.
fn text_places(alloc: Global, text: &str) -> Result<Vec<usize>, AllocError>
    ensures { IfOk result (λ places. AreCutPlaces Text text.now places.items) }
{
    cut_places(alloc, Content::Text, text.as_bytes())
}

/// Returns the index of the last place up to which the part from the place at index `first` fits in
/// a manner.
fn last_fitting(
    alloc: Global,
    text: &str,
    places: &[usize],
    first: usize,
    manner: Manner,
    level: EcLevel,
    limit: usize,
) -> QrResult<usize>
    requires places { AreCutPlaces Text text.now places.now }
    requires exists { first < length places.now }
    requires some { 1 ≤ limit }
    requires most { limit ≤ 40 }
    ensures from { IfOk result (λ last. first ≤ last) }
    ensures exists { IfOk result (λ last. last < length places.now) }
    ensures fits { IfOk result (λ last. IsPartFromTooLong manner text.now level limit
        (slice_index_or places.now first 0) (slice_index_or places.now last 0) → ⊥) }
    ensures last { IfOk result (λ last. (later : ℕ) → last < later → later < length places.now →
        IsPartFromTooLong manner text.now level limit (slice_index_or places.now first 0)
        (slice_index_or places.now later 0)) }
    ensures memory { IfErr result (λ e. e ≡ QrError.OutOfMemory) }
{
    // The part up to the place at index `low` fits, and no part from `high` on.
    let mut low = first;
    let mut high = first + (places.len() - first).min(first_too_long(level, limit));
    let room = capacity_of(level, limit).saturating_sub(HEADER_BITS);
    let mut guess = first_guess(places, first, room);
    let mut guesses = MOST_GUESSES;
    while high - low > 1 {
        if guesses == 0 {
            guess = low + (high - low) / 2;
        }
        guesses = guesses.saturating_sub(1);
        let middle = between(low, high, guess);
        let part = &text[places[first]..places[middle]];
        if let Some(bits) = fitting_bits(alloc, part, manner, level, limit)? {
            low = middle;
            guess = middle.saturating_add(more_characters(middle - first, bits, room));
        } else {
            high = middle;
            guess = middle - 1 - (middle - low) / 16;
        }
    }
    Ok(low)
}

/// Returns a guess, or what is nearest to it between two numbers.
fn between(low: usize, high: usize, guess: usize) -> usize
    requires { low + 1 < high }
    ensures above { low < result }
    ensures below { result < high }
{
    guess.max(low + 1).min(high - 1)
}

/// Returns a guess at the place up to which a part fits: with so many bytes there is room for it in
/// UTF-8, with its designator and its header.
fn first_guess(places: &[usize], first: usize, room: usize) -> usize
    requires { first < length places.now }
{
    let end = places[first].saturating_add(room.saturating_sub(32) / 8);
    places
        .partition_point(|place| *place <= end)
        .saturating_sub(1)
}

/// Returns a guess at how many more characters there is room for after some that take so many bits.
fn more_characters(count: usize, bits: usize, room: usize) -> usize {
    room.saturating_sub(bits).saturating_mul(count) / bits.max(1)
}

/// Returns how many data bits a version has at a level.
fn capacity_of(level: EcLevel, number: usize) -> usize
    requires some { 1 ≤ number }
    requires last { number ≤ 40 }
    ensures { capacity (normal number) level ≡ Some result }
{
    match data_capacity_bits(Version::Normal(number as i16), level) {
        Ok(bits) => bits,
        Err(_) => 0,
    }
}

/// Returns a number of characters from which on a text fits no version up to a greatest one, since
/// no mode takes fewer than ten bits for three characters.
fn first_too_long(level: EcLevel, limit: usize) -> usize
    requires first { 1 ≤ limit }
    requires last { limit ≤ 40 }
    ensures some { 1 ≤ result }
    ensures most { result ≤ LONGEST_DATA + 1 }
    ensures too_long { (manner : Manner) (text : List ℕ) → result ≤ length text →
        IsTextPartTooLong manner text level limit }
{
    ((capacity_of(level, limit) / 10 + 1) * 3).min(LONGEST_DATA + 1)
}

/// Returns whether a text fits some version up to a greatest one, after a header, in a manner; if so,
/// the bits that it takes. It fails for lack of memory.
fn fitting_bits(
    alloc: Global,
    text: &str,
    manner: Manner,
    level: EcLevel,
    limit: usize,
) -> QrResult<Option<usize>>
    requires some { 1 ≤ limit }
    requires last { limit ≤ 40 }
    ensures fits { IfOk result (λ found. IfSome found (λ bits.
        IsTextPartTooLong manner (chars text.now) level limit → ⊥)) }
    ensures too_long { IfOk result (λ found. IfNone found
        (IsTextPartTooLong manner (chars text.now) level limit)) }
    ensures memory { IfErr result (λ e. e ≡ QrError.OutOfMemory) }
{
    match chosen_part(alloc, text, manner, level, limit) {
        Ok(choice) => Ok(Some(choice.bits)),
        Err(QrError::DataTooLong) => Ok(None),
        Err(_) => Err(QrError::OutOfMemory),
    }
}
