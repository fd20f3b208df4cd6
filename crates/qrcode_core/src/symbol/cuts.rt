//! Cuts of a message into as few parts as can be, for `Symbol::sequence` and
//! `Symbol::text_sequence`.
//!
//! 1. Refuse what is longer than 16 parts of the most bytes that fit any version.
//! 2. List the places at which the message may be cut (`cut_places`).
//! 3. Make each part the longest one that fits (`last_fitting`), whose end `part_range` tells. A
//!    part that lies within one that fits, fits too, so that no other cuts make fewer parts.
ghost use Rattle.std.specs.Prelude.{◌≡◌, ◌≢◌, ◌+◌, ◌<◌, ◌≤◌, ℕ, length, nat_abs};
ghost use Rattle.std.specs.Prelude.{slice_index_or, take, All, List};
ghost use Rattle.std.specs.Prelude.{true, false, IfOk, IfErr, OnOk};
ghost use Rattle.std.specs.List.Sorted.{IsNonDecreasing};
ghost use Rattle.qrcode_base.specs.Symbols.{IsNormalNumber};
ghost use Rattle.qrcode_bits.specs.Contents.{content_bits, parsed_bytes};
ghost use Rattle.qrcode_bits.specs.Frame.{front_of, header_of};
ghost use Rattle.qrcode_bits.specs.Places.{AreCutPlaces, IsCutPlace, IsUnitEnd};
ghost use Rattle.qrcode_bits.specs.Plans.{normal, FitsNone};
ghost use Rattle.qrcode_bits.specs.declared.bits.front.Content.TheVariants.{Bytes, Text, Elements};
ghost use Rattle.qrcode_core.specs.BestCuts.{AreBestCuts, IsCutsRefusal, IsPartTooLong};
ghost use Rattle.qrcode_core.specs.Sequence.{IsSomePartTooLong};
ghost use Rattle.qrcode_base.specs.declared.symbols.TheConstants.{LONGEST_DATA};

use qrcode_base::symbols::{LONGEST_DATA, is_normal_number};
use qrcode_base::types::{EcLevel, QrError, QrResult, Version};
use qrcode_bits::bits::{
    Content, Front, SequenceHeader, cut_places, data_capacity_bits, fits_front, fitting_range,
};
use std::alloc::Global;

/// The most symbols of a sequence.
const MOST_PARTS: usize = 16;

/// Returns the places at which to cut a message so that `Symbol::sequence` takes it: each part fits
/// a version of at most `max_version` after a header, and no other cuts make fewer parts that do.
/// No pair of the Kanji mode is cut. A message that fits one symbol after a header has no cuts, and
/// needs no sequence.
///
/// # Errors
///
/// It fails with `InvalidResourceLimits` if `max_version` is outside 1 to 40. Then it fails with
/// `DataTooLong` exactly where no cuts make at most 16 parts that fit, and with `OutOfMemory` where
/// an allocation failed.
pub fn best_cuts(
    alloc: Global,
    bytes: &[u8],
    level: EcLevel,
    max_version: i16,
) -> QrResult<Vec<usize>>
    ensures best { IfOk result (λ cuts.
        AreBestCuts Bytes bytes.now level (nat_abs max_version) cuts.items) }
    ensures ordered { IfOk result (λ cuts. IsNonDecreasing cuts.items) }
    ensures within { IfOk result (λ cuts. All (λ cut. cut ≤ length bytes.now) cuts.items) }
    ensures fitting { IfOk result (λ cuts.
        IsSomePartTooLong Bytes bytes.now cuts.items level (nat_abs max_version) → ⊥) }
    ensures limit { OnOk result (IsNormalNumber max_version) }
    ensures refusal { IfErr result (IsCutsRefusal Bytes bytes.now level max_version) }
{
    longest_parts(alloc, Content::Bytes, bytes, level, max_version)
}

/// Returns the places at which to cut a text so that `Symbol::text_sequence` takes it, as
/// `best_cuts` does of bytes: each is between two characters. It fails as `best_cuts` does.
pub fn best_text_cuts(
    alloc: Global,
    text: &str,
    level: EcLevel,
    max_version: i16,
) -> QrResult<Vec<usize>>
    ensures best { IfOk result (λ cuts.
        AreBestCuts Text text.now level (nat_abs max_version) cuts.items) }
    ensures ordered { IfOk result (λ cuts. IsNonDecreasing cuts.items) }
    ensures within { IfOk result (λ cuts. All (λ cut. cut ≤ length text.now) cuts.items) }
    ensures places { IfOk result (λ cuts. All (λ cut. IsCutPlace Text text.now cut) cuts.items) }
    ensures fitting { IfOk result (λ cuts.
        IsSomePartTooLong Text text.now cuts.items level (nat_abs max_version) → ⊥) }
    ensures limit { OnOk result (IsNormalNumber max_version) }
    ensures refusal { IfErr result (IsCutsRefusal Text text.now level max_version) }
{
    longest_parts(alloc, Content::Text, text.as_bytes(), level, max_version)
}

/// Returns the cuts by which each part is the longest one that fits.
fn longest_parts(
    alloc: Global,
    content: Content,
    bytes: &[u8],
    level: EcLevel,
    max_version: i16,
) -> QrResult<Vec<usize>>
    requires cut { content ≢ Elements }
    ensures best { IfOk result (λ cuts.
        AreBestCuts content bytes.now level (nat_abs max_version) cuts.items) }
    ensures limit { OnOk result (IsNormalNumber max_version) }
    ensures refusal { IfErr result (IsCutsRefusal content bytes.now level max_version) }
{
    if !is_normal_number(max_version) {
        return Err(QrError::InvalidResourceLimits);
    }
    // A part has at most LONGEST_DATA bytes in any version.
    if bytes.len() > MOST_PARTS * LONGEST_DATA {
        return Err(QrError::DataTooLong);
    }
    let places = cut_places(alloc, content, bytes)?;
    let mut cuts = Vec::new(alloc);
    let mut first = 0;
    for count in 0..MOST_PARTS {
        let last = last_fitting(alloc, content, bytes, &places, first, level, max_version)?;
        if last + 1 == places.len() {
            return Ok(cuts);
        }
        if last == first {
            return Err(QrError::DataTooLong);
        }
        cuts.push(places[last])?;
        first = last;
    }
    Err(QrError::DataTooLong)
}

/// Returns the index of the last place up to which the part from the place at index `first` fits.
fn last_fitting(
    alloc: Global,
    content: Content,
    bytes: &[u8],
    places: &[usize],
    first: usize,
    level: EcLevel,
    max_version: i16,
) -> QrResult<usize>
    requires cut { content ≢ Elements }
    requires places { AreCutPlaces content bytes.now places.now }
    requires exists { first < length places.now }
    requires limit { IsNormalNumber max_version }
    ensures from { IfOk result (λ last. first ≤ last) }
    ensures exists { IfOk result (λ last. last < length places.now) }
    ensures fits { IfOk result (λ last. IsPartTooLong content bytes.now level (nat_abs max_version)
        (slice_index_or places.now first 0) (slice_index_or places.now last 0) → ⊥) }
    ensures last { IfOk result (λ last. (later : ℕ) → last < later → later < length places.now →
        IsPartTooLong content bytes.now level (nat_abs max_version)
        (slice_index_or places.now first 0) (slice_index_or places.now later 0)) }
    ensures memory { IfErr result (λ e. e ≡ QrError.OutOfMemory) }
{
    if first + 1 == places.len() {
        return Ok(first);
    }
    let end = first_from(places, first, first_too_long(level, max_version)) - 1;
    let window = &bytes[places[first]..places[end]];
    let (sure, _past) = part_range(alloc, content, window, level, max_version)?;
    let past = first_from(places, first, sure + 1);
    Ok((past - 1).min(end))
}

/// Returns a number of bytes from which on data fit no version up to a greatest one, since no mode
/// takes fewer than ten bits for three bytes.
fn first_too_long(level: EcLevel, max_version: i16) -> usize
    requires limit { IsNormalNumber max_version }
    ensures some { 1 ≤ result }
    ensures most { result ≤ LONGEST_DATA + 1 }
    ensures too_long { (front : ℕ) → (message : List ℕ) → All (λ byte. byte < 256) message →
        result ≤ length message → FitsNone normal front message level (nat_abs max_version) }
{
    match data_capacity_bits(Version::Normal(max_version), level) {
        Ok(limit) => ((limit / 10 + 1) * 3).min(LONGEST_DATA + 1),
        Err(_) => LONGEST_DATA + 1,
    }
}

/// Returns the index of the first place, from the one at index `first` on, that is at least `size`
/// bytes after it, or the number of places.
fn first_from(places: &[usize], first: usize, size: usize) -> usize
    requires exists { first < length places.now }
    requires order { (i j : ℕ) → i ≤ j → j < length places.now →
        slice_index_or places.now i 0 ≤ slice_index_or places.now j 0 }
    ensures from { first ≤ result }
    ensures within { result ≤ length places.now }
    ensures before { (i : ℕ) → first ≤ i → i < result →
        slice_index_or places.now i 0 < slice_index_or places.now first 0 + size }
    ensures after { (i : ℕ) → result ≤ i → i < length places.now →
        slice_index_or places.now first 0 + size ≤ slice_index_or places.now i 0 }
{
    let mut low = first;
    let mut high = places.len();
    while low < high {
        let middle = low + (high - low) / 2;
        if places[middle] - places[first] < size {
            low = middle + 1;
        } else {
            high = middle;
        }
    }
    low
}

/// Returns two numbers of bytes: up to the first, the part that begins a window fits some version,
/// after a header, and from the second on it does not. No units end between them.
fn part_range(
    alloc: Global,
    content: Content,
    window: &[u8],
    level: EcLevel,
    max_version: i16,
) -> QrResult<(usize, usize)>
    requires limit { IsNormalNumber max_version }
    requires short { length window.now ≤ LONGEST_DATA }
    ensures less { IfOk result (λ range. range.0 < range.1) }
    ensures fits { IfOk result (λ range. (place : ℕ) →
        IsUnitEnd (parsed_bytes content window.now) place → place ≤ range.0 →
        FitsNone normal (20 + length (content_bits content))
        (take place (parsed_bytes content window.now)) level (nat_abs max_version) → ⊥) }
    ensures too_long { IfOk result (λ range. (place : ℕ) →
        IsUnitEnd (parsed_bytes content window.now) place → range.1 ≤ place →
        FitsNone normal (20 + length (content_bits content))
        (take place (parsed_bytes content window.now)) level (nat_abs max_version)) }
    ensures close { IfOk result (λ range. (place : ℕ) →
        IsUnitEnd (parsed_bytes content window.now) place → range.0 < place →
        place < range.1 → ⊥) }
    ensures memory { IfErr result (λ e. e ≡ QrError.OutOfMemory) }
{
    let front = part_front(content);
    fitting_range(alloc, &front, window, level, max_version)
}

/// Returns the front of a part. Which header it has changes no number of bits.
fn part_front(content: Content) -> Front
    ensures { result ≡ front_of (Some (header_of 1 2 0)) content }
{
    Front::with_header(SequenceHeader::new(1, 2, 0), content)
}

/// Returns whether a part fits some version, after a header.
pub(crate) fn part_fits(
    alloc: Global,
    content: Content,
    part: &[u8],
    level: EcLevel,
    max_version: i16,
) -> QrResult<bool>
    requires limit { IsNormalNumber max_version }
    ensures fits { IfOk result (λ fits. fits ≡ true →
        FitsNone normal (20 + length (content_bits content)) (parsed_bytes content part.now) level
        (nat_abs max_version) → ⊥) }
    ensures too_long { IfOk result (λ fits. fits ≡ false →
        FitsNone normal (20 + length (content_bits content)) (parsed_bytes content part.now) level
        (nat_abs max_version)) }
    ensures memory { IfErr result (λ e. e ≡ QrError.OutOfMemory) }
{
    let front = part_front(content);
    fits_front(alloc, &front, part, level, max_version)
}
