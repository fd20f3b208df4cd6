//! Tests of names, texts, tables and modes.
use qrcode_base::cast::{As, Truncate};
use qrcode_base::characters::{alphanumeric_place, is_alphanumeric, is_kanji_pair, is_lead};
use qrcode_base::mode::{AlphanumericMode, ByteMode, EncodingMode, KanjiMode, NumericMode};
use qrcode_base::symbols::block_layout;
use qrcode_base::types::{Color, EcLevel, EnumParseError, Mode, QrError, QrResult, Version};
use qrcode_base::version::{ConstVersion, StaticVersion};
use std::cmp::Ordering;
use std::process::Abort;
use std::test::Fail;

const NO_NUMBER: &str = "expected a version number";

const NORMAL_RANGE: &str = "QR version must be between 1 and 40";

const MICRO_RANGE: &str = "Micro QR version must be between M1 and M4";

/// Texts and the versions that they name.
static VERSION_TEXTS: [(&str, Version); 7] = [
    ("+5", Version::Normal(5)),
    ("007", Version::Normal(7)),
    ("m3", Version::Micro(3)),
    (" 5 ", Version::Normal(5)),
    ("m+3", Version::Micro(3)),
    ("M4", Version::Micro(4)),
    ("40", Version::Normal(40)),
];

#[test]
fn texts_name_versions(rt: HostRuntime) {
    for (text, want) in &VERSION_TEXTS {
        assert!(rt; text.parse::<Version>().ok() == Some(*want), "at {text}");
    }
}

/// Texts that name no version, and the text of the error.
static REFUSED_TEXTS: [(&str, &str); 11] = [
    ("-1", NORMAL_RANGE),
    ("M-1", MICRO_RANGE),
    ("99999", NO_NUMBER),
    ("M 3", NO_NUMBER),
    ("0", NORMAL_RANGE),
    ("41", NORMAL_RANGE),
    ("M5", MICRO_RANGE),
    ("M0", MICRO_RANGE),
    ("abc", NO_NUMBER),
    ("M", NO_NUMBER),
    ("", NO_NUMBER),
];

#[test]
fn texts_name_no_version(rt: HostRuntime) -> Result<(), Fail> {
    for (text, want) in &REFUSED_TEXTS {
        let Err(error) = text.parse::<Version>() else {
            return Err(Fail::from("a version"));
        };
        let printed = format!(in rt.alloc(); "{error}")?;
        assert!(rt; printed.as_str() == *want, "at {text}: {printed}");
    }
    Ok(())
}

/// Texts and the levels that they name, if any.
static LEVEL_TEXTS: [(&str, Option<EcLevel>); 6] = [
    ("L", Some(EcLevel::L)),
    (" m\n", Some(EcLevel::M)),
    ("q", Some(EcLevel::Q)),
    ("H", Some(EcLevel::H)),
    ("LM", None),
    ("", None),
];

#[test]
fn texts_name_levels(rt: HostRuntime) {
    for (text, want) in &LEVEL_TEXTS {
        assert!(rt; text.parse::<EcLevel>().ok() == *want, "at {text}");
    }
    assert_eq!(rt;
        refusal("x".parse::<EcLevel>()),
        "expected one of L, M, Q, H"
    );
}

/// Texts and the modes that they name, if any.
static MODE_TEXTS: [(&str, Option<Mode>); 5] = [
    ("numeric", Some(Mode::Numeric)),
    ("\tAlphanumeric", Some(Mode::Alphanumeric)),
    ("BYTE", Some(Mode::Byte)),
    ("kanjI ", Some(Mode::Kanji)),
    ("bytes", None),
];

#[test]
fn texts_name_modes(rt: HostRuntime) {
    for (text, want) in &MODE_TEXTS {
        assert!(rt; text.parse::<Mode>().ok() == *want, "at {text}");
    }
    assert_eq!(rt;
        refusal("x".parse::<Mode>()),
        "expected numeric, alphanumeric, byte or kanji"
    );
}

/// Returns the text of the error of a parse, or an empty text on success.
fn refusal<T: Drop>(answer: Result<T, EnumParseError>) -> &'static str {
    match answer {
        Ok(_) => "",
        Err(error) => error.0,
    }
}

/// The errors, the text that each prints, and its suggestion.
static ERRORS: [(QrError, &str, Option<&str>); 11] = [
    (
        QrError::DataTooLong,
        "data too long to encode",
        Some(
            "lower the error-correction level, use a larger version, or split the data with Structured Append",
        ),
    ),
    (
        QrError::InvalidVersion {
            version: Version::Micro(4),
            ec_level: EcLevel::H,
        },
        "invalid version Micro(4) for error correction level H",
        Some(
            "the version / error-correction-level combination is unsupported (e.g. Micro QR supports only L/M)",
        ),
    ),
    (
        QrError::UnsupportedCharacterSet,
        "unsupported character set for this version",
        Some("the data cannot be encoded in any mode supported by the chosen version"),
    ),
    (
        QrError::InvalidEciDesignator { value: 1_000_000 },
        "invalid ECI designator 1000000 (must be 0..=999999)",
        Some("ECI designators must be in the range 0..=999999"),
    ),
    (
        QrError::InvalidCharacter {
            position: 0,
            byte: 0x82,
        },
        "invalid character byte 0x82 at position 0",
        Some("the input contains a byte that is invalid for the requested encoding mode"),
    ),
    (
        QrError::InvalidStructuredAppend { value: 17 },
        "invalid Structured Append parameter 17 (symbols must be 2..=16, position 1..=total)",
        Some("Structured Append requires 2..=16 symbols and each position in 1..=total"),
    ),
    (
        QrError::InvalidResourceLimits,
        "invalid resource limits",
        Some("use a normal QR version from 1..=40 and non-zero render dimensions"),
    ),
    (
        QrError::RenderSizeExceeded {
            width: 21,
            height: 21,
            max_width: 20,
            max_height: 20,
        },
        "rendered symbol size 21x21 exceeds configured maximum 20x20",
        Some("increase max_render_size or use a lower maximum QR version"),
    ),
    (
        QrError::EncodingTimeout,
        "encoding exceeded configured timeout",
        Some("increase encoding_timeout or run encoding in a cancellable worker"),
    ),
    (
        QrError::InvalidDataLength {
            expected: 16,
            actual: 15,
        },
        "invalid encoded data length: expected 16 bytes, got 15",
        Some(
            "encode and pad the data with Bits::push_terminator for the requested version and correction level",
        ),
    ),
    (QrError::OutOfMemory, "out of memory", None),
];

#[test]
fn errors_say_what_is_wrong_and_what_to_do(rt: HostRuntime) -> Result<(), Fail> {
    for (error, text, suggestion) in &ERRORS {
        let printed = format!(in rt.alloc(); "{error}")?;
        assert_eq!(rt; printed.as_str(), *text);
        suggests(&rt, error, *suggestion);
    }
    Ok(())
}

/// Checks the suggestion of an error.
fn suggests(rt: &impl Abort, error: &QrError, suggestion: Option<&str>) {
    assert_eq!(rt; error.suggestion(), suggestion);
}

/// Modes, numbers of characters, and the bits that these take.
static CHARACTER_BITS: [(Mode, usize, usize); 4] = [
    (Mode::Numeric, 7, 24),
    (Mode::Alphanumeric, 1, 6),
    (Mode::Kanji, 2, 26),
    (Mode::Byte, 3, 24),
];

#[test]
fn segments_take_bits(rt: HostRuntime) {
    for (mode, characters, bits) in &CHARACTER_BITS {
        assert_eq!(rt; mode.data_bits_count(*characters), *bits);
    }
}

#[test]
fn versions_tell_their_widths(rt: HostRuntime) {
    assert!(rt; Mode::Numeric.length_bits_count(Version::Normal(41)) == 14);
    assert!(rt; Mode::Kanji.length_bits_count(Version::Micro(3)) == 3);
    assert!(rt; Version::Micro(4).mode_bits_count() == 3);
    assert!(rt; Version::Normal(7).width() == 45);
    assert!(rt; Version::Micro(1).is_micro());
}

#[test]
fn modes_join(rt: HostRuntime) {
    assert!(rt; Mode::Alphanumeric.max(Mode::Kanji) == Mode::Byte);
    assert!(rt; Mode::Numeric.partial_cmp(&Mode::Byte) == Some(Ordering::Less));
    assert!(rt; Mode::Numeric.partial_cmp(&Mode::Kanji).is_none());
}

/// Bytes and the first invalid character of the Kanji mode in them.
static KANJI: [(&[u8], Option<(usize, u8)>); 5] = [
    (b"\x93\x5f\xe4", Some((2, 0xe4))),
    (b"\xeb\xc0", Some((0, 0xeb))),
    (b"\x81\x7f", Some((0, 0x81))),
    (b"\x82\x00", Some((0, 0x82))),
    (b"\x93\x5f\xe4\xaa", None),
];

#[test]
fn kanji_find_the_first_invalid_character(rt: HostRuntime) {
    for (bytes, want) in &KANJI {
        assert_eq!(rt; KanjiMode::invalid_character(bytes), *want);
        assert!(rt; KanjiMode::validate(bytes) == want.is_none());
    }
}

#[test]
fn modes_know_their_characters(rt: HostRuntime) {
    assert!(rt; NumericMode::invalid_character(b"12a") == Some((2, b'a')));
    assert!(rt; AlphanumericMode::invalid_character(b"A:b") == Some((2, b'b')));
    assert!(rt; ByteMode::validate(b"\x00\xff"));
}

#[test]
fn modes_know_their_counts(rt: HostRuntime) {
    assert!(rt; KanjiMode::character_count(b"\x93\x5f\xe4\xaa") == 2);
    assert!(rt; NumericMode::character_count(b"123") == 3);
    assert!(rt; AlphanumericMode::bits_per_character() == (11, 2));
    assert!(rt; KanjiMode::MODE == Mode::Kanji);
}

/// Widths and the versions that have them.
static WIDTHS: [(usize, Option<Version>); 12] = [
    (21, Some(Version::Normal(1))),
    (45, Some(Version::Normal(7))),
    (177, Some(Version::Normal(40))),
    (11, Some(Version::Micro(1))),
    (17, Some(Version::Micro(4))),
    (0, None),
    (9, None),
    (12, None),
    (19, None),
    (20, None),
    (22, None),
    (181, None),
];

#[test]
fn widths_name_versions(rt: HostRuntime) {
    for (width, want) in &WIDTHS {
        assert!(rt; Version::of_width(*width) == *want, "at {width}");
    }
}

/// Returns what `fetch` finds in a table of zeros, except for version 40 and for M3 at level M.
fn fetched(version: Version, level: EcLevel) -> QrResult<u8> {
    let mut table = [[0; 4]; 44];
    table[39] = [1, 2, 3, 4];
    table[42][1] = 5;
    version.fetch(level, &table)
}

/// Versions and levels, and the entry that is found for them.
static FETCHED: [(Version, EcLevel, Option<u8>); 7] = [
    (Version::Normal(1), EcLevel::L, Some(0)),
    (Version::Normal(40), EcLevel::Q, Some(3)),
    (Version::Micro(3), EcLevel::M, Some(5)),
    (Version::Micro(1), EcLevel::M, None),
    (Version::Micro(5), EcLevel::L, None),
    (Version::Normal(0), EcLevel::L, None),
    (Version::Normal(41), EcLevel::L, None),
];

#[test]
fn tables_are_read(rt: HostRuntime) {
    for (version, ec_level, want) in &FETCHED {
        let (version, ec_level) = (*version, *ec_level);
        let lacking = QrError::InvalidVersion { version, ec_level };
        assert_eq!(rt; fetched(version, ec_level), want.ok_or(lacking));
    }
}

#[test]
fn casts_keep_numbers(rt: HostRuntime) {
    assert!(rt; 0x1234_u16.truncate_as_u8() == 0x34);
    assert!(rt; 7_i16.as_usize() == 7);
    assert!(rt; 40_000_u32.as_u16() == 40_000);
    assert!(rt; 9_usize.as_i16() == 9);
    assert!(rt; (-9_isize).as_i16() == -9);
}

#[test]
fn colors_select(rt: HostRuntime) {
    assert!(rt; Color::Dark.select(1, 2) == 1);
    assert!(rt; !Color::Dark == Color::Light);
}

#[test]
fn small_calls_answer(rt: HostRuntime) {
    assert!(rt; ConstVersion::<7>::new().version() == Version::Normal(7));
    assert!(rt; <ConstVersion<40> as StaticVersion>::VERSION == Version::Normal(40));
    assert!(rt; alphanumeric_place(b':') == Some(44));
    assert!(rt; is_alphanumeric(b'Z') && is_lead(0x9f) && is_kanji_pair(0xeb, 0xbf));
    let data = block_layout(Version::Normal(5), EcLevel::Q).map(|layout| layout.data_bytes());
    assert!(rt; data == Some(62));
}
