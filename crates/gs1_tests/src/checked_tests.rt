//! Values by the table of identifiers, and every reason.
use gs1::{CheckError, Reason, check_element_values, checked_element_string};

/// Texts, and their element strings: examples of the GS1 General Specifications and values that
/// zint 2.11.1 takes.
static STRINGS: [(&str, &[u8]); 20] = [
    (
        "(01)09506000134352(17)261200(10)ABC123",
        b"01095060001343521726120010ABC123",
    ),
    ("(8003)09506000134352A", b"800309506000134352A"),
    ("(253)9506000134352", b"2539506000134352"),
    ("(8006)095060001343520102", b"8006095060001343520102"),
    ("(7003)2612312359(10)A", b"70032612312359\x1d10A"),
    ("(423)036276(21)7", b"423036276\x1d217"),
    ("(3912)9781999(3103)000189", b"39129781999\x1d3103000189"),
    ("(4309)02790858483015297971", b"430902790858483015297971"),
    ("(4300)A%20%2f(4321)1", b"4300A%20%2f\x1d43211"),
    (
        "(8013)1987654Ad4X4bL5ttr2310c2K",
        b"80131987654Ad4X4bL5ttr2310c2K",
    ),
    (
        "(8007)GB82WEST12345698765432",
        b"8007GB82WEST12345698765432",
    ),
    ("(8008)2612312359(7030)999A", b"80082612312359\x1d7030999A"),
    (
        "(00)106141412345678908(4324)2612001200",
        b"0010614141234567890843242612001200",
    ),
    ("(4325)2602002359(4321)1", b"43252602002359\x1d43211"),
    (
        "(8014)1987654Ad4X4bL5ttr2310c2K",
        b"80141987654Ad4X4bL5ttr2310c2K",
    ),
    ("(717)ABC(21)7", b"717ABC\x1d217"),
    ("(8030)Abc_-09Abc9==(21)7", b"8030Abc_-09Abc9==\x1d217"),
    ("(3910)9241", b"39109241"),
    ("(8010)0614141#A(8011)1", b"80100614141#A\x1d80111"),
    ("(7041)1AB", b"70411AB"),
];

#[test]
fn writes_allowed_values(rt: HostRuntime) {
    for (text, bytes) in STRINGS {
        let written = checked_element_string(rt.alloc(), text).ok();
        let written = written.expect(&rt, "no element string");
        assert_eq!(rt; written.as_slice(), bytes);
        assert_eq!(rt; check_element_values(bytes), Ok(()));
    }
}

/// Values with a fault: the text, the number of the element, the identifier, the place and the
/// reason. What is expected of a check digit or a pair is what zint 2.11.1 expects.
static FAULTS: [(&str, usize, usize, usize, Reason); 62] = [
    ("(10)123456789012345678901", 0, 10, 20, Reason::TooLong),
    (
        "(10)ABCDEFGHIJABCDEFGHIJABCDEFGHIJ",
        0,
        10,
        20,
        Reason::TooLong,
    ),
    ("(37)ABC", 0, 37, 0, Reason::WrongCharacter { byte: b'A' }),
    ("(30)123456789", 0, 30, 8, Reason::TooLong),
    ("(10)", 0, 10, 0, Reason::TooShort),
    ("(7003)2612", 0, 7003, 4, Reason::TooShort),
    ("(7003)26123112", 0, 7003, 8, Reason::TooShort),
    ("(423)0362", 0, 423, 4, Reason::TooShort),
    (
        "(8003)00950600013435A",
        0,
        8003,
        13,
        Reason::WrongCheckDigit { right: 9 },
    ),
    (
        "(8003)09506000134355A",
        0,
        8003,
        13,
        Reason::WrongCheckDigit { right: 2 },
    ),
    (
        "(253)9506000134355",
        0,
        253,
        12,
        Reason::WrongCheckDigit { right: 2 },
    ),
    (
        "(01)09506000134355",
        0,
        1,
        13,
        Reason::WrongCheckDigit { right: 2 },
    ),
    (
        "(8013)987654321GFDLC",
        0,
        8013,
        12,
        Reason::WrongCheckPair {
            first: b'U',
            second: b'Y',
        },
    ),
    (
        "(8014)1987654Ad4X4bL5ttr2310c2X",
        0,
        8014,
        23,
        Reason::WrongCheckPair {
            first: b'2',
            second: b'K',
        },
    ),
    // Its pair is right, but it has digits alone.
    (
        "(8013)95060000000262",
        0,
        8013,
        13,
        Reason::WrongCharacter { byte: b'2' },
    ),
    ("(717)123456789012345678901", 0, 717, 20, Reason::TooLong),
    (
        "(8030)A=B",
        0,
        8030,
        1,
        Reason::WrongCharacter { byte: b'=' },
    ),
    (
        "(8030)ABC=====",
        0,
        8030,
        3,
        Reason::WrongCharacter { byte: b'=' },
    ),
    (
        "(8030)A===",
        0,
        8030,
        1,
        Reason::WrongCharacter { byte: b'=' },
    ),
    // A number sign is of set 39 alone.
    ("(10)A#B", 0, 10, 1, Reason::WrongCharacter { byte: b'#' }),
    // Codes of packages are digits and capital letters.
    (
        "(7041)Pa",
        0,
        7041,
        1,
        Reason::WrongCharacter { byte: b'a' },
    ),
    (
        "(7041)1-",
        0,
        7041,
        1,
        Reason::WrongCharacter { byte: b'-' },
    ),
    ("(8004)1ABCD", 0, 8004, 1, Reason::NoCompanyPrefix),
    ("(8010)123A", 0, 8010, 3, Reason::NoCompanyPrefix),
    (
        "(8010)1234a",
        0,
        8010,
        4,
        Reason::WrongCharacter { byte: b'a' },
    ),
    ("(17)261301", 0, 17, 2, Reason::WrongMonth),
    ("(17)260001", 0, 17, 2, Reason::WrongMonth),
    ("(11)260230", 0, 11, 4, Reason::WrongDay),
    ("(11)260229", 0, 11, 4, Reason::WrongDay),
    ("(7006)261200", 0, 7006, 4, Reason::WrongDay),
    ("(4324)2613001200", 0, 4324, 2, Reason::WrongMonth),
    ("(4325)2602302359", 0, 4325, 4, Reason::WrongDay),
    ("(4326)261200", 0, 4326, 4, Reason::WrongDay),
    ("(7007)261231260431", 0, 7007, 10, Reason::WrongDay),
    ("(7250)19000229", 0, 7250, 6, Reason::WrongDay),
    ("(7003)2612312459", 0, 7003, 6, Reason::WrongHour),
    ("(7003)2612312360", 0, 7003, 8, Reason::WrongMinute),
    ("(8008)26123124", 0, 8008, 6, Reason::WrongHour),
    ("(8008)2612312360", 0, 8008, 8, Reason::WrongMinute),
    ("(8008)261231235960", 0, 8008, 10, Reason::WrongSecond),
    ("(422)999", 0, 422, 0, Reason::WrongCountry),
    ("(423)036999", 0, 423, 3, Reason::WrongCountry),
    ("(7030)998ABC", 0, 7030, 0, Reason::WrongCountry),
    ("(4307)UK", 0, 4307, 0, Reason::WrongCountry),
    ("(10)A(3910)9981", 1, 3910, 0, Reason::WrongCurrency),
    ("(3910)1911", 0, 3910, 0, Reason::WrongCurrency),
    ("(3932)9311", 0, 3932, 0, Reason::WrongCurrency),
    ("(3910)9321", 0, 3910, 0, Reason::WrongCurrency),
    ("(4321)2", 0, 4321, 0, Reason::WrongFlag),
    ("(8006)095060001343520001", 0, 8006, 14, Reason::WrongPiece),
    ("(8006)095060001343520201", 0, 8006, 16, Reason::WrongPiece),
    ("(8001)12341234512341", 0, 8001, 12, Reason::WrongWinding),
    ("(8001)12340000012311", 0, 8001, 4, Reason::OnlyZeros),
    ("(8003)19506000134352A", 0, 8003, 0, Reason::NoZero),
    ("(8011)0123", 0, 8011, 0, Reason::LeadingZero),
    ("(4300)A%2gB", 0, 4300, 1, Reason::WrongEscape),
    (
        "(4309)18000000013600000001",
        0,
        4309,
        0,
        Reason::WrongLatitude,
    ),
    (
        "(4309)18000000003600000001",
        0,
        4309,
        10,
        Reason::WrongLongitude,
    ),
    ("(4330)000010A", 0, 4330, 6, Reason::NoMinus),
    ("(7241)11", 0, 7241, 0, Reason::WrongMedia),
    (
        "(8007)GB82WEST12345698765433",
        0,
        8007,
        2,
        Reason::WrongIban,
    ),
    ("(7040)1AB!", 0, 7040, 3, Reason::WrongImporter),
];

#[test]
fn names_the_reason(rt: HostRuntime) {
    for (text, element, identifier, place, reason) in FAULTS {
        let fault = CheckError::WrongValue {
            element,
            identifier,
            place,
            reason,
        };
        let refused = checked_element_string(rt.alloc(), text).err();
        assert_eq!(rt; refused, Some(fault));
    }
}

/// Texts with another fault. Nobody assigns these identifiers.
static UNKNOWN: [(&str, CheckError); 10] = [
    ("10(21)A", CheckError::NoElements),
    ("(1)A", CheckError::InvalidIdentifier { element: 0 }),
    (
        "(4399)1",
        CheckError::UnknownIdentifier {
            element: 0,
            identifier: 4399,
        },
    ),
    (
        "(8099)1",
        CheckError::UnknownIdentifier {
            element: 0,
            identifier: 8099,
        },
    ),
    (
        "(10)A(249)1",
        CheckError::UnknownIdentifier {
            element: 1,
            identifier: 249,
        },
    ),
    (
        "(7299)1",
        CheckError::UnknownIdentifier {
            element: 0,
            identifier: 7299,
        },
    ),
    (
        "(3106)000001",
        CheckError::UnknownIdentifier {
            element: 0,
            identifier: 3106,
        },
    ),
    (
        "(3944)0010",
        CheckError::UnknownIdentifier {
            element: 0,
            identifier: 3944,
        },
    ),
    (
        "(010)09506000134352",
        CheckError::UnknownIdentifier {
            element: 0,
            identifier: 10,
        },
    ),
    (
        "(14)200101",
        CheckError::UnknownIdentifier {
            element: 0,
            identifier: 14,
        },
    ),
];

#[test]
fn knows_identifiers(rt: HostRuntime) {
    for (text, fault) in UNKNOWN {
        let refused = checked_element_string(rt.alloc(), text).err();
        assert_eq!(rt; refused, Some(fault));
    }
}

/// Element strings with a fault.
static STRING_FAULTS: [(&[u8], CheckError); 5] = [
    (b"", CheckError::NoElements),
    (b"10A\x1d8", CheckError::InvalidIdentifier { element: 1 }),
    (
        b"10A\x1d2907",
        CheckError::UnknownIdentifier {
            element: 1,
            identifier: 29,
        },
    ),
    (
        b"0109506000134352172613011012",
        CheckError::WrongValue {
            element: 1,
            identifier: 17,
            place: 2,
            reason: Reason::WrongMonth,
        },
    ),
    (
        b"010950600013435",
        CheckError::WrongValue {
            element: 0,
            identifier: 1,
            place: 13,
            reason: Reason::TooShort,
        },
    ),
];

#[test]
fn names_the_reason_in_a_string(rt: HostRuntime) {
    for (bytes, fault) in STRING_FAULTS {
        assert_eq!(rt; check_element_values(bytes), Err(fault));
    }
}

#[test]
fn prints_reasons(rt: HostRuntime) {
    let fault = check_element_values(b"0109506000134355").err();
    let fault = fault.expect(&rt, "no fault");
    let text = format!(in rt.alloc(); "{fault}").ok();
    let text = text.expect(&rt, "no text");
    assert_eq!(rt;
        text.as_str(),
        "element 0 (01), character 13: wrong check digit, 2 is right"
    );
}
