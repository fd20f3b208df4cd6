//! Element strings of GS1's documents, and every error.
use gs1::{
    Element, Gs1Error, check_element_string, element_string, read_element, right_check_digit,
    written_element,
};
use std::alloc::Global;

/// Texts, and their element strings as the GS1 General Specifications and zint 2.11.1 have them:
/// trade items with a date and a batch, a logistic unit, weights and prices, locations, a coupon
/// address with brackets that do not open, and values of all kinds of characters.
static STRINGS: [(&str, &[u8]); 14] = [
    ("(01)09506000134352", b"0109506000134352"),
    (
        "(01)09506000134352(17)260930(10)ABC123",
        b"01095060001343521726093010ABC123",
    ),
    (
        "(01)09521234543213(10)ABC1234(17)251225",
        b"010952123454321310ABC1234\x1d17251225",
    ),
    ("(00)106141412345678908", b"00106141412345678908"),
    (
        "(3103)000189(3923)2172(10)A1",
        b"310300018939232172\x1d10A1",
    ),
    ("(414)4226350800008(254)1", b"41442263508000082541"),
    (
        "(8020)ABC(415)4226350800008",
        b"8020ABC\x1d4154226350800008",
    ),
    ("(10)ABC(21)12345(37)20", b"10ABC\x1d2112345\x1d3720"),
    ("(10)A)B(240)C", b"10A)B\x1d240C"),
    ("(710)1(7003)2601011200", b"7101\x1d70032601011200"),
    ("(20)12(21)a%z_!\"", b"201221a%z_!\""),
    ("(99)&'*+,-./:;<=>?(98)Z", b"99&'*+,-./:;<=>?\x1d98Z"),
    ("(8010)0614141#A(8011)1", b"80100614141#A\x1d80111"),
    ("(21)A#B", b"21A#B"),
];

#[test]
fn writes_strings(rt: HostRuntime) {
    for (text, bytes) in STRINGS {
        let written = element_string(rt.alloc(), text).ok();
        let written = written.expect(&rt, "no element string");
        assert_eq!(rt; written.as_slice(), bytes);
    }
}

/// Texts with a fault.
static FAULTS: [(&str, Gs1Error); 22] = [
    ("", Gs1Error::NoElements),
    ("0109506000134352", Gs1Error::NoElements),
    ("10(21)A", Gs1Error::NoElements),
    ("()A", Gs1Error::InvalidIdentifier { element: 0 }),
    ("(1)A", Gs1Error::InvalidIdentifier { element: 0 }),
    ("(10)A(80051)1", Gs1Error::InvalidIdentifier { element: 1 }),
    ("(10)A(B)C", Gs1Error::InvalidIdentifier { element: 1 }),
    ("(10A", Gs1Error::InvalidIdentifier { element: 0 }),
    ("(14)200101", Gs1Error::UnknownIdentifier { element: 0 }),
    ("(10)A(23)1", Gs1Error::UnknownIdentifier { element: 1 }),
    ("(7101)1", Gs1Error::UnknownIdentifier { element: 0 }),
    ("(10)", Gs1Error::EmptyValue { element: 0 }),
    ("(10)A(21", Gs1Error::EmptyValue { element: 1 }),
    (
        "(01)0950600013435A",
        Gs1Error::InvalidCharacter {
            element: 0,
            position: 13,
            byte: 0x41,
        },
    ),
    (
        "(10)A(21)AB C",
        Gs1Error::InvalidCharacter {
            element: 1,
            position: 2,
            byte: 0x20,
        },
    ),
    (
        "(10)A\u{e9}",
        Gs1Error::InvalidCharacter {
            element: 0,
            position: 1,
            byte: 0xc3,
        },
    ),
    (
        "(21)A$B",
        Gs1Error::InvalidCharacter {
            element: 0,
            position: 1,
            byte: 0x24,
        },
    ),
    ("(3103)0001", Gs1Error::WrongLength { element: 0 }),
    ("(10)A(17)2609301", Gs1Error::WrongLength { element: 1 }),
    (
        "(01)09506000134353",
        Gs1Error::WrongCheckDigit { element: 0 },
    ),
    (
        "(10)A(00)106141412345678909",
        Gs1Error::WrongCheckDigit { element: 1 },
    ),
    (
        "(414)9521321000010",
        Gs1Error::WrongCheckDigit { element: 0 },
    ),
];

#[test]
fn names_the_first_fault(rt: HostRuntime) {
    for (text, fault) in FAULTS {
        let refused = element_string(rt.alloc(), text).err();
        assert_eq!(rt; refused, Some(fault));
    }
}

/// Returns the error of an element with a value of this many characters.
fn error_of_length(alloc: Global, length: usize) -> Option<Gs1Error> {
    let mut text = String::from_str(alloc, "(91)").ok()?;
    for _ in 0..length {
        text.push('1').ok()?;
    }
    element_string(alloc, text.as_str()).err()
}

#[test]
fn values_have_ninety_characters(rt: HostRuntime) {
    let fault = Gs1Error::ValueTooLong { element: 0 };
    assert!(rt; error_of_length(rt.alloc(), 90).is_none());
    assert_eq!(rt; error_of_length(rt.alloc(), 91), Some(fault));
}

#[test]
fn prints_errors(rt: HostRuntime) {
    let fault = Gs1Error::InvalidCharacter {
        element: 1,
        position: 2,
        byte: 0x0a,
    };
    let text = format!(in rt.alloc(); "{fault}").ok();
    let text = text.expect(&rt, "no text");
    assert_eq!(rt;
        text.as_str(),
        "element 1: invalid character byte 0x0a at position 2"
    );
}

#[test]
fn takes_element_strings(rt: HostRuntime) {
    for (_, bytes) in STRINGS {
        assert_eq!(rt; check_element_string(bytes), Ok(()));
    }
    // A separator at the end ends the last element, whose length is not predefined.
    assert_eq!(rt; check_element_string(b"10A\x1d"), Ok(()));
}

/// Element strings with a fault. The faults of an element are those that zint 2.11.1 finds in it,
/// and of the check digits `5`, `1`, `4` and `9` it expects `2`, `7`, `3` and `8`.
static STRING_FAULTS: [(&[u8], Gs1Error); 28] = [
    (b"", Gs1Error::NoElements),
    (
        b"(01)09506000134352",
        Gs1Error::InvalidIdentifier { element: 0 },
    ),
    (
        b"0109506000134352(10)AB",
        Gs1Error::InvalidIdentifier { element: 1 },
    ),
    // A separator at the beginning, after another, and after an element of predefined length.
    (b"\x1d10A", Gs1Error::InvalidIdentifier { element: 0 }),
    (
        b"10A\x1d\x1d21B",
        Gs1Error::InvalidIdentifier { element: 1 },
    ),
    (
        b"0109506000134352\x1d10AB",
        Gs1Error::InvalidIdentifier { element: 1 },
    ),
    (
        b"0109506000134352\x1d",
        Gs1Error::InvalidIdentifier { element: 1 },
    ),
    (b"1", Gs1Error::InvalidIdentifier { element: 0 }),
    (b"10A\x1dA", Gs1Error::InvalidIdentifier { element: 1 }),
    // The identifier has four digits.
    (b"310", Gs1Error::InvalidIdentifier { element: 0 }),
    (b"31A3000189", Gs1Error::InvalidIdentifier { element: 0 }),
    (b"7101\x1d80A", Gs1Error::InvalidIdentifier { element: 1 }),
    (b"14200101", Gs1Error::UnknownIdentifier { element: 0 }),
    (b"10A\x1d2907", Gs1Error::UnknownIdentifier { element: 1 }),
    (b"10", Gs1Error::EmptyValue { element: 0 }),
    (b"01", Gs1Error::EmptyValue { element: 0 }),
    (b"10A\x1d21\x1d37", Gs1Error::EmptyValue { element: 1 }),
    (
        b"010950600013435A",
        Gs1Error::InvalidCharacter {
            element: 0,
            position: 13,
            byte: 0x41,
        },
    ),
    (
        b"2011201010AB C",
        Gs1Error::InvalidCharacter {
            element: 2,
            position: 2,
            byte: 0x20,
        },
    ),
    // A separator in an element of predefined length.
    (
        b"1726\x1d30100",
        Gs1Error::InvalidCharacter {
            element: 0,
            position: 2,
            byte: 0x1d,
        },
    ),
    (b"010950600013435", Gs1Error::WrongLength { element: 0 }),
    (b"10A\x1d172609", Gs1Error::WrongLength { element: 1 }),
    (
        b"0109506000134355",
        Gs1Error::WrongCheckDigit { element: 0 },
    ),
    (
        b"00106141411234567891",
        Gs1Error::WrongCheckDigit { element: 0 },
    ),
    (
        b"20110106291041500214",
        Gs1Error::WrongCheckDigit { element: 1 },
    ),
    (
        b"4144226350800009",
        Gs1Error::WrongCheckDigit { element: 0 },
    ),
    // The first of two faults.
    (
        b"01095060001343552907",
        Gs1Error::WrongCheckDigit { element: 0 },
    ),
    (
        b"10A$\x1d0109506000134355",
        Gs1Error::InvalidCharacter {
            element: 0,
            position: 1,
            byte: 0x24,
        },
    ),
];

#[test]
fn names_the_first_fault_of_a_string(rt: HostRuntime) {
    for (bytes, fault) in STRING_FAULTS {
        assert_eq!(rt; check_element_string(bytes), Err(fault));
    }
}

#[test]
fn values_in_strings_have_ninety_characters(rt: HostRuntime) {
    let bytes = vec![in rt.alloc(); b'9'; 93].ok();
    let bytes = bytes.expect(&rt, "no bytes");
    let fault = Gs1Error::ValueTooLong { element: 0 };
    assert_eq!(rt; check_element_string(&bytes[..92]), Ok(()));
    assert_eq!(rt; check_element_string(bytes.as_slice()), Err(fault));
}

/// Elements of texts, and of their element strings.
static ELEMENTS: [(&[u8], &[u8], usize, Option<(&[u8], &[u8])>); 9] = [
    (
        b"(01)09506000134352(10)ABC123",
        b"010950600013435210ABC123",
        0,
        Some((b"01", b"09506000134352")),
    ),
    (
        b"(01)09506000134352(10)ABC123",
        b"010950600013435210ABC123",
        1,
        Some((b"10", b"ABC123")),
    ),
    (
        b"(01)09506000134352(10)ABC123",
        b"010950600013435210ABC123",
        2,
        None,
    ),
    (
        b"(3103)000189(3923)2172(10)A1",
        b"310300018939232172\x1d10A1",
        1,
        Some((b"3923", b"2172")),
    ),
    (
        b"(3103)000189(3923)2172(10)A1",
        b"310300018939232172\x1d10A1",
        2,
        Some((b"10", b"A1")),
    ),
    (
        b"(414)4226350800008(254)1",
        b"41442263508000082541",
        1,
        Some((b"254", b"1")),
    ),
    (b"(10)A)B", b"10A)B", 0, Some((b"10", b"A)B"))),
    (b"(17)2609", b"172609", 0, Some((b"17", b"2609"))),
    (b"(10)A", b"10A\x1d", usize::MAX, None),
];

#[test]
fn finds_elements(rt: HostRuntime) {
    for (text, bytes, number, parts) in ELEMENTS {
        let element = parts.map(|(identifier, value)| Element { identifier, value });
        assert_eq!(rt; written_element(text, number), element);
        assert_eq!(rt; read_element(bytes, number), element);
    }
}

#[test]
fn finds_no_elements(rt: HostRuntime) {
    // The first brackets are missing, or no identifier begins the bytes.
    assert!(rt; read_element(b"", 0).is_none());
    assert!(rt; read_element(b"(10)A", 0).is_none());
    assert!(rt; read_element(b"14200101", 0).is_none());
    assert!(rt; read_element(b"201210A\x1d29", 2).is_none());
    assert!(rt; written_element(b"(10)A", 1).is_none());
}

/// Values, and their check digits as the GS1 General Specifications and zint 2.11.1 have them.
static CHECK_DIGITS: [(&[u8], u8); 8] = [
    (b"09506000134352", b'2'),
    (b"09506000134351", b'2'),
    (b"9506000134350", b'2'),
    (b"6291041500210", b'3'),
    (b"106141411234567890", b'7'),
    (b"376104250021234560", b'9'),
    (b"4226350800008", b'8'),
    (b"40170720", b'5'),
];

#[test]
fn returns_right_check_digits(rt: HostRuntime) {
    for (value, digit) in CHECK_DIGITS {
        assert_eq!(rt; right_check_digit(value), Some(digit));
    }
    assert!(rt; right_check_digit(b"").is_none());
    assert!(rt; right_check_digit(b"950600013435A").is_none());
    assert!(rt; right_check_digit(b"95O6000134352").is_none());
}

#[test]
fn long_values_have_no_check_digit(rt: HostRuntime) {
    let digits = vec![in rt.alloc(); b'0'; 65536].ok();
    let digits = digits.expect(&rt, "no digits");
    assert_eq!(rt; right_check_digit(&digits[1..]), Some(b'0'));
    assert!(rt; right_check_digit(digits.as_slice()).is_none());
}
