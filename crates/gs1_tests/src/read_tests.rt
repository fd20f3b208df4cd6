//! Elements of what scanners give.
use gs1::{CheckError, Element, Reason, brackets, elements_of, scanned, string_brackets};

/// What scanners give, with the element of a number, or none if there are no more.
static SCANS: [(&[u8], usize, Option<(&[u8], &[u8])>); 12] = [
    (
        b"]Q3010950600013435210ABC\x1d217",
        0,
        Some((b"01", b"09506000134352")),
    ),
    (b"]Q3010950600013435210ABC\x1d217", 1, Some((b"10", b"ABC"))),
    (b"]Q3010950600013435210ABC\x1d217", 2, Some((b"21", b"7"))),
    (b"]Q3010950600013435210ABC\x1d217", 3, None),
    (b"310300018910A(B)", 1, Some((b"10", b"A(B)"))),
    (b"10A\x1d", 1, None),
    // Some scanners end with a separator, also after an element of predefined length.
    (b"10A\x1d", 0, Some((b"10", b"A"))),
    (b"]Q310A\x1d", 0, Some((b"10", b"A"))),
    (
        b"]Q30109506000134352\x1d",
        0,
        Some((b"01", b"09506000134352")),
    ),
    (b"0109506000134352\x1d", 1, None),
    // The second of two separators ends an element whose length is not predefined.
    (b"10A\x1d\x1d", 0, Some((b"10", b"A"))),
    (b"10A\x1d\x1d", 1, None),
];

#[test]
fn finds_elements_of_scans(rt: HostRuntime) {
    for (bytes, number, parts) in SCANS {
        let element = parts.map(|(identifier, value)| Element { identifier, value });
        let elements = elements_of(rt.alloc(), bytes).ok();
        let elements = elements.expect(&rt, "no elements");
        assert_eq!(rt; elements.as_slice().get(number).copied(), element);
    }
}

/// Scans with a fault. Of marks in front only `]Q3` is left out, and only once, and at the end one
/// separator. The second of two is no part of an element of predefined length, and begins none: the
/// number is that of the element that would begin there.
static FAULTS: [(&[u8], CheckError); 8] = [
    (b"", CheckError::NoElements),
    (b"]Q3", CheckError::NoElements),
    (b"\x1d", CheckError::NoElements),
    (b"]Q3\x1d", CheckError::NoElements),
    (
        b"0109506000134352\x1d\x1d",
        CheckError::InvalidIdentifier { element: 1 },
    ),
    (b"]C110A", CheckError::InvalidIdentifier { element: 0 }),
    (b"]Q3]Q310A", CheckError::InvalidIdentifier { element: 0 }),
    (
        b"]Q310A\x1d17261301",
        CheckError::WrongValue {
            element: 1,
            identifier: 17,
            place: 2,
            reason: Reason::WrongMonth,
        },
    ),
];

#[test]
fn refuses_scans(rt: HostRuntime) {
    for (bytes, fault) in FAULTS {
        let refused = elements_of(rt.alloc(), bytes).err();
        assert_eq!(rt; refused, Some(fault));
    }
}

/// What scanners give, and the element string of it.
static MARKED: [(&[u8], &[u8]); 6] = [
    (b"]Q310A\x1d217\x1d", b"10A\x1d217"),
    (b"]Q310A", b"10A"),
    (b"10A\x1d", b"10A"),
    (b"10A\x1d\x1d", b"10A\x1d"),
    (b"]Q1\x1d10A", b"]Q1\x1d10A"),
    (b"", b""),
];

#[test]
fn leaves_out_marks(rt: HostRuntime) {
    for (bytes, left) in MARKED {
        assert_eq!(rt; scanned(bytes), left);
    }
}

/// What scanners give, and its elements in brackets.
static TEXTS: [(&[u8], &[u8]); 3] = [
    (
        b"]Q3010950600013435210ABC\x1d217",
        b"(01)09506000134352(10)ABC(21)7",
    ),
    (
        b"310300018939232172\x1d10A1",
        b"(3103)000189(3923)2172(10)A1",
    ),
    (b"10A)B\x1d240C", b"(10)A)B(240)C"),
];

#[test]
fn writes_brackets(rt: HostRuntime) {
    for (bytes, text) in TEXTS {
        let elements = elements_of(rt.alloc(), bytes).ok();
        let elements = elements.expect(&rt, "no elements");
        let written = brackets(rt.alloc(), elements.as_slice()).ok();
        let written = written.expect(&rt, "no text");
        assert_eq!(rt; written.as_slice(), text);
    }
}

/// Element strings, and the elements that stand first in them in brackets. No identifier begins
/// with 05, 4399 is not assigned, and the last value is too long.
static STRINGS: [(&[u8], &[u8]); 5] = [
    (
        b"010950600013435210ABC\x1d217",
        b"(01)09506000134352(10)ABC(21)7",
    ),
    (b"", b""),
    (b"10A\x1d05B", b"(10)A"),
    (b"4399A", b"(4399)A"),
    (b"10123456789012345678901", b"(10)123456789012345678901"),
];

#[test]
fn writes_brackets_of_strings(rt: HostRuntime) {
    for (bytes, text) in STRINGS {
        let written = string_brackets(rt.alloc(), bytes).ok();
        let written = written.expect(&rt, "no text");
        assert_eq!(rt; written.as_slice(), text);
    }
}
