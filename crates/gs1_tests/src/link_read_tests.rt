//! Elements of links.
use gs1::{CheckError, Reason, TogetherError};
use gs1_links::{LinkElement, LinkReadError, capital_link, digital_link, elements_of_link};
use std::alloc::Global;

/// Appends an element as `(01)..`.
fn push_element(text: &mut Vec<u8>, element: &LinkElement<'_>) -> Option<()> {
    text.push(b'(').ok()?;
    text.extend_from_slice(element.identifier).ok()?;
    text.push(b')').ok()?;
    text.extend_from_slice(element.value.as_slice()).ok()
}

/// Returns the elements of a link as `(01)..(10)..`, or nothing.
fn read(alloc: Global, link: &[u8]) -> Option<Vec<u8>> {
    let elements = elements_of_link(alloc, link).ok()?;
    let mut text = Vec::new(alloc);
    for element in &elements {
        push_element(&mut text, element)?;
    }
    Some(text)
}

/// Links and their elements. The first are examples of the standard, as remembered.
static LINKS: [(&str, &str); 17] = [
    ("https://id.gs1.org/01/09506000134352", "(01)09506000134352"),
    (
        "https://id.gs1.org/01/09506000134352/10/ABC123?17=201231",
        "(01)09506000134352(10)ABC123(17)201231",
    ),
    (
        "https://example.com/some/path/01/09506000134352",
        "(01)09506000134352",
    ),
    (
        "https://example.com/01/09506000134369/22/2A",
        "(01)09506000134369(22)2A",
    ),
    (
        "https://id.gs1.org/414/9506000134352/254/32a%2Fb",
        "(414)9506000134352(254)32a/b",
    ),
    (
        "https://id.gs1.org/00/095060001343529997",
        "(00)095060001343529997",
    ),
    (
        "https://id.gs1.org/01/09506000134352/10/ABC1/21/12345?17=180426",
        "(01)09506000134352(10)ABC1(21)12345(17)180426",
    ),
    (
        "http://a.b-c.example:8080/01/09506000134352?3103=000195&17=261231",
        "(01)09506000134352(3103)000195(17)261231",
    ),
    (
        "https://x/01/09506000134352/235/%25%26%2a%2B%2C%3A%3B%3C%3D%3E%3F",
        "(01)09506000134352(235)%&*+,:;<=>?",
    ),
    (
        "https://x/414/9506000134352/7040/1ABC",
        "(414)9506000134352(7040)1ABC",
    ),
    (
        "https://x/401/9506000X?91=a=b/c?d",
        "(401)9506000X(91)a=b/c?d",
    ),
    // What qualifies another key is an attribute: of a logistic unit, and of a trade item.
    (
        "https://example.com/00/106141412345678908?02=09506000134352&37=25&10=ABC123",
        "(00)106141412345678908(02)09506000134352(37)25(10)ABC123",
    ),
    (
        "https://x/01/09506000134352/21/7?7040=1ABC",
        "(01)09506000134352(21)7(7040)1ABC",
    ),
    // The last key counts, and stems may look like elements.
    ("https://x/10/A/01/09506000134352?", "(01)09506000134352"),
    ("https://x/01/01/09506000134352", "(01)09506000134352"),
    // Letters of schemes and hosts may be capital.
    (
        "HTTPS://ID.GS1.ORG/01/09506000134352/10/ABC?17=261231",
        "(01)09506000134352(10)ABC(17)261231",
    ),
    ("hTtP://x/01/09506000134352", "(01)09506000134352"),
];

#[test]
fn reads_links(rt: HostRuntime) {
    for (link, elements) in LINKS {
        let found = read(rt.alloc(), link.as_bytes());
        let found = found.expect(&rt, "no elements");
        assert_eq!(rt; found.as_slice(), elements.as_bytes());
    }
}

#[test]
fn prints_why_a_link_is_not_read(rt: HostRuntime) {
    let error = elements_of_link(rt.alloc(), b"https://x/01/09506000134352?10=A").err();
    let error = error.expect(&rt, "no error");
    let text = format!(in rt.alloc(); "{error}").ok();
    let text = text.expect(&rt, "no text");
    assert_eq!(rt;
        text.as_str(),
        "element 1 (10) is a key or a qualifier, and stands in the query"
    );
}

/// Texts in the order of links.
static TEXTS: [&str; 5] = [
    "(01)09506000134352(22)V(10)A/(21)1(3103)000195(17)261231",
    "(00)106141412345678908(02)09506000134352(37)20",
    "(00)106141412345678908(02)09506000134352(37)20(10)ABC",
    "(8006)095060001343520102(10)!\"'.-_",
    "(401)9506000X(91)a/b%",
];

#[test]
fn reads_back_what_is_written(rt: HostRuntime) {
    for text in TEXTS {
        let link = digital_link(rt.alloc(), text, "id.gs1.org").ok();
        let link = link.expect(&rt, "no link");
        let found = read(rt.alloc(), link.as_slice());
        let found = found.expect(&rt, "no elements");
        assert_eq!(rt; found.as_slice(), text.as_bytes());
        let link = capital_link(rt.alloc(), text, "id.gs1.org/01/Shop").ok();
        let link = link.expect(&rt, "no link in capitals");
        let found = read(rt.alloc(), link.as_slice());
        let found = found.expect(&rt, "no elements of capitals");
        assert_eq!(rt; found.as_slice(), text.as_bytes());
    }
}

/// Links with a fault, before the elements and in their places.
static FAULTS: [(&str, LinkReadError); 21] = [
    ("", LinkReadError::WrongScheme),
    ("ftp://x/01/09506000134352", LinkReadError::WrongScheme),
    ("https:/x/01/09506000134352", LinkReadError::WrongScheme),
    ("HTTQS://x/01/09506000134352", LinkReadError::WrongScheme),
    ("Hxtp://x/01/09506000134352", LinkReadError::WrongScheme),
    (
        "https://x/01/09506000134352#a",
        LinkReadError::WrongCharacter { place: 27 },
    ),
    (
        "https://x/01/09506000134352 ",
        LinkReadError::WrongCharacter { place: 27 },
    ),
    ("https:///01/09506000134352", LinkReadError::WrongDomain),
    ("https://a_b/01/09506000134352", LinkReadError::WrongDomain),
    ("https://a..b/01/09506000134352", LinkReadError::WrongDomain),
    ("https://a:0/01/09506000134352", LinkReadError::WrongDomain),
    ("https://x", LinkReadError::NoKey),
    ("https://x/gtin/09506000134352", LinkReadError::NoKey),
    ("https://x/01/09506000134352/", LinkReadError::NoKey),
    ("https://x/17/261231", LinkReadError::NoKey),
    ("https://x?01=09506000134352", LinkReadError::NoKey),
    (
        "https://x/01/0950600013435%2",
        LinkReadError::WrongEscape { element: 0 },
    ),
    (
        "https://x/01/09506000134352/10/a%/21/1",
        LinkReadError::WrongEscape { element: 1 },
    ),
    (
        "https://x/01/09506000134352?17",
        LinkReadError::NoEqualsSign { element: 1 },
    ),
    (
        "https://x/01/09506000134352?17=261231&",
        LinkReadError::NoEqualsSign { element: 2 },
    ),
    (
        "https://x/01/09506000134352?91=%20",
        LinkReadError::Elements(CheckError::WrongValue {
            element: 1,
            identifier: 91,
            place: 0,
            reason: Reason::WrongCharacter { byte: 0x20 },
        }),
    ),
];

/// Links whose elements have a fault.
static ELEMENT_FAULTS: [(&str, LinkReadError); 18] = [
    (
        "https://x/01/09506000134351",
        LinkReadError::Elements(CheckError::WrongValue {
            element: 0,
            identifier: 1,
            place: 13,
            reason: Reason::WrongCheckDigit { right: 2 },
        }),
    ),
    (
        "https://x/01/09506000134352?exp=261231",
        LinkReadError::Elements(CheckError::InvalidIdentifier { element: 1 }),
    ),
    (
        "https://x/01/09506000134352/lot/A",
        LinkReadError::Elements(CheckError::InvalidIdentifier { element: 1 }),
    ),
    (
        "https://x/01/09506000134352?249=A",
        LinkReadError::Elements(CheckError::UnknownIdentifier {
            element: 1,
            identifier: 249,
        }),
    ),
    (
        "https://x/01/09506000134352/21/1/10/A",
        LinkReadError::WrongQualifier {
            element: 2,
            identifier: 10,
        },
    ),
    (
        "https://x/01/09506000134352/10/A/10/A",
        LinkReadError::WrongQualifier {
            element: 2,
            identifier: 10,
        },
    ),
    (
        "https://x/00/106141412345678908/10/A",
        LinkReadError::WrongQualifier {
            element: 1,
            identifier: 10,
        },
    ),
    (
        "https://x/01/09506000134352/10/A/235/B",
        LinkReadError::WrongQualifier {
            element: 2,
            identifier: 235,
        },
    ),
    (
        "https://x/01/09506000134352/17/261231",
        LinkReadError::WrongQualifier {
            element: 1,
            identifier: 17,
        },
    ),
    (
        "https://x/01/09506000134352?10=A",
        LinkReadError::WrongAttribute {
            element: 1,
            identifier: 10,
        },
    ),
    // The second set of qualifiers is one of this key, too, and a batch needs a trade item.
    (
        "https://x/01/09506000134352/10/A?235=A",
        LinkReadError::WrongAttribute {
            element: 2,
            identifier: 235,
        },
    ),
    (
        "https://x/00/106141412345678908?10=A",
        LinkReadError::Together(TogetherError::MissingElement {
            element: 1,
            identifier: 10,
        }),
    ),
    (
        "https://x/01/09506000134352?00=106141412345678908",
        LinkReadError::WrongAttribute {
            element: 1,
            identifier: 0,
        },
    ),
    (
        "https://x/01/09506000134352?17=261231&11=261231&17=261231",
        LinkReadError::RepeatedElement {
            element: 1,
            identifier: 17,
        },
    ),
    (
        "https://x/01/09506000134352/10/ABCDEFGHIJABCDEFGHIJABCDEFGHIJABCDEFGHIJABCDEFGHIJABCDEFGHIJABCDEFGHIJABCDEFGHIJABCDEFGHIJK",
        LinkReadError::ValueTooLong { element: 1 },
    ),
    // A price of a trade item of variable measure needs its measure, and a reference number the
    // party that invoices.
    (
        "https://x/01/09506000134352?17=261231&3922=2172",
        LinkReadError::Together(TogetherError::MissingElement {
            element: 2,
            identifier: 3922,
        }),
    ),
    (
        "https://x/415/9506000134352",
        LinkReadError::Together(TogetherError::MissingElement {
            element: 0,
            identifier: 415,
        }),
    ),
    // Other faults come first.
    (
        "https://x/00/106141412345678908?37=20&91=A&91=B",
        LinkReadError::RepeatedElement {
            element: 2,
            identifier: 91,
        },
    ),
];

#[test]
fn prints_which_elements_are_apart(rt: HostRuntime) {
    let link = b"https://x/00/106141412345678908?420=1&421=0361";
    let error = elements_of_link(rt.alloc(), link).err();
    let error = error.expect(&rt, "no error");
    let text = format!(in rt.alloc(); "{error}").ok();
    let text = text.expect(&rt, "no text");
    assert_eq!(rt;
        text.as_str(),
        "element 1 (420): element 2 may not stand beside it"
    );
}

#[test]
fn refuses_wrong_links(rt: HostRuntime) {
    for (link, fault) in FAULTS {
        let error = elements_of_link(rt.alloc(), link.as_bytes()).err();
        assert_eq!(rt; error, Some(fault));
    }
}

#[test]
fn refuses_wrong_elements_of_links(rt: HostRuntime) {
    for (link, fault) in ELEMENT_FAULTS {
        let error = elements_of_link(rt.alloc(), link.as_bytes()).err();
        assert_eq!(rt; error, Some(fault));
    }
}
