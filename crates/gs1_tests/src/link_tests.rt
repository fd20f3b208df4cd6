//! Links of elements.
use gs1::{CheckError, Reason, TogetherError};
use gs1_links::{
    LinkError, PercentError, capital_link, digital_link, percent_decoded, percent_escaped,
};
use std::alloc::Global;

/// Texts, domains and links. The first two are examples of the standard, as remembered.
static LINKS: [(&str, &str, &str); 24] = [
    (
        "(01)09506000134352",
        "id.gs1.org",
        "https://id.gs1.org/01/09506000134352",
    ),
    (
        "(01)09506000134352(10)ABC1(21)12345(17)180426",
        "id.gs1.org",
        "https://id.gs1.org/01/09506000134352/10/ABC1/21/12345?17=180426",
    ),
    (
        "(01)09506000134369(22)2A",
        "example.com",
        "https://example.com/01/09506000134369/22/2A",
    ),
    (
        "(414)9506000134352(254)32a/b",
        "id.gs1.org",
        "https://id.gs1.org/414/9506000134352/254/32a%2Fb",
    ),
    (
        "(00)106141412345678908(02)09506000134352(37)20",
        "id.gs1.org",
        "https://id.gs1.org/00/106141412345678908?02=09506000134352&37=20",
    ),
    // What qualifies another key is an attribute.
    (
        "(00)106141412345678908(02)09506000134352(37)20(10)ABC",
        "id.gs1.org",
        "https://id.gs1.org/00/106141412345678908?02=09506000134352&37=20&10=ABC",
    ),
    (
        "(7040)1ABC(10)A(01)09506000134352",
        "x",
        "https://x/01/09506000134352/10/A?7040=1ABC",
    ),
    (
        "(3103)000195(21)1(17)261231(10)A(01)09506000134352(22)V",
        "a.b-c.example:8080",
        "https://a.b-c.example:8080/01/09506000134352/22/V/10/A/21/1?3103=000195&17=261231",
    ),
    (
        "(01)09506000134352(235)%&*+,:;<=>?",
        "x",
        "https://x/01/09506000134352/235/%25%26%2A%2B%2C%3A%3B%3C%3D%3E%3F",
    ),
    (
        "(8006)095060001343520102(10)!\"'.-_",
        "x",
        "https://x/8006/095060001343520102/10/%21%22%27.-_",
    ),
    (
        "(414)9506000134352(7040)1ABC",
        "x",
        "https://x/414/9506000134352/7040/1ABC",
    ),
    (
        "(417)9506000134352(7040)1ABC",
        "x",
        "https://x/417/9506000134352/7040/1ABC",
    ),
    (
        "(8004)9506000ABC(7040)1ABC",
        "x",
        "https://x/8004/9506000ABC/7040/1ABC",
    ),
    (
        "(8020)REF1(415)9506000134352",
        "x",
        "https://x/415/9506000134352/8020/REF1",
    ),
    (
        "(8010)9506000A1(8011)12",
        "x",
        "https://x/8010/9506000A1/8011/12",
    ),
    (
        "(8010)9506000#A(8011)12",
        "x",
        "https://x/8010/9506000%23A/8011/12",
    ),
    (
        "(8017)950600013435200008(8019)7",
        "x",
        "https://x/8017/950600013435200008/8019/7",
    ),
    (
        "(8018)950600013435200008",
        "aaaaaaaaaaaaaaaaaaaaaaaaaaaaaaaaaaaaaaaaaaaaaaaaaaaaaaaaaaaaaaa.b-1:65535",
        "https://aaaaaaaaaaaaaaaaaaaaaaaaaaaaaaaaaaaaaaaaaaaaaaaaaaaaaaaaaaaaaaa.b-1:65535/8018/950600013435200008",
    ),
    (
        "(8018)950600013435200008",
        "1.2.3.4:00001",
        "https://1.2.3.4:00001/8018/950600013435200008",
    ),
    (
        "(8014)1987654Ad4X4bL5ttr2310c2K",
        "x",
        "https://x/8014/1987654Ad4X4bL5ttr2310c2K",
    ),
    (
        "(8018)950600013435200008",
        "x",
        "https://x/8018/950600013435200008",
    ),
    (
        "(91)a/b(401)9506000X",
        "x",
        "https://x/401/9506000X?91=a%2Fb",
    ),
    // A path at which links begin, also one that looks like elements.
    (
        "(01)09506000134352(10)ABC",
        "example.com/shop",
        "https://example.com/shop/01/09506000134352/10/ABC",
    ),
    (
        "(00)106141412345678908",
        "a.example:8080/s~_-.1/01/.x:y/..z",
        "https://a.example:8080/s~_-.1/01/.x:y/..z/00/106141412345678908",
    ),
];

#[test]
fn writes_links(rt: HostRuntime) {
    for (text, domain, link) in LINKS {
        let written = digital_link(rt.alloc(), text, domain).ok();
        let written = written.expect(&rt, "no link");
        assert_eq!(rt; written.as_slice(), link.as_bytes());
    }
}

/// Texts, domains and links in capitals.
static CAPITAL_LINKS: [(&str, &str, &str); 3] = [
    (
        "(17)261231(01)09506000134352(10)ABc/",
        "id.gs1.org",
        "HTTPS://ID.GS1.ORG/01/09506000134352/10/ABc%2F?17=261231",
    ),
    (
        "(00)106141412345678908",
        "A.example:80/Shop/x",
        "HTTPS://A.EXAMPLE:80/Shop/x/00/106141412345678908",
    ),
    // The first and the last small letter, and those beside capitals.
    (
        "(00)106141412345678908",
        "az-09.AZ.zyx",
        "HTTPS://AZ-09.AZ.ZYX/00/106141412345678908",
    ),
];

#[test]
fn writes_links_in_capitals(rt: HostRuntime) {
    for (text, domain, link) in CAPITAL_LINKS {
        let written = capital_link(rt.alloc(), text, domain).ok();
        let written = written.expect(&rt, "no link");
        assert_eq!(rt; written.as_slice(), link.as_bytes());
    }
    for (text, domain, fault) in FAULTS {
        assert_eq!(rt; capital_link(rt.alloc(), text, domain).err(), Some(fault));
    }
}

/// Texts and domains with a fault.
static FAULTS: [(&str, &str, LinkError); 40] = [
    ("", "", LinkError::Elements(CheckError::NoElements)),
    (
        "(01)09506000134351",
        "/",
        LinkError::Elements(CheckError::WrongValue {
            element: 0,
            identifier: 1,
            place: 13,
            reason: Reason::WrongCheckDigit { right: 2 },
        }),
    ),
    ("(10)A", "", LinkError::WrongDomain),
    ("(10)A", "a/b", LinkError::NoKey),
    ("(10)A", "/b", LinkError::WrongDomain),
    ("(10)A", "a/", LinkError::WrongDomain),
    ("(10)A", "a//b", LinkError::WrongDomain),
    ("(10)A", "a/b/", LinkError::WrongDomain),
    ("(10)A", "a/./b", LinkError::WrongDomain),
    ("(10)A", "a/..", LinkError::WrongDomain),
    ("(10)A", "a/b?c", LinkError::WrongDomain),
    ("(10)A", "a/%41", LinkError::WrongDomain),
    ("(10)A", "a/\u{e9}", LinkError::WrongDomain),
    ("(10)A", "a:0/b", LinkError::WrongDomain),
    ("(10)A", "a_b/c", LinkError::WrongDomain),
    ("(10)A", ":80", LinkError::WrongDomain),
    ("(10)A", "a:", LinkError::WrongDomain),
    ("(10)A", "a:80:80", LinkError::WrongDomain),
    ("(10)A", "a:8x", LinkError::WrongDomain),
    ("(10)A", "a_b", LinkError::WrongDomain),
    ("(10)A", ".", LinkError::WrongDomain),
    ("(10)A", "a..b", LinkError::WrongDomain),
    ("(10)A", ".a", LinkError::WrongDomain),
    ("(10)A", "a.", LinkError::WrongDomain),
    (
        "(10)A",
        "b.aaaaaaaaaaaaaaaaaaaaaaaaaaaaaaaaaaaaaaaaaaaaaaaaaaaaaaaaaaaaaaaa",
        LinkError::WrongDomain,
    ),
    ("(10)A", "a:0", LinkError::WrongDomain),
    ("(10)A", "a:000", LinkError::WrongDomain),
    ("(10)A", "a:65536", LinkError::WrongDomain),
    ("(10)A", "a:99999999", LinkError::WrongDomain),
    // Ten to the twentieth, which is more than 64 bits hold.
    ("(10)A", "a:100000000000000000000", LinkError::WrongDomain),
    ("(10)A", "a", LinkError::NoKey),
    (
        "(01)09506000134352(00)106141412345678908",
        "a",
        LinkError::SecondKey { element: 0 },
    ),
    // A batch needs a trade item.
    (
        "(00)106141412345678908(10)A",
        "a",
        LinkError::Together(TogetherError::MissingElement {
            element: 1,
            identifier: 10,
        }),
    ),
    (
        "(10)A(01)09506000134352(235)B",
        "a",
        LinkError::WrongQualifier {
            element: 0,
            identifier: 10,
        },
    ),
    (
        "(414)9506000134352(254)A(7040)1ABC",
        "a",
        LinkError::WrongQualifier {
            element: 1,
            identifier: 254,
        },
    ),
    (
        "(01)09506000134352(17)261231(17)261231",
        "a",
        LinkError::RepeatedElement {
            element: 1,
            identifier: 17,
        },
    ),
    // A price of a trade item of variable measure needs its measure, and a count what it counts.
    (
        "(3922)2172(01)09506000134352",
        "a",
        LinkError::Together(TogetherError::MissingElement {
            element: 0,
            identifier: 3922,
        }),
    ),
    (
        "(00)106141412345678908(37)20",
        "a",
        LinkError::Together(TogetherError::MissingElement {
            element: 1,
            identifier: 37,
        }),
    ),
    // There is one postal code.
    (
        "(420)1(00)106141412345678908(421)0361",
        "a",
        LinkError::Together(TogetherError::ConflictingElement {
            element: 0,
            identifier: 420,
            other: 2,
        }),
    ),
    // Other faults come first.
    (
        "(37)20(01)09506000134352(37)20",
        "a",
        LinkError::RepeatedElement {
            element: 0,
            identifier: 37,
        },
    ),
];

#[test]
fn refuses_links(rt: HostRuntime) {
    for (text, domain, fault) in FAULTS {
        assert_eq!(rt; digital_link(rt.alloc(), text, domain).err(), Some(fault));
    }
}

/// Returns the error of a text of this length.
fn of_length(alloc: Global, length: usize) -> Option<LinkError> {
    let mut text = String::from_str(alloc, "(91)").ok()?;
    for _ in 4..length {
        text.push('1').ok()?;
    }
    digital_link(alloc, text.as_str(), "a").err()
}

#[test]
fn refuses_long_texts(rt: HostRuntime) {
    assert!(rt; of_length(rt.alloc(), 11815) != Some(LinkError::TextTooLong));
    assert_eq!(rt; of_length(rt.alloc(), 11816), Some(LinkError::TextTooLong));
}

/// Bytes, and the text that writes them with percent-escapes.
static ESCAPES: [(&[u8], &[u8]); 4] = [
    (b"", b""),
    (b"AZaz09-._~", b"AZaz09-._~"),
    (b"a/b?c=%", b"a%2Fb%3Fc%3D%25"),
    (b"\x00\x7f\xff", b"%00%7F%FF"),
];

#[test]
fn writes_and_reads_escapes(rt: HostRuntime) {
    for (bytes, text) in ESCAPES {
        let written = percent_escaped(rt.alloc(), bytes).ok();
        let written = written.expect(&rt, "no text");
        assert_eq!(rt; written.as_slice(), text);
        let read = percent_decoded(rt.alloc(), text).ok();
        let read = read.expect(&rt, "no bytes");
        assert_eq!(rt; read.as_slice(), bytes);
    }
}

#[test]
fn reads_other_escapes(rt: HostRuntime) {
    let read = percent_decoded(rt.alloc(), b"%2f%2F%aF!$&'()*+,;=:@/?").ok();
    let read = read.expect(&rt, "no bytes");
    assert_eq!(rt; read.as_slice(), b"//\xaf!$&'()*+,;=:@/?".as_slice());
}

/// Texts that write no bytes.
static WRONG_ESCAPES: [&[u8]; 7] = [b"%", b"a%2", b"%2G", b"%G2", b"a#", b" ", b"\x80"];

#[test]
fn refuses_escapes(rt: HostRuntime) {
    for text in WRONG_ESCAPES {
        let refused = percent_decoded(rt.alloc(), text).err();
        assert_eq!(rt; refused, Some(PercentError::WrongCharacter));
    }
}
