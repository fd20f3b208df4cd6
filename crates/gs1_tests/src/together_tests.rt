//! Elements that stand together, and those that do not.
use gs1::{TogetherError, check_together};
use std::alloc::Global;

/// Texts whose elements stand together: a trade item with a date and a batch, a count of trade
/// items in a logistic unit, a price with a weight, a party that pays, no assigned identifier, the
/// volume of a logistic unit, and others.
static TOGETHER: [&str; 17] = [
    "(01)09506000134352(17)261200(10)ABC123(21)7",
    "(00)106141412345678908(02)09506000134352(37)20(400)A",
    "(01)09506000134352(3103)000189(3922)2172",
    "(415)4226350800008(8020)ABC(3910)9781",
    "(4399)A(90)B",
    "(3106)000001",
    "(00)106141412345678908(3360)000100",
    "(255)9506000134352(3900)1",
    "(00)106141412345678908(8026)095060001343520102(37)1",
    "(00)106141412345678908(3302)001234(4330)001234-",
    "(00)106141412345678908(4302)A(4303)B(7041)AB",
    "(01)09506000134352(30)2(3950)000100(711)A",
    "(8018)950600013435200008(7258)1/3(7259)A(7256)B",
    "(415)4226350800008(8020)A(8007)GB82WEST12345698765432",
    "(01)09506000134352(21)7(8030)Abc9",
    "(00)106141412345678908(02)09506000134352(37)20(3103)000189(10)A",
    // A value may stand more than once.
    "(01)09506000134352(10)A(01)09506000134352(10)A",
];

#[test]
fn takes_what_stands_together(rt: HostRuntime) {
    for text in TOGETHER {
        assert_eq!(rt; check_together(text), Ok(()));
    }
}

/// Texts with a fault.
static FAULTS: [(&str, TogetherError); 9] = [
    (
        "(02)09506000134352",
        TogetherError::MissingElement {
            element: 0,
            identifier: 2,
        },
    ),
    // A count needs a logistic unit, and what it counts.
    (
        "(37)20(02)09506000134352",
        TogetherError::MissingElement {
            element: 0,
            identifier: 37,
        },
    ),
    (
        "(00)106141412345678908(37)20",
        TogetherError::MissingElement {
            element: 1,
            identifier: 37,
        },
    ),
    (
        "(10)ABC",
        TogetherError::MissingElement {
            element: 0,
            identifier: 10,
        },
    ),
    (
        "(01)09506000134352(250)A",
        TogetherError::MissingElement {
            element: 1,
            identifier: 250,
        },
    ),
    // A price of a trade item of variable measure needs its measure.
    (
        "(01)09506000134352(3922)2172",
        TogetherError::MissingElement {
            element: 1,
            identifier: 3922,
        },
    ),
    (
        "(01)09506000134352(255)9506000134352",
        TogetherError::ConflictingElement {
            element: 0,
            identifier: 1,
            other: 1,
        },
    ),
    (
        "(420)1(421)0361",
        TogetherError::ConflictingElement {
            element: 0,
            identifier: 420,
            other: 1,
        },
    ),
    (
        "(01)09506000134352(235)A(21)7",
        TogetherError::ConflictingElement {
            element: 1,
            identifier: 235,
            other: 2,
        },
    ),
];

#[test]
fn names_what_does_not_stand_together(rt: HostRuntime) {
    for (text, fault) in FAULTS {
        assert_eq!(rt; check_together(text), Err(fault));
    }
}

/// Texts with a fault: the text, the element, its identifier, and the other one if two exclude each
/// other.
static RULES: [(&str, usize, usize, Option<usize>); 36] = [
    // A piece of a logistic unit needs a count.
    ("(8026)095060001343520102", 0, 8026, None),
    (
        "(00)106141412345678908(02)09506000134352(37)1(8026)095060001343520102",
        3,
        8026,
        Some(1),
    ),
    (
        "(8006)095060001343520102(01)09506000134352",
        0,
        8006,
        Some(1),
    ),
    (
        "(00)106141412345678908(02)09506000134352(37)1(8006)095060001343520102",
        3,
        8006,
        Some(2),
    ),
    ("(03)09506000134352(01)09506000134352", 0, 3, Some(1)),
    (
        "(8017)950600013435200008(8018)950600013435200008",
        0,
        8017,
        Some(1),
    ),
    // Measures of trade items, and one measure with its decimal point at two places.
    ("(00)106141412345678908(3103)000189", 1, 3103, None),
    (
        "(00)106141412345678908(02)09506000134352(37)20(3370)000100",
        3,
        3370,
        None,
    ),
    (
        "(01)09506000134352(3102)000189(3103)000189",
        1,
        3102,
        Some(2),
    ),
    ("(255)9506000134352(3902)100(3900)1", 1, 3902, Some(2)),
    // Amounts and prices.
    ("(01)09506000134352(3950)000100", 1, 3950, None),
    (
        "(01)09506000134352(3103)000189(3922)2172(3950)000100",
        3,
        3950,
        Some(2),
    ),
    (
        "(01)09506000134352(8005)000100(30)2(3950)000100",
        3,
        3950,
        Some(1),
    ),
    ("(255)9506000134352(3900)1(3940)0010", 1, 3900, Some(2)),
    ("(255)9506000134352(3900)1(8111)0010", 1, 3900, Some(2)),
    ("(255)9506000134352(3940)0010(8111)0010", 1, 3940, Some(2)),
    // An address needs the company (4302), and an instruction for a carrier a logistic unit (00).
    ("(00)106141412345678908(4303)A", 1, 4303, None),
    ("(00)106141412345678908(4316)A", 1, 4316, None),
    ("(4330)001234", 0, 4330, None),
    ("(7041)AB", 0, 7041, None),
    ("(7030)999A", 0, 7030, None),
    (
        "(00)106141412345678908(02)09506000134352(37)1(710)A",
        3,
        710,
        None,
    ),
    // What is said of a patient.
    ("(7240)A", 0, 7240, None),
    ("(7241)01", 0, 7241, None),
    ("(7242)A", 0, 7242, None),
    ("(8017)950600013435200008(7250)20000101", 1, 7250, None),
    ("(7253)A", 0, 7253, None),
    ("(8018)950600013435200008(7258)1/3", 1, 7258, None),
    ("(8018)950600013435200008(7256)A(7253)B", 1, 7256, Some(2)),
    // Others that need another.
    ("(8007)GB82WEST12345698765432", 0, 8007, None),
    ("(8009)A", 0, 8009, None),
    ("(8012)A", 0, 8012, None),
    ("(8030)Abc9", 0, 8030, None),
    // An identifier with two values.
    ("(01)09506000134352(01)09506000134369", 0, 1, Some(1)),
    ("(01)09506000134352(10)A(10)B", 1, 10, Some(2)),
    ("(01)09506000134352(21)7(10)A(21)7(21)8", 1, 21, Some(4)),
];

#[test]
fn knows_the_rules(rt: HostRuntime) {
    for (text, element, identifier, other) in RULES {
        let fault = match other {
            Some(other) => TogetherError::ConflictingElement {
                element,
                identifier,
                other,
            },
            None => TogetherError::MissingElement {
                element,
                identifier,
            },
        };
        assert_eq!(rt; check_together(text), Err(fault));
    }
}

/// Returns the error of an element of this identifier whose value has this length.
fn of_length(alloc: Global, length: usize) -> Option<TogetherError> {
    let mut text = String::from_str(alloc, "(91)").ok()?;
    for _ in 0..length {
        text.push('1').ok()?;
    }
    check_together(text.as_str()).err()
}

#[test]
fn refuses_long_texts(rt: HostRuntime) {
    assert!(rt; of_length(rt.alloc(), 11811).is_none());
    assert_eq!(rt;
        of_length(rt.alloc(), 11812),
        Some(TogetherError::TextTooLong)
    );
}

#[test]
fn prints_conflicts(rt: HostRuntime) {
    let fault = check_together("(420)1(421)0361").err();
    let fault = fault.expect(&rt, "no fault");
    let text = format!(in rt.alloc(); "{fault}").ok();
    let text = text.expect(&rt, "no text");
    assert_eq!(rt;
        text.as_str(),
        "element 0 (420): element 1 may not stand beside it"
    );
}
