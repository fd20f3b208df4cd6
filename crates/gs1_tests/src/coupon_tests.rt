//! Coupon codes and offers. Which of them are taken is as zint 2.11.1 has it.
use gs1::{CheckError, Reason, check_element_values, checked_element_string};

/// Texts that are taken, and their element strings.
static TAKEN: [(&str, &[u8]); 13] = [
    (
        "(8110)106141416543213500110000310123196000",
        b"8110106141416543213500110000310123196000",
    ),
    (
        "(8110)106141416543213150110120",
        b"8110106141416543213150110120",
    ),
    (
        "(8110)1061414112345615110123",
        b"81101061414112345615110123",
    ),
    (
        "(8110)10614141123456151101233261200",
        b"811010614141123456151101233261200",
    ),
    (
        "(8110)10614141123456151101234261231",
        b"811010614141123456151101234261231",
    ),
    (
        "(8110)1061414112345615110123111501239",
        b"81101061414112345615110123111501239",
    ),
    (
        "(8110)106141411234561511012321501230614141",
        b"8110106141411234561511012321501230614141",
    ),
    (
        "(8110)106141411234561511012359111111111111111",
        b"8110106141411234561511012359111111111111111",
    ),
    (
        "(8110)1061414112345615110123671111111111111",
        b"81101061414112345615110123671111111111111",
    ),
    (
        "(8110)106141411234561511012396210",
        b"8110106141411234561511012396210",
    ),
    (
        "(8110)1061414112345615110123326123190000",
        b"81101061414112345615110123326123190000",
    ),
    ("(8112)006141411234560000000", b"8112006141411234560000000"),
    (
        "(8112)160000000000001234569111111111111111",
        b"8112160000000000001234569111111111111111",
    ),
];

#[test]
fn takes_coupons(rt: HostRuntime) {
    for (text, bytes) in TAKEN {
        let written = checked_element_string(rt.alloc(), text).ok();
        let written = written.expect(&rt, "no element string");
        assert_eq!(rt; written.as_slice(), bytes);
        assert_eq!(rt; check_element_values(bytes), Ok(()));
    }
}

/// Texts with a fault: the identifier, the place of the fault, and the reason.
static FAULTS: [(&str, usize, usize, Reason); 22] = [
    ("(8110)ABC", 8110, 0, Reason::WrongCharacter { byte: b'A' }),
    ("(8110)1", 8110, 1, Reason::TooShort),
    (
        "(8110)706141416543213150110120",
        8110,
        0,
        Reason::WrongCharacter { byte: b'7' },
    ),
    (
        "(8110)106141411234561511012A",
        8110,
        21,
        Reason::WrongCharacter { byte: b'A' },
    ),
    ("(8110)106141411234561511012", 8110, 21, Reason::TooShort),
    (
        "(8110)106141411234566555555110123",
        8110,
        14,
        Reason::WrongCharacter { byte: b'6' },
    ),
    (
        "(8110)1061414112345615116123",
        8110,
        18,
        Reason::WrongCharacter { byte: b'6' },
    ),
    (
        "(8110)10614141123456151101237",
        8110,
        22,
        Reason::WrongCharacter { byte: b'7' },
    ),
    (
        "(8110)10614141123456151101233260230",
        8110,
        27,
        Reason::WrongDay,
    ),
    (
        "(8110)10614141123456151101233261331",
        8110,
        25,
        Reason::WrongMonth,
    ),
    (
        "(8110)1061414112345615110123326123",
        8110,
        28,
        Reason::TooShort,
    ),
    (
        "(8110)1061414112345615110123141501239",
        8110,
        23,
        Reason::WrongCharacter { byte: b'4' },
    ),
    (
        "(8110)106141411234561511012321551239",
        8110,
        25,
        Reason::WrongCharacter { byte: b'5' },
    ),
    (
        "(8110)106141411234561511012360111111",
        8110,
        23,
        Reason::WrongCharacter { byte: b'0' },
    ),
    (
        "(8110)10614141123456151101236811111111111111",
        8110,
        23,
        Reason::WrongCharacter { byte: b'8' },
    ),
    (
        "(8110)106141411234561511012393000",
        8110,
        23,
        Reason::WrongCharacter { byte: b'3' },
    ),
    (
        "(8110)106141411234561511012390300",
        8110,
        24,
        Reason::WrongCharacter { byte: b'3' },
    ),
    (
        "(8110)106141411234561511012390092",
        8110,
        26,
        Reason::WrongCharacter { byte: b'2' },
    ),
    ("(8112)ABC", 8112, 0, Reason::WrongCharacter { byte: b'A' }),
    ("(8112)1", 8112, 1, Reason::TooShort),
    (
        "(8112)201234561234560123456",
        8112,
        0,
        Reason::WrongCharacter { byte: b'2' },
    ),
    ("(8112)0061414112345600000000", 8112, 21, Reason::TooLong),
];

#[test]
fn refuses_coupons(rt: HostRuntime) {
    for (text, identifier, place, reason) in FAULTS {
        let fault = CheckError::WrongValue {
            element: 0,
            identifier,
            place,
            reason,
        };
        let refused = checked_element_string(rt.alloc(), text).err();
        assert_eq!(rt; refused, Some(fault));
    }
}
