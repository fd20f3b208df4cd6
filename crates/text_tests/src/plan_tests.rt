//! Plans of texts: their bits by the widths of the standard (ISO/IEC 18004:2006, tables 2 and 3),
//! counted by hand, and their parts.

use qrcode_core::types::{Mode, Version};
use text_plans::{PlanPart, least_plan};

/// A text, the bits of its least plan in version 1, and the number of its parts.
static ROWS: [(&str, usize, usize); 13] = [
    // Kanji: 4 + 8 + 5 * 13.
    ("市北前倉東", 77, 1),
    // A designator 12, and a Byte segment 4 + 8 + 8 a byte: parts 1, 5, 7 and 2 of ISO/IEC 8859.
    ("é", 32, 2),
    ("Grüße", 64, 2),
    ("Привет", 72, 2),
    ("Ελλάδα", 72, 2),
    ("Łódź", 56, 2),
    // UTF-8: 12 + 4 + 8 + 4 * 8.
    ("😀", 56, 2),
    // Part 15 or 16: 12 + 4 + 8 + 3 * 8.
    ("ÿ Ÿ", 48, 2),
    // Numeric: 4 + 10 + 17; Alphanumeric: 4 + 9 + 11.
    ("12345", 31, 1),
    ("A1", 24, 1),
    // Shift JIS and Kanji, 12 + 4 + 8 + 26, then part 1, 12 + 4 + 8 + 8; in UTF-8 it is 88.
    ("漢字é", 82, 4),
    // ASCII without a designator, 4 + 8 + 8, then Shift JIS, 12 + 4 + 8 + 3 * 8.
    ("~ｱｱｱ", 68, 3),
    // UTF-8: the byte of a tilde is no ASCII beside a Kanji segment.
    ("日本~", 80, 2),
];

#[test]
fn takes_the_fewest_bits(rt: HostRuntime) {
    for (text, bits, parts) in ROWS {
        let found = least_plan(rt.alloc(), text, Version::Normal(1)).expect(&rt, "memory");
        let (plan, taken) = found.expect(&rt, "a plan");
        assert_eq!(rt; taken, bits);
        assert_eq!(rt; plan.parts().len(), parts);
    }
}

#[test]
fn has_the_parts_of_a_mix(rt: HostRuntime) {
    let found = least_plan(rt.alloc(), "漢字é", Version::Normal(1)).expect(&rt, "memory");
    let (plan, _) = found.expect(&rt, "a plan");
    let kanji = PlanPart::Segment {
        mode: Mode::Kanji,
        begin: 0,
        end: 4,
    };
    let latin = PlanPart::Segment {
        mode: Mode::Byte,
        begin: 4,
        end: 5,
    };
    assert!(rt;
        plan.parts()
            == [
                PlanPart::Designator(20),
                kanji,
                PlanPart::Designator(3),
                latin
            ]
            .as_slice()
    );
    assert!(rt; plan.bytes() == [0x8a, 0xbf, 0x8e, 0x9a, 0xe9].as_slice());
}

/// Texts with letters that the parts 10 and 14 of ISO/IEC 8859 have, and with a space without a
/// break beside a letter of part 11, and their bits in version 1. Not every reader knows the
/// designators of those parts, nor this space after that of part 11.
static IN_UTF_8: [(&str, usize); 5] = [
    // 12 + 4 + 8 + 2 * 8: of all parts only 14 has the letter.
    ("ŵ", 40),
    // 12 + 4 + 8 + 4 * 8; `D` without a designator before the others makes 4 + 8 + 8 + 48.
    ("Dŵr", 56),
    // 12 + 4 + 8 + 4 * 8; the second letter in part 1 makes 40 + 32.
    ("ŵÿ", 56),
    // 12 + 4 + 8 + 4 * 8; the first letter in part 1, the second in part 4 makes 32 + 32.
    ("ðŋ", 56),
    // 12 + 4 + 8 + 5 * 8; part 11 and another part make 32 + 32 too, but in four parts.
    ("ก\u{a0}", 64),
];

/// They are a designator and one segment of bytes, whose count has 8 bits more from version 10 on.
#[test]
fn leaves_out_what_not_every_reader_knows(rt: HostRuntime) {
    for (text, bits) in IN_UTF_8 {
        for (number, taken) in [(1, bits), (10, bits + 8)] {
            let found = least_plan(rt.alloc(), text, Version::Normal(number));
            let (plan, found) = found.expect(&rt, "memory").expect(&rt, "a plan");
            let all = PlanPart::Segment {
                mode: Mode::Byte,
                begin: 0,
                end: text.len(),
            };
            assert!(rt; plan.parts() == [PlanPart::Designator(26), all].as_slice());
            assert!(rt; plan.bytes() == text.as_bytes());
            assert_eq!(rt; found, taken);
        }
    }
}

/// A space without a break between Thai letters: part 11, 12 + 4 + 8 + 3 * 8, any other part,
/// 12 + 4 + 8 + 8, and part 11 again. In UTF-8 it is 12 + 4 + 8 + 20 * 8.
#[test]
fn has_no_space_without_a_break_in_part_11(rt: HostRuntime) {
    let text = "ไทย\u{a0}ไทย";
    let found = least_plan(rt.alloc(), text, Version::Normal(1)).expect(&rt, "memory");
    let (plan, bits) = found.expect(&rt, "a plan");
    assert_eq!(rt; bits, 48 + 32 + 48);
    assert_eq!(rt; plan.parts().len(), 6);
    assert!(rt; plan.parts()[0] == PlanPart::Designator(13));
    assert!(rt; plan.parts()[2] != PlanPart::Designator(13));
    assert!(rt; plan.parts()[4] == PlanPart::Designator(13));
    assert!(rt; plan.bytes() == [0xe4, 0xb7, 0xc2, 0xa0, 0xe4, 0xb7, 0xc2].as_slice());
}

/// A Micro version has no designators.
#[test]
fn finds_no_plan_in_micro_versions(rt: HostRuntime) {
    let none = least_plan(rt.alloc(), "é", Version::Micro(4)).expect(&rt, "memory");
    assert!(rt; none.is_none());
    let found = least_plan(rt.alloc(), "点", Version::Micro(3)).expect(&rt, "memory");
    let (_, bits) = found.expect(&rt, "a plan");
    assert_eq!(rt; bits, 18);
}
