//! Tests of `png`: what ISO/IEC 15948 says of every file.
use png::{Image, Palette, Rgb, png};

/// A dark blue.
const BLUE: Rgb = Rgb {
    red: 0x1A,
    green: 0x2B,
    blue: 0x5C,
};

/// A light yellow.
const YELLOW: Rgb = Rgb {
    red: 0xFF,
    green: 0xF5,
    blue: 0xCC,
};

/// Nine pixels across, three rows, and 300 dots per inch: the signature (5.2), the fields of IHDR
/// (11.2.2) and of pHYs (11.3.5.3), the first name of the data, and the last chunk, IEND, whose
/// checksum is the same in every file (11.2.5).
#[test]
fn has_signature_and_chunks(rt: HostRuntime) {
    let image = Image {
        width: 9,
        rows: &[0xA5, 0x80],
        count: 1,
        repeat: 3,
        per_metre: Some(11811),
        palette: None,
        title: None,
    };
    let file = png(rt.alloc(), &image).expect(&rt, "no file");
    let bytes = file.as_slice();
    assert!(rt;
        bytes.starts_with(b"\x89PNG\r\n\x1A\n\0\0\0\x0DIHDR\0\0\0\x09\0\0\0\x03\x01\0\0\0\0")
    );
    assert!(rt;
        bytes.get(33..50) == Some(b"\0\0\0\x09pHYs\0\0\x2E\x23\0\0\x2E\x23\x01".as_slice())
    );
    assert!(rt; bytes.get(58..62) == Some(b"IDAT".as_slice()));
    assert!(rt; bytes.ends_with(b"\0\0\0\0IEND\xAE\x42\x60\x82"));
}

/// Without a number of pixels in a metre the data follow IHDR.
#[test]
fn has_no_density(rt: HostRuntime) {
    let image = Image {
        width: 8,
        rows: &[0x0F, 0xF0],
        count: 2,
        repeat: 1,
        per_metre: None,
        palette: None,
        title: None,
    };
    let file = png(rt.alloc(), &image).expect(&rt, "no file");
    assert!(rt; file.as_slice().get(37..41) == Some(b"IDAT".as_slice()));
}

/// Of two colours, the second of them transparent, and with a title of ASCII: the colour type 3 in
/// IHDR (11.2.2), the six bytes of PLTE (11.2.3), the alphas of tRNS (11.3.2.1), and tEXt, with a
/// byte 0 after the keyword (11.3.4.3). The checksums are those of Python's `zlib.crc32`.
#[test]
fn has_colours_and_title(rt: HostRuntime) {
    let image = Image {
        width: 8,
        rows: &[0x0F],
        count: 1,
        repeat: 1,
        per_metre: None,
        palette: Some(Palette {
            zero: BLUE,
            one: YELLOW,
            clear: true,
        }),
        title: Some("Label 7"),
    };
    let file = png(rt.alloc(), &image).expect(&rt, "no file");
    let bytes = file.as_slice();
    let header = b"\0\0\0\x08\0\0\0\x01\x01\x03\0\0\0".as_slice();
    assert!(rt; bytes.get(16..29) == Some(header));
    let colours = b"\0\0\0\x06PLTE\x1A\x2B\x5C\xFF\xF5\xCC\x75\x61\x99\xB3".as_slice();
    assert!(rt; bytes.get(33..51) == Some(colours));
    let alphas = b"\0\0\0\x02tRNS\xFF\0\xE5\xB7\x30\x4A".as_slice();
    assert!(rt; bytes.get(51..65) == Some(alphas));
    let title = b"\0\0\0\x0DtEXtTitle\0Label 7\x14\x46\x7E\x1B".as_slice();
    assert!(rt; bytes.get(65..90) == Some(title));
    assert!(rt; bytes.get(94..98) == Some(b"IDAT".as_slice()));
}

/// A title beyond ASCII is in iTXt (11.3.4.5): the keyword, two bytes 0, since it is not
/// compressed, no language, no keyword in it, and UTF-8.
#[test]
fn has_international_title(rt: HostRuntime) {
    let image = Image {
        width: 8,
        rows: &[0x0F],
        count: 1,
        repeat: 1,
        per_metre: None,
        palette: None,
        title: Some("Tür"),
    };
    let file = png(rt.alloc(), &image).expect(&rt, "no file");
    let bytes = file.as_slice();
    let title = b"\0\0\0\x0EiTXtTitle\0\0\0\0\0T\xC3\xBCr\xAA\xD6\x88\x6A".as_slice();
    assert!(rt; bytes.get(33..59) == Some(title));
    assert!(rt; bytes.get(63..67) == Some(b"IDAT".as_slice()));
}
