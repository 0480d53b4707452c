//! Code points with their places, and the units of a code point.

use std::test::Fail;
use unit_text::{Point, decode, is_ascii, units_of};

/// The points of `aé`, U+2028 and U+1F600, which are spelled by one to four bytes.
const POINTS: [Point; 4] = [
    Point {
        code: 'a',
        start: 0,
        end: 1,
    },
    Point {
        code: 'é',
        start: 1,
        end: 3,
    },
    Point {
        code: '\u{2028}',
        start: 3,
        end: 6,
    },
    Point {
        code: '\u{1F600}',
        start: 6,
        end: 10,
    },
];

#[test]
fn points_have_their_places(rt: HostRuntime) -> Result<(), Fail> {
    let points = decode(rt.alloc(), "aé\u{2028}\u{1F600}".as_bytes())?;
    assert!(rt; points.as_slice() == POINTS.as_slice());
    let points = decode(rt.alloc(), b"a")?;
    assert!(rt; points.as_slice() == &POINTS[..1], "a text of ASCII alone");
    Ok(())
}

/// Code points with their units, and how many these are.
const UNITS: [(char, [u16; 2], u8); 3] = [
    ('\u{FFFF}', [0xFFFF, 0], 1),
    ('\u{10000}', [0xD800, 0xDC00], 2),
    ('\u{10FFFF}', [0xDBFF, 0xDFFF], 2),
];

#[test]
fn units(rt: HostRuntime) {
    for (code, units, count) in UNITS {
        assert!(rt; units_of(code) == (units, count));
    }
}

#[test]
fn bytes_of_ascii(rt: HostRuntime) {
    let mut bytes = [b'a'; 200];
    assert!(rt; is_ascii(&bytes));
    assert!(rt; is_ascii(&bytes[..0]));
    for at in 0..bytes.len() {
        bytes[at] = 0x80;
        assert!(rt; !is_ascii(&bytes));
        bytes[at] = 0x7F;
    }
    assert!(rt; is_ascii(&bytes));
}
