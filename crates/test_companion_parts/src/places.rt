//! Places of offsets, characters that are not shown as themselves, and excerpts.
use holzikra_places::{Lines, Place, excerpt_at, push_shown_text};
use std::test::Fail;

#[test]
fn places(rt: HostRuntime) -> Result<(), Fail> {
    // a CR LF b CR c U+2028 é U+1F600 d LF
    let text = b"a\r\nb\rc\xe2\x80\xa8\xc3\xa9\xf0\x9f\x98\x80d\n";
    let lines = Lines::of(rt.alloc(), text)?;
    assert!(rt; lines.starts.as_slice() == [0, 3, 5, 9, 17].as_slice());
    let expected = [
        (0, 1, 1),
        (1, 1, 2),
        (3, 2, 1),
        (4, 2, 2),
        (5, 3, 1),
        (9, 4, 1),
        (11, 4, 2),
        (15, 4, 4),
        (17, 5, 1),
    ];
    for (offset, line, column) in expected {
        let place = lines.place_of(text, offset);
        assert!(rt; place == Place { line, column }, "{offset}");
    }
    Ok(())
}

#[test]
fn what_is_shown(rt: HostRuntime) -> Result<(), Fail> {
    let mut shown = String::new(rt.alloc());
    push_shown_text(
        &mut shown,
        "\ta\u{200e}\u{2028}\u{2029}\u{2069}\u{7f}\u{5d0}",
    )?;
    assert!(rt; shown.as_str() == " a\\u{200e}\\u{2028}\\u{2029}\\u{2069}\\u{7f}\u{5d0}");
    Ok(())
}

/// Texts, an offset in each, what is shown of its line, and where the caret is.
const EXCERPTS: [(&[u8], usize, &str, usize); 2] = [
    (b"one\n\ta \xe2\x80\xae b\r\ntwo", 11, " a \\u{202e} b", 12),
    (
        b"a\xd8\x9c\xe2\x80\x8e\xe2\x80\x8fb",
        6,
        "a\\u{61c}\\u{200e}\\u{200f}b",
        16,
    ),
];

#[test]
fn excerpts(rt: HostRuntime) -> Result<(), Fail> {
    for (text, offset, shown, caret) in EXCERPTS {
        let excerpt = excerpt_at(rt.alloc(), text, offset)?;
        assert!(rt; excerpt.shown.as_str() == shown && excerpt.caret == caret);
    }
    Ok(())
}

/// Offsets in a line of 1,000 characters, with how many are shown of it and where the caret is.
const CUTS: [(usize, usize, usize); 2] = [(500, 82, 41), (1000, 81, 81)];

#[test]
fn excerpts_of_a_long_line_are_cut(rt: HostRuntime) -> Result<(), Fail> {
    let line = vec![in rt.alloc(); b'x'; 1000]?;
    for (offset, count, caret) in CUTS {
        let excerpt = excerpt_at(rt.alloc(), &line, offset)?;
        assert!(rt; excerpt.shown.as_str().chars().count() == count && excerpt.caret == caret);
    }
    Ok(())
}
