//! What stands between tokens: white space, line ends and comments.
ghost use Rattle.std.specs.Prelude.{◌≡◌, ◌≢◌, ◌≤◌, ◌<◌, ◌+◌, ◌==◌, ℕ, true, length, map, not, IfSome};
ghost use Rattle.std.specs.List.{prefix_len, list_any};
ghost use Rattle.unit_text.specs.Points.{code_of};
ghost use Rattle.script_scanner.specs.Blanks.{begins, blank_at, comment_at, block_comment, is_line_end, is_white_space, line_length};
ghost use Rattle.script_scanner.specs.Blanks.{length_to_star_slash, line_end_length, first_line_length};

use crate::sources::Source;

/// White space, a line end or a comment.
#[derive(Clone, Copy, Debug, PartialEq, Eq)]
pub struct Blank {
    /// How many code points it takes.
    pub length: usize,
    /// Whether it counts as a line end.
    pub breaks: bool,
}

/// Whether a code point is a space.
#[inline]
fn is_space(code: char) -> bool
    ensures { result ≡ (code == 0x20) }
{
    code == ' '
}

/// How many spaces stand at the front.
#[inline]
#[tactic(auto, using(crate::proofs::Lists::prefix_more, crate::proofs::Lists::prefix_stops, crate::proofs::Lists::prefix_ends))]
pub fn spaces_length<T: Source>(rest: T) -> usize
    ensures value { result ≡ prefix_len (λ c. c == 0x20) (map code_of (T.points rest)) }
    ensures within { result ≤ length (T.points rest) }
{
    let mut at = 0;
    while at < rest.count() && is_space(rest.point_at(at).code) {
        at += 1;
    }
    at
}

/// Whether a code point is white space (ECMA-262, 12th edition, clause 12.2).
pub fn is_white_space(code: char) -> bool
    ensures { result ≡ is_white_space code }
{
    (code == '\t')
        | (code == '\u{B}')
        | (code == '\u{C}')
        | (code == ' ')
        | (code == '\u{A0}')
        | (code == '\u{FEFF}')
        | (code == '\u{1680}')
        | (('\u{2000}' <= code) & (code <= '\u{200A}'))
        | (code == '\u{202F}')
        | (code == '\u{205F}')
        | (code == '\u{3000}')
}

/// Whether a code point is a line end (clause 12.3).
pub fn is_line_end(code: char) -> bool
    ensures { result ≡ is_line_end code }
{
    (code == '\n') | (code == '\r') | (code == '\u{2028}') | (code == '\u{2029}')
}

/// Whether points begin with these characters.
pub fn begins<T: Source>(rest: T, text: &[u8]) -> bool
    ensures { result ≡ begins text.now (map code_of (T.points rest)) }
{
    match text.split_first() {
        None => true,
        Some((letter, more)) => match rest.split_first() {
            None => false,
            Some((point, others)) => point.code as u32 == u32::from(*letter)
                && begins(others, more),
        },
    }
}

/// How many code points stand before the first line end.
#[tactic(auto, using(crate::proofs::Lists::prefix_more, crate::proofs::Lists::prefix_stops, crate::proofs::Lists::prefix_ends))]
pub fn line_length<T: Source>(rest: T) -> usize
    ensures value { result ≡ line_length (map code_of (T.points rest)) }
    ensures within { result ≤ length (T.points rest) }
{
    let mut at = 0;
    while at < rest.count() && !is_line_end(rest.point_at(at).code) {
        at += 1;
    }
    at
}

/// How many code points the line end at the front takes.
pub fn line_end_length<T: Source>(rest: T) -> usize
    ensures value { result ≡ line_end_length (map code_of (T.points rest)) }
    ensures within { result ≤ length (T.points rest) }
{
    match rest.split_first() {
        None => 0,
        Some((first, others)) => match others.split_first() {
            None => 1,
            Some((second, _)) => {
                if first.code == '\r' && second.code == '\n' {
                    2
                } else {
                    1
                }
            }
        },
    }
}

/// How many code points there are up to the first `*/` and with it.
fn length_to_star_slash<T: Source>(rest: T) -> Option<usize>
    ensures value { result ≡ length_to_star_slash (map code_of (T.points rest)) }
    ensures within { IfSome result (λ n. n ≤ length (T.points rest)) }
    ensures few { IfSome result (λ n. n ≤ 9223372036854775807) }
{
    let mut at = 0;
    while at < rest.count() {
        if begins(rest.behind(at), b"*/") {
            return Some(at + 2);
        }
        at += 1;
    }
    None
}

/// Whether a line end stands among the points.
#[tactic(auto, using(crate::proofs::Lists::any_more, crate::proofs::Lists::any_found, crate::proofs::Lists::any_ends))]
fn holds_line_end<T: Source>(points: T) -> bool
    ensures { result ≡ list_any is_line_end (map code_of (T.points points)) }
{
    let mut at = 0;
    while at < points.count() {
        if is_line_end(points.point_at(at).code) {
            return true;
        }
        at += 1;
    }
    false
}

/// The comment of many lines, of what follows its `/*`.
#[tactic(auto, using(crate::proofs::Lists::map_take))]
fn block_comment<T: Source>(inner: T) -> Option<Blank>
    ensures value { result ≡ block_comment (length_to_star_slash (map code_of (T.points inner))) (map code_of (T.points inner)) }
    ensures within { IfSome result (λ blank. (0 < blank.length) × (blank.length ≤ 2 + length (T.points inner))) }
{
    match length_to_star_slash(inner) {
        None => None,
        Some(length) => Some(Blank {
            length: 2 + length,
            breaks: holds_line_end(inner.front(length)),
        }),
    }
}

/// The comment at the front, if there is one.
#[tactic(auto, using(crate::proofs::Lists::map_drop))]
fn comment_at<T: Source>(rest: T) -> Option<Blank>
    ensures value { result ≡ comment_at (map code_of (T.points rest)) }
    ensures within { IfSome result (λ blank. (0 < blank.length) × (blank.length ≤ length (T.points rest))) }
{
    if begins(rest, b"//") {
        return Some(Blank {
            length: line_length(rest),
            breaks: false,
        });
    }
    if begins(rest, b"/*") {
        block_comment(rest.behind(2))
    } else {
        None
    }
}

/// Whether a code point is a visible ASCII character other than `/`. None of these begins a blank, and most tokens begin with one.
fn is_plain(code: char) -> bool
    ensures { result ≡ true → (0x21 ≤ code) × (code ≤ 0x7E) × (code ≢ 0x2F) }
{
    (('!' <= code) & (code <= '.')) | (('0' <= code) & (code <= '~'))
}

/// The white space, line end or comment at the front, if there is one.
#[inline]
#[tactic(auto, using(crate::proofs::BlankLemmas::plain_is_no_blank, crate::proofs::BlankLemmas::space_is_blank, crate::proofs::BlankLemmas::line_feed_is_blank))]
pub fn blank_at<T: Source>(rest: T) -> Option<Blank>
    ensures value { result ≡ blank_at (map code_of (T.points rest)) }
    ensures within { IfSome result (λ blank. (0 < blank.length) × (blank.length ≤ length (T.points rest))) }
{
    let (first, _) = rest.split_first()?;
    if is_plain(first.code) {
        return None;
    }
    if first.code == ' ' {
        return Some(Blank {
            length: 1,
            breaks: false,
        });
    }
    if first.code == '\n' {
        return Some(Blank {
            length: 1,
            breaks: true,
        });
    }
    rare_blank_at(rest)
}

/// The same, apart from the three tests that decide nearly always, so that they can stand in the scanner's loop.
#[inline(never)]
fn rare_blank_at<T: Source>(rest: T) -> Option<Blank>
    ensures value { result ≡ blank_at (map code_of (T.points rest)) }
    ensures within { IfSome result (λ blank. (0 < blank.length) × (blank.length ≤ length (T.points rest))) }
{
    let (first, _) = rest.split_first()?;
    if is_white_space(first.code) {
        return Some(Blank {
            length: 1,
            breaks: false,
        });
    }
    if is_line_end(first.code) {
        return Some(Blank {
            length: 1,
            breaks: true,
        });
    }
    comment_at(rest)
}

/// How many code points of a first line that begins with `#!` are passed over.
pub fn first_line_length<T: Source>(rest: T) -> usize
    ensures value { result ≡ first_line_length (map code_of (T.points rest)) }
    ensures within { result ≤ length (T.points rest) }
{
    if begins(rest, b"#!") {
        line_length(rest)
    } else {
        0
    }
}
