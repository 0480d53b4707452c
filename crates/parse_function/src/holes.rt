//! What stands between the braces of the bodies of functions directly in a function, found by what stands in front of these bodies.
//!
//! Mostly the first `{` of a function's text opens its body, so that brace is tried first. Where it does not, the text is looked at
//! from its start on, in windows that grow, until its head and a `{` are found. Either is a guess, of which nothing is proved: the
//! text up to that brace is scanned alone, and what was found counts only where it is a head and this brace. So a hole is what
//! stands in the function's body. Where nothing is found there is no hole.

ghost use Rattle.std.specs.Prelude.{◌≡◌, ◌-◌, ◌≤◌, ◌<◌, ◌^◌, ℕ, length, take, drop, IfOk, IfSome, IsTrue};
ghost use Rattle.std.specs.Str.{IsAscii, IsUtf8};
ghost use Rattle.script_grammar.specs.Matching.{kinds_of, Pairs};
ghost use Rattle.script_grammar.specs.declared.token.FuncForm.{FuncForm};
ghost use Rattle.parse_function.specs.Extents.{IsFunctionExtent};
ghost use Rattle.parse_function.specs.Holes.{AreHolesAt, AreTokensOf, BeginsWithHead, EndsWithHead, IsFunctionAt, IsHole};
ghost use Rattle.parse_function.specs.Holes.{IsHeadLength, IsKindAt, OpensWithParen};

use crate::points::points_in;
use parser_atoms::Atoms;
use script_grammar::brackets::Brackets;
use script_grammar::compact::CompactToken;
use script_grammar::token::{Kind, mark};
use script_scanner::{scan, scan_ascii};
use std::alloc::{AllocError, Global};
use stencil_data::Extent;
use unit_text::is_ascii;

/// What stands between the braces of a function's body: the bytes `from..to` of the file.
#[derive(Debug, Clone, Copy)]
pub(crate) struct Hole {
    pub from: u32,
    pub to: u32,
}

/// How many bytes of a function's text are looked at first.
const FIRST_WINDOW: u32 = 64;

/// How often that is doubled at most: then it is more than a file has.
const WINDOWS: u32 = 19;

/// What a first part of a function's text shows.
#[derive(Clone, Copy)]
enum Look {
    /// What seems to be the opening brace of its body: the offset after it.
    Behind(u32),
    /// That there is none, or that none is found.
    Nowhere,
    /// Nothing: about n bytes are to be looked at.
    Further(u32),
}

/// How tokens begin.
#[derive(Clone, Copy)]
enum Beginning {
    /// With a function's head and a `{`: the number of that token.
    Braced(usize),
    /// With a function's head and another token.
    Other,
    /// With a part of a head: they end before its end.
    Cut,
}

/// The holes of a function: what stands in the bodies of those functions directly in it whose opening brace is found.
pub(crate) fn holes_in(
    alloc: Global,
    file: &[u8],
    extent: Extent,
    inside: &[Extent],
) -> Result<Vec<Hole>, AllocError>
    requires size { length file.now ≤ 16777215 }
    requires function { (form : FuncForm) × IsFunctionExtent file.now extent form inside.now }
    ensures { IfOk result (λ holes. AreHolesAt file.now extent inside.now holes.items) }
{
    let mut holes = Vec::new(alloc);
    for inner in inside {
        let found = hole_of(alloc, file, *inner)?;
        if let Some(hole) = found {
            holes.push(hole)?;
        }
    }
    Ok(holes)
}

// The hole of a function, where its opening brace is found: mostly it is the first `{` of the function's text.
fn hole_of(alloc: Global, file: &[u8], inner: Extent) -> Result<Option<Hole>, AllocError>
    requires size { length file.now ≤ 16777215 }
    requires function { IsFunctionAt file.now inner }
    ensures { IfOk result (λ found. IfSome found (λ hole. IsHole file.now inner hole)) }
{
    let Some(first) = window(file, inner, 0) else {
        return Ok(None);
    };
    let found = hole_after(alloc, file, inner, first)?;
    if found.is_some() {
        return Ok(found);
    }
    let Some(behind) = brace_of(alloc, file, inner)? else {
        return Ok(None);
    };
    hole_after(alloc, file, inner, behind)
}

// The hole that begins at this offset, where a function's head and a `{` stand in front of it.
fn hole_after(
    alloc: Global,
    file: &[u8],
    inner: Extent,
    behind: u32,
) -> Result<Option<Hole>, AllocError>
    requires size { length file.now ≤ 16777215 }
    requires function { IsFunctionAt file.now inner }
    ensures { IfOk result (λ found. IfSome found (λ hole. IsHole file.now inner hole)) }
{
    if inner.start == 0 || behind <= inner.start || inner.end < behind {
        return Ok(None);
    }
    let Some(tokens) = tokens_of(alloc, file, inner, behind)? else {
        return Ok(None);
    };
    let found = ends_with_head(alloc, &tokens, behind)?;
    if found {
        Ok(Some(Hole {
            from: behind,
            to: inner.end - 1,
        }))
    } else {
        Ok(None)
    }
}

// The offset after what seems to be the opening brace of a function's body. Time is linear in the bytes in front of it.
fn brace_of(alloc: Global, file: &[u8], inner: Extent) -> Result<Option<u32>, AllocError>
    requires size { length file.now ≤ 16777215 }
    requires function { IsFunctionAt file.now inner }
{
    let mut size = FIRST_WINDOW;
    for _ in 0..WINDOWS {
        match look_at(alloc, file, inner, size)? {
            Look::Behind(behind) => return Ok(Some(behind)),
            Look::Nowhere => return Ok(None),
            Look::Further(more) => size = more,
        }
    }
    Ok(None)
}

// What a first part of a function's text shows, which has about n bytes.
fn look_at(alloc: Global, file: &[u8], inner: Extent, size: u32) -> Result<Look, AllocError>
    requires size { length file.now ≤ 16777215 }
    requires function { IsFunctionAt file.now inner }
{
    let Some(to) = window(file, inner, size) else {
        return Ok(Look::Nowhere);
    };
    let Some(tokens) = tokens_of(alloc, file, inner, to)? else {
        return Ok(Look::Nowhere);
    };
    match beginning_of(alloc, &tokens)? {
        Beginning::Braced(at) => Ok(Look::Behind(tokens[at].end())),
        Beginning::Other => Ok(Look::Nowhere),
        Beginning::Cut => Ok(larger(inner, to, size)),
    }
}

// A larger part of a function's text than that up to this offset, if there is one.
fn larger(inner: Extent, to: u32, size: u32) -> Look
    requires { inner.start ≤ to × to ≤ inner.end }
{
    let seen = size.max(to - inner.start);
    if seen >= inner.end - inner.start {
        Look::Nowhere
    } else {
        Look::Further(seen.saturating_mul(2))
    }
}

// The offset after the last `{` among n bytes of a function's text, or else after the first one after them.
fn window(file: &[u8], inner: Extent, size: u32) -> Option<u32>
    requires size { length file.now ≤ 16777215 }
    requires function { IsFunctionAt file.now inner }
    ensures { IfSome result (λ to. inner.start ≤ to × to ≤ inner.end) }
{
    let mut to = None;
    for at in inner.start..inner.end {
        if at - inner.start >= size && to.is_some() {
            return to;
        }
        if file[at as usize] == b'{' {
            to = Some(at + 1);
        }
    }
    to
}

// The tokens of a function's text up to an offset; none where a code point stands across that.
fn tokens_of(
    alloc: Global,
    file: &[u8],
    inner: Extent,
    to: u32,
) -> Result<Option<Vec<CompactToken>>, AllocError>
    requires size { length file.now ≤ 16777215 }
    requires function { IsFunctionAt file.now inner }
    requires behind { inner.start ≤ to }
    requires within { to ≤ inner.end }
    ensures tokens { IfOk result (λ found. IfSome found (λ tokens. AreTokensOf file.now inner.start to tokens.items)) }
    ensures some { IfOk result (λ found. IfSome found (λ tokens. 0 < length tokens.items)) }
    ensures few { IfOk result (λ found. IfSome found (λ tokens. length tokens.items < 2 ^ 32)) }
{
    let bytes = part_of(file, inner.start, to);
    if is_ascii(bytes) {
        let tokens = ascii_tokens(alloc, file, inner, to)?;
        return Ok(Some(tokens));
    }
    if str::from_utf8(bytes).is_err() {
        return Ok(None);
    }
    let tokens = unicode_tokens(alloc, file, inner, to)?;
    Ok(Some(tokens))
}

// The tokens of a function's text up to an offset, whose bytes are of ASCII.
fn ascii_tokens(
    alloc: Global,
    file: &[u8],
    inner: Extent,
    to: u32,
) -> Result<Vec<CompactToken>, AllocError>
    requires size { length file.now ≤ 16777215 }
    requires function { IsFunctionAt file.now inner }
    requires behind { inner.start ≤ to }
    requires within { to ≤ inner.end }
    requires ascii { IsAscii (take (to - inner.start) (drop inner.start file.now)) }
    ensures tokens { IfOk result (λ tokens. AreTokensOf file.now inner.start to tokens.items) }
    ensures some { IfOk result (λ tokens. 0 < length tokens.items) }
    ensures few { IfOk result (λ tokens. length tokens.items < 2 ^ 32) }
{
    let bytes = part_of(file, inner.start, to);
    let mut atoms = Atoms::new(alloc);
    let tokens = scan_ascii(alloc, bytes, inner.start, &mut atoms)?;
    Ok(tokens)
}

// The tokens of a function's text up to an offset, whose bytes are UTF-8.
fn unicode_tokens(
    alloc: Global,
    file: &[u8],
    inner: Extent,
    to: u32,
) -> Result<Vec<CompactToken>, AllocError>
    requires size { length file.now ≤ 16777215 }
    requires function { IsFunctionAt file.now inner }
    requires behind { inner.start ≤ to }
    requires within { to ≤ inner.end }
    requires utf8 { IsUtf8 (take (to - inner.start) (drop inner.start file.now)) }
    ensures tokens { IfOk result (λ tokens. AreTokensOf file.now inner.start to tokens.items) }
    ensures some { IfOk result (λ tokens. 0 < length tokens.items) }
    ensures few { IfOk result (λ tokens. length tokens.items < 2 ^ 32) }
{
    let bytes = part_of(file, inner.start, to);
    let points = points_in(alloc, bytes, inner.start)?;
    let mut atoms = Atoms::new(alloc);
    let tokens = scan(alloc, &points, inner.start, to, &mut atoms)?;
    Ok(tokens)
}

// The bytes between two offsets of a file.
fn part_of(file: &[u8], from: u32, to: u32) -> &[u8]
    requires order { from ≤ to }
    requires within { to ≤ length file.now }
    ensures { result.now ≡ take (to - from) (drop from file.now) }
{
    &file[from as usize..to as usize]
}

// Whether tokens are a function's head, a `{` that ends at this offset, and a last one.
fn ends_with_head(alloc: Global, tokens: &[CompactToken], behind: u32) -> Result<bool, AllocError>
    requires some { 0 < length tokens.now }
    requires few { length tokens.now < 2 ^ 32 }
    ensures { IfOk result (λ ends. IsTrue ends → EndsWithHead tokens.now behind) }
{
    match beginning_of(alloc, tokens)? {
        Beginning::Braced(at) => Ok(at + 2 == tokens.len() && tokens[at].end() == behind),
        Beginning::Other => Ok(false),
        Beginning::Cut => Ok(false),
    }
}

// How these tokens begin, which are those of a first part of a function's text.
fn beginning_of(alloc: Global, tokens: &[CompactToken]) -> Result<Beginning, AllocError>
    requires some { 0 < length tokens.now }
    requires few { length tokens.now < 2 ^ 32 }
    ensures { IfOk result (BeginsWithHead (kinds_of tokens.now)) }
{
    let Some(count) = head_length(alloc, tokens)? else {
        return Ok(Beginning::Cut);
    };
    if is_mark(tokens, count, mark::OPEN_BRACE) {
        return Ok(Beginning::Braced(count));
    }
    if is_last(tokens, count) {
        Ok(Beginning::Cut)
    } else {
        Ok(Beginning::Other)
    }
}

// How many tokens the function's head takes with which these tokens begin; none where they begin with none.
fn head_length(alloc: Global, tokens: &[CompactToken]) -> Result<Option<usize>, AllocError>
    requires some { 0 < length tokens.now }
    requires few { length tokens.now < 2 ^ 32 }
    ensures { IfOk result (λ found. IfSome found (IsHeadLength (kinds_of tokens.now))) }
{
    if is_name(tokens) {
        return Ok(name_length(tokens));
    }
    if !is_mark(tokens, 0, mark::OPEN_PAREN) {
        return Ok(None);
    }
    let brackets = Brackets::of(alloc, tokens)?;
    match brackets.partner(0) {
        None => Ok(None),
        Some(closer) => Ok(Some(params_length(tokens, closer))),
    }
}

// An arrow's single name, and the arrow's mark.
fn name_length(tokens: &[CompactToken]) -> Option<usize>
    requires { IsKindAt (kinds_of tokens.now) 0 Kind.Name }
    ensures { IfSome result (IsHeadLength (kinds_of tokens.now)) }
{
    if is_mark(tokens, 1, mark::ARROW) {
        Some(2)
    } else {
        None
    }
}

// Parameters in parentheses, of which this token closes the last one, and perhaps an arrow's mark.
fn params_length(tokens: &[CompactToken], closer: u32) -> usize
    requires opens { OpensWithParen (kinds_of tokens.now) }
    requires pairs { Pairs (kinds_of tokens.now) 0 closer }
    ensures { IsHeadLength (kinds_of tokens.now) result }
{
    let behind = closer as usize + 1;
    if is_mark(tokens, behind, mark::ARROW) {
        behind + 1
    } else {
        behind
    }
}

// Whether the first token is a name.
fn is_name(tokens: &[CompactToken]) -> bool
    ensures { IsTrue result → IsKindAt (kinds_of tokens.now) 0 Kind.Name }
{
    match tokens.first() {
        Some(token) => matches!(token.kind(), Kind::Name),
        None => false,
    }
}

// Whether the token of this number is this mark.
fn is_mark(tokens: &[CompactToken], number: usize, index: u8) -> bool
    ensures { IsTrue result → IsKindAt (kinds_of tokens.now) number (Kind.Mark index) }
{
    match tokens.get(number) {
        Some(token) => match token.kind() {
            Kind::Mark(mark) => mark == index,
            _ => false,
        },
        None => false,
    }
}

// Whether there is no token of this number but the last one, which is End or Bad.
fn is_last(tokens: &[CompactToken], number: usize) -> bool {
    match tokens.get(number) {
        Some(token) => matches!(token.kind(), Kind::Bad | Kind::End),
        None => true,
    }
}
