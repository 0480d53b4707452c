//! The tokens of a text, one after the other.
ghost use Rattle.std.specs.Prelude.{◌≡◌, ◌≤◌, ◌<◌, ◌+◌, ◌-◌, ◌^◌, ◌++◌, ℕ, suc, List, [], true, false, nat_lt, length, map, drop, IfOk};
ghost use Rattle.std.specs.Prelude.{OnOk, OnErr, Some, None, ◌∷◌};
ghost use Rattle.std.specs.Str.{IsAscii, chars};
ghost use Rattle.unit_text.specs.Points.{code_of, points_from, LieEndToEnd};
ghost use Rattle.std.specs.List.Sorted.{IsPartitionPoint, IsNonDecreasingBy};
ghost use Rattle.script_scanner.specs.Order.{AreInOrder};
ghost use Rattle.script_scanner.specs.Braces.{in_substitution};
ghost use Rattle.script_scanner.specs.Tokens.{braces_after, last_token, place, tokens, tokens_within, without_first_line, part};
ghost use Rattle.script_scanner.specs.Stands.{StandFor, StandsFor, GainsOnly, HasOneLast, Keeps};
ghost use Rattle.script_scanner.specs.Advances.{Advances, TakesValue, TakesToken, EndsWith};
ghost use Rattle.script_scanner.specs.Blanks.{blank_at};
ghost use Rattle.script_scanner.specs.Fronts.{BeginsName, IsQuoted, StandsAt, found_mark};
ghost use Rattle.script_scanner.specs.declared.fronts.Front.TheVariants.{Close};
ghost use Rattle.script_scanner.specs.Known.{TakesKnown};
ghost use Rattle.script_scanner.specs.Names.{name_length};

use crate::blanks::{blank_at, first_line_length, spaces_length};
use crate::braces::Brace;
use crate::fronts::{Front, front_at};
use crate::known::{KnownToken, known_name, known_string};
use crate::names::spelled_name;
use crate::pieces::{Content, FoundToken, name_piece, token_at};
use crate::sources::{ByteSource, PointSource, Source, points_before, points_behind};
use parser_atoms::Atoms;
use script_grammar::compact::{CompactToken, Offset, TokenValue};
use script_grammar::token::{Kind, mark};
use std::alloc::{AllocError, Global};
use unit_text::Point;

/// The offset at which points begin, of a part of a text that ends at `to`.
fn place<T: Source>(to: Offset, rest: T) -> Offset
    ensures { result ≡ place to (T.points rest) }
{
    match rest.split_first() {
        None => to,
        Some((first, _)) => Offset::new(first.start),
    }
}

/// Whether the innermost open brace is that of a `${`.
fn in_substitution(braces: &[Brace]) -> bool
    ensures { result ≡ in_substitution braces.now }
{
    match braces.last() {
        None => false,
        Some(Brace::Block) => false,
        Some(Brace::Substitution) => true,
    }
}

/// Opens and closes what a token opens and closes.
#[inline]
fn update_braces(braces: &mut Vec<Brace>, kind: Kind) -> Result<(), AllocError>
    ensures { OnOk result (braces.new.items ≡ braces_after braces.old.items kind) }
{
    match kind {
        Kind::Mark(index) => {
            if index == mark::OPEN_BRACE {
                braces.push(Brace::Block)?;
            } else if index == mark::CLOSE_BRACE {
                braces.pop();
            }
            Ok(())
        }
        Kind::TemplateHead => {
            braces.push(Brace::Substitution)?;
            Ok(())
        }
        Kind::TemplateMiddle => {
            braces.pop();
            braces.push(Brace::Substitution)?;
            Ok(())
        }
        Kind::TemplateTail => {
            braces.pop();
            Ok(())
        }
        Kind::Name
        | Kind::Number
        | Kind::Str
        | Kind::TemplateWhole
        | Kind::Word(_)
        | Kind::Bad
        | Kind::End => Ok(()),
    }
}

/// The number by which a token has its text or its value: a text is interned.
fn value_of(
    alloc: Global,
    content: Content,
    units: &[u16],
    atoms: &mut Atoms,
) -> Result<TokenValue, AllocError>
    requires { length atoms.old < 2 ^ 32 - 1 }
    ensures value { IfOk result (TakesValue content units.now atoms.old atoms.new) }
    ensures err { OnErr result (atoms.new ≡ atoms.old) }
{
    match content {
        Content::Units => {
            let atom = atoms.intern(alloc, units)?;
            Ok(TokenValue::new(u64::from(atom)))
        }
        Content::Number(value) => Ok(value),
        Content::Nothing => Ok(TokenValue::new(0)),
    }
}

/// The last token.
fn last_token<T: Source>(rest: T, to: Offset, after_line: bool) -> CompactToken
    ensures { (texts : List (List ℕ)) → StandsFor texts result (last_token to after_line (T.points rest)) }
{
    match rest.split_first() {
        None => CompactToken::new(Kind::End, after_line, TokenValue::new(0), to, to),
        Some((first, _)) => {
            let start = Offset::new(first.start);
            CompactToken::new(Kind::Bad, after_line, TokenValue::new(0), start, start)
        }
    }
}

/// Puts a token after those that are there. It is called, and stands in no loop: there it would be too long.
#[inline(never)]
fn push_token(
    tokens: &mut Vec<CompactToken>,
    kind: Kind,
    after_line: bool,
    value: TokenValue,
    start: Offset,
    end: Offset,
) -> Result<(), AllocError>
    ensures { OnOk result (tokens.new.items ≡ tokens.old.items ++ record { kind = kind; after_line = after_line; value = value; start = start; end = end } ∷ []) }
{
    tokens.push(CompactToken::new(kind, after_line, value, start, end))?;
    Ok(())
}

/// A scan: the tokens so far and what the next one depends on.
#[derive(Drop)]
struct Scanner {
    tokens: Vec<CompactToken>,
    braces: Vec<Brace>,
    /// Whether a line end stands after the last token.
    after_line: bool,
    /// The units of the token that was read last.
    units: Vec<u16>,
}

/// How many tokens there is room for at most before the first one is read.
const MOST_FIRST_ROOM: usize = 1024;

/// How many tokens there is room for before the first one of so many code points is read: most texts of that size have not many more,
/// and a short one, as that of a function, then grows its list once at most.
fn first_room(count: usize) -> usize {
    (count / 4 + 8).min(MOST_FIRST_ROOM)
}

impl Scanner {
    /// A scan that has not begun, of so many code points.
    fn of(alloc: Global, count: usize) -> Result<Scanner, AllocError>
        ensures tokens { IfOk result (λ scanner. scanner.tokens.items ≡ []) }
        ensures braces { IfOk result (λ scanner. scanner.braces.items ≡ []) }
        ensures after_line { IfOk result (λ scanner. scanner.after_line ≡ false) }
    {
        let tokens = Vec::with_capacity(alloc, first_room(count))?;
        Ok(Scanner {
            tokens,
            braces: Vec::new(alloc),
            after_line: false,
            units: Vec::new(alloc),
        })
    }

    /// Takes the token that was found, whose units are in the buffer; answers how many code points it takes.
    fn take<T: Source>(
        &mut self,
        alloc: Global,
        found: FoundToken,
        rest: T,
        to: Offset,
        atoms: &mut Atoms,
    ) -> Result<usize, AllocError>
        requires few { length atoms.old < 2 ^ 32 - 1 }
        requires within { found.length ≤ length (T.points rest) }
        ensures taken { IfOk result (λ taken. taken ≡ found.length) }
        ensures value { OnOk result (TakesToken to (T.points rest) found self.old self.new atoms.old atoms.new) }
        ensures keeps { Keeps atoms.old atoms.new }
    {
        let value = value_of(alloc, found.content, self.units.as_slice(), atoms)?;
        push_token(
            &mut self.tokens,
            found.kind,
            self.after_line,
            value,
            place(to, rest),
            place(to, rest.behind(found.length)),
        )?;
        update_braces(&mut self.braces, found.kind)?;
        self.after_line = false;
        Ok(found.length)
    }

    /// Takes the last token.
    fn finish<T: Source>(&mut self, rest: T, to: Offset) -> Result<usize, AllocError>
        ensures taken { IfOk result (λ taken. taken ≡ 0) }
        ensures value { OnOk result (EndsWith (last_token to self.old.after_line (T.points rest)) self.old.tokens.items self.new.tokens.items) }
    {
        self.tokens.push(last_token(rest, to, self.after_line))?;
        Ok(0)
    }

    /// Takes the name or string that was found with its atom; answers how many code points it takes.
    #[inline]
    fn take_known<T: Source>(
        &mut self,
        known: KnownToken,
        rest: T,
        to: Offset,
    ) -> Result<usize, AllocError>
        requires { known.length ≤ length (T.points rest) }
        ensures taken { IfOk result (λ taken. taken ≡ known.length) }
        ensures value { OnOk result (TakesKnown to (T.points rest) known self.old self.new) }
    {
        push_token(
            &mut self.tokens,
            known.kind,
            self.after_line,
            TokenValue::new(u64::from(known.atom)),
            place(to, rest),
            place(to, rest.behind(known.length)),
        )?;
        self.after_line = false;
        Ok(known.length)
    }

    /// Takes a token at the front, of whatever kind; answers how many code points that is, and 0 after the last token.
    #[inline(never)]
    fn take_any<T: Source>(
        &mut self,
        alloc: Global,
        rest: T,
        to: Offset,
        atoms: &mut Atoms,
    ) -> Result<usize, AllocError>
        requires few { length atoms.old < 2 ^ 32 - 1 }
        requires bare { blank_at (map code_of (T.points rest)) ≡ None }
        ensures value { IfOk result (Advances to (T.points rest) self.old self.new atoms.old atoms.new) }
        ensures within { IfOk result (λ taken. taken ≤ length (T.points rest)) }
        ensures keeps { Keeps atoms.old atoms.new }
    {
        match token_at(
            rest,
            in_substitution(self.braces.as_slice()),
            &mut self.units,
        )? {
            Some(found) => {
                let taken = self.take(alloc, found, rest, to, atoms)?;
                Ok(taken)
            }
            None => {
                let taken = self.finish(rest, to)?;
                Ok(taken)
            }
        }
    }

    /// Takes the name or word at the front, of so many code points, which it answers. Its text is put together and interned.
    #[inline(never)]
    fn take_name<T: Source>(
        &mut self,
        alloc: Global,
        count: usize,
        rest: T,
        to: Offset,
        atoms: &mut Atoms,
    ) -> Result<usize, AllocError>
        requires few { length atoms.old < 2 ^ 32 - 1 }
        requires bare { blank_at (map code_of (T.points rest)) ≡ None }
        requires begins { BeginsName (map code_of (T.points rest)) }
        requires long { count ≡ name_length (map code_of (T.points rest)) }
        requires positive { 0 < count }
        requires within { count ≤ length (T.points rest) }
        ensures value { IfOk result (Advances to (T.points rest) self.old self.new atoms.old atoms.new) }
        ensures within { IfOk result (λ taken. taken ≤ length (T.points rest)) }
        ensures keeps { Keeps atoms.old atoms.new }
    {
        let found = name_piece(rest, count, &mut self.units)?;
        let taken = self.take(alloc, found, rest, to, atoms)?;
        Ok(taken)
    }

    /// Takes the name or word at the front; answers how many code points that is. Its text has an atom most often, and then it has a
    /// shorter way.
    #[inline]
    fn take_word<T: Source>(
        &mut self,
        alloc: Global,
        rest: T,
        to: Offset,
        atoms: &mut Atoms,
    ) -> Result<usize, AllocError>
        requires few { length atoms.old < 2 ^ 32 - 1 }
        requires bare { blank_at (map code_of (T.points rest)) ≡ None }
        requires begins { BeginsName (map code_of (T.points rest)) }
        requires some { 0 < length (T.points rest) }
        ensures value { IfOk result (Advances to (T.points rest) self.old self.new atoms.old atoms.new) }
        ensures within { IfOk result (λ taken. taken ≤ length (T.points rest)) }
        ensures keeps { Keeps atoms.old atoms.new }
    {
        let name = spelled_name(rest);
        match known_name(name, rest, atoms) {
            Some(known) => {
                let taken = self.take_known(known, rest, to)?;
                Ok(taken)
            }
            None => {
                let taken = self.take_name(alloc, name.length, rest, to, atoms)?;
                Ok(taken)
            }
        }
    }

    /// Takes the string at the front, which this quote begins; answers how many code points that is. The same holds of its text.
    #[inline]
    fn take_string<T: Source>(
        &mut self,
        alloc: Global,
        quote: char,
        rest: T,
        to: Offset,
        atoms: &mut Atoms,
    ) -> Result<usize, AllocError>
        requires few { length atoms.old < 2 ^ 32 - 1 }
        requires bare { blank_at (map code_of (T.points rest)) ≡ None }
        requires quoted { IsQuoted quote (map code_of (T.points rest)) }
        requires some { 0 < length (T.points rest) }
        ensures value { IfOk result (Advances to (T.points rest) self.old self.new atoms.old atoms.new) }
        ensures within { IfOk result (λ taken. taken ≤ length (T.points rest)) }
        ensures keeps { Keeps atoms.old atoms.new }
    {
        match known_string(quote, rest, atoms) {
            Some(known) => {
                let taken = self.take_known(known, rest, to)?;
                Ok(taken)
            }
            None => {
                let taken = self.take_any(alloc, rest, to, atoms)?;
                Ok(taken)
            }
        }
    }

    /// Takes the mark at the front, which takes one code point: so many it answers.
    #[inline]
    fn take_mark<T: Source>(&mut self, index: u8, rest: T, to: Offset) -> Result<usize, AllocError>
        requires { 0 < length (T.points rest) }
        ensures taken { IfOk result (λ taken. taken ≡ 1) }
        ensures value { (texts : List (List ℕ)) → OnOk result (TakesToken to (T.points rest) (found_mark index) self.old self.new texts texts) }
    {
        push_token(
            &mut self.tokens,
            Kind::Mark(index),
            self.after_line,
            TokenValue::new(0),
            place(to, rest),
            place(to, rest.behind(1)),
        )?;
        update_braces(&mut self.braces, Kind::Mark(index))?;
        self.after_line = false;
        Ok(1)
    }

    /// Takes what begins with the `}` at the front; answers how many code points that is.
    #[inline]
    fn take_close<T: Source>(
        &mut self,
        alloc: Global,
        rest: T,
        to: Offset,
        atoms: &mut Atoms,
    ) -> Result<usize, AllocError>
        requires few { length atoms.old < 2 ^ 32 - 1 }
        requires closes { StandsAt (map code_of (T.points rest)) Close }
        requires some { 0 < length (T.points rest) }
        ensures value { IfOk result (Advances to (T.points rest) self.old self.new atoms.old atoms.new) }
        ensures within { IfOk result (λ taken. taken ≤ length (T.points rest)) }
        ensures keeps { Keeps atoms.old atoms.new }
    {
        if in_substitution(self.braces.as_slice()) {
            let taken = self.take_any(alloc, rest, to, atoms)?;
            Ok(taken)
        } else {
            let taken = self.take_mark(mark::CLOSE_BRACE, rest, to)?;
            Ok(taken)
        }
    }

    /// Skips a blank or takes a token at the front, of whatever kind; answers how many code points that is, and 0 after the last token.
    #[inline(never)]
    fn step_any<T: Source>(
        &mut self,
        alloc: Global,
        rest: T,
        to: Offset,
        atoms: &mut Atoms,
    ) -> Result<usize, AllocError>
        requires { length atoms.old < 2 ^ 32 - 1 }
        ensures value { IfOk result (Advances to (T.points rest) self.old self.new atoms.old atoms.new) }
        ensures within { IfOk result (λ taken. taken ≤ length (T.points rest)) }
        ensures keeps { Keeps atoms.old atoms.new }
    {
        match blank_at(rest) {
            Some(blank) => {
                self.after_line = self.after_line | blank.breaks;
                Ok(blank.length)
            }
            None => {
                let taken = self.take_any(alloc, rest, to, atoms)?;
                Ok(taken)
            }
        }
    }

    /// The same. The blanks and tokens that are most of any script have shorter ways, which stand in the scanner's loop: a call for
    /// each of them would cost a fifth of a step, to save and restore registers.
    #[inline(always)]
    fn step<T: Source>(
        &mut self,
        alloc: Global,
        rest: T,
        to: Offset,
        atoms: &mut Atoms,
    ) -> Result<usize, AllocError>
        requires { length atoms.old < 2 ^ 32 - 1 }
        ensures value { IfOk result (Advances to (T.points rest) self.old self.new atoms.old atoms.new) }
        ensures within { IfOk result (λ taken. taken ≤ length (T.points rest)) }
        ensures keeps { Keeps atoms.old atoms.new }
    {
        match front_at(rest) {
            Front::LineFeed => {
                self.after_line = true;
                Ok(1)
            }
            Front::Name => {
                let taken = self.take_word(alloc, rest, to, atoms)?;
                Ok(taken)
            }
            Front::Quote(quote) => {
                let taken = self.take_string(alloc, quote, rest, to, atoms)?;
                Ok(taken)
            }
            Front::Mark(index) => {
                let taken = self.take_mark(index, rest, to)?;
                Ok(taken)
            }
            Front::Close => {
                let taken = self.take_close(alloc, rest, to, atoms)?;
                Ok(taken)
            }
            Front::Other => {
                let taken = self.step_any(alloc, rest, to, atoms)?;
                Ok(taken)
            }
        }
    }

    /// Takes all tokens of a text.
    fn run<T: Source>(
        &mut self,
        alloc: Global,
        text: T,
        to: Offset,
        atoms: &mut Atoms,
    ) -> Result<(), AllocError>
        requires few { length (T.points text) + length atoms.old < 2 ^ 32 - 1 }
        requires tokens { self.old.tokens.items ≡ [] }
        requires braces { self.old.braces.items ≡ [] }
        requires after_line { self.old.after_line ≡ false }
        ensures stand { OnOk result (StandFor atoms.new self.new.tokens.items
            (tokens_within (suc (length (T.points text))) to [] false (T.points text))) }
        ensures last { OnOk result (HasOneLast self.new.tokens.items) }
        ensures gains { OnOk result (GainsOnly atoms.old atoms.new (tokens_within (suc (length (T.points text))) to [] false (T.points text))) }
        ensures keeps { Keeps atoms.old atoms.new }
    {
        let mut at = 0;
        let mut goes_on = true;
        while goes_on {
            at += spaces_length(text.behind(at));
            let taken = self.step(alloc, text.behind(at), to, atoms)?;
            at += taken;
            goes_on = taken != 0;
        }
        Ok(())
    }
}

/// The tokens of a text that ends at `to`.
fn scan_text<T: Source>(
    alloc: Global,
    text: T,
    to: Offset,
    atoms: &mut Atoms,
) -> Result<Vec<CompactToken>, AllocError>
    requires { length (T.points text) + length atoms.old < 2 ^ 32 - 1 }
    ensures stand { IfOk result (λ made. StandFor atoms.new made.items (tokens_within (suc (length (T.points text))) to [] false (T.points text))) }
    ensures last { IfOk result (λ made. HasOneLast made.items) }
    ensures gains { OnOk result (GainsOnly atoms.old atoms.new (tokens_within (suc (length (T.points text))) to [] false (T.points text))) }
    ensures keeps { Keeps atoms.old atoms.new }
{
    let mut scanner = Scanner::of(alloc, text.count())?;
    scanner.run(alloc, text, to, atoms)?;
    let Scanner {
        tokens,
        braces: _,
        after_line: _,
        units: _,
    } = scanner;
    Ok(tokens)
}

/// How many points at the front begin before an offset.
fn count_before(points: &[Point], offset: u32) -> usize
    requires { IsNonDecreasingBy (λ point. point.start) points.now }
    ensures parted { IsPartitionPoint (λ point. nat_lt point.start offset ≡ true) (λ point. nat_lt point.start offset ≡ false) points.now result }
    ensures within { result ≤ length points.now }
{
    points.partition_point(|point| point.start < offset)
}

/// The points that begin from one offset on and before another.
fn part(points: &[Point], from: u32, to: u32) -> &[Point]
    requires { AreInOrder points.now }
    ensures value { result.now ≡ part from to points.now }
    ensures within { length result.now ≤ length points.now }
{
    let others = points_behind(points, count_before(points, from));
    points_before(others, count_before(others, to))
}

/// How many points at the front of a part from this offset on are its first line, where that is passed over.
fn passed_over<T: Source>(from: u32, text: T) -> usize
    ensures value { drop result (T.points text) ≡ without_first_line from (T.points text) }
    ensures within { result ≤ length (T.points text) }
{
    if from == 0 {
        first_line_length(text)
    } else {
        0
    }
}

/// The tokens of the part of a text between two offsets, read beginning with no open brace; the last is End or Bad.
///
/// The texts of names, words, strings and template parts are interned in `atoms`. Time is linear in the points of the
/// part; memory is 16 bytes a token, a byte an open brace, the units of the longest text and what new texts take.
/// After an error `atoms` may have more texts.
pub fn scan(
    alloc: Global,
    points: &[Point],
    from: u32,
    to: u32,
    atoms: &mut Atoms,
) -> Result<Vec<CompactToken>, AllocError>
    requires in_order { AreInOrder points.now }
    requires fits { to ≤ 16777215 }
    requires few { length points.now + length atoms.old < 2 ^ 32 - 1 }
    ensures tokens { IfOk result (λ made. StandFor atoms.new made.items (tokens points.now from to)) }
    ensures last { IfOk result (λ made. HasOneLast made.items) }
    ensures gains { OnOk result (GainsOnly atoms.old atoms.new (tokens points.now from to)) }
    ensures keeps { Keeps atoms.old atoms.new }
{
    let text = PointSource::new(part(points, from, to));
    let rest = text.behind(passed_over(from, text));
    let made = scan_text(alloc, rest, Offset::new(to), atoms)?;
    Ok(made)
}

/// The tokens of bytes of ASCII that stand at an offset of their file, read beginning with no open brace; the last is End or Bad.
///
/// What [`scan`] answers of the points of these bytes, and in the same time; no list of points is made.
pub fn scan_ascii(
    alloc: Global,
    bytes: &[u8],
    start: u32,
    atoms: &mut Atoms,
) -> Result<Vec<CompactToken>, AllocError>
    requires ascii { IsAscii bytes.now }
    requires fits { start + length bytes.now ≤ 16777215 }
    requires few { length bytes.now + length atoms.old < 2 ^ 32 - 1 }
    ensures tokens { IfOk result (λ made. StandFor atoms.new made.items
        (tokens (points_from start (chars bytes.now)) start (start + length bytes.now))) }
    ensures last { IfOk result (λ made. HasOneLast made.items) }
    ensures gains { OnOk result (GainsOnly atoms.old atoms.new (tokens (points_from start (chars bytes.now)) start (start + length bytes.now))) }
    ensures keeps { Keeps atoms.old atoms.new }
{
    let text = ByteSource::new(bytes, start);
    let to = start + bytes.len() as u32;
    let rest = text.behind(passed_over(start, text));
    let made = scan_text(alloc, rest, Offset::new(to), atoms)?;
    Ok(made)
}
