//! What stands for a list of code points: such a list, or the bytes of a text of ASCII.
ghost use Rattle.std.specs.Prelude.{◌≡◌, ◌≤◌, ◌<◌, ◌+◌, ◌^◌, ◌∷◌, ℕ, List, length, take, drop, All, IfSome, MatchOption};
ghost use Rattle.std.specs.List.{IsFirstAndRest};
ghost use Rattle.unit_text.specs.declared.Point.{Point};
ghost use Rattle.script_scanner.specs.Bytes.{byte_points};

use unit_text::Point;

/// A list of points, however it lies in memory.
///
/// The functions of this crate read it through these five methods alone, so that a text of ASCII needs no list of points.
pub trait Source: Copy {
    // the points that it stands for
    ghost points: { Self → List Point };

    /// How many points there are.
    fn count(self) -> usize
        ensures value { result ≡ length (points self) }
        ensures few { length (points self) ≤ 9223372036854775807 };

    /// The first point and those after it.
    fn split_first(self) -> Option<(Point, Self)>
        ensures cases { MatchOption result (length (points self) ≡ 0) (λ p. IsFirstAndRest (points self) p.0 (points p.1)) }
        ensures small { IfSome result (λ p. p.0.start < 2 ^ 24) }
        ensures few { length (points self) ≤ 9223372036854775807 };

    /// The point at a place.
    fn point_at(self, at: usize) -> Point
        requires { at < length (points self) }
        ensures { drop at (points self) ≡ result ∷ drop (at + 1) (points self) };

    /// The points from a place on.
    fn behind(self, at: usize) -> Self
        requires { at ≤ length (points self) }
        ensures { points result ≡ drop at (points self) };

    /// So many points at the front.
    fn front(self, count: usize) -> Self
        requires { count ≤ length (points self) }
        ensures { points result ≡ take count (points self) };
}

/// A list of points that begin within the first 16,777,215 bytes of their file.
#[derive(Clone, Copy)]
pub struct PointSource<'a> {
    points: &'a [Point],
    ghost small: { All (λ point. point.start < 2 ^ 24) points.now },
}

impl<'a> PointSource<'a> {
    /// These points.
    pub fn new(points: &'a [Point]) -> PointSource<'a>
        requires { All (λ point. point.start < 2 ^ 24) points.now }
        ensures { result.points.now ≡ points.now }
    {
        PointSource { points }
    }
}

/// The points from a place on.
#[inline]
pub fn points_behind(points: &[Point], at: usize) -> &[Point]
    requires { at ≤ length points.now }
    ensures { result.now ≡ drop at points.now }
{
    &points[at..]
}

/// So many points at the front.
#[inline]
pub fn points_before(points: &[Point], count: usize) -> &[Point]
    requires { count ≤ length points.now }
    ensures { result.now ≡ take count points.now }
{
    &points[..count]
}

impl<'a> Source for PointSource<'a> {
    ghost points = { λ it. it.points.now };

    #[inline]
    fn count(self) -> usize {
        self.points.len()
    }

    #[inline]
    fn split_first(self) -> Option<(Point, Self)> {
        match self.points.split_first() {
            None => None,
            Some((first, others)) => Some((*first, PointSource { points: others })),
        }
    }

    #[inline]
    #[tactic(auto, using(crate::proofs::Lists::read_at))]
    fn point_at(self, at: usize) -> Point {
        self.points[at]
    }

    #[inline]
    fn behind(self, at: usize) -> Self {
        PointSource {
            points: points_behind(self.points, at),
        }
    }

    #[inline]
    fn front(self, count: usize) -> Self {
        PointSource {
            points: points_before(self.points, count),
        }
    }
}

/// Bytes each of which is one code point, as those of a text of ASCII are, and the offset at which they stand in their file.
#[derive(Clone, Copy)]
pub struct ByteSource<'a> {
    bytes: &'a [u8],
    start: u32,
    ghost fits: { start + length bytes.now ≤ 16777215 },
}

impl<'a> ByteSource<'a> {
    /// The bytes that stand at this offset.
    pub fn new(bytes: &'a [u8], start: u32) -> ByteSource<'a>
        requires { start + length bytes.now ≤ 16777215 }
        ensures bytes { result.bytes.now ≡ bytes.now }
        ensures start { result.start ≡ start }
    {
        ByteSource { bytes, start }
    }
}

/// The bytes from a place on.
#[inline]
fn bytes_behind(bytes: &[u8], at: usize) -> &[u8]
    requires { at ≤ length bytes.now }
    ensures value { result.now ≡ drop at bytes.now }
    ensures count { length result.now + at ≡ length bytes.now }
{
    &bytes[at..]
}

/// So many bytes at the front.
#[inline]
fn bytes_before(bytes: &[u8], count: usize) -> &[u8]
    requires { count ≤ length bytes.now }
    ensures value { result.now ≡ take count bytes.now }
    ensures within { length result.now ≤ length bytes.now }
{
    &bytes[..count]
}

impl<'a> Source for ByteSource<'a> {
    ghost points = { λ it. byte_points it.start it.bytes.now };

    #[inline]
    #[tactic(auto, using(crate::proofs::ByteLemmas::count_is))]
    fn count(self) -> usize {
        self.bytes.len()
    }

    #[inline]
    #[tactic(auto, using(crate::proofs::ByteLemmas::count_is))]
    fn split_first(self) -> Option<(Point, Self)> {
        match self.bytes.split_first() {
            None => None,
            Some((first, others)) => {
                let next = self.start + 1;
                Some((
                    Point {
                        code: char::from(*first),
                        start: self.start,
                        end: next,
                    },
                    ByteSource {
                        bytes: others,
                        start: next,
                    },
                ))
            }
        }
    }

    #[inline]
    #[tactic(auto, using(crate::proofs::ByteLemmas::count_is))]
    fn point_at(self, at: usize) -> Point {
        let start = self.start + at as u32;
        Point {
            code: char::from(self.bytes[at]),
            start,
            end: start + 1,
        }
    }

    #[inline]
    #[tactic(auto, using(crate::proofs::ByteLemmas::count_is))]
    fn behind(self, at: usize) -> Self {
        ByteSource {
            bytes: bytes_behind(self.bytes, at),
            start: self.start + at as u32,
        }
    }

    #[inline]
    #[tactic(auto, using(crate::proofs::ByteLemmas::count_is))]
    fn front(self, count: usize) -> Self {
        ByteSource {
            bytes: bytes_before(self.bytes, count),
            start: self.start,
        }
    }
}
