//! Tokens as a list of them has them: in sixteen bytes of memory.

ghost use Rattle.std.specs.Prelude.{◌≡◌, ◌<◌, ◌^◌};

use crate::token::{Kind, Token};
use std::marker::Model;

/// An offset in a text, which has at most 16,777,215 bytes.
#[derive(Clone, Copy, Debug)]
pub struct Offset {
    offset: u32,
}

impl Model for Offset {
    ghost use Rattle.std.specs.Prelude.{ℕ, ◌<◌, ◌^◌};

    ghost Value = { ℕ };

    ghost view = { λ o. o.offset };

    ghost invariant = { λ o. o.offset < 2 ^ 24 };

    ghost inverse = { λ n. record { offset = n } };
}

impl Offset {
    /// This number as an offset.
    #[inline]
    pub fn new(offset: u32) -> Offset
        requires { offset < 2 ^ 24 }
        ensures { result ≡ offset }
    {
        Offset { offset }
    }

    /// The number.
    #[inline]
    pub fn get(self) -> u32
        ensures value { result ≡ self }
        ensures small { result < 2 ^ 24 }
    {
        self.offset
    }
}

/// The number that a token has beside its kind: an atom, or the value of a numeric literal, which is below 2^53.
#[derive(Clone, Copy, Debug)]
pub struct TokenValue {
    value: u64,
}

impl Model for TokenValue {
    ghost use Rattle.std.specs.Prelude.{ℕ, ◌<◌, ◌^◌};

    ghost Value = { ℕ };

    ghost view = { λ v. v.value };

    ghost invariant = { λ v. v.value < 2 ^ 56 };

    ghost inverse = { λ n. record { value = n } };
}

impl TokenValue {
    /// This number as a token's.
    #[inline]
    pub fn new(value: u64) -> TokenValue
        requires { value < 2 ^ 56 }
        ensures { result ≡ value }
    {
        TokenValue { value }
    }

    /// The number.
    #[inline]
    pub fn get(self) -> u64
        ensures value { result ≡ self }
        ensures small { result < 2 ^ 56 }
    {
        self.value
    }
}

/// A token, its numbers in parts: each offset in three bytes of memory, the value in seven. In clauses it is the [`Token`] that it
/// stands for.
#[derive(Clone, Copy, Debug)]
pub struct CompactToken {
    value_low: u32,
    value_middle: u16,
    start_low: u16,
    end_low: u16,
    value_high: u8,
    start_high: u8,
    end_high: u8,
    after_line: bool,
    kind: Kind,
}

impl Model for CompactToken {
    ghost use Rattle.std.specs.Prelude.{◌+◌, ◌*◌, ◌/◌, ◌%◌, ◌<◌};
    ghost use Rattle.script_grammar.specs.declared.token.Token.{Token};

    ghost Value = { Token };

    ghost view = { λ t. record {
      kind = t.kind;
      after_line = t.after_line;
      value = t.value_low + 4294967296 * (t.value_middle + 65536 * t.value_high);
      start = t.start_low + 65536 * t.start_high;
      end = t.end_low + 65536 * t.end_high;
    } };

    ghost invariant = { λ t. (t.value_low < 4294967296) × (t.value_middle < 65536) × (t.start_low < 65536) × (t.end_low < 65536) };

    ghost inverse = { λ t. record {
      value_low = t.value % 4294967296;
      value_middle = t.value / 4294967296 % 65536;
      start_low = t.start % 65536;
      end_low = t.end % 65536;
      value_high = t.value / 4294967296 / 65536;
      start_high = t.start / 65536;
      end_high = t.end / 65536;
      after_line = t.after_line;
      kind = t.kind;
    } };
}

const _: () = prove!(size_of::<CompactToken>() == 16);

impl CompactToken {
    /// The token of these parts.
    #[inline]
    pub fn new(
        kind: Kind,
        after_line: bool,
        value: TokenValue,
        start: Offset,
        end: Offset,
    ) -> CompactToken
        ensures { result ≡ record { kind = kind; after_line = after_line; value = value; start = start; end = end } }
    {
        let value = value.get();
        let start = start.get();
        let end = end.get();
        CompactToken {
            value_low: (value % 4294967296) as u32,
            value_middle: (value / 4294967296 % 65536) as u16,
            start_low: (start % 65536) as u16,
            end_low: (end % 65536) as u16,
            value_high: (value / 4294967296 / 65536 % 256) as u8,
            start_high: (start / 65536 % 256) as u8,
            end_high: (end / 65536 % 256) as u8,
            after_line,
            kind,
        }
    }

    /// The token.
    #[inline]
    pub fn get(self) -> Token
        ensures { result ≡ self }
    {
        Token {
            kind: self.kind,
            after_line: self.after_line,
            value: u64::from(self.value_low)
                + 4294967296 * (u64::from(self.value_middle) + 65536 * u64::from(self.value_high)),
            start: u32::from(self.start_low) + 65536 * u32::from(self.start_high),
            end: u32::from(self.end_low) + 65536 * u32::from(self.end_high),
        }
    }

    /// What the token is.
    #[inline]
    pub fn kind(&self) -> Kind
        ensures { result ≡ self.now.kind }
    {
        self.kind
    }

    /// The offset of its first byte.
    #[inline]
    pub fn start(&self) -> u32
        ensures { result ≡ self.now.start }
    {
        self.get().start
    }

    /// The offset after its last byte.
    #[inline]
    pub fn end(&self) -> u32
        ensures { result ≡ self.now.end }
    {
        self.get().end
    }
}
