//! Codes of refusals.

use crate::entries::{Entry, all_entries};

/// A rule of early errors.
#[derive(Clone, Copy, Debug, PartialEq, Eq)]
pub enum Rule {
    /// E1: two equal lexical names.
    LexicalTwice,
    /// E2: a lexical name that equals a `var` name.
    LexicalAndVar,
    /// E3: a `var` in a loop's body with a name of its head.
    LoopHead,
    /// E4: a catch parameter that is declared again.
    CatchParameter,
    /// E5: a parameter that is declared again.
    Parameter,
    /// E6: two equal parameters.
    ParameterTwice,
    /// E7: a constant without a value.
    ConstWithoutValue,
    /// E8: what cannot be assigned to.
    Target,
    /// E9: `eval` or `arguments` as a name.
    StrictName,
    /// E10: `delete` of a name.
    Delete,
    /// E11: `break`, `continue`, labels.
    Jump,
    /// E12: `__proto__` twice.
    Proto,
    /// E13: too many parameters or arguments.
    TooMany,
    /// E14: `"use strict"` under parameters that are not simple.
    UseStrict,
}

impl Rule {
    /// The rule of this number, 1 to 14. Every other number is taken as 14.
    pub fn numbered(number: u8) -> Rule {
        match number {
            1 => Rule::LexicalTwice,
            2 => Rule::LexicalAndVar,
            3 => Rule::LoopHead,
            4 => Rule::CatchParameter,
            5 => Rule::Parameter,
            6 => Rule::ParameterTwice,
            7 => Rule::ConstWithoutValue,
            8 => Rule::Target,
            9 => Rule::StrictName,
            10 => Rule::Delete,
            11 => Rule::Jump,
            12 => Rule::Proto,
            13 => Rule::TooMany,
            _ => Rule::UseStrict,
        }
    }
}

/// A form of ECMAScript that no script of this project has.
#[derive(Clone, Copy, Debug, PartialEq, Eq)]
pub enum Form {
    /// P1
    Module,
    /// P2
    RegularExpression,
    /// P3
    Destructuring,
    /// P4
    Fraction,
    /// P5
    Class,
    /// P6
    ForOf,
    /// P7
    Finally,
    /// P8
    Spread,
    /// P9
    Generator,
    /// P10
    Async,
    /// P11
    BigInt,
    /// P12
    LargeNumber,
    /// P13
    TaggedTemplate,
    /// P14
    OptionalChaining,
    /// P15
    LogicalAssignment,
    /// P16
    NewTarget,
    /// P17
    Sloppy,
    /// P18
    TopReturn,
}

/// Why a text is refused, as it is shown.
#[derive(Clone, Copy, Debug, PartialEq, Eq)]
pub enum Code {
    /// E1 to E14: an early error.
    Early(Rule),
    /// U1: no script goes on so.
    Unexpected,
    /// L2: nested too deep.
    TooDeep,
    /// B1: not UTF-8.
    BadUtf8,
    /// L1: too many bytes.
    TooLong,
    /// P1 to P18: no script goes on so, and it looks like a form outside the profile.
    Outside(Form),
}

impl Code {
    /// Whether the text may be ECMAScript that this project does not read.
    pub fn is_unsupported(self) -> bool {
        matches!(self, Code::Outside(_))
    }
}

/// What is said of the code that is written so, in letters of either case.
pub fn code_named(word: &str) -> Option<&'static Entry> {
    for entry in all_entries() {
        if entry.code.eq_ignore_ascii_case(word) {
            return Some(entry);
        }
    }
    None
}
