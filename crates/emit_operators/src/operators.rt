// Which opcode an operator is, and which form a number has.
ghost use Rattle.std.specs.Prelude.{◌≡◌, false, find, nat_eq, option_copied};
ghost use Rattle.bytecode_buf.specs.declared.opcode.Shape.TheVariants as shape;
ghost use Rattle.bytecode_buf.specs.Width.{shape_of};
ghost use Rattle.emit_operators.specs.Operators as code;
ghost use Rattle.emit_operators.specs.Operators.{AllPlain};

use bytecode_buf::Op;
use script_grammar::token::{mark, word};

/// A sign, by its index among words or marks, and the opcode that it is.
#[derive(Clone, Copy)]
pub struct Meaning {
    pub sign: u8,
    pub op: Op,
}

/// An operator that passes over its second operand where the first decides.
#[derive(Clone, Copy)]
pub enum Short {
    And,
    Or,
    Coalesce,
}

impl Short {
    /// The jump over the second operand.
    pub fn op(self) -> Op
        ensures { result ≡ code.short_op self }
    {
        match self {
            Short::And => Op::And,
            Short::Or => Op::Or,
            Short::Coalesce => Op::Coalesce,
        }
    }
}

/// How the operands of a binary list are put together.
#[derive(Clone, Copy)]
pub enum Joining {
    /// One operator after the other, from the left.
    FromLeft,
    /// All operands first: `**`.
    FromRight,
    /// The next operand only if the value so far does not decide: `&&`, `||` and `??`.
    Shortcut(Short),
}

/// The shortest form of a number.
#[derive(Clone, Copy)]
pub enum NumberForm {
    Zero,
    One,
    /// One byte.
    Byte,
    /// Two bytes.
    Short,
    /// Three bytes.
    Triple,
    /// Four bytes.
    Long,
    /// Eight bytes.
    Wide,
}

/// The word `in`; `instanceof` is the other one.
pub const WORD_OPS: [Meaning; 1] = [Meaning {
    sign: word::IN,
    op: Op::In,
}];

/// The binary operators that are marks, but for `**`.
pub const BINARY_OPS: [Meaning; 19] = [
    Meaning {
        sign: mark::LESS,
        op: Op::Lt,
    },
    Meaning {
        sign: mark::GREATER,
        op: Op::Gt,
    },
    Meaning {
        sign: mark::LESS_EQUAL,
        op: Op::Le,
    },
    Meaning {
        sign: mark::GREATER_EQUAL,
        op: Op::Ge,
    },
    Meaning {
        sign: mark::EQUAL,
        op: Op::Eq,
    },
    Meaning {
        sign: mark::NOT_EQUAL,
        op: Op::Ne,
    },
    Meaning {
        sign: mark::STRICT_EQUAL,
        op: Op::StrictEq,
    },
    Meaning {
        sign: mark::STRICT_NOT_EQUAL,
        op: Op::StrictNe,
    },
    Meaning {
        sign: mark::PLUS,
        op: Op::Add,
    },
    Meaning {
        sign: mark::MINUS,
        op: Op::Sub,
    },
    Meaning {
        sign: mark::TIMES,
        op: Op::Mul,
    },
    Meaning {
        sign: mark::DIVIDE,
        op: Op::Div,
    },
    Meaning {
        sign: mark::REMAINDER,
        op: Op::Mod,
    },
    Meaning {
        sign: mark::LEFT_SHIFT,
        op: Op::Lsh,
    },
    Meaning {
        sign: mark::RIGHT_SHIFT,
        op: Op::Rsh,
    },
    Meaning {
        sign: mark::UNSIGNED_RIGHT_SHIFT,
        op: Op::Ursh,
    },
    Meaning {
        sign: mark::BIT_AND,
        op: Op::BitAnd,
    },
    Meaning {
        sign: mark::BIT_OR,
        op: Op::BitOr,
    },
    Meaning {
        sign: mark::BIT_XOR,
        op: Op::BitXor,
    },
];

/// The assignments with an operator, but for `**=`.
pub const ASSIGN_OPS: [Meaning; 11] = [
    Meaning {
        sign: mark::PLUS_ASSIGN,
        op: Op::Add,
    },
    Meaning {
        sign: mark::MINUS_ASSIGN,
        op: Op::Sub,
    },
    Meaning {
        sign: mark::TIMES_ASSIGN,
        op: Op::Mul,
    },
    Meaning {
        sign: mark::DIVIDE_ASSIGN,
        op: Op::Div,
    },
    Meaning {
        sign: mark::REMAINDER_ASSIGN,
        op: Op::Mod,
    },
    Meaning {
        sign: mark::LEFT_SHIFT_ASSIGN,
        op: Op::Lsh,
    },
    Meaning {
        sign: mark::RIGHT_SHIFT_ASSIGN,
        op: Op::Rsh,
    },
    Meaning {
        sign: mark::UNSIGNED_RIGHT_SHIFT_ASSIGN,
        op: Op::Ursh,
    },
    Meaning {
        sign: mark::BIT_AND_ASSIGN,
        op: Op::BitAnd,
    },
    Meaning {
        sign: mark::BIT_OR_ASSIGN,
        op: Op::BitOr,
    },
    Meaning {
        sign: mark::BIT_XOR_ASSIGN,
        op: Op::BitXor,
    },
];

/// The prefix operators that are marks, but for `~`.
pub const PREFIX_OPS: [Meaning; 3] = [
    Meaning {
        sign: mark::PLUS,
        op: Op::Pos,
    },
    Meaning {
        sign: mark::MINUS,
        op: Op::Neg,
    },
    Meaning {
        sign: mark::NOT,
        op: Op::Not,
    },
];

fn meaning_of<'a>(table: &'a [Meaning], sign: u8) -> Option<&'a Meaning>
    ensures { option_copied result ≡ find (λ m. nat_eq m.sign sign) table.now }
{
    table.iter().find(|meaning| meaning.sign == sign)
}

fn op_of(table: &[Meaning], other: Op, sign: u8) -> Op
    requires { AllPlain table.now other }
    ensures is { result ≡ code.op_of table.now other sign }
    ensures plain { shape_of result ≡ shape.Nothing }
{
    match meaning_of(table, sign) {
        Some(meaning) => meaning.op,
        None => other,
    }
}

/// The opcode of a binary operator.
#[tactic(auto, using(crate::proofs::Plain::words_plain, crate::proofs::Plain::binaries_plain))]
pub fn binary_op(is_word: bool, sign: u8) -> Op
    ensures is { result ≡ code.binary_op is_word sign }
    ensures plain { shape_of result ≡ shape.Nothing }
{
    if is_word {
        op_of(&WORD_OPS, Op::Instanceof, sign)
    } else {
        op_of(&BINARY_OPS, Op::Pow, sign)
    }
}

/// The opcode of an assignment with an operator.
#[tactic(auto, using(crate::proofs::Plain::assigns_plain))]
pub fn assign_op(sign: u8) -> Op
    ensures is { result ≡ code.assign_op sign }
    ensures plain { shape_of result ≡ shape.Nothing }
{
    op_of(&ASSIGN_OPS, Op::Pow, sign)
}

/// The opcode of a prefix operator on a value.
#[tactic(auto, using(crate::proofs::Plain::prefixes_plain))]
pub fn prefix_op(is_word: bool, sign: u8) -> Op
    ensures is { result ≡ code.prefix_op is_word sign }
    ensures plain { shape_of result ≡ shape.Nothing }
{
    if is_word {
        Op::Void
    } else {
        op_of(&PREFIX_OPS, Op::BitNot, sign)
    }
}

/// The opcode of `++` or `--`.
pub fn update_op(sign: u8) -> Op
    ensures is { result ≡ code.update_op sign }
    ensures plain { shape_of result ≡ shape.Nothing }
{
    if sign == mark::INCREMENT {
        Op::Inc
    } else {
        Op::Dec
    }
}

fn mark_joining(sign: u8) -> Joining
    ensures { result ≡ code.joining false sign }
{
    if sign == mark::POWER {
        Joining::FromRight
    } else if sign == mark::AND {
        Joining::Shortcut(Short::And)
    } else if sign == mark::OR {
        Joining::Shortcut(Short::Or)
    } else if sign == mark::COALESCE {
        Joining::Shortcut(Short::Coalesce)
    } else {
        Joining::FromLeft
    }
}

/// How a list of this operator is put together.
pub fn joined_by(is_word: bool, sign: u8) -> Joining
    ensures { result ≡ code.joining is_word sign }
{
    if is_word {
        Joining::FromLeft
    } else {
        mark_joining(sign)
    }
}

/// The shortest form of a number.
pub fn number_form(number: u64) -> NumberForm
    ensures form { result ≡ code.number_form number }
    ensures fits { code.FormFits result number }
{
    if number == 0 {
        NumberForm::Zero
    } else if number == 1 {
        NumberForm::One
    } else if number <= 127 {
        NumberForm::Byte
    } else if number <= 65_535 {
        NumberForm::Short
    } else if number <= 16_777_215 {
        NumberForm::Triple
    } else if number <= 2_147_483_647 {
        NumberForm::Long
    } else {
        NumberForm::Wide
    }
}
