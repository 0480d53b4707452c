//! Tokens: what the scanner makes of a text and what the parsers read.

/// What a token is, after the lexical grammar of ECMA-262 (12th edition, clause 12).
///
/// `Word(i)` is the word of index `i` in [`word`], `Mark(i)` the punctuator of index `i` in [`mark`]. Every word
/// of [`word`] is reserved in strict code (clause 12.6.2), so a `Name` is none of them.
#[derive(Clone, Copy, Debug, PartialEq, Eq)]
pub enum Kind {
    /// An identifier that is no reserved word.
    Name,
    /// A numeric literal of a whole value, at most 2^53 - 1.
    Number,
    /// A string literal.
    Str,
    /// A template from a backquote to a backquote, without substitutions.
    TemplateWhole,
    /// A template's part from a backquote to `${`.
    TemplateHead,
    /// A template's part from `}` to `${`.
    TemplateMiddle,
    /// A template's part from `}` to a backquote.
    TemplateTail,
    /// A reserved word, by its index in [`word`].
    Word(u8),
    /// A punctuator, by its index in [`mark`].
    Mark(u8),
    /// Text that begins no token. It is the last of its list.
    Bad,
    /// The end of the text. It is the last of its list.
    End,
}

/// A token: offsets are in bytes from the text's start. Lists of tokens have them as [`CompactToken`](crate::compact::CompactToken).
#[derive(Clone, Copy, Debug, PartialEq, Eq)]
pub struct Token {
    pub kind: Kind,
    /// Whether a line end stands between the token before it and itself.
    pub after_line: bool,
    /// The atom of a Name, a Word, a Str or a template part, the value of a Number, else 0.
    pub value: u64,
    /// The offset of its first byte.
    pub start: u32,
    /// The offset after its last byte.
    pub end: u32,
}

/// What a function is by its syntax: what its parameters and its body look like. `Script` is the script itself.
#[derive(Clone, Copy, Debug, PartialEq, Eq)]
pub enum FuncForm {
    Script,
    /// A declaration or an expression with the word `function`.
    Function,
    Arrow,
    Method,
    Getter,
    Setter,
}

/// The word that begins a declaration of variables.
#[derive(Clone, Copy, Debug, PartialEq, Eq)]
pub enum Decl {
    Var,
    Let,
    Const,
}

/// The index of each reserved word, in the order of their spelling.
pub mod word {
    /// `break`
    pub const BREAK: u8 = 0;
    /// `case`
    pub const CASE: u8 = 1;
    /// `catch`
    pub const CATCH: u8 = 2;
    /// `class`
    pub const CLASS: u8 = 3;
    /// `const`
    pub const CONST: u8 = 4;
    /// `continue`
    pub const CONTINUE: u8 = 5;
    /// `debugger`
    pub const DEBUGGER: u8 = 6;
    /// `default`
    pub const DEFAULT: u8 = 7;
    /// `delete`
    pub const DELETE: u8 = 8;
    /// `do`
    pub const DO: u8 = 9;
    /// `else`
    pub const ELSE: u8 = 10;
    /// `enum`
    pub const ENUM: u8 = 11;
    /// `export`
    pub const EXPORT: u8 = 12;
    /// `extends`
    pub const EXTENDS: u8 = 13;
    /// `false`
    pub const FALSE: u8 = 14;
    /// `finally`
    pub const FINALLY: u8 = 15;
    /// `for`
    pub const FOR: u8 = 16;
    /// `function`
    pub const FUNCTION: u8 = 17;
    /// `if`
    pub const IF: u8 = 18;
    /// `implements`
    pub const IMPLEMENTS: u8 = 19;
    /// `import`
    pub const IMPORT: u8 = 20;
    /// `in`
    pub const IN: u8 = 21;
    /// `instanceof`
    pub const INSTANCEOF: u8 = 22;
    /// `interface`
    pub const INTERFACE: u8 = 23;
    /// `let`
    pub const LET: u8 = 24;
    /// `new`
    pub const NEW: u8 = 25;
    /// `null`
    pub const NULL: u8 = 26;
    /// `package`
    pub const PACKAGE: u8 = 27;
    /// `private`
    pub const PRIVATE: u8 = 28;
    /// `protected`
    pub const PROTECTED: u8 = 29;
    /// `public`
    pub const PUBLIC: u8 = 30;
    /// `return`
    pub const RETURN: u8 = 31;
    /// `static`
    pub const STATIC: u8 = 32;
    /// `super`
    pub const SUPER: u8 = 33;
    /// `switch`
    pub const SWITCH: u8 = 34;
    /// `this`
    pub const THIS: u8 = 35;
    /// `throw`
    pub const THROW: u8 = 36;
    /// `true`
    pub const TRUE: u8 = 37;
    /// `try`
    pub const TRY: u8 = 38;
    /// `typeof`
    pub const TYPEOF: u8 = 39;
    /// `var`
    pub const VAR: u8 = 40;
    /// `void`
    pub const VOID: u8 = 41;
    /// `while`
    pub const WHILE: u8 = 42;
    /// `with`
    pub const WITH: u8 = 43;
    /// `yield`
    pub const YIELD: u8 = 44;
}

/// The index of each punctuator. The last four stand in no tree: the scanner takes them as the longest token, and no
/// rule of the grammar has them.
pub mod mark {
    /// `{`
    pub const OPEN_BRACE: u8 = 0;
    /// `}`
    pub const CLOSE_BRACE: u8 = 1;
    /// `(`
    pub const OPEN_PAREN: u8 = 2;
    /// `)`
    pub const CLOSE_PAREN: u8 = 3;
    /// `[`
    pub const OPEN_BRACKET: u8 = 4;
    /// `]`
    pub const CLOSE_BRACKET: u8 = 5;
    /// `;`
    pub const SEMICOLON: u8 = 6;
    /// `,`
    pub const COMMA: u8 = 7;
    /// `<`
    pub const LESS: u8 = 8;
    /// `>`
    pub const GREATER: u8 = 9;
    /// `<=`
    pub const LESS_EQUAL: u8 = 10;
    /// `>=`
    pub const GREATER_EQUAL: u8 = 11;
    /// `==`
    pub const EQUAL: u8 = 12;
    /// `!=`
    pub const NOT_EQUAL: u8 = 13;
    /// `===`
    pub const STRICT_EQUAL: u8 = 14;
    /// `!==`
    pub const STRICT_NOT_EQUAL: u8 = 15;
    /// `+`
    pub const PLUS: u8 = 16;
    /// `-`
    pub const MINUS: u8 = 17;
    /// `*`
    pub const TIMES: u8 = 18;
    /// `/`
    pub const DIVIDE: u8 = 19;
    /// `%`
    pub const REMAINDER: u8 = 20;
    /// `**`
    pub const POWER: u8 = 21;
    /// `++`
    pub const INCREMENT: u8 = 22;
    /// `--`
    pub const DECREMENT: u8 = 23;
    /// `<<`
    pub const LEFT_SHIFT: u8 = 24;
    /// `>>`
    pub const RIGHT_SHIFT: u8 = 25;
    /// `>>>`
    pub const UNSIGNED_RIGHT_SHIFT: u8 = 26;
    /// `&`
    pub const BIT_AND: u8 = 27;
    /// `|`
    pub const BIT_OR: u8 = 28;
    /// `^`
    pub const BIT_XOR: u8 = 29;
    /// `!`
    pub const NOT: u8 = 30;
    /// `~`
    pub const BIT_NOT: u8 = 31;
    /// `&&`
    pub const AND: u8 = 32;
    /// `||`
    pub const OR: u8 = 33;
    /// `??`
    pub const COALESCE: u8 = 34;
    /// `?`
    pub const QUESTION: u8 = 35;
    /// `:`
    pub const COLON: u8 = 36;
    /// `=`
    pub const ASSIGN: u8 = 37;
    /// `+=`
    pub const PLUS_ASSIGN: u8 = 38;
    /// `-=`
    pub const MINUS_ASSIGN: u8 = 39;
    /// `*=`
    pub const TIMES_ASSIGN: u8 = 40;
    /// `/=`
    pub const DIVIDE_ASSIGN: u8 = 41;
    /// `%=`
    pub const REMAINDER_ASSIGN: u8 = 42;
    /// `**=`
    pub const POWER_ASSIGN: u8 = 43;
    /// `<<=`
    pub const LEFT_SHIFT_ASSIGN: u8 = 44;
    /// `>>=`
    pub const RIGHT_SHIFT_ASSIGN: u8 = 45;
    /// `>>>=`
    pub const UNSIGNED_RIGHT_SHIFT_ASSIGN: u8 = 46;
    /// `&=`
    pub const BIT_AND_ASSIGN: u8 = 47;
    /// `|=`
    pub const BIT_OR_ASSIGN: u8 = 48;
    /// `^=`
    pub const BIT_XOR_ASSIGN: u8 = 49;
    /// `=>`
    pub const ARROW: u8 = 50;
    /// `.`
    pub const DOT: u8 = 51;
    /// `...`
    pub const ELLIPSIS: u8 = 52;
    /// `?.`
    pub const OPTIONAL_DOT: u8 = 53;
    /// `&&=`
    pub const AND_ASSIGN: u8 = 54;
    /// `||=`
    pub const OR_ASSIGN: u8 = 55;
    /// `??=`
    pub const COALESCE_ASSIGN: u8 = 56;
}
