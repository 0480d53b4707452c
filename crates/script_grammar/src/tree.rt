//! The trees of a script, after the syntactic grammar of ECMA-262 (12th edition, clauses 13 to 16).
//!
//! `at` is the offset of a part's first token, in bytes from the text's start. `op` is the index of the operator's
//! word or mark, in `token::word` or `token::mark`; where `is_word` stands beside it, that tells which. `comma` says
//! that a comma stands after the last item, and `semi` that the semicolon of a statement is written. Names are
//! atoms. Lists that the grammar builds to the left are flat: each level of binary operators is one list, and so are
//! the operands of `**`, the parts of a member or call chain, and the items of a comma expression.

use crate::token::{Decl, FuncForm};

/// A name and where it stands.
#[derive(Clone, Copy, Debug, PartialEq, Eq)]
pub struct Ident {
    pub atom: u32,
    pub at: u32,
}

/// The arguments of a call or of `new`.
#[cycle(syntax)]
#[derive(Drop)]
pub struct Args {
    pub items: Vec<Expr>,
    pub comma: bool,
}

/// An expression (clause 13).
#[cycle(syntax)]
#[derive(Drop)]
pub enum Expr {
    This {
        at: u32,
    },
    Name(Ident),
    Null {
        at: u32,
    },
    True {
        at: u32,
    },
    False {
        at: u32,
    },
    Number {
        at: u32,
        value: u64,
    },
    /// `end` is the offset after the token.
    Str {
        at: u32,
        end: u32,
        atom: u32,
    },
    /// A template: the atom of its first part, and each substitution with the atom of the part after it.
    Template {
        at: u32,
        first: u32,
        parts: Vec<TemplatePart>,
    },
    /// An array; None is a hole, which has a comma of its own.
    Array {
        at: u32,
        items: Vec<Option<Expr>>,
        comma: bool,
    },
    Object {
        at: u32,
        props: Vec<Prop>,
        comma: bool,
    },
    /// A function expression or an arrow.
    Func {
        at: u32,
        func: Box<Func>,
    },
    Paren {
        at: u32,
        inner: Box<Expr>,
    },
    /// Members and calls after an expression, at least one.
    Chain {
        head: Box<Expr>,
        tails: Vec<Tail>,
    },
    New(Box<NewExpression>),
    /// A prefix operator, `++` and `--` excepted.
    Unary {
        at: u32,
        op: u8,
        of: Box<Expr>,
        is_word: bool,
    },
    /// `++` or `--`, before or after its operand.
    Update {
        at: u32,
        op: u8,
        prefix: bool,
        of: Box<Expr>,
    },
    /// The operands of one level of binary operators, at least two.
    Binary {
        first: Box<Expr>,
        rest: Vec<Operand>,
    },
    Cond {
        test: Box<Expr>,
        yes: Box<Expr>,
        no: Box<Expr>,
    },
    Assign {
        op: u8,
        target: Box<Expr>,
        value: Box<Expr>,
    },
    /// At least two expressions with commas between.
    Comma {
        items: Vec<Expr>,
    },
}

/// `new`, whose arguments may be left out.
#[cycle(syntax)]
#[derive(Drop)]
pub struct NewExpression {
    pub at: u32,
    pub callee: Expr,
    pub args: Option<Args>,
}

/// A binary operator and the operand after it.
#[cycle(syntax)]
#[derive(Drop)]
pub struct Operand {
    pub op: u8,
    pub is_word: bool,
    pub value: Expr,
}

/// A substitution of a template, and the atom of the template's part after it.
#[cycle(syntax)]
#[derive(Drop)]
pub struct TemplatePart {
    pub value: Expr,
    pub after: u32,
}

/// A part of a chain: `.name`, `[index]` or the arguments of a call.
#[cycle(syntax)]
#[derive(Drop)]
pub enum Tail {
    Dot { atom: u32 },
    Index(Expr),
    Call(Args),
}

/// The name of a property in an object literal.
#[cycle(syntax)]
#[derive(Drop)]
pub enum Key {
    /// A name or a reserved word.
    Word(Ident),
    Str(Ident),
    Number { at: u32, value: u64 },
    Computed(Expr),
}

/// A property of an object literal.
#[cycle(syntax)]
#[derive(Drop)]
pub enum Prop {
    Short(Ident),
    Pair { key: Key, value: Expr },
    Method { key: Key, func: Box<Func> },
    Get { key: Key, func: Box<Func> },
    Set { key: Key, func: Box<Func> },
}

/// The body of a function.
#[cycle(syntax)]
#[derive(Drop)]
pub enum FuncBody {
    Braced(Vec<Stmt>),
    /// An arrow's body that is an expression.
    Short(Box<Expr>),
    /// A braced body that was passed over.
    Passed,
}

/// A parameter. `rest` says that `...` stands before it.
#[cycle(syntax)]
#[derive(Drop)]
pub struct Param {
    pub name: Ident,
    pub value: Option<Expr>,
    pub rest: bool,
}

/// A function: `start` and `end` are its extent, from the start of its parameters to the end of its body. `bare` says
/// that it is an arrow whose one parameter has no parentheses.
#[cycle(syntax)]
#[derive(Drop)]
pub struct Func {
    pub form: FuncForm,
    pub start: u32,
    pub end: u32,
    pub name: Option<Ident>,
    pub params: Vec<Param>,
    pub comma: bool,
    pub bare: bool,
    pub body: FuncBody,
}

/// A name that a `var`, `let` or `const` declares, with its initializer.
#[cycle(syntax)]
#[derive(Drop)]
pub struct Bind {
    pub name: Ident,
    pub value: Option<Expr>,
}

/// What stands first in the head of a `for` with two semicolons.
#[cycle(syntax)]
#[derive(Drop)]
pub enum Init {
    Nothing,
    Value(Expr),
    Binds { decl: Decl, binds: Vec<Bind> },
}

/// What stands before `in` in the head of a `for`.
#[cycle(syntax)]
#[derive(Drop)]
pub enum Each {
    Target(Expr),
    Bind { decl: Decl, name: Ident },
}

/// A clause of a `switch`; the one without a test is the default.
#[cycle(syntax)]
#[derive(Drop)]
pub struct Clause {
    pub test: Option<Expr>,
    pub items: Vec<Stmt>,
}

/// `if`, with the statement after its `else`.
#[cycle(syntax)]
#[derive(Drop)]
pub struct IfStatement {
    pub test: Expr,
    pub yes: Stmt,
    pub no: Option<Box<Stmt>>,
}

/// A `for` with two semicolons.
#[cycle(syntax)]
#[derive(Drop)]
pub struct ForStatement {
    pub init: Init,
    pub test: Option<Expr>,
    pub update: Option<Expr>,
    pub body: Stmt,
}

/// A `for` with `in`.
#[cycle(syntax)]
#[derive(Drop)]
pub struct ForInStatement {
    pub each: Each,
    pub over: Expr,
    pub body: Stmt,
}

/// `switch`.
#[cycle(syntax)]
#[derive(Drop)]
pub struct SwitchStatement {
    pub of: Expr,
    pub clauses: Vec<Clause>,
}

/// `try` with `catch`.
#[cycle(syntax)]
#[derive(Drop)]
pub struct TryStatement {
    pub body: Vec<Stmt>,
    pub param: Option<Ident>,
    pub handler: Vec<Stmt>,
}

/// A statement or a declaration (clause 14).
#[cycle(syntax)]
#[derive(Drop)]
pub enum Stmt {
    Block(Vec<Stmt>),
    Empty,
    Debugger {
        semi: bool,
    },
    Binds {
        decl: Decl,
        binds: Vec<Bind>,
        semi: bool,
    },
    Value {
        value: Expr,
        semi: bool,
    },
    If(Box<IfStatement>),
    Do {
        semi: bool,
        body: Box<Stmt>,
        test: Expr,
    },
    While {
        test: Expr,
        body: Box<Stmt>,
    },
    For(Box<ForStatement>),
    ForIn(Box<ForInStatement>),
    Continue {
        at: u32,
        label: Option<Ident>,
        semi: bool,
    },
    Break {
        at: u32,
        label: Option<Ident>,
        semi: bool,
    },
    Return {
        semi: bool,
        value: Option<Expr>,
    },
    Throw {
        value: Expr,
        semi: bool,
    },
    Switch(Box<SwitchStatement>),
    Label {
        name: Ident,
        body: Box<Stmt>,
    },
    Try(Box<TryStatement>),
    /// A function declaration.
    Func(Box<Func>),
}

const _: () = prove!(size_of::<Expr>() == 40);

const _: () = prove!(size_of::<Prop>() == 96);

const _: () = prove!(size_of::<Stmt>() == 56);
