//! What is told of a script, and what a track answers.

use script_grammar::tree::Ident;

/// The atoms of the names and texts that a parser knows by their spelling.
#[derive(Clone, Copy)]
pub struct WellKnownAtoms {
    /// `eval`
    pub eval: u32,
    /// `arguments`
    pub arguments: u32,
    /// `.this`, the name by which a use of `this` goes
    pub this: u32,
    /// `__proto__`
    pub proto: u32,
    /// `get`
    pub get: u32,
    /// `set`
    pub set: u32,
    /// `use strict`
    pub strict: u32,
}

/// A region of a script.
#[derive(Clone, Copy)]
pub enum Region {
    Script,
    /// A function that is no arrow: its parameters, and its body where no parameter has an initializer.
    Function,
    Arrow,
    /// The scope of a function expression's name, around its Function.
    Lambda(Ident),
    Block,
    Switch,
    /// The head of a `for` statement, around all of the loop.
    ForHead,
    /// The parameter of a catch clause, around its block.
    Catch,
    Loop,
    Label(Ident),
    /// The body of a function that has an initializer among its parameters, inside its Function or Arrow.
    VarBody,
}

/// How a name is declared.
#[derive(Clone, Copy)]
pub enum Declare {
    /// By `let` or `const`, or by a function declaration that is not at the top of a script or function.
    Lexical,
    /// By `var`, or by a function declaration at the top of a script or function.
    Var,
    Param,
    /// As the parameter of a catch clause.
    Catch,
}

/// The word of a jump.
#[derive(Clone, Copy)]
pub enum Jump {
    Break,
    Continue,
}

/// An early error: the offset where it stands, in bytes, and the number of its rule, 1 to 14.
#[derive(Clone, Copy)]
pub struct Early {
    pub offset: u32,
    pub rule: u8,
}

/// A name that an inner function closes over: the offset where the parameters of its function start, None for the script;
/// the number of its scope in that function; and its atom.
#[derive(Clone, Copy)]
pub struct ClosedAt {
    pub func: Option<u32>,
    pub scope: u32,
    pub atom: u32,
}

/// What follows from all that was told.
#[derive(Drop)]
pub struct Tracked {
    pub early: Option<Early>,
    pub closed: Vec<ClosedAt>,
}
