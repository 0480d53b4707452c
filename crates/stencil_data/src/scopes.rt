//! The scopes of one function or script, their bindings, and where a name's value lives.
use std::marker::Model;

/// What a scope belongs to.
#[derive(Debug, Clone, Copy, PartialEq, Eq)]
pub enum ScopeKind {
    /// The script: its var names, then its lexical names.
    Global,
    /// A function: its parameters, and its var names where no parameter has an initializer.
    Function,
    /// The `let` and `const` names of a function's body.
    FunctionLexical,
    /// The lexical names of a block, a switch body or the head of a `for`.
    Lexical,
    /// The parameter of a catch clause.
    SimpleCatch,
    /// The own name of a function expression.
    StrictNamedLambda,
    /// The var names of the body of a function whose parameters have an initializer.
    FunctionBodyVar,
}

/// How a name was declared.
#[derive(Debug, Clone, Copy, PartialEq, Eq)]
pub enum BindKind {
    Param,
    Var,
    Let,
    Const,
    /// A function declared in a block, a lexical name.
    Function,
    Catch,
    /// The own name of a function expression.
    Callee,
    Arguments,
    This,
}

/// Where a binding's value lives, as its own scope sees it.
#[derive(Debug, Clone, Copy, PartialEq, Eq)]
pub enum Slot {
    /// On the global object or in the global lexical environment.
    Global,
    /// The argument of this index.
    Arg(u32),
    /// This slot of the function's frame.
    Frame(u32),
    /// This slot of its scope's environment.
    Env(u32),
    /// The running function itself.
    Callee,
}

/// A name of a scope. `atom` is the index of its text.
#[derive(Debug, Clone, Copy, PartialEq, Eq)]
pub struct Binding {
    pub atom: u32,
    pub kind: BindKind,
    pub slot: Slot,
}

/// Where a name lives, as its use sees it.
#[derive(Debug, Clone, Copy, PartialEq, Eq)]
pub enum Place {
    /// On the global object or in the global lexical environment.
    Global,
    /// The argument of this index.
    Arg(u32),
    /// A slot of the function's frame.
    Frame {
        slot: u32,
        kind: BindKind,
    },
    /// A slot of the environment that stands `hops` environments outside the innermost one.
    Env {
        hops: u32,
        slot: u32,
        kind: BindKind,
    },
    /// The running function itself.
    Callee,
}

/// A scope of a function or script. `parent` is the number of the scope around it in the same
/// function, `env_slots` the number of its closed-over bindings, 0 where it has no environment.
#[derive(Debug, Clone, Drop)]
pub struct ScopeData {
    pub kind: ScopeKind,
    pub parent: Option<u32>,
    pub bindings: Vec<Binding>,
    pub env_slots: u32,
}

impl Model for ScopeData {
    ghost use Rattle.stencil_data.specs.Views.{ScopeView};

    ghost Value = { ScopeView };

    ghost view = { λ scope. record { kind = scope.kind; parent = scope.parent; bindings = scope.bindings.items; env_slots = scope.env_slots } };
}
