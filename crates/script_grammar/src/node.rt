//! The parts of a tree over the nodes of a handler: the structs and enums of `tree` that hold trees and are not an
//! expression, a statement or a property, with a node of type `E`, `S` or `B` where those hold a tree.

use crate::token::{Decl, FuncForm};
use crate::tree::Ident;

/// The arguments of a call or of `new`.
#[derive(Drop)]
pub struct NodeArgs<E> {
    pub items: Vec<E>,
    pub comma: bool,
}

/// A binary operator and the operand after it.
#[derive(Drop)]
pub struct NodeOperand<E> {
    pub op: u8,
    pub is_word: bool,
    pub value: E,
}

/// A substitution of a template, and the atom of the template's part after it.
#[derive(Drop)]
pub struct NodeTemplatePart<E> {
    pub value: E,
    pub after: u32,
}

/// A part of a chain.
#[derive(Drop)]
pub enum NodeTail<E> {
    Dot { atom: u32 },
    Index(E),
    Call(NodeArgs<E>),
}

/// The name of a property in an object literal.
#[derive(Drop)]
pub enum NodeKey<E> {
    Word(Ident),
    Str(Ident),
    Number { at: u32, value: u64 },
    Computed(E),
}

/// The body of a function: a body node, the node of an arrow's expression, or a braced body that was passed over.
#[derive(Drop)]
pub enum NodeFuncBody<E, B> {
    Braced(B),
    Short(E),
    Passed,
}

/// A parameter.
#[derive(Drop)]
pub struct NodeParam<E> {
    pub name: Ident,
    pub value: Option<E>,
    pub rest: bool,
}

/// A function.
#[derive(Drop)]
pub struct NodeFunc<E, B> {
    pub form: FuncForm,
    pub start: u32,
    pub end: u32,
    pub name: Option<Ident>,
    pub params: Vec<NodeParam<E>>,
    pub comma: bool,
    pub bare: bool,
    pub body: NodeFuncBody<E, B>,
}

/// A name that a `var`, `let` or `const` declares, with its initializer.
#[derive(Drop)]
pub struct NodeBind<E> {
    pub name: Ident,
    pub value: Option<E>,
}

/// What stands first in the head of a `for` with two semicolons.
#[derive(Drop)]
pub enum NodeInit<E> {
    Nothing,
    Value(E),
    Binds { decl: Decl, binds: Vec<NodeBind<E>> },
}

/// What stands before `in` in the head of a `for`.
#[derive(Drop)]
pub enum NodeEach<E> {
    Target(E),
    Bind { decl: Decl, name: Ident },
}

/// A clause of a `switch`.
#[derive(Drop)]
pub struct NodeClause<E, S> {
    pub test: Option<E>,
    pub items: Vec<S>,
}
