//! Parts that are made while a statement is read.

use crate::ending::StmtEnding;
use script_grammar::node::NodeBind;

/// A statement, and whether an `else` after it would be its own.
#[derive(Drop)]
pub struct StmtNode<S> {
    pub node: S,
    pub takes_else: bool,
}

/// A name with its initializer, and how a statement ends that ends with it.
#[derive(Drop)]
pub struct EndedBind<E> {
    pub bind: NodeBind<E>,
    pub ending: StmtEnding,
}

/// Names with their initializers, and how a statement ends that ends with them.
#[derive(Drop)]
pub struct Binds<E> {
    pub items: Vec<NodeBind<E>>,
    pub ending: StmtEnding,
}

/// A function's body in braces, and the offset where it ends.
#[derive(Drop)]
pub struct BodyNode<B> {
    pub node: B,
    pub end: u32,
}
