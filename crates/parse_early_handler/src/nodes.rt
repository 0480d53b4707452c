//! The nodes of the handler: a few numbers for each part of a script.

use crate::directive::Directive;
use crate::shape::Shape;
use parse_track::region::Early;

/// What is kept of an expression: the first early error in it, the offset of its first token, in bytes, and its form.
#[derive(Clone, Copy)]
pub struct ExprErrors {
    pub first: Option<Early>,
    pub start: u32,
    pub shape: Shape,
}

/// What is kept of a property of an object literal: the first early error in it, and the offset of its key, in bytes, where
/// it sets the prototype (`__proto__: v`, ECMA-262, 12th edition, B.3.1).
#[derive(Clone, Copy)]
pub struct PropErrors {
    pub first: Option<Early>,
    pub proto: Option<u32>,
}

/// What is kept of a statement: the first early error in it, and which directive it is.
#[derive(Clone, Copy)]
pub struct StmtErrors {
    pub first: Option<Early>,
    pub directive: Directive,
}

/// What is kept of the statements of a script or of a function's body: the first early error in them, and the offset of the
/// first directive `use strict` at their head, in bytes, which is an early error where the function has an initializer or a
/// rest parameter (rule 14).
#[derive(Clone, Copy)]
pub struct BodyErrors {
    pub first: Option<Early>,
    pub strict: Option<u32>,
}
