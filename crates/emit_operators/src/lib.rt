//! Which opcode each operator is, how the operands of a list of operators are put together, and which form a number has.
//!
//! It stands on bytecode_buf, which has the opcodes, and on script_grammar, which has the signs of operators; the code of expressions
//! stands on it. The opcode of each operator is a row of a table in `specs/Operators.antt`, and none of these rows is taken from the
//! program: its own tables are proved to answer the same.
//!
//! Its main contract: [`binary_op`], [`assign_op`], [`prefix_op`] and [`update_op`] answer the opcode that the tables of the definition
//! have for a sign, which is one without an operand. No call takes memory.
#![tactic(auto)]

mod operators;

pub use operators::{
    Joining, Meaning, NumberForm, Short, assign_op, binary_op, joined_by, number_form, prefix_op,
    update_op,
};
