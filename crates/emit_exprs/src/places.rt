// What an expression is where it is written, called or joined: its parts looked at, and no code.
ghost use Rattle.std.specs.Prelude.{◌≡◌, [], ◌∷◌, map};
ghost use Rattle.script_grammar.specs.Interpretation.{Interpretation};
ghost use Rattle.script_grammar.specs.TreeLists.{tails_of, operands_of};
ghost use Rattle.script_grammar.specs.TreeOf.{tail_of, operand_of};
ghost use Rattle.emit_exprs.specs.Exprs as code;
ghost use Rattle.emit_exprs.specs.Targets.{IsTarget, names_target, target_in};

use crate::targets::Target;
use crate::uses::Use;
use emit_operators::{Joining, joined_by};
use script_grammar::tree::{Expr, Operand, Tail};

fn tail_target(tail: &Tail) -> Target
    ensures { (i : Interpretation) → target_in i.texts result ≡ code.last_target (tails_of (tail_of i tail.now ∷ [])) }
{
    match tail {
        Tail::Dot { atom } => Target::Prop(*atom),
        Tail::Index(_) => Target::Elem,
        Tail::Call(_) => Target::Nothing,
    }
}

fn last_target(tails: &[Tail]) -> Target
    ensures { (i : Interpretation) → target_in i.texts result ≡ code.last_target (tails_of (map (tail_of i) tails.now)) }
{
    match tails.last() {
        Some(tail) => tail_target(tail),
        None => Target::Nothing,
    }
}

/// What is written where this expression stands on the left of an assignment.
pub fn target_of(tree: &Expr) -> Target
    ensures { IsTarget tree.now result }
{
    match tree {
        Expr::Name(name) => Target::Name(name.atom),
        Expr::Paren { at: _, inner } => target_of(inner),
        Expr::Chain { head: _, tails } => last_target(tails),
        Expr::This { at: _ } => Target::Nothing,
        Expr::Null { at: _ } => Target::Nothing,
        Expr::True { at: _ } => Target::Nothing,
        Expr::False { at: _ } => Target::Nothing,
        Expr::Number { at: _, value: _ } => Target::Nothing,
        Expr::Str {
            at: _,
            end: _,
            atom: _,
        } => Target::Nothing,
        Expr::Template {
            at: _,
            first: _,
            parts: _,
        } => Target::Nothing,
        Expr::Array {
            at: _,
            items: _,
            comma: _,
        } => Target::Nothing,
        Expr::Object {
            at: _,
            props: _,
            comma: _,
        } => Target::Nothing,
        Expr::Func { at: _, func: _ } => Target::Nothing,
        Expr::New(_) => Target::Nothing,
        Expr::Unary {
            at: _,
            op: _,
            of: _,
            is_word: _,
        } => Target::Nothing,
        Expr::Update {
            at: _,
            op: _,
            prefix: _,
            of: _,
        } => Target::Nothing,
        Expr::Binary { first: _, rest: _ } => Target::Nothing,
        Expr::Cond {
            test: _,
            yes: _,
            no: _,
        } => Target::Nothing,
        Expr::Assign {
            op: _,
            target: _,
            value: _,
        } => Target::Nothing,
        Expr::Comma { items: _ } => Target::Nothing,
    }
}

/// Whether a target is a name.
pub fn is_name(target: Target) -> bool
    ensures { result ≡ names_target target }
{
    match target {
        Target::Name(_) => true,
        Target::Prop(_) => false,
        Target::Elem => false,
        Target::Nothing => false,
    }
}

/// How a value is used that these tails follow.
pub fn use_before(wanted: Use, rest: &[Tail]) -> Use
    ensures { (i : Interpretation) → result ≡ code.use_before wanted (tails_of (map (tail_of i) rest.now)) }
{
    match rest.first() {
        None => wanted,
        Some(Tail::Call(_)) => Use::Called,
        Some(Tail::Dot { atom: _ }) => Use::Plainly,
        Some(Tail::Index(_)) => Use::Plainly,
    }
}

/// How a list of these operands is put together.
pub fn list_joining(rest: &[Operand]) -> Joining
    ensures { (i : Interpretation) → result ≡ code.list_joining (operands_of (map (operand_of i) rest.now)) }
{
    match rest.first() {
        Some(operand) => joined_by(operand.is_word, operand.op),
        None => Joining::FromLeft,
    }
}
