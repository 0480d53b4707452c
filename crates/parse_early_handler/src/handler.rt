//! The handler that keeps early errors.

ghost use Rattle.std.specs.Prelude.{◌≡◌, ◌&&◌, List, Option, None, IfOk, cond, nat_eq};
ghost use Rattle.script_grammar.specs.Interpretation.{Interpretation, text_of, named, maybe_named};
ghost use Rattle.script_grammar.specs.Shows.{ShowAll, ShowMaybe, ShowArgs, ShowOperand, ShowPart, ShowTail, ShowKey, ShowFunc, ShowBind, ShowInit};
ghost use Rattle.script_grammar.specs.Shows.{ShowEach, ShowClause};
ghost use Rattle.script_grammar.specs.declared.token.word.TheConstants as names;
ghost use Rattle.script_grammar.specs.Tree as model;
ghost use Rattle.script_grammar.specs.TreeLists as part;
ghost use Rattle.script_grammar.specs.TreeLists.{exprs_of, maybe_expr_of, items_of, maybe_args_of, operands_of, parts_of, tails_of, props_of};
ghost use Rattle.script_grammar.specs.TreeLists.{binds_of, clauses_of, stmts_of, maybe_stmt_of};
ghost use Rattle.parse_track.specs.EarlyErrors.{sooner};
ghost use Rattle.parse_early_handler.specs.declared.shape.Shape.TheVariants as form;
ghost use Rattle.parse_early_handler.specs.declared.directive.Directive.TheVariants as kind;
ghost use Rattle.parse_early_handler.specs.Firsts.{function_first, key_first};
ghost use Rattle.parse_early_handler.specs.HasErrors.{HasErrorsExpr, HasErrorsStmt, HasErrorsProp, HasErrorsBody};
ghost use Rattle.parse_early_handler.specs.Shapes.{is_name_shape};

use crate::directive::Directive;
use crate::early::{error_if, sooner};
use crate::keys::{later_protos, proto_key};
use crate::nodes::{BodyErrors, ExprErrors, PropErrors, StmtErrors};
use crate::parts::{
    EarlyErrors, binds_first, end_in_property, first_strict, start_of_first, target_first,
};
use crate::shape::Shape;
use crate::words::{is_plain_strict, is_reserved};
use parse_track::region::Early;
use script_grammar::handler::Handler;
use script_grammar::node::{
    NodeArgs, NodeBind, NodeClause, NodeEach, NodeFunc, NodeInit, NodeKey, NodeOperand, NodeTail,
    NodeTemplatePart,
};
use script_grammar::token::{Decl, word};
use script_grammar::tree::Ident;
use std::alloc::AllocError;

/// A handler that keeps no tree. Its nodes are the first early errors of the parts, of the rules that look at no region. It
/// takes no memory.
#[derive(Clone, Copy, Default)]
pub struct EarlyErrorHandler {}

impl EarlyErrorHandler {
    /// A handler, which has no state.
    pub fn new() -> EarlyErrorHandler {
        EarlyErrorHandler {}
    }
}

// An expression whose form no rule looks at.
fn other(start: u32, first: Option<Early>) -> ExprErrors
    ensures { result ≡ record { first = first; start = start; shape = form.Other } }
{
    ExprErrors {
        first,
        start,
        shape: Shape::Other,
    }
}

// A statement that is no directive.
fn plain(first: Option<Early>) -> StmtErrors
    ensures { result ≡ record { first = first; directive = kind.No } }
{
    StmtErrors {
        first,
        directive: Directive::No,
    }
}

// A method, a getter or a setter.
fn method(key: &NodeKey<ExprErrors>, func: &NodeFunc<ExprErrors, BodyErrors>) -> PropErrors
    ensures { result ≡ record { first = sooner (key_first key.now) (function_first func.now); proto = None } }
{
    let named = key.first_early();
    let inside = func.first_early();
    let first = sooner(named, inside);
    PropErrors { first, proto: None }
}

// Whether an operator is `delete` and stands before a name (rule 10; ECMA-262, 12th edition, 13.5.1.1).
fn deletes_name(op: u8, is_word: bool, of: ExprErrors) -> bool
    ensures { result ≡ is_word && (nat_eq op names.DELETE && is_name_shape of.shape) }
{
    let is_name = of.shape.is_name();
    is_word && (op == word::DELETE && is_name)
}

// The offset of an update expression whose operator stands at an offset, before or after its operand.
fn update_start(at: u32, prefix: bool, of: ExprErrors) -> u32
    ensures { result ≡ cond prefix at of.start }
{
    if prefix { at } else { of.start }
}

impl Handler for EarlyErrorHandler {
    type E = ExprErrors;

    type S = StmtErrors;

    type P = PropErrors;

    type B = BodyErrors;

    ghost shows_expr = { HasErrorsExpr };

    ghost shows_stmt = { HasErrorsStmt };

    ghost shows_prop = { HasErrorsProp };

    ghost shows_body = { HasErrorsBody };

    fn make_this(&mut self, at: u32) -> Result<ExprErrors, AllocError>
        ensures { (i : Interpretation) → IfOk result (λ e. HasErrorsExpr i e (model.This at)) }
    {
        Ok(other(at, None))
    }

    fn make_name(&mut self, name: Ident) -> Result<ExprErrors, AllocError>
        ensures { (i : Interpretation) → IfOk result (λ e. HasErrorsExpr i e (model.Name (named i name))) }
    {
        let shape = Shape::Name {
            reserved: is_reserved(name.atom),
        };
        Ok(ExprErrors {
            first: None,
            start: name.at,
            shape,
        })
    }

    fn make_null(&mut self, at: u32) -> Result<ExprErrors, AllocError>
        ensures { (i : Interpretation) → IfOk result (λ e. HasErrorsExpr i e (model.Null at)) }
    {
        Ok(other(at, None))
    }

    fn make_true(&mut self, at: u32) -> Result<ExprErrors, AllocError>
        ensures { (i : Interpretation) → IfOk result (λ e. HasErrorsExpr i e (model.True at)) }
    {
        Ok(other(at, None))
    }

    fn make_false(&mut self, at: u32) -> Result<ExprErrors, AllocError>
        ensures { (i : Interpretation) → IfOk result (λ e. HasErrorsExpr i e (model.False at)) }
    {
        Ok(other(at, None))
    }

    fn make_number(&mut self, at: u32, _value: u64) -> Result<ExprErrors, AllocError>
        ensures { (i : Interpretation) → IfOk result (λ e. HasErrorsExpr i e (model.Number at _value)) }
    {
        Ok(other(at, None))
    }

    fn make_str(&mut self, at: u32, end: u32, atom: u32) -> Result<ExprErrors, AllocError>
        ensures { (i : Interpretation) → IfOk result (λ e. HasErrorsExpr i e (model.Str at end (text_of i atom))) }
    {
        let shape = Shape::Str {
            strict: is_plain_strict(at, end, atom),
        };
        Ok(ExprErrors {
            first: None,
            start: at,
            shape,
        })
    }

    fn make_template(
        &mut self,
        at: u32,
        _first: u32,
        parts: Vec<NodeTemplatePart<ExprErrors>>,
    ) -> Result<ExprErrors, AllocError>
        ensures { (i : Interpretation) (ps : List part.Part) → ShowAll (ShowPart i (HasErrorsExpr i)) parts.items ps
            → IfOk result (λ e. HasErrorsExpr i e (model.Template at (text_of i _first) (parts_of ps))) }
    {
        Ok(other(at, parts.first_early()))
    }

    fn make_array(
        &mut self,
        at: u32,
        items: Vec<Option<ExprErrors>>,
        _comma: bool,
    ) -> Result<ExprErrors, AllocError>
        ensures { (i : Interpretation) (ts : List (Option model.Expr)) → ShowAll (ShowMaybe (HasErrorsExpr i)) items.items ts
            → IfOk result (λ e. HasErrorsExpr i e (model.Array at (items_of ts) _comma)) }
    {
        Ok(other(at, items.first_early()))
    }

    fn make_object(
        &mut self,
        at: u32,
        props: Vec<PropErrors>,
        _comma: bool,
    ) -> Result<ExprErrors, AllocError>
        ensures { (i : Interpretation) (ps : List model.Prop) → ShowAll (HasErrorsProp i) props.items ps
            → IfOk result (λ e. HasErrorsExpr i e (model.Object at (props_of ps) _comma)) }
    {
        let later = later_protos(&props);
        let first = sooner(later, props.first_early());
        Ok(other(at, first))
    }

    fn make_func(
        &mut self,
        at: u32,
        func: NodeFunc<ExprErrors, BodyErrors>,
    ) -> Result<ExprErrors, AllocError>
        ensures { (i : Interpretation) (f : model.Function) → ShowFunc i (HasErrorsExpr i) (HasErrorsBody i) func f
            → IfOk result (λ e. HasErrorsExpr i e (model.Func at f)) }
    {
        Ok(other(at, func.first_early()))
    }

    fn make_paren(&mut self, at: u32, inner: ExprErrors) -> Result<ExprErrors, AllocError>
        ensures { (i : Interpretation) (t : model.Expr) → HasErrorsExpr i inner t
            → IfOk result (λ e. HasErrorsExpr i e (model.Paren at t)) }
    {
        Ok(ExprErrors {
            first: inner.first,
            start: at,
            shape: inner.shape.in_parentheses(),
        })
    }

    fn make_chain(
        &mut self,
        head: ExprErrors,
        tails: Vec<NodeTail<ExprErrors>>,
    ) -> Result<ExprErrors, AllocError>
        ensures { (i : Interpretation) (t : model.Expr) (ts : List model.Tail) → HasErrorsExpr i head t
            → ShowAll (ShowTail i (HasErrorsExpr i)) tails.items ts
            → IfOk result (λ e. HasErrorsExpr i e (model.Chain t (tails_of ts))) }
    {
        let first = sooner(head.first, tails.first_early());
        let property = end_in_property(&tails);
        let shape = Shape::of_chain(property);
        Ok(ExprErrors {
            first,
            start: head.start,
            shape,
        })
    }

    fn make_new(
        &mut self,
        at: u32,
        callee: ExprErrors,
        args: Option<NodeArgs<ExprErrors>>,
    ) -> Result<ExprErrors, AllocError>
        ensures { (i : Interpretation) (t : model.Expr) (a : Option part.Args) → HasErrorsExpr i callee t
            → ShowMaybe (ShowArgs (HasErrorsExpr i)) args a
            → IfOk result (λ e. HasErrorsExpr i e (model.New at t (maybe_args_of a))) }
    {
        let first = sooner(callee.first, args.first_early());
        Ok(other(at, first))
    }

    fn make_unary(
        &mut self,
        at: u32,
        op: u8,
        of: ExprErrors,
        is_word: bool,
    ) -> Result<ExprErrors, AllocError>
        ensures { (i : Interpretation) (t : model.Expr) → HasErrorsExpr i of t
            → IfOk result (λ e. HasErrorsExpr i e (model.Unary at op t is_word)) }
    {
        let wrong = error_if(deletes_name(op, is_word, of), 10, at);
        let first = sooner(wrong, of.first);
        Ok(other(at, first))
    }

    fn make_update(
        &mut self,
        at: u32,
        _op: u8,
        prefix: bool,
        of: ExprErrors,
    ) -> Result<ExprErrors, AllocError>
        ensures { (i : Interpretation) (t : model.Expr) → HasErrorsExpr i of t
            → IfOk result (λ e. HasErrorsExpr i e (model.Update at _op prefix t)) }
    {
        let start = update_start(at, prefix, of);
        let first = target_first(of);
        Ok(other(start, first))
    }

    fn make_binary(
        &mut self,
        first: ExprErrors,
        rest: Vec<NodeOperand<ExprErrors>>,
    ) -> Result<ExprErrors, AllocError>
        ensures { (i : Interpretation) (t : model.Expr) (os : List part.Operand) → HasErrorsExpr i first t
            → ShowAll (ShowOperand (HasErrorsExpr i)) rest.items os
            → IfOk result (λ e. HasErrorsExpr i e (model.Binary t (operands_of os))) }
    {
        let start = first.start;
        let first = sooner(first.first, rest.first_early());
        Ok(other(start, first))
    }

    fn make_cond(
        &mut self,
        test: ExprErrors,
        yes: ExprErrors,
        no: ExprErrors,
    ) -> Result<ExprErrors, AllocError>
        ensures { (i : Interpretation) (t u v : model.Expr) → HasErrorsExpr i test t → HasErrorsExpr i yes u → HasErrorsExpr i no v
            → IfOk result (λ e. HasErrorsExpr i e (model.Cond t u v)) }
    {
        let branches = sooner(yes.first, no.first);
        let first = sooner(test.first, branches);
        Ok(other(test.start, first))
    }

    fn make_assign(
        &mut self,
        _op: u8,
        target: ExprErrors,
        value: ExprErrors,
    ) -> Result<ExprErrors, AllocError>
        ensures { (i : Interpretation) (t v : model.Expr) → HasErrorsExpr i target t → HasErrorsExpr i value v
            → IfOk result (λ e. HasErrorsExpr i e (model.Assign _op t v)) }
    {
        let assigned = target_first(target);
        let first = sooner(assigned, value.first);
        Ok(other(target.start, first))
    }

    fn make_comma(&mut self, items: Vec<ExprErrors>) -> Result<ExprErrors, AllocError>
        ensures { (i : Interpretation) (ts : List model.Expr) → ShowAll (HasErrorsExpr i) items.items ts
            → IfOk result (λ e. HasErrorsExpr i e (model.Comma (exprs_of ts))) }
    {
        let start = start_of_first(&items);
        Ok(other(start, items.first_early()))
    }

    fn make_short(&mut self, _name: Ident) -> Result<PropErrors, AllocError>
        ensures { (i : Interpretation) → IfOk result (λ p. HasErrorsProp i p (model.Short (named i _name))) }
    {
        Ok(PropErrors {
            first: None,
            proto: None,
        })
    }

    fn make_pair(
        &mut self,
        key: NodeKey<ExprErrors>,
        value: ExprErrors,
    ) -> Result<PropErrors, AllocError>
        ensures { (i : Interpretation) (k : model.Key) (v : model.Expr) → ShowKey i (HasErrorsExpr i) key k → HasErrorsExpr i value v
            → IfOk result (λ p. HasErrorsProp i p (model.Pair k v)) }
    {
        let first = sooner(key.first_early(), value.first);
        Ok(PropErrors {
            first,
            proto: proto_key(&key),
        })
    }

    fn make_method(
        &mut self,
        key: NodeKey<ExprErrors>,
        func: NodeFunc<ExprErrors, BodyErrors>,
    ) -> Result<PropErrors, AllocError>
        ensures { (i : Interpretation) (k : model.Key) (f : model.Function) → ShowKey i (HasErrorsExpr i) key k
            → ShowFunc i (HasErrorsExpr i) (HasErrorsBody i) func f
            → IfOk result (λ p. HasErrorsProp i p (model.Method k f)) }
    {
        Ok(method(&key, &func))
    }

    fn make_get(
        &mut self,
        key: NodeKey<ExprErrors>,
        func: NodeFunc<ExprErrors, BodyErrors>,
    ) -> Result<PropErrors, AllocError>
        ensures { (i : Interpretation) (k : model.Key) (f : model.Function) → ShowKey i (HasErrorsExpr i) key k
            → ShowFunc i (HasErrorsExpr i) (HasErrorsBody i) func f
            → IfOk result (λ p. HasErrorsProp i p (model.Get k f)) }
    {
        Ok(method(&key, &func))
    }

    fn make_set(
        &mut self,
        key: NodeKey<ExprErrors>,
        func: NodeFunc<ExprErrors, BodyErrors>,
    ) -> Result<PropErrors, AllocError>
        ensures { (i : Interpretation) (k : model.Key) (f : model.Function) → ShowKey i (HasErrorsExpr i) key k
            → ShowFunc i (HasErrorsExpr i) (HasErrorsBody i) func f
            → IfOk result (λ p. HasErrorsProp i p (model.Set k f)) }
    {
        Ok(method(&key, &func))
    }

    fn make_block(&mut self, items: Vec<StmtErrors>) -> Result<StmtErrors, AllocError>
        ensures { (i : Interpretation) (ss : List model.Stmt) → ShowAll (HasErrorsStmt i) items.items ss
            → IfOk result (λ s. HasErrorsStmt i s (model.Block (stmts_of ss))) }
    {
        Ok(plain(items.first_early()))
    }

    fn make_empty(&mut self) -> Result<StmtErrors, AllocError>
        ensures { (i : Interpretation) → IfOk result (λ s. HasErrorsStmt i s model.Empty) }
    {
        Ok(plain(None))
    }

    fn make_debugger(&mut self, _semi: bool) -> Result<StmtErrors, AllocError>
        ensures { (i : Interpretation) → IfOk result (λ s. HasErrorsStmt i s (model.Debugger _semi)) }
    {
        Ok(plain(None))
    }

    fn make_binds(
        &mut self,
        decl: Decl,
        binds: Vec<NodeBind<ExprErrors>>,
        _semi: bool,
    ) -> Result<StmtErrors, AllocError>
        ensures { (i : Interpretation) (bs : List part.Bind) → ShowAll (ShowBind i (HasErrorsExpr i)) binds.items bs
            → IfOk result (λ s. HasErrorsStmt i s (model.Binding decl (binds_of bs) _semi)) }
    {
        Ok(plain(binds_first(decl, &binds)))
    }

    fn make_value(&mut self, value: ExprErrors, _semi: bool) -> Result<StmtErrors, AllocError>
        ensures { (i : Interpretation) (t : model.Expr) → HasErrorsExpr i value t
            → IfOk result (λ s. HasErrorsStmt i s (model.Value t _semi)) }
    {
        Ok(StmtErrors {
            first: value.first,
            directive: Directive::of(value.shape, value.start),
        })
    }

    fn make_if(
        &mut self,
        test: ExprErrors,
        yes: StmtErrors,
        no: Option<StmtErrors>,
    ) -> Result<StmtErrors, AllocError>
        ensures { (i : Interpretation) (t : model.Expr) (u : model.Stmt) (v : Option model.Stmt) → HasErrorsExpr i test t → HasErrorsStmt i yes u
            → ShowMaybe (HasErrorsStmt i) no v
            → IfOk result (λ s. HasErrorsStmt i s (model.If t u (maybe_stmt_of v))) }
    {
        let branches = sooner(yes.first, no.first_early());
        let first = sooner(test.first, branches);
        Ok(plain(first))
    }

    fn make_do(
        &mut self,
        body: StmtErrors,
        test: ExprErrors,
        _semi: bool,
    ) -> Result<StmtErrors, AllocError>
        ensures { (i : Interpretation) (b : model.Stmt) (t : model.Expr) → HasErrorsStmt i body b → HasErrorsExpr i test t
            → IfOk result (λ s. HasErrorsStmt i s (model.Do b t _semi)) }
    {
        let first = sooner(body.first, test.first);
        Ok(plain(first))
    }

    fn make_while(&mut self, test: ExprErrors, body: StmtErrors) -> Result<StmtErrors, AllocError>
        ensures { (i : Interpretation) (t : model.Expr) (b : model.Stmt) → HasErrorsExpr i test t → HasErrorsStmt i body b
            → IfOk result (λ s. HasErrorsStmt i s (model.While t b)) }
    {
        let first = sooner(test.first, body.first);
        Ok(plain(first))
    }

    fn make_for(
        &mut self,
        init: NodeInit<ExprErrors>,
        test: Option<ExprErrors>,
        update: Option<ExprErrors>,
        body: StmtErrors,
    ) -> Result<StmtErrors, AllocError>
        ensures { (i : Interpretation) (n : model.Init) (t u : Option model.Expr) (b : model.Stmt) → ShowInit i (HasErrorsExpr i) init n
            → ShowMaybe (HasErrorsExpr i) test t → ShowMaybe (HasErrorsExpr i) update u → HasErrorsStmt i body b
            → IfOk result (λ s. HasErrorsStmt i s (model.For n (maybe_expr_of t) (maybe_expr_of u) b)) }
    {
        let updated = update.first_early();
        let turn = sooner(updated, body.first);
        let tested = test.first_early();
        let rest = sooner(tested, turn);
        let begun = init.first_early();
        let first = sooner(begun, rest);
        Ok(plain(first))
    }

    fn make_forin(
        &mut self,
        each: NodeEach<ExprErrors>,
        over: ExprErrors,
        body: StmtErrors,
    ) -> Result<StmtErrors, AllocError>
        ensures { (i : Interpretation) (n : model.Each) (t : model.Expr) (b : model.Stmt) → ShowEach i (HasErrorsExpr i) each n
            → HasErrorsExpr i over t → HasErrorsStmt i body b
            → IfOk result (λ s. HasErrorsStmt i s (model.ForIn n t b)) }
    {
        let rest = sooner(over.first, body.first);
        let first = sooner(each.first_early(), rest);
        Ok(plain(first))
    }

    fn make_continue(
        &mut self,
        _at: u32,
        _label: Option<Ident>,
        _semi: bool,
    ) -> Result<StmtErrors, AllocError>
        ensures { (i : Interpretation) → IfOk result (λ s. HasErrorsStmt i s (model.Continue _at (maybe_named i _label) _semi)) }
    {
        Ok(plain(None))
    }

    fn make_break(
        &mut self,
        _at: u32,
        _label: Option<Ident>,
        _semi: bool,
    ) -> Result<StmtErrors, AllocError>
        ensures { (i : Interpretation) → IfOk result (λ s. HasErrorsStmt i s (model.Break _at (maybe_named i _label) _semi)) }
    {
        Ok(plain(None))
    }

    fn make_return(
        &mut self,
        value: Option<ExprErrors>,
        _semi: bool,
    ) -> Result<StmtErrors, AllocError>
        ensures { (i : Interpretation) (t : Option model.Expr) → ShowMaybe (HasErrorsExpr i) value t
            → IfOk result (λ s. HasErrorsStmt i s (model.Return (maybe_expr_of t) _semi)) }
    {
        Ok(plain(value.first_early()))
    }

    fn make_throw(&mut self, value: ExprErrors, _semi: bool) -> Result<StmtErrors, AllocError>
        ensures { (i : Interpretation) (t : model.Expr) → HasErrorsExpr i value t
            → IfOk result (λ s. HasErrorsStmt i s (model.Throw t _semi)) }
    {
        Ok(plain(value.first))
    }

    fn make_switch(
        &mut self,
        of: ExprErrors,
        clauses: Vec<NodeClause<ExprErrors, StmtErrors>>,
    ) -> Result<StmtErrors, AllocError>
        ensures { (i : Interpretation) (t : model.Expr) (cs : List part.Clause) → HasErrorsExpr i of t
            → ShowAll (ShowClause (HasErrorsExpr i) (HasErrorsStmt i)) clauses.items cs
            → IfOk result (λ s. HasErrorsStmt i s (model.Switch t (clauses_of cs))) }
    {
        let first = sooner(of.first, clauses.first_early());
        Ok(plain(first))
    }

    fn make_label(&mut self, _name: Ident, body: StmtErrors) -> Result<StmtErrors, AllocError>
        ensures { (i : Interpretation) (b : model.Stmt) → HasErrorsStmt i body b
            → IfOk result (λ s. HasErrorsStmt i s (model.Label (named i _name) b)) }
    {
        Ok(plain(body.first))
    }

    fn make_try(
        &mut self,
        body: Vec<StmtErrors>,
        _param: Option<Ident>,
        handler: Vec<StmtErrors>,
    ) -> Result<StmtErrors, AllocError>
        ensures { (i : Interpretation) (bs hs : List model.Stmt) → ShowAll (HasErrorsStmt i) body.items bs
            → ShowAll (HasErrorsStmt i) handler.items hs
            → IfOk result (λ s. HasErrorsStmt i s (model.Try (stmts_of bs) (maybe_named i _param) (stmts_of hs))) }
    {
        let tried = body.first_early();
        let handled = handler.first_early();
        let first = sooner(tried, handled);
        Ok(plain(first))
    }

    fn make_declared(
        &mut self,
        func: NodeFunc<ExprErrors, BodyErrors>,
    ) -> Result<StmtErrors, AllocError>
        ensures { (i : Interpretation) (f : model.Function) → ShowFunc i (HasErrorsExpr i) (HasErrorsBody i) func f
            → IfOk result (λ s. HasErrorsStmt i s (model.Declared f)) }
    {
        Ok(plain(func.first_early()))
    }

    fn body(&mut self, items: Vec<StmtErrors>) -> Result<BodyErrors, AllocError>
        ensures { (i : Interpretation) (ss : List model.Stmt) → ShowAll (HasErrorsStmt i) items.items ss
            → IfOk result (λ b. HasErrorsBody i b (stmts_of ss)) }
    {
        let strict = first_strict(&items);
        Ok(BodyErrors {
            first: items.first_early(),
            strict,
        })
    }
}
