//! What a parser tells of the trees that it reads.

ghost use Rattle.std.specs.Prelude.{List, Option, IfOk};
ghost use Rattle.script_grammar.specs.Interpretation.{Interpretation, text_of, named, maybe_named};
ghost use Rattle.script_grammar.specs.Shows.{ShowAll, ShowMaybe, ShowArgs, ShowOperand, ShowPart, ShowTail, ShowKey, ShowFunc, ShowBind};
ghost use Rattle.script_grammar.specs.Shows.{ShowInit, ShowEach, ShowClause};
ghost use Rattle.script_grammar.specs.Tree as model;
ghost use Rattle.script_grammar.specs.TreeLists as part;
ghost use Rattle.script_grammar.specs.TreeLists.{exprs_of, maybe_expr_of, items_of, maybe_args_of, operands_of, parts_of, tails_of};
ghost use Rattle.script_grammar.specs.TreeLists.{props_of, binds_of, clauses_of, stmts_of, maybe_stmt_of};

use crate::node::{
    NodeArgs, NodeBind, NodeClause, NodeEach, NodeFunc, NodeInit, NodeKey, NodeOperand, NodeTail,
    NodeTemplatePart,
};
use crate::token::Decl;
use crate::tree::Ident;
use std::alloc::AllocError;

/// Makes a node for each part of a script that a parser reads.
///
/// `E`, `S`, `P` and `B` are the nodes of expressions, statements, properties and function bodies. There is one method
/// for each variant of `Expr`, `Prop` and `Stmt`, and `body` for a list of statements. Each law says: whatever atoms
/// and passed bodies stand for, the node that a method makes stands for the variant made of the trees that its
/// arguments stand for. Where memory runs out the arguments are dropped.
pub trait Handler {
    type E: Drop;

    type S: Drop;

    type P: Drop;

    type B: Drop;

    // which trees a node stands for under an interpretation
    ghost shows_expr: { Interpretation → Self.E → model.Expr → Type 0 };

    ghost shows_stmt: { Interpretation → Self.S → model.Stmt → Type 0 };

    ghost shows_prop: { Interpretation → Self.P → model.Prop → Type 0 };

    ghost shows_body: { Interpretation → Self.B → model.Stmts → Type 0 };

    fn make_this(&mut self, at: u32) -> Result<Self::E, AllocError>
        ensures { (i : Interpretation) → IfOk result (λ e. shows_expr i e (model.This at)) };

    fn make_name(&mut self, name: Ident) -> Result<Self::E, AllocError>
        ensures { (i : Interpretation) → IfOk result (λ e. shows_expr i e (model.Name (named i name))) };

    fn make_null(&mut self, at: u32) -> Result<Self::E, AllocError>
        ensures { (i : Interpretation) → IfOk result (λ e. shows_expr i e (model.Null at)) };

    fn make_true(&mut self, at: u32) -> Result<Self::E, AllocError>
        ensures { (i : Interpretation) → IfOk result (λ e. shows_expr i e (model.True at)) };

    fn make_false(&mut self, at: u32) -> Result<Self::E, AllocError>
        ensures { (i : Interpretation) → IfOk result (λ e. shows_expr i e (model.False at)) };

    fn make_number(&mut self, at: u32, value: u64) -> Result<Self::E, AllocError>
        ensures { (i : Interpretation) → IfOk result (λ e. shows_expr i e (model.Number at value)) };

    fn make_str(&mut self, at: u32, end: u32, atom: u32) -> Result<Self::E, AllocError>
        ensures { (i : Interpretation) → IfOk result (λ e. shows_expr i e (model.Str at end (text_of i atom))) };

    fn make_template(
        &mut self,
        at: u32,
        first: u32,
        parts: Vec<NodeTemplatePart<Self::E>>,
    ) -> Result<Self::E, AllocError>
        ensures { (i : Interpretation) (ps : List part.Part) → ShowAll (ShowPart i (shows_expr i)) parts.items ps
            → IfOk result (λ e. shows_expr i e (model.Template at (text_of i first) (parts_of ps))) };

    fn make_array(
        &mut self,
        at: u32,
        items: Vec<Option<Self::E>>,
        comma: bool,
    ) -> Result<Self::E, AllocError>
        ensures { (i : Interpretation) (ts : List (Option model.Expr)) → ShowAll (ShowMaybe (shows_expr i)) items.items ts
            → IfOk result (λ e. shows_expr i e (model.Array at (items_of ts) comma)) };

    fn make_object(
        &mut self,
        at: u32,
        props: Vec<Self::P>,
        comma: bool,
    ) -> Result<Self::E, AllocError>
        ensures { (i : Interpretation) (ps : List model.Prop) → ShowAll (shows_prop i) props.items ps
            → IfOk result (λ e. shows_expr i e (model.Object at (props_of ps) comma)) };

    fn make_func(
        &mut self,
        at: u32,
        func: NodeFunc<Self::E, Self::B>,
    ) -> Result<Self::E, AllocError>
        ensures { (i : Interpretation) (f : model.Function) → ShowFunc i (shows_expr i) (shows_body i) func f
            → IfOk result (λ e. shows_expr i e (model.Func at f)) };

    fn make_paren(&mut self, at: u32, inner: Self::E) -> Result<Self::E, AllocError>
        ensures { (i : Interpretation) (t : model.Expr) → shows_expr i inner t
            → IfOk result (λ e. shows_expr i e (model.Paren at t)) };

    fn make_chain(
        &mut self,
        head: Self::E,
        tails: Vec<NodeTail<Self::E>>,
    ) -> Result<Self::E, AllocError>
        ensures { (i : Interpretation) (t : model.Expr) (ts : List model.Tail) → shows_expr i head t
            → ShowAll (ShowTail i (shows_expr i)) tails.items ts
            → IfOk result (λ e. shows_expr i e (model.Chain t (tails_of ts))) };

    fn make_new(
        &mut self,
        at: u32,
        callee: Self::E,
        args: Option<NodeArgs<Self::E>>,
    ) -> Result<Self::E, AllocError>
        ensures { (i : Interpretation) (t : model.Expr) (a : Option part.Args) → shows_expr i callee t → ShowMaybe (ShowArgs (shows_expr i)) args a
            → IfOk result (λ e. shows_expr i e (model.New at t (maybe_args_of a))) };

    fn make_unary(
        &mut self,
        at: u32,
        op: u8,
        of: Self::E,
        is_word: bool,
    ) -> Result<Self::E, AllocError>
        ensures { (i : Interpretation) (t : model.Expr) → shows_expr i of t
            → IfOk result (λ e. shows_expr i e (model.Unary at op t is_word)) };

    fn make_update(
        &mut self,
        at: u32,
        op: u8,
        prefix: bool,
        of: Self::E,
    ) -> Result<Self::E, AllocError>
        ensures { (i : Interpretation) (t : model.Expr) → shows_expr i of t
            → IfOk result (λ e. shows_expr i e (model.Update at op prefix t)) };

    fn make_binary(
        &mut self,
        first: Self::E,
        rest: Vec<NodeOperand<Self::E>>,
    ) -> Result<Self::E, AllocError>
        ensures { (i : Interpretation) (t : model.Expr) (os : List part.Operand) → shows_expr i first t
            → ShowAll (ShowOperand (shows_expr i)) rest.items os
            → IfOk result (λ e. shows_expr i e (model.Binary t (operands_of os))) };

    fn make_cond(&mut self, test: Self::E, yes: Self::E, no: Self::E) -> Result<Self::E, AllocError>
        ensures { (i : Interpretation) (t u v : model.Expr) → shows_expr i test t → shows_expr i yes u → shows_expr i no v
            → IfOk result (λ e. shows_expr i e (model.Cond t u v)) };

    fn make_assign(
        &mut self,
        op: u8,
        target: Self::E,
        value: Self::E,
    ) -> Result<Self::E, AllocError>
        ensures { (i : Interpretation) (t v : model.Expr) → shows_expr i target t → shows_expr i value v
            → IfOk result (λ e. shows_expr i e (model.Assign op t v)) };

    fn make_comma(&mut self, items: Vec<Self::E>) -> Result<Self::E, AllocError>
        ensures { (i : Interpretation) (ts : List model.Expr) → ShowAll (shows_expr i) items.items ts
            → IfOk result (λ e. shows_expr i e (model.Comma (exprs_of ts))) };

    fn make_short(&mut self, name: Ident) -> Result<Self::P, AllocError>
        ensures { (i : Interpretation) → IfOk result (λ p. shows_prop i p (model.Short (named i name))) };

    fn make_pair(&mut self, key: NodeKey<Self::E>, value: Self::E) -> Result<Self::P, AllocError>
        ensures { (i : Interpretation) (k : model.Key) (v : model.Expr) → ShowKey i (shows_expr i) key k → shows_expr i value v
            → IfOk result (λ p. shows_prop i p (model.Pair k v)) };

    fn make_method(
        &mut self,
        key: NodeKey<Self::E>,
        func: NodeFunc<Self::E, Self::B>,
    ) -> Result<Self::P, AllocError>
        ensures { (i : Interpretation) (k : model.Key) (f : model.Function) → ShowKey i (shows_expr i) key k
            → ShowFunc i (shows_expr i) (shows_body i) func f
            → IfOk result (λ p. shows_prop i p (model.Method k f)) };

    fn make_get(
        &mut self,
        key: NodeKey<Self::E>,
        func: NodeFunc<Self::E, Self::B>,
    ) -> Result<Self::P, AllocError>
        ensures { (i : Interpretation) (k : model.Key) (f : model.Function) → ShowKey i (shows_expr i) key k
            → ShowFunc i (shows_expr i) (shows_body i) func f
            → IfOk result (λ p. shows_prop i p (model.Get k f)) };

    fn make_set(
        &mut self,
        key: NodeKey<Self::E>,
        func: NodeFunc<Self::E, Self::B>,
    ) -> Result<Self::P, AllocError>
        ensures { (i : Interpretation) (k : model.Key) (f : model.Function) → ShowKey i (shows_expr i) key k
            → ShowFunc i (shows_expr i) (shows_body i) func f
            → IfOk result (λ p. shows_prop i p (model.Set k f)) };

    fn make_block(&mut self, items: Vec<Self::S>) -> Result<Self::S, AllocError>
        ensures { (i : Interpretation) (ss : List model.Stmt) → ShowAll (shows_stmt i) items.items ss
            → IfOk result (λ s. shows_stmt i s (model.Block (stmts_of ss))) };

    fn make_empty(&mut self) -> Result<Self::S, AllocError>
        ensures { (i : Interpretation) → IfOk result (λ s. shows_stmt i s model.Empty) };

    fn make_debugger(&mut self, semi: bool) -> Result<Self::S, AllocError>
        ensures { (i : Interpretation) → IfOk result (λ s. shows_stmt i s (model.Debugger semi)) };

    fn make_binds(
        &mut self,
        decl: Decl,
        binds: Vec<NodeBind<Self::E>>,
        semi: bool,
    ) -> Result<Self::S, AllocError>
        ensures { (i : Interpretation) (bs : List part.Bind) → ShowAll (ShowBind i (shows_expr i)) binds.items bs
            → IfOk result (λ s. shows_stmt i s (model.Binding decl (binds_of bs) semi)) };

    fn make_value(&mut self, value: Self::E, semi: bool) -> Result<Self::S, AllocError>
        ensures { (i : Interpretation) (t : model.Expr) → shows_expr i value t
            → IfOk result (λ s. shows_stmt i s (model.Value t semi)) };

    fn make_if(
        &mut self,
        test: Self::E,
        yes: Self::S,
        no: Option<Self::S>,
    ) -> Result<Self::S, AllocError>
        ensures { (i : Interpretation) (t : model.Expr) (u : model.Stmt) (v : Option model.Stmt) → shows_expr i test t → shows_stmt i yes u
            → ShowMaybe (shows_stmt i) no v
            → IfOk result (λ s. shows_stmt i s (model.If t u (maybe_stmt_of v))) };

    fn make_do(&mut self, body: Self::S, test: Self::E, semi: bool) -> Result<Self::S, AllocError>
        ensures { (i : Interpretation) (b : model.Stmt) (t : model.Expr) → shows_stmt i body b → shows_expr i test t
            → IfOk result (λ s. shows_stmt i s (model.Do b t semi)) };

    fn make_while(&mut self, test: Self::E, body: Self::S) -> Result<Self::S, AllocError>
        ensures { (i : Interpretation) (t : model.Expr) (b : model.Stmt) → shows_expr i test t → shows_stmt i body b
            → IfOk result (λ s. shows_stmt i s (model.While t b)) };

    fn make_for(
        &mut self,
        init: NodeInit<Self::E>,
        test: Option<Self::E>,
        update: Option<Self::E>,
        body: Self::S,
    ) -> Result<Self::S, AllocError>
        ensures { (i : Interpretation) (n : model.Init) (t u : Option model.Expr) (b : model.Stmt) → ShowInit i (shows_expr i) init n
            → ShowMaybe (shows_expr i) test t → ShowMaybe (shows_expr i) update u → shows_stmt i body b
            → IfOk result (λ s. shows_stmt i s (model.For n (maybe_expr_of t) (maybe_expr_of u) b)) };

    fn make_forin(
        &mut self,
        each: NodeEach<Self::E>,
        over: Self::E,
        body: Self::S,
    ) -> Result<Self::S, AllocError>
        ensures { (i : Interpretation) (n : model.Each) (t : model.Expr) (b : model.Stmt) → ShowEach i (shows_expr i) each n
            → shows_expr i over t → shows_stmt i body b
            → IfOk result (λ s. shows_stmt i s (model.ForIn n t b)) };

    fn make_continue(
        &mut self,
        at: u32,
        label: Option<Ident>,
        semi: bool,
    ) -> Result<Self::S, AllocError>
        ensures { (i : Interpretation) → IfOk result (λ s. shows_stmt i s (model.Continue at (maybe_named i label) semi)) };

    fn make_break(
        &mut self,
        at: u32,
        label: Option<Ident>,
        semi: bool,
    ) -> Result<Self::S, AllocError>
        ensures { (i : Interpretation) → IfOk result (λ s. shows_stmt i s (model.Break at (maybe_named i label) semi)) };

    fn make_return(&mut self, value: Option<Self::E>, semi: bool) -> Result<Self::S, AllocError>
        ensures { (i : Interpretation) (t : Option model.Expr) → ShowMaybe (shows_expr i) value t
            → IfOk result (λ s. shows_stmt i s (model.Return (maybe_expr_of t) semi)) };

    fn make_throw(&mut self, value: Self::E, semi: bool) -> Result<Self::S, AllocError>
        ensures { (i : Interpretation) (t : model.Expr) → shows_expr i value t
            → IfOk result (λ s. shows_stmt i s (model.Throw t semi)) };

    fn make_switch(
        &mut self,
        of: Self::E,
        clauses: Vec<NodeClause<Self::E, Self::S>>,
    ) -> Result<Self::S, AllocError>
        ensures { (i : Interpretation) (t : model.Expr) (cs : List part.Clause) → shows_expr i of t
            → ShowAll (ShowClause (shows_expr i) (shows_stmt i)) clauses.items cs
            → IfOk result (λ s. shows_stmt i s (model.Switch t (clauses_of cs))) };

    fn make_label(&mut self, name: Ident, body: Self::S) -> Result<Self::S, AllocError>
        ensures { (i : Interpretation) (b : model.Stmt) → shows_stmt i body b
            → IfOk result (λ s. shows_stmt i s (model.Label (named i name) b)) };

    fn make_try(
        &mut self,
        body: Vec<Self::S>,
        param: Option<Ident>,
        handler: Vec<Self::S>,
    ) -> Result<Self::S, AllocError>
        ensures { (i : Interpretation) (bs hs : List model.Stmt) → ShowAll (shows_stmt i) body.items bs → ShowAll (shows_stmt i) handler.items hs
            → IfOk result (λ s. shows_stmt i s (model.Try (stmts_of bs) (maybe_named i param) (stmts_of hs))) };

    fn make_declared(&mut self, func: NodeFunc<Self::E, Self::B>) -> Result<Self::S, AllocError>
        ensures { (i : Interpretation) (f : model.Function) → ShowFunc i (shows_expr i) (shows_body i) func f
            → IfOk result (λ s. shows_stmt i s (model.Declared f)) };

    fn body(&mut self, items: Vec<Self::S>) -> Result<Self::B, AllocError>
        ensures { (i : Interpretation) (ss : List model.Stmt) → ShowAll (shows_stmt i) items.items ss
            → IfOk result (λ b. shows_body i b (stmts_of ss)) };
}
